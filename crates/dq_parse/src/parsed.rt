use dq_journal::{Journal, LaneResultsList};

/// The journal and the results that a report shows.
#[derive(Drop)]
pub struct Parsed {
    pub journal: Journal,
    pub results: LaneResultsList,
}
