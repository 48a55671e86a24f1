/// What is wrong with a report: the first that holds.
#[derive(Clone, Copy, Debug, PartialEq, Eq)]
pub enum Verdict {
    /// Nothing: its journal is legal, and there are right results that are shown so.
    Lawful,
    /// The bytes are the report on no journal and results.
    NotReport,
    /// The journal doesn't keep the order of each lane's steps, or the results don't tell its places.
    Disorder,
    /// The entry at this place, from 1, may not come after those before it.
    Illegal(u64),
    /// The zone of that lane and step, all from 1, that no right results show so; zone 0 stands for another number of outcomes.
    Wrong(u32, u32, u32),
}
