use dq_batch::{Batch, Preparation};
use dq_link::Link;

/// How far a lane is.
#[derive(Drop)]
pub(crate) enum Progress<L: Link> {
    /// The next step wasn't looked at.
    Fresh,
    /// Nothing is to be done before the next turn.
    Ready,
    /// The next step is a batch, and this is its preparation.
    Prepared(Preparation),
    /// The last step is a batch that was admitted.
    Open(Batch<L>),
}
