use dq_base::{Table, Text};
use dq_link::{Link, Lost, Pooled};
use std::sync::Arc;

/// An answer that is ready to land: the text of its query, and two owners of its table, of which the desk gets one.
#[derive(Drop)]
pub(crate) struct Answer {
    pub(crate) body: Text,
    pub(crate) table: Arc<Table>,
    pub(crate) further: Arc<Table>,
}

/// How far a flight is.
#[derive(Drop)]
pub(crate) enum Phase<L: Link> {
    /// It has no link.
    New,
    /// It has this link, which was idle, and is to be tried on it.
    Idle(Pooled<L>),
    /// A link is to be dialled under this number, and it is to be tried on that.
    Dial(u64),
    /// Its link is to be given back: whether it ran the statement, and the answer, unless memory was wanting.
    Back(Pooled<L>, bool, Option<Answer>),
    /// The link of this number had a fault, or its dial failed.
    Lost(u64, Lost<L>),
    /// Memory was wanting for the dial.
    Undialled,
    /// Its link was given back, and it is to land.
    Landing(Answer),
    /// Its link was given back, and memory was wanting.
    Falling,
}
