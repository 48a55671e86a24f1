use dq_base::{Kept, List};

/// What a remote query met at its admission, each with the number of a flight.
#[derive(Clone, Copy, Debug, PartialEq, Eq)]
pub enum Met {
    /// The intelligent cache had an answer that covers it, which that flight brought.
    Hit(u64),
    /// The literal cache had its answer, which that flight brought.
    Literal(u64),
    /// That running flight covers it.
    Join(u64),
    /// It missed, and that flight is the one of its group.
    Group(u64),
}

/// What the remote queries of a batch met, in zone order.
pub type Meets = List<Met>;

/// Why a flight fell.
#[derive(Clone, Copy, Debug, PartialEq, Eq)]
pub enum Cause {
    /// Two links or dials failed.
    BackEnd,
    /// Memory was wanting.
    Memory,
}

/// One event of a run, of a lane.
///
/// Lanes, steps, flights and links are numbered from 1. `runs` and `calls` are the link's counts then, and `ran` says
/// whether a statement was run in this lease.
#[derive(Debug, Drop)]
pub enum Entry {
    /// A publish step of the script was done.
    Publish {
        lane: u32,
        step: u32,
    },
    /// A batch of the script was admitted.
    Admit {
        lane: u32,
        step: u32,
        met: Meets,
    },
    /// A link was leased for a flight: an idle one, or a fresh one that is dialled.
    Lease {
        lane: u32,
        flight: u64,
        link: u64,
        fresh: bool,
    },
    /// A link was given back.
    Give {
        lane: u32,
        flight: u64,
        link: u64,
        ran: bool,
        runs: u64,
        calls: u64,
    },
    /// A link was lost, or its dial failed: then it isn't dialled, `ran` is false and both counts are 0.
    Lose {
        lane: u32,
        flight: u64,
        link: u64,
        dialled: bool,
        ran: bool,
        runs: u64,
        calls: u64,
    },
    /// A flight landed with an answer of so many cells, and what both caches did with it.
    Land {
        lane: u32,
        flight: u64,
        cells: u64,
        clever: Kept,
        literal: Kept,
    },
    /// A flight fell.
    Fall {
        lane: u32,
        flight: u64,
        cause: Cause,
    },
    /// A joiner took a landed flight's answer, or found it fallen and started the next flight.
    Take {
        lane: u32,
        flight: u64,
        next: Option<u64>,
    },
    /// The lane is done.
    End {
        lane: u32,
    },
}
