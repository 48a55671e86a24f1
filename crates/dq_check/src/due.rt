ghost use Rattle.std.specs.Arc.{arc_value};
ghost use Rattle.std.specs.Prelude.{◌≡◌};
ghost use Rattle.dq_check.specs.Fates.{fate_of};

use dq_base::{Invalid, Numbers, Table};
use std::marker::Model;
use std::sync::Arc;

/// What may be said of a valid zone, by its flight.
#[derive(Clone, Copy, Debug, PartialEq, Eq)]
pub(crate) enum Fated {
    /// It has its answer, unless memory is wanting.
    Answered,
    /// The back end failed twice.
    Failed,
    /// Memory was wanting.
    Wanting,
}

/// What is due to a zone. Contracts see its answer as the table.
#[derive(Drop)]
pub(crate) struct Due {
    reason: Option<Invalid>,
    fate: Fated,
    want: Arc<Table>,
    leader: Option<u64>,
}

impl Model for Due {
    ghost use Rattle.std.specs.Arc.{arc_value};
    ghost use Rattle.dq_check.specs.Dues.{DueOf};

    ghost Value = { DueOf };

    ghost use Rattle.dq_check.specs.Fates.{fate_of};

    ghost view = { λ d. record { reason = d.reason; fate = fate_of d.fate; want = arc_value d.want; leader = d.leader } };
}

impl Due {
    /// What is due to a zone: why it is refused as invalid, if it is; what became of its flight; its answer; and the place of
    /// the zone from which it is computed, from 0, if there is one.
    pub(crate) fn new(
        reason: Option<Invalid>,
        fate: Fated,
        want: Arc<Table>,
        leader: Option<u64>,
    ) -> Due
        ensures { result ≡ record { reason = reason; fate = fate_of fate; want = arc_value want; leader = leader } }
    {
        Due {
            reason,
            fate,
            want,
            leader,
        }
    }

    /// Why the zone is refused as invalid, if it is.
    pub(crate) fn reason(&self) -> Option<Invalid>
        ensures { result ≡ self.now.reason }
    {
        self.reason
    }

    /// What became of its flight.
    pub(crate) fn fate(&self) -> Fated
        ensures { fate_of result ≡ self.now.fate }
    {
        self.fate
    }

    /// Its answer.
    pub(crate) fn want(&self) -> &Table
        ensures { result.now ≡ self.now.want }
    {
        &self.want
    }

    /// The place of the zone from which it is computed, from 0, if there is one.
    pub(crate) fn leader(&self) -> Option<u64>
        ensures { result ≡ self.now.leader }
    {
        self.leader
    }
}

/// How the outcomes of two zones are shown as one.
#[derive(Drop)]
pub(crate) struct Joining {
    links: Numbers,
    measures: u32,
}

impl Model for Joining {
    ghost use Rattle.dq_journal.specs.Shown.{Joint};

    ghost Value = { Joint };

    ghost view = { λ j. record { links = j.links; measures = j.measures } };
}

impl Joining {
    /// Two outcomes joined at these places of the first one's dimensions, from 1, where the second one brings so many measures.
    pub(crate) fn new(links: Numbers, measures: u32) -> Joining
        ensures { result ≡ record { links = links; measures = measures } }
    {
        Joining { links, measures }
    }

    /// The places of the dimensions on which they agree, from 1.
    pub(crate) fn links(&self) -> &Numbers
        ensures { result.now ≡ self.now.links }
    {
        &self.links
    }

    /// How many measures the second one brings.
    pub(crate) fn measures(&self) -> u32
        ensures { result ≡ self.now.measures }
    {
        self.measures
    }
}
