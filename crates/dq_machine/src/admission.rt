use crate::joined::Joined;
use crate::shelved::Shelves;
use dq_base::List;
use dq_fuse::Groups;
use dq_journal::Meets;
use std::marker::Model;

/// What the remote queries of a batch meet, and what that leaves.
#[derive(Drop)]
pub(crate) struct Admission {
    pub(crate) shelves: Shelves,
    pub(crate) met: Meets,
    pub(crate) groups: Groups,
    pub(crate) joins: List<Joined>,
}

impl Model for Admission {
    ghost use Rattle.dq_machine.specs.Admitting.{Admission as AdmissionOf};

    ghost Value = { AdmissionOf };

    ghost view = { λ a. record { shelves = a.shelves; met = a.met; groups = a.groups; joins = a.joins } };
}
