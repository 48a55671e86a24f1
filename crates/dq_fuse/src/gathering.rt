ghost use Rattle.std.specs.Arc.{arc_value};
ghost use Rattle.std.specs.Prelude.{◌≡◌, [], ◌∷◌, ◌++◌, IfOk, OnOk};
ghost use Rattle.dq_fuse.specs.Gathered.{alone, group_of, joined};

use crate::group::Group;
use crate::union::fused_key;
use dq_base::{Canon, Canons, Memory, Numbers};
use std::alloc::Global;
use std::marker::Model;
use std::sync::Arc;

/// A group whose key isn't made yet: its first member, its other members, and the places of all.
#[derive(Drop)]
pub(crate) struct Gathering {
    first: Arc<Canon>,
    others: Canons,
    members: Numbers,
}

impl Model for Gathering {
    ghost use Rattle.std.specs.Arc.{arc_value};
    ghost use Rattle.dq_fuse.specs.Gathered.{Gathered};

    ghost Value = { Gathered };

    ghost view = { λ g. record { first = arc_value g.first; others = g.others; members = g.members } };
}

impl Gathering {
    /// A query alone.
    pub(crate) fn alone(alloc: Global, place: u32, owner: &Arc<Canon>) -> Result<Gathering, Memory>
        ensures { IfOk result (λ g. g ≡ alone (place, arc_value owner.now)) }
    {
        let mut members = Numbers::new(alloc);
        members.push(place)?;
        Ok(Gathering {
            first: Arc::try_clone(owner)?,
            others: Canons::new(alloc),
            members,
        })
    }

    /// A further member.
    pub(crate) fn join(&mut self, place: u32, owner: &Arc<Canon>) -> Result<(), Memory>
        ensures { OnOk result (self.new ≡ joined self.old (place, arc_value owner.now)) }
    {
        let owner = Arc::try_clone(owner)?;
        self.members.push(place)?;
        self.others.push(owner)
    }

    /// The group with its key, in the time of reading all members' measures and one member's query.
    pub(crate) fn into_group(self, alloc: Global) -> Result<Group, Memory>
        ensures { IfOk result (λ g. g ≡ group_of self) }
    {
        if self.others.len() == 0 {
            return Ok(Group::new(self.first, self.members));
        }
        let key = fused_key(alloc, self.first.query(), &self.others)?;
        Ok(Group::new(key, self.members))
    }
}
