ghost use Rattle.std.specs.Arc.{arc_value};
ghost use Rattle.std.specs.Prelude.{◌≡◌};

use dq_base::{Canon, List, Numbers};
use std::marker::Model;
use std::sync::Arc;

/// Queries that one statement answers: the statement's query, and the places of the members, from 0, ascending.
#[derive(Drop)]
pub struct Group {
    key: Arc<Canon>,
    members: Numbers,
}

/// Groups in the order in which their first members stand.
pub type Groups = List<Group>;

impl Model for Group {
    ghost use Rattle.std.specs.Arc.{arc_value};
    ghost use Rattle.dq_base.specs.Batches.{Group as GroupOf};

    ghost Value = { GroupOf };

    ghost view = { λ g. record { key = arc_value g.key; members = g.members } };
}

impl Group {
    /// The group of this key and these members.
    pub(crate) fn new(key: Arc<Canon>, members: Numbers) -> Group
        ensures { result ≡ record { key = arc_value key; members = members } }
    {
        Group { key, members }
    }

    /// The query of the group's statement, in constant time.
    pub fn key(&self) -> &Arc<Canon>
        ensures { arc_value result.now ≡ self.now.key }
    {
        &self.key
    }

    /// The places of the members, in constant time.
    pub fn members(&self) -> &Numbers
        ensures { result.now ≡ self.now.members }
    {
        &self.members
    }
}
