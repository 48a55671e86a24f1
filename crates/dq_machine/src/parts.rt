use crate::flown::Flown;
use crate::links::Links;
use crate::shelved::Shelves;
use crate::stands::Stand;
use crate::versions::Versions;
use crate::works::Works;
use dq_base::List;
use std::marker::Model;

/// The machine's state, and what stands of each extract.
#[derive(Drop)]
pub(crate) struct Parts {
    pub(crate) versions: Versions,
    pub(crate) stands: Vec<Stand>,
    pub(crate) works: Works,
    pub(crate) shelves: Shelves,
    pub(crate) flown: List<Flown>,
    pub(crate) started: u64,
    pub(crate) links: Links,
}

impl Model for Parts {
    ghost use Rattle.dq_machine.specs.Parts.{PartsOf};

    ghost Value = { PartsOf };

    ghost view = { λ p. record {
      state = record {
        versions = p.versions;
        works = p.works;
        shelves = p.shelves;
        flights = record { flown = p.flown; started = p.started };
        links = p.links;
      };
      stands = p.stands.items;
    } };
}
