use crate::bound::Bound;
use crate::list::{List, Numbers, Numbers64, Text, Texts};
use crate::predicate::Predicates;
use crate::query::Queries;
use crate::schema::Schemas;

/// How a publication takes a file's rows: in place of the standing ones, or behind them.
#[derive(Clone, Copy, Debug, PartialEq, Eq)]
pub enum How {
    Replace,
    Append,
}

/// A step of a session: a refresh of an extract from a file, or a dashboard's zones as one batch.
#[derive(Debug, Drop)]
pub enum Step {
    Publish { source: u32, how: How, file: Text },
    Batch(Queries),
}

/// The steps of a lane, which are numbered from 1.
pub type Steps = List<Step>;

/// The steps of each lane. Lanes are numbered from 1.
pub type LaneSteps = List<Steps>;

/// What a script wants to fail in a lane: the numbers of its dials, and for each link that it gets the number of the
/// link's call, 0 for none. Both count from 1.
#[derive(Debug, Drop)]
pub struct Fails {
    pub dials: Numbers64,
    pub links: Numbers64,
}

/// One item for each lane.
pub type FailsList = List<Fails>;

/// What a lane's session may see of a source: the rows that every one of its filters keeps.
#[derive(Debug, Drop)]
pub struct Session {
    pub lane: u32,
    pub source: u32,
    pub filters: Predicates,
}

/// Sessions, of which no two are of one lane and one source.
pub type Sessions = List<Session>;

/// Two neighbouring zones of a batch that are shown as one. `zone` is the number of the first one, and `links` has for each
/// dimension of the second one the place of its like among those of the first, from 1.
#[derive(Debug, Drop)]
pub struct Blend {
    pub lane: u32,
    pub step: u32,
    pub zone: u32,
    pub links: Numbers,
}

/// Blends in order of lanes, steps and zones.
pub type Blends = List<Blend>;

/// A script: the extracts' names and schemas, the bounds of both caches, the lanes, the schedule's turns as lane numbers,
/// what is wanted to fail, the sessions' filters, and the zones that are blended.
#[derive(Debug, Drop)]
pub struct Script {
    pub names: Texts,
    pub schemas: Schemas,
    pub literal: Bound,
    pub clever: Bound,
    pub lanes: LaneSteps,
    pub schedule: Numbers,
    pub fails: FailsList,
    pub sessions: Sessions,
    pub blends: Blends,
}
