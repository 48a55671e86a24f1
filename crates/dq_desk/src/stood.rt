ghost use Rattle.std.specs.Arc.{arc_value};
ghost use Rattle.std.specs.Prelude.{◌≡◌};

use dq_base::{Canon, List, Numbers};
use dq_extract::Extract;
use std::marker::Model;
use std::sync::Arc;

/// What stands of an extract, with its stamp: 0 before its first publication, afterwards how many publications of any extract
/// there were up to and with its latest.
#[derive(Drop)]
pub struct Stood {
    pub stamp: u64,
    pub extract: Arc<Extract>,
}

impl Model for Stood {
    ghost use Rattle.std.specs.Arc.{arc_value};
    ghost use Rattle.dq_desk.specs.Admissions.{StoodOf};

    ghost Value = { StoodOf };

    ghost view = { λ s. record { stamp = s.stamp; extract = arc_value s.extract } };
}

impl Stood {
    /// A version under a stamp.
    pub fn new(stamp: u64, extract: Arc<Extract>) -> Stood
        ensures { result ≡ record { stamp = stamp; extract = arc_value extract } }
    {
        Stood { stamp, extract }
    }

    /// The stamp.
    pub fn stamp(&self) -> u64
        ensures { result ≡ self.now.stamp }
    {
        self.stamp
    }

    /// The version.
    pub fn extract(&self) -> &Arc<Extract>
        ensures { arc_value result.now ≡ self.now.extract }
    {
        &self.extract
    }
}

/// What stands of the sources of a batch's remote queries, in order.
pub type Stoods = List<Stood>;

/// A flight that an admission started: its number, its key, what stands of the key's source, and the places of its group's members
/// among the queries that missed, from 0.
#[derive(Drop)]
pub struct Started {
    pub flight: u64,
    pub key: Arc<Canon>,
    pub stood: Stood,
    pub members: Numbers,
}

impl Model for Started {
    ghost use Rattle.std.specs.Arc.{arc_value};
    ghost use Rattle.dq_desk.specs.Admissions.{StartedOf};

    ghost Value = { StartedOf };

    ghost view = { λ s. record { flight = s.flight; key = arc_value s.key; stood = s.stood; members = s.members } };
}

impl Started {
    /// The flight's number.
    pub fn flight(&self) -> u64
        ensures { result ≡ self.now.flight }
    {
        self.flight
    }

    /// Its key.
    pub fn key(&self) -> &Arc<Canon>
        ensures { arc_value result.now ≡ self.now.key }
    {
        &self.key
    }

    /// What stands of its key's source.
    pub fn stood(&self) -> &Stood
        ensures { result.now ≡ self.now.stood }
    {
        &self.stood
    }

    /// The places of its group's members among the queries that missed, from 0.
    pub fn members(&self) -> &Numbers
        ensures { result.now ≡ self.now.members }
    {
        &self.members
    }
}

/// The flights that an admission started, in the order of their numbers.
pub type Starteds = List<Started>;
