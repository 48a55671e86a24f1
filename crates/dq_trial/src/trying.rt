ghost use Rattle.std.specs.Arc.{arc_value};
ghost use Rattle.std.specs.Prelude.{◌≡◌, ◌-◌, ◌^◌, ◌<◌, ◌≤◌, None};
ghost use Rattle.dq_base.specs.Validity.{invalid_by};
ghost use Rattle.dq_link.specs.Meanings.{HasMeaning};
ghost use Rattle.dq_trial.specs.Links.{IsLink, IsNamed};
ghost use Rattle.dq_text.specs.Statements.{spelling};
ghost use Rattle.dq_trial.specs.Running.{OfTried, RunsAs};
ghost use Rattle.dq_trial.specs.Trying.{Trial, TriedAs};

use dq_base::{Canon, Table};
use dq_extract::Extract;
use dq_link::{Link, Pooled, Ran, Readied, Wreck};
use dq_outside::Gate;
use dq_text::Statement;
use std::alloc::Global;
use std::sync::Arc;

/// What trying a flight on a link came to.
#[derive(Drop)]
pub enum Tried<L: Link> {
    /// The statement was answered.
    Answered(Pooled<L>, Table),
    /// Memory was wanting; whether the link was given the statement to run.
    Wanting(Pooled<L>, bool),
    /// The link had a fault; whether it was given the statement to run.
    Lost(Wreck<L>, bool),
}

/// Runs a statement on a link that was made ready for it.
fn run_ready<L: Link>(alloc: Global, link: Pooled<L>, statement: &Statement) -> Tried<L>
    requires meaning { HasMeaning (L.mounts link.link) (L.tables link.link) (spelling statement.now) }
    requires room { L.calls link.link < 2 ^ 40 }
    ensures runs { RunsAs L.runs L.calls L.mounts L.tables link (spelling statement.now) result }
    ensures planned { OfTried (λ l. L.planned l ≡ L.planned link.link) result }
{
    let runs = link.runs();
    match link.run(alloc, statement) {
        Ran::Done(link, table) => Tried::Answered(link, table),
        Ran::Memory(link) => {
            let ran = link.runs() != runs;
            Tried::Wanting(link, ran)
        }
        Ran::Failed(wreck) => Tried::Lost(wreck, true),
    }
}

/// Tries a flight on the link that was leased for it: the link is made ready for the flight's key over the version of its stamp, the
/// gate is passed, and the statement is run. What comes back is what the desk asks of a link that is given back or lost. The cost
/// is that of making it ready, and of the link's run.
pub fn try_flight<L: Link, G: Gate>(
    alloc: Global,
    gate: &G,
    lane: u32,
    step: u32,
    link: Pooled<L>,
    stamp: u64,
    extract: &Arc<Extract>,
    key: &Canon,
) -> Tried<L>
    ghost t: { Trial }
    requires link { IsLink (record { runs = L.runs; calls = L.calls; mounts = L.mounts; planned = L.planned }) t.loaded t.versions t.link link }
    requires key { t.flight.key ≡ key.now }
    requires same { t.flight.stamp ≡ stamp }
    requires stood { IsNamed t.loaded.script.schemas t.versions key.now.source (record { stamp = stamp; version = arc_value extract.now }) }
    requires valid { invalid_by t.loaded.script.schemas key.now ≡ None }
    requires room { L.calls link.link ≤ 2 ^ 40 - 34 }
    ensures { TriedAs (record { runs = L.runs; calls = L.calls; mounts = L.mounts; planned = L.planned }) t result }
{
    match link.ready(alloc, stamp, extract, key) {
        Readied::Memory(link) => Tried::Wanting(link, false),
        Readied::Failed(wreck) => Tried::Lost(wreck, false),
        Readied::Ready(link, statement) => {
            gate.pass(lane, step);
            run_ready(alloc, link, &statement)
        }
    }
}
