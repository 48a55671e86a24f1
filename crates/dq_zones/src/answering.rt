ghost use Rattle.std.specs.Prelude.{◌≡◌, ℕ, ◌+◌, ◌<◌, ◌≤◌, ◌^◌, length, slice_get, Some, List as ListOf};
ghost use Rattle.dq_base.specs.declared.canon.Role.TheVariants as role_of;
ghost use Rattle.dq_base.specs.declared.query.Query.{Query as QueryOf};
ghost use Rattle.dq_journal.specs.Steps.{AreRefused};
ghost use Rattle.dq_journal.specs.declared.result.ZoneResult.{ZoneResult as ZoneResultOf};
ghost use Rattle.dq_machine.specs.Right.{AreOutcomes};
ghost use Rattle.dq_zones.specs.Answering.{AreFetched, AreRolled, BatchOf, FitFetches, FitPrepared, FitZones, IsBatch, IsFetched, IsLedFrom, origins_of, rank};
ghost use Rattle.dq_zones.specs.declared.fetch.Fetch.{Fetch as FetchOf};

use crate::fetch::{Fetch, Fetches};
use crate::outcomes::{fetched, led_by};
use dq_base::{Canon, Role};
use dq_graph::Prepared;
use dq_journal::{ZoneResult, ZoneResults};
use std::alloc::Global;

/// The query of the valid zone at a place.
fn canon_at(prepared: &Prepared, place: u64) -> &Canon
    requires { place < length prepared.now.canons }
    ensures { slice_get prepared.now.canons place ≡ Some result.now }
{
    let Some(canon) = prepared.canons.get(place) else {
        unreachable!();
    };
    canon
}

/// The place of its outcome in the batch.
fn slot_at(prepared: &Prepared, place: u64) -> u64
    requires place { place < length prepared.now.zones }
    requires numbers { (k zone : ℕ) → slice_get prepared.now.zones k ≡ Some zone → 0 < zone }
    ensures { slice_get prepared.now.zones place ≡ Some (result + 1) }
{
    let Some(zone) = prepared.zones.get(place) else {
        unreachable!();
    };
    u64::from(*zone) - 1
}

/// How the valid zone at a place is answered.
fn role_at(prepared: &Prepared, place: u64) -> Role
    requires { place < length prepared.now.roles }
    ensures { slice_get prepared.now.roles place ≡ Some result }
{
    let Some(role) = prepared.roles.get(place) else {
        unreachable!();
    };
    *role
}

/// The outcome of the remote zone at a place, of the fetch that is next.
fn fetched_at(
    alloc: Global,
    prepared: &Prepared,
    fetches: &Fetches,
    place: u64,
    next: u64,
) -> ZoneResult
    requires there { place < length prepared.now.canons }
    requires fit { FitFetches prepared.now fetches.now }
    requires remote { slice_get prepared.now.roles place ≡ Some role_of.Remote }
    requires next { next ≡ rank prepared.now.roles place }
    ensures { (q : QueryOf) (f : FetchOf) → slice_get prepared.now.canons place ≡ Some q → slice_get fetches.now next ≡ Some f → IsFetched q f result }
{
    let canon = canon_at(prepared, place);
    let Some(fetch) = fetches.get(next) else {
        unreachable!();
    };
    fetched(alloc, canon, fetch)
}

/// Answers the remote zone at a place.
fn answer_remote(
    alloc: Global,
    prepared: &Prepared,
    fetches: &Fetches,
    place: u64,
    next: u64,
    outcomes: &mut ZoneResults,
)
    requires fit { FitZones (length outcomes.old) prepared.now fetches.now }
    requires remote { slice_get prepared.now.roles place ≡ Some role_of.Remote }
    requires next { next ≡ rank prepared.now.roles place }
    ensures count { length outcomes.new ≡ length outcomes.old }
    ensures right { (b : BatchOf) → IsBatch b prepared.now fetches.now → AreFetched b place outcomes.old → AreFetched b (place + 1) outcomes.new }
{
    let outcome = fetched_at(alloc, prepared, fetches, place, next);
    let slot = slot_at(prepared, place);
    *outcomes.item_mut(slot) = outcome;
}

/// Answers the zone at a place if it is remote. The number of remote zones so far.
fn answer_if_remote(
    alloc: Global,
    prepared: &Prepared,
    fetches: &Fetches,
    role: Role,
    place: u64,
    next: u64,
    outcomes: &mut ZoneResults,
) -> u64
    requires fit { FitZones (length outcomes.old) prepared.now fetches.now }
    requires role { slice_get prepared.now.roles place ≡ Some role }
    requires next { next ≡ rank prepared.now.roles place }
    requires room { place + 1 < 2 ^ 64 }
    ensures next { result ≡ rank prepared.now.roles (place + 1) }
    ensures count { length outcomes.new ≡ length outcomes.old }
    ensures right { (b : BatchOf) → IsBatch b prepared.now fetches.now → AreFetched b place outcomes.old → AreFetched b (place + 1) outcomes.new }
{
    match role {
        Role::Local(_) => return next,
        Role::Remote => {}
    }
    answer_remote(alloc, prepared, fetches, place, next, outcomes);
    next + 1
}

/// Answers the remote zones, in order.
fn answer_remotes(alloc: Global, prepared: &Prepared, fetches: &Fetches, outcomes: &mut ZoneResults)
    requires { FitZones (length outcomes.old) prepared.now fetches.now }
    ensures count { length outcomes.new ≡ length outcomes.old }
    ensures right { (b : BatchOf) → IsBatch b prepared.now fetches.now → AreFetched b 0 outcomes.old → AreFetched b (length prepared.now.roles) outcomes.new }
{
    let mut next = 0u64;
    for place in 0..prepared.roles.len() {
        let role = role_at(prepared, place);
        next = answer_if_remote(alloc, prepared, fetches, role, place, next, outcomes);
    }
}

/// The outcome of the local zone at a place, from that of its source.
fn led_at(
    alloc: Global,
    prepared: &Prepared,
    place: u64,
    source: u64,
    outcomes: &ZoneResults,
) -> ZoneResult
    requires fit { FitPrepared (length outcomes.now) prepared.now }
    requires local { slice_get prepared.now.roles place ≡ Some (role_of.Local source) }
    ensures { (p q : QueryOf) (leader : ZoneResultOf) (slot : ℕ) → slice_get prepared.now.canons source ≡ Some p → slice_get prepared.now.canons place ≡ Some q
        → slice_get prepared.now.zones source ≡ Some (slot + 1) → slice_get outcomes.now slot ≡ Some leader → IsLedFrom p q leader result }
{
    let slot = slot_at(prepared, source);
    let Some(leader) = outcomes.get(slot) else {
        unreachable!();
    };
    led_by(
        alloc,
        canon_at(prepared, source),
        canon_at(prepared, place),
        leader,
    )
}

/// Answers the local zone at a place from the outcome of its source.
fn answer_local(
    alloc: Global,
    prepared: &Prepared,
    place: u64,
    source: u64,
    outcomes: &mut ZoneResults,
)
    requires fit { FitPrepared (length outcomes.old) prepared.now }
    requires local { slice_get prepared.now.roles place ≡ Some (role_of.Local source) }
    ensures count { length outcomes.new ≡ length outcomes.old }
    ensures right { (b : BatchOf) (fetches : ListOf FetchOf) → IsBatch b prepared.now fetches → AreRolled b place outcomes.old → AreRolled b (place + 1) outcomes.new }
{
    let outcome = led_at(alloc, prepared, place, source, outcomes);
    let slot = slot_at(prepared, place);
    *outcomes.item_mut(slot) = outcome;
}

/// Answers the zone at a place if it is local.
fn answer_if_local(
    alloc: Global,
    prepared: &Prepared,
    role: Role,
    place: u64,
    outcomes: &mut ZoneResults,
)
    requires fit { FitPrepared (length outcomes.old) prepared.now }
    requires role { slice_get prepared.now.roles place ≡ Some role }
    ensures count { length outcomes.new ≡ length outcomes.old }
    ensures right { (b : BatchOf) (fetches : ListOf FetchOf) → IsBatch b prepared.now fetches → AreRolled b place outcomes.old → AreRolled b (place + 1) outcomes.new }
{
    if let Role::Local(source) = role {
        answer_local(alloc, prepared, place, u64::from(source), outcomes);
    }
}

/// Answers the local zones, in order.
fn answer_locals(alloc: Global, prepared: &Prepared, outcomes: &mut ZoneResults)
    requires { FitPrepared (length outcomes.old) prepared.now }
    ensures count { length outcomes.new ≡ length outcomes.old }
    ensures right { (b : BatchOf) (fetches : ListOf FetchOf) → IsBatch b prepared.now fetches → AreRolled b 0 outcomes.old → AreRolled b (length prepared.now.roles) outcomes.new }
{
    for place in 0..prepared.roles.len() {
        answer_if_local(alloc, prepared, role_at(prepared, place), place, outcomes);
    }
}

/// Answers the zones of a batch from what was brought for its remote queries: the remote zones in order, and then the local ones, each
/// computed from the outcome of the remote zone whose query covers its own.
///
/// The condition says that the parts fit; `batches_fit` shows that they do for each batch that was prepared by `prepare`, has the
/// outcomes of `refused_zones`, and for which an answer or a refusal was brought for each remote query. Where memory is wanting for a
/// derivation, the zone is `Memory`, and so are the local zones computed from it. A local zone whose remote zone is refused has the same
/// refusal. The outcomes are written in place: only derived tables take memory. It costs a derivation for each zone whose query isn't the
/// one that was answered.
pub fn answer_zones(
    alloc: Global,
    prepared: &Prepared,
    fetches: &Fetches,
    outcomes: &mut ZoneResults,
)
    requires { FitZones (length outcomes.old) prepared.now fetches.now }
    ensures { (b : BatchOf) → IsBatch b prepared.now fetches.now → AreRefused b.schemas b.zones outcomes.old
        → AreOutcomes b.schemas b.rows b.journal (origins_of b) b.zones outcomes.new }
{
    answer_remotes(alloc, prepared, fetches, outcomes);
    answer_locals(alloc, prepared, outcomes);
}
