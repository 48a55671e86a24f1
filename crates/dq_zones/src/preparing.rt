ghost use Rattle.std.specs.Arc.{arc_value};
ghost use Rattle.std.specs.Prelude.{◌≡◌, ◌<◌, ◌≤◌, [], ◌∷◌, ◌++◌, length, map, IfOk, OnOk};
ghost use Rattle.dq_base.specs.Batches as batches;
ghost use Rattle.dq_base.specs.Canonical.{canonical as canonical_form};
ghost use Rattle.dq_base.specs.Limits.{most_zones};
ghost use Rattle.dq_machine.specs.Preparing as specified;
ghost use Rattle.dq_machine.specs.Preparing.{canons_of, remotes_of};
ghost use Rattle.dq_text.specs.Statements.{body as body_text};
ghost use Rattle.dq_zones.specs.Numbering.{numbers_from, zone_numbers};

use dq_base::{Canon, Canons, Memory, Numbers, Queries, Query, Schemas, Texts};
use dq_graph::{Prepared, split};
use dq_machine::remote_among;
use dq_query::{canonical, check};
use dq_text::body;
use std::alloc::Global;
use std::sync::Arc;

/// The query's canonical form.
fn shared_canon(alloc: Global, q: &Query) -> Result<Arc<Canon>, Memory>
    ensures { IfOk result (λ canon. arc_value canon ≡ canonical_form q.now) }
{
    Ok(Arc::new(alloc, canonical(alloc, q)?)?)
}

/// Puts the zone at a place at the end of a preparation, if it is valid.
fn prepare_zone(
    alloc: Global,
    schemas: &Schemas,
    place: u32,
    q: &Query,
    zones: &mut Numbers,
    canons: &mut Canons,
) -> Result<(), Memory>
    requires { place < most_zones }
    ensures zones { OnOk result (zones.new ≡ zones.old ++ numbers_from schemas.now place (q.now ∷ [])) }
    ensures canons { OnOk result (canons.new ≡ canons.old ++ canons_of schemas.now (q.now ∷ [])) }
{
    if check(schemas, q).is_err() {
        return Ok(());
    }
    zones.push(place + 1)?;
    canons.push(shared_canon(alloc, q)?)?;
    Ok(())
}

/// The texts of queries, in order.
fn bodies_of(alloc: Global, keys: &Canons) -> Result<Texts, Memory>
    ensures { IfOk result (λ texts. texts ≡ map body_text keys.now) }
{
    let mut texts = Texts::new(alloc);
    for key in keys.as_slice() {
        texts.push(body(alloc, key)?)?;
    }
    Ok(texts)
}

/// The preparation of valid zones with these numbers and canonical queries.
fn finished(alloc: Global, zones: Numbers, canons: Canons) -> Result<Prepared, Memory>
    ensures zones { IfOk result (λ p. p.zones ≡ zones) }
    ensures canons { IfOk result (λ p. p.canons ≡ canons) }
    ensures roles { IfOk result (λ p. p.roles ≡ batches.roles canons) }
    ensures bodies { IfOk result (λ p. p.bodies ≡ map body_text (specified.remote_among (batches.roles canons) canons)) }
{
    let roles = split(alloc, &canons)?;
    let remotes = remote_among(alloc, &roles, &canons)?;
    let bodies = bodies_of(alloc, &remotes)?;
    Ok(Prepared {
        zones,
        canons,
        roles,
        bodies,
    })
}

/// A batch as it is prepared: the numbers of its valid zones, their canonical queries, how each is answered, and the texts of those that
/// are asked. It costs the checks of all zones, the canonical forms of the valid ones, which are compared with one another in pairs, and
/// the texts. An `Err` says that memory was wanting, and leaves nothing.
pub fn prepare(alloc: Global, schemas: &Schemas, zones: &Queries) -> Result<Prepared, Memory>
    requires { length zones.now ≤ most_zones }
    ensures zones { IfOk result (λ p. p.zones ≡ zone_numbers schemas.now zones.now) }
    ensures canons { IfOk result (λ p. p.canons ≡ canons_of schemas.now zones.now) }
    ensures roles { IfOk result (λ p. p.roles ≡ batches.roles (canons_of schemas.now zones.now)) }
    ensures bodies { IfOk result (λ p. p.bodies ≡ map body_text (remotes_of schemas.now zones.now)) }
{
    let mut numbers = Numbers::new(alloc);
    let mut canons = Canons::new(alloc);
    let mut place = 0u32;
    for q in zones.as_slice() {
        prepare_zone(alloc, schemas, place, q, &mut numbers, &mut canons)?;
        place += 1;
    }
    finished(alloc, numbers, canons)
}
