ghost use Rattle.std.specs.Arc.{arc_value};
ghost use Rattle.std.specs.List.{cons_option};
ghost use Rattle.std.specs.Prelude.{◌≡◌, [], ◌∷◌, ◌++◌, IfOk, OnOk, slice_get};
ghost use Rattle.dq_base.specs.Canonical.{canonical as canonical_form};
ghost use Rattle.dq_machine.specs.Preparing as specified;
ghost use Rattle.dq_machine.specs.Preparing.{canons_of, remotes_of};

use dq_base::{Canon, Canons, Memory, Queries, Query, Role, Schemas};
use dq_graph::{Roles, split};
use dq_query::{canonical, check};
use std::alloc::Global;
use std::sync::Arc;

/// The query's canonical form.
fn shared_canon(alloc: Global, q: &Query) -> Result<Arc<Canon>, Memory>
    ensures { IfOk result (λ canon. arc_value canon ≡ canonical_form q.now) }
{
    Ok(Arc::new(alloc, canonical(alloc, q)?)?)
}

/// Puts a zone's canonical query at the end, if the zone is valid.
fn add_canon(alloc: Global, schemas: &Schemas, q: &Query, canons: &mut Canons) -> Result<(), Memory>
    ensures { OnOk result (canons.new ≡ canons.old ++ canons_of schemas.now (q.now ∷ [])) }
{
    if check(schemas, q).is_err() {
        return Ok(());
    }
    canons.push(shared_canon(alloc, q)?)?;
    Ok(())
}

/// The canonical queries of the valid zones, in zone order. Each zone is checked once.
pub fn canons(alloc: Global, schemas: &Schemas, zones: &Queries) -> Result<Canons, Memory>
    ensures { IfOk result (λ canons. canons ≡ canons_of schemas.now zones.now) }
{
    let mut canons = Canons::new(alloc);
    for q in zones.as_slice() {
        add_canon(alloc, schemas, q, &mut canons)?;
    }
    Ok(canons)
}

/// The role at a place; none where there is no such place.
fn role_at(roles: &Roles, place: u64) -> Option<Role>
    ensures { result ≡ slice_get roles.now place }
{
    roles.get(place).copied()
}

/// Puts a query at the end if it is remote.
fn add_remote(role: Option<Role>, q: &Arc<Canon>, remotes: &mut Canons) -> Result<(), Memory>
    ensures { OnOk result (remotes.new ≡ remotes.old ++ specified.remote_among (cons_option role []) (arc_value q.now ∷ [])) }
{
    if let Some(Role::Remote) = role {
        remotes.push(Arc::try_clone(q)?)?;
    }
    Ok(())
}

/// The queries of a batch that aren't answered from one another, in zone order. In linear time.
pub fn remote_among(alloc: Global, roles: &Roles, queries: &Canons) -> Result<Canons, Memory>
    ensures { IfOk result (λ remotes. remotes ≡ specified.remote_among roles.now queries.now) }
{
    let mut remotes = Canons::new(alloc);
    for (place, q) in queries.as_slice().iter().enumerate() {
        add_remote(role_at(roles, place as u64), q, &mut remotes)?;
    }
    Ok(remotes)
}

/// The remote queries of a batch of these zones, in zone order: the canonical forms of the valid zones but of those that are
/// answered from one another. Each pair of valid zones is compared.
pub(crate) fn remotes(alloc: Global, schemas: &Schemas, zones: &Queries) -> Result<Canons, Memory>
    ensures { IfOk result (λ remotes. remotes ≡ remotes_of schemas.now zones.now) }
{
    let queries = canons(alloc, schemas, zones)?;
    let roles = split(alloc, &queries)?;
    remote_among(alloc, &roles, &queries)
}
