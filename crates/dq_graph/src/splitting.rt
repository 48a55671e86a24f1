ghost use Rattle.std.specs.Arc.{arc_value};
ghost use Rattle.std.specs.List.{enumerate_from};
ghost use Rattle.std.specs.Prelude.{◌≡◌, ◌&&◌, ℕ, IfOk, not, Some, map, slice_get};
ghost use Rattle.dq_base.specs.Batches as batches;
ghost use Rattle.dq_base.specs.Batches.{is_local, local_to, outdone_by, role_of, source_of};
ghost use Rattle.dq_base.specs.Covering as specified;

use crate::prepared::Roles;
use dq_base::{Canon, Canons, Memory, Role};
use dq_cover::covers;
use std::alloc::Global;
use std::sync::Arc;

/// Whether a query outdoes another one of its batch: it covers it, and isn't covered in turn or stands before it.
fn outdoes(other: usize, p: &Canon, place: usize, q: &Canon) -> bool
    ensures { result ≡ outdone_by (place, q.now) (other, p.now) }
{
    covers(p, q) && (!covers(q, p) || other < place)
}

/// Whether the query at a place is outdone by another one of its batch.
fn is_outdone(batch: &[Arc<Canon>], place: usize, q: &Canon) -> bool
    ensures { result ≡ is_local (enumerate_from 0 (map arc_value batch.now)) (place, q.now) }
{
    for (other, p) in batch.iter().enumerate() {
        if outdoes(other, p, place, q) {
            return true;
        }
    }
    false
}

/// Which queries of a batch are local.
fn locals_of(alloc: Global, batch: &[Arc<Canon>]) -> Result<Vec<bool>, Memory>
    ensures { IfOk result (λ locals. let numbered = enumerate_from 0 (map arc_value batch.now) in locals.items ≡ map (is_local numbered) numbered) }
{
    let mut locals = Vec::with_capacity(alloc, batch.len())?;
    for (place, q) in batch.iter().enumerate() {
        locals.push(is_outdone(batch, place, q))?;
    }
    Ok(locals)
}

/// Whether a local query may be computed from another one: that one is remote, and covers it.
fn is_source(local: bool, p: &Canon, q: &Canon) -> bool
    ensures { result ≡ (not local && specified.covers p.now q.now) }
{
    !local && covers(p, q)
}

/// The role of a local query: it is computed from the first remote one that covers it.
fn first_source(batch: &[Arc<Canon>], locals: &[bool], q: &Canon) -> Result<Role, Memory>
    requires { let numbered = enumerate_from 0 (map arc_value batch.now) in locals.now ≡ map (is_local numbered) numbered }
    ensures { (place : ℕ) → IfOk result (λ role. role ≡ local_to (source_of (enumerate_from 0 (map arc_value batch.now)) (place, q.now))) }
{
    for (place, p) in batch.iter().enumerate() {
        if is_source(locals[place], p, q) {
            let Ok(place) = u32::try_from(place) else {
                return Err(Memory);
            };
            return Ok(Role::Local(place));
        }
    }
    Ok(Role::Remote)
}

/// The role of the query at a place.
fn role_at(batch: &[Arc<Canon>], locals: &[bool], place: usize, q: &Canon) -> Result<Role, Memory>
    requires locals { let numbered = enumerate_from 0 (map arc_value batch.now) in locals.now ≡ map (is_local numbered) numbered }
    requires there { slice_get (map arc_value batch.now) place ≡ Some q.now }
    ensures { IfOk result (λ role. role ≡ role_of (enumerate_from 0 (map arc_value batch.now)) (place, q.now)) }
{
    if locals[place] {
        return first_source(batch, locals, q);
    }
    Ok(Role::Remote)
}

/// How each query of a batch is answered, in its order: by a statement, or from the answer of the first remote query that
/// covers it, named by its place from 0.
///
/// Each pair of queries is compared twice, and a local query once more with the remote ones. More than 2^32 queries may be
/// refused as want of memory.
pub fn split(alloc: Global, batch: &Canons) -> Result<Roles, Memory>
    ensures { IfOk result (λ roles. roles ≡ batches.roles batch.now) }
{
    let batch = batch.as_slice();
    let locals = locals_of(alloc, batch)?;
    let mut roles = Roles::with_capacity(alloc, batch.len() as u64)?;
    for (place, q) in batch.iter().enumerate() {
        roles.push(role_at(batch, locals.as_slice(), place, q)?)?;
    }
    Ok(roles)
}
