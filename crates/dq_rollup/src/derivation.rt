ghost use Rattle.std.specs.Prelude.{◌≡◌, IfOk, List as ListOf, None, true};
ghost use Rattle.dq_base.specs.Answers.{answer, first_rows};
ghost use Rattle.dq_base.specs.Canonical.{IsCanonical};
ghost use Rattle.dq_base.specs.Covering as cover;
ghost use Rattle.dq_base.specs.declared.value.Value.{Value as ValueOf};
ghost use Rattle.dq_rollup.specs.Derived.{IsDerived};

use crate::checks::places_of;
use crate::copies::copy_table;
use crate::groups::{group_rows, rows_from};
use crate::key::plan_keys;
use crate::order::sort_rows;
use crate::sources::sources_of;
use dq_base::{Canon, Cells, List, Memory, Query, Table};
use std::alloc::Global;

/// The first rows, or all without a top.
fn first_of(table: Table, top: Option<u32>) -> Table
    ensures { result ≡ first_rows top table }
{
    let mut first = table;
    if let Some(count) = top {
        first.truncate(u64::from(count));
    }
    first
}

/// The rows of q's answer, in the order of keys.
fn derive_rows(alloc: Global, p: &Query, q: &Query, held: &Table) -> Result<Vec<Cells>, Memory>
    requires covers { cover.covers p.now q.now ≡ true }
    requires canonical { IsCanonical q.now }
    ensures { IfOk result (λ rows. IsDerived p.now q.now held.now rows.items) }
{
    let filters = q.filters.as_slice();
    let made = plan_keys(alloc, p.dims.as_slice(), q.dims.as_slice())?;
    let spots = places_of(alloc, p.dims.as_slice(), filters)?;
    let sources = sources_of(alloc, p, q)?;
    let groups = group_rows(alloc, filters, &spots, &made, held)?;
    let rows = rows_from(alloc, sources.as_slice(), held, &groups)?;
    Ok(rows)
}

/// The answer of q, where p has no top.
fn derive_answer(alloc: Global, p: &Query, q: &Query, held: &Table) -> Result<Table, Memory>
    requires covers { cover.covers p.now q.now ≡ true }
    requires canonical { IsCanonical q.now }
    requires whole { p.now.top ≡ None }
    ensures { IfOk result (λ table. (rows : ListOf (ListOf ValueOf)) → held.now ≡ answer p.now rows → table ≡ answer q.now rows) }
{
    let mut rows = derive_rows(alloc, p, q, held)?;
    sort_rows(q, &mut rows)?;
    Ok(first_of(List::from_vec(rows), q.top))
}

/// The answer of q, derived from a table that is the answer of p.
///
/// The condition is that p covers q. Over whatever rows the table is the answer of p, an Ok is the answer of q over these
/// rows; where there are no such rows, nothing is claimed of it. An `Err` says that memory was wanting, also where a number
/// goes beyond its type: values and counts 64 bits, sums 128 bits, a ratio its bounds. None does over at most 2^23 rows of
/// 64-bit numbers (`sums_stay_within`). An `Err` leaves nothing behind.
///
/// The cost: each held row a look-up among the groups of q, a test for each of q's predicates that halves its list, and a
/// reading for each of q's measures; then a sort of the groups. Before that, the measures of p and q are compared in pairs,
/// and so are their dimensions. Where p has a top, the table is copied.
pub fn derive(alloc: Global, p: &Canon, q: &Canon, held: &Table) -> Result<Table, Memory>
    requires { cover.covers p.now q.now ≡ true }
    ensures { IfOk result (λ table. (rows : ListOf (ListOf ValueOf)) → held.now ≡ answer p.now rows → table ≡ answer q.now rows) }
{
    if p.query().top.is_some() {
        let copy = copy_table(alloc, held)?;
        return Ok(copy);
    }
    derive_answer(alloc, p.query(), q.query(), held)
}
