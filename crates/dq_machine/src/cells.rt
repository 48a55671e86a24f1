ghost use Rattle.std.specs.Prelude.{◌≡◌, [], IfOk, nat_eq};
ghost use Rattle.dq_base.specs.Answers.{answer};
ghost use Rattle.dq_machine.specs.Landing.{cells_of};
ghost use Rattle.dq_machine.specs.Publishing.{rows_at};

use crate::flown::Flown;
use crate::versions::Versions;
use dq_base::{Canon, Memory, Table};
use dq_eval::evaluate;
use dq_fold::Fold;
use std::alloc::Global;

// The answer over no rows.
fn answer_of_none(alloc: Global, key: &Canon) -> Result<Table, Memory>
    ensures { IfOk result (λ table. table ≡ answer key.now []) }
{
    Fold::new(alloc, key)?.finish()
}

/// The answer over the rows that the publication of that stamp left; before any there are none.
pub(crate) fn answer_at(
    alloc: Global,
    versions: &Versions,
    stamp: u64,
    key: &Canon,
) -> Result<Table, Memory>
    ensures { IfOk result (λ table. table ≡ answer key.now (rows_at versions.now stamp)) }
{
    match versions.extract_at(stamp) {
        None => answer_of_none(alloc, key),
        Some(extract) => evaluate(alloc, extract, key),
    }
}

/// Whether a flight's answer has so many cells. The cost is that of evaluating it.
pub(crate) fn has_cells(
    alloc: Global,
    versions: &Versions,
    flight: &Flown,
    cells: u64,
) -> Result<bool, Memory>
    ensures { IfOk result (λ has. has ≡ nat_eq cells (cells_of versions.now flight.now)) }
{
    let key = flight.key.query();
    let table = answer_at(alloc, versions, flight.stamp, &flight.key)?;
    let columns = u128::from(key.dims.len()) + u128::from(key.measures.len());
    match u128::from(table.len()).checked_mul(columns) {
        None => Ok(false),
        Some(product) => Ok(u128::from(cells) == product),
    }
}
