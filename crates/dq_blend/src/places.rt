ghost use Rattle.std.specs.Prelude.{◌≡◌, cond, List as ListOf, Some, None, IfOk, OnOk, find};
ghost use Rattle.std.specs.BTreeMap.{is_at};
ghost use Rattle.std.specs.Map.{lookup};
ghost use Rattle.std.specs.Option.{option_copied, option_or};
ghost use Rattle.std.specs.Ordering.{is_eq};
ghost use Rattle.dq_base.specs.declared.cell.Cell.{Cell as CellOf};
ghost use Rattle.dq_blend.specs.Exact.{cells_cmp};
ghost use Rattle.dq_blend.specs.Places.{AreFirst, begins_with};

use crate::exact::{Key, first_cells};
use dq_base::{Cells, Memory, Table};
use std::alloc::Global;
use std::collections::BTreeMap;

/// The place of the first row with each key.
pub type Places = BTreeMap<Key, u64>;

/// Enters a key with a place, if it isn't there.
fn keep_first(places: &mut Places, key: Key, place: u64) -> Result<(), Memory>
    ensures { OnOk result ((q : ListOf CellOf) → lookup (is_at (cells_cmp q)) places.new.entries
        ≡ option_or (lookup (is_at (cells_cmp q)) places.old.entries) (cond (is_eq (cells_cmp q key)) (Some place) None)) }
{
    if places.contains_key(&key) {
        return Ok(());
    }
    places.insert(key, place)?;
    Ok(())
}

/// The places of a table's rows by their first cells, so many; of rows with the same ones that of the first.
pub fn places_of(alloc: Global, table: &Table, count: u64) -> Result<Places, Memory>
    ensures { IfOk result (λ places. AreFirst count table.now places.entries) }
{
    let mut places = BTreeMap::new(alloc);
    for (place, row) in table.as_slice().iter().enumerate() {
        keep_first(&mut places, first_cells(alloc, row, count)?, place as u64)?;
    }
    Ok(places)
}

/// The first row that begins with a key.
pub fn row_with<'a>(table: &'a Table, places: &Places, count: u64, key: &Key) -> Option<&'a Cells>
    requires { AreFirst count table.now places.now.entries }
    ensures { option_copied result ≡ find (begins_with count key.now) table.now }
{
    match places.get(key) {
        Some(place) => table.get(*place),
        None => None,
    }
}
