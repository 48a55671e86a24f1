ghost use Rattle.std.specs.BTreeMap.{insert_entry, is_at};
ghost use Rattle.std.specs.List.{All};
ghost use Rattle.std.specs.Map.{lookup, set_value};
ghost use Rattle.std.specs.Prelude.{if◌then◌else◌, ◌≡◌, ◌++◌, ◌∷◌, [], IfOk, List as ListOf, None, OnOk, Some, ℕ, length, map};
ghost use Rattle.dq_base.specs.Answers.{cell_of};
ghost use Rattle.dq_base.specs.Canonical.{canonical_test};
ghost use Rattle.dq_base.specs.Orders.{key_cmp};
ghost use Rattle.dq_base.proofs.SetLaws.{Ascends};
ghost use Rattle.dq_base.specs.declared.value.Value.{Value as ValueOf};
ghost use Rattle.dq_rollup.specs.Derived as derived;
ghost use Rattle.dq_rollup.specs.Derived.{derived_row, rows_at};
ghost use Rattle.dq_rollup.specs.Grouped.{first_keys, grouped, groups_below};
ghost use Rattle.dq_rollup.specs.Keys as keys;
ghost use Rattle.dq_rollup.specs.Keys.{made_key};

use crate::checks::{Spots, passes};
use crate::key::{Made, make_key};
use crate::measures::{cell_from, cell_over};
use crate::source::Source;
use dq_base::{Cells, Duplicate, List, Memory, Numbers64, Predicate, Table, Values};
use std::alloc::Global;
use std::collections::BTreeMap;

/// The places of each key's held rows.
pub type Groups = BTreeMap<Values, Numbers64>;

/// The list of one place.
fn one_place(alloc: Global, place: u64) -> Result<Numbers64, Memory>
    ensures { IfOk result (λ places. places ≡ place ∷ []) }
{
    let mut places = List::new(alloc);
    places.push(place)?;
    Ok(places)
}

/// Puts a place behind those of a key.
fn add_place(alloc: Global, groups: &mut Groups, key: Values, place: u64) -> Result<(), Memory>
    ensures there { OnOk result ((places : ListOf ℕ) → lookup (is_at (key_cmp key)) groups.old.entries ≡ Some places → groups.new.entries ≡ set_value (is_at (key_cmp key)) groups.old.entries (places ++ place ∷ [])) }
    ensures absent { OnOk result (lookup (is_at (key_cmp key)) groups.old.entries ≡ None → groups.new.entries ≡ insert_entry key_cmp groups.old.entries key (place ∷ [])) }
{
    if let Some(places) = groups.get_mut(&key) {
        places.push(place)?;
        return Ok(());
    }
    groups.insert(key, one_place(alloc, place)?)?;
    Ok(())
}

/// Puts a held row's place behind those of the key that is made of it, if its tests hold.
fn add_row(
    alloc: Global,
    groups: &mut Groups,
    filters: &[Predicate],
    spots: &Spots,
    made: &List<Made>,
    row: &Cells,
    place: u64,
) -> Result<(), Memory>
    requires { All (λ f. canonical_test f.test ≡ f.test) filters.now }
    ensures { OnOk result ((key : ℕ → ListOf ValueOf) → (base : ListOf (ListOf ValueOf)) → (places : ListOf ℕ) → Ascends key_cmp base → key place ≡ made_key made.now row.now
        → groups.old.entries ≡ grouped key base places → groups.new.entries ≡ grouped key base (if keys.passes filters.now spots.now row.now then places ++ place ∷ [] else places)) }
{
    if !passes(alloc, filters, spots.as_slice(), row)? {
        return Ok(());
    }
    let key = make_key(alloc, made.as_slice(), row)?;
    add_place(alloc, groups, key, place)?;
    Ok(())
}

/// The groups of no rows: without dimensions one, and else none.
fn first_groups(alloc: Global, made: &List<Made>) -> Result<Groups, Memory>
    ensures { IfOk result (λ groups. (key : ℕ → ListOf ValueOf) → groups.entries ≡ grouped key (first_keys made.now) []) }
{
    let mut groups = BTreeMap::new(alloc);
    if made.len() == 0 {
        groups.insert(List::new(alloc), List::new(alloc))?;
    }
    Ok(groups)
}

/// The held rows by the keys that are made of them. Each costs a look-up among the keys.
pub fn group_rows(
    alloc: Global,
    filters: &[Predicate],
    spots: &Spots,
    made: &List<Made>,
    held: &Table,
) -> Result<Groups, Memory>
    requires { All (λ f. canonical_test f.test ≡ f.test) filters.now }
    ensures { IfOk result (λ groups. groups.entries ≡ groups_below (record { made = made.now; filters = filters.now; places = spots.now }) held.now (length held.now)) }
{
    let mut groups = first_groups(alloc, made)?;
    for (place, row) in held.as_slice().iter().enumerate() {
        add_row(alloc, &mut groups, filters, spots, made, row, place as u64)?;
    }
    Ok(groups)
}

/// The row of a key, over the held rows at its places.
fn row_of(
    alloc: Global,
    sources: &[Source],
    held: &Table,
    key: &Values,
    places: &Numbers64,
) -> Result<Cells, Memory>
    ensures { IfOk result (λ row. row ≡ derived_row sources.now (rows_at held.now places.now) key.now) }
{
    let keys = key.as_slice();
    let mut row = List::with_capacity(alloc, key.len())?;
    for v in keys {
        row.push(cell_from(v.duplicate(alloc)?))?;
    }
    for source in sources {
        row.push(cell_over(alloc, *source, held, places.as_slice())?)?;
    }
    Ok(row)
}

/// The rows of the groups, in the order of keys.
pub fn rows_from(
    alloc: Global,
    sources: &[Source],
    held: &Table,
    groups: &Groups,
) -> Result<Vec<Cells>, Memory>
    ensures { IfOk result (λ rows. rows.items ≡ map (λ e. derived_row sources.now (rows_at held.now e.1) e.0) groups.now.entries) }
{
    let mut rows = Vec::new(alloc);
    for (key, places) in groups.iter() {
        rows.push(row_of(alloc, sources, held, key, places)?)?;
    }
    Ok(rows)
}
