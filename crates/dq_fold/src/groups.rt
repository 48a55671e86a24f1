ghost use Rattle.std.specs.Prelude.{if◌then◌else◌, ◌≡◌, ◌+◌, ◌^◌, ◌<◌, ◌≤◌, ◌++◌, ◌∷◌, [], List as ListOf, Some, None, IfOk, OnOk, length, map, slice_get, take};
ghost use Rattle.std.specs.BTreeMap.{insert_entry, is_at};
ghost use Rattle.std.specs.List.{All};
ghost use Rattle.std.specs.Map.{lookup, set_value};
ghost use Rattle.dq_base.specs.Answers.{cell_of, key_of, value_in};
ghost use Rattle.dq_base.specs.Dims.{banded, is_plain, width_of};
ghost use Rattle.dq_base.specs.Orders.{key_cmp};
ghost use Rattle.dq_base.specs.declared.value.Value.TheVariants.{Word};
ghost use Rattle.dq_fold.specs.Folding.{AllSmall, AreMergeable, IsMergeable, group_cells, merged_groups, merged_in};
ghost use Rattle.dq_fold.specs.Placed.{SetsTallies, emptied, entry_at, tallies_in};
ghost use Rattle.dq_fold.specs.Tallies.{Mergeable, added, count_in, merged_all, tally_cell, tally_of};
ghost use Rattle.dq_fold.specs.declared.slots.Slot.{Slot as SlotOf};
ghost use Rattle.dq_fold.specs.declared.tally.Tally.{Tally as TallyOf};

use crate::slots::{Hints, Places, Slot, Tallies, hint, place_of, widen};
use crate::tally::{Tally, cell_from};
use dq_base::{Cells, Dim, Duplicate, List, Measure, Memory, Text, Value, Values};
use std::alloc::Global;
use std::collections::BTreeMap;
use std::marker::Model;
use std::mem::replace;

/// Groups by key. Contracts see them as pairs in the order of keys.
#[derive(Drop)]
pub struct Groups {
    places: Places,
    slots: List<Slot>,
    hints: Hints,
}

impl Model for Groups {
    ghost use Rattle.std.specs.Prelude.{List};
    ghost use Rattle.dq_base.specs.declared.value.Value.{Value as OneValue};
    ghost use Rattle.dq_fold.specs.declared.tally.Tally.{Tally};
    ghost use Rattle.dq_fold.specs.Placed.{AreNumbered, entries_at, slot_keys};

    ghost Value = { List (List OneValue × List Tally) };

    ghost view = { λ g. entries_at g.slots g.places.entries };

    ghost invariant = { λ g. AreNumbered (slot_keys g.slots) g.places.entries };
}

impl Groups {
    /// No groups. It takes no memory.
    pub fn new(alloc: Global) -> Groups
        ensures { result ≡ [] }
    {
        Groups {
            places: BTreeMap::new(alloc),
            slots: List::new(alloc),
            hints: List::new(alloc),
        }
    }

    /// Puts a group in, whose key isn't there. The key is copied once, for the map of places.
    pub fn insert(&mut self, alloc: Global, key: Values, tallies: Tallies) -> Result<(), Memory>
        requires { lookup (is_at (key_cmp key)) self.old ≡ None }
        ensures { OnOk result (self.new ≡ insert_entry key_cmp self.old key tallies) }
    {
        let place = self.slots.len();
        widen(alloc, &mut self.hints, place)?;
        hint(&mut self.hints, &key, place);
        let copy = key.duplicate(alloc)?;
        self.slots.push(Slot { key: copy, tallies })?;
        if self.places.insert(key, place).is_err() {
            self.slots.truncate(place);
            return Err(Memory);
        }
        Ok(())
    }
}

/// Makes a text another, in the memory that it has.
fn refill(old: &mut Text, text: &Text) -> Result<(), Memory>
    ensures { OnOk result (old.new ≡ text.now) }
{
    old.truncate(0);
    old.append(text.bytes())
}

/// Makes a value a text, in the memory of the text that it was.
fn overwrite_with_text(alloc: Global, slot: &mut Value, text: &Text) -> Result<(), Memory>
    ensures { OnOk result (slot.new ≡ Word text.now) }
{
    if let Value::Word(old) = slot {
        return refill(old, text);
    }
    *slot = Value::Word(Text::copy_of(alloc, text.bytes())?);
    Ok(())
}

/// Makes a value another.
fn overwrite(alloc: Global, slot: &mut Value, v: &Value) -> Result<(), Memory>
    ensures { OnOk result (slot.new ≡ v.now) }
{
    match v {
        Value::Null => {
            *slot = Value::Null;
            Ok(())
        }
        Value::Int(n) => {
            *slot = Value::Int(*n);
            Ok(())
        }
        Value::Word(text) => overwrite_with_text(alloc, slot, text),
    }
}

/// Puts a value at a place, over the one that is there or at the end.
fn put_at(alloc: Global, buffer: &mut Values, place: usize, v: &Value) -> Result<(), Memory>
    requires { place ≤ length buffer.old }
    ensures { OnOk result (take (place + 1) buffer.new ≡ take place buffer.old ++ v.now ∷ []) }
{
    if place < buffer.as_slice().len() {
        overwrite(alloc, buffer.item_mut(place as u64), v)?;
        return Ok(());
    }
    buffer.push(v.duplicate(alloc)?)?;
    Ok(())
}

/// Puts a value at a place, or in bands the number of its band.
fn put_banded(
    alloc: Global,
    buffer: &mut Values,
    place: usize,
    dim: &Dim,
    v: &Value,
) -> Result<(), Memory>
    requires { place ≤ length buffer.old }
    ensures { OnOk result (take (place + 1) buffer.new ≡ take place buffer.old ++ (if is_plain dim.now then v.now else banded (width_of dim.now) v.now) ∷ []) }
{
    if dim.width() == 1 {
        return put_at(alloc, buffer, place, v);
    }
    match v {
        Value::Null => put_at(alloc, buffer, place, v),
        Value::Int(n) => put_at(alloc, buffer, place, &Value::Int(dim.band(*n))),
        Value::Word(_) => put_at(alloc, buffer, place, v),
    }
}

/// Puts a dimension's value in a row at a place. A column that the row lacks reads as null.
fn put_dim(
    alloc: Global,
    buffer: &mut Values,
    place: usize,
    row: &[Value],
    dim: &Dim,
) -> Result<(), Memory>
    requires { place ≤ length buffer.old }
    ensures { OnOk result (take (place + 1) buffer.new ≡ take place buffer.old ++ value_in row.now dim.now ∷ []) }
{
    match row.get(dim.column() as usize) {
        Some(v) => put_banded(alloc, buffer, place, dim, v),
        None => put_banded(alloc, buffer, place, dim, &Value::Null),
    }
}

/// Makes a buffer the row's key, in the memory that it has.
pub fn fill(alloc: Global, buffer: &mut Values, dims: &[Dim], row: &[Value]) -> Result<(), Memory>
    ensures { OnOk result (buffer.new ≡ key_of dims.now row.now) }
{
    for (place, dim) in dims.iter().enumerate() {
        put_dim(alloc, buffer, place, row, dim)?;
    }
    buffer.truncate(dims.len() as u64);
    Ok(())
}

/// The tallies of no rows.
pub fn no_tallies(alloc: Global, measures: &[Measure]) -> Result<Tallies, Memory>
    ensures { IfOk result (λ tallies. tallies ≡ map (tally_of []) measures.now) }
{
    let mut tallies = List::with_capacity(alloc, measures.len() as u64)?;
    for m in measures {
        tallies.push(Tally::new(alloc, *m))?;
    }
    Ok(tallies)
}

/// Adds a row to each tally.
fn add_to(alloc: Global, tallies: &mut Tallies, row: &[Value]) -> Result<(), Memory>
    requires { All (λ t. count_in t < 2 ^ 23) tallies.old }
    ensures { OnOk result (tallies.new ≡ map (added row.now) tallies.old) }
{
    for place in 0..tallies.len() {
        tallies.item_mut(place).add(alloc, row)?;
    }
    Ok(())
}

/// Puts a group of one row in, whose key isn't there.
fn add_group(
    alloc: Global,
    groups: &mut Groups,
    key: Values,
    measures: &[Measure],
    row: &[Value],
) -> Result<(), Memory>
    requires { lookup (is_at (key_cmp key)) groups.old ≡ None }
    ensures { OnOk result (groups.new ≡ insert_entry key_cmp groups.old key (map (added row.now) (map (tally_of []) measures.now))) }
{
    let mut tallies = no_tallies(alloc, measures)?;
    add_to(alloc, &mut tallies, row)?;
    groups.insert(alloc, key, tallies)
}

/// Adds a row to the tallies of the slot at a place.
fn add_at(alloc: Global, slots: &mut List<Slot>, place: u64, row: &[Value]) -> Result<(), Memory>
    requires there { place < length slots.old }
    requires few { (s : SlotOf) → slice_get slots.old place ≡ Some s → All (λ t. count_in t < 2 ^ 23) s.tallies }
    ensures { SetsTallies slots.old slots.new place (λ ts us. OnOk result (us ≡ map (added row.now) ts)) }
{
    add_to(alloc, &mut slots.item_mut(place).tallies, row)
}

/// Adds a row to the group of its key. Only a new group takes memory, but for what its tallies take: it takes the key over.
pub fn add_row(
    alloc: Global,
    groups: &mut Groups,
    key: &mut Values,
    measures: &[Measure],
    row: &[Value],
) -> Result<(), Memory>
    requires { (tallies : ListOf TallyOf) → lookup (is_at (key_cmp key.old)) groups.old ≡ Some tallies → All (λ t. count_in t < 2 ^ 23) tallies }
    ensures there { OnOk result ((tallies : ListOf TallyOf) → lookup (is_at (key_cmp key.old)) groups.old ≡ Some tallies → groups.new ≡ set_value (is_at (key_cmp key.old)) groups.old (map (added row.now) tallies)) }
    ensures absent { OnOk result (lookup (is_at (key_cmp key.old)) groups.old ≡ None → groups.new ≡ insert_entry key_cmp groups.old key.old (map (added row.now) (map (tally_of []) measures.now))) }
{
    match place_of(
        &groups.places,
        groups.slots.as_slice(),
        &mut groups.hints,
        key,
    ) {
        Some(place) => add_at(alloc, &mut groups.slots, place, row),
        None => add_group(alloc, groups, replace(key, List::new(alloc)), measures, row),
    }
}

/// Merges other tallies into those at their places.
fn merge_tallies(alloc: Global, tallies: &mut Tallies, others: &Tallies) -> Result<(), Memory>
    requires { Mergeable tallies.old others.now }
    ensures { OnOk result (tallies.new ≡ merged_all tallies.old others.now) }
{
    for (place, other) in others.as_slice().iter().enumerate() {
        tallies.item_mut(place as u64).merge(alloc, other)?;
    }
    Ok(())
}

/// Merges other tallies into those of the slot at a place.
fn merge_at(
    alloc: Global,
    slots: &mut List<Slot>,
    place: u64,
    others: &Tallies,
) -> Result<(), Memory>
    requires there { place < length slots.old }
    requires fit { (s : SlotOf) → slice_get slots.old place ≡ Some s → Mergeable s.tallies others.now }
    ensures { SetsTallies slots.old slots.new place (λ ts us. OnOk result (us ≡ merged_all ts others.now)) }
{
    merge_tallies(alloc, &mut slots.item_mut(place).tallies, others)
}

/// Merges a group into that of its key, or puts it in where there is none.
fn merge_group(
    alloc: Global,
    groups: &mut Groups,
    key: Values,
    tallies: Tallies,
) -> Result<(), Memory>
    requires { IsMergeable groups.old (key, tallies) }
    ensures { OnOk result (groups.new ≡ merged_in groups.old (key, tallies)) }
{
    match place_of(
        &groups.places,
        groups.slots.as_slice(),
        &mut groups.hints,
        &key,
    ) {
        Some(place) => merge_at(alloc, &mut groups.slots, place, &tallies),
        None => groups.insert(alloc, key, tallies),
    }
}

/// The answer's row of a group.
pub fn cells_of(alloc: Global, key: &Values, tallies: &Tallies) -> Result<Cells, Memory>
    requires { All (λ t. count_in t ≤ 2 ^ 23) tallies.now }
    ensures { IfOk result (λ row. row ≡ map cell_of key.now ++ map tally_cell tallies.now) }
{
    let keys = key.as_slice();
    let items = tallies.as_slice();
    let mut row = List::with_capacity(alloc, key.len())?;
    for v in keys {
        row.push(cell_from(alloc, v)?)?;
    }
    for tally in items {
        row.push(tally.cell(alloc)?)?;
    }
    Ok(row)
}

/// The answer's row of the slot at a place, of the key alone where there is no slot.
fn cells_at(alloc: Global, key: &Values, slots: &[Slot], place: u64) -> Result<Cells, Memory>
    requires { All (λ t. count_in t ≤ 2 ^ 23) (tallies_in (slice_get slots.now place)) }
    ensures { IfOk result (λ row. row ≡ group_cells (entry_at slots.now (key.now, place))) }
{
    match slots.get(place as usize) {
        Some(slot) => cells_of(alloc, key, &slot.tallies),
        None => cells_of(alloc, key, &List::new(alloc)),
    }
}

/// The answer's rows, in the order of keys.
pub fn rows_of(alloc: Global, groups: &Groups) -> Result<Vec<Cells>, Memory>
    requires { AllSmall groups.now }
    ensures { IfOk result (λ rows. rows.items ≡ map group_cells groups.now) }
{
    let slots = groups.slots.as_slice();
    let mut rows = Vec::new(alloc);
    for (key, place) in groups.places.iter() {
        rows.push(cells_at(alloc, key, slots, *place)?)?;
    }
    Ok(rows)
}

/// Takes the tallies of the slot at a place, none where there is no slot.
fn take_at(alloc: Global, slots: &mut List<Slot>, place: u64) -> Tallies
    ensures taken { result ≡ tallies_in (slice_get slots.old place) }
    ensures rest { slots.new ≡ emptied slots.old place }
{
    if place < slots.len() {
        replace(&mut slots.item_mut(place).tallies, List::new(alloc))
    } else {
        List::new(alloc)
    }
}

/// Merges each of other groups into the groups.
pub fn merge_groups(alloc: Global, groups: &mut Groups, others: Groups) -> Result<(), Memory>
    requires { AreMergeable groups.old others }
    ensures { OnOk result (groups.new ≡ merged_groups groups.old others) }
{
    let Groups { places, slots, .. } = others;
    let _ordered = places.len();
    let mut rest = slots;
    for (key, place) in places {
        let tallies = take_at(alloc, &mut rest, place);
        merge_group(alloc, groups, key, tallies)?;
    }
    Ok(())
}
