ghost use Rattle.serde_json.specs.Data.{Data};
ghost use Rattle.serde_json.specs.View.{view, items_view};
ghost use Rattle.dq_script.specs.Readings.{Reading, Answers, within};
ghost use Rattle.dq_script.specs.Arrays.{items_after, array_after, next_item, array_of};
ghost use Rattle.std.specs.Fmt.{decimal};

use crate::misfit::{Misfit, here, within};
use crate::reads::Reads;
use dq_base::{List, Text, put_number};
use serde_json::Value;
use std::alloc::Global;

// What takes the items of an array in, one after another.
pub trait Takes {
    type State: Drop;

    // What an item makes of what was read before it.
    ghost next: { Self → Self.State → Data → Reading Self.State };

    fn take(&self, alloc: Global, state: Self::State, value: &Value) -> Result<Self::State, Misfit>
        ensures { Answers (next self.now state (view value.now)) result };
}

// An item at its place.
fn take_at<R: Takes>(
    reader: &R,
    alloc: Global,
    place: u64,
    state: R::State,
    value: &Value,
) -> Result<R::State, Misfit>
    ensures { Answers (within (decimal place) (R.next reader.now state (view value.now))) result }
{
    let misfit = match reader.take(alloc, state, value) {
        Ok(more) => return Ok(more),
        Err(misfit) => misfit,
    };
    let mut step = Text::new(alloc);
    put_number(&mut step, place)?;
    Err(within(alloc, step.bytes(), misfit))
}

// Items in order.
pub fn take_items<R: Takes>(
    reader: &R,
    alloc: Global,
    state: R::State,
    items: &[Value],
) -> Result<R::State, Misfit>
    ensures { Answers (items_after (R.next reader.now) 0 state (items_view items.now)) result }
{
    let mut all = state;
    for (place, item) in items.iter().enumerate() {
        all = take_at(reader, alloc, place as u64, all, item)?;
    }
    Ok(all)
}

// An array, whose items are taken in one after another.
pub fn take_array<R: Takes>(
    reader: &R,
    alloc: Global,
    state: R::State,
    value: &Value,
) -> Result<R::State, Misfit>
    ensures { Answers (array_after (R.next reader.now) state (view value.now)) result }
{
    match value.as_array() {
        Some(items) => take_items(reader, alloc, state, items.as_slice()),
        None => Err(here(alloc)),
    }
}

// Reads an array, each item by the reader.
#[derive(Drop)]
pub struct ArrayOf<R> {
    pub item: R,
}

impl<R: Reads> Takes for ArrayOf<R> {
    type State = List<R::Out>;

    ghost next = { λ s. next_item (R.reading s.item) };

    fn take(
        &self,
        alloc: Global,
        state: List<R::Out>,
        value: &Value,
    ) -> Result<List<R::Out>, Misfit> {
        let mut items = state;
        let item = self.item.read(alloc, value)?;
        items.push(item)?;
        Ok(items)
    }
}

impl<R: Reads> Reads for ArrayOf<R> {
    type Out = List<R::Out>;

    ghost reading = { λ s. array_of (R.reading s.item) };

    fn read(&self, alloc: Global, value: &Value) -> Result<List<R::Out>, Misfit> {
        take_array(self, alloc, List::new(alloc), value)
    }
}
