ghost use Rattle.std.specs.Prelude.{◌≡◌};
ghost use Rattle.serde_json.specs.View.{view};
ghost use Rattle.dq_script.specs.Readings.{Answers, given, mapped};
ghost use Rattle.dq_script.specs.Parts.{number_of, most_place};
ghost use Rattle.dq_script.specs.Zones.{way_of, key_of, top_of, zone_with, asked_of, zone_over, zone_of};

use crate::arrays::ArrayOf;
use crate::dims::{Groupings, ReadsGrouping, dims_of};
use crate::filters::ReadsFilter;
use crate::known::{Known, ReadsSource, columns_at};
use crate::measures::ReadsMeasure;
use crate::misfit::{Misfit, here};
use crate::names::Names;
use crate::objects::{is_object, refuse_strangers};
use crate::parts::{MOST_PLACE, is_string, number_of, two_items};
use crate::reads::{Reads, read_optional, read_wanted, read_within};
use dq_base::{Measures, OrderKey, OrderKeys, Predicates, Query};
use serde_json::Value;
use std::alloc::Global;

// A zone, and its dimensions as they are written.
#[derive(Drop)]
pub struct Zone {
    pub query: Query,
    pub by: Groupings,
}

// Whether an order goes down, by its word.
fn way_of(value: &Value) -> Option<bool>
    ensures { result ≡ way_of (view value.now) }
{
    if is_string(value, b"up") {
        return Some(false);
    }
    if is_string(value, b"down") {
        return Some(true);
    }
    None
}

// Reads whether an order goes down.
#[derive(Drop)]
struct ReadsWay;

impl Reads for ReadsWay {
    type Out = bool;

    ghost reading = { λ s d. given (way_of d) };

    fn read(&self, alloc: Global, value: &Value) -> Result<bool, Misfit> {
        match way_of(value) {
            Some(down) => Ok(down),
            None => Err(here(alloc)),
        }
    }
}

// Reads a number that names a place, from 0.
#[derive(Drop)]
struct ReadsPlace;

impl Reads for ReadsPlace {
    type Out = u32;

    ghost reading = { λ s d. given (number_of 0 most_place d) };

    fn read(&self, alloc: Global, value: &Value) -> Result<u32, Misfit> {
        match number_of(value, 0, MOST_PLACE) {
            Some(place) => Ok(place as u32),
            None => Err(here(alloc)),
        }
    }
}

// Reads a key of an order.
#[derive(Drop)]
struct ReadsKey;

impl Reads for ReadsKey {
    type Out = OrderKey;

    ghost reading = { λ s. key_of };

    fn read(&self, alloc: Global, value: &Value) -> Result<OrderKey, Misfit> {
        let Some((place, way)) = two_items(value) else {
            return Err(here(alloc));
        };
        let place = read_within(&ReadsPlace, alloc, b"0", place)?;
        let down = read_within(&ReadsWay, alloc, b"1", way)?;
        Ok(OrderKey { place, down })
    }
}

// Reads how many rows are wanted.
#[derive(Drop)]
struct ReadsTop;

impl Reads for ReadsTop {
    type Out = Option<u32>;

    ghost reading = { λ s. top_of };

    fn read(&self, alloc: Global, value: &Value) -> Result<Option<u32>, Misfit> {
        let top = ReadsPlace.read(alloc, value)?;
        Ok(Some(top))
    }
}

// What is asked of columns of these names.
fn read_asked(alloc: Global, names: Names, zone: &Value, source: u32) -> Result<Zone, Misfit>
    ensures { Answers (mapped (zone_with source) (asked_of names.entry.names.now (view zone.now))) result }
{
    let each_filter = ArrayOf {
        item: ReadsFilter { names },
    };
    let each_grouping = ArrayOf {
        item: ReadsGrouping { names },
    };
    let each_measure = ArrayOf {
        item: ReadsMeasure { names },
    };
    let each_key = ArrayOf { item: ReadsKey };
    let filters = read_optional(&each_filter, alloc, zone, "filters", Predicates::new(alloc))?;
    let by = read_optional(&each_grouping, alloc, zone, "by", Groupings::new(alloc))?;
    let measures = read_optional(&each_measure, alloc, zone, "show", Measures::new(alloc))?;
    let order = read_optional(&each_key, alloc, zone, "order", OrderKeys::new(alloc))?;
    let top = read_optional(&ReadsTop, alloc, zone, "top", None)?;
    let dims = dims_of(alloc, by.as_slice())?;
    let query = Query {
        source,
        filters,
        dims,
        measures,
        order,
        top,
    };
    Ok(Zone { query, by })
}

// What is asked of an extract by its number.
fn read_over(alloc: Global, known: Known, zone: &Value, source: u32) -> Result<Zone, Misfit>
    ensures { Answers (zone_over known.entry.extracts.now (view zone.now) source) result }
{
    let names = columns_at(known, source);
    read_asked(alloc, names, zone, source)
}

// Reads a zone over these extracts.
#[derive(Drop)]
pub struct ReadsZone<'a> {
    pub known: Known<'a>,
}

impl<'a> Reads for ReadsZone<'a> {
    type Out = Zone;

    ghost reading = { λ s. zone_of s.known.extracts.now };

    fn read(&self, alloc: Global, value: &Value) -> Result<Zone, Misfit> {
        if !is_object(value) {
            return Err(here(alloc));
        }
        let source = read_wanted(&ReadsSource { known: self.known }, alloc, value, "source")?;
        let zone = read_over(alloc, self.known, value, source)?;
        refuse_strangers(
            alloc,
            value,
            &["source", "filters", "by", "show", "order", "top"],
        )?;
        Ok(zone)
    }
}
