ghost use Rattle.std.specs.Prelude.{◌≡◌, [], map, IfOk};
ghost use Rattle.serde_json.specs.View.{view};
ghost use Rattle.dq_script.specs.Readings.{Answers, within, given};
ghost use Rattle.dq_script.specs.Batches.{key_of, link_of, links_of, links_between, pair_of, blend_of, no_zones, with_zone, with_pair, is_blend, next_zone, batch_of};
ghost use Rattle.std.specs.Fmt.{decimal};

use crate::arrays::{Takes, take_array};
use crate::dims::Grouping;
use crate::form::Form;
use crate::known::Known;
use crate::misfit::{Misfit, here, within};
use crate::objects::{has, is_object, refuse_strangers};
use crate::parts::two_items;
use crate::places::Places;
use crate::reads::{Reads, read_wanted, read_within};
use crate::zone::{ReadsZone, Zone};
use dq_base::{List, Memory, Numbers, Queries, Text, put_number};
use serde_json::Value;
use std::alloc::Global;

// Two neighbouring zones of a batch that are shown as one: the number of the first one, and the links of the second.
#[derive(Drop)]
pub struct Pair {
    pub zone: u64,
    pub links: Numbers,
}

// Pairs in order.
pub type Pairs = List<Pair>;

// The zones of a batch, and which of them are pairs.
#[derive(Drop)]
pub struct Batch {
    pub zones: Queries,
    pub pairs: Pairs,
}

// Two zones that are shown as one, and the links of the second.
type Linked = ((Zone, Zone), Numbers);

// A dimension's name and width.
fn key_of(alloc: Global, grouping: &Grouping) -> Result<(Text, u32), Memory>
    ensures { IfOk result (λ key. key ≡ key_of grouping.now) }
{
    let name = Text::copy_of(alloc, grouping.name.bytes())?;
    Ok((name, grouping.dim.width()))
}

// The names and widths of dimensions, each of which is looked up by its place.
fn keys_of(alloc: Global, by: &[Grouping]) -> Result<Places<(Text, u32)>, Memory>
    ensures { IfOk result (λ keys. keys ≡ map key_of by.now) }
{
    let mut keys = Places::new(alloc);
    for grouping in by {
        let key = key_of(alloc, grouping)?;
        let copy = key_of(alloc, grouping)?;
        keys = keys.with(key, copy)?;
    }
    Ok(keys)
}

// The link of a dimension, where there is its like. That it is too large for a link is told as want of memory.
fn read_link(alloc: Global, keys: &Places<(Text, u32)>, grouping: &Grouping) -> Result<u32, Misfit>
    ensures { Answers (given (link_of keys.now grouping.now)) result }
{
    let key = key_of(alloc, grouping)?;
    let Some(place) = keys.place_of(&key) else {
        return Err(here(alloc));
    };
    if place >= 4294967295 {
        return Err(Misfit::Memory);
    }
    Ok(place as u32 + 1)
}

// The link of a dimension at its place.
fn read_link_at(
    alloc: Global,
    keys: &Places<(Text, u32)>,
    place: u64,
    grouping: &Grouping,
) -> Result<u32, Misfit>
    ensures { Answers (within (decimal place) (given (link_of keys.now grouping.now))) result }
{
    let misfit = match read_link(alloc, keys, grouping) {
        Ok(link) => return Ok(link),
        Err(misfit) => misfit,
    };
    let mut step = Text::new(alloc);
    put_number(&mut step, place)?;
    Err(within(alloc, step.bytes(), misfit))
}

// A link for each dimension.
fn read_links(alloc: Global, keys: &Places<(Text, u32)>, by: &[Grouping]) -> Result<Numbers, Misfit>
    ensures { Answers (links_of keys.now 0 [] by.now) result }
{
    let mut links = Numbers::new(alloc);
    for (place, grouping) in by.iter().enumerate() {
        let link = read_link_at(alloc, keys, place as u64, grouping)?;
        links.push(link)?;
    }
    Ok(links)
}

// The links of the second zone to the first.
fn read_links_between(alloc: Global, first: &Zone, second: &Zone) -> Result<Numbers, Misfit>
    ensures { Answers (links_between (first.now, second.now)) result }
{
    let keys = keys_of(alloc, first.by.as_slice())?;
    match read_links(alloc, &keys, second.by.as_slice()) {
        Ok(links) => Ok(links),
        Err(misfit) => Err(within(alloc, b"1", within(alloc, b"by", misfit))),
    }
}

// Reads an array of two zones that are shown as one.
#[derive(Drop)]
struct ReadsPair<'a> {
    known: Known<'a>,
}

impl<'a> Reads for ReadsPair<'a> {
    type Out = Linked;

    ghost reading = { λ s. pair_of s.known.extracts.now };

    fn read(&self, alloc: Global, value: &Value) -> Result<Linked, Misfit> {
        let Some((first, second)) = two_items(value) else {
            return Err(here(alloc));
        };
        let zone = ReadsZone { known: self.known };
        let first = read_within(&zone, alloc, b"0", first)?;
        let second = read_within(&zone, alloc, b"1", second)?;
        let links = read_links_between(alloc, &first, &second)?;
        Ok(((first, second), links))
    }
}

// A blend, which has no other member.
fn read_blend(alloc: Global, known: Known, value: &Value) -> Result<Linked, Misfit>
    ensures { Answers (blend_of known.entry.extracts.now (view value.now)) result }
{
    if !is_object(value) {
        return Err(here(alloc));
    }
    let linked = read_wanted(&ReadsPair { known }, alloc, value, "blend")?;
    refuse_strangers(alloc, value, &["blend"])?;
    Ok(linked)
}

// No zones.
fn no_zones(alloc: Global) -> Batch
    ensures { result ≡ no_zones }
{
    Batch {
        zones: Queries::new(alloc),
        pairs: Pairs::new(alloc),
    }
}

// This batch, and one more zone at the end.
fn with_zone(batch: Batch, zone: Zone) -> Result<Batch, Memory>
    ensures { IfOk result (λ more. more ≡ with_zone batch zone) }
{
    let Batch { mut zones, pairs } = batch;
    zones.push(zone.query)?;
    Ok(Batch { zones, pairs })
}

// This batch, and two more zones at the end that are shown as one.
fn with_pair(batch: Batch, linked: Linked) -> Result<Batch, Memory>
    ensures { IfOk result (λ more. more ≡ with_pair batch linked) }
{
    let Batch {
        mut zones,
        mut pairs,
    } = batch;
    let ((first, second), links) = linked;
    let zone = zones.len() + 1;
    zones.push(first.query)?;
    zones.push(second.query)?;
    pairs.push(Pair { zone, links })?;
    Ok(Batch { zones, pairs })
}

// Whether a zone is a blend, which only the second form knows.
fn is_blend(form: Form, value: &Value) -> bool
    ensures { result ≡ is_blend form (view value.now) }
{
    match form {
        Form::First => false,
        Form::Second => has(value, "blend"),
    }
}

// Takes the zones of a batch in order.
#[derive(Drop)]
struct TakesZones<'a> {
    form: Form,
    known: Known<'a>,
}

impl<'a> Takes for TakesZones<'a> {
    type State = Batch;

    ghost next = { λ s. next_zone s.form s.known.extracts.now };

    fn take(&self, alloc: Global, batch: Batch, value: &Value) -> Result<Batch, Misfit> {
        if is_blend(self.form, value) {
            let linked = read_blend(alloc, self.known, value)?;
            let more = with_pair(batch, linked)?;
            return Ok(more);
        }
        let zone = ReadsZone { known: self.known }.read(alloc, value)?;
        let more = with_zone(batch, zone)?;
        Ok(more)
    }
}

// Reads a batch over these extracts.
#[derive(Drop)]
pub struct ReadsBatch<'a> {
    pub form: Form,
    pub known: Known<'a>,
}

impl<'a> Reads for ReadsBatch<'a> {
    type Out = Batch;

    ghost reading = { λ s. batch_of s.form s.known.extracts.now };

    fn read(&self, alloc: Global, value: &Value) -> Result<Batch, Misfit> {
        let zones = TakesZones {
            form: self.form,
            known: self.known,
        };
        take_array(&zones, alloc, no_zones(alloc), value)
    }
}
