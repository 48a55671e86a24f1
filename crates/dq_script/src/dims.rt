ghost use Rattle.std.specs.Prelude.{◌≡◌, ◌≤◌, map, IfOk};
ghost use Rattle.serde_json.specs.View.{view, items_view};
ghost use Rattle.dq_script.specs.Readings.{Answers};
ghost use Rattle.dq_script.specs.Parts.{place_in};
ghost use Rattle.dq_script.specs.Zones.{banded, width_of, named_band, band_word, band_in, grouping_of};

use crate::misfit::{Misfit, here};
use crate::names::{Names, number_of_column};
use crate::parts::{MOST_PLACE, ReadsText, is_string, number_of, three};
use crate::reads::{Reads, read_within};
use dq_base::{Dim, Dims, List, Memory, Text};
use serde_json::Value;
use std::alloc::Global;

// A dimension, under its column's name as it is written.
#[derive(Drop)]
pub struct Grouping {
    pub name: Text,
    pub dim: Dim,
}

// Dimensions as they are written.
pub type Groupings = List<Grouping>;

// The word before a band.
#[derive(Drop)]
struct ReadsBandWord;

impl Reads for ReadsBandWord {
    type Out = ();

    ghost reading = { λ s. band_word };

    fn read(&self, alloc: Global, value: &Value) -> Result<(), Misfit> {
        if is_string(value, b"band") {
            Ok(())
        } else {
            Err(here(alloc))
        }
    }
}

// A column in bands of this width, which isn't 0.
fn banded(column: u32, width: u64) -> Option<Dim>
    requires { width ≤ 4294967295 }
    ensures { result ≡ banded column width }
{
    Dim::new(column, width as u32)
}

// Reads the width of a column's bands.
#[derive(Drop)]
struct ReadsWidth {
    column: u32,
}

impl Reads for ReadsWidth {
    type Out = Dim;

    ghost reading = { λ s. width_of s.column };

    fn read(&self, alloc: Global, value: &Value) -> Result<Dim, Misfit> {
        let Some(width) = number_of(value, 0, MOST_PLACE) else {
            return Err(here(alloc));
        };
        match banded(self.column, width) {
            Some(dim) => Ok(dim),
            None => Err(here(alloc)),
        }
    }
}

// The number of the column of this name.
fn column_of(names: Names, name: &Text) -> u32
    ensures { result ≡ place_in names.entry.names.now name.now }
{
    number_of_column(names, name.bytes())
}

// A band of the column of this name.
fn read_named(alloc: Global, names: Names, width: &Value, name: Text) -> Result<Grouping, Misfit>
    ensures { Answers (named_band names.entry.names.now (view width.now) name) result }
{
    let column = column_of(names, &name);
    let dim = read_within(&ReadsWidth { column }, alloc, b"2", width)?;
    Ok(Grouping { name, dim })
}

// A band.
fn read_band(alloc: Global, names: Names, items: &[Value]) -> Result<Grouping, Misfit>
    ensures { Answers (band_in names.entry.names.now (items_view items.now)) result }
{
    let Some((word, name, width)) = three(items) else {
        return Err(here(alloc));
    };
    read_within(&ReadsBandWord, alloc, b"0", word)?;
    let name = read_within(&ReadsText, alloc, b"1", name)?;
    read_named(alloc, names, width, name)
}

// Reads a dimension of columns of these names.
#[derive(Drop)]
pub struct ReadsGrouping<'a> {
    pub names: Names<'a>,
}

impl<'a> Reads for ReadsGrouping<'a> {
    type Out = Grouping;

    ghost reading = { λ s. grouping_of s.names.names.now };

    fn read(&self, alloc: Global, value: &Value) -> Result<Grouping, Misfit> {
        if let Some(name) = value.as_str() {
            let name = Text::copy_of(alloc, name.as_bytes())?;
            let dim = Dim::plain(column_of(self.names, &name));
            return Ok(Grouping { name, dim });
        }
        match value.as_array() {
            Some(items) => read_band(alloc, self.names, items.as_slice()),
            None => Err(here(alloc)),
        }
    }
}

// The dimensions alone.
pub fn dims_of(alloc: Global, by: &[Grouping]) -> Result<Dims, Memory>
    ensures { IfOk result (λ dims. dims ≡ map (λ g. g.dim) by.now) }
{
    let mut dims = Dims::new(alloc);
    for grouping in by {
        dims.push(grouping.dim.again())?;
    }
    Ok(dims)
}
