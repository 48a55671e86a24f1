ghost use Rattle.std.specs.Prelude.{◌≡◌, IfOk};
ghost use Rattle.std.specs.List.{list_all};
ghost use Rattle.serde_json.specs.View.{view};
ghost use Rattle.dq_script.specs.Columns.{extract_of, with_extract, next_extract, no_extracts, extracts_of, columns_fit, extracts_fit};
ghost use Rattle.dq_script.specs.Readings.{Answers};

use crate::arrays::{Takes, take_array};
use crate::columns::ReadsColumns;
use crate::misfit::{Misfit, here};
use crate::objects::{is_object, refuse_strangers};
use crate::parts::ReadsNewName;
use crate::places::Places;
use crate::reads::{Reads, read_wanted};
use dq_base::{MOST_COLUMNS, MOST_EXTRACTS, Memory, Schema, Schemas, Text};
use serde_json::Value;
use std::alloc::Global;

// An extract as the script writes it.
#[derive(Drop)]
pub struct Extract {
    pub name: Text,
    pub schema: Schema,
}

// The names and schemas of the extracts, as many of the one as of the other.
#[derive(Drop)]
pub struct Extracts {
    pub names: Places<Text>,
    pub schemas: Schemas,
}

// An extract, of a name that no earlier one has.
fn read_extract(alloc: Global, earlier: &Places<Text>, value: &Value) -> Result<Extract, Misfit>
    ensures { Answers (extract_of earlier.now (view value.now)) result }
{
    if !is_object(value) {
        return Err(here(alloc));
    }
    let name = read_wanted(&ReadsNewName { earlier }, alloc, value, "name")?;
    let schema = read_wanted(&ReadsColumns, alloc, value, "columns")?;
    refuse_strangers(alloc, value, &["name", "columns"])?;
    Ok(Extract { name, schema })
}

// These extracts, and one more at the end.
fn with_extract(alloc: Global, extracts: Extracts, extract: Extract) -> Result<Extracts, Memory>
    ensures { IfOk result (λ more. more ≡ with_extract extracts extract) }
{
    let Extracts { names, mut schemas } = extracts;
    let copy = Text::copy_of(alloc, extract.name.bytes())?;
    let names = names.with(extract.name, copy)?;
    schemas.push(extract.schema)?;
    Ok(Extracts { names, schemas })
}

// Takes extracts in order.
#[derive(Drop)]
struct TakesExtracts;

impl Takes for TakesExtracts {
    type State = Extracts;

    ghost next = { λ s. next_extract };

    fn take(&self, alloc: Global, extracts: Extracts, value: &Value) -> Result<Extracts, Misfit> {
        let extract = read_extract(alloc, &extracts.names, value)?;
        let more = with_extract(alloc, extracts, extract)?;
        Ok(more)
    }
}

// No extracts.
pub fn no_extracts(alloc: Global) -> Extracts
    ensures { result ≡ no_extracts }
{
    Extracts {
        names: Places::new(alloc),
        schemas: Schemas::new(alloc),
    }
}

// Reads an array of extracts.
#[derive(Drop)]
pub struct ReadsExtracts;

impl Reads for ReadsExtracts {
    type Out = Extracts;

    ghost reading = { λ s d. extracts_of d };

    fn read(&self, alloc: Global, value: &Value) -> Result<Extracts, Misfit> {
        take_array(&TakesExtracts, alloc, no_extracts(alloc), value)
    }
}

// Whether the columns of each schema are few.
fn all_columns_fit(schemas: &[Schema]) -> bool
    ensures { result ≡ list_all columns_fit schemas.now }
{
    schemas
        .iter()
        .all(|schema| schema.names().len() <= MOST_COLUMNS)
}

// Whether the extracts and their columns are few.
pub fn extracts_fit(extracts: &Extracts) -> bool
    ensures { result ≡ extracts_fit extracts.now }
{
    extracts.names.as_slice().len() as u64 <= MOST_EXTRACTS
        && all_columns_fit(extracts.schemas.as_slice())
}
