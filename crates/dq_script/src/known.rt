ghost use Rattle.std.specs.Prelude.{◌≡◌, ◌≤◌, true, length};
ghost use Rattle.std.specs.List.{list_all};
ghost use Rattle.dq_script.specs.Columns.{columns_fit};
ghost use Rattle.dq_script.specs.Zones.{source_in, columns_at};
ghost use Rattle.dq_script.specs.Parts.{place_in};

use crate::extracts::Extracts;
use crate::misfit::{Misfit, here};
use crate::names::Names;
use crate::parts::place_in;
use crate::reads::Reads;
use serde_json::Value;
use std::alloc::Global;

// Extracts within their limits.
#[derive(Clone, Copy)]
pub struct Known<'a> {
    pub extracts: &'a Extracts,
    ghost few: { length extracts.now.names ≤ 64 },
    ghost columns: { list_all columns_fit extracts.now.schemas ≡ true },
}

// The number of the extract of this name.
pub fn number_of_source(known: Known, name: &[u8]) -> u32
    ensures { result ≡ place_in known.entry.extracts.now.names name.now }
{
    place_in(known.extracts.names.as_slice(), name) as u32
}

// Reads the number of the extract that a value names.
#[derive(Drop)]
pub struct ReadsSource<'a> {
    pub known: Known<'a>,
}

impl<'a> Reads for ReadsSource<'a> {
    type Out = u32;

    ghost reading = { λ s. source_in s.known.extracts.now };

    fn read(&self, alloc: Global, value: &Value) -> Result<u32, Misfit> {
        match value.as_str() {
            Some(name) => Ok(number_of_source(self.known, name.as_bytes())),
            None => Err(here(alloc)),
        }
    }
}

// The columns' names of an extract by its number, none where there is no such extract.
pub fn columns_at<'a>(known: Known<'a>, source: u32) -> Names<'a>
    ensures { result.names.now ≡ columns_at known.entry.extracts.now.schemas source }
{
    let Some(schema) = known.extracts.schemas.get(source as u64) else {
        return Names { names: &[] };
    };
    Names {
        names: schema.names().as_slice(),
    }
}
