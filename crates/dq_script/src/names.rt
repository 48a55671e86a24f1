ghost use Rattle.std.specs.Prelude.{◌≡◌, ◌≤◌, length};
ghost use Rattle.dq_script.specs.Filters.{column_in};
ghost use Rattle.dq_script.specs.Parts.{place_in};

use crate::misfit::{Misfit, here};
use crate::parts::place_in;
use crate::reads::Reads;
use dq_base::Text;
use serde_json::Value;
use std::alloc::Global;

// Names that are few enough to be numbered.
#[derive(Clone, Copy)]
pub struct Names<'a> {
    pub names: &'a [Text],
    ghost few: { length names.now ≤ 64 },
}

// The number of a column.
pub fn number_of_column(names: Names, name: &[u8]) -> u32
    ensures { result ≡ place_in names.entry.names.now name.now }
{
    place_in(names.names, name) as u32
}

// Reads the number of the column that a value names.
#[derive(Drop)]
pub struct ReadsColumn<'a> {
    pub names: Names<'a>,
}

impl<'a> Reads for ReadsColumn<'a> {
    type Out = u32;

    ghost reading = { λ s. column_in s.names.names.now };

    fn read(&self, alloc: Global, value: &Value) -> Result<u32, Misfit> {
        match value.as_str() {
            Some(name) => Ok(number_of_column(self.names, name.as_bytes())),
            None => Err(here(alloc)),
        }
    }
}
