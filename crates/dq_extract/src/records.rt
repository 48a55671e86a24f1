ghost use Rattle.std.specs.Prelude.{◌≡◌, ◌≤◌, length, IfOk};
ghost use Rattle.csv.specs.Reading.{records, default_config, strip_bom, is_bom};
ghost use Rattle.csv.specs.Records.{fields_of};

use csv::{ByteRecord, Reader, ReaderBuilder};
use dq_base::Memory;
use std::alloc::Global;
use std::marker::Model;

/// A reader of records of any width. Contracts see the records that it has left, and the fields of the one at hand.
#[derive(Drop)]
pub(crate) struct Records<'a> {
    reader: Reader<&'a [u8]>,
    row: ByteRecord,
    // how many records it may still read
    fuel: usize,
}

impl<'a> Model for Records<'a> {
    ghost use Rattle.std.specs.Prelude.{Some, ◌<◌};
    ghost use Rattle.csv.specs.Records.{fields_of};
    ghost use Rattle.dq_extract.specs.Left.{Reading, records_left, IsReading};

    ghost Value = { Reading };

    ghost view = { λ r. record { left = records_left (λ s. Some s.now) r.fuel r.reader; fields = fields_of r.row } };

    ghost invariant = { λ r. 0 < r.fuel → IsReading (λ s. Some s.now) r.reader };
}

// Whether these bytes are a byte order mark.
fn is_mark(a: u8, b: u8, c: u8) -> bool
    ensures { result ≡ is_bom a b c }
{
    a == 0xEF && b == 0xBB && c == 0xBF
}

// How many bytes follow a byte order mark.
#[tactic(auto, using(crate::proofs::Marks::marked_length, crate::proofs::Marks::unmarked_length, crate::proofs::Marks::short_length))]
fn unmarked_len(bytes: &[u8]) -> usize
    ensures value { result ≡ length (strip_bom bytes.now) }
    ensures bound { result ≤ length bytes.now }
{
    if bytes.len() < 3 {
        return bytes.len();
    }
    if is_mark(bytes[0], bytes[1], bytes[2]) {
        return bytes.len() - 3;
    }
    bytes.len()
}

impl<'a> Records<'a> {
    ghost use Rattle.dq_extract.specs.Left.{IsNext};

    /// A reader of a file's records. A leading byte order mark is skipped.
    pub(crate) fn new(alloc: Global, bytes: &'a [u8]) -> Self
        ensures { result.left ≡ records default_config (strip_bom bytes.now) }
    {
        let reader = ReaderBuilder::new()
            .has_headers(false)
            .flexible(true)
            .from_reader(alloc, bytes);
        Records {
            reader,
            row: ByteRecord::new(alloc),
            fuel: unmarked_len(bytes) + 1,
        }
    }

    /// Reads the next record, and tells whether there was one. After want of memory there is none.
    pub(crate) fn next(&mut self) -> Result<bool, Memory>
        ensures { IfOk result (IsNext self.old self.new) }
    {
        if self.fuel == 0 {
            return Ok(false);
        }
        match self.reader.read_byte_record(&mut self.row) {
            Ok(true) => {}
            Ok(false) => {
                self.fuel = 0;
                return Ok(false);
            }
            Err(_) => {
                self.fuel = 0;
                return Err(Memory);
            }
        }
        self.fuel -= 1;
        Ok(true)
    }

    /// The record at hand.
    pub(crate) fn current(&self) -> &ByteRecord
        ensures { fields_of result.now ≡ self.now.fields }
    {
        &self.row
    }
}
