ghost use Rattle.dq_base.specs.Rests.{Anything};
ghost use Rattle.dq_parse.specs.Parsing.{ParsedAs};
ghost use Rattle.dq_parse.specs.Reading.{AreSizes, IsBody, ReadAs, Takes, body_text, sizes_text};
ghost use Rattle.dq_reading.specs.Reading.{Reads};

use crate::entries::read_journal;
use crate::fault::ParseFault;
use crate::parsed::Parsed;
use crate::results::read_lanes;
use crate::words::read_line;
use dq_reading::{Left, TextFault};
use std::alloc::Global;

// Reads how many lanes and entries there are.
fn read_head(left: &mut Left) -> Result<(u64, u64), TextFault>
    ensures { Reads AreSizes Anything sizes_text left.old left.new result }
{
    if !left.skip(b"report 1\n") {
        return Err(TextFault::NotInGrammar);
    }
    let lanes = read_line(left, b"lanes ")?;
    let entries = read_line(left, b"entries ")?;
    Ok((lanes, entries))
}

// Reads a journal and the results, of so many lanes and entries.
fn read_body(alloc: Global, left: &mut Left, lanes: u64, entries: u64) -> Result<Parsed, TextFault>
    ensures { Takes (IsBody lanes entries) Anything body_text left.old left.new result }
{
    let journal = read_journal(alloc, left, entries)?;
    let results = read_lanes(alloc, left, lanes)?;
    Ok(Parsed { journal, results })
}

// Reads a whole report.
fn read_report(alloc: Global, bytes: &[u8]) -> Result<Parsed, TextFault>
    ensures { ReadAs bytes.now result }
{
    let mut left = Left::new(bytes);
    let _size = left.len();
    let (lanes, entries) = read_head(&mut left)?;
    let parsed = read_body(alloc, &mut left, lanes, entries)?;
    if !left.is_empty() {
        return Err(TextFault::NotInGrammar);
    }
    Ok(parsed)
}

/// The journal and the results that bytes are a report of. `NotReport` exactly where no journal and results have that report,
/// and `Memory` where memory is wanting.
///
/// The bytes are read once from their front, and nothing is copied but the texts of cells. The cost is that of the bytes. A count that
/// stands there takes no room ahead of what it counts.
pub fn parse(alloc: Global, bytes: &[u8]) -> Result<Parsed, ParseFault>
    ensures { ParsedAs bytes.now result }
{
    match read_report(alloc, bytes) {
        Ok(parsed) => Ok(parsed),
        Err(TextFault::NotInGrammar) => Err(ParseFault::NotReport),
        Err(TextFault::Memory) => Err(ParseFault::Memory),
    }
}
