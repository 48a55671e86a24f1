ghost use Rattle.std.specs.Prelude.{◌≡◌, ◌≢◌, ◌<◌, length, slice_index};
ghost use Rattle.std.specs.Str.{is_utf8};
ghost use Rattle.dq_extract.specs.Rows.{Answers, value_of};
ghost use Rattle.dq_extract.specs.Wholes.{whole_of};

use crate::fault::LoadFault;
use dq_base::{Sort, Text, Value};
use std::alloc::Global;

// The number of a text that begins with no plus sign.
fn parse_text(text: &str) -> Option<i64>
    requires some { 0 < length text.now }
    requires unsigned { slice_index text.now 0 ≢ 43 }
    ensures { result ≡ whole_of text.now }
{
    text.parse::<i64>().ok()
}

// The whole number that these bytes spell.
fn parse_whole(bytes: &[u8]) -> Option<i64>
    ensures { result ≡ whole_of bytes.now }
{
    if bytes.is_empty() {
        return None;
    }
    if bytes[0] == b'+' {
        return None;
    }
    match str::from_utf8(bytes) {
        Ok(text) => parse_text(text),
        Err(_) => None,
    }
}

// Whether these bytes are text.
#[tactic(auto, using(crate::proofs::Numbers::text_is, crate::proofs::Numbers::no_text))]
fn is_text(bytes: &[u8]) -> bool
    ensures { result ≡ is_utf8 bytes.now }
{
    match str::from_utf8(bytes) {
        Ok(_) => true,
        Err(_) => false,
    }
}

/// The value of a field of that row in a column of that sort.
pub(crate) fn read_cell(
    alloc: Global,
    sort: Sort,
    row: u64,
    column: u64,
    field: &[u8],
) -> Result<Value, LoadFault>
    ensures { Answers (value_of sort row column field.now) result }
{
    if field.is_empty() {
        return Ok(Value::Null);
    }
    match sort {
        Sort::Whole => match parse_whole(field) {
            Some(number) => Ok(Value::Int(number)),
            None => Err(LoadFault::Number(row, column)),
        },
        Sort::Word => {
            if !is_text(field) {
                return Err(LoadFault::NotText(row, column));
            }
            Ok(Value::Word(Text::copy_of(alloc, field)?))
        }
    }
}
