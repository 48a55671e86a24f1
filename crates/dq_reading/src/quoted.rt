ghost use Rattle.std.specs.List.{AllByRecursion};
ghost use Rattle.std.specs.Prelude.{◌≡◌};
ghost use Rattle.dq_base.specs.Rests.{Anything};
ghost use Rattle.dq_base.specs.Sizes.{IsByte};
ghost use Rattle.dq_base.specs.Spelling.{spelled_byte};
ghost use Rattle.dq_reading.specs.Reading.{IsEscaped, IsHex, IsPlain, Reads, escaped_text, hex_text, plain_text, quoted_text};

use crate::fault::TextFault;
use crate::left::Left;
use dq_base::{Text, is_plain};
use std::alloc::Global;

// Reads a hexadecimal digit.
fn read_hex(left: &mut Left) -> Result<u8, TextFault>
    ensures { Reads IsHex Anything hex_text left.old left.new result }
{
    match left.take_byte() {
        Some(byte) => match byte {
            b'0'..=b'9' => Ok(byte - 48),
            b'a'..=b'f' => Ok(byte - 87),
            _ => Err(TextFault::NotInGrammar),
        },
        None => Err(TextFault::NotInGrammar),
    }
}

// Reads a byte that doesn't stand for itself, behind its backslash.
fn read_escaped(left: &mut Left) -> Result<u8, TextFault>
    ensures { Reads IsEscaped Anything escaped_text left.old left.new result }
{
    let high = read_hex(left)?;
    let low = read_hex(left)?;
    let byte = high * 16 + low;
    if is_plain(byte) {
        return Err(TextFault::NotInGrammar);
    }
    Ok(byte)
}

// Reads a byte that stands for itself.
fn read_plain(left: &mut Left) -> Result<u8, TextFault>
    ensures { Reads IsPlain Anything plain_text left.old left.new result }
{
    match left.take_byte() {
        Some(byte) => {
            if is_plain(byte) {
                Ok(byte)
            } else {
                Err(TextFault::NotInGrammar)
            }
        }
        None => Err(TextFault::NotInGrammar),
    }
}

// Reads a byte of a spelled text.
fn read_spelled_byte(left: &mut Left) -> Result<u8, TextFault>
    ensures { Reads IsByte Anything spelled_byte left.old left.new result }
{
    if left.skip(b"\\") {
        return read_escaped(left);
    }
    read_plain(left)
}

/// Reads a spelled text, behind its first quote: `NotInGrammar` exactly where no text's spelling goes on there. The cost is that of the
/// spelling.
pub fn read_quoted(alloc: Global, left: &mut Left) -> Result<Text, TextFault>
    ensures { Reads (AllByRecursion IsByte) Anything quoted_text left.old left.new result }
{
    let mut text = Text::new(alloc);
    while !left.skip(b"\"") {
        let byte = read_spelled_byte(left)?;
        text.push(byte)?;
    }
    Ok(text)
}
