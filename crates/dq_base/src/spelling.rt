ghost use Rattle.std.specs.Fmt.{decimal, signed_decimal};
ghost use Rattle.std.specs.List.{flat_map};
ghost use Rattle.std.specs.Prelude.{◌≡◌, ◌++◌, OnOk, ◌<◌};
ghost use Rattle.dq_base.specs.Spelling as form;

use crate::list::Text;
use crate::memory::Memory;
use itoa::Buffer;

/// Puts a number behind the text.
pub fn put_number(text: &mut Text, number: u64) -> Result<(), Memory>
    ensures { OnOk result (text.new ≡ text.old ++ decimal number) }
{
    let mut buffer = Buffer::new();
    text.append(buffer.format(number).as_bytes())
}

/// Puts a number that may be negative behind the text.
pub fn put_signed(text: &mut Text, number: i128) -> Result<(), Memory>
    ensures { OnOk result (text.new ≡ text.old ++ signed_decimal number) }
{
    let mut buffer = Buffer::new();
    text.append(buffer.format(number).as_bytes())
}

/// Puts some words and then a number behind the text.
pub fn put_labelled(text: &mut Text, label: &[u8], number: u64) -> Result<(), Memory>
    ensures { OnOk result (text.new ≡ text.old ++ (label.now ++ decimal number)) }
{
    text.append(label)?;
    put_number(text, number)
}

/// Whether a byte stands for itself in a spelled text.
pub fn is_plain(byte: u8) -> bool
    ensures { result ≡ form.is_plain byte }
{
    32 <= byte && byte != b'"' && byte != b'\\' && byte != 127
}

fn hex_digit(number: u8) -> u8
    requires { number < 16 }
    ensures { result ≡ form.hex_digit number }
{
    if number < 10 {
        48 + number
    } else {
        87 + number
    }
}

fn put_spelled_byte(text: &mut Text, byte: u8) -> Result<(), Memory>
    ensures { OnOk result (text.new ≡ text.old ++ form.spelled_byte byte) }
{
    if is_plain(byte) {
        text.push(byte)
    } else {
        text.append(&[b'\\', hex_digit(byte / 16), hex_digit(byte % 16)])
    }
}

fn put_spelled_bytes(text: &mut Text, bytes: &[u8]) -> Result<(), Memory>
    ensures { OnOk result (text.new ≡ text.old ++ flat_map form.spelled_byte bytes.now) }
{
    for byte in bytes {
        put_spelled_byte(text, *byte)?;
    }
    Ok(())
}

/// Puts a text behind the text, spelled between double quotes.
pub fn put_spelled(text: &mut Text, bytes: &[u8]) -> Result<(), Memory>
    ensures { OnOk result (text.new ≡ text.old ++ form.spelled bytes.now) }
{
    text.push(b'"')?;
    put_spelled_bytes(text, bytes)?;
    text.push(b'"')
}
