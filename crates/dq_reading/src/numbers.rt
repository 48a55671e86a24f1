ghost use Rattle.std.specs.Fmt.{decimal, signed_decimal};
ghost use Rattle.std.specs.Prelude.{length, ◌≡◌, ◌≢◌, ◌≤◌, ◌<◌, slice_index};
ghost use Rattle.std.specs.Str.Parse.{AllDigits};
ghost use Rattle.dq_base.specs.Rests.{Stops};
ghost use Rattle.dq_base.specs.Sizes.{Fits};
ghost use Rattle.dq_reading.specs.Reading.{AtMost, IsNegative, Reads, Writes, size_text};
ghost use Rattle.dq_reading.specs.Sizes.{IsNumber, IsWide};

use crate::fault::TextFault;
use crate::left::Left;

// The number that a text of digits writes, where no needless zero leads them.
fn parse_text(text: &str) -> Option<u128>
    requires digits { AllDigits 10 text.now }
    requires plain { slice_index text.now 0 ≡ 48 → length text.now ≡ 1 }
    ensures { Writes text.now result }
{
    text.parse::<u128>().ok()
}

// The number that digits write as it is printed.
fn number_of(digits: &[u8]) -> Option<u128>
    requires { AllDigits 10 digits.now }
    ensures { Writes digits.now result }
{
    if digits.is_empty() {
        return None;
    }
    if digits[0] == b'0' {
        return if digits.len() == 1 { Some(0) } else { None };
    }
    match str::from_utf8(digits) {
        Ok(text) => parse_text(text),
        Err(_) => None,
    }
}

/// Reads a number that is at most the limit, with no needless zero before it: `NotInGrammar` exactly where none stands at the front
/// with no digit behind it. The cost is that of the digits.
pub fn read_number(left: &mut Left, limit: u128) -> Result<u128, TextFault>
    ensures { Reads (AtMost limit) Stops decimal left.old left.new result }
{
    let digits = left.take_digits();
    match number_of(digits) {
        Some(number) => {
            if number <= limit {
                Ok(number)
            } else {
                Err(TextFault::NotInGrammar)
            }
        }
        None => Err(TextFault::NotInGrammar),
    }
}

/// Reads a number of 32 bits, as `read_number`.
pub fn read_u32(left: &mut Left) -> Result<u32, TextFault>
    ensures { Reads IsNumber Stops decimal left.old left.new result }
{
    let number = read_number(left, u128::from(u32::MAX))?;
    Ok(number as u32)
}

/// Reads a number of 64 bits, as `read_number`.
pub fn read_u64(left: &mut Left) -> Result<u64, TextFault>
    ensures { Reads Fits Stops decimal left.old left.new result }
{
    let number = read_number(left, u128::from(u64::MAX))?;
    Ok(number as u64)
}

// Reads a number that is negative, behind its minus.
fn read_negative(left: &mut Left) -> Result<i128, TextFault>
    ensures { Reads IsNegative Stops size_text left.old left.new result }
{
    let size = read_number(left, 1 << 127)?;
    if size == 0 {
        return Err(TextFault::NotInGrammar);
    }
    Ok(-1 - (size - 1) as i128)
}

/// Reads a whole number of 128 bits, with a minus before it where it is negative: no zero has one. `NotInGrammar` as `read_number`.
pub fn read_wide(left: &mut Left) -> Result<i128, TextFault>
    ensures { Reads IsWide Stops signed_decimal left.old left.new result }
{
    if left.skip(b"-") {
        return read_negative(left);
    }
    let number = read_number(left, i128::MAX as u128)?;
    Ok(number as i128)
}
