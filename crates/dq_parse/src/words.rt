ghost use Rattle.dq_base.specs.Rests.{Anything, Stops};
ghost use Rattle.dq_base.specs.Sizes.{Fits};
ghost use Rattle.dq_parse.specs.Reading.{Any, labelled, marked};
ghost use Rattle.dq_reading.specs.Reading.{Reads};
ghost use Rattle.dq_reading.specs.Sizes.{IsNumber};
ghost use Rattle.dq_report.specs.Report.{cause_text, counted_line, fresh_word, invalid_word, kept_word, ran_word};

use dq_base::{Invalid, Kept};
use dq_journal::Cause;
use dq_reading::{Left, TextFault, read_u32, read_u64};

/// Reads a number of 32 bits behind a word.
pub(crate) fn read_labelled_u32(left: &mut Left, word: &[u8]) -> Result<u32, TextFault>
    ensures { Reads IsNumber Stops (labelled word.now) left.old left.new result }
{
    if !left.skip(word) {
        return Err(TextFault::NotInGrammar);
    }
    read_u32(left)
}

/// Reads a number of 64 bits behind a word.
pub(crate) fn read_labelled(left: &mut Left, word: &[u8]) -> Result<u64, TextFault>
    ensures { Reads Fits Stops (labelled word.now) left.old left.new result }
{
    if !left.skip(word) {
        return Err(TextFault::NotInGrammar);
    }
    read_u64(left)
}

/// Reads this word and this number.
pub(crate) fn read_marked(left: &mut Left, word: &[u8], number: u64) -> Result<(), TextFault>
    ensures { Reads Any Stops (marked word.now number) left.old left.new result }
{
    let found = read_labelled(left, word)?;
    if found != number {
        return Err(TextFault::NotInGrammar);
    }
    Ok(())
}

/// Reads a number behind a word, with the line's end.
pub(crate) fn read_line(left: &mut Left, word: &[u8]) -> Result<u64, TextFault>
    ensures { Reads Fits Anything (counted_line word.now) left.old left.new result }
{
    let number = read_labelled(left, word)?;
    if !left.skip(b"\n") {
        return Err(TextFault::NotInGrammar);
    }
    Ok(number)
}

/// Reads what became of an answer that was offered to a cache.
pub(crate) fn read_kept(left: &mut Left) -> Result<Kept, TextFault>
    ensures { Reads Any Anything kept_word left.old left.new result }
{
    if left.skip(b"kept") {
        return Ok(Kept::Kept);
    }
    if left.skip(b"topped") {
        return Ok(Kept::Topped);
    }
    if left.skip(b"large") {
        return Ok(Kept::TooLarge);
    }
    if left.skip(b"stale") {
        return Ok(Kept::Stale);
    }
    if left.skip(b"memory") {
        return Ok(Kept::Memory);
    }
    Err(TextFault::NotInGrammar)
}

/// Reads why a flight fell.
pub(crate) fn read_cause(left: &mut Left) -> Result<Cause, TextFault>
    ensures { Reads Any Anything cause_text left.old left.new result }
{
    if left.skip(b" backend") {
        return Ok(Cause::BackEnd);
    }
    if left.skip(b" memory") {
        return Ok(Cause::Memory);
    }
    Err(TextFault::NotInGrammar)
}

/// Reads whether a statement was run.
pub(crate) fn read_ran(left: &mut Left) -> Result<bool, TextFault>
    ensures { Reads Any Anything ran_word left.old left.new result }
{
    if left.skip(b" ran") {
        return Ok(true);
    }
    if left.skip(b" unran") {
        return Ok(false);
    }
    Err(TextFault::NotInGrammar)
}

/// Reads whether a link is fresh.
pub(crate) fn read_fresh(left: &mut Left) -> Result<bool, TextFault>
    ensures { Reads Any Anything fresh_word left.old left.new result }
{
    if left.skip(b" fresh") {
        return Ok(true);
    }
    if left.skip(b" idle") {
        return Ok(false);
    }
    Err(TextFault::NotInGrammar)
}

/// Reads why a query isn't valid.
pub(crate) fn read_invalid(left: &mut Left) -> Result<Invalid, TextFault>
    ensures { Reads Any Anything invalid_word left.old left.new result }
{
    if left.skip(b"source") {
        return Ok(Invalid::Source);
    }
    if left.skip(b"column") {
        return Ok(Invalid::Column);
    }
    if left.skip(b"repeated") {
        return Ok(Invalid::RepeatedDim);
    }
    if left.skip(b"sort") {
        return Ok(Invalid::WrongSort);
    }
    if left.skip(b"shown") {
        return Ok(Invalid::NothingShown);
    }
    if left.skip(b"order") {
        return Ok(Invalid::OrderKey);
    }
    if left.skip(b"long") {
        return Ok(Invalid::TooLong);
    }
    Err(TextFault::NotInGrammar)
}
