ghost use Rattle.dq_text.specs.Parsing.{ParsedAs};

use crate::fault::TextFault;
use crate::left::Left;
use crate::reading_clauses::{read_dims, read_filters, read_measures, read_order, read_top};
use crate::reading_numbers::{read_u32, read_u64};
use crate::statement::Statement;
use std::alloc::Global;

/// The statement that has this text, or `NotInGrammar` exactly where none has.
///
/// The text is read once from its front. The cost is that of the text.
pub fn parse(alloc: Global, text: &[u8]) -> Result<Statement, TextFault>
    ensures { ParsedAs text.now result }
{
    let mut left = Left::new(text);
    if !left.skip(b"from ") {
        return Err(TextFault::NotInGrammar);
    }
    let source = read_u32(&mut left)?;
    if !left.skip(b"@") {
        return Err(TextFault::NotInGrammar);
    }
    let stamp = read_u64(&mut left)?;
    let filters = read_filters(alloc, &mut left)?;
    let dims = read_dims(alloc, &mut left)?;
    let measures = read_measures(alloc, &mut left)?;
    let order = read_order(alloc, &mut left)?;
    let top = read_top(&mut left)?;
    if !left.is_empty() {
        return Err(TextFault::NotInGrammar);
    }
    Ok(Statement {
        source,
        stamp,
        filters,
        dims,
        measures,
        order,
        top,
    })
}
