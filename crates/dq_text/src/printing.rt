ghost use Rattle.std.specs.Fmt.{decimal};
ghost use Rattle.std.specs.Prelude.{◌≡◌, ◌++◌, ◌∷◌, [], OnOk, IfOk, codes};
ghost use Rattle.dq_text.specs.Statements.{spelling, body, shown_text};

use crate::printing_clauses::{put_dims, put_measures, put_order, put_top};
use crate::printing_filters::{put_filters, put_said_filters};
use crate::statement::Statement;
use dq_base::{Bytes, Canon, Dim, Measure, Memory, OrderKey, Text, put_labelled};
use std::alloc::Global;

fn put_shown(
    text: &mut Text,
    dims: &[Dim],
    measures: &[Measure],
    order: &[OrderKey],
    top: Option<u32>,
) -> Result<(), Memory>
    ensures { OnOk result (text.new ≡ text.old ++ shown_text dims.now measures.now order.now top) }
{
    put_dims(text, dims)?;
    put_measures(text, measures)?;
    put_order(text, order)?;
    put_top(text, top)
}

fn put_head(text: &mut Text, source: u32, stamp: u64) -> Result<(), Memory>
    ensures { OnOk result (text.new ≡ text.old ++ (codes "from " ++ (decimal source ++ (64 ∷ [] ++ decimal stamp)))) }
{
    put_labelled(text, b"from ", u64::from(source))?;
    put_labelled(text, b"@", stamp)
}

/// The text of a statement. The cost is that of the text.
pub fn print(alloc: Global, s: &Statement) -> Result<Bytes, Memory>
    ensures { IfOk result (λ text. text ≡ spelling s.now) }
{
    let mut text = Text::new(alloc);
    put_head(&mut text, s.source, s.stamp)?;
    put_said_filters(&mut text, s.filters.as_slice())?;
    put_shown(
        &mut text,
        s.dims.as_slice(),
        s.measures.as_slice(),
        s.order.as_slice(),
        s.top,
    )?;
    Ok(text)
}

/// The text of a query: that of a statement without its stamp, and with every list spelled. The cost is that of the text.
///
/// Equal texts are of equal queries: `body_tells_all`.
pub fn body(alloc: Global, key: &Canon) -> Result<Bytes, Memory>
    ensures { IfOk result (λ text. text ≡ body key.now) }
{
    let query = key.query();
    let mut text = Text::new(alloc);
    put_labelled(&mut text, b"from ", u64::from(query.source))?;
    put_filters(&mut text, query.filters.as_slice())?;
    put_shown(
        &mut text,
        query.dims.as_slice(),
        query.measures.as_slice(),
        query.order.as_slice(),
        query.top,
    )?;
    Ok(text)
}
