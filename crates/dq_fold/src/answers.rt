ghost use Rattle.std.specs.Prelude.{◌≡◌, ◌^◌, ◌≤◌, IfOk, length};
ghost use Rattle.dq_base.specs.Answers.{answer};

use crate::fold::Fold;
use dq_base::{Canon, Memory, Table, Values};
use std::alloc::Global;

/// The answer of a query over rows: each is added to a fold, which is then finished.
pub fn answer_of(alloc: Global, key: &Canon, rows: &[Values]) -> Result<Table, Memory>
    requires { length rows.now ≤ 2 ^ 23 }
    ensures { IfOk result (λ table. table ≡ answer key.now rows.now) }
{
    let mut fold = Fold::new(alloc, key)?;
    for row in rows {
        fold.add(row.as_slice())?;
    }
    fold.finish()
}
