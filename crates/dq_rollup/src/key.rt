ghost use Rattle.std.specs.List.{list_all, list_any};
ghost use Rattle.std.specs.Prelude.{◌≡◌, IfOk, MatchOption, false, true};
ghost use Rattle.dq_base.specs.Covering.{made_of};
ghost use Rattle.dq_rollup.specs.Keys as keys;
ghost use Rattle.dq_rollup.specs.Keys.{IsMade};
ghost use Rattle.dq_rollup.specs.Pairs.{Paired};

use crate::reading::value_at;
use dq_base::{Cells, Dim, List, Memory, Value, Values};
use std::alloc::Global;

/// How a value of a key is made of a held row: from the cell at a place, which counts from 0, in bands of the dimension.
#[derive(Drop)]
pub struct Made {
    pub place: u64,
    pub dim: Dim,
}

/// Whether the bands of the one are made of whole bands of the other.
fn is_made_of(d: &Dim, e: &Dim) -> bool
    ensures { result ≡ made_of d.now e.now }
{
    d.column() == e.column() && d.width() % e.width() == 0
}

/// How the values of a dimension are made of those of one of others; none where none of them makes it.
fn source_in(dims: &[Dim], d: &Dim) -> Option<Made>
    ensures { MatchOption result (list_any (made_of d.now) dims.now ≡ false) (λ m. IsMade dims.now d.now m) }
{
    for (place, e) in dims.iter().enumerate() {
        if is_made_of(d, e) {
            let place = place as u64;
            match Dim::new(d.column(), d.width() / e.width()) {
                Some(dim) => return Some(Made { place, dim }),
                None => unreachable!(),
            }
        }
    }
    None
}

/// How keys of the second dimensions are made of keys of the first. The cost is the product of their numbers, which are small.
pub fn plan_keys(alloc: Global, held: &[Dim], asked: &[Dim]) -> Result<List<Made>, Memory>
    requires { list_all (λ d. list_any (made_of d) held.now) asked.now ≡ true }
    ensures { IfOk result (λ plan. Paired (IsMade held.now) asked.now plan) }
{
    let mut plan = List::new(alloc);
    for d in asked {
        match source_in(held, d) {
            Some(m) => plan.push(m)?,
            None => unreachable!(),
        }
    }
    Ok(plan)
}

fn made_value(alloc: Global, row: &Cells, m: &Made) -> Result<Value, Memory>
    ensures { IfOk result (λ v. v ≡ keys.made_value row.now m.now) }
{
    match value_at(alloc, row, m.place)? {
        Value::Null => Ok(Value::Null),
        Value::Int(n) => Ok(Value::Int(m.dim.band(n))),
        Value::Word(text) => Ok(Value::Word(text)),
    }
}

/// The key that is made of a held row.
pub fn make_key(alloc: Global, plan: &[Made], row: &Cells) -> Result<Values, Memory>
    ensures { IfOk result (λ key. key ≡ keys.made_key plan.now row.now) }
{
    let mut key = List::with_capacity(alloc, plan.len() as u64)?;
    for m in plan {
        key.push(made_value(alloc, row, m)?)?;
    }
    Ok(key)
}
