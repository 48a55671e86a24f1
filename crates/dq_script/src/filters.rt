ghost use Rattle.std.specs.Prelude.{◌≡◌};
ghost use Rattle.serde_json.specs.View.{view};
ghost use Rattle.dq_script.specs.Readings.{Answers};
ghost use Rattle.dq_script.specs.Filters.{value_of, bound_of, between_of, has_test, test_of, filter_of};

use crate::arrays::ArrayOf;
use crate::misfit::{Misfit, here};
use crate::names::{Names, ReadsColumn};
use crate::objects::{has, is_object, refuse_strangers};
use crate::parts::{is_null, read_text, two_items, whole_of};
use crate::reads::{Reads, read_wanted, read_within};
use dq_base::{Predicate, Test};
use serde_json::Value;
use std::alloc::Global;

// Reads null, a whole number or a string.
#[derive(Drop)]
struct ReadsValue;

impl Reads for ReadsValue {
    type Out = dq_base::Value;

    ghost reading = { λ s. value_of };

    fn read(&self, alloc: Global, value: &Value) -> Result<dq_base::Value, Misfit> {
        if is_null(value) {
            return Ok(dq_base::Value::Null);
        }
        if let Some(whole) = whole_of(value) {
            return Ok(dq_base::Value::Int(whole));
        }
        let text = read_text(alloc, value)?;
        Ok(dq_base::Value::Word(text))
    }
}

// Reads null or a whole number.
#[derive(Drop)]
struct ReadsBound;

impl Reads for ReadsBound {
    type Out = Option<i64>;

    ghost reading = { λ s. bound_of };

    fn read(&self, alloc: Global, value: &Value) -> Result<Option<i64>, Misfit> {
        if is_null(value) {
            return Ok(None);
        }
        match whole_of(value) {
            Some(whole) => Ok(Some(whole)),
            None => Err(here(alloc)),
        }
    }
}

// Reads an array of the two bounds.
#[derive(Drop)]
struct ReadsBetween;

impl Reads for ReadsBetween {
    type Out = Test;

    ghost reading = { λ s. between_of };

    fn read(&self, alloc: Global, value: &Value) -> Result<Test, Misfit> {
        let Some((low, high)) = two_items(value) else {
            return Err(here(alloc));
        };
        let low = read_within(&ReadsBound, alloc, b"0", low)?;
        let high = read_within(&ReadsBound, alloc, b"1", high)?;
        Ok(Test::Between(low, high))
    }
}

// Whether exactly one of the three tests is there.
fn has_test(value: &Value) -> bool
    ensures { result ≡ has_test (view value.now) }
{
    let among = has(value, "among");
    let except = has(value, "except");
    let between = has(value, "between");
    if among {
        !(except || between)
    } else if except {
        !between
    } else {
        between
    }
}

// The test that is there.
fn read_test(alloc: Global, value: &Value) -> Result<Test, Misfit>
    ensures { Answers (test_of (view value.now)) result }
{
    let list = ArrayOf { item: ReadsValue };
    if has(value, "among") {
        let values = read_wanted(&list, alloc, value, "among")?;
        return Ok(Test::Among(values));
    }
    if has(value, "except") {
        let values = read_wanted(&list, alloc, value, "except")?;
        return Ok(Test::Except(values));
    }
    read_wanted(&ReadsBetween, alloc, value, "between")
}

// Reads a filter over columns of these names.
#[derive(Drop)]
pub struct ReadsFilter<'a> {
    pub names: Names<'a>,
}

impl<'a> Reads for ReadsFilter<'a> {
    type Out = Predicate;

    ghost reading = { λ s. filter_of s.names.names.now };

    fn read(&self, alloc: Global, value: &Value) -> Result<Predicate, Misfit> {
        if !has_test(value) || !is_object(value) {
            return Err(here(alloc));
        }
        let column = read_wanted(&ReadsColumn { names: self.names }, alloc, value, "column")?;
        let test = read_test(alloc, value)?;
        refuse_strangers(alloc, value, &["column", "among", "except", "between"])?;
        Ok(Predicate { column, test })
    }
}
