ghost use Rattle.serde_json.specs.Data.{Data};
ghost use Rattle.serde_json.specs.View.{view};
ghost use Rattle.dq_script.specs.Objects.{wanted, optional};
ghost use Rattle.dq_script.specs.Readings.{Reading, Answers, within};

use crate::misfit::{Misfit, here, within};
use serde_json::Value;
use std::alloc::Global;

// What reads a value.
pub trait Reads {
    type Out: Drop;

    // What a value reads as.
    ghost reading: { Self → Data → Reading Self.Out };

    fn read(&self, alloc: Global, value: &Value) -> Result<Self::Out, Misfit>
        ensures { Answers (reading self.now (view value.now)) result };
}

// What stands at this step of a path.
pub fn read_within<R: Reads>(
    reader: &R,
    alloc: Global,
    step: &[u8],
    value: &Value,
) -> Result<R::Out, Misfit>
    ensures { Answers (within step.now (R.reading reader.now (view value.now))) result }
{
    match reader.read(alloc, value) {
        Ok(out) => Ok(out),
        Err(misfit) => Err(within(alloc, step, misfit)),
    }
}

// A member that is wanted.
pub fn read_wanted<R: Reads>(
    reader: &R,
    alloc: Global,
    object: &Value,
    name: &str,
) -> Result<R::Out, Misfit>
    ensures { Answers (wanted name.now (R.reading reader.now) (view object.now)) result }
{
    match object.get(name) {
        Some(value) => read_within(reader, alloc, name.as_bytes(), value),
        None => Err(within(alloc, name.as_bytes(), here(alloc))),
    }
}

// A member that may be missing, and then means the other.
pub fn read_optional<R: Reads>(
    reader: &R,
    alloc: Global,
    object: &Value,
    name: &str,
    other: R::Out,
) -> Result<R::Out, Misfit>
    ensures { Answers (optional other name.now (R.reading reader.now) (view object.now)) result }
{
    match object.get(name) {
        Some(value) => read_within(reader, alloc, name.as_bytes(), value),
        None => Ok(other),
    }
}
