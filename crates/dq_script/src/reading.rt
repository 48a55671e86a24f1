ghost use Rattle.std.specs.Prelude.{Some, IfOk};
ghost use Rattle.serde_json.specs.View.{view};
ghost use Rattle.dq_base.specs.Scripts.{IsScript};
ghost use Rattle.dq_script.specs.Reasons.{stray_name, reason_against};
ghost use Rattle.dq_script.specs.Scripts.{script_in, script_of, AnswersScript, AnswersReason};

use crate::draft::{Draft, read_draft};
use crate::fault::ScriptFault;
use crate::limits::over_limit;
use crate::making::make_script;
use crate::misfit::Misfit;
use crate::strays::{stray_extract, stray_lane};
use dq_base::{Memory, Script};
use serde_json::Value;
use std::alloc::Global;

// The first name that is unknown.
fn stray_name(alloc: Global, draft: &Draft) -> Option<ScriptFault>
    ensures { AnswersReason (stray_name draft.now) result }
{
    let extracts = draft.extracts.names.as_slice().len() as u64;
    match stray_extract(alloc, extracts, &draft.plan) {
        Ok(Some(path)) => return Some(ScriptFault::UnknownExtract(path)),
        Ok(None) => {}
        Err(Memory) => return Some(ScriptFault::Memory),
    }
    match stray_lane(alloc, draft.plan.lanes.lanes.len(), &draft.plan) {
        Ok(Some(path)) => Some(ScriptFault::UnknownLane(path)),
        Ok(None) => None,
        Err(Memory) => Some(ScriptFault::Memory),
    }
}

// The first reason against a draft.
fn reason_against(alloc: Global, draft: &Draft) -> Option<ScriptFault>
    ensures { AnswersReason (reason_against draft.now) result }
{
    if let Some((limit, number)) = over_limit(draft) {
        return Some(ScriptFault::Limit(limit, number));
    }
    stray_name(alloc, draft)
}

// The script of a value.
fn read_value(alloc: Global, value: &Value) -> Result<Script, ScriptFault>
    ensures script { AnswersScript (script_in (Some (view value.now))) result }
    ensures fits { IfOk result IsScript }
{
    let draft = match read_draft(alloc, value) {
        Ok(draft) => draft,
        Err(Misfit::At(path)) => return Err(ScriptFault::Shape(path)),
        Err(Misfit::Memory) => return Err(ScriptFault::Memory),
    };
    match reason_against(alloc, &draft) {
        Some(fault) => Err(fault),
        None => match make_script(alloc, draft) {
            Ok(script) => Ok(script),
            Err(Memory) => Err(ScriptFault::Memory),
        },
    }
}

/// The script that these bytes are, or the first fault in this order.
///
/// `NotJson` comes exactly where the bytes are no JSON. `Shape` comes exactly where they are JSON of another shape, with
/// the path of the first fault of a walk in the order of the format's members and items. `Limit` comes exactly where a
/// limit is passed, with the number that passes it. `UnknownExtract` comes exactly where a publication or a session names
/// no extract, and `UnknownLane` where a turn, a fault or a session has no lane. `Memory` may come at any bytes. An `Err`
/// leaves nothing.
///
/// The time is that of reading the JSON, and after it that of n log n comparisons of names and numbers for n bytes.
pub fn read(alloc: Global, bytes: &[u8]) -> Result<Script, ScriptFault>
    ensures script { AnswersScript (script_of bytes.now) result }
    ensures fits { IfOk result IsScript }
{
    match Value::from_slice(alloc, bytes) {
        Ok(value) => read_value(alloc, &value),
        Err(error) => {
            if error.is_memory() {
                Err(ScriptFault::Memory)
            } else {
                Err(ScriptFault::NotJson)
            }
        }
    }
}
