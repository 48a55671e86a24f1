ghost use Rattle.std.specs.Prelude.{◌≡◌};
ghost use Rattle.serde_json.specs.View.{view};
ghost use Rattle.dq_script.specs.Columns.{known};
ghost use Rattle.dq_script.specs.Drafts.{capacity_of, usual_capacity, plan_of, draft_in, members_of, draft_of};
ghost use Rattle.dq_script.specs.Objects.{no_strangers};
ghost use Rattle.dq_script.specs.Readings.{Answers};

use crate::arrays::ArrayOf;
use crate::extracts::{Extracts, ReadsExtracts, extracts_fit, no_extracts};
use crate::faults::{Fault, ReadsFaults, ReadsWhole};
use crate::form::{Form, ReadsForm};
use crate::known::Known;
use crate::misfit::{Misfit, here};
use crate::objects::{is_object, refuse_strangers};
use crate::reads::{read_optional, read_wanted};
use crate::sessions::{Filtered, read_sessions};
use crate::step::{Lanes, ReadsLanes};
use dq_base::{List, Numbers64};
use serde_json::Value;
use std::alloc::Global;

// What a script says over its extracts.
#[derive(Drop)]
pub struct Plan {
    pub literal: u64,
    pub clever: u64,
    pub lanes: Lanes,
    pub schedule: Numbers64,
    pub faults: List<Fault>,
    pub sessions: List<Filtered>,
}

// A script, before its limits are tested.
#[derive(Drop)]
pub struct Draft {
    pub form: Form,
    pub extracts: Extracts,
    pub plan: Plan,
}

// How much a cache holds where nothing is said.
fn usual_capacity(form: Form) -> u64
    ensures { result ≡ usual_capacity form }
{
    match form {
        Form::First => 64,
        Form::Second => 1_048_576,
    }
}

// How much a cache holds.
fn read_capacity(alloc: Global, form: Form, script: &Value, name: &str) -> Result<u64, Misfit>
    ensures { Answers (capacity_of form name.now (view script.now)) result }
{
    read_optional(
        &ReadsWhole { low: 1 },
        alloc,
        script,
        name,
        usual_capacity(form),
    )
}

// What is said over extracts within their limits.
fn read_plan(alloc: Global, form: Form, known: Known, script: &Value) -> Result<Plan, Misfit>
    ensures { Answers (plan_of form known.entry.extracts.now (view script.now)) result }
{
    let each_turn = ArrayOf {
        item: ReadsWhole { low: 1 },
    };
    let literal = read_capacity(alloc, form, script, "literal")?;
    let clever = read_capacity(alloc, form, script, "clever")?;
    let lanes = read_wanted(&ReadsLanes { form, known }, alloc, script, "lanes")?;
    let schedule = read_optional(&each_turn, alloc, script, "schedule", List::new(alloc))?;
    let faults = read_optional(&ReadsFaults, alloc, script, "faults", List::new(alloc))?;
    let sessions = read_sessions(alloc, form, known, script)?;
    Ok(Plan {
        literal,
        clever,
        lanes,
        schedule,
        faults,
        sessions,
    })
}

// What is said over these extracts, or over none where a limit of theirs is passed: few names are compared.
fn read_known(
    alloc: Global,
    form: Form,
    extracts: &Extracts,
    script: &Value,
) -> Result<Plan, Misfit>
    ensures { Answers (plan_of form (known extracts.now) (view script.now)) result }
{
    if extracts_fit(extracts) {
        let fitting = read_plan(alloc, form, Known { extracts }, script);
        return fitting;
    }
    let none = no_extracts(alloc);
    let over_none = read_plan(alloc, form, Known { extracts: &none }, script);
    over_none
}

// The parts of a script behind its form.
fn read_parts(alloc: Global, form: Form, script: &Value) -> Result<Draft, Misfit>
    ensures { Answers (draft_in (view script.now) form) result }
{
    let extracts = read_wanted(&ReadsExtracts, alloc, script, "extracts")?;
    let plan = read_known(alloc, form, &extracts, script)?;
    Ok(Draft {
        form,
        extracts,
        plan,
    })
}

// That a script has no members but those of its form.
fn refuse_others(alloc: Global, form: Form, script: &Value) -> Result<(), Misfit>
    ensures { Answers (no_strangers (members_of form) (view script.now)) result }
{
    match form {
        Form::First => refuse_strangers(
            alloc,
            script,
            &[
                "form", "extracts", "literal", "clever", "lanes", "schedule", "faults",
            ],
        ),
        Form::Second => refuse_strangers(
            alloc,
            script,
            &[
                "form", "extracts", "literal", "clever", "lanes", "schedule", "faults", "sessions",
            ],
        ),
    }
}

// A script, before its limits are tested.
pub fn read_draft(alloc: Global, script: &Value) -> Result<Draft, Misfit>
    ensures { Answers (draft_of (view script.now)) result }
{
    if !is_object(script) {
        return Err(here(alloc));
    }
    let form = read_wanted(&ReadsForm, alloc, script, "form")?;
    let draft = read_parts(alloc, form, script)?;
    refuse_others(alloc, draft.form, script)?;
    Ok(draft)
}
