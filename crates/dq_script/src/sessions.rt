ghost use Rattle.std.specs.Prelude.{◌≡◌, IfOk, codes};
ghost use Rattle.serde_json.specs.View.{view};
ghost use Rattle.dq_script.specs.Readings.{Answers, mapped};
ghost use Rattle.dq_script.specs.Parts.{place_in};
ghost use Rattle.dq_script.specs.Arrays.{array_of};
ghost use Rattle.dq_script.specs.Filters.{filter_of};
ghost use Rattle.dq_script.specs.Objects.{wanted};
ghost use Rattle.dq_script.specs.Sessions.{new_source, filtered_with, filters_over, session_of, with_session, next_session, sessions_of, sessions_in};

use crate::arrays::{ArrayOf, Takes, take_array};
use crate::faults::ReadsWhole;
use crate::filters::ReadsFilter;
use crate::form::Form;
use crate::known::{Known, columns_at, number_of_source};
use crate::misfit::{Misfit, here};
use crate::names::Names;
use crate::objects::{is_object, refuse_strangers};
use crate::parts::read_text;
use crate::places::Places;
use crate::reads::{Reads, read_optional, read_wanted};
use dq_base::{List, Memory, Predicates, Text};
use serde_json::Value;
use std::alloc::Global;

// A session: its lane, and the name, the number and the filters of its source.
#[derive(Drop)]
pub struct Filtered {
    pub lane: u64,
    pub name: Text,
    pub source: u32,
    pub filters: Predicates,
}

// The sessions that were read so far, and the source's name and the lane of each.
#[derive(Drop)]
pub struct Sessions {
    pub keys: Places<(Text, u64)>,
    pub sessions: List<Filtered>,
}

// Reads the name of a source for which no earlier session of this lane is told.
#[derive(Drop)]
struct ReadsNewSource<'a> {
    keys: &'a Places<(Text, u64)>,
    lane: u64,
}

impl<'a> Reads for ReadsNewSource<'a> {
    type Out = Text;

    ghost reading = { λ s. new_source s.keys.now s.lane };

    fn read(&self, alloc: Global, value: &Value) -> Result<Text, Misfit> {
        let key = (read_text(alloc, value)?, self.lane);
        if !self.keys.is_new(&key) {
            return Err(here(alloc));
        }
        Ok(key.0)
    }
}

// The filters of a session over columns of these names, and what was read before them.
fn read_filtered(
    alloc: Global,
    names: Names,
    value: &Value,
    lane: u64,
    name: Text,
    source: u32,
) -> Result<Filtered, Misfit>
    ensures { Answers (mapped (filtered_with lane name source) (wanted (codes "filters") (array_of (filter_of names.entry.names.now)) (view value.now))) result }
{
    let each_filter = ArrayOf {
        item: ReadsFilter { names },
    };
    let filters = read_wanted(&each_filter, alloc, value, "filters")?;
    Ok(Filtered {
        lane,
        name,
        source,
        filters,
    })
}

// The filters of a session, and what was read before them.
fn read_filters(
    alloc: Global,
    known: Known,
    value: &Value,
    lane: u64,
    name: Text,
) -> Result<Filtered, Misfit>
    ensures { Answers (filters_over known.entry.extracts.now (view value.now) lane name (place_in known.entry.extracts.now.names name)) result }
{
    let source = number_of_source(known, name.bytes());
    let names = columns_at(known, source);
    read_filtered(alloc, names, value, lane, name, source)
}

// A session, of a lane and a source that no earlier one has.
fn read_session(
    alloc: Global,
    known: Known,
    keys: &Places<(Text, u64)>,
    value: &Value,
) -> Result<Filtered, Misfit>
    ensures { Answers (session_of known.entry.extracts.now keys.now (view value.now)) result }
{
    if !is_object(value) {
        return Err(here(alloc));
    }
    let lane = read_wanted(&ReadsWhole { low: 1 }, alloc, value, "lane")?;
    let name = read_wanted(&ReadsNewSource { keys, lane }, alloc, value, "source")?;
    let session = read_filters(alloc, known, value, lane, name)?;
    refuse_strangers(alloc, value, &["lane", "source", "filters"])?;
    Ok(session)
}

// These sessions, and one more at the end.
fn with_session(alloc: Global, all: Sessions, session: Filtered) -> Result<Sessions, Memory>
    ensures { IfOk result (λ more. more ≡ with_session all session) }
{
    let Sessions { keys, mut sessions } = all;
    let key = (Text::copy_of(alloc, session.name.bytes())?, session.lane);
    let copy = (Text::copy_of(alloc, session.name.bytes())?, session.lane);
    let keys = keys.with(key, copy)?;
    sessions.push(session)?;
    Ok(Sessions { keys, sessions })
}

// Takes sessions in order.
#[derive(Drop)]
struct TakesSessions<'a> {
    known: Known<'a>,
}

impl<'a> Takes for TakesSessions<'a> {
    type State = Sessions;

    ghost next = { λ s. next_session s.known.extracts.now };

    fn take(&self, alloc: Global, all: Sessions, value: &Value) -> Result<Sessions, Misfit> {
        let session = read_session(alloc, self.known, &all.keys, value)?;
        let more = with_session(alloc, all, session)?;
        Ok(more)
    }
}

// Reads an array of sessions.
#[derive(Drop)]
struct ReadsSessions<'a> {
    known: Known<'a>,
}

impl<'a> Reads for ReadsSessions<'a> {
    type Out = List<Filtered>;

    ghost reading = { λ s. sessions_of s.known.extracts.now };

    fn read(&self, alloc: Global, value: &Value) -> Result<List<Filtered>, Misfit> {
        let none = Sessions {
            keys: Places::new(alloc),
            sessions: List::new(alloc),
        };
        let all = take_array(&TakesSessions { known: self.known }, alloc, none, value)?;
        Ok(all.sessions)
    }
}

// The sessions, which only the second form knows.
pub fn read_sessions(
    alloc: Global,
    form: Form,
    known: Known,
    script: &Value,
) -> Result<List<Filtered>, Misfit>
    ensures { Answers (sessions_in form known.entry.extracts.now (view script.now)) result }
{
    match form {
        Form::First => Ok(List::new(alloc)),
        Form::Second => read_optional(
            &ReadsSessions { known },
            alloc,
            script,
            "sessions",
            List::new(alloc),
        ),
    }
}
