ghost use Rattle.std.specs.Prelude.{◌≡◌, ◌++◌, map, not, option_map, string_bytes, OnOk, IfOk};
ghost use Rattle.std.specs.BTreeMap.{keys};
ghost use Rattle.std.specs.List.{list_any, find, flat_map};
ghost use Rattle.std.specs.Str.{bytes_eq};
ghost use Rattle.serde_json.specs.View.{view};
ghost use Rattle.dq_script.specs.Objects.{has, is_object, escaped, stranger_of, no_strangers};
ghost use Rattle.serde_json.specs.Find.{as_object};
ghost use Rattle.dq_script.specs.Readings.{Answers};

use crate::misfit::{Misfit, here, within};
use dq_base::{Memory, Text};
use serde_json::{Map, Value};
use std::alloc::Global;

// Whether a value is an object.
pub fn is_object(value: &Value) -> bool
    ensures { result ≡ is_object (view value.now) }
{
    value.as_object().is_some()
}

// Whether a value is an object with a member of this name.
pub fn has(value: &Value, name: &str) -> bool
    ensures { result ≡ has name.now (view value.now) }
{
    value.get(name).is_some()
}

// Whether a name is one of these.
fn is_among(names: &[&str], name: &str) -> bool
    ensures { result ≡ list_any (λ other. bytes_eq other.now name.now) names.now }
{
    names.iter().any(|other| *other == name)
}

// The first member, in byte order, that has none of these names.
fn stranger_in<'a>(members: &'a Map<String, Value>, names: &[&str]) -> Option<&'a String>
    ensures { option_map (λ s. s.now) result ≡ find (λ key. not (list_any (λ other. bytes_eq other.now (string_bytes key)) names.now)) (keys members.now) }
{
    members.keys().find(|key| !is_among(names, key.as_str()))
}

// The name of the first member, in byte order, that has none of these names.
fn stranger_of<'a>(value: &'a Value, names: &[&str]) -> Option<&'a str>
    ensures { option_map (λ s. s.now) result ≡ stranger_of (map (λ n. n.now) names.now) (as_object (view value.now)) }
{
    let Some(members) = value.as_object() else {
        return None;
    };
    match stranger_in(members, names) {
        Some(name) => Some(name.as_str()),
        None => None,
    }
}

// Puts a byte of a name behind a path, as a JSON Pointer spells it (RFC 6901).
fn put_escaped(path: &mut Text, byte: u8) -> Result<(), Memory>
    ensures { OnOk result (path.new ≡ path.old ++ escaped byte) }
{
    match byte {
        b'~' => path.append(b"~0"),
        b'/' => path.append(b"~1"),
        _ => path.push(byte),
    }
}

// A name as a JSON Pointer spells it.
fn escaped_name(alloc: Global, name: &[u8]) -> Result<Text, Memory>
    ensures { IfOk result (λ step. step ≡ flat_map escaped name.now) }
{
    let mut step = Text::new(alloc);
    for byte in name {
        put_escaped(&mut step, *byte)?;
    }
    Ok(step)
}

// That an object has no members but of these names.
pub fn refuse_strangers(alloc: Global, value: &Value, names: &[&str]) -> Result<(), Misfit>
    ensures { Answers (no_strangers (map (λ n. n.now) names.now) (view value.now)) result }
{
    let Some(name) = stranger_of(value, names) else {
        return Ok(());
    };
    let step = escaped_name(alloc, name.as_bytes())?;
    Err(within(alloc, step.bytes(), here(alloc)))
}
