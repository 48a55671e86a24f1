ghost use Rattle.std.specs.Prelude.{◌≡◌, ◌≤◌, length, option_map, position};
ghost use Rattle.std.specs.Str.{bytes_eq};
ghost use Rattle.serde_json.specs.Find.{as_str};
ghost use Rattle.serde_json.specs.View.{view, items_view};
ghost use Rattle.dq_script.specs.Readings.{Answers, given};
ghost use Rattle.dq_script.specs.Parts.{is_string, string_of, new_name, only, two, two_items, three, some, some_items, whole_of, number_of, place_in, is_null};

use crate::misfit::{Misfit, here};
use crate::places::Places;
use crate::reads::Reads;
use dq_base::Text;
use serde_json::Value;
use std::alloc::Global;

// The largest whole number.
pub const MOST_WHOLE: u64 = 9223372036854775807;

// The largest number that names a place.
pub const MOST_PLACE: u64 = 4294967295;

// Whether a value is this string.
pub fn is_string(value: &Value, text: &[u8]) -> bool
    ensures { result ≡ is_string text.now (view value.now) }
{
    match value.as_str() {
        Some(string) => string.as_bytes() == text,
        None => false,
    }
}

// Whether a value is null.
pub fn is_null(value: &Value) -> bool
    ensures { result ≡ is_null (view value.now) }
{
    value.as_null().is_some()
}

// A copy of a string.
pub fn read_text(alloc: Global, value: &Value) -> Result<Text, Misfit>
    ensures { Answers (given (as_str (view value.now))) result }
{
    let Some(string) = value.as_str() else {
        return Err(here(alloc));
    };
    let text = Text::copy_of(alloc, string.as_bytes())?;
    Ok(text)
}

// A copy of a string that isn't empty.
pub fn read_string(alloc: Global, value: &Value) -> Result<Text, Misfit>
    ensures { Answers (given (string_of (view value.now))) result }
{
    let Some(string) = value.as_str() else {
        return Err(here(alloc));
    };
    if string.is_empty() {
        return Err(here(alloc));
    }
    let text = Text::copy_of(alloc, string.as_bytes())?;
    Ok(text)
}

// Reads a string.
#[derive(Drop)]
pub struct ReadsText;

impl Reads for ReadsText {
    type Out = Text;

    ghost reading = { λ s d. given (as_str d) };

    fn read(&self, alloc: Global, value: &Value) -> Result<Text, Misfit> {
        read_text(alloc, value)
    }
}

// Reads a string that isn't empty.
#[derive(Drop)]
pub struct ReadsString;

impl Reads for ReadsString {
    type Out = Text;

    ghost reading = { λ s d. given (string_of d) };

    fn read(&self, alloc: Global, value: &Value) -> Result<Text, Misfit> {
        read_string(alloc, value)
    }
}

// Reads a string that isn't empty, and none of these.
#[derive(Drop)]
pub struct ReadsNewName<'a> {
    pub earlier: &'a Places<Text>,
}

impl<'a> Reads for ReadsNewName<'a> {
    type Out = Text;

    ghost reading = { λ s d. given (new_name s.earlier.now d) };

    fn read(&self, alloc: Global, value: &Value) -> Result<Text, Misfit> {
        let name = read_string(alloc, value)?;
        if !self.earlier.is_new(&name) {
            return Err(here(alloc));
        }
        Ok(name)
    }
}

// The one item.
pub fn only(items: &[Value]) -> Option<&Value>
    ensures { option_map (λ v. view v.now) result ≡ only (items_view items.now) }
{
    if items.len() == 1 {
        Some(&items[0])
    } else {
        None
    }
}

// The two items.
fn two(items: &[Value]) -> Option<(&Value, &Value)>
    ensures { option_map (λ p. (view p.0.now, view p.1.now)) result ≡ two (items_view items.now) }
{
    if items.len() == 2 {
        Some((&items[0], &items[1]))
    } else {
        None
    }
}

// The items of an array of two.
pub fn two_items(value: &Value) -> Option<(&Value, &Value)>
    ensures { option_map (λ p. (view p.0.now, view p.1.now)) result ≡ two_items (view value.now) }
{
    two(value.as_array()?.as_slice())
}

// The three items.
pub fn three(items: &[Value]) -> Option<(&Value, &Value, &Value)>
    ensures { option_map (λ p. (view p.0.now, view p.1.now, view p.2.now)) result ≡ three (items_view items.now) }
{
    if items.len() == 3 {
        Some((&items[0], &items[1], &items[2]))
    } else {
        None
    }
}

// The items, where there are some.
fn some(items: &[Value]) -> Option<&[Value]>
    ensures { option_map (λ v. items_view v.now) result ≡ some (items_view items.now) }
{
    if items.is_empty() { None } else { Some(items) }
}

// The items of an array that isn't empty.
pub fn some_items(value: &Value) -> Option<&[Value]>
    ensures { option_map (λ v. items_view v.now) result ≡ some_items (view value.now) }
{
    some(value.as_array()?.as_slice())
}

// A whole number: none where a number isn't whole, or is outside of i64.
pub fn whole_of(value: &Value) -> Option<i64>
    ensures { result ≡ whole_of (view value.now) }
{
    value.as_i64()
}

// A whole number from the one to the other.
pub fn number_of(value: &Value, low: u64, high: u64) -> Option<u64>
    ensures { result ≡ number_of low high (view value.now) }
{
    let whole = whole_of(value)?;
    if whole < 0 {
        return None;
    }
    let number = whole as u64;
    if low <= number && number <= high {
        Some(number)
    } else {
        None
    }
}

// The place of a text among these.
fn place_of(texts: &[Text], text: &[u8]) -> Option<usize>
    ensures { result ≡ position (λ other. bytes_eq other text.now) texts.now }
{
    texts.iter().position(|other| other.bytes() == text)
}

// The place of the first of this name, and the number of names where there is none.
pub fn place_in(names: &[Text], name: &[u8]) -> usize
    ensures place { result ≡ place_in names.now name.now }
    ensures within { result ≤ length names.now }
{
    match place_of(names, name) {
        Some(place) => place,
        None => names.len(),
    }
}
