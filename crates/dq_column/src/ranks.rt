ghost use Rattle.std.specs.Prelude.{◌≡◌, IfOk, OnOk, map};
ghost use Rattle.std.specs.String.{string_bytes};
ghost use Rattle.dq_base.specs.Sets.{ascending, set_of};
ghost use Rattle.dq_column.specs.Stored.{code_in, text_cmp};

use crate::arrivals::Arrivals;
use dq_base::{List, Memory, Numbers, Texts};
use std::alloc::Global;

/// The different texts of a column, ascending by their bytes, and for each text in the order of arrival its place among
/// them, from 1.
#[derive(Drop)]
pub(crate) struct Ranks {
    pub(crate) words: Texts,
    pub(crate) places: Numbers,
}

/// Copies of texts.
fn copies(alloc: Global, texts: &[String]) -> Result<Vec<String>, Memory>
    ensures { IfOk result (λ copies. map string_bytes copies.items ≡ map string_bytes texts.now) }
{
    let mut copies = Vec::with_capacity(alloc, texts.len())?;
    for text in texts {
        copies.push(String::from_str(alloc, text.as_str())?)?;
    }
    Ok(copies)
}

/// Sorts texts by their bytes.
fn sort(texts: &mut Vec<String>) -> Result<(), Memory>
    ensures { OnOk result (map string_bytes texts.new.items ≡ ascending text_cmp (map string_bytes texts.old.items)) }
{
    texts.sort()?;
    Ok(())
}

/// A 0 for each of these texts.
fn zeros(alloc: Global, texts: &[String]) -> Result<Numbers, Memory>
    ensures { IfOk result (λ zeros. zeros ≡ map (λ _. 0) texts.now) }
{
    let mut zeros = List::with_capacity(alloc, texts.len() as u64)?;
    for _text in texts {
        zeros.push(0)?;
    }
    Ok(zeros)
}

/// For each text that arrived its place among the sorted ones, from 1.
fn places_of(alloc: Global, arrivals: &Arrivals, words: &[String]) -> Result<Numbers, Memory>
    requires { map string_bytes words.now ≡ set_of text_cmp arrivals.now }
    ensures { IfOk result (λ places. places ≡ map (code_in (set_of text_cmp arrivals.now)) arrivals.now) }
{
    let mut places = zeros(alloc, arrivals.as_slice())?;
    for (place, word) in words.iter().enumerate() {
        let Ok(code) = u32::try_from(place + 1) else {
            return Err(Memory);
        };
        let Some(arrival) = arrivals.find(word.as_str()) else {
            unreachable!();
        };
        *places.item_mut(arrival) = code;
    }
    Ok(places)
}

/// The texts, which are moved.
fn texts_of(alloc: Global, words: Vec<String>) -> Result<Texts, Memory>
    ensures { IfOk result (λ texts. texts ≡ map string_bytes words.items) }
{
    let mut texts = List::with_capacity(alloc, words.len() as u64)?;
    for word in words {
        texts.push(List::from_vec(word.into_bytes()))?;
    }
    Ok(texts)
}

/// The texts ascending, and where each text stands among them. The cost is that of sorting them and of one look-up for each.
pub(crate) fn rank(alloc: Global, arrivals: &Arrivals) -> Result<Ranks, Memory>
    ensures words { IfOk result (λ ranks. ranks.words ≡ set_of text_cmp arrivals.now) }
    ensures places { IfOk result (λ ranks. ranks.places ≡ map (code_in (set_of text_cmp arrivals.now)) arrivals.now) }
{
    let mut words = copies(alloc, arrivals.as_slice())?;
    sort(&mut words)?;
    let places = places_of(alloc, arrivals, words.as_slice())?;
    let words = texts_of(alloc, words)?;
    Ok(Ranks { words, places })
}
