ghost use Rattle.std.specs.Prelude.{◌≡◌, ◌+◌, ◌++◌, ◌∷◌, [], IfOk, OnErr, OnOk, length, map};
ghost use Rattle.dq_base.specs.declared.value.Value.TheVariants.{Null, Word};
ghost use Rattle.dq_column.specs.Stored.{place_at};

use crate::arrivals::Arrivals;
use crate::ranks::{Ranks, rank};
use crate::texts::TextColumn;
use dq_base::{List, Memory, Numbers};
use std::alloc::Global;
use std::marker::Model;

/// A column of texts and nulls that grows row by row. Contracts see its values so far.
///
/// A text has the number of its arrival until the column is finished.
#[derive(Drop)]
pub struct TextColumnBuilder {
    arrivals: Arrivals,
    codes: Numbers,
}

impl Model for TextColumnBuilder {
    ghost use Rattle.std.specs.Prelude.{List};
    ghost use Rattle.dq_base.specs.declared.value.Value.{Value as OneValue};
    ghost use Rattle.dq_column.specs.Stored.{IsArriving, decoded};

    ghost Value = { List OneValue };

    ghost view = { λ r. decoded r.arrivals r.codes };

    ghost invariant = { λ r. IsArriving r.arrivals r.codes };
}

/// The codes of a dictionary for codes of arrival.
fn ranked(alloc: Global, codes: &Numbers, places: &Numbers) -> Result<Numbers, Memory>
    ensures { IfOk result (λ ranked. ranked ≡ map (place_at places.now) codes.now) }
{
    let mut ranked = List::with_capacity(alloc, codes.len())?;
    for code in codes.as_slice() {
        ranked.push(match places.numbered(*code) {
            Some(place) => *place,
            None => 0,
        })?;
    }
    Ok(ranked)
}

impl TextColumnBuilder {
    /// The column of no rows so far. It takes no memory.
    pub fn new(alloc: Global) -> TextColumnBuilder
        ensures { result ≡ [] }
    {
        TextColumnBuilder {
            arrivals: Arrivals::new(alloc),
            codes: List::new(alloc),
        }
    }

    /// How many rows there are.
    pub fn len(&self) -> u64
        ensures { result ≡ length self.now }
    {
        self.codes.len()
    }

    /// Puts a row that is null at the end, in constant time but for growth. An `Err` changes nothing.
    pub fn push_null(&mut self) -> Result<(), Memory>
        ensures ok { OnOk result (self.new ≡ self.old ++ Null ∷ []) }
        ensures err { OnErr result (self.new ≡ self.old) }
    {
        self.codes.push(0)
    }

    /// Puts a text at the end. It costs a look-up among the different texts, and only a new one is copied. An `Err` changes
    /// nothing. More than 2^32 - 1 different texts are refused as want of memory.
    pub fn push(&mut self, alloc: Global, text: &str) -> Result<(), Memory>
        ensures ok { OnOk result (self.new ≡ self.old ++ Word text.now ∷ []) }
        ensures err { OnErr result (self.new ≡ self.old) }
    {
        if let Some(place) = self.arrivals.find(text) {
            push_code(&mut self.codes, place)?;
            return Ok(());
        }
        let place = self.arrivals.len();
        push_code(&mut self.codes, place)?;
        if self.arrivals.add(alloc, text).is_err() {
            self.codes.truncate(self.codes.len() - 1);
            return Err(Memory);
        }
        Ok(())
    }

    /// The column of the rows that were put. It costs a copy, a sort and a look-up of the different texts, and one pass over
    /// the rows.
    pub fn finish(self, alloc: Global) -> Result<TextColumn, Memory>
        ensures { IfOk result (λ column. column ≡ self) }
    {
        let Ranks { words, places } = rank(alloc, &self.arrivals)?;
        let codes = ranked(alloc, &self.codes, &places)?;
        Ok(TextColumn::new(words, codes))
    }
}

/// Puts the code of a place at the end. An `Err` changes nothing.
fn push_code(codes: &mut Numbers, place: u64) -> Result<(), Memory>
    ensures ok { OnOk result (codes.new ≡ codes.old ++ (place + 1) ∷ []) }
    ensures err { OnErr result (codes.new ≡ codes.old) }
{
    match u32::try_from(place) {
        Ok(place) if place < u32::MAX => codes.push(place + 1),
        _ => Err(Memory),
    }
}
