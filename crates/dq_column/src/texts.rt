ghost use Rattle.std.specs.Option.{option_copied};
ghost use Rattle.std.specs.Prelude.{◌≡◌, ◌<◌, IfOk, Some, length, map, slice_get};
ghost use Rattle.dq_column.specs.Stored.{IsDictionary, code_of, decoded, text_or_null, words_of};

use dq_base::{Memory, Numbers, Text, Texts, Value};
use std::alloc::Global;
use std::marker::Model;

/// A column of texts and nulls, which never changes: a dictionary, and a code for each row. Contracts see its values, one
/// for each row; places count from 0.
#[derive(Drop)]
pub struct TextColumn {
    words: Texts,
    codes: Numbers,
}

impl Model for TextColumn {
    ghost use Rattle.std.specs.Prelude.{List};
    ghost use Rattle.dq_base.specs.declared.value.Value.{Value as OneValue};
    ghost use Rattle.dq_column.specs.Stored.{IsDictionary, decoded};

    ghost Value = { List OneValue };

    ghost view = { λ c. decoded c.words c.codes };

    ghost invariant = { λ c. IsDictionary c.words c.codes };
}

/// A copy of the word of a code, or null.
fn word_of(alloc: Global, word: Option<&Text>) -> Result<Value, Memory>
    ensures { IfOk result (λ value. value ≡ text_or_null (option_copied word.entry)) }
{
    match word {
        Some(word) => Ok(Value::Word(Text::copy_of(alloc, word.bytes())?)),
        None => Ok(Value::Null),
    }
}

impl TextColumn {
    /// The column of these codes of a dictionary.
    pub(crate) fn new(words: Texts, codes: Numbers) -> TextColumn
        requires { IsDictionary words codes }
        ensures { result ≡ decoded words codes }
    {
        TextColumn { words, codes }
    }

    /// How many rows there are.
    pub fn len(&self) -> u64
        ensures { result ≡ length self.now }
    {
        self.codes.len()
    }

    /// A copy of the value of the row at a place. Its text is copied.
    pub fn value(&self, alloc: Global, place: u64) -> Result<Value, Memory>
        requires { place < length self.now }
        ensures { IfOk result (λ value. slice_get self.now place ≡ Some value) }
    {
        let Some(code) = self.codes.get(place) else {
            unreachable!();
        };
        word_of(alloc, self.words.numbered(*code))
    }

    /// The different texts of the column, ascending by their bytes.
    pub fn words(&self) -> &Texts
        ensures { result.now ≡ words_of self.now }
    {
        &self.words
    }

    /// For each row 0 where it is null, else the place of its text among the words, from 1.
    pub fn codes(&self) -> &Numbers
        ensures { result.now ≡ map (code_of (words_of self.now)) self.now }
    {
        &self.codes
    }
}
