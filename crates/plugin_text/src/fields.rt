ghost use Rattle.std.specs.Prelude.{◌≡◌, false, take, IsTrue, IfOk, OnOk, OnErr};
ghost use Rattle.words.specs.Words.{words, has_open_quote};
ghost use Rattle.plugin_text.specs.Fields.{field, texts, word_or};
ghost use Rattle.plugin_text.specs.Text.{shortened};

use crate::text::shortened;
use arrayvec::ArrayVec;
use fixed_num::Text;
use std::alloc::{AllocError, Global};
use words::{OpenQuote, Words};

/// How many of the words behind a keyword are read; no line has a use for more.
pub const FIELD_COUNT: usize = 10;

/// The words behind a line's keyword, as parts of the line. Past `FIELD_COUNT` they are left out.
pub type Fields<'a> = ArrayVec<&'a str, FIELD_COUNT>;

/// Reads a line to its end, and keeps its first words. Says so where a quote stays open, wherever it
/// stands.
pub fn read_fields<'a>(line: &mut Words<'a>) -> Result<Fields<'a>, OpenQuote>
    ensures words { IfOk result (λ fields. texts fields.items ≡ take FIELD_COUNT (words line.old)) }
    ensures closed { OnOk result (has_open_quote line.old ≡ false) }
    ensures open { OnErr result (IsTrue (has_open_quote line.old)) }
{
    let mut fields = Fields::new();
    while let Some(word) = line.next_word()? {
        if !fields.is_full() {
            fields.push(word);
        }
    }
    Ok(fields)
}

/// One of the words, counted from 0, or the empty word where it is missing.
pub fn field<'a>(fields: &Fields<'a>, place: usize) -> &'a str
    ensures { result.now ≡ field place (texts fields.now.items) }
{
    fields.as_slice().get(place).copied().unwrap_or("")
}

/// A copy of one of the words, which is shortened.
pub fn keep_field(alloc: Global, fields: &Fields, place: usize) -> Result<Text, AllocError>
    ensures { IfOk result (λ kept. kept ≡ shortened (field place (texts fields.now.items))) }
{
    Text::from_str(alloc, shortened(field(fields, place)))
}

/// A copy of one of the words, or of another one where it is empty, which is shortened.
pub fn keep_field_or(
    alloc: Global,
    other: &str,
    fields: &Fields,
    place: usize,
) -> Result<Text, AllocError>
    ensures { IfOk result (λ kept. kept
        ≡ shortened (word_or other.now (field place (texts fields.now.items)))) }
{
    Text::from_str(alloc, shortened(word_or(other, field(fields, place))))
}

/// A word, or another one where it is empty.
fn word_or<'a>(other: &'a str, word: &'a str) -> &'a str
    ensures { result.now ≡ word_or other.now word.now }
{
    if word.is_empty() { other } else { word }
}
