//! A text, cut into words.
ghost use Rattle.std.specs.Prelude.{◌≡◌, ◌<◌, false, [], ◌∷◌, length, slice_index, MatchOption};
ghost use Rattle.std.specs.List.{prefix_len, position_or_len};
ghost use Rattle.std.specs.Str.{IsCharBoundary};
ghost use Rattle.simple_pattern.specs.Words.{is_separator, words};

use words::is_blank;

/// Whether a byte stands between words: a blank, and where commas cut too, `,` and `|`.
fn is_separator(commas: bool, byte: u8) -> bool
    ensures { result ≡ is_separator commas byte }
{
    is_blank(byte) || commas && matches!(byte, b',' | b'|')
}

/// How many bytes of a text stand before its first separator.
fn word_len(commas: bool, text: &str) -> usize
    ensures len { result ≡ position_or_len (is_separator commas) text.now }
    ensures boundary { IsCharBoundary text.now result }
{
    text.bytes()
        .take_while(|byte| !is_separator(commas, *byte))
        .count()
}

/// How many separators a text begins with.
fn separators_len(commas: bool, text: &str) -> usize
    ensures { result ≡ prefix_len (is_separator commas) text.now }
{
    text.bytes()
        .take_while(|byte| is_separator(commas, *byte))
        .count()
}

/// A text without the separators that it begins with.
fn without_separators(commas: bool, text: &str) -> &str
    ensures words { words commas result.now ≡ words commas text.now }
    ensures first { 0 < length result.now → is_separator commas (slice_index result.now 0) ≡ false }
{
    &text[separators_len(commas, text)..]
}

/// The first word of a text, and what follows it: words stand between blanks, and where `commas`,
/// between `,` and `|` too. `None` where the text has no word.
pub fn first_word(commas: bool, text: &str) -> Option<(&str, &str)>
    ensures { MatchOption result (words commas text.now ≡ [])
        (λ cut. words commas text.now ≡ cut.0.now ∷ words commas cut.1.now) }
{
    let text = without_separators(commas, text);
    if text.is_empty() {
        return None;
    }
    Some(text.split_at(word_len(commas, text)))
}

/// The words of a text, the first word first.
#[derive(Clone, Copy)]
pub struct Words<'a> {
    pub commas: bool,
    pub rest: &'a str,
}

impl<'a> Iterator for Words<'a> {
    ghost use Rattle.std.specs.Iterator.{YieldsFirstRef, item_count};
    ghost use Rattle.simple_pattern.specs.Cut.{words_left};

    type Item = &'a str;

    ghost next_gives = { YieldsFirstRef words_left };

    ghost remaining = { item_count words_left };

    fn next(&mut self) -> Option<&'a str> {
        let (word, rest) = first_word(self.commas, self.rest)?;
        self.rest = rest;
        Some(word)
    }
}
