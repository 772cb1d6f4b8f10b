ghost use Rattle.std.specs.Prelude.{◌≡◌, false, [], ◌∷◌, IsTrue, IfOk, IfNone, IfSome, OnErr};
ghost use Rattle.words.specs.Words.{words, has_open_quote, behind_first, IsEndOf};

use crate::cut::first_word;
use std::marker::Model;
use thiserror::Error;

/// A quote that began a word was not closed before the line's end.
#[derive(Clone, Copy, Debug, PartialEq, Eq, Error)]
#[error("a quote is not closed")]
pub struct OpenQuote;

/// A line that is cut into words, the first word first. Contracts see it as the bytes that are not
/// cut yet.
#[derive(Debug, Drop)]
pub struct Words<'a> {
    rest: &'a str,
}

impl<'a> Model for Words<'a> {
    ghost use Rattle.std.specs.Prelude.{List, ℕ};

    ghost Value = { List ℕ };

    ghost view = { λ reader. reader.rest.now };
}

impl<'a> Words<'a> {
    /// All of `line`, of which nothing is cut yet.
    pub fn new(line: &'a str) -> Words<'a>
        ensures { result ≡ line.now }
    {
        Words { rest: line }
    }

    /// What is not cut yet: it begins right behind the last word or its closing quote.
    pub fn rest(&self) -> &'a str
        ensures { result.now ≡ self.now }
    {
        self.rest
    }

    /// The next word, or `None` where there is none. An `Err` says that the next word begins with a
    /// quote that is not closed before the line's end, and leaves the reader as it was.
    pub fn next_word(&mut self) -> Result<Option<&'a str>, OpenQuote>
        ensures word { IfOk result (λ next. IfSome next (λ word. words self.old
            ≡ word.now ∷ words self.new)) }
        ensures end { IfOk result (λ next. IfNone next (words self.old ≡ [])) }
        ensures err { OnErr result (words self.old ≡ []) }

        ensures open_later { IfOk result (λ next. has_open_quote self.new
            ≡ has_open_quote self.old) }
        ensures closed { IfOk result (λ next. IfNone next (has_open_quote self.old ≡ false)) }
        ensures open { OnErr result (IsTrue (has_open_quote self.old)) }

        ensures behind { IfOk result (λ next. IfSome next (λ _. behind_first self.old ≡ self.new)) }
        ensures rest { IsEndOf self.old self.new }
        ensures all_cut { IfOk result (λ next. IfNone next (self.new ≡ [])) }
        ensures unchanged { OnErr result (self.new ≡ self.old) }
    {
        let (word, rest) = first_word(self.rest)?;
        self.rest = rest;
        Ok(word)
    }
}
