//! A reader of the words of a text.
ghost use Rattle.std.specs.Prelude.{◌≡◌, ◌≢◌, ◌<◌, length, true};
ghost use Rattle.health_expr.specs.Words as spec;

use crate::word::{Kind, Word, first_word, without_blanks};
use std::marker::Model;

/// The words of a text from some word on. Contracts see the list of them.
#[derive(Debug, Drop)]
pub struct Words<'a> {
    /// Where the next word begins.
    place: usize,
    /// The text from there on.
    ahead: &'a str,
    /// The next word.
    word: Word<'a>,
}

impl<'a> Model for Words<'a> {
    ghost use Rattle.std.specs.Prelude.{List};
    ghost use Rattle.health_expr.specs.Words.{Placed};

    ghost Value = { List Placed };

    ghost use Rattle.health_expr.specs.Cursor.{words_ahead, IsReady};

    ghost view = { words_ahead };

    ghost invariant = { IsReady };
}

impl<'a> Words<'a> {
    /// All words of a text.
    pub fn new(text: &'a str) -> Words<'a>
        ensures { result ≡ spec.words_of text.now }
    {
        let ahead = without_blanks(text);
        Words {
            place: text.len() - ahead.len(),
            ahead,
            word: first_word(ahead),
        }
    }

    /// What the next word is.
    pub fn kind(&self) -> Kind
        ensures { result ≡ (spec.first self.now).kind }
    {
        self.word.kind
    }

    /// What the next word says: the digits of a number, or a name.
    pub fn said(&self) -> &'a str
        ensures { result.now ≡ (spec.first self.now).said }
    {
        self.word.said
    }

    /// Where the next word begins.
    pub fn place(&self) -> usize
        ensures { result ≡ (spec.first self.now).place }
    {
        self.place
    }

    /// Whether the next word is of this kind.
    pub fn sees(&self, kind: Kind) -> bool
        ensures value { result ≡ spec.sees kind self.now }
        ensures same { result ≡ true → (spec.first self.now).kind ≡ kind }
    {
        self.word.kind == kind
    }

    /// Passes the next word.
    pub fn pass(&mut self)
        requires { (spec.first self.old).kind ≢ Kind.End }
        ensures next { self.new ≡ spec.after self.old }
        ensures shorter { length self.new < length self.old }
    {
        let ahead = without_blanks(self.word.rest);
        self.place += self.ahead.len() - ahead.len();
        self.ahead = ahead;
        self.word = first_word(ahead);
    }
}
