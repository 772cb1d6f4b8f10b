ghost use Rattle.std.specs.Prelude.{◌≡◌, ◌<◌, ◌↔◌, List, ℕ, length, IsErrOf, IfOk};
ghost use Rattle.simple_pattern.specs.Pattern.{accepts, glob_of, decision};
ghost use Rattle.simple_pattern.specs.Words.{words};

use crate::cut::Words;
use crate::fault::PatternFault;
use crate::glob::is_match;
use fixed_num::{ListOf, Text};
use std::alloc::Global;
use std::marker::Model;

/// The most words that a pattern may have.
pub const WORD_LIMIT: usize = 256;

/// A simple pattern, which contracts see as the list of its words.
///
/// A word accepts the names that it matches, or refuses them where it begins with `!`: then what
/// follows the `!` is matched. So `!` alone refuses the empty name, `!*` every name, and `!!a` the name
/// `!a`. `*` in a word stands for any run of characters, none too, wherever it stands: `*` accepts
/// every name, and `**` says the same as `*`. No other character is special: not a `!` further on, and
/// neither a quote, an `=` nor a line feed.
#[derive(Debug, Drop)]
pub struct Pattern {
    words: ListOf<Text>,
}

impl Model for Pattern {
    ghost use Rattle.std.specs.Prelude.{List, ℕ};

    ghost Value = { List (List ℕ) };

    ghost view = { λ pattern. pattern.words };
}

/// Whether a word accepts what it matches: it does not begin with `!`.
fn accepts(word: &str) -> bool
    ensures { result ≡ accepts word.now }
{
    !word.starts_with('!')
}

/// What a name is matched with: the word without a `!` in front.
fn glob_of(word: &str) -> &str
    ensures { result.now ≡ glob_of word.now }
{
    word.strip_prefix('!').unwrap_or(word)
}

impl Pattern {
    /// Reads a pattern: words between blanks (space, tab, carriage return, vertical tab, form feed),
    /// and, where `commas`, between `,` and `|` too. A text with no word is the pattern that decides
    /// of no name. At most `WORD_LIMIT` words are read.
    pub fn read(alloc: Global, text: &str, commas: bool) -> Result<Pattern, PatternFault>
        ensures words { IfOk result (λ pattern. pattern ≡ words commas text.now) }
        ensures too_many { IsErrOf result PatternFault.TooManyWords
            ↔ (WORD_LIMIT < length (words commas text.now)) }
    {
        let cut = Words { commas, rest: text };
        if cut.count() > WORD_LIMIT {
            return Err(PatternFault::TooManyWords);
        }
        let mut words = ListOf::new(alloc);
        for word in cut {
            let word = Text::from_str(alloc, word).map_err(|_| PatternFault::Memory)?;
            words.push(word).map_err(|_| PatternFault::Memory)?;
        }
        Ok(Pattern { words })
    }

    /// The words in their order.
    pub fn words(&self) -> &[Text]
        ensures { result.now ≡ self.now }
    {
        self.words.as_slice()
    }

    /// What the first word that `name` matches decides: whether it accepts the name. `None` where the
    /// name matches no word. It takes no memory, and at most a time of the product of the pattern's
    /// length and the name's.
    pub fn decides(&self, name: &str) -> Option<bool>
        ensures { result ≡ decision self.now name.now }
    {
        let word = self
            .words
            .as_slice()
            .iter()
            .find(|word| is_match(glob_of(word.as_str()), name))?;
        Some(accepts(word.as_str()))
    }
}
