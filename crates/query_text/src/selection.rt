//! Which names a query's pattern accepts.
ghost use Rattle.std.specs.Prelude.{◌≡◌, ◌++◌, List, [], codes, Ok, IfOk, IfErr, OnOk};
ghost use Rattle.std.specs.List.{flat_map};
ghost use Rattle.query_text.specs.Asked.{joined, pattern_text, pattern_read};
ghost use Rattle.query_text.specs.Fault.{IsFaultFor};
ghost use Rattle.query_text.specs.Shown.{accepts};

use crate::fault::QueryFault;
use fixed_num::Text;
use simple_pattern::{Pattern, PatternFault};
use std::alloc::{AllocError, Global};

/// Adds a blank and a word.
fn push_word(text: &mut Text, word: &str) -> Result<(), AllocError>
    ensures { OnOk result (text.new ≡ text.old ++ codes " " ++ word.now) }
{
    text.push_str(" ")?;
    text.push_str(word)
}

/// Adds words, each with a blank before it.
fn push_words(text: &mut Text, words: &[Text]) -> Result<(), AllocError>
    ensures { OnOk result (text.new ≡ text.old ++ flat_map (λ word. codes " " ++ word) words.now) }
{
    for word in words {
        push_word(text, word.as_str())?;
    }
    Ok(())
}

/// The words with a blank between two.
pub fn join(alloc: Global, words: &[Text]) -> Result<Text, AllocError>
    ensures { IfOk result (λ text. text ≡ joined words.now) }
{
    let [first, others @ ..] = words else {
        return Ok(Text::new(alloc));
    };
    let mut text = first.clone()?;
    push_words(&mut text, others)?;
    Ok(text)
}

/// The text of a pattern by the words of a query that are left for it.
fn pattern_text(alloc: Global, given: &[Text]) -> Result<Text, AllocError>
    ensures { IfOk result (λ text. text ≡ pattern_text given.now) }
{
    if given.is_empty() {
        return Text::from_str(alloc, "*");
    }
    join(alloc, given)
}

/// Reads the pattern that is left of a query.
pub fn read_pattern(alloc: Global, given: &[Text]) -> Result<Pattern, QueryFault>
    ensures pattern { IfOk result (λ pattern. pattern_read given.now ≡ Ok pattern) }
    ensures fault { IfErr result (IsFaultFor (pattern_read given.now)) }
{
    let text = pattern_text(alloc, given)?;
    match Pattern::read(alloc, text.as_str(), false) {
        Ok(pattern) => Ok(pattern),
        Err(PatternFault::TooManyWords) => Err(QueryFault::BadWord),
        Err(PatternFault::Memory) => Err(QueryFault::Memory),
    }
}

/// Whether a pattern accepts a name. Where it says nothing it does not.
pub fn accepts(pattern: &Pattern, name: &str) -> bool
    ensures { result ≡ accepts pattern.now name.now }
{
    pattern.decides(name).unwrap_or(false)
}
