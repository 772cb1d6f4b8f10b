//! The key and the value of a line.
ghost use Rattle.std.specs.Prelude.{◌≡◌, ◌≤◌, true, false, length, reverse, position, Some, None, MatchResult};
ghost use Rattle.std.specs.List.{prefix_len};
ghost use Rattle.std.specs.Str.{is_utf8};
ghost use Rattle.words.specs.Words.{is_blank};
ghost use Rattle.health_config.specs.Key as spec;

use crate::fault::ValueFault;
use std::str;
use words::is_blank;

/// How many blanks a text begins with.
fn leading_len(text: &[u8]) -> usize
    ensures len { result ≡ prefix_len is_blank text.now }
    ensures within { result ≤ length text.now }
{
    text.iter().take_while(|byte| is_blank(**byte)).count()
}

/// How many blanks a text ends with.
fn back_len(text: &[u8]) -> usize
    ensures len { result ≡ prefix_len is_blank (reverse text.now) }
    ensures within { result ≤ length text.now }
{
    text.iter()
        .rev()
        .take_while(|byte| is_blank(**byte))
        .count()
}

/// A text without blanks on either side.
fn trimmed(text: &[u8]) -> &[u8]
    ensures { result.now ≡ spec.trimmed text.now }
{
    let text = &text[..text.len() - back_len(text)];
    &text[leading_len(text)..]
}

/// The same of a text that is UTF-8.
fn trimmed_text(text: &str) -> &str
    ensures { result.now ≡ spec.trimmed text.now }
{
    let text = &text[..text.len() - back_len(text.as_bytes())];
    &text[leading_len(text.as_bytes())..]
}

/// Whether a line has nothing but blanks, or a `#` behind them.
pub fn is_ignored(line: &[u8]) -> bool
    ensures { result ≡ spec.is_ignored line.now }
{
    let line = &line[leading_len(line)..];
    line.is_empty() || line[0] == b'#'
}

/// Where the first colon of a line stands.
fn colon_place(line: &[u8]) -> Option<usize>
    ensures { result ≡ position spec.is_colon line.now }
{
    line.iter().position(|byte| *byte == b':')
}

/// What a line has before its first colon, and what behind it.
#[tactic(auto, unfolding(crate::specs::Key::key_value))]
pub fn key_value(line: &str) -> Result<(&str, &str), ValueFault>
    ensures { MatchResult result
        (λ said. spec.key_value line.now ≡ Some (said.0.now, said.1.now))
        (λ fault. (fault ≡ ValueFault.Bad) × (spec.key_value line.now ≡ None)) }
{
    let Some(place) = colon_place(line.as_bytes()) else {
        return Err(ValueFault::Bad);
    };
    Ok((
        trimmed_text(&line[..place]),
        trimmed_text(&line[place + 1..]),
    ))
}

/// A line that is UTF-8.
pub fn text_of(line: &[u8]) -> Result<&str, ValueFault>
    ensures { MatchResult result
        (λ text. (text.now ≡ line.now) × (is_utf8 line.now ≡ true))
        (λ fault. (fault ≡ ValueFault.Bad) × (is_utf8 line.now ≡ false)) }
{
    match str::from_utf8(line) {
        Ok(text) => Ok(text),
        Err(_) => Err(ValueFault::Bad),
    }
}

/// Whether a key begins an entity, and then whether that is a template.
fn template_of(key: &[u8]) -> Option<bool>
    ensures { result ≡ spec.template_of key.now }
{
    if key == b"alarm".as_slice() {
        Some(false)
    } else if key == b"template".as_slice() {
        Some(true)
    } else {
        None
    }
}

/// Whether a line begins an entity by its key, and then whether that is a template.
#[tactic(auto, unfolding(crate::specs::Key::key_value, crate::specs::Key::begins))]
pub fn begins(line: &[u8]) -> Option<bool>
    ensures { result ≡ spec.begins line.now }
{
    let place = colon_place(line)?;
    template_of(trimmed(&line[..place]))
}
