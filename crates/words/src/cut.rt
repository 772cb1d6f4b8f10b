ghost use Rattle.std.specs.Prelude.{◌≡◌, ◌==◌, ◌<◌, ℕ, false, length, slice_index, position, IsTrue, IfOk, IfNone, IfSome, OnErr};
ghost use Rattle.std.specs.List.{position_or_len, prefix_len};
ghost use Rattle.std.specs.Str.{IsCharBoundary};
ghost use Rattle.words.specs.Words.{words, has_open_quote, behind_first, is_separator, is_quote, IsEndOf};
ghost use Rattle.words.specs.Cut.{Cuts, IsAllCut, StaysOpen};

use crate::byte::{is_quote, is_separator};
use crate::reader::OpenQuote;

// How many separators a line begins with.
fn separators_len(line: &str) -> usize
    ensures { result ≡ prefix_len is_separator line.now }
{
    line.bytes().take_while(|byte| is_separator(*byte)).count()
}

// How many bytes of a text stand before its first separator.
fn bare_len(text: &str) -> usize
    ensures len { result ≡ position_or_len is_separator text.now }
    ensures boundary { IsCharBoundary text.now result }
{
    text.bytes().take_while(|byte| !is_separator(*byte)).count()
}

// Where in a text a quote stands first.
fn quote_place(text: &str, quote: u8) -> Option<usize>
    ensures { result ≡ position (λ byte. byte == quote) text.now }
{
    text.bytes().position(|byte| byte == quote)
}

// The line without the separators that it begins with.
fn without_separators(line: &str) -> &str
    ensures words { words result.now ≡ words line.now }
    ensures open { has_open_quote result.now ≡ has_open_quote line.now }
    ensures behind { behind_first result.now ≡ behind_first line.now }
    ensures first { 0 < length result.now → is_separator (slice_index result.now 0) ≡ false }
    ensures rest { IsEndOf line.now result.now }
{
    &line[separators_len(line)..]
}

// Cuts the first word off a text that begins with it, where it is not in quotes.
fn bare_word(text: &str) -> (&str, &str)
    requires text { 0 < length text.now }
    requires separator { is_separator (slice_index text.now 0) ≡ false }
    requires quote { is_quote (slice_index text.now 0) ≡ false }
    ensures { Cuts text.now result.0.now result.1.now }
{
    text.split_at(bare_len(text))
}

// Cuts the first word off a text that begins with its quote.
fn quoted_word(text: &str, quote: u8) -> Result<(&str, &str), OpenQuote>
    requires text { 0 < length text.now }
    requires first { slice_index text.now 0 ≡ quote }
    requires quote { IsTrue (is_quote quote) }
    ensures ok { IfOk result (λ cut. Cuts text.now cut.0.now cut.1.now) }
    ensures err { OnErr result (StaysOpen text.now) }
{
    let inside = &text[1..];
    let Some(end) = quote_place(inside, quote) else {
        return Err(OpenQuote);
    };
    Ok((&inside[..end], &inside[end + 1..]))
}

// Cuts the first word off a text that begins with it.
fn cut_word(text: &str) -> Result<(&str, &str), OpenQuote>
    requires text { 0 < length text.now }
    requires separator { is_separator (slice_index text.now 0) ≡ false }
    ensures ok { IfOk result (λ cut. Cuts text.now cut.0.now cut.1.now) }
    ensures err { OnErr result (StaysOpen text.now) }
{
    let first = text.as_bytes()[0];
    if is_quote(first) {
        quoted_word(text, first)
    } else {
        Ok(bare_word(text))
    }
}

// The first word of a line, and what follows it.
pub fn first_word(line: &str) -> Result<(Option<&str>, &str), OpenQuote>
    ensures word { IfOk result (λ cut. IfSome cut.0 (λ word. Cuts line.now word.now cut.1.now)) }
    ensures end { IfOk result (λ cut. IfNone cut.0 (IsAllCut line.now cut.1.now)) }
    ensures err { OnErr result (StaysOpen line.now) }
{
    let text = without_separators(line);
    if text.is_empty() {
        return Ok((None, text));
    }
    let (word, rest) = cut_word(text)?;
    Ok((Some(word), rest))
}
