//! The word at the front of a text.
ghost use Rattle.std.specs.Prelude.{◌≡◌, ◌<◌, ◌≤◌, length, take, drop, slice_index, position};
ghost use Rattle.std.specs.List.{prefix_len};
ghost use Rattle.words.specs.Words.{is_blank};
ghost use Rattle.health_expr.specs.Cut as spec;
ghost use Rattle.health_expr.specs.Word.{Is, EndsInAscii};

use words::is_blank;

/// What a word is.
#[derive(Clone, Copy, Debug, PartialEq, Eq)]
pub enum Kind {
    /// The text's end.
    End,
    /// Digits, and after a dot more digits.
    Number,
    /// `$name` or `${name}`.
    Name,
    /// `nan`
    Nan,
    /// `inf`
    Infinity,
    /// `abs`
    Abs,
    /// `(`
    Open,
    /// `)`
    Close,
    /// `?`
    Question,
    /// `:`
    Colon,
    /// `!` or `NOT`.
    Not,
    /// `+`
    Plus,
    /// `-`
    Minus,
    /// `*`
    Star,
    /// `/`
    Slash,
    /// `||` or `OR`.
    Or,
    /// `&&` or `AND`.
    And,
    /// `==`
    Equal,
    /// `!=` or `<>`.
    NotEqual,
    /// `<`
    Less,
    /// `<=`
    AtMost,
    /// `>`
    Greater,
    /// `>=`
    AtLeast,
    /// What begins no word, up to the text's end.
    Unknown,
}

/// A word, what it says beside its kind, and the text behind it.
#[derive(Clone, Copy, Debug)]
pub struct Word<'a> {
    pub kind: Kind,
    /// The digits of a number, or a name without its marks.
    pub said: &'a str,
    pub rest: &'a str,
}

/// Whether a byte may stand in a name.
fn is_letter(byte: u8) -> bool
    ensures { result ≡ spec.is_letter byte }
{
    byte.is_ascii_alphanumeric() || byte == b'_' || byte == b'.'
}

/// How many blanks a text begins with.
fn blanks_len(text: &str) -> usize
    ensures { result ≡ prefix_len is_blank text.now }
{
    text.bytes().take_while(|byte| is_blank(*byte)).count()
}

/// How many letters, digits, `_` and dots a text begins with.
fn letters_len(text: &str) -> usize
    ensures { result ≡ prefix_len spec.is_letter text.now }
{
    text.bytes().take_while(|byte| is_letter(*byte)).count()
}

/// How many digits a text begins with.
fn digits_len(text: &[u8]) -> usize
    ensures len { result ≡ spec.digits_len text.now }
    ensures within { result ≤ length text.now }
{
    text.iter().take_while(|byte| byte.is_ascii_digit()).count()
}

/// How many bytes a dot and the digits behind it have.
fn decimals_len(text: &[u8]) -> usize
    ensures len { result ≡ spec.decimals_len text.now }
    ensures within { result ≤ length text.now }
{
    match text {
        [b'.', digits @ ..] if digits_len(digits) > 0 => digits_len(digits) + 1,
        _ => 0,
    }
}

/// How many bytes the number has that a text begins with.
fn number_len(text: &[u8]) -> usize
    ensures { result ≡ spec.number_len text.now }
{
    let whole = digits_len(text);
    whole + decimals_len(&text[whole..])
}

/// A text without the blanks in front.
pub fn without_blanks(text: &str) -> &str
    ensures { result.now ≡ drop (prefix_len is_blank text.now) text.now }
{
    &text[blanks_len(text)..]
}

/// The letters in front of a text, and what follows them.
fn split_letters(text: &str) -> (&str, &str)
    ensures letters { result.0.now ≡ take (prefix_len spec.is_letter text.now) text.now }
    ensures rest { result.1.now ≡ drop (prefix_len spec.is_letter text.now) text.now }
{
    text.split_at(letters_len(text))
}

/// The number in front of a text, and what follows it.
fn split_number(text: &str) -> (&str, &str)
    ensures number { result.0.now ≡ take (spec.number_len text.now) text.now }
    ensures rest { result.1.now ≡ drop (spec.number_len text.now) text.now }
{
    text.split_at(number_len(text.as_bytes()))
}

/// Where the first `}` of a text stands.
fn brace_place(text: &str) -> Option<usize>
    ensures { result ≡ position spec.is_brace text.now }
{
    text.bytes().position(|byte| byte == b'}')
}

/// What begins no word.
fn unknown(text: &str) -> Word<'_>
    ensures { Is (spec.unknown text.now) text.now result }
{
    Word {
        kind: Kind::Unknown,
        said: "",
        rest: &text[text.len()..],
    }
}

/// The word of a text that begins with `${`.
fn braced(text: &str) -> Word<'_>
    requires long { 1 < length text.now }
    requires dollar { slice_index text.now 0 ≡ 36 }
    requires brace { slice_index text.now 1 ≡ 123 }
    ensures { Is (spec.braced text.now (position spec.is_brace (drop 2 text.now))) text.now result }
{
    let inside = &text[2..];
    let Some(end) = brace_place(inside) else {
        return unknown(text);
    };
    Word {
        kind: Kind::Name,
        said: &inside[..end],
        rest: &inside[end + 1..],
    }
}

/// The word of a text that begins with `$` and no `{`.
fn named(text: &str) -> Word<'_>
    requires long { 0 < length text.now }
    requires dollar { slice_index text.now 0 ≡ 36 }
    ensures { Is (spec.named text.now (prefix_len spec.is_letter (drop 1 text.now)))
        text.now result }
{
    let (said, rest) = split_letters(&text[1..]);
    if said.is_empty() {
        return unknown(text);
    }
    Word {
        kind: Kind::Name,
        said,
        rest,
    }
}

/// Which word of the language letters are.
fn keyword(letters: &str) -> Kind
    ensures { result ≡ spec.keyword letters.now }
{
    match letters {
        "nan" => Kind::Nan,
        "inf" => Kind::Infinity,
        "abs" => Kind::Abs,
        "NOT" => Kind::Not,
        "AND" => Kind::And,
        "OR" => Kind::Or,
        _ => Kind::Unknown,
    }
}

/// The mark in front of a text, and how many bytes it has.
fn mark(text: &[u8]) -> (Kind, usize)
    requires { 0 < length text.now }
    ensures mark { result
        ≡ spec.mark (length text.now) (slice_index text.now 0) (slice_index text.now 1) }
    ensures ends { EndsInAscii text.now result.1 }
{
    match text {
        [b'|', b'|', ..] => (Kind::Or, 2),
        [b'&', b'&', ..] => (Kind::And, 2),
        [b'=', b'=', ..] => (Kind::Equal, 2),
        [b'!', b'=', ..] | [b'<', b'>', ..] => (Kind::NotEqual, 2),
        [b'<', b'=', ..] => (Kind::AtMost, 2),
        [b'>', b'=', ..] => (Kind::AtLeast, 2),
        [b'(', ..] => (Kind::Open, 1),
        [b')', ..] => (Kind::Close, 1),
        [b'?', ..] => (Kind::Question, 1),
        [b':', ..] => (Kind::Colon, 1),
        [b'!', ..] => (Kind::Not, 1),
        [b'+', ..] => (Kind::Plus, 1),
        [b'-', ..] => (Kind::Minus, 1),
        [b'*', ..] => (Kind::Star, 1),
        [b'/', ..] => (Kind::Slash, 1),
        [b'<', ..] => (Kind::Less, 1),
        [b'>', ..] => (Kind::Greater, 1),
        _ => (Kind::Unknown, text.len()),
    }
}

/// The word of a text that begins with a mark or with no word.
fn marked(text: &str) -> Word<'_>
    requires { 0 < length text.now }
    ensures { Is (spec.marked
        (spec.mark (length text.now) (slice_index text.now 0) (slice_index text.now 1)))
        text.now result }
{
    let (kind, len) = mark(text.as_bytes());
    Word {
        kind,
        said: "",
        rest: &text[len..],
    }
}

/// The number that a text begins with.
fn number(text: &str) -> Word<'_>
    ensures { Is (spec.number text.now) text.now result }
{
    let (said, rest) = split_number(text);
    Word {
        kind: Kind::Number,
        said,
        rest,
    }
}

/// The letters that a text begins with.
fn letters(text: &str) -> Word<'_>
    ensures { Is (spec.letters text.now) text.now result }
{
    let (letters, rest) = split_letters(text);
    Word {
        kind: keyword(letters),
        said: "",
        rest,
    }
}

/// The word of a text that begins with `$`.
fn dollar(text: &str) -> Word<'_>
    requires long { 0 < length text.now }
    requires dollar { slice_index text.now 0 ≡ 36 }
    ensures { Is (spec.dollar text.now) text.now result }
{
    if text.len() > 1 && text.as_bytes()[1] == b'{' {
        braced(text)
    } else {
        named(text)
    }
}

/// The word at the front of a text that has no blank there.
#[tactic(auto, unfolding(crate::specs::Cut::first_word))]
pub fn first_word(text: &str) -> Word<'_>
    ensures { Is (spec.first_word text.now) text.now result }
{
    if text.is_empty() {
        return Word {
            kind: Kind::End,
            said: "",
            rest: text,
        };
    }
    let first = text.as_bytes()[0];
    if first.is_ascii_digit() {
        number(text)
    } else if first == b'$' {
        dollar(text)
    } else if is_letter(first) {
        letters(text)
    } else {
        marked(text)
    }
}
