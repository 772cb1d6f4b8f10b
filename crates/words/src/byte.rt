ghost use Rattle.std.specs.Prelude.{◌≡◌};
ghost use Rattle.words.specs.Words.{is_blank, is_separator, is_quote};

/// The byte of a vertical tab.
const VERTICAL_TAB: u8 = 0x0b;

/// The byte of a form feed.
const FORM_FEED: u8 = 0x0c;

/// Whether a byte is a blank: a space, a tab, a carriage return, a vertical tab or a form feed.
pub fn is_blank(byte: u8) -> bool
    ensures { result ≡ is_blank byte }
{
    matches!(byte, b' ' | b'\t' | b'\r' | VERTICAL_TAB | FORM_FEED)
}

/// Whether a byte separates words where it stands outside quotes.
pub fn is_separator(byte: u8) -> bool
    ensures { result ≡ is_separator byte }
{
    is_blank(byte) || byte == b'='
}

/// Whether a byte opens a quote where it begins a word.
pub fn is_quote(byte: u8) -> bool
    ensures { result ≡ is_quote byte }
{
    matches!(byte, b'\'' | b'"')
}
