ghost use Rattle.std.specs.Prelude.{◌≡◌};
ghost use Rattle.plugin_text.specs.Text.{shortened, is_option_separator, has_option};

use history::TEXT_LIMIT;
use words::is_blank;

/// The longest prefix of a text of at most `TEXT_LIMIT` bytes that ends at a character.
pub fn shortened(text: &str) -> &str
    ensures { result.now ≡ shortened text.now }
{
    &text[..text.floor_char_boundary(TEXT_LIMIT)]
}

fn is_option_separator(byte: u8) -> bool
    ensures { result ≡ is_option_separator byte }
{
    is_blank(byte) || byte == b','
}

/// Whether an option is among those of a word, which stand between blanks and commas.
pub fn has_option(name: &str, options: &str) -> bool
    ensures { result ≡ has_option name.now options.now }
{
    options
        .as_bytes()
        .split(|byte| is_option_separator(*byte))
        .any(|option| option == name.as_bytes())
}
