//! Cuts a line of a collector's text into words.
//!
//! Words stand between blanks and `=` signs. A word that begins with `'` or `"` runs to the next equal
//! quote and may hold blanks, `=` and the other quote, or nothing at all; it has no escapes, and what
//! follows its closing quote begins a new word. A quote inside any other word is a plain byte, and a
//! quote that begins a word and is not closed before the line's end stays open. Such lines are those
//! of external plugins in Netdata's public documentation; the rule is made exact here.
//!
//! What the words of a line are is said by one recursion over its bytes. The reader `Words` is proved
//! to give just those, in order, and to say where a quote stays open. Each word is a part of the line,
//! so no memory is taken, and the words of UTF-8 text are UTF-8.
#![tactic(auto)]

mod byte;
mod cut;
mod law;
mod reader;

pub use byte::is_blank;
pub use law::quoted_text_is_one_word;
pub use reader::{OpenQuote, Words};
