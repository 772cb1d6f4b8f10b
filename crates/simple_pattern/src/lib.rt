//! Simple patterns: which names a list of words with `*` and `!` accepts.
//!
//! A pattern is a list of words. `*` in a word stands for any run of characters, none too, and every
//! other character for itself; a `!` in front makes a word refuse what it matches. The first word that
//! matches a name decides, and where none matches the pattern says nothing. Such are the simple
//! patterns of Netdata's public documentation; the rule is made exact here. What matches is defined by
//! a recursion over a word and a name, of which `globs_match_part_by_part` has the laws, and `Pattern`
//! is proved to decide by just that, taking no memory. It stands on `fixed_num` for its list of words.
#![tactic(auto)]

mod cut;
mod fault;
mod glob;
mod law;
mod pattern;

pub use cut::first_word;
pub use fault::PatternFault;
pub use law::globs_match_part_by_part;
pub use pattern::{Pattern, WORD_LIMIT};
