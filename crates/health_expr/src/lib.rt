//! The expressions of health alarms: what a text says, and what it is worth.
//!
//! An expression has numbers, names of variables, prefixes, operators that bind more or less tightly,
//! and choices. `specs/Words.antt` says what its words are, `specs/Grammar.antt` which tree they are or
//! which word does not fit, and `specs/Tree.antt` what a tree is worth, by the rules of arithmetic,
//! truth and comparison in `specs/Arithmetic.antt`. A value is a number of ten-millionths, an infinity
//! on either side, or nan.
//!
//! `Expr::read` is proved to read just the texts of the grammar, each as its tree, and to tell the first
//! fault of any other; `Expr::eval` is proved to give what a tree is worth for any variables. `eval`
//! takes no memory and returns on every tree.
//!
//! Two laws say of the grammar that it is the language. By `text_reads_as_it_spells` a text is read as
//! a tree just where it spells it by the forms of the language (`specs/Spelling.antt`: a sum is a sum,
//! `+` or `-`, and a product), at most 64 levels holding any place. A fault is told just where the
//! words before it begin a spelling and no spelling goes on with its word, or where that word is too
//! deep or its number too wide (`specs/Faults.antt`). By `tree_text_reads_back` the text of a tree,
//! with parentheses only where they are needed, is read as that tree.
//!
//! Such are the expressions of alarms in Netdata's public documentation; the rules are made exact here.
//! It stands on `fixed_num` for numbers and texts.
#![tactic(auto)]

mod arithmetic;
mod build;
mod cursor;
mod expr;
mod fault;
mod law;
mod operator;
mod parser;
mod value;
mod word;

pub use expr::Expr;
pub use fault::ExprFault;
pub use law::{levels_depend_on_earlier_kinds, text_reads_as_it_spells, tree_text_reads_back};
pub use operator::{Operator, Prefix};
pub use value::{Value, Vars};
