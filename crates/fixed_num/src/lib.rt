//! The plain values that every crate of the agent shares: texts, lists and exact numbers.
//!
//! A `Text` is seen by contracts as its bytes, and a `ListOf<T>` as the list of its items, so that a
//! struct which holds them is compared by what it says and never by where its memory lies. Both stand
//! on std's `String` and `Vec`, are made from one, and give it back without taking memory.
//!
//! A number is a count of ten-millionths. Rounding, products and quotients are exact: the nearest
//! whole number, and on a tie the even one. What is written of a number is its exact text, and is read
//! back as that number. No call but those that grow a text or a list takes memory.
#![tactic(auto)]

mod list;
mod rounding;
mod text;
mod units;
mod units_text;

pub use list::{ByteList, ListOf, WordsList};
pub use rounding::{Frac, round_half_even};
pub use text::Text;
pub use units::{LIMIT, NumberFault, Record, Units, div, mul};
pub use units_text::{read_digits, read_units, write_units};
