//! Storage numbers: the 32-bit words that the values of all series are kept as.
//!
//! A word has a sign, one of nineteen steps from 10^-7 to 10^14, a mantissa of 24 bits, and two marks:
//! anomalous, and reset. A fraction is packed once, at the first step at which its nearest mantissa is
//! at most 16,777,215, and ties go to the even mantissa. The word then reads as a value that is at most
//! half a step away; beyond the last step it is the greatest one. A word of 0 is no word, so that an
//! empty place can be told from a value. The layout is this project's own, after the outline of
//! Netdata's storage numbers.
//!
//! The table of steps is what the contracts search. The code computes the place in it from the decimal
//! digits of one quotient. The crate stands on the exact rounding of `fixed_num`; no call takes memory.
#![tactic(auto)]

mod packing;
mod point;
mod reading;
mod step;

pub use packing::pack;
pub use point::Point;
pub use reading::{is_word, unpack};
