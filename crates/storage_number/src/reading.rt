ghost use Rattle.std.specs.Prelude.{◌≡◌, ◌+◌, ◌*◌, ◌/◌, ◌%◌, ◌^◌, ◌<◌, Bool, pos, find, is_some, IfSome};
ghost use Rattle.fixed_num.specs.Units.{one};
ghost use Rattle.storage_number.specs.Packing.{storage_number};
ghost use Rattle.storage_number.specs.Step.{steps, IsStep};
ghost use Rattle.storage_number.specs.Word.{has_bit, is_shown_as, is_word, mantissa_in, point_of, size_in, step_in, units_in};

use crate::point::Point;
use crate::step::{self, Step};
use fixed_num::Units;

fn has_bit(word: u32, place: u32) -> bool
    requires { place < 32 }
    ensures { result ≡ has_bit word place }
{
    (word >> place) % 2 == 1
}

/// The mantissa of a word.
fn mantissa_in(word: u32) -> u32
    ensures { result ≡ mantissa_in word }
{
    word % (1 << 24)
}

/// The step that is shown in this way, if there is such a step.
#[tactic(auto, using(crate::proofs::Showing::shown), unfolding(crate::proofs::Showing::shown_place))]
fn step_shown_as(multiplies: bool, hundreds: bool, exponent: usize) -> Option<Step>
    requires { exponent < 8 }
    ensures { result ≡ find (is_shown_as multiplies hundreds exponent) steps }
{
    match (multiplies, hundreds) {
        (false, false) => step::step_at(7 - exponent),
        (true, false) if exponent > 0 => step::step_at(7 + exponent),
        (true, true) if exponent > 3 => step::step_at(11 + exponent),
        _ => None,
    }
}

/// The step that a word shows, if there is such a step.
fn step_in(word: u32) -> Option<Step>
    ensures value { result ≡ step_in word }
    ensures step { IfSome result IsStep }
{
    step_shown_as(
        has_bit(word, 30),
        has_bit(word, 26),
        (word >> 27) as usize % 8,
    )
}

/// Whether a word stands for a value.
pub fn is_word(word: u32) -> bool
    ensures { result ≡ is_word word }
{
    const ZERO_WORDS: [u32; 4] = [0x0100_0000, 0x0200_0000, 0x0300_0000, 0x0400_0000];
    ZERO_WORDS.contains(&word) || step_in(word).is_some_and(|step| step.least <= mantissa_in(word))
}

/// The size of a word's value, in ten-millionths.
fn size_in(word: u32) -> u128
    ensures value { result ≡ size_in word }
    ensures bound { result < 2 ^ 24 * 10 ^ 21 }
{
    match step_in(word) {
        Some(step) => u128::from(mantissa_in(word)) * step.units(),
        None => 0,
    }
}

/// The value of a word.
fn units_in(word: u32) -> Units
    ensures { result ≡ units_in word }
{
    let size = size_in(word) as i128;
    if has_bit(word, 31) { -size } else { size }
}

/// The value of a word with its marks, where it stands for one.
fn point_of(word: u32) -> Option<Point>
    ensures { result ≡ point_of word }
{
    if !is_word(word) {
        return None;
    }
    Some(Point {
        units: units_in(word),
        anomalous: !has_bit(word, 24),
        reset: has_bit(word, 25),
    })
}

/// The value of a word with its marks. `None` exactly where it stands for no value.
pub fn unpack(word: u32) -> Option<Point>
    ensures value { result ≡ point_of word }
    ensures variant { is_some result ≡ is_word word }

    // Packing the value gives a word of the same value, if not always the same word.
    ensures again { IfSome result (λ point. (anomalous reset : Bool)
        → units_in (storage_number point.units (pos one) anomalous reset) ≡ point.units) }
{
    point_of(word)
}
