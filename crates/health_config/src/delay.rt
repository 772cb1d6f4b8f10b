//! How the events of an alarm are delayed.
ghost use Rattle.std.specs.Prelude.{◌≡◌};
ghost use Rattle.health_config.specs.Delay as spec;

use crate::fault::ValueFault;
use crate::number::{LONGEST_DURATION, duration, multiplier};
use fixed_num::Units;
use simple_pattern::first_word;

/// What a `delay` gives: durations in seconds, and a number of ten-millionths.
#[derive(Clone, Copy, Debug)]
pub struct Delay {
    pub up: Option<u32>,
    pub down: Option<u32>,
    pub multiplier: Option<Units>,
    pub max: Option<u32>,
}

/// A word with its value, which may be given once.
fn with(word: &str, value: &str, delay: Delay) -> Result<Delay, ValueFault>
    ensures { result ≡ spec.with word.now value.now delay }
{
    let value = value.as_bytes();
    if word == "up" && delay.up.is_none() {
        let up = Some(duration(value, 0, LONGEST_DURATION)?);
        Ok(Delay { up, ..delay })
    } else if word == "down" && delay.down.is_none() {
        let down = Some(duration(value, 0, LONGEST_DURATION)?);
        Ok(Delay { down, ..delay })
    } else if word == "multiplier" && delay.multiplier.is_none() {
        let multiplier = Some(multiplier(value)?);
        Ok(Delay {
            multiplier,
            ..delay
        })
    } else if word == "max" && delay.max.is_none() {
        let max = Some(duration(value, 0, LONGEST_DURATION)?);
        Ok(Delay { max, ..delay })
    } else {
        Err(ValueFault::Bad)
    }
}

/// What the words of a text give, each with the one behind it.
#[tactic(auto, unfolding(crate::specs::Delay::delay))]
pub fn read_delay(text: &str) -> Result<Delay, ValueFault>
    ensures { result ≡ spec.delay text.now }
{
    let mut delay = Delay {
        up: None,
        down: None,
        multiplier: None,
        max: None,
    };
    let mut ahead = text;
    while let Some((word, rest)) = first_word(false, ahead) {
        let Some((value, rest)) = first_word(false, rest) else {
            return Err(ValueFault::Bad);
        };
        delay = with(word, value, delay)?;
        ahead = rest;
    }
    Ok(delay)
}
