//! Until when telling a change of status waits.
ghost use Rattle.std.specs.Prelude.{◌≡◌};
ghost use Rattle.health_config.specs.Entity.{alarm_of};
ghost use Rattle.alarm_core.specs.Delay as spec;

use alarm_events::{Delay, Status};
use fixed_num::Units;
use health_config::Entity;

/// How many ten-millionths one has.
const ONE: u128 = 10_000_000;

/// So many seconds times a multiplier, cut to whole seconds.
fn grown(multiplier: Units, seconds: u32) -> u32
    ensures { result ≡ spec.grown multiplier seconds }
{
    match multiplier.unsigned_abs().checked_mul(u128::from(seconds)) {
        Some(product) => (product / ONE).min(u128::from(u32::MAX)) as u32,
        None => u32::MAX,
    }
}

/// The longest delay of an alarm.
fn longest(alarm: &Entity) -> u32
    ensures { result ≡ spec.longest (alarm_of alarm.now) }
{
    match alarm.max {
        Some(max) => max,
        None => grown(alarm.multiplier, alarm.up).max(grown(alarm.multiplier, alarm.down)),
    }
}

/// How long a rise waits.
fn next_up(alarm: &Entity, before: Option<Delay>, moment: u32) -> u32
    ensures { result ≡ spec.next_up (alarm_of alarm.now) before moment }
{
    let up = match before {
        Some(delay) if moment <= delay.due => grown(alarm.multiplier, delay.up),
        _ => alarm.up,
    };
    up.min(longest(alarm))
}

/// How long a fall waits.
fn next_down(alarm: &Entity, before: Option<Delay>, moment: u32) -> u32
    ensures { result ≡ spec.next_down (alarm_of alarm.now) before moment }
{
    let down = match before {
        Some(delay) if moment <= delay.due => grown(alarm.multiplier, delay.down),
        _ => alarm.down,
    };
    down.min(longest(alarm))
}

/// Whether a change of status has a due moment.
fn is_due(alarm: &Entity, old: Status, new: Status) -> bool
    ensures { result ≡ spec.is_due (alarm_of alarm.now) old new }
{
    new.is_raised() || (new == Status::Clear && old.is_raised() && !alarm.no_clear)
}

/// The delay of a change of status at a moment, where it is one that is told, by the delay of the alarm
/// before.
pub fn new_delay(
    alarm: &Entity,
    before: Option<Delay>,
    moment: u32,
    old: Status,
    new: Status,
) -> Option<Delay>
    ensures { result ≡ spec.new_delay (alarm_of alarm.now) before moment old new }
{
    if !is_due(alarm, old, new) {
        return None;
    }
    let up = next_up(alarm, before, moment);
    let down = next_down(alarm, before, moment);
    let wait = if old.number() < new.number() {
        up
    } else {
        down
    };
    Some(Delay {
        up,
        down,
        due: moment.saturating_add(wait),
    })
}
