//! The script, and the sweeps of its commands, each with how many crashes it has at the least: one for each of its calls
//! that is refused, and one where none is. A command that makes more than a thousand calls has five tests with each of
//! what a crash may keep, of a part of its calls each.

use crate::files::host_before;
use crate::places::Place;
use crate::readings::sweep_reading;
use crate::seals::third_beat;
use crate::sessions::{child, parent};
use crate::sweeps::{Part, WHOLE, sweep};
use host_model::Keep;
use std::alloc::Global;
use std::test::Fail;

/// The first calls of a command that makes more than a thousand.
const FIRST: Part = (0, 400);

/// Those behind the first, and so on.
const SECOND: Part = (400, 700);

const THIRD: Part = (700, 950);

const FOURTH: Part = (950, 1170);

/// All the rest.
const LAST: Part = (1170, u64::MAX);

/// Whether at least so many crashes of this part of a command are tried with this kept, and all are sound.
fn is_sound_part(
    alloc: Global,
    place: &Place,
    keep: Keep,
    part: Part,
    crashes: u64,
) -> Result<(), Fail> {
    let seen = sweep(alloc, place, keep, part)?;
    if seen.0 >= crashes && seen.1.is_none() {
        return Ok(());
    }
    Err(Fail::new(format!(in alloc; "{keep:?}: {seen:?}")?))
}

/// The same of all calls of the command.
fn is_sound(alloc: Global, place: &Place, keep: Keep, crashes: u64) -> Result<(), Fail> {
    is_sound_part(alloc, place, keep, WHOLE, crashes)
}

/// The same of a command of the script, behind which a beat is stored at this moment.
fn is_sound_with(
    alloc: Global,
    number: usize,
    moment: u32,
    keep: Keep,
    crashes: u64,
) -> Result<(), Fail> {
    let place = Place::of(alloc, number, moment)?;
    is_sound(alloc, &place, keep, crashes)
}

/// The same of this part of its calls.
fn is_sound_in(
    alloc: Global,
    number: usize,
    moment: u32,
    keep: Keep,
    part: Part,
    crashes: u64,
) -> Result<(), Fail> {
    let place = Place::of(alloc, number, moment)?;
    is_sound_part(alloc, &place, keep, part, crashes)
}

/// The commands of the first half that store something and make few calls: number, the moment of a beat behind it, and
/// how many crashes.
const EARLY: [(usize, u32, u64); 14] = [
    (0, 3410, 20),
    (1, 3410, 7),
    (2, 3410, 14),
    (4, 3410, 21),
    (6, 3412, 21),
    (7, 3418, 21),
    (10, 3420, 15),
    (11, 3420, 15),
    (12, 3430, 21),
    (18, 3495, 51),
    (23, 3490, 30),
    (24, 3490, 36),
    (26, 3490, 30),
    (27, 3550, 36),
];

/// Those behind them.
const MIDDLE: [(usize, u32, u64); 4] = [
    (29, 3610, 36),
    (31, 3610, 64),
    (34, 3616, 61),
    (38, 3626, 67),
];

/// Those behind these.
const LATE: [(usize, u32, u64); 5] = [
    (40, 3729, 97),
    (42, 3788, 71),
    (43, 3795, 60),
    (44, 3849, 60),
    (49, 7209, 83),
];

/// The same of each of these commands.
fn are_sound(alloc: Global, commands: &[(usize, u32, u64)], keep: Keep) -> Result<(), Fail> {
    for (number, moment, crashes) in commands {
        is_sound_with(alloc, *number, *moment, keep, *crashes)?;
    }
    Ok(())
}

/// The commands of the first half that store nothing, each with a moment behind all that are there.
const EARLY_READINGS: [(usize, u32); 16] = [
    (3, 3410),
    (5, 3412),
    (8, 3420),
    (9, 3420),
    (13, 3495),
    (14, 3495),
    (15, 3495),
    (16, 3495),
    (17, 3495),
    (19, 3490),
    (20, 3490),
    (21, 3490),
    (22, 3490),
    (25, 3490),
    (28, 3610),
    (30, 3610),
];

/// Those of the second half.
const LATE_READINGS: [(usize, u32); 17] = [
    (32, 3616),
    (33, 3616),
    (35, 3619),
    (36, 3619),
    (39, 3729),
    (41, 3788),
    (45, 3855),
    (47, 7209),
    (48, 7209),
    (50, 7275),
    (51, 7275),
    (53, 7340),
    (54, 7340),
    (55, 7340),
    (56, 7340),
    (57, 7340),
    (58, 7340),
];

/// How many crashes of a command that stores nothing are tried, if all leave what was there.
fn unchanged_by(alloc: Global, number: usize, moment: u32, keep: Keep) -> Result<u64, Fail> {
    let place = Place::of(alloc, number, moment)?;
    match sweep_reading(alloc, &place, keep)? {
        (crashes, None) => Ok(crashes),
        seen => Err(Fail::new(format!(in alloc; "{number} {keep:?}: {seen:?}")?)),
    }
}

/// Whether at least so many crashes of these commands are tried with this kept, and all leave what was there.
fn are_unchanged(
    alloc: Global,
    readings: &[(usize, u32)],
    keep: Keep,
    least: u64,
) -> Result<(), Fail> {
    let mut crashes = 0u64;
    for (number, moment) in readings {
        crashes = crashes.saturating_add(unchanged_by(alloc, *number, *moment, keep)?);
    }
    if crashes >= least {
        return Ok(());
    }
    Err(Fail::new(format!(in alloc; "{keep:?}: {crashes}")?))
}

#[test]
fn the_early_readings_keep_all(rt: HostRuntime) -> Result<(), Fail> {
    are_unchanged(rt.alloc(), EARLY_READINGS.as_slice(), Keep::All, 100)
}

#[test]
fn the_early_readings_keep_none(rt: HostRuntime) -> Result<(), Fail> {
    are_unchanged(rt.alloc(), EARLY_READINGS.as_slice(), Keep::None, 100)
}

#[test]
fn the_early_readings_fill(rt: HostRuntime) -> Result<(), Fail> {
    are_unchanged(rt.alloc(), EARLY_READINGS.as_slice(), Keep::Fill(255), 100)
}

#[test]
fn the_late_readings_keep_all(rt: HostRuntime) -> Result<(), Fail> {
    are_unchanged(rt.alloc(), LATE_READINGS.as_slice(), Keep::All, 100)
}

#[test]
fn the_late_readings_keep_none(rt: HostRuntime) -> Result<(), Fail> {
    are_unchanged(rt.alloc(), LATE_READINGS.as_slice(), Keep::None, 100)
}

#[test]
fn the_late_readings_fill(rt: HostRuntime) -> Result<(), Fail> {
    are_unchanged(rt.alloc(), LATE_READINGS.as_slice(), Keep::Fill(255), 100)
}

#[test]
fn each_command_of_the_script_ends_as_it_should(rt: HostRuntime) -> Result<(), Fail> {
    host_before(rt.alloc(), 59)?;
    Ok(())
}

#[test]
fn the_child_of_the_session_keeps_all(rt: HostRuntime) -> Result<(), Fail> {
    is_sound(rt.alloc(), &child(rt.alloc())?, Keep::All, 10)
}

#[test]
fn the_child_of_the_session_keeps_none(rt: HostRuntime) -> Result<(), Fail> {
    is_sound(rt.alloc(), &child(rt.alloc())?, Keep::None, 10)
}

#[test]
fn the_child_of_the_session_fills(rt: HostRuntime) -> Result<(), Fail> {
    is_sound(rt.alloc(), &child(rt.alloc())?, Keep::Fill(255), 10)
}

#[test]
fn its_parent_keeps_all(rt: HostRuntime) -> Result<(), Fail> {
    is_sound(rt.alloc(), &parent(rt.alloc())?, Keep::All, 45)
}

#[test]
fn its_parent_keeps_none(rt: HostRuntime) -> Result<(), Fail> {
    is_sound(rt.alloc(), &parent(rt.alloc())?, Keep::None, 45)
}

#[test]
fn its_parent_fills(rt: HostRuntime) -> Result<(), Fail> {
    is_sound(rt.alloc(), &parent(rt.alloc())?, Keep::Fill(255), 45)
}

#[test]
fn a_beat_that_seals_keeps_all(rt: HostRuntime) -> Result<(), Fail> {
    is_sound(rt.alloc(), &third_beat(rt.alloc())?, Keep::All, 502)
}

#[test]
fn a_beat_that_seals_keeps_none(rt: HostRuntime) -> Result<(), Fail> {
    is_sound(rt.alloc(), &third_beat(rt.alloc())?, Keep::None, 502)
}

#[test]
fn a_beat_that_seals_fills(rt: HostRuntime) -> Result<(), Fail> {
    is_sound(rt.alloc(), &third_beat(rt.alloc())?, Keep::Fill(255), 502)
}

#[test]
fn the_early_commands_keep_all(rt: HostRuntime) -> Result<(), Fail> {
    are_sound(rt.alloc(), EARLY.as_slice(), Keep::All)
}

#[test]
fn the_early_commands_keep_none(rt: HostRuntime) -> Result<(), Fail> {
    are_sound(rt.alloc(), EARLY.as_slice(), Keep::None)
}

#[test]
fn the_early_commands_fill(rt: HostRuntime) -> Result<(), Fail> {
    are_sound(rt.alloc(), EARLY.as_slice(), Keep::Fill(255))
}

#[test]
fn the_middle_commands_keep_all(rt: HostRuntime) -> Result<(), Fail> {
    are_sound(rt.alloc(), MIDDLE.as_slice(), Keep::All)
}

#[test]
fn the_middle_commands_keep_none(rt: HostRuntime) -> Result<(), Fail> {
    are_sound(rt.alloc(), MIDDLE.as_slice(), Keep::None)
}

#[test]
fn the_middle_commands_fill(rt: HostRuntime) -> Result<(), Fail> {
    are_sound(rt.alloc(), MIDDLE.as_slice(), Keep::Fill(255))
}

#[test]
fn the_late_commands_keep_all(rt: HostRuntime) -> Result<(), Fail> {
    are_sound(rt.alloc(), LATE.as_slice(), Keep::All)
}

#[test]
fn the_late_commands_keep_none(rt: HostRuntime) -> Result<(), Fail> {
    are_sound(rt.alloc(), LATE.as_slice(), Keep::None)
}

#[test]
fn the_late_commands_fill(rt: HostRuntime) -> Result<(), Fail> {
    are_sound(rt.alloc(), LATE.as_slice(), Keep::Fill(255))
}

#[test]
fn command_37_keeps_all(rt: HostRuntime) -> Result<(), Fail> {
    is_sound_with(rt.alloc(), 37, 3619, Keep::All, 525)
}

#[test]
fn command_37_keeps_none(rt: HostRuntime) -> Result<(), Fail> {
    is_sound_with(rt.alloc(), 37, 3619, Keep::None, 525)
}

#[test]
fn command_37_fills(rt: HostRuntime) -> Result<(), Fail> {
    is_sound_with(rt.alloc(), 37, 3619, Keep::Fill(255), 525)
}

#[test]
fn command_46_keeps_all_first(rt: HostRuntime) -> Result<(), Fail> {
    is_sound_in(rt.alloc(), 46, 3855, Keep::All, FIRST, 400)
}

#[test]
fn command_46_keeps_all_second(rt: HostRuntime) -> Result<(), Fail> {
    is_sound_in(rt.alloc(), 46, 3855, Keep::All, SECOND, 300)
}

#[test]
fn command_46_keeps_all_third(rt: HostRuntime) -> Result<(), Fail> {
    is_sound_in(rt.alloc(), 46, 3855, Keep::All, THIRD, 250)
}

#[test]
fn command_46_keeps_all_fourth(rt: HostRuntime) -> Result<(), Fail> {
    is_sound_in(rt.alloc(), 46, 3855, Keep::All, FOURTH, 220)
}

#[test]
fn command_46_keeps_all_last(rt: HostRuntime) -> Result<(), Fail> {
    is_sound_in(rt.alloc(), 46, 3855, Keep::All, LAST, 194)
}

#[test]
fn command_46_keeps_none_first(rt: HostRuntime) -> Result<(), Fail> {
    is_sound_in(rt.alloc(), 46, 3855, Keep::None, FIRST, 400)
}

#[test]
fn command_46_keeps_none_second(rt: HostRuntime) -> Result<(), Fail> {
    is_sound_in(rt.alloc(), 46, 3855, Keep::None, SECOND, 300)
}

#[test]
fn command_46_keeps_none_third(rt: HostRuntime) -> Result<(), Fail> {
    is_sound_in(rt.alloc(), 46, 3855, Keep::None, THIRD, 250)
}

#[test]
fn command_46_keeps_none_fourth(rt: HostRuntime) -> Result<(), Fail> {
    is_sound_in(rt.alloc(), 46, 3855, Keep::None, FOURTH, 220)
}

#[test]
fn command_46_keeps_none_last(rt: HostRuntime) -> Result<(), Fail> {
    is_sound_in(rt.alloc(), 46, 3855, Keep::None, LAST, 194)
}

#[test]
fn command_46_fills_first(rt: HostRuntime) -> Result<(), Fail> {
    is_sound_in(rt.alloc(), 46, 3855, Keep::Fill(255), FIRST, 400)
}

#[test]
fn command_46_fills_second(rt: HostRuntime) -> Result<(), Fail> {
    is_sound_in(rt.alloc(), 46, 3855, Keep::Fill(255), SECOND, 300)
}

#[test]
fn command_46_fills_third(rt: HostRuntime) -> Result<(), Fail> {
    is_sound_in(rt.alloc(), 46, 3855, Keep::Fill(255), THIRD, 250)
}

#[test]
fn command_46_fills_fourth(rt: HostRuntime) -> Result<(), Fail> {
    is_sound_in(rt.alloc(), 46, 3855, Keep::Fill(255), FOURTH, 220)
}

#[test]
fn command_46_fills_last(rt: HostRuntime) -> Result<(), Fail> {
    is_sound_in(rt.alloc(), 46, 3855, Keep::Fill(255), LAST, 194)
}

#[test]
fn command_52_keeps_all_first(rt: HostRuntime) -> Result<(), Fail> {
    is_sound_in(rt.alloc(), 52, 7275, Keep::All, FIRST, 400)
}

#[test]
fn command_52_keeps_all_second(rt: HostRuntime) -> Result<(), Fail> {
    is_sound_in(rt.alloc(), 52, 7275, Keep::All, SECOND, 300)
}

#[test]
fn command_52_keeps_all_third(rt: HostRuntime) -> Result<(), Fail> {
    is_sound_in(rt.alloc(), 52, 7275, Keep::All, THIRD, 250)
}

#[test]
fn command_52_keeps_all_fourth(rt: HostRuntime) -> Result<(), Fail> {
    is_sound_in(rt.alloc(), 52, 7275, Keep::All, FOURTH, 220)
}

#[test]
fn command_52_keeps_all_last(rt: HostRuntime) -> Result<(), Fail> {
    is_sound_in(rt.alloc(), 52, 7275, Keep::All, LAST, 194)
}

#[test]
fn command_52_keeps_none_first(rt: HostRuntime) -> Result<(), Fail> {
    is_sound_in(rt.alloc(), 52, 7275, Keep::None, FIRST, 400)
}

#[test]
fn command_52_keeps_none_second(rt: HostRuntime) -> Result<(), Fail> {
    is_sound_in(rt.alloc(), 52, 7275, Keep::None, SECOND, 300)
}

#[test]
fn command_52_keeps_none_third(rt: HostRuntime) -> Result<(), Fail> {
    is_sound_in(rt.alloc(), 52, 7275, Keep::None, THIRD, 250)
}

#[test]
fn command_52_keeps_none_fourth(rt: HostRuntime) -> Result<(), Fail> {
    is_sound_in(rt.alloc(), 52, 7275, Keep::None, FOURTH, 220)
}

#[test]
fn command_52_keeps_none_last(rt: HostRuntime) -> Result<(), Fail> {
    is_sound_in(rt.alloc(), 52, 7275, Keep::None, LAST, 194)
}

#[test]
fn command_52_fills_first(rt: HostRuntime) -> Result<(), Fail> {
    is_sound_in(rt.alloc(), 52, 7275, Keep::Fill(255), FIRST, 400)
}

#[test]
fn command_52_fills_second(rt: HostRuntime) -> Result<(), Fail> {
    is_sound_in(rt.alloc(), 52, 7275, Keep::Fill(255), SECOND, 300)
}

#[test]
fn command_52_fills_third(rt: HostRuntime) -> Result<(), Fail> {
    is_sound_in(rt.alloc(), 52, 7275, Keep::Fill(255), THIRD, 250)
}

#[test]
fn command_52_fills_fourth(rt: HostRuntime) -> Result<(), Fail> {
    is_sound_in(rt.alloc(), 52, 7275, Keep::Fill(255), FOURTH, 220)
}

#[test]
fn command_52_fills_last(rt: HostRuntime) -> Result<(), Fail> {
    is_sound_in(rt.alloc(), 52, 7275, Keep::Fill(255), LAST, 194)
}
