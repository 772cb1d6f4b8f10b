ghost use Rattle.std.specs.Prelude.{◌≤◌};

use super::plain::{
    Plain, SERIES, plain_floor, plain_next, plain_points, plain_record, points_in, word_in,
};
use super::*;

/// The next number of a linear congruential generator.
fn next(state: &mut u32) -> u32 {
    *state = state.wrapping_mul(1_664_525).wrapping_add(1_013_904_223);
    *state >> 16
}

/// A word of one of a few values, or none.
fn random_word(state: &mut u32) -> Option<u32> {
    match next(state) % 4 {
        0 => None,
        1 => Some(word(5)),
        2 => Some(word(-7)),
        _ => Some(word(0)),
    }
}

/// A beat behind a moment, mostly seconds later and at times hours.
fn random_beat(state: &mut u32, last: u32) -> Plain {
    let later = match next(state) % 8 {
        0 => 7_300,
        1 => 61,
        other => other,
    };
    let words = if next(state) % 4 == 0 {
        [None, None, None]
    } else {
        [random_word(state), random_word(state), random_word(state)]
    };
    Plain {
        moment: last.saturating_add(later),
        words,
    }
}

/// The tiers take a beat.
fn take(alloc: Global, tiers: &mut Tiers, beat: &Plain) -> Result<(), AllocError> {
    let mut points = Vec::new(alloc);
    for series in SERIES {
        if let Some(word) = word_in(beat, series) {
            points.push(BeatPoint {
                series,
                step: 1,
                word,
            })?;
        }
    }
    add(tiers, Some(beat.moment), points.as_slice())
}

/// Checks the points at or above the floor.
fn check_points(
    rt: &impl Abort,
    alloc: Global,
    tiers: &Tiers,
    beats: &[Plain],
    floor: u32,
) -> Result<(), Fail> {
    let last = tiers.last();
    for series in SERIES {
        let all = plain_points(alloc, beats, series, floor, last)?;
        assert_eq!(rt; tiers.points(series, 0, last)?.as_slice(), all.as_slice());
        let from = last.saturating_sub(70).max(floor);
        let to = last.saturating_sub(1);
        let some = plain_points(alloc, beats, series, from, to)?;
        assert_eq!(rt; tiers.points(series, from, to)?.as_slice(), some.as_slice());
    }
    Ok(())
}

/// The points of a beat, as they are kept.
fn kept_points(alloc: Global, beat: &Plain) -> Result<Vec<KeptPoint>, AllocError> {
    let mut points = Vec::new(alloc);
    for series in SERIES {
        if let Some(word) = word_in(beat, series) {
            points.push(KeptPoint { series, word })?;
        }
    }
    Ok(points)
}

/// Checks a kept beat.
fn check_beat(rt: &impl Abort, alloc: Global, kept: &KeptBeat, beat: &Plain) -> Result<(), Fail> {
    let points = kept_points(alloc, beat)?;
    assert_eq!(rt; kept.moment, beat.moment);
    assert_eq!(rt; kept.points.as_slice(), points.as_slice());
    Ok(())
}

/// Checks the kept beats, and how many came before them.
fn check_kept(
    rt: &impl Abort,
    alloc: Global,
    tiers: &Tiers,
    beats: &[Plain],
    floor: u32,
) -> Result<(), Fail> {
    let kept = tiers.kept()?;
    let mut before: u64 = 0;
    let mut found: usize = 0;
    for beat in beats {
        let count = points_in(beat);
        if count > 0 && beat.moment < floor {
            before = before.saturating_add(1);
        } else if count > 0 {
            let Some(one) = kept.beats.as_slice().get(found) else {
                return Err(Fail::from("a kept beat is left out"));
            };
            check_beat(rt, alloc, one, beat)?;
            found = found.saturating_add(1);
        }
    }
    assert_eq!(rt; kept.before, before);
    assert_eq!(rt; kept.beats.len(), found);
    Ok(())
}

/// Checks the kept beats above a moment, at most so many of them.
fn check_above(rt: &impl Abort, tiers: &Tiers, from: u32, most: usize) -> Result<(), Fail> {
    let kept = tiers.kept()?;
    let above = tiers.kept_above(from, most)?;
    let mut found: usize = 0;
    for beat in kept.beats.as_slice() {
        if beat.moment > from && found < most {
            let Some(one) = above.as_slice().get(found) else {
                return Err(Fail::from("a beat above is left out"));
            };
            assert_eq!(rt; one.moment, beat.moment);
            assert_eq!(rt; one.points.as_slice(), beat.points.as_slice());
            found = found.saturating_add(1);
        }
    }
    assert_eq!(rt; above.len(), found);
    Ok(())
}

/// Checks the kept beats above each moment, and above one before it.
fn check_above_each(rt: &impl Abort, tiers: &Tiers, beats: &[Plain]) -> Result<(), Fail> {
    for beat in beats {
        for most in [0, 1, 2, 99] {
            check_above(rt, tiers, beat.moment, most)?;
            check_above(rt, tiers, beat.moment.saturating_sub(1), most)?;
        }
    }
    Ok(())
}

/// Checks the records of a bucket.
fn check_bucket(
    rt: &impl Abort,
    tiers: &Tiers,
    beats: &[Plain],
    number: u8,
    width: u32,
    bucket: u32,
) {
    let above = bucket.saturating_mul(width) >= tiers.floor(number);
    for series in SERIES {
        let kept = tiers.record_of(number, series, bucket);
        if above {
            assert_eq!(rt; kept, plain_record(beats, width, bucket, series));
        } else {
            assert_eq!(rt; kept, None);
        }
    }
}

/// Checks the first records of a tier from a bucket on, and of the few buckets there.
fn check_next(rt: &impl Abort, tiers: &Tiers, beats: &[Plain], number: u8, width: u32, from: u32) {
    let floor = tiers.floor(number);
    for series in SERIES {
        for to in [from, from.saturating_add(2), u32::MAX] {
            assert_eq!(rt;
                tiers.next_record(number, series, from, to),
                plain_next(beats, width, floor, series, from, to)
            );
        }
    }
}

/// Checks the records of each beat's bucket, and of the one behind it.
fn check_buckets(rt: &impl Abort, tiers: &Tiers, beats: &[Plain], number: u8, width: u32) {
    for beat in beats {
        let bucket = beat.moment.checked_div(width).unwrap_or(0);
        check_bucket(rt, tiers, beats, number, width, bucket);
        check_bucket(rt, tiers, beats, number, width, bucket.saturating_add(1));
    }
}

/// Checks a tier's floor and its records.
fn check_tier(
    rt: &impl Abort,
    alloc: Global,
    tiers: &Tiers,
    beats: &[Plain],
    number: u8,
    tier: Tier,
) -> Result<(), Fail> {
    assert_eq!(rt;
        tiers.floor(number),
        plain_floor(alloc, number, tier, beats)?
    );
    if number == 0 {
        return Ok(());
    }
    check_buckets(rt, tiers, beats, number, tier.width);
    let last = tiers.last().checked_div(tier.width).unwrap_or(0);
    for back in 0..8 {
        let from = last.saturating_sub(back);
        check_next(rt, tiers, beats, number, tier.width, from);
    }
    check_next(rt, tiers, beats, number, tier.width, 0);
    Ok(())
}

/// Compares what is kept with what all beats say.
fn check(
    rt: &impl Abort,
    alloc: Global,
    tiers: &Tiers,
    beats: &[Plain],
    settings: [Tier; 3],
) -> Result<(), Fail> {
    let [first, minute, hour] = settings;
    check_tier(rt, alloc, tiers, beats, 0, first)?;
    check_tier(rt, alloc, tiers, beats, 1, minute)?;
    check_tier(rt, alloc, tiers, beats, 2, hour)?;
    check_points(rt, alloc, tiers, beats, tiers.floor(0))?;
    check_kept(rt, alloc, tiers, beats, tiers.floor(0))
}

/// Takes some beats, of which some have no moment, and compares what is kept after each.
fn run(
    rt: &impl Abort,
    alloc: Global,
    seed: u32,
    count: u32,
    first: Tier,
    minute: Tier,
    hour: Tier,
) -> Result<(), Fail>
    requires first { 1 ≤ first.width × 1 ≤ first.items × 1 ≤ first.extents }
    requires minute { 1 ≤ minute.width × 1 ≤ minute.items × 1 ≤ minute.extents }
    requires hour { 1 ≤ hour.width × 1 ≤ hour.items × 1 ≤ hour.extents }
{
    let mut state = seed;
    let mut beats = Vec::new(alloc);
    let mut tiers = Tiers::new(alloc, first, [minute, hour].as_slice())?;
    for _ in 0..count {
        let beat = random_beat(&mut state, tiers.last());
        take(alloc, &mut tiers, &beat)?;
        beats.push(beat)?;
        if next(&mut state) % 4 == 0 {
            add(&mut tiers, None, [].as_slice())?;
        }
        check(rt, alloc, &tiers, beats.as_slice(), [first, minute, hour])?;
    }
    check_above_each(rt, &tiers, beats.as_slice())
}

#[test]
fn fifty_beats(rt: HostRuntime) -> Result<(), Fail> {
    let minute = tier(60, 2, 1);
    run(
        &rt,
        rt.alloc(),
        7,
        50,
        tier(1, 3, 2),
        minute,
        tier(3_600, 1, 2),
    )
}

#[test]
fn fifty_beats_with_small_quotas(rt: HostRuntime) -> Result<(), Fail> {
    let minute = tier(5, 1, 3);
    run(
        &rt,
        rt.alloc(),
        4_711,
        50,
        tier(1, 1, 1),
        minute,
        tier(60, 1, 1),
    )
}

#[test]
fn fifty_beats_with_large_quotas(rt: HostRuntime) -> Result<(), Fail> {
    let hour = tier(3_600, 5, 5);
    run(&rt, rt.alloc(), 99, 50, tier(1, 7, 5), tier(60, 9, 7), hour)
}

/// A quota from 1 to 5.
fn quota(number: u32) -> u32
    ensures { 1 ≤ result }
{
    1 + number % 5
}

#[test]
fn three_hundred_short_histories(rt: HostRuntime) -> Result<(), Fail> {
    for seed in 0..300 {
        let first = tier(1, quota(seed), quota(seed / 5));
        let minute = tier(60, quota(seed / 25), quota(seed / 2));
        let hour = tier(3_600, quota(seed / 3), quota(seed / 7));
        run(&rt, rt.alloc(), seed * 7_919, 14, first, minute, hour)?;
    }
    Ok(())
}
