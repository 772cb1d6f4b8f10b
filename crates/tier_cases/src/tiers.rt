//! The tests of `beat_tiers`: points, records, floors and kept beats, by hand and against plain lists.

ghost use Rattle.std.specs.Prelude.{◌≡◌, ◌≤◌};

use beat_tiers::{BeatPoint, KeptBeat, KeptPoint, Tiers};
use fixed_num::{Frac, Record, Units};
use std::alloc::{AllocError, Global};
use std::process::Abort;
use std::test::Fail;
use storage_number::pack;
use tier_rollup::{Point, PointList};
use tier_settings::Tier;

mod floors;
mod form;
mod plain;
mod random;
mod records;
mod restored;

/// How many ten-millionths one has.
const ONE: Units = 10_000_000;

fn tier(width: u32, items: u32, extents: u32) -> Tier
    ensures width { result.width ≡ width }
    ensures items { result.items ≡ items }
    ensures extents { result.extents ≡ extents }
{
    Tier {
        width,
        items,
        extents,
    }
}

/// The storage number of a whole number.
fn word(value: i32) -> u32 {
    pack(
        Frac {
            num: Units::from(value),
            den: 1,
        },
        false,
        false,
    )
}

fn point(series: u32, value: i32) -> BeatPoint {
    BeatPoint {
        series,
        step: 1,
        word: word(value),
    }
}

/// The record of whole numbers.
fn record(min: i32, max: i32, sum: i32, count: u32) -> Record {
    Record {
        min: Units::from(min) * ONE,
        max: Units::from(max) * ONE,
        sum: Units::from(sum) * ONE,
        count,
        anomalies: 0,
    }
}

/// Takes the memory for a beat, and then the beat.
fn add(tiers: &mut Tiers, moment: Option<u32>, points: &[BeatPoint]) -> Result<(), AllocError> {
    tiers.reserve(moment, points)?;
    tiers.take(moment, points);
    Ok(())
}

/// Takes a beat of one point at each of these moments.
fn take_each(tiers: &mut Tiers, moments: &[u32]) -> Result<(), AllocError> {
    for moment in moments {
        add(tiers, Some(*moment), [point(0, 1)].as_slice())?;
    }
    Ok(())
}

/// Checks the moments of the points of series 0.
fn check_moments(
    rt: &impl Abort,
    tiers: &Tiers,
    from: u32,
    to: u32,
    moments: &[u32],
) -> Result<(), Fail> {
    let points = tiers.points(0, from, to)?;
    assert_eq!(rt; points.len(), moments.len());
    for (point, moment) in points.as_slice().iter().zip(moments) {
        assert_eq!(rt; point.moment, *moment);
        assert_eq!(rt; point.word, word(1));
    }
    Ok(())
}
