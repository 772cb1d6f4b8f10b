//! What all beats of a history say, by plain lists of them.

use super::*;
use fixed_num::Record;
use query_engine::{Point, PointList};

/// How many ten-millionths one has.
const ONE: Units = 10_000_000;

/// A beat with the values of series 0, 1 and 2.
#[derive(Drop)]
pub(super) struct Plain {
    pub(super) moment: u32,
    pub(super) values: [Option<i32>; 3],
}

pub(super) const SERIES: [u32; 3] = [0, 1, 2];

/// The value of a series.
pub(super) fn value_in(beat: &Plain, series: u32) -> Option<i32> {
    let [first, second, third] = beat.values;
    match series {
        0 => first,
        1 => second,
        2 => third,
        _ => None,
    }
}

/// The points of a series from a moment on that are at or above a floor.
pub(super) fn plain_points(
    alloc: Global,
    beats: &[Plain],
    floor: u32,
    series: u32,
    from: u32,
) -> Result<PointList, AllocError> {
    let mut points = PointList::new(alloc);
    for beat in beats {
        if let Some(value) = value_in(beat, series) {
            if floor <= beat.moment && from <= beat.moment {
                points.push(Point {
                    moment: beat.moment,
                    word: word(value),
                })?;
            }
        }
    }
    Ok(points)
}

/// The record with one more value.
fn joined(before: Option<Record>, units: Units) -> Record {
    let one = Record {
        min: units,
        max: units,
        sum: units,
        count: 1,
        anomalies: 0,
    };
    match before {
        None => one,
        Some(before) => Record {
            min: before.min.min(units),
            max: before.max.max(units),
            sum: before.sum.saturating_add(units),
            count: before.count.saturating_add(1),
            anomalies: 0,
        },
    }
}

/// The record of a bucket over all beats.
fn record_in(beats: &[Plain], width: u32, series: u32, bucket: u32) -> Option<Record> {
    let mut record = None;
    for beat in beats {
        if beat.moment.checked_div(width) == Some(bucket) {
            if let Some(value) = value_in(beat, series) {
                record = Some(joined(record, Units::from(value) * ONE));
            }
        }
    }
    record
}

/// The record of a bucket, if the bucket starts at or above a floor.
pub(super) fn plain_record(
    beats: &[Plain],
    width: u32,
    floor: u32,
    series: u32,
    bucket: u32,
) -> Option<Record> {
    if bucket.saturating_mul(width) < floor {
        return None;
    }
    record_in(beats, width, series, bucket)
}

/// The first bucket from one on that starts at or above a floor and has a record, and that record.
pub(super) fn plain_next(
    beats: &[Plain],
    width: u32,
    floor: u32,
    series: u32,
    from: u32,
) -> Option<(u32, Record)> {
    for beat in beats {
        let bucket = beat.moment.checked_div(width).unwrap_or(0);
        if from <= bucket {
            if let Some(record) = plain_record(beats, width, floor, series, bucket) {
                return Some((bucket, record));
            }
        }
    }
    None
}

/// How many points a beat has.
pub(super) fn points_in(beat: &Plain) -> u32 {
    let mut count: u32 = 0;
    for series in SERIES {
        if value_in(beat, series).is_some() {
            count = count.saturating_add(1);
        }
    }
    count
}

/// How many records close at a moment behind these beats.
fn closing(beats: &[Plain], width: u32, moment: u32) -> u32 {
    let Some(last) = beats.last() else {
        return 0;
    };
    let bucket = last.moment.checked_div(width);
    if bucket == moment.checked_div(width) {
        return 0;
    }
    let mut count: u32 = 0;
    for series in SERIES {
        if record_in(beats, width, series, bucket.unwrap_or(0)).is_some() {
            count = count.saturating_add(1);
        }
    }
    count
}

/// The moments at which the segments of a tier of so many seconds were sealed.
fn cuts(alloc: Global, width: u32, items: u32, beats: &[Plain]) -> Result<Vec<u32>, AllocError> {
    let mut sealed = Vec::new(alloc);
    let mut since: u32 = 0;
    for (place, beat) in beats.iter().enumerate() {
        let added = if width == 1 {
            points_in(beat)
        } else {
            let (before, _) = beats.split_at(place);
            closing(before, width, beat.moment)
        };
        since = since.saturating_add(added);
        if since >= items {
            sealed.push(beat.moment)?;
            since = 0;
        }
    }
    Ok(sealed)
}

/// The floor of a tier of so many seconds, with these items and segments, over all beats.
pub(super) fn plain_floor(
    alloc: Global,
    width: u32,
    quota: (u32, u32),
    beats: &[Plain],
) -> Result<u32, AllocError> {
    let (items, extents) = quota;
    let sealed = cuts(alloc, width, items, beats)?;
    let Some(moment) = sealed.iter().rev().copied().nth(extents as usize) else {
        return Ok(0);
    };
    if width == 1 {
        Ok(moment.saturating_add(1))
    } else {
        Ok(moment - moment.checked_rem(width).unwrap_or(0))
    }
}
