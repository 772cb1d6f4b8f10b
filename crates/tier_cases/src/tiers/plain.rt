use super::*;
use storage_number::unpack;

/// A beat with what series 0, 1 and 2 have.
#[derive(Debug, Drop)]
pub(super) struct Plain {
    pub(super) moment: u32,
    pub(super) words: [Option<u32>; 3],
}

pub(super) const SERIES: [u32; 3] = [0, 1, 2];

/// The word of a series.
pub(super) fn word_in(beat: &Plain, series: u32) -> Option<u32> {
    let [first, second, third] = beat.words;
    match series {
        0 => first,
        1 => second,
        2 => third,
        _ => None,
    }
}

/// The points of a series between two moments.
pub(super) fn plain_points(
    alloc: Global,
    beats: &[Plain],
    series: u32,
    from: u32,
    to: u32,
) -> Result<PointList, AllocError> {
    let mut points = PointList::new(alloc);
    for beat in beats {
        if let Some(word) = word_in(beat, series) {
            if from <= beat.moment && beat.moment <= to {
                points.push(Point {
                    moment: beat.moment,
                    word,
                })?;
            }
        }
    }
    Ok(points)
}

/// The record with one more value.
fn joined(before: Option<Record>, units: Units) -> Record {
    let one = Record {
        min: units,
        max: units,
        sum: units,
        count: 1,
        anomalies: 0,
    };
    match before {
        None => one,
        Some(before) => Record {
            min: before.min.min(units),
            max: before.max.max(units),
            sum: before.sum.saturating_add(units),
            count: before.count.saturating_add(1),
            anomalies: 0,
        },
    }
}

/// The record of a bucket over all beats.
pub(super) fn plain_record(
    beats: &[Plain],
    width: u32,
    bucket: u32,
    series: u32,
) -> Option<Record> {
    let mut record = None;
    for beat in beats {
        if beat.moment.checked_div(width) == Some(bucket) {
            if let Some(value) = word_in(beat, series).and_then(|word| unpack(word)) {
                record = Some(joined(record, value.units));
            }
        }
    }
    record
}

/// The first bucket from one to another that starts at or above a floor and has a record, and that record.
pub(super) fn plain_next(
    beats: &[Plain],
    width: u32,
    floor: u32,
    series: u32,
    from: u32,
    to: u32,
) -> Option<(u32, Record)> {
    for beat in beats {
        let bucket = beat.moment.checked_div(width).unwrap_or(0);
        if from <= bucket && bucket <= to && bucket.saturating_mul(width) >= floor {
            if let Some(record) = plain_record(beats, width, bucket, series) {
                return Some((bucket, record));
            }
        }
    }
    None
}

/// How many points a beat has.
pub(super) fn points_in(beat: &Plain) -> u32 {
    let mut count: u32 = 0;
    for series in SERIES {
        if word_in(beat, series).is_some() {
            count = count.saturating_add(1);
        }
    }
    count
}

/// How many records close at a moment behind these beats.
fn closing(beats: &[Plain], width: u32, moment: u32) -> u32 {
    let Some(last) = beats.last() else {
        return 0;
    };
    let bucket = last.moment.checked_div(width);
    if bucket == moment.checked_div(width) {
        return 0;
    }
    let mut count: u32 = 0;
    for series in SERIES {
        if plain_record(beats, width, bucket.unwrap_or(0), series).is_some() {
            count = count.saturating_add(1);
        }
    }
    count
}

/// The moments at which a tier's segments were sealed.
fn cuts(alloc: Global, number: u8, tier: Tier, beats: &[Plain]) -> Result<Vec<u32>, AllocError> {
    let mut sealed = Vec::new(alloc);
    let mut since: u32 = 0;
    for (place, beat) in beats.iter().enumerate() {
        let added = if number == 0 {
            points_in(beat)
        } else {
            let (before, _) = beats.split_at(place);
            closing(before, tier.width, beat.moment)
        };
        since = since.saturating_add(added);
        if since >= tier.items {
            sealed.push(beat.moment)?;
            since = 0;
        }
    }
    Ok(sealed)
}

/// The floor of a tier over all beats.
pub(super) fn plain_floor(
    alloc: Global,
    number: u8,
    tier: Tier,
    beats: &[Plain],
) -> Result<u32, AllocError> {
    let sealed = cuts(alloc, number, tier, beats)?;
    let Some(moment) = sealed.iter().rev().copied().nth(tier.extents as usize) else {
        return Ok(0);
    };
    if number == 0 {
        Ok(moment.saturating_add(1))
    } else {
        Ok(moment - moment.checked_rem(tier.width).unwrap_or(0))
    }
}
