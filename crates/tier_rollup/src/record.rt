ghost use Rattle.std.specs.Prelude.{◌≡◌, IfSome, IfNone};
ghost use Rattle.tier_rollup.specs.Growing.{single, grown, grown_within, with_value, HasRoom};

use fixed_num::{Record, Units};

/// The record of one point.
fn single(units: Units, anomalous: bool) -> Record
    ensures { result ≡ single units anomalous }
{
    Record {
        min: units,
        max: units,
        sum: units,
        count: 1,
        anomalies: u32::from(anomalous),
    }
}

/// The record with a further point. The sum and the counts stop at the limits of their types.
fn grown(before: Record, units: Units, anomalous: bool) -> Record
    ensures within { result ≡ grown_within before units anomalous }
    ensures exact { HasRoom before units → result ≡ grown before units anomalous }
{
    Record {
        min: units.min(before.min),
        max: units.max(before.max),
        sum: units.saturating_add(before.sum),
        count: before.count.saturating_add(1),
        anomalies: before.anomalies.saturating_add(u32::from(anomalous)),
    }
}

/// The record of a bucket with a further point. The sum and the counts stop at the limits of their types,
/// which no record of points whose moments rise comes near (`records_grow_by_one_point`).
pub fn with_value(before: Option<Record>, units: Units, anomalous: bool) -> Record
    ensures { result ≡ with_value before units anomalous }
{
    match before {
        Some(before) => grown(before, units, anomalous),
        None => single(units, anomalous),
    }
}

/// The bucket of a further point and its record: the open one with the point, if there is one, or else
/// that of the point's moment.
pub fn with_point(
    current: Option<(u32, Record)>,
    bucket: u32,
    units: Units,
    anomalous: bool,
) -> (u32, Record)
    ensures none { IfNone current (result ≡ (bucket, single units anomalous)) }
    ensures some { IfSome current (λ kept. HasRoom kept.1 units
        → result ≡ (kept.0, grown kept.1 units anomalous)) }
{
    match current {
        Some((open, before)) => (open, grown(before, units, anomalous)),
        None => (bucket, single(units, anomalous)),
    }
}
