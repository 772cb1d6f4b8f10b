//! What values come to.
ghost use Rattle.std.specs.Prelude.{◌≡◌, ◌^◌, ◌<◌, [], ◌∷◌, unsigned_abs, Some, if◌then◌else◌, pos, IsTrue};
ghost use Rattle.tier_rollup.specs.Buckets.{record_of};
ghost use Rattle.tier_rollup.specs.Growing.{single};
ghost use Rattle.query_engine.specs.Joining.{joined, HaveRoom};
ghost use Rattle.query_engine.specs.Points.{are_series};
ghost use Rattle.alarm_core.specs.Lookups.{members};

use crate::window::Window;
use fixed_num::{Record, Units};
use query_engine::Point;
use storage_number::unpack;

/// The record of one value.
fn single(units: Units, anomalous: bool) -> Record
    ensures { result ≡ single units anomalous }
{
    Record {
        min: units,
        max: units,
        sum: units,
        count: 1,
        anomalies: u32::from(anomalous),
    }
}

/// The record of some values and one more. The sum and the counts stop at the limits of their types.
fn grown(before: Record, units: Units, anomalous: bool) -> Record
    ensures { let one = single units anomalous in HaveRoom (Some before) (Some one)
        → Some result ≡ joined (Some before) (Some one) }
{
    Record {
        min: before.min.min(units),
        max: before.max.max(units),
        sum: before.sum.saturating_add(units),
        count: before.count.saturating_add(1),
        anomalies: before.anomalies.saturating_add(u32::from(anomalous)),
    }
}

/// The record of some values, if there is one, and of one more.
pub fn with_value(before: Option<Record>, units: Units, anomalous: bool) -> Option<Record>
    ensures { let one = Some (single units anomalous) in
        HaveRoom before one → result ≡ joined before one }
{
    match before {
        Some(before) => Some(grown(before, units, anomalous)),
        None => Some(single(units, anomalous)),
    }
}

/// A value, without its sign where only sizes count.
fn sized(absolute: bool, units: Units) -> Units
    requires { unsigned_abs units < 2 ^ 127 }
    ensures { result ≡ (if absolute then pos (unsigned_abs units) else units) }
{
    if absolute {
        units.unsigned_abs() as Units
    } else {
        units
    }
}

/// A record with a further point, where that lies in the window and has a value.
fn with_point(
    before: Option<Record>,
    absolute: bool,
    window: Window,
    point: Point,
) -> Option<Record>
    ensures { let more = record_of (members absolute window.start window.stop (point ∷ [])) in
        HaveRoom before more → result ≡ joined before more }
{
    let moment = u64::from(point.moment);
    if moment < window.start || window.stop <= moment {
        return before;
    }
    match unpack(point.word) {
        Some(value) => with_value(before, sized(absolute, value.units), value.anomalous),
        None => before,
    }
}

/// What the points of a window come to.
pub fn record_in(points: &[Point], absolute: bool, window: Window) -> Option<Record>
    ensures { IsTrue (are_series points.now)
        → result ≡ record_of (members absolute window.start window.stop points.now) }
{
    let mut record = None;
    for point in points {
        record = with_point(record, absolute, window, *point);
    }
    record
}
