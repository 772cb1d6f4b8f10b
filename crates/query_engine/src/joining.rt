ghost use Rattle.std.specs.Prelude.{◌≡◌};
ghost use Rattle.query_engine.specs.Joining.{merged, joined, record_of_point, HasRoom, HaveRoom};

use crate::point::Point;
use fixed_num::Record;
use storage_number::unpack;

/// The record of a point, where it has a value.
pub(crate) fn record_of_point(point: Point) -> Option<Record>
    ensures { result ≡ record_of_point point }
{
    let value = unpack(point.word)?;
    Some(Record {
        min: value.units,
        max: value.units,
        sum: value.units,
        count: 1,
        anomalies: u32::from(value.anomalous),
    })
}

/// The record of the points of two records. The sum and the counts stop at the limits of their types.
fn merged(one: Record, other: Record) -> Record
    ensures { HasRoom one other → result ≡ merged one other }
{
    Record {
        min: one.min.min(other.min),
        max: one.max.max(other.max),
        sum: one.sum.saturating_add(other.sum),
        count: one.count.saturating_add(other.count),
        anomalies: one.anomalies.saturating_add(other.anomalies),
    }
}

/// The record of the points of two records, of which either may be missing.
pub(crate) fn joined(one: Option<Record>, other: Option<Record>) -> Option<Record>
    ensures { HaveRoom one other → result ≡ joined one other }
{
    match (one, other) {
        (Some(one), Some(other)) => Some(merged(one, other)),
        (None, other) => other,
        (one, None) => one,
    }
}
