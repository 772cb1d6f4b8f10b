//! The number of one dimension in a lookup.
ghost use Rattle.std.specs.Prelude.{◌≡◌, ℕ, ◌<◌, ◌≤◌, List, ◌*ℤ◌, pos, IfOk, IfSome, IsErrOf};
ghost use Rattle.std.specs.Option.{option_map};
ghost use Rattle.fixed_num.specs.Rounding.{nearest};
ghost use Rattle.host_model.specs.Cause.{HasCause};
ghost use Rattle.tier_rollup.specs.declared.point.Point.{Point as APoint};
ghost use Rattle.query_engine.specs.Windows.{group_of};
ghost use Rattle.alarm_core.specs.Lookups.{group, number};

use crate::number::ONE;
use crate::record::record_in;
use crate::window::Window;
use fixed_num::{Frac, Record, Units, round_half_even};
use health_config::{Lookup, Method};
use query_engine::{PointFault, Points};
use std::alloc::Global;

/// A total over a count, to the nearest whole number. A count of 0 counts as 1.
fn share(total: Units, count: u32) -> Units
    ensures { 0 < count → result ≡ nearest total (pos count) }
{
    round_half_even(Frac {
        num: total,
        den: Units::from(count.max(1)),
    })
}

/// What a method makes of the points of a record.
fn number_by(method: Method, points: Record) -> Units
    ensures { 0 < points.count → result ≡ group_of (group method) points }
{
    match method {
        Method::Average => share(points.sum, points.count),
        Method::Min => points.min,
        Method::Max => points.max,
        Method::Sum => points.sum,
        Method::Count => Units::from(points.count) * ONE,
        Method::AnomalyRate => share(100 * Units::from(points.anomalies) * ONE, points.count),
    }
}

/// The same, where there are points.
fn number_by_some(method: Method, points: Option<Record>) -> Option<Units>
    ensures { IfSome points (λ points. 0 < points.count)
        → result ≡ option_map (group_of (group method)) points }
{
    let points = points?;
    Some(number_by(method, points))
}

/// The number of a dimension in a window that starts at or above the floor, if it has a point there.
pub fn read_number<P: Points>(
    alloc: Global,
    points: &mut P,
    lookup: &Lookup,
    window: Window,
    series: u32,
) -> Result<Option<Units>, PointFault>
    ensures number { IfOk result (λ found. (told : ℕ → List APoint) → P.tells points.old told
        → (P.tiers points.old).floor 0 ≤ window.start
        → found ≡ number lookup.now window.start window.stop (told series)) }
    ensures tiers { P.tiers points.new ≡ P.tiers points.old }
    ensures held { P.held points.new ≡ P.held points.old }
    ensures told { (told : ℕ → List APoint) → P.tells points.old told → P.tells points.new told }
    ensures cause { HasCause (P.faults points.old) (P.faults points.new)
        (IsErrOf result PointFault.Disk) }
{
    if window.stop <= window.start {
        return Ok(None);
    }
    let first = window.start as u32;
    let last = (window.stop - 1) as u32;
    let found = points.points(alloc, series, first, last)?;
    let record = record_in(found.as_slice(), lookup.absolute, window);
    Ok(number_by_some(lookup.method, record))
}
