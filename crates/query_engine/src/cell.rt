ghost use Rattle.std.specs.Prelude.{◌≡◌, ◌≢◌, ℕ, ◌+◌, ◌*◌, ◌%◌, ◌^◌, ◌<◌, ◌≤◌, List, ℤ, pos, IfOk, IfSome, IsErrOf};
ghost use Rattle.std.specs.Option.{option_map};
ghost use Rattle.fixed_num.specs.Rounding.{nearest};
ghost use Rattle.host_model.specs.Cause.{HasCause};
ghost use Rattle.tier_rollup.specs.declared.point.Point.{Point as APoint};
ghost use Rattle.query_engine.specs.Planning.{IsPlan};
ghost use Rattle.query_engine.specs.Windows.{group_of, cell};

use crate::fault::PointFault;
use crate::plan::Plan;
use crate::points::Points;
use crate::request::Group;
use crate::window;
use fixed_num::{Frac, Record, Units, round_half_even};
use std::alloc::Global;

/// How many ten-millionths one has.
const ONE: i128 = 10_000_000;

/// A total over a count, to the nearest whole number. A count of 0 counts as 1.
fn share(total: i128, count: u32) -> Units
    ensures { 0 < count → result ≡ nearest total (pos count) }
{
    round_half_even(Frac {
        num: total,
        den: i128::from(count.max(1)),
    })
}

/// The group of the points of a record.
fn group_of(group: Group, points: Record) -> Units
    ensures { 0 < points.count → result ≡ group_of group points }
{
    match group {
        Group::Average => share(points.sum, points.count),
        Group::Min => points.min,
        Group::Max => points.max,
        Group::Sum => points.sum,
        Group::Count => i128::from(points.count) * ONE,
        Group::AnomalyRate => share(100 * i128::from(points.anomalies) * ONE, points.count),
    }
}

/// The group of the points of a record, where there are points.
fn group_of_some(group: Group, points: Option<Record>) -> Option<Units>
    ensures { IfSome points (λ points. 0 < points.count)
        → result ≡ option_map (group_of group) points }
{
    let points = points?;
    Some(group_of(group, points))
}

/// The cell of a window of a series, by what the tier of a plan has.
pub(crate) fn read_cell<P: Points>(
    alloc: Global,
    points: &mut P,
    plan: Plan,
    group: Group,
    series: u32,
    start: u64,
    window: u32,
) -> Result<Option<Units>, PointFault>
    requires plan { IsPlan (P.tiers points.old) plan }
    requires room { start + window < 2 ^ 64 }
    requires buckets { plan.tier ≢ 0 → (start % plan.width ≡ 0) × (window % plan.width ≡ 0) }
    ensures cell { IfOk result (λ found. (told : ℕ → List APoint) → P.tells points.old told
        → found ≡ cell group plan.floor start window (told series)) }
    ensures tiers { P.tiers points.new ≡ P.tiers points.old }
    ensures told { (told : ℕ → List APoint) → P.tells points.old told → P.tells points.new told }
    ensures held { P.held points.new ≡ P.held points.old }
    ensures cause { HasCause (P.faults points.old) (P.faults points.new)
        (IsErrOf result PointFault.Disk) }
{
    if start < u64::from(plan.floor) {
        return Ok(None);
    }
    let record = window::read_window(alloc, points, plan, series, start, window)?;
    Ok(group_of_some(group, record))
}
