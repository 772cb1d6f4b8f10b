ghost use Rattle.std.specs.Prelude.{◌≡◌, ◌≢◌, ℕ, ◌+◌, ◌%◌, ◌^◌, ◌<◌, ◌≤◌, List, IfOk, IsErrOf};
ghost use Rattle.host_model.specs.Cause.{HasCause};
ghost use Rattle.tier_rollup.specs.declared.point.Point.{Point as APoint};
ghost use Rattle.query_engine.specs.Planning.{IsPartEnd, IsPlan};
ghost use Rattle.query_engine.specs.Windows.{record_between};

use crate::fault::PointFault;
use crate::plan::Plan;
use crate::points::Points;
use crate::{joining, span};
use fixed_num::Record;
use std::alloc::Global;

/// How many moments there are.
const MOMENTS: u64 = 1 << 32;

/// How many seconds of points are read at first, and after some were found.
const PIECE: u32 = 65_536;

/// What a series comes to from one moment to before another, by its points.
fn read_points<P: Points>(
    alloc: Global,
    points: &mut P,
    series: u32,
    from: u64,
    to: u64,
) -> Result<Option<Record>, PointFault>
    requires from { from < 2 ^ 32 }
    requires to { from < to }
    requires short { to < from + 2 ^ 32 }
    ensures found { IfOk result (λ found. (told : ℕ → List APoint) → P.tells points.old told
        → (P.tiers points.old).floor 0 ≤ from → found ≡ record_between from to (told series)) }
    ensures tiers { P.tiers points.new ≡ P.tiers points.old }
    ensures told { (told : ℕ → List APoint) → P.tells points.old told → P.tells points.new told }
    ensures held { P.held points.new ≡ P.held points.old }
    ensures cause { HasCause (P.faults points.old) (P.faults points.new)
        (IsErrOf result PointFault.Disk) }
{
    let last = (to - 1).min(u64::from(u32::MAX));
    let found = points.points(alloc, series, from as u32, last as u32)?;
    Ok(span::record_between(found.as_slice(), from, to))
}

/// A part of a window: where it ends, and what a series comes to in it.
#[derive(Clone, Copy)]
struct Part {
    end: u64,
    found: Option<Record>,
}

/// What a series comes to from one moment on, up to the end of the first bucket that has a record, or
/// to the window's end.
fn read_records<P: Points>(
    alloc: Global,
    points: &mut P,
    plan: Plan,
    series: u32,
    from: u64,
    end: u64,
) -> Result<Part, PointFault>
    requires plan { IsPlan (P.tiers points.old) plan }
    requires records { plan.tier ≢ 0 }
    requires from { from < 2 ^ 32 }
    requires end { from < end }
    requires short { end < from + 2 ^ 32 }
    requires buckets { (from % plan.width ≡ 0) × (end % plan.width ≡ 0) }
    ensures part { IfOk result (λ part. IsPartEnd plan from end part.end) }
    ensures found { IfOk result (λ part. (told : ℕ → List APoint) → P.tells points.old told
        → plan.floor ≤ from → part.found ≡ record_between from part.end (told series)) }
    ensures tiers { P.tiers points.new ≡ P.tiers points.old }
    ensures told { (told : ℕ → List APoint) → P.tells points.old told → P.tells points.new told }
    ensures held { P.held points.new ≡ P.held points.old }
    ensures cause { HasCause (P.faults points.old) (P.faults points.new)
        (IsErrOf result PointFault.Disk) }
{
    let width = u64::from(plan.width);
    let first = from / width;
    let last = (end.min(MOMENTS) - 1) / width;
    let found = points.next_record(alloc, plan.tier, series, first as u32, last as u32)?;
    Ok(match found {
        // An object that keeps silent may name any bucket.
        Some((bucket, record)) => Part {
            end: (u64::from(bucket).clamp(first, last) + 1) * width,
            found: Some(record),
        },
        None => Part { end, found: None },
    })
}

/// What a series comes to from one moment on, by what the tier of a plan has: of tier 0 in at most so
/// many seconds.
fn read_part<P: Points>(
    alloc: Global,
    points: &mut P,
    plan: Plan,
    series: u32,
    from: u64,
    end: u64,
    seconds: u32,
) -> Result<Part, PointFault>
    requires plan { IsPlan (P.tiers points.old) plan }
    requires from { from < 2 ^ 32 }
    requires end { from < end }
    requires short { end < from + 2 ^ 32 }
    requires seconds { 0 < seconds }
    requires buckets { plan.tier ≢ 0 → (from % plan.width ≡ 0) × (end % plan.width ≡ 0) }
    ensures part { IfOk result (λ part. IsPartEnd plan from end part.end) }
    ensures found { IfOk result (λ part. (told : ℕ → List APoint) → P.tells points.old told
        → plan.floor ≤ from → part.found ≡ record_between from part.end (told series)) }
    ensures tiers { P.tiers points.new ≡ P.tiers points.old }
    ensures told { (told : ℕ → List APoint) → P.tells points.old told → P.tells points.new told }
    ensures held { P.held points.new ≡ P.held points.old }
    ensures cause { HasCause (P.faults points.old) (P.faults points.new)
        (IsErrOf result PointFault.Disk) }
{
    if plan.tier != 0 {
        return read_records(alloc, points, plan, series, from, end);
    }
    let to = end.min(from + u64::from(seconds));
    let found = read_points(alloc, points, series, from, to)?;
    Ok(Part { end: to, found })
}

/// How many seconds of points are read after so many that had some or none: after none twice as many.
fn next_seconds(seconds: u32, found: Option<Record>) -> u32
    requires { 0 < seconds }
    ensures { 0 < result }
{
    match found {
        Some(_) => PIECE,
        None => seconds.saturating_mul(2),
    }
}

/// What a series comes to in a window, by what the tier of a plan has.
pub(crate) fn read_window<P: Points>(
    alloc: Global,
    points: &mut P,
    plan: Plan,
    series: u32,
    start: u64,
    window: u32,
) -> Result<Option<Record>, PointFault>
    requires plan { IsPlan (P.tiers points.old) plan }
    requires room { start + window < 2 ^ 64 }
    requires buckets { plan.tier ≢ 0 → (start % plan.width ≡ 0) × (window % plan.width ≡ 0) }
    ensures found { IfOk result (λ found. (told : ℕ → List APoint) → P.tells points.old told
        → plan.floor ≤ start → found ≡ record_between start (start + window) (told series)) }
    ensures tiers { P.tiers points.new ≡ P.tiers points.old }
    ensures told { (told : ℕ → List APoint) → P.tells points.old told → P.tells points.new told }
    ensures held { P.held points.new ≡ P.held points.old }
    ensures cause { HasCause (P.faults points.old) (P.faults points.new)
        (IsErrOf result PointFault.Disk) }
{
    let end = start + u64::from(window);
    let mut record = None;
    let mut from = start;
    let mut seconds = PIECE;
    while from < end && from < MOMENTS {
        let part = read_part(alloc, points, plan, series, from, end, seconds)?;
        record = joining::joined(record, part.found);
        seconds = next_seconds(seconds, part.found);
        from = part.end;
    }
    Ok(record)
}
