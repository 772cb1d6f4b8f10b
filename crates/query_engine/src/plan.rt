ghost use Rattle.std.specs.Prelude.{◌≡◌, ◌≢◌, ◌+◌, ◌%◌, ◌<◌, ◌==◌, ◌&&◌, length};
ghost use Rattle.query_engine.specs.Planning.{IsLowestTier, IsPlan};
ghost use Rattle.query_engine.specs.Windows.{may_read, tier_for};

use crate::points::Points;

/// The tier that is read for a request, and how.
#[derive(Clone, Copy, Debug)]
pub(crate) struct Plan {
    pub(crate) tier: u8,
    /// In seconds.
    pub(crate) width: u32,
    pub(crate) floor: u32,
}

/// Whether a width divides where the windows start and how long they are.
fn divides(width: u32, after: u32, window: u32) -> bool
    requires { 0 < width }
    ensures { result ≡ (after % width == 0 && window % width == 0) }
{
    after % width == 0 && window % width == 0
}

/// The tier to read, with one more to choose from.
fn lower_tier<P: Points>(points: &P, after: u32, window: u32, tier: u8, other: u8) -> u8
    requires first { 0 < other }
    requires inside { other < length (P.tiers points.now).widths }
    requires lowest { let tiers = P.tiers points.now in IsLowestTier tiers.floor
        (may_read tiers.widths after window) other tier }
    ensures { let tiers = P.tiers points.now in IsLowestTier tiers.floor
        (may_read tiers.widths after window) (other + 1) result }
{
    let width = points.widths()[other as usize];
    if divides(width, after, window) && points.floor(other) <= points.floor(tier) {
        other
    } else {
        tier
    }
}

/// The tier with the lowest floor of those that may be read, on a tie the one with the highest number.
fn lowest_tier<P: Points>(points: &P, after: u32, window: u32) -> u8
    ensures { let tiers = P.tiers points.now in
        IsLowestTier tiers.floor (may_read tiers.widths after window) (length tiers.widths) result }
{
    let mut tier = 0;
    for other in 1..points.widths().len() {
        tier = lower_tier(points, after, window, tier, other as u8);
    }
    tier
}

/// How to read the windows of a request.
pub(crate) fn plan_for<P: Points>(points: &P, after: u32, window: u32) -> Plan
    ensures plan { IsPlan (P.tiers points.now) result }
    ensures tier { let tiers = P.tiers points.now in result.tier
        ≡ tier_for tiers.widths tiers.floor after window }
    ensures buckets { result.tier ≢ 0 → (after % result.width ≡ 0) × (window % result.width ≡ 0) }
{
    let tier = lowest_tier(points, after, window);
    Plan {
        tier,
        width: points.widths()[tier as usize],
        floor: points.floor(tier),
    }
}
