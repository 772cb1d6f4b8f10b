ghost use Rattle.std.specs.Prelude.{◌≡◌, ℕ, ◌≤◌, List, length, reverse, true, IsTrue};
ghost use Rattle.tier_rollup.specs.Buckets.{bucket_record};
ghost use Rattle.tier_rollup.specs.Rolling.{AreWithin, IsRising};
ghost use Rattle.tier_rollup.specs.declared.point.Point.{Point as APoint};
ghost use Rattle.query_engine.specs.declared.request.Group.{Group as AGroup};
ghost use Rattle.query_engine.specs.declared.request.Request.{Request as ARequest};
ghost use Rattle.query_engine.specs.Points.{are_series, values};
ghost use Rattle.query_engine.specs.Planning.{IsLowestTier};
ghost use Rattle.query_engine.specs.Tiers.{cell_in_tier};
ghost use Rattle.query_engine.specs.Windows.{cell, may_read, start_of, tier_for};

use crate::points::Points;

/// The laws of the tiers of any object that has points: which is read, and that by each tier that may be
/// read a window's cell is the group of all its points. So two tiers whose floors are at most where a
/// window starts give it equal cells. It does nothing.
pub fn tiers_give_equal_cells<P: Points>(points: &P)
    ensures chosen { let tiers = P.tiers points.now in (after window : ℕ)
        → IsLowestTier tiers.floor (may_read tiers.widths after window) (length tiers.widths)
        (tier_for tiers.widths tiers.floor after window) }
    ensures own { let tiers = P.tiers points.now in (told : ℕ → List APoint)
        → P.tells points.now told
        → (request : ARequest) (i series tier : ℕ)
        → may_read tiers.widths request.after request.window tier ≡ true
        → cell_in_tier tiers.widths tiers.floor tier request.group
        (start_of request i) request.window
        (told series)
        ≡ cell request.group (tiers.floor tier) (start_of request i) request.window (told series) }
    ensures same { let tiers = P.tiers points.now in (told : ℕ → List APoint)
        → P.tells points.now told
        → (request : ARequest) (i series one other : ℕ)
        → may_read tiers.widths request.after request.window one ≡ true
        → may_read tiers.widths request.after request.window other ≡ true
        → tiers.floor one ≤ start_of request i → tiers.floor other ≤ start_of request i
        → cell_in_tier tiers.widths tiers.floor one request.group
        (start_of request i) request.window
        (told series)
        ≡ cell_in_tier tiers.widths tiers.floor other request.group
        (start_of request i) request.window
        (told series) }
{}

/// The laws of a series, its points latest first as the roller of a tier takes them: their moments rise,
/// their units are within its limit, and each bucket has the same record. It does nothing.
pub fn series_can_be_rolled()
    ensures rising { (points : List APoint) → IsTrue (are_series points)
        → IsRising (reverse (values points)) }
    ensures within { (points : List APoint) → AreWithin (reverse (values points)) }
    ensures same { (width bucket : ℕ) (points : List APoint)
        → bucket_record width bucket (reverse (values points))
        ≡ bucket_record width bucket (values points) }
{}
