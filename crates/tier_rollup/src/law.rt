ghost use Rattle.std.specs.Prelude.{◌≡◌, ℕ, ◌+◌, ◌^◌, ◌/◌, ◌<◌, ◌≤◌, List, [], ◌∷◌, length, Some, None, true};
ghost use Rattle.fixed_num.specs.declared.units.Record.{Record};
ghost use Rattle.tier_rollup.specs.Buckets.{Added, AreFalling, IsWithinLimit, buckets, holds, record_of};
ghost use Rattle.tier_rollup.specs.Growing.{with_value};
ghost use Rattle.tier_rollup.specs.Rolling.{AreWithin, HasRolled, IsRising};

/// The law of buckets: a moment lies in the bucket that its quotient by the width numbers, and in no
/// other. It does nothing.
pub fn moments_have_one_bucket()
    ensures own { (width moment : ℕ) → 1 ≤ width → holds width (moment / width) moment ≡ true }
    ensures only { (width bucket moment : ℕ) → 1 ≤ width → holds width bucket moment ≡ true
        → bucket ≡ moment / width }
{}

/// The laws of points whose moments rise: each bucket that has points is named once, and what is open is
/// the bucket of the last point. It does nothing.
pub fn buckets_are_named_once()
    ensures once { (width : ℕ) (points : List Added) → 1 ≤ width → IsRising points
        → AreFalling (buckets width points) }
    ensures last { (width bucket : ℕ) (kept : Record) (last : Added) (points : List Added)
        (handed : List ℕ)
        → HasRolled width (Some (bucket, kept)) (last ∷ points) handed
        → bucket ≡ last.moment / width }
{}

/// The laws of the record of some points with a further one: where there are fewer than 2^32 of them, each
/// within the limit, `with_value` gives it. It does nothing.
pub fn records_grow_by_one_point()
    ensures first { (point : Added) → record_of (point ∷ [])
        ≡ Some (with_value None point.units point.anomalous) }
    ensures next { (before : Record) (point : Added) (points : List Added)
        → record_of points ≡ Some before → AreWithin points → IsWithinLimit point
        → length points + 1 < 2 ^ 32
        → record_of (point ∷ points) ≡ Some (with_value (Some before) point.units point.anomalous) }
{}
