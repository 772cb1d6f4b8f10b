ghost use Rattle.std.specs.Prelude.{◌≡◌, ◌≢◌, ℕ, ◌<◌, List, length, slice_index, IsErrOf, IsTrue, IfOk};
ghost use Rattle.host_model.specs.Cause.{HasCause};
ghost use Rattle.tier_rollup.specs.declared.point.Point.{Point as APoint};
ghost use Rattle.query_engine.specs.Points.{Tiers, are_series, are_widths, points_between, record_at, IsFirstRecord};

use crate::fault::PointFault;
use crate::point::PointList;
use fixed_num::Record;
use std::alloc::Global;

/// Who has the points of series, and tiers of records of them.
pub trait Points {
    /// The width of each tier in seconds, and its floor. No call changes them.
    ghost tiers: { Self → Tiers };

    /// Whether these are all points of each series, where they are told: of a silent object no points
    /// are. No call changes it.
    ghost tells: { Self → (ℕ → List APoint) → Type 0 };

    /// How many calls have failed. The count stands still at 2^64 - 1.
    ghost faults: { Self → ℕ };

    /// What the object keeps beside its points, as a store its state and the past of its host.
    ghost Held: { Type 0 } = { Unit {0} };

    /// No call changes it.
    ghost held: { Self → Held };

    /// The width of each tier in seconds, that of tier 0 first. The first is 1 and they rise.
    fn widths(&self) -> &[u32]
        ensures { result.now ≡ (tiers self.now).widths };

    /// The moment below which a tier, which is there, answers nothing.
    fn floor(&self, tier: u8) -> u32
        requires { tier < length (tiers self.now).widths }
        ensures { result ≡ (tiers self.now).floor tier };

    /// The points of a series at or above the floor of tier 0, with moments from `from` to `to`, both
    /// included, the earliest first.
    fn points(
        &mut self,
        alloc: Global,
        series: u32,
        from: u32,
        to: u32,
    ) -> Result<PointList, PointFault>
        ensures found { IfOk result (λ found. (told : ℕ → List APoint) → tells self.old told
            → found ≡ points_between ((tiers self.old).floor 0) from to (told series)) }
        ensures tiers { tiers self.new ≡ tiers self.old }
        ensures told { (told : ℕ → List APoint) → tells self.old told → tells self.new told }
        ensures held { held self.new ≡ held self.old }
        ensures cause { HasCause (faults self.old) (faults self.new)
            (IsErrOf result PointFault.Disk) };

    /// The record of a bucket of a tier that is there and not tier 0. `None` where the bucket has no
    /// point, or starts below the tier's floor.
    fn record_of(
        &mut self,
        alloc: Global,
        tier: u8,
        series: u32,
        bucket: u32,
    ) -> Result<Option<Record>, PointFault>
        requires tier { tier < length (tiers self.old).widths }
        requires records { tier ≢ 0 }
        ensures found { IfOk result (λ found. (told : ℕ → List APoint) → tells self.old told
            → found ≡ record_at (slice_index (tiers self.old).widths tier)
            ((tiers self.old).floor tier) bucket (told series)) }
        ensures tiers { tiers self.new ≡ tiers self.old }
        ensures told { (told : ℕ → List APoint) → tells self.old told → tells self.new told }
        ensures held { held self.new ≡ held self.old }
        ensures cause { HasCause (faults self.old) (faults self.new)
            (IsErrOf result PointFault.Disk) };

    /// The first bucket of a tier that is there and not tier 0, from one on and up to another, both
    /// included, that has a record, and that record. `None` where none has one. A bucket that starts
    /// below the tier's floor has none.
    fn next_record(
        &mut self,
        alloc: Global,
        tier: u8,
        series: u32,
        from: u32,
        to: u32,
    ) -> Result<Option<(u32, Record)>, PointFault>
        requires tier { tier < length (tiers self.old).widths }
        requires records { tier ≢ 0 }
        ensures found { IfOk result (λ found. (told : ℕ → List APoint) → tells self.old told
            → IsFirstRecord (slice_index (tiers self.old).widths tier)
            ((tiers self.old).floor tier) from to (told series) found) }
        ensures tiers { tiers self.new ≡ tiers self.old }
        ensures told { (told : ℕ → List APoint) → tells self.old told → tells self.new told }
        ensures held { held self.new ≡ held self.old }
        ensures cause { HasCause (faults self.old) (faults self.new)
            (IsErrOf result PointFault.Disk) };

    /// The first width is a second, they rise, and a byte numbers each.
    ghost rising_widths: { (source : Self) → IsTrue (are_widths (tiers source).widths) };

    /// The moments of each series rise.
    ghost rising_series: { (source : Self) (told : ℕ → List APoint) → tells source told
        → (series : ℕ) → IsTrue (are_series (told series)) };
}
