ghost use Rattle.std.specs.Prelude.{◌≡◌, ℕ, List, map, slice_get, Some};
ghost use Rattle.tier_settings.specs.declared.tier.Tier.{Tier as ATier};
ghost use Rattle.beat_tiers.specs.declared.item.Stepped.{Stepped as AStepped};
ghost use Rattle.beat_tiers.specs.declared.parts.KeptItems.{KeptItems as Items};
ghost use Rattle.beat_tiers.specs.declared.parts.KeptRecords.{KeptRecords as Records};
ghost use Rattle.beat_tiers.specs.Beats.{TierBeat};
ghost use Rattle.beat_tiers.specs.Parts.{kept_of, restored};
ghost use Rattle.beat_tiers.specs.Segments.{items_of};
ghost use Rattle.beat_tiers.specs.State.{AreClosed, RecordTierState, TiersState};
ghost use Rattle.beat_tiers.specs.Tiers.{AreOrdered, AreTiersOf};

/// The laws of tiers that come back from what is kept of them: what is kept of the tiers of some beats is in form, and
/// these tiers come back from it. What is kept of tiers that came back is what they came from, in its order and with
/// no bucket that is not over. It does nothing.
pub fn restored_tiers_are_the_same()
    ensures again { (set : List ATier) (beats : List TierBeat) (state : TiersState)
        → AreTiersOf set beats state
        → restored state.first (map (λ (one : RecordTierState). one.tier) state.records) state.last
        state.points (map kept_of state.records) ≡ Some state }
    ensures kept { (first : ATier) (others : List ATier) (last : ℕ) (points : Items AStepped)
        (records : List Records) (state : TiersState)
        → restored first others last points records ≡ Some state
        → (state.first ≡ first) × (state.last ≡ last) × (state.points ≡ points)
        × (map (λ (one : RecordTierState). one.tier) state.records ≡ others)
        × (map kept_of state.records ≡ records) }
    ensures ordered { (first : ATier) (others : List ATier) (last : ℕ) (points : Items AStepped)
        (records : List Records) (state : TiersState)
        → restored first others last points records ≡ Some state
        → AreOrdered (items_of state.points) }
    ensures each_ordered { (first : ATier) (others : List ATier) (last : ℕ)
        (points : Items AStepped) (records : List Records) (state : TiersState)
        → restored first others last points records ≡ Some state
        → (place : ℕ) (one : RecordTierState) → slice_get state.records place ≡ Some one
        → AreOrdered (items_of one.segments) }
    ensures each_closed { (first : ATier) (others : List ATier) (last : ℕ)
        (points : Items AStepped) (records : List Records) (state : TiersState)
        → restored first others last points records ≡ Some state
        → (place : ℕ) (one : RecordTierState) → slice_get state.records place ≡ Some one
        → AreClosed state.last one }
{}
