ghost use Rattle.std.specs.Prelude.{◌≡◌, ℕ, ◌+◌, List, [], ◌∷◌, filter, reverse, slice_get, Some};
ghost use Rattle.std.specs.List.{AllByRecursion};
ghost use Rattle.tier_settings.specs.declared.tier.Tier.{Tier as ATier};
ghost use Rattle.beat_tiers.specs.Beats.{TierBeat, Follows, series_points};
ghost use Rattle.beat_tiers.specs.Floors.{floor_of};
ghost use Rattle.beat_tiers.specs.Segments.{items_of};
ghost use Rattle.beat_tiers.specs.State.{AreClosed, RecordTierState, TiersState, after_beat, no_beats, points_in, record_in};
ghost use Rattle.beat_tiers.specs.Tiers.{AreOrdered, AreTiersOf, IsTier, is_between, record_above};

/// The laws of tiers of beats: the empty ones are those of no beat, and with one more beat they are those of that
/// beat behind the others. Their floors, the points of a series and the records at or above a floor are those of
/// the whole list of the beats, whatever has expired. It does nothing.
pub fn tiers_follow_the_beats()
    ensures none { (first : ATier) (others : List ATier) → IsTier first
        → AllByRecursion IsTier others
        → AreTiersOf (first ∷ others) [] (no_beats first others) }
    ensures more { (set : List ATier) (beats : List TierBeat) (beat : TierBeat) (state : TiersState)
        → AreTiersOf set beats state → Follows beat beats
        → AreTiersOf set (beat ∷ beats) (after_beat beat.moment beat.points state) }
    ensures first_floor { (set : List ATier) (beats : List TierBeat) (state : TiersState)
        → AreTiersOf set beats state
        → state.points.floor ≡ floor_of 0 state.first beats }
    ensures floors { (set : List ATier) (beats : List TierBeat) (state : TiersState)
        → AreTiersOf set beats state
        → (place : ℕ) (one : RecordTierState) → slice_get state.records place ≡ Some one
        → one.segments.floor ≡ floor_of (place + 1) one.tier beats }
    ensures ordered { (set : List ATier) (beats : List TierBeat) (state : TiersState)
        → AreTiersOf set beats state → AreOrdered (items_of state.points) }
    ensures each_ordered { (set : List ATier) (beats : List TierBeat) (state : TiersState)
        → AreTiersOf set beats state
        → (place : ℕ) (one : RecordTierState) → slice_get state.records place ≡ Some one
        → AreOrdered (items_of one.segments) }
    ensures each_closed { (set : List ATier) (beats : List TierBeat) (state : TiersState)
        → AreTiersOf set beats state
        → (place : ℕ) (one : RecordTierState) → slice_get state.records place ≡ Some one
        → AreClosed state.last one }
    ensures points { (set : List ATier) (beats : List TierBeat) (state : TiersState)
        → AreTiersOf set beats state → (series from to : ℕ)
        → points_in state series from to
        ≡ filter (is_between (floor_of 0 state.first beats) from to)
        (reverse (series_points beats series)) }
    ensures records { (set : List ATier) (beats : List TierBeat) (state : TiersState)
        → AreTiersOf set beats state
        → (place : ℕ) (one : RecordTierState) → slice_get state.records place ≡ Some one
        → (series bucket : ℕ)
        → record_in one state.last series bucket
        ≡ record_above (floor_of (place + 1) one.tier beats) one.tier.width bucket beats series }
{}
