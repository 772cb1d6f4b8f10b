ghost use Rattle.std.specs.Prelude.{◌≡◌, List, [], ◌∷◌, map};
ghost use Rattle.tier_settings.specs.declared.tier.Tier.{Tier as ATier};
ghost use Rattle.beat_tiers.specs.Beats.{TierBeat, Follows};
ghost use Rattle.beat_tiers.specs.Floors.{beats_before, kept_beats};
ghost use Rattle.beat_tiers.specs.Kept.{kept_beat_of, kept_in};
ghost use Rattle.beat_tiers.specs.State.{TiersState, after_beat, no_beats};
ghost use Rattle.beat_tiers.specs.Tiers.{AreTiersOf};

/// The laws of kept beats: those of the tiers of some beats are the beats with points at or above tier 0's
/// floor, the earliest first, and it is counted how many beats with points lie below it. It does nothing.
pub fn kept_beats_reach_the_floor()
    ensures kept { (set : List ATier) (beats : List TierBeat) (state : TiersState)
        → AreTiersOf set beats state
        → (kept_in state.points).beats ≡ map kept_beat_of (kept_beats state.first beats) }
    ensures before_none { (first : ATier) (others : List ATier)
        → (kept_in (no_beats first others).points).before ≡ beats_before first [] }
    ensures before_more { (set : List ATier) (beats : List TierBeat) (beat : TierBeat)
        → (state : TiersState) → AreTiersOf set beats state → Follows beat beats
        → (kept_in state.points).before ≡ beats_before state.first beats
        → (kept_in (after_beat beat.moment beat.points state).points).before
        ≡ beats_before state.first (beat ∷ beats) }
{}
