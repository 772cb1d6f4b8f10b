ghost use Rattle.std.specs.Prelude.{◌≡◌, ℕ, List, Some};
ghost use Rattle.std.specs.List.{AllByRecursion};
ghost use Rattle.tier_settings.specs.declared.tier.Tier.{Tier as ATier};
ghost use Rattle.beat_tiers.specs.declared.item.BeatPoint.{BeatPoint as ABeatPoint};
ghost use Rattle.beat_tiers.specs.Beats.{TierBeat};
ghost use Rattle.beat_tiers.specs.Sound.{after_beats, AreBeatsAfter, AreSound, HaveGoneOn, HaveSealed, IsBeatAfter};
ghost use Rattle.beat_tiers.specs.State.{TiersState, after_beat, no_beats};
ghost use Rattle.beat_tiers.specs.Tiers.{IsTier};

/// The law of sound tiers: those of no beats are sound, and sound tiers stay so with a beat more. By
/// a beat each tier seals at most one segment, which has the beat's moment and fewer than 65,536
/// items beyond those at which the tier seals one. It does nothing.
pub fn sound_tiers_stay_sound()
    ensures none { (first : ATier) (others : List ATier) → IsTier first
        → AllByRecursion IsTier others → AreSound (no_beats first others) }
    ensures more { (state : TiersState) (beat : TierBeat) → AreSound state
        → IsBeatAfter state.last beat → AreSound (after_beat beat.moment beat.points state) }
    ensures sealed { (state : TiersState) (moment : ℕ) (points : List ABeatPoint)
        → AreSound state
        → IsBeatAfter state.last (record { moment = Some moment; points = points })
        → HaveSealed moment state (after_beat (Some moment) points state) }
{}

/// The law of sound tiers after some beats: they are sound, and go on from what they were. Their
/// new segments were sealed later, and have fewer than 65,536 items beyond those at which the tier
/// seals one. It does nothing.
pub fn sound_tiers_go_on()
    ensures sound { (state : TiersState) (beats : List TierBeat) → AreSound state
        → AreBeatsAfter state beats → AreSound (after_beats state beats) }
    ensures go_on { (state : TiersState) (beats : List TierBeat) → AreSound state
        → AreBeatsAfter state beats → HaveGoneOn state (after_beats state beats) }
{}
