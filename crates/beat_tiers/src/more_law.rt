ghost use Rattle.std.specs.Prelude.{◌≡◌, ◌≢◌, ℕ, ◌/◌, ◌≤◌, false, List, [], ◌∷◌, length, Some, if◌then◌else◌};
ghost use Rattle.beat_tiers.specs.declared.item.BeatPoint.{BeatPoint as ABeatPoint};
ghost use Rattle.tier_settings.specs.declared.tier.Tier.{Tier as ATier};
ghost use Rattle.beat_tiers.specs.Beats.{TierBeat, is_closed, last, records_in};
ghost use Rattle.beat_tiers.specs.Floors.{floor_of, items_added};
ghost use Rattle.beat_tiers.specs.Tiers.{AreBeats};

/// The laws of one more beat: no floor falls. To a tier of records it adds as many items as the
/// bucket of the last moment has records, where that bucket is over with the beat, and else none.
/// No other bucket that was open has records. It does nothing.
pub fn floors_never_fall()
    ensures floors { (number : ℕ) (tier : ATier) (beat : TierBeat) (beats : List TierBeat)
        → 1 ≤ tier.width → AreBeats (beat ∷ beats)
        → floor_of number tier beats ≤ floor_of number tier (beat ∷ beats) }
    ensures closes { (number : ℕ) (tier : ATier) (moment : ℕ) (points : List ABeatPoint)
        (beats : List TierBeat) → number ≢ 0 → 1 ≤ tier.width
        → let beat : TierBeat = record { moment = Some moment; points = points } in
        let bucket = last beats / tier.width in
        items_added number tier beat beats
        ≡ if is_closed tier.width bucket (beat ∷ beats)
        then length (records_in tier.width bucket beats) else 0 }
    ensures no_other { (width bucket : ℕ) (beats : List TierBeat) → 1 ≤ width → AreBeats beats
        → is_closed width bucket beats ≡ false → bucket ≢ last beats / width
        → records_in width bucket beats ≡ [] }
{}
