ghost use Rattle.std.specs.Prelude.{◌≡◌, ◌≤◌, ℕ, true, List, ◌∷◌, length, All};
ghost use Rattle.entry_codec.specs.Entries.{IsWithinLimits};
ghost use Rattle.history.specs.declared.beat.OpenBeat.{OpenBeat};
ghost use Rattle.history.specs.History.{Beat, collected, registry_of};
ghost use Rattle.history.specs.declared.limits.TheConstants.{MOST_CHARTS, MOST_DIMENSIONS};
ghost use Rattle.history.specs.declared.beat.OpenDim.{OpenDim};
ghost use Rattle.history.specs.declared.chart.ChartDef.{ChartDef};
ghost use Rattle.history.specs.Limits.{chart_keeps_limits, dimension_keeps_limits};
ghost use Rattle.history.specs.Numbered.{numbered_beat};
ghost use Rattle.history.specs.Registry.{Registry};
ghost use Rattle.history.specs.Regular.{IsRegular};
ghost use Rattle.beat_entries.specs.Defined.{IsDefinedIn};
ghost use Rattle.beat_entries.specs.Following.{AreOwned, MayFollow};
ghost use Rattle.beat_entries.specs.Next.{goes_on, with_numbered};

/// The law of the registry of a history with one beat more: it has the beat's definitions. It does nothing.
pub fn history_defines_its_beats()
    ensures { (h : List Beat) (moment : ℕ) (beat : OpenBeat) → AreOwned (registry_of h) beat
        → IsDefinedIn (registry_of (collected moment beat ∷ h)) beat }
{}

/// The law of a numbered beat that may follow a history: it goes on from the history's registry, so that
/// it is defined there unless there is no memory. It does nothing.
pub fn numbered_beat_goes_on()
    ensures { (h : List Beat) (moment : ℕ) (beat : OpenBeat)
        → AreOwned (registry_of h) beat → MayFollow (registry_of h) beat
        → IsRegular (registry_of (collected moment beat ∷ h)) beat
        → goes_on (registry_of h)
        (numbered_beat (registry_of (collected moment beat ∷ h)) moment beat) ≡ true }
{}

/// The law of the registry that a numbered beat leaves: it is that of the history with the beat. It does
/// nothing.
pub fn numbered_beat_defines_the_same()
    ensures { (h : List Beat) (moment : ℕ) (beat : OpenBeat) → AreOwned (registry_of h) beat
        → with_numbered (registry_of h)
        (numbered_beat (registry_of (collected moment beat ∷ h)) moment beat)
        ≡ registry_of (collected moment beat ∷ h) }
{}

/// The law of a numbered beat whose definitions keep their limits, in a registry of no more charts
/// and dimensions than there may be: it is within the limits of an entry. It does nothing.
pub fn numbered_beat_keeps_limits()
    ensures { (registry : Registry) (moment : ℕ) (beat : OpenBeat) → IsDefinedIn registry beat
        → All (λ (def : ChartDef). chart_keeps_limits def ≡ true) beat.charts
        → All (λ (dimension : OpenDim). dimension_keeps_limits dimension.def ≡ true) beat.dimensions
        → length registry.charts ≤ MOST_CHARTS → length registry.dimensions ≤ MOST_DIMENSIONS
        → IsWithinLimits (numbered_beat registry moment beat) }
{}
