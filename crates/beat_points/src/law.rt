ghost use Rattle.std.specs.Prelude.{◌≡◌, ◌==◌, ◌∷◌, [], ◌<◌, ℕ, List, find};
ghost use Rattle.std.specs.Option.{option_map_or};
ghost use Rattle.algorithms.specs.Words.{packed};
ghost use Rattle.history.specs.declared.beat.OpenBeat.{OpenBeat};
ghost use Rattle.history.specs.declared.line.Line.{Line};
ghost use Rattle.history.specs.declared.line.Line.TheVariants.{Moment};
ghost use Rattle.history.specs.History.{Beat, collected, last, registry_of};
ghost use Rattle.history.specs.Looking.{beat as open_beat};
ghost use Rattle.history.specs.Points.{points};
ghost use Rattle.history.specs.Read.{history_at};
ghost use Rattle.chart_registry.specs.Accepted.{AreAccepted, HasFew};
ghost use Rattle.beat_points.specs.declared.series_word.SeriesWord.{SeriesWord};
ghost use Rattle.beat_points.specs.Points.{IsBefore, beat_points};
ghost use Rattle.history.specs.Regular.{IsRegular};

/// The law of the points of a history with one more collected beat: a series has the beat's moment with its
/// word in front where the beat gives it a point, and else the points that it had. It does nothing.
pub fn beat_adds_its_points()
    ensures { (h : List Beat) (moment series : ℕ) (beat : OpenBeat)
        → points packed (collected moment beat ∷ h) series
        ≡ option_map_or
        (λ (point : SeriesWord). record { moment = moment; word = point.word }
        ∷ points packed h series)
        (find (λ (point : SeriesWord). point.series == series)
        (beat_points (registry_of (collected moment beat ∷ h)) h moment beat))
        (points packed h series) }
{}

/// The laws of the moments of what was collected: nothing was in a history without beats, and a beat's
/// values lie before each later moment. It does nothing.
pub fn values_lie_before_later_moments()
    ensures none { (moment : ℕ) → IsBefore [] moment }
    ensures collected { (h : List Beat) (moment later : ℕ) (beat : OpenBeat)
        → IsBefore h later → moment < later
        → IsBefore (collected moment beat ∷ h) later }
{}

/// The laws of a text of accepted lines that follows a history, for what `LastRows` wants of a beat: each beat
/// that it closes is regular, no chart comes to have more dimensions than a chart may have, and all that was
/// collected lies before the next moment. It does nothing.
pub fn accepted_text_is_regular()
    ensures regular { (every : ℕ) (h : List Beat) (past : List Line) (moment : ℕ)
        → HasFew (registry_of h) → AreAccepted every h (Moment moment ∷ past)
        → IsRegular (registry_of (history_at every h (Moment moment ∷ past)))
        (open_beat every past) }
    ensures few { (every : ℕ) (h : List Beat) (past : List Line)
        → HasFew (registry_of h) → AreAccepted every h past
        → HasFew (registry_of (history_at every h past)) }
    ensures before { (every : ℕ) (h : List Beat) (past : List Line) (moment : ℕ)
        → ((later : ℕ) → last h < later → IsBefore h later)
        → AreAccepted every h (Moment moment ∷ past)
        → IsBefore (history_at every h past) moment }
{}
