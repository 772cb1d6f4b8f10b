ghost use Rattle.std.specs.Prelude.{◌≡◌, ℕ, List};
ghost use Rattle.journal_core.specs.Form.{StandsFor, FailsAt};

/// Laws of journals, for any bytes; the call does nothing. Bytes hold the records of one list at most,
/// and those that are no journal fail at one place.
pub fn bytes_hold_one_journal()
    ensures records { (generation : ℕ) (bytes : List ℕ) (records others : List (List ℕ))
        → StandsFor generation bytes records → StandsFor generation bytes others
        → records ≡ others }
    ensures place { (generation : ℕ) (bytes : List ℕ) (place other : ℕ)
        → FailsAt generation bytes place → FailsAt generation bytes other → place ≡ other }
{}
