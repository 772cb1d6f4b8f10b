ghost use Rattle.std.specs.Prelude.{◌≡◌, ℕ, List, Some};
ghost use Rattle.field_codec.specs.Field.{IsBytes};
ghost use Rattle.store_core.specs.declared.beats.beat.Beat.{Beat as ABeat};
ghost use Rattle.store_core.specs.beats.Beats.{beat_bytes, beat_in, InForm};

/// Laws of records, for any bytes; the call does nothing. The bytes of a beat in form read as it,
/// and what bytes read as has them.
pub fn beats_are_read_again()
    ensures again { (beat : ABeat) → InForm beat → beat_in (beat_bytes beat) ≡ Some beat }
    ensures form { (bytes : List ℕ) (beat : ABeat) → IsBytes bytes → beat_in bytes ≡ Some beat
        → InForm beat }
    ensures spelt { (bytes : List ℕ) (beat : ABeat) → IsBytes bytes → beat_in bytes ≡ Some beat
        → bytes ≡ beat_bytes beat }
{}
