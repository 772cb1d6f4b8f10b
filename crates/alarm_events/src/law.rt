ghost use Rattle.std.specs.Prelude.{◌≡◌, ℕ, List, Some};
ghost use Rattle.field_codec.specs.Field.{IsBytes, IsField};
ghost use Rattle.alarm_events.specs.declared.kept.KeptAlarms.{KeptAlarms};
ghost use Rattle.alarm_events.specs.Alarms.{alarms_bytes, read_alarms, read_kept, HasSpelling};

/// The law of kept alarms: a spelling reads as its alarms, with nothing left, and what bytes read as has them
/// as its spelling. So two never share a spelling. It does nothing.
pub fn kept_alarms_round_trip()
    ensures reads_back { (kept : KeptAlarms) → HasSpelling kept
        → read_alarms (alarms_bytes kept) ≡ Some kept }
    ensures has_spelling { (kept : KeptAlarms) (bytes : List ℕ) → IsBytes bytes
        → read_alarms bytes ≡ Some kept → HasSpelling kept }
    ensures is_spelt { (kept : KeptAlarms) (bytes : List ℕ) → IsBytes bytes
        → read_alarms bytes ≡ Some kept → bytes ≡ alarms_bytes kept }
    ensures one_value { (a b : KeptAlarms) → HasSpelling a → HasSpelling b
        → alarms_bytes a ≡ alarms_bytes b → a ≡ b }

    // The same where other fields follow.
    ensures among_fields { IsField HasSpelling alarms_bytes read_kept }
{}
