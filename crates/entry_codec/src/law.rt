ghost use Rattle.std.specs.Prelude.{◌≡◌, ◌≤◌, ℕ, List, length, Ok};
ghost use Rattle.field_codec.specs.Field.{IsBytes};
ghost use Rattle.history.specs.declared.numbered.NumberedBeat.{NumberedBeat};
ghost use Rattle.entry_codec.specs.declared.entry.Entry.{Entry};
ghost use Rattle.entry_codec.specs.declared.entry.Entry.TheVariants as entry;
ghost use Rattle.entry_codec.specs.Entries.{entry_bytes, read_entry, HasSpelling, IsWithinLimits};
ghost use Rattle.entry_codec.specs.declared.entry.TheConstants.{COLLECTED_LIMIT};

/// The law of entries: a spelling reads as its entry, with nothing left, and what bytes read as has them
/// as its spelling. So two entries never share a spelling.
pub fn entries_round_trip()
    ensures reads_back { (e : Entry) → HasSpelling e → read_entry (entry_bytes e) ≡ Ok e }
    ensures has_spelling { (e : Entry) (bytes : List ℕ) → IsBytes bytes → read_entry bytes ≡ Ok e
        → HasSpelling e }
    ensures is_spelt { (e : Entry) (bytes : List ℕ) → IsBytes bytes → read_entry bytes ≡ Ok e
        → bytes ≡ entry_bytes e }
    ensures one_value { (a b : Entry) → HasSpelling a → HasSpelling b
        → entry_bytes a ≡ entry_bytes b → a ≡ b }
{}

/// The law of the length of the entry of a numbered beat that keeps to the limits of a registry. Each
/// chart has 1,230 bytes at most, each dimension 422, each row 8 and each value 13; 17 are for the rest.
/// It does nothing.
pub fn entry_length_is_limited()
    ensures { (beat : NumberedBeat) → IsWithinLimits beat
        → length (entry_bytes (entry.Collected beat)) ≤ COLLECTED_LIMIT }
{}
