ghost use Rattle.std.specs.Prelude.{◌≡◌, ◌≤◌, ℕ, List, length, Some};
ghost use Rattle.field_codec.specs.Field.{IsBytes};
ghost use Rattle.side_codec.specs.declared.side.Side.{Side};
ghost use Rattle.side_codec.specs.Sides.{read_side, side_bytes, HasSpelling};
ghost use Rattle.side_codec.specs.Size.{side_limit, KeepLimits};

/// The law of sides: a spelling reads as its side, with nothing left, and what bytes read as has
/// them as its spelling. So two never share a spelling. Where the health text and the names of
/// alarms keep their limits, a spelling has as many bytes as its gaps allow, at most. It does
/// nothing.
pub fn sides_round_trip()
    ensures reads_back { (side : Side) → HasSpelling side
        → read_side (side_bytes side) ≡ Some side }
    ensures has_spelling { (side : Side) (bytes : List ℕ) → IsBytes bytes
        → read_side bytes ≡ Some side → HasSpelling side }
    ensures is_spelt { (side : Side) (bytes : List ℕ) → IsBytes bytes
        → read_side bytes ≡ Some side → bytes ≡ side_bytes side }
    ensures one_value { (a b : Side) → HasSpelling a → HasSpelling b
        → side_bytes a ≡ side_bytes b → a ≡ b }
    ensures size { (side : Side) → HasSpelling side → KeepLimits side.alarms
        → length (side_bytes side) ≤ side_limit (length side.gaps) }
{}
