ghost use Rattle.std.specs.Prelude.{ℕ, ◌<◌, ◌≤◌, ◌^◌, length, FitsSigned};
ghost use Rattle.std.specs.Int.{w32, w64, w128};
ghost use Rattle.std.specs.Str.{IsUtf8};
ghost use Rattle.field_codec.specs.Field.{IsField};
ghost use Rattle.field_codec.specs.Reading.{read_u8, read_u16, read_u32, read_u64, read_i32, read_i64, read_i128, read_flag, read_count, read_text, read_bytes};
ghost use Rattle.field_codec.specs.Spelling.{u8_bytes, u16_bytes, u32_bytes, u64_bytes, i32_bytes, i64_bytes, i128_bytes, flag_bytes, text_bytes, sized_bytes};

/// The law of each kind of field: a spelling reads as its value, whatever follows, and what is read of
/// bytes is what they begin with. So two values never share a spelling, and none is the prefix of another.
pub fn fields_round_trip()
    ensures u8 { IsField (λ n. n < 2 ^ 8) u8_bytes read_u8 }
    ensures u16 { IsField (λ n. n < 2 ^ 16) u16_bytes read_u16 }
    ensures u32 { IsField (λ n. n < 2 ^ 32) u32_bytes read_u32 }
    ensures u64 { IsField (λ n. n < 2 ^ 64) u64_bytes read_u64 }
    ensures i32 { IsField (FitsSigned w32) i32_bytes read_i32 }
    ensures i64 { IsField (FitsSigned w64) i64_bytes read_i64 }
    ensures i128 { IsField (FitsSigned w128) i128_bytes read_i128 }
    ensures flag { IsField (λ _. Unit {0}) flag_bytes read_flag }
    ensures count { (max : ℕ) → IsField (λ n. (n < 2 ^ 32) × (n ≤ max)) u32_bytes (read_count max) }
    ensures text { IsField (λ text. (length text < 2 ^ 16) × IsUtf8 text) text_bytes read_text }
    ensures bytes { IsField (λ bytes. length bytes < 2 ^ 32) sized_bytes read_bytes }
{}
