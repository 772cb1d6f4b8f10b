ghost use Rattle.std.specs.Prelude.{◌≡◌, ◌↔◌, ℕ, true, List, [], ◌∷◌, ◌++◌, IsTrue};
ghost use Rattle.std.specs.Str.{encode_utf8_all};
ghost use Rattle.simple_pattern.specs.Glob.{star, is_match};
ghost use Rattle.simple_pattern.specs.Piece.{IsPlain};

/// What a match is, said for every glob and name; the call does nothing.
pub fn globs_match_part_by_part()
    // The empty glob matches the empty name alone.
    ensures end { (name : List ℕ) → IsTrue (is_match [] name) ↔ (name ≡ []) }

    // A text without `*` matches itself alone, and the rest of the glob the rest of the name.
    ensures plain { (text glob name : List ℕ) → IsPlain text → IsTrue (is_match (text ++ glob) name)
        ↔ ((rest : List ℕ) × (name ≡ text ++ rest) × IsTrue (is_match glob rest)) }

    // A `*` matches any run, none too; a second one behind it adds nothing.
    ensures run { (glob name : List ℕ) → IsTrue (is_match (star ∷ glob) name)
        ↔ ((run : List ℕ) × (rest : List ℕ) × (name ≡ run ++ rest) × IsTrue (is_match glob rest)) }
    ensures stars { (glob name : List ℕ)
        → is_match (star ∷ star ∷ glob) name ≡ is_match (star ∷ glob) name }
    ensures every { (name : List ℕ) → is_match (star ∷ []) name ≡ true }

    // The bytes of a text match where its characters do, so a run of bytes is one of characters.
    ensures characters { (glob name : List ℕ)
        → is_match (encode_utf8_all glob) (encode_utf8_all name) ≡ is_match glob name }
{}
