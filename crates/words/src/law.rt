ghost use Rattle.std.specs.Prelude.{◌≡◌, ℕ, List, [], ◌∷◌, ◌++◌, All, IsTrue};
ghost use Rattle.std.specs.List.{flat_map};
ghost use Rattle.words.specs.Words.{words, is_quote};
ghost use Rattle.words.specs.Cut.{Cuts};
ghost use Rattle.words.specs.Quoting.{in_quotes, HasNo};

/// A law of words, for every text; the call does nothing. In quotes of which it has none a text is one
/// word, whatever follows it. So texts in quotes, one behind the other, are the words of their line.
pub fn quoted_text_is_one_word()
    ensures one { (quote : ℕ) (text : List ℕ) → IsTrue (is_quote quote) → HasNo quote text
        → words (in_quotes quote text) ≡ text ∷ [] }
    ensures first { (quote : ℕ) (text rest : List ℕ) → IsTrue (is_quote quote) → HasNo quote text
        → Cuts (in_quotes quote text ++ rest) text rest }
    ensures line { (quote : ℕ) (texts : List (List ℕ)) → IsTrue (is_quote quote)
        → All (HasNo quote) texts
        → words (flat_map (in_quotes quote) texts) ≡ texts }
{}
