ghost use Rattle.std.specs.Prelude.{◌≡◌, ℕ, List, [], ◌∷◌, ◌++◌, true, Ok};
ghost use Rattle.std.specs.List.{AllPass};
ghost use Rattle.history.specs.declared.line.Line.{Line};
ghost use Rattle.history.specs.Limits.{is_one_line, keeps_limits};
ghost use Rattle.plugin_text.specs.Line.{line};
ghost use Rattle.plugin_text.specs.Lines.{parts, lines, rest, HasNoLongLine, IsLongAfter};

/// The laws of a text that is cut in two at any place. It does nothing.
pub fn cut_changes_no_lines()
    // The parts of a text are its lines and then its rest.
    ensures whole { (text : List ℕ) → parts text ≡ lines text ++ rest text ∷ [] }

    // None of the parts has a line feed.
    ensures one_line { (text : List ℕ) → AllPass is_one_line (parts text) }

    // The lines do not depend on the cut: what follows a text goes on after its rest.
    ensures parts { (text more : List ℕ)
        → parts (text ++ more) ≡ lines text ++ parts (rest text ++ more) }
    ensures lines { (text more : List ℕ)
        → lines (text ++ more) ≡ lines text ++ lines (rest text ++ more) }
    ensures rest { (text more : List ℕ) → rest (text ++ more) ≡ rest (rest text ++ more) }

    // A text that has a long line has it, however the text goes on.
    ensures long { (text more : List ℕ) (before : List (List ℕ)) → IsLongAfter text before
        → IsLongAfter (text ++ more) before }

    // After a text with no long line, a long line is where what follows it has one.
    ensures short { (text more : List ℕ) → HasNoLongLine text → HasNoLongLine (rest text ++ more)
        → HasNoLongLine (text ++ more) }
    ensures later { (text more : List ℕ) (before : List (List ℕ)) → HasNoLongLine text
        → IsLongAfter (rest text ++ more) before
        → IsLongAfter (text ++ more) (lines text ++ before) }
{}

/// The law of lines that are read: what a line defines keeps its limits. It does nothing.
pub fn read_lines_keep_limits()
    ensures { (bytes : List ℕ) (said : Line) → is_one_line bytes ≡ true → line bytes ≡ Ok said
        → keeps_limits said ≡ true }
{}
