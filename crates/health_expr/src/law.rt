ghost use Rattle.std.specs.Prelude.{◌≡◌, ◌≤◌, ◌↔◌, ◌++◌, ℕ, List, Ok, Err};
ghost use Rattle.health_expr.specs.declared.parser.TheConstants.{LEVELS};
ghost use Rattle.health_expr.specs.Faults.{kinds, IsMisfit, IsTooDeep, IsTooWide};
ghost use Rattle.health_expr.specs.Grammar.{tree_read};
ghost use Rattle.health_expr.specs.Spelling.{Spelled, placed_in, levels_of, Spells, IsSpelling};
ghost use Rattle.health_expr.specs.Tree.{Tree};
ghost use Rattle.health_expr.specs.Written.{text_of, levels_in, IsWritable};

use crate::fault::ExprFault;

/// A law of the language, for every tree; the call does nothing. The text of a tree, with parentheses
/// only where they are needed, is read as that tree.
pub fn tree_text_reads_back()
    ensures { (tree : Tree) → IsWritable tree → levels_in 7 tree ≤ LEVELS
        → tree_read (text_of tree) ≡ Ok tree }
{}

/// A law of the language, for every text; the call does nothing. A text is read as a tree just where
/// it spells that tree by the forms of the language, with no place in more than 64 levels; and a fault
/// is told just where it is the first of the text.
pub fn text_reads_as_it_spells()
    ensures spelling { (text : List ℕ) (tree : Tree)
        → (tree_read text ≡ Ok tree) ↔ IsSpelling text tree }
    ensures misfit { (text : List ℕ) (place : ℕ)
        → (tree_read text ≡ Err (ExprFault.Syntax place)) ↔ IsMisfit text place }
    ensures too_deep { (text : List ℕ)
        → (tree_read text ≡ Err ExprFault.TooDeep) ↔ IsTooDeep text }
    ensures too_wide { (text : List ℕ)
        → (tree_read text ≡ Err ExprFault.NumberTooWide) ↔ IsTooWide text }
{}

/// A law of the language, for any two spellings; the call does nothing. How many levels hold a word
/// hangs on the kinds of the words up to it alone.
pub fn levels_depend_on_earlier_kinds()
    ensures { (one two : Tree) (front other more rest : List Spelled)
        → Spells 7 0 one (front ++ more) → Spells 7 0 two (other ++ rest)
        → kinds (placed_in front) ≡ kinds (placed_in other) → levels_of front ≡ levels_of other }
{}
