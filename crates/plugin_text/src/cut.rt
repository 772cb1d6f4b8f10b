//! One piece of a stream, cut at its line feeds.
ghost use Rattle.std.specs.Prelude.{◌≡◌, ◌<◌, ℕ, true, false, List, [], ◌∷◌, ◌++◌, length, IsErrOf, IfOk, IfErr, OnOk, OnErr, MatchOption};
ghost use Rattle.plugin_text.specs.Fault.{EndsSplitting};
ghost use Rattle.plugin_text.specs.Lines.{parts, lines, rest, fits, HasNoLongLine, IsLongAfter, BeginsWithLines, IsRest};

use crate::fault::LineFault;
use crate::line_list::LineList;
use crate::splitter::LINE_LIMIT;
use fixed_num::ByteList;
use memchr::memchr;

/// What stands before the first line feed, and what stands after it.
fn split_at_line_feed(text: &[u8]) -> Option<(&[u8], &[u8])>
    ensures { MatchOption result (parts text.now ≡ text.now ∷ [])
        (λ halves. (parts text.now ≡ halves.0.now ∷ parts halves.1.now)
        × (length halves.1.now < length text.now)) }
{
    let at = memchr(b'\n', text)?;
    Some((&text[..at], &text[at + 1..]))
}

/// Hands out the line that `held` begins and `end` ends. After an `Err` nothing has changed.
fn hand_out(held: &mut ByteList, end: &[u8], out: &mut LineList) -> Result<(), LineFault>
    requires { fits held.old ≡ true }
    ensures line { OnOk result (out.new ≡ out.old ++ (held.old ++ end.now) ∷ []) }
    ensures cleared { OnOk result (held.new ≡ []) }
    ensures fits { OnOk result (fits (held.old ++ end.now) ≡ true) }
    ensures too_long { IsErrOf result LineFault.LineTooLong → fits (held.old ++ end.now) ≡ false }
    ensures only { IfErr result EndsSplitting }
    ensures err { OnErr result ((out.new ≡ out.old) × (held.new ≡ held.old)) }
{
    if held.len() + end.len() > LINE_LIMIT {
        return Err(LineFault::LineTooLong);
    }
    out.push_joined(held.as_slice(), end)?;
    held.clear();
    Ok(())
}

/// Keeps `more` after `held`. After an `Err` nothing has changed.
fn keep(held: &mut ByteList, more: &[u8]) -> Result<(), LineFault>
    requires { fits held.old ≡ true }
    ensures kept { OnOk result (held.new ≡ held.old ++ more.now) }
    ensures fits { OnOk result (fits (held.old ++ more.now) ≡ true) }
    ensures too_long { IsErrOf result LineFault.LineTooLong → fits (held.old ++ more.now) ≡ false }
    ensures only { IfErr result EndsSplitting }
    ensures err { OnErr result (held.new ≡ held.old) }
{
    if held.len() + more.len() > LINE_LIMIT {
        return Err(LineFault::LineTooLong);
    }
    held.extend(more)?;
    Ok(())
}

/// Hands out the lines of `held` and `piece` together, and leaves their rest in `held`. Only the first of them
/// begins in `held`: the others are lines of the piece itself.
pub fn cut_lines(held: &mut ByteList, piece: &[u8], out: &mut LineList) -> Result<(), LineFault>
    requires { IsRest held.old }
    ensures lines { OnOk result (out.new ≡ out.old ++ lines (held.old ++ piece.now)) }
    ensures rest { OnOk result (held.new ≡ rest (held.old ++ piece.now)) }
    ensures short { OnOk result (HasNoLongLine (held.old ++ piece.now)) }
    ensures held { IsRest held.new }
    ensures only { IfErr result EndsSplitting }
    ensures long { IsErrOf result LineFault.LineTooLong
        → (handed : List (List ℕ)) × (out.new ≡ out.old ++ handed)
        × IsLongAfter (held.old ++ piece.now) handed }
    ensures memory { IsErrOf result LineFault.Memory
        → (handed : List (List ℕ)) × (out.new ≡ out.old ++ handed)
        × BeginsWithLines (held.old ++ piece.now) handed }
{
    let Some((end, more)) = split_at_line_feed(piece) else {
        return keep(held, piece);
    };
    hand_out(held, end, out)?;
    let left = out.push_lines(more)?;
    keep(held, left)
}
