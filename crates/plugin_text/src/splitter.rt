ghost use Rattle.std.specs.Prelude.{◌≡◌, ◌<◌, ℕ, List, [], ◌++◌, None, Some, IsErrOf, IfErr, IfSome, OnOk};
ghost use Rattle.std.specs.Result.{result_err};
ghost use Rattle.plugin_text.specs.Fault.{EndsSplitting};
ghost use Rattle.plugin_text.specs.Lines.{parts, lines, rest, HasNoLongLine, IsLongAfter, BeginsWithLines, IsRest};

use crate::cut::cut_lines;
use crate::fault::LineFault;
use crate::line_list::LineList;
use fixed_num::ByteList;
use std::alloc::Global;
use std::marker::Model;

/// The most bytes that a line may have, without its line feed.
pub const LINE_LIMIT: usize = 8192;

/// Cuts a stream that comes in pieces into its lines.
///
/// A line is the bytes before a line feed; a carriage return before it is one of them. The splitter
/// keeps what follows the last line feed, which is never longer than a line may be.
#[derive(Debug, Drop)]
pub struct Splitter {
    rest: ByteList,
    refused: Option<LineFault>,
}

impl Model for Splitter {
    ghost use Rattle.plugin_text.specs.Splitter.{Held};
    ghost use Rattle.plugin_text.specs.Lines.{IsRest};

    ghost Value = { Held };

    ghost view = { λ splitter. record { rest = splitter.rest; refused = splitter.refused } };

    ghost invariant = { λ splitter. IsRest splitter.rest };
}

impl Splitter {
    /// A splitter at the start of a stream. It takes no memory.
    pub fn new(alloc: Global) -> Splitter
        ensures empty { result.rest ≡ [] }
        ensures open { result.refused ≡ None }
    {
        Splitter {
            rest: ByteList::new(alloc),
            refused: None,
        }
    }

    /// Takes the next piece of the stream, and adds the lines that end in it to `out`.
    ///
    /// At `LineTooLong` the lines before the long one have been added, at `Memory` a prefix of the
    /// lines. From then on the splitter answers that refusal and changes nothing. What its rest is
    /// after a refusal is left open.
    pub fn feed(&mut self, piece: &[u8], out: &mut LineList) -> Result<(), LineFault>
        ensures lines { OnOk result (out.new ≡ out.old ++ lines (self.old.rest ++ piece.now)) }
        ensures rest { OnOk result (self.new.rest ≡ rest (self.old.rest ++ piece.now)) }
        ensures short { OnOk result (HasNoLongLine (self.old.rest ++ piece.now)) }

        // However the stream goes on, its parts are these lines and then those of the new rest.
        ensures onward { OnOk result ((more : List ℕ) → parts (self.old.rest ++ piece.now ++ more)
            ≡ lines (self.old.rest ++ piece.now) ++ parts (self.new.rest ++ more)) }

        ensures long { self.old.refused ≡ None → IsErrOf result LineFault.LineTooLong
            → (handed : List (List ℕ)) × (out.new ≡ out.old ++ handed)
            × IsLongAfter (self.old.rest ++ piece.now) handed }
        ensures memory { self.old.refused ≡ None → IsErrOf result LineFault.Memory
            → (handed : List (List ℕ)) × (out.new ≡ out.old ++ handed)
            × BeginsWithLines (self.old.rest ++ piece.now) handed }

        // There is no other refusal.
        ensures only { self.old.refused ≡ None → IfErr result EndsSplitting }

        // A refusal is the answer from then on.
        ensures refused { self.new.refused ≡ result_err result }
        ensures repeated { IfSome self.old.refused (λ fault. IsErrOf result fault) }
        ensures unchanged { IfSome self.old.refused (λ _. (self.new ≡ self.old)
            × (out.new ≡ out.old)) }

        ensures held { IsRest self.new.rest }
    {
        if let Some(fault) = self.refused {
            return Err(fault);
        }
        let result = cut_lines(&mut self.rest, piece, out);
        self.refused = result.err();
        result
    }

    /// What follows the last line feed of the stream so far: at most `LINE_LIMIT` bytes.
    pub fn rest(&self) -> &[u8]
        ensures value { result.now ≡ self.now.rest }
        ensures held { IsRest self.now.rest }
    {
        self.rest.as_slice()
    }
}
