ghost use Rattle.std.specs.Prelude.{◌≡◌, ℕ, List, [], ◌++◌, None, IsErrOf, IfSome, OnOk, OnErr};
ghost use Rattle.std.specs.Result.{result_err};
ghost use Rattle.link_frames.specs.Stream.{HandsOut, IsBad, IsOpen, IsTooLong};

use crate::cut::cut_frames;
use crate::fault::FrameFault;
use crate::frame::FrameList;
use fixed_num::ByteList;
use std::alloc::Global;
use std::marker::Model;

/// Cuts the bytes of a link, which come in pieces, into frames.
///
/// It keeps what has come of the next frame, which has fewer than 2^24 + 4 bytes.
#[derive(Debug, Drop)]
pub struct FrameReader {
    rest: ByteList,
    refused: Option<FrameFault>,
}

impl Model for FrameReader {
    ghost use Rattle.link_frames.specs.Held.{Held};
    ghost use Rattle.link_frames.specs.Stream.{IsOpen};
    ghost use Rattle.std.specs.Prelude.{◌≡◌, [], IfSome};

    ghost Value = { Held };

    ghost view = { λ reader. record { rest = reader.rest; refused = reader.refused } };

    ghost invariant = { λ reader.
        IsOpen reader.rest × IfSome reader.refused (λ _. reader.rest ≡ []) };
}

impl FrameReader {
    /// A reader at the start of a link. It takes no memory.
    pub fn new(alloc: Global) -> FrameReader
        ensures empty { result.rest ≡ [] }
        ensures open { result.refused ≡ None }
    {
        FrameReader {
            rest: ByteList::new(alloc),
            refused: None,
        }
    }

    /// Takes the next piece of the bytes, and adds the frames that end in it to `frames`.
    ///
    /// `FrameTooLong` comes once the four bytes of a length above 2^24 are there, and `BadFrame` once a body is
    /// there that no frame has; the frames before it have been added then. At `Memory` a prefix of the frames has.
    /// From then on the reader answers that refusal, and holds and changes nothing.
    pub fn feed(
        &mut self,
        alloc: Global,
        piece: &[u8],
        frames: &mut FrameList,
    ) -> Result<(), FrameFault>
        ensures frames { OnOk result
            (HandsOut (self.old.rest ++ piece.now) frames.old frames.new self.new.rest) }
        ensures held { IsOpen self.new.rest }
        ensures long { self.old.refused ≡ None → IsErrOf result FrameFault.FrameTooLong
            → (rest : List ℕ) × HandsOut (self.old.rest ++ piece.now) frames.old frames.new rest
            × IsTooLong rest }
        ensures bad { self.old.refused ≡ None → IsErrOf result FrameFault.BadFrame
            → (rest : List ℕ) × HandsOut (self.old.rest ++ piece.now) frames.old frames.new rest
            × IsBad rest }
        ensures memory { self.old.refused ≡ None → IsErrOf result FrameFault.Memory
            → (rest : List ℕ) × HandsOut (self.old.rest ++ piece.now) frames.old frames.new rest }

        // A refusal is the answer from then on, and nothing is held.
        ensures refused { self.new.refused ≡ result_err result }
        ensures emptied { OnErr result (self.new.rest ≡ []) }
        ensures repeated { IfSome self.old.refused (λ fault. IsErrOf result fault) }
        ensures unchanged { IfSome self.old.refused
            (λ _. (self.new ≡ self.old) × (frames.new ≡ frames.old)) }
    {
        if let Some(fault) = self.refused {
            return Err(fault);
        }
        let result = cut_frames(alloc, &mut self.rest, piece, frames);
        if result.is_err() {
            self.rest.clear();
        }
        self.refused = result.err();
        result
    }

    /// The refusal at which the reader stopped.
    pub fn refused(&self) -> Option<FrameFault>
        ensures { result ≡ self.now.refused }
    {
        self.refused
    }
}
