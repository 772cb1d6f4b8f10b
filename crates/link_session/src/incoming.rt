//! The frames that come over a link.
ghost use Rattle.std.specs.Prelude.{◌≡◌, ◌⊎◌, ◌+◌, ◌<◌, ◌≤◌, ℕ, List, [], ◌∷◌, ◌++◌, length, take, Option, Some, None, IsErrOf, IfOk, IfErr, IfSome, OnOk, OnErr};
ghost use Rattle.host_model.specs.Cause.{HasCause};
ghost use Rattle.host_model.specs.Source.{Takes};
ghost use Rattle.link_frames.specs.declared.frame.Frame.{Frame as AFrame};

use crate::fault::SessionFault;
use host_model::Link;
use line_stream::INPUT_LIMIT;
use link_frames::{Frame, FrameList, FrameReader};
use std::alloc::Global;

/// How many bytes are asked of the link at once.
const PIECE_SIZE: usize = 1 << 12;

/// What comes over a link, frame by frame.
#[derive(Drop)]
pub(crate) struct Incoming {
    alloc: Global,
    reader: FrameReader,
    /// The frames of the last piece.
    frames: FrameList,
    /// How many of them were given.
    given: usize,
    /// How many more bytes may be taken.
    budget: usize,
}

/// Takes bytes of the link into the start of `into`, and says how many.
fn pull<L: Link>(link: &mut L, into: &mut [u8]) -> Result<usize, SessionFault>
    requires { 0 < length into.old }
    ensures within { IfOk result (λ n. (0 < n) × (n ≤ length into.old)) }
    ensures bytes { IfOk result
        (λ n. Takes (L.left link.old) (take n into.new) (L.left link.new)) }
    ensures kept { OnErr result (L.left link.new ≡ L.left link.old) }
    ensures ended { IsErrOf result SessionFault.Ended
        → IfSome (L.left link.new) (λ bytes. bytes ≡ []) }
    ensures faults { IfErr result
        (λ fault. (fault ≡ SessionFault.LinkFault) ⊎ (fault ≡ SessionFault.Ended)) }
    ensures sent { L.sent link.new ≡ L.sent link.old }
    ensures cause { HasCause (L.faults link.old) (L.faults link.new)
        (IsErrOf result SessionFault.LinkFault) }
{
    match link.recv(into) {
        Ok(0) => Err(SessionFault::Ended),
        Ok(taken) => Ok(taken),
        Err(_) => Err(SessionFault::LinkFault),
    }
}

impl Incoming {
    ghost use Rattle.link_session.specs.Incoming.{current, work_left, HasGiven, HasNoMore};

    /// What comes over a link of which nothing was taken yet. It takes no memory.
    pub(crate) fn new(alloc: Global) -> Incoming
        ensures { (left : Option (List ℕ)) → HasGiven result left left [] }
    {
        Incoming {
            alloc,
            reader: FrameReader::new(alloc),
            frames: FrameList::new(alloc),
            given: 0,
            budget: INPUT_LIMIT,
        }
    }

    /// Cuts a piece into frames. A refusal is kept by the reader, as the frames before it come first.
    fn cut(&mut self, piece: &[u8])
        requires budget { length piece.now ≤ self.old.budget }
        requires over { length self.old.frames ≤ self.old.given }
        requires going { self.old.reader.refused ≡ None }
        ensures given { (left left' left'' : Option (List ℕ)) (frames : List AFrame)
            → HasGiven self.old left left' frames → Takes left' piece.now left''
            → HasGiven self.new left left'' frames }
        ensures budget { self.new.budget + length piece.now ≡ self.old.budget }
        ensures work { work_left self.new ≤ work_left self.old }
    {
        self.frames.clear();
        self.given = 0;
        self.budget -= piece.len();
        let _refusal = self.reader.feed(self.alloc, piece, &mut self.frames);
    }

    /// Takes the next piece, into `piece`.
    fn take_into<L: Link>(&mut self, link: &mut L, piece: &mut [u8]) -> Result<(), SessionFault>
        requires some { 0 < length piece.old }
        requires budget { length piece.old ≤ self.old.budget }
        requires over { length self.old.frames ≤ self.old.given }
        requires going { self.old.reader.refused ≡ None }
        ensures given { OnOk result
            ((left : Option (List ℕ)) (frames : List AFrame)
            → HasGiven self.old left (L.left link.old) frames
            → HasGiven self.new left (L.left link.new) frames) }
        ensures ends { IfErr result
            (λ fault. (left : Option (List ℕ)) (frames : List AFrame)
            → HasGiven self.old left (L.left link.old) frames
            → HasNoMore fault left (L.left link.new) frames) }
        ensures budget { OnOk result (self.new.budget < self.old.budget) }
        ensures work { OnOk result (work_left self.new ≤ work_left self.old) }
        ensures sent { L.sent link.new ≡ L.sent link.old }
        ensures cause { HasCause (L.faults link.old) (L.faults link.new)
            (IsErrOf result SessionFault.LinkFault) }
    {
        let taken = pull(link, piece)?;
        self.cut(&piece[..taken]);
        Ok(())
    }

    /// Takes the next piece.
    fn take_piece<L: Link>(&mut self, link: &mut L) -> Result<(), SessionFault>
        requires over { length self.old.frames ≤ self.old.given }
        requires going { self.old.reader.refused ≡ None }
        ensures given { OnOk result
            ((left : Option (List ℕ)) (frames : List AFrame)
            → HasGiven self.old left (L.left link.old) frames
            → HasGiven self.new left (L.left link.new) frames) }
        ensures ends { IfErr result
            (λ fault. (left : Option (List ℕ)) (frames : List AFrame)
            → HasGiven self.old left (L.left link.old) frames
            → HasNoMore fault left (L.left link.new) frames) }
        ensures budget { OnOk result (self.new.budget < self.old.budget) }
        ensures work { OnOk result (work_left self.new ≤ work_left self.old) }
        ensures sent { L.sent link.new ≡ L.sent link.old }
        ensures cause { HasCause (L.faults link.old) (L.faults link.new)
            (IsErrOf result SessionFault.LinkFault) }
    {
        if self.budget == 0 {
            return Err(SessionFault::InputLimit);
        }
        let mut piece = [0; PIECE_SIZE];
        let room = self.budget.min(PIECE_SIZE);
        self.take_into(link, &mut piece[..room])
    }

    /// Gives the next frame.
    pub(crate) fn next<L: Link>(&mut self, link: &mut L) -> Result<(), SessionFault>
        ensures given { OnOk result
            ((left : Option (List ℕ)) (frames : List AFrame)
            → HasGiven self.old left (L.left link.old) frames
            → (frame : AFrame) → current self.new ≡ Some frame
            → HasGiven self.new left (L.left link.new) (frames ++ frame ∷ [])) }
        ensures some { OnOk result (0 < self.new.given) }
        ensures within { OnOk result (self.new.given ≤ length self.new.frames) }
        ensures ends { IfErr result
            (λ fault. (left : Option (List ℕ)) (frames : List AFrame)
            → HasGiven self.old left (L.left link.old) frames
            → HasNoMore fault left (L.left link.new) frames) }
        ensures work { OnOk result (work_left self.new < work_left self.old) }
        ensures sent { L.sent link.new ≡ L.sent link.old }
        ensures cause { HasCause (L.faults link.old) (L.faults link.new)
            (IsErrOf result SessionFault.LinkFault) }
    {
        while self.given >= self.frames.len() {
            if let Some(fault) = self.reader.refused() {
                return Err(SessionFault::from(fault));
            }
            self.take_piece(link)?;
        }
        self.given += 1;
        Ok(())
    }

    /// The frame that was given last.
    pub(crate) fn frame(&self) -> &Frame
        requires some { 0 < self.now.given }
        requires within { self.now.given ≤ length self.now.frames }
        ensures { current self.now ≡ Some result.now }
    {
        &self.frames.as_slice()[self.given - 1]
    }
}
