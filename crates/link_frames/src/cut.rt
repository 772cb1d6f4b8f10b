//! One piece of the bytes of a link, cut into its frames.
ghost use Rattle.std.specs.Prelude.{◌≡◌, ◌<◌, ◌≤◌, ℕ, List, [], ◌++◌, length, IsErrOf, IfOk, OnOk, OnErr, MatchOption};
ghost use Rattle.link_frames.specs.Frames.{frame_bytes, HasSpelling};
ghost use Rattle.link_frames.specs.Stream.{HandsOut, IsBad, IsOpen, IsTooLong, IsWithin, said};

use crate::fault::FrameFault;
use crate::frame::{BODY_LIMIT, Frame, FrameList};
use crate::reading::read_body;
use field_codec::Reader;
use fixed_num::ByteList;
use std::alloc::Global;

/// The length that the first four bytes say, if they are there.
#[tactic(auto, unfolding(field_codec::specs::Reading::read_u32))]
fn length_said(held: &[u8]) -> Option<u32>
    ensures { MatchOption result (length held.now < 4)
        (λ size. (4 ≤ length held.now) × (size ≡ said held.now)) }
{
    Reader::new(held).take_u32().ok()
}

/// How many bytes a length still lacks, or the body behind it.
fn lacking(held: &[u8]) -> usize
    requires { IsOpen held.now }
    ensures some { 0 < result }
    ensures within { (more : List ℕ) → length more ≤ result → IsWithin (held.now ++ more) }
{
    match length_said(held) {
        Some(size) => 4 + size as usize - held.len(),
        None => 4 - held.len(),
    }
}

/// The frame that is held, or None where bytes of it are still missing.
fn whole_frame(alloc: Global, held: &[u8]) -> Result<Option<Frame>, FrameFault>
    requires { IsWithin held.now }
    ensures frame { IfOk result (λ found. MatchOption found (IsOpen held.now)
        (λ frame. HasSpelling frame × (held.now ≡ frame_bytes frame))) }
    ensures long { IsErrOf result FrameFault.FrameTooLong → IsTooLong held.now }
    ensures bad { IsErrOf result FrameFault.BadFrame → IsBad held.now }
{
    let Some(size) = length_said(held) else {
        return Ok(None);
    };
    if size > BODY_LIMIT {
        return Err(FrameFault::FrameTooLong);
    }
    if held.len() < 4 + size as usize {
        return Ok(None);
    }
    let frame = read_body(alloc, held.split_at(4).1)?;
    Ok(Some(frame))
}

/// Adds the frame that is held to `out`, if it is whole. After an `Err` no frame was added.
#[tactic(auto, using(crate::proofs::StreamLaw::HandsOut_none, crate::proofs::StreamLaw::HandsOut_one))]
fn hand_out(alloc: Global, held: &mut ByteList, out: &mut FrameList) -> Result<(), FrameFault>
    requires { IsWithin held.old }
    ensures frames { OnOk result (HandsOut held.old out.old out.new held.new) }
    ensures open { OnOk result (IsOpen held.new) }
    ensures long { IsErrOf result FrameFault.FrameTooLong → IsTooLong held.old }
    ensures bad { IsErrOf result FrameFault.BadFrame → IsBad held.old }
    ensures err { OnErr result (out.new ≡ out.old) }
{
    if let Some(frame) = whole_frame(alloc, held.as_slice())? {
        out.push(frame)?;
        held.clear();
    }
    Ok(())
}

/// Takes bytes up to the end of the next length or body, and adds the frame that ends there to `out`. It gives the
/// bytes that are left. After an `Err` no frame was added.
fn take_part<'a>(
    alloc: Global,
    held: &mut ByteList,
    ahead: &'a [u8],
    out: &mut FrameList,
) -> Result<&'a [u8], FrameFault>
    requires open { IsOpen held.old }
    requires some { 0 < length ahead.now }
    ensures frames { IfOk result (λ left.
        HandsOut (held.old ++ ahead.now) out.old out.new (held.new ++ left.now)) }
    ensures open { OnOk result (IsOpen held.new) }
    ensures shorter { IfOk result (λ left. length left.now < length ahead.now) }
    ensures long { IsErrOf result FrameFault.FrameTooLong → IsTooLong (held.old ++ ahead.now) }
    ensures bad { IsErrOf result FrameFault.BadFrame → IsBad (held.old ++ ahead.now) }
    ensures err { OnErr result (out.new ≡ out.old) }
{
    let count = lacking(held.as_slice()).min(ahead.len());
    let (prefix, left) = ahead.split_at(count);
    held.extend(prefix)?;
    hand_out(alloc, held, out)?;
    Ok(left)
}

/// Adds the frames of `held` and `piece` together to `out`, and leaves what has come of the next one in `held`.
pub(crate) fn cut_frames(
    alloc: Global,
    held: &mut ByteList,
    piece: &[u8],
    out: &mut FrameList,
) -> Result<(), FrameFault>
    requires { IsOpen held.old }
    ensures frames { OnOk result (HandsOut (held.old ++ piece.now) out.old out.new held.new) }
    ensures open { OnOk result (IsOpen held.new) }
    ensures long { IsErrOf result FrameFault.FrameTooLong → (rest : List ℕ)
        × HandsOut (held.old ++ piece.now) out.old out.new rest × IsTooLong rest }
    ensures bad { IsErrOf result FrameFault.BadFrame → (rest : List ℕ)
        × HandsOut (held.old ++ piece.now) out.old out.new rest × IsBad rest }
    ensures memory { IsErrOf result FrameFault.Memory → (rest : List ℕ)
        × HandsOut (held.old ++ piece.now) out.old out.new rest }
{
    let mut ahead = piece;
    while !ahead.is_empty() {
        ahead = take_part(alloc, held, ahead, out)?;
    }
    Ok(())
}
