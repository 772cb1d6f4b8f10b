//! What an end hears and says over its link.
ghost use Rattle.std.specs.Prelude.{◌≡◌, ◌<◌, ◌≤◌, ◌∷◌, ◌++◌, [], ℕ, List, length, Option, Some, IsErrOf, IfErr, OnOk};
ghost use Rattle.host_model.specs.Cause.{HasCause};
ghost use Rattle.link_frames.specs.declared.frame.Frame.{Frame as AFrame};
ghost use Rattle.link_frames.specs.declared.frame.Frame.TheVariants as frame;
ghost use Rattle.link_frames.specs.Frames.{bad_frame, HasSpelling};
ghost use Rattle.link_session.specs.Incoming.{current, work_left, HasGiven};
ghost use Rattle.link_session.specs.Session.{link_seen, HearsNoMore, Says, SaysThen, Leaves};

use crate::fault::{PeerFault, SessionFault};
use crate::flow::Flow;
use crate::incoming::Incoming;
use host_model::Link;
use link_frames::{BAD_FRAME, Frame, write_frame};
use std::alloc::Global;

/// Says a frame.
pub(crate) fn say<L: Link>(alloc: Global, link: &mut L, frame: &Frame) -> Result<(), SessionFault>
    requires { HasSpelling frame.now }
    ensures says { Says frame.now result (L.sent link.old) (L.sent link.new) }
    ensures left { L.left link.new ≡ L.left link.old }
    ensures cause { HasCause (L.faults link.old) (L.faults link.new)
        (IsErrOf result SessionFault.LinkFault) }
{
    let Ok(bytes) = write_frame(alloc, frame) else {
        return Err(SessionFault::Memory);
    };
    match link.send(bytes.as_slice()) {
        Ok(()) => Ok(()),
        Err(_) => Err(SessionFault::LinkFault),
    }
}

/// Says a frame, after which the session goes on or is done so.
pub(crate) fn answer_with<L: Link>(
    alloc: Global,
    link: &mut L,
    frame: &Frame,
    flow: Flow,
) -> Result<Flow, SessionFault>
    requires { HasSpelling frame.now }
    ensures says { SaysThen frame.now flow result (L.sent link.old) (L.sent link.new) }
    ensures left { L.left link.new ≡ L.left link.old }
    ensures cause { HasCause (L.faults link.old) (L.faults link.new)
        (IsErrOf result SessionFault.LinkFault) }
{
    say(alloc, link, frame)?;
    Ok(flow)
}

/// Says that it goes, and gives how the session ends: with this fault, where it was said.
pub(crate) fn leave<L: Link>(
    alloc: Global,
    link: &mut L,
    reason: u8,
    fault: PeerFault,
) -> SessionFault
    requires { HasSpelling (frame.Bye reason) }
    ensures leaves { Leaves reason fault result (L.sent link.old) (L.sent link.new) }
    ensures left { L.left link.new ≡ L.left link.old }
    ensures cause { HasCause (L.faults link.old) (L.faults link.new)
        (result ≡ SessionFault.LinkFault) }
{
    match say(alloc, link, &Frame::Bye(reason)) {
        Ok(()) => SessionFault::PeerRefused(fault),
        Err(failed) => failed,
    }
}

/// Says that a frame was bad, and gives how the session ends.
pub(crate) fn refuse<L: Link>(alloc: Global, link: &mut L, fault: PeerFault) -> SessionFault
    ensures leaves { Leaves bad_frame fault result (L.sent link.old) (L.sent link.new) }
    ensures left { L.left link.new ≡ L.left link.old }
    ensures cause { HasCause (L.faults link.old) (L.faults link.new)
        (result ≡ SessionFault.LinkFault) }
{
    leave(alloc, link, BAD_FRAME, fault)
}

/// Goes to the next frame. Bytes that are none are refused.
pub(crate) fn hear<L: Link>(
    alloc: Global,
    link: &mut L,
    incoming: &mut Incoming,
) -> Result<(), SessionFault>
    ensures given { OnOk result
        ((left : Option (List ℕ)) (frames : List AFrame)
        → HasGiven incoming.old left (L.left link.old) frames
        → (frame : AFrame) → current incoming.new ≡ Some frame
        → HasGiven incoming.new left (L.left link.new) (frames ++ frame ∷ [])) }
    ensures some { OnOk result (0 < incoming.new.given) }
    ensures within { OnOk result (incoming.new.given ≤ length incoming.new.frames) }
    ensures work { OnOk result (work_left incoming.new < work_left incoming.old) }
    ensures sent { OnOk result (L.sent link.new ≡ L.sent link.old) }
    ensures ends { IfErr result
        (λ fault. (left : Option (List ℕ)) (frames : List AFrame)
        → HasGiven incoming.old left (L.left link.old) frames
        → HearsNoMore fault frames left
        (link_seen (L.sent link.old) (L.left link.old) (L.faults link.old))
        (link_seen (L.sent link.new) (L.left link.new) (L.faults link.new))) }
    ensures cause { HasCause (L.faults link.old) (L.faults link.new)
        (IsErrOf result SessionFault.LinkFault) }
{
    match incoming.next(link) {
        Ok(()) => Ok(()),
        Err(fault) => match fault {
            SessionFault::PeerRefused(why) => Err(refuse(alloc, link, why)),
            other => Err(other),
        },
    }
}
