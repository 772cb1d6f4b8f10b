//! A parent, which receives the history of a child.
ghost use Rattle.std.specs.Prelude.{◌≡◌, ◌∷◌, List, Some, IfErr, IsErrOf, IsSome, OnOk};
ghost use Rattle.host_model.specs.Cause.{HasCause};
ghost use Rattle.host_model.specs.Past.{Told};
ghost use Rattle.link_frames.specs.DataForm.{IsData};
ghost use Rattle.link_frames.specs.declared.frame.Frame.TheVariants as frame;
ghost use Rattle.link_frames.specs.Frames.{HasSpelling};
ghost use Rattle.host_model.specs.Past.{Event};
ghost use Rattle.history.specs.History.{Beat as HistoryBeat};
ghost use Rattle.tier_settings.specs.declared.settings.Settings.{Settings as ASettings};
ghost use Rattle.agent_core.specs.Agent.{AgentIsReady, IsAgentOf};
ghost use Rattle.agent_core.specs.Copying.{verdict_of};
ghost use Rattle.agent_core.specs.Replies.{reply_text};
ghost use Rattle.link_session.specs.Parent.{copies_other, hears_first, hears_next, parent_does, takes_by};
ghost use Rattle.link_session.specs.Receiving.{GoesSo, IsCutShort, ParentTakes, ReceivesHistory, SaysHave};
ghost use Rattle.link_session.specs.Session.{link_seen, SaysThen};
ghost use Rattle.link_session.specs.Taking.{EndsOnlyAt, ParentEndsAtFirst, ParentEndsAtLater, ParentEndsBy};

use crate::fault::{PeerFault, SessionFault};
use crate::flow::Flow;
use crate::incoming::Incoming;
use crate::saying::{answer_with, hear, leave, refuse};
use agent_core::{Agent, Reply, write_reply};
use host_model::{Host, Link};
use link_frames::{DONE, Frame, WRONG_CHILD};
use replication::{Data, Verdict};
use std::alloc::Global;

/// What a parent keeps of its session.
#[derive(Drop)]
struct Parent {
    alloc: Global,
    /// The id that the child told, once it has.
    peer: Option<u64>,
}

/// Tells of beats that were stored.
fn tell_stored<H: Host>(alloc: Global, host: &mut H, reply: &Reply) -> Result<(), SessionFault>
    ensures done { OnOk result (H.honest →
        (H.seen host.new).past ≡ Told (reply_text reply.now) ∷ (H.seen host.old).past) }
    ensures torn { IfErr result (λ fault. IsCutShort fault H.honest (reply_text reply.now)
        (H.seen host.old).past (H.seen host.new).past) }
    ensures cause { HasCause (H.seen host.old).tell_faults (H.seen host.new).tell_faults
        (IsErrOf result SessionFault.TellFault) }
    ensures disk { (H.seen host.new).disk_faults ≡ (H.seen host.old).disk_faults }
{
    let text = write_reply(alloc, reply)?;
    match host.tell(text.as_str().as_bytes()) {
        Ok(()) => Ok(()),
        Err(_) => Err(SessionFault::TellFault),
    }
}

/// The agent has a copy of another child.
fn copies_other(agent: &Agent, id: u64) -> bool
    ensures { (past : List Event) (set : ASettings) (h : List HistoryBeat)
        → IsAgentOf past agent.now set h → result ≡ copies_other id h }
{
    match agent.child() {
        Some(kept) => kept != id,
        None => false,
    }
}

impl Parent {
    /// Asks for what comes behind the history.
    fn ask<L: Link>(&self, agent: &Agent, link: &mut L, id: u64) -> Result<Flow, SessionFault>
        ensures says { SaysThen (frame.Ask (record { child = id; last = agent.now.last }))
            Flow.GoesOn result (L.sent link.old) (L.sent link.new) }
        ensures left { L.left link.new ≡ L.left link.old }
        ensures cause { HasCause (L.faults link.old) (L.faults link.new)
            (IsErrOf result SessionFault.LinkFault) }
    {
        answer_with(self.alloc, link, &Frame::Ask(agent.ask(id)), Flow::GoesOn)
    }

    /// Takes the first frame, in which the child tells its id.
    fn hear_first<H: Host, L: Link>(
        &mut self,
        agent: &mut Agent,
        host: &mut H,
        link: &mut L,
        frame: &Frame,
    ) -> Result<Flow, SessionFault>
        requires { AgentIsReady H.honest (H.seen host.old).past agent.old }
        ensures takes { ParentTakes H.honest (H.seen host.old) agent.old
            (λ set h. hears_first h frame.now)
            result (H.seen host.new) agent.new self.new.peer (L.sent link.old) (L.sent link.new) }
        ensures ends { EndsOnlyAt (λ ended. ParentEndsAtFirst ended frame.now) result }
        ensures known { OnOk result (IsSome self.new.peer) }
        ensures left { L.left link.new ≡ L.left link.old }
        ensures cause { HasCause (L.faults link.old) (L.faults link.new)
            (IsErrOf result SessionFault.LinkFault) }
    {
        let Frame::Hello(id) = frame else {
            return Err(refuse(self.alloc, link, PeerFault::BadFrame));
        };
        if copies_other(agent, *id) {
            return Err(leave(self.alloc, link, WRONG_CHILD, PeerFault::WrongChild));
        }
        self.peer = Some(*id);
        self.ask(agent, link, *id)
    }

    /// Says that it has all up to this moment.
    fn say_have<L: Link>(&self, link: &mut L, last: u32) -> Result<Flow, SessionFault>
        ensures says { SaysThen (frame.Have last) Flow.GoesOn result
            (L.sent link.old) (L.sent link.new) }
        ensures left { L.left link.new ≡ L.left link.old }
        ensures cause { HasCause (L.faults link.old) (L.faults link.new)
            (IsErrOf result SessionFault.LinkFault) }
    {
        answer_with(self.alloc, link, &Frame::Have(last), Flow::GoesOn)
    }

    /// Tells of beats that were stored, and says that it has them.
    fn have<H: Host, L: Link>(
        &self,
        agent: &Agent,
        host: &mut H,
        link: &mut L,
        reply: &Reply,
    ) -> Result<Flow, SessionFault>
        ensures says { SaysHave H.honest (reply_text reply.now) agent.now.last result
            (H.seen host.old).past (H.seen host.new).past (L.sent link.old) (L.sent link.new) }
        ensures tells { HasCause (H.seen host.old).tell_faults (H.seen host.new).tell_faults
            (IsErrOf result SessionFault.TellFault) }
        ensures disk { (H.seen host.new).disk_faults ≡ (H.seen host.old).disk_faults }
        ensures left { L.left link.new ≡ L.left link.old }
        ensures cause { HasCause (L.faults link.old) (L.faults link.new)
            (IsErrOf result SessionFault.LinkFault) }
    {
        tell_stored(self.alloc, host, reply)?;
        self.say_have(link, agent.last())
    }

    /// Takes a Data.
    fn take_data<H: Host, L: Link>(
        &self,
        agent: &mut Agent,
        host: &mut H,
        link: &mut L,
        id: u64,
        message: &Data,
    ) -> Result<Flow, SessionFault>
        requires ready { AgentIsReady H.honest (H.seen host.old).past agent.old }
        requires form { IsData message.now }
        ensures takes { ParentTakes H.honest (H.seen host.old) agent.old
            (λ set h. takes_by set id h message.now (verdict_of h message.now))
            result (H.seen host.new) agent.new (Some id) (L.sent link.old) (L.sent link.new) }
        ensures ends { EndsOnlyAt
            (λ ended. ParentEndsAtLater ended (frame.Data message.now)) result }
        ensures left { L.left link.new ≡ L.left link.old }
        ensures cause { HasCause (L.faults link.old) (L.faults link.new)
            (IsErrOf result SessionFault.LinkFault) }
    {
        let (verdict, reply) = agent.take(host, message)?;
        match verdict {
            Verdict::Stored => self.have(agent, host, link, &reply),
            Verdict::Old => Ok(Flow::GoesOn),
            Verdict::Ahead => self.ask(agent, link, id),
            Verdict::WrongChild { .. } => {
                Err(leave(self.alloc, link, WRONG_CHILD, PeerFault::WrongChild))
            }
        }
    }

    /// The child goes.
    fn hear_bye<L: Link>(&self, link: &mut L, reason: u8) -> Result<Flow, SessionFault>
        ensures goes { GoesSo reason result (L.sent link.old) (L.sent link.new) }
        ensures left { L.left link.new ≡ L.left link.old }
        ensures cause { HasCause (L.faults link.old) (L.faults link.new)
            (IsErrOf result SessionFault.LinkFault) }
    {
        if reason == DONE {
            return Ok(Flow::Done);
        }
        Err(refuse(self.alloc, link, PeerFault::BadFrame))
    }

    /// Takes a frame behind the first.
    fn hear_next<H: Host, L: Link>(
        &self,
        agent: &mut Agent,
        host: &mut H,
        link: &mut L,
        id: u64,
        frame: &Frame,
    ) -> Result<Flow, SessionFault>
        requires ready { AgentIsReady H.honest (H.seen host.old).past agent.old }
        requires spelt { HasSpelling frame.now }
        ensures takes { ParentTakes H.honest (H.seen host.old) agent.old
            (λ set h. hears_next set id h frame.now)
            result (H.seen host.new) agent.new (Some id) (L.sent link.old) (L.sent link.new) }
        ensures ends { EndsOnlyAt (λ ended. ParentEndsAtLater ended frame.now) result }
        ensures left { L.left link.new ≡ L.left link.old }
        ensures cause { HasCause (L.faults link.old) (L.faults link.new)
            (IsErrOf result SessionFault.LinkFault) }
    {
        match frame {
            Frame::Data(message) => self.take_data(agent, host, link, id, message),
            Frame::Bye(reason) => self.hear_bye(link, *reason),
            Frame::Hello(_) => Err(refuse(self.alloc, link, PeerFault::BadFrame)),
            Frame::Ask(_) => Err(refuse(self.alloc, link, PeerFault::BadFrame)),
            Frame::Have(_) => Err(refuse(self.alloc, link, PeerFault::BadFrame)),
        }
    }

    /// Takes the next frame.
    fn take_frame<H: Host, L: Link>(
        &mut self,
        agent: &mut Agent,
        host: &mut H,
        link: &mut L,
        frame: &Frame,
    ) -> Result<Flow, SessionFault>
        requires ready { AgentIsReady H.honest (H.seen host.old).past agent.old }
        requires spelt { HasSpelling frame.now }
        ensures takes { ParentTakes H.honest (H.seen host.old) agent.old
            (λ set h. parent_does set (record { history = h; peer = self.old.peer }) frame.now)
            result (H.seen host.new) agent.new self.new.peer (L.sent link.old) (L.sent link.new) }
        ensures ends { EndsOnlyAt
            (λ ended. ParentEndsBy self.old.peer ended frame.now) result }
        ensures known { OnOk result (IsSome self.new.peer) }
        ensures left { L.left link.new ≡ L.left link.old }
        ensures cause { HasCause (L.faults link.old) (L.faults link.new)
            (IsErrOf result SessionFault.LinkFault) }
    {
        match self.peer {
            Some(id) => self.hear_next(agent, host, link, id, frame),
            None => self.hear_first(agent, host, link, frame),
        }
    }
}

/// Receives the history of a child over a link, and stores it behind what it has of it.
///
/// It waits for the id of the child, and asks from its last moment on. A Data that begins there is
/// stored, told as `STORED` with the number of its last beat and the lines of its events, and
/// answered by a Have. It says Have only once the beats are on the disk and told. `Agent` with
/// `Refused` comes where the history does not take it, and then nothing is said for it. After
/// `Agent` with another fault the agent must be opened again. At every other end it is of the
/// history with all that was stored. No more than 2^40 bytes are taken of the link.
pub fn receive<H: Host, L: Link>(
    alloc: Global,
    agent: &mut Agent,
    host: &mut H,
    link: &mut L,
) -> Result<(), SessionFault>
    requires { AgentIsReady H.honest (H.seen host.old).past agent.old }
    ensures { ReceivesHistory H.honest (H.seen host.old) agent.old
        (link_seen (L.sent link.old) (L.left link.old) (L.faults link.old)) result
        (H.seen host.new) agent.new
        (link_seen (L.sent link.new) (L.left link.new) (L.faults link.new)) }
{
    let mut parent = Parent { alloc, peer: None };
    let mut incoming = Incoming::new(alloc);
    'frames: loop {
        hear(alloc, link, &mut incoming)?;
        match parent.take_frame(agent, host, link, incoming.frame())? {
            Flow::GoesOn => {}
            Flow::Done => return Ok(()),
        }
    }
}
