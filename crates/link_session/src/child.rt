//! A child, which sends its history to a parent.
ghost use Rattle.std.specs.Prelude.{◌≡◌, ℕ, Err, IsErrOf};
ghost use Rattle.host_model.specs.Cause.{HasCause};
ghost use Rattle.agent_core.specs.Agent.{id_of, AgentIsReady};
ghost use Rattle.agent_core.specs.Copies.{data_of_history};
ghost use Rattle.link_session.specs.Child.{answers, child_does, hears_ask, hears_bye, hears_have};
ghost use Rattle.link_session.specs.Sending.{ChildTakes, SendsHistory};
ghost use Rattle.link_frames.specs.declared.frame.Frame.TheVariants as frame;
ghost use Rattle.link_session.specs.Session.{link_seen, DoesSo, IsRefusing};
ghost use Rattle.link_session.specs.Taking.{ChildEndsAt, EndsOnlyAt};

use crate::fault::{PeerFault, SessionFault};
use crate::flow::Flow;
use crate::incoming::Incoming;
use crate::saying::{answer_with, hear, refuse, say};
use agent_core::Agent;
use host_model::{Host, Link};
use link_frames::{BAD_FRAME, DONE, Frame, WRONG_CHILD};
use replication::Ask;
use std::alloc::Global;

/// What a child keeps of its session.
#[derive(Drop)]
struct Child {
    alloc: Global,
    /// Where the Data ended that was sent last.
    last: Option<u32>,
}

impl Child {
    /// Sends the Data that answers, or says that there is none.
    fn answer<H: Host, L: Link>(
        &mut self,
        agent: &mut Agent,
        host: &mut H,
        link: &mut L,
        ask: &Ask,
    ) -> Result<Flow, SessionFault>
        requires { AgentIsReady H.honest (H.seen host.old).past agent.old }
        ensures takes { ChildTakes H.honest (H.seen host.old) agent.old
            (λ set h. answers self.old.last (data_of_history set h ask.now))
            result (H.seen host.new) agent.new self.new.last (L.sent link.old) (L.sent link.new) }
        ensures ends { EndsOnlyAt (λ ended. ended ≡ Ok tt) result }
        ensures left { L.left link.new ≡ L.left link.old }
        ensures cause { HasCause (L.faults link.old) (L.faults link.new)
            (IsErrOf result SessionFault.LinkFault) }
    {
        match agent.data(host, ask)? {
            Some(message) => {
                self.last = Some(message.upto);
                answer_with(self.alloc, link, &Frame::Data(message), Flow::GoesOn)
            }
            None => answer_with(self.alloc, link, &Frame::Bye(DONE), Flow::Done),
        }
    }

    /// The parent has all up to a moment.
    fn hear_have<H: Host, L: Link>(
        &mut self,
        agent: &mut Agent,
        host: &mut H,
        link: &mut L,
        had: u32,
    ) -> Result<Flow, SessionFault>
        requires { AgentIsReady H.honest (H.seen host.old).past agent.old }
        ensures takes { ChildTakes H.honest (H.seen host.old) agent.old
            (λ set h. hears_have set.id (data_of_history set h) self.old.last had)
            result (H.seen host.new) agent.new self.new.last (L.sent link.old) (L.sent link.new) }
        ensures ends { EndsOnlyAt
            (λ ended. ChildEndsAt (id_of agent.old) ended (frame.Have had)) result }
        ensures left { L.left link.new ≡ L.left link.old }
        ensures cause { HasCause (L.faults link.old) (L.faults link.new)
            (IsErrOf result SessionFault.LinkFault) }
    {
        let Some(upto) = self.last else {
            return Err(refuse(self.alloc, link, PeerFault::BadFrame));
        };
        if had == upto {
            let ask = Ask {
                child: agent.id(),
                last: had,
            };
            return self.answer(agent, host, link, &ask);
        }
        if had < upto {
            return Ok(Flow::GoesOn);
        }
        Err(refuse(self.alloc, link, PeerFault::BadFrame))
    }

    /// The parent asks.
    fn hear_ask<H: Host, L: Link>(
        &mut self,
        agent: &mut Agent,
        host: &mut H,
        link: &mut L,
        ask: &Ask,
    ) -> Result<Flow, SessionFault>
        requires { AgentIsReady H.honest (H.seen host.old).past agent.old }
        ensures takes { ChildTakes H.honest (H.seen host.old) agent.old
            (λ set h. hears_ask set.id (data_of_history set h) self.old.last ask.now)
            result (H.seen host.new) agent.new self.new.last (L.sent link.old) (L.sent link.new) }
        ensures ends { EndsOnlyAt
            (λ ended. ChildEndsAt (id_of agent.old) ended (frame.Ask ask.now)) result }
        ensures left { L.left link.new ≡ L.left link.old }
        ensures cause { HasCause (L.faults link.old) (L.faults link.new)
            (IsErrOf result SessionFault.LinkFault) }
    {
        if ask.child != agent.id() {
            return Err(refuse(self.alloc, link, PeerFault::BadFrame));
        }
        self.answer(agent, host, link, ask)
    }

    /// The parent goes. Says how the session ends.
    fn hear_bye<L: Link>(&self, link: &mut L, reason: u8) -> SessionFault
        ensures does { DoesSo (hears_bye reason self.now.last) self.now.last (Err result)
            (L.sent link.old) (L.sent link.new) }
        ensures faults { IsRefusing result }
        ensures ends { (id : ℕ)
            → EndsOnlyAt (λ ended. ChildEndsAt id ended (frame.Bye reason)) (Err result) }
        ensures left { L.left link.new ≡ L.left link.old }
        ensures cause { HasCause (L.faults link.old) (L.faults link.new)
            (result ≡ SessionFault.LinkFault) }
    {
        if reason == WRONG_CHILD {
            return SessionFault::PeerRefused(PeerFault::WrongChild);
        }
        if reason == BAD_FRAME {
            return SessionFault::PeerRefused(PeerFault::BadFrame);
        }
        refuse(self.alloc, link, PeerFault::BadFrame)
    }

    /// Takes the next frame.
    fn take_frame<H: Host, L: Link>(
        &mut self,
        agent: &mut Agent,
        host: &mut H,
        link: &mut L,
        frame: &Frame,
    ) -> Result<Flow, SessionFault>
        requires { AgentIsReady H.honest (H.seen host.old).past agent.old }
        ensures takes { ChildTakes H.honest (H.seen host.old) agent.old
            (λ set h. child_does set.id (data_of_history set h) self.old.last frame.now)
            result (H.seen host.new) agent.new self.new.last (L.sent link.old) (L.sent link.new) }
        ensures ends { EndsOnlyAt
            (λ ended. ChildEndsAt (id_of agent.old) ended frame.now) result }
        ensures left { L.left link.new ≡ L.left link.old }
        ensures cause { HasCause (L.faults link.old) (L.faults link.new)
            (IsErrOf result SessionFault.LinkFault) }
    {
        match frame {
            Frame::Ask(ask) => self.hear_ask(agent, host, link, ask),
            Frame::Have(had) => self.hear_have(agent, host, link, *had),
            Frame::Bye(reason) => Err(self.hear_bye(link, *reason)),
            Frame::Hello(_) => Err(refuse(self.alloc, link, PeerFault::BadFrame)),
            Frame::Data(_) => Err(refuse(self.alloc, link, PeerFault::BadFrame)),
        }
    }
}

/// Sends the history over a link to a parent, from where that asks, until the parent has all of it.
///
/// It tells its id, and answers the frames of the parent one by one, until it has nothing more to
/// send. Nothing is stored and nothing is told. After `Agent` with `Memory` the agent must be opened again.
/// No more than 2^40 bytes are taken of the link.
pub fn send<H: Host, L: Link>(
    alloc: Global,
    agent: &mut Agent,
    host: &mut H,
    link: &mut L,
) -> Result<(), SessionFault>
    requires { AgentIsReady H.honest (H.seen host.old).past agent.old }
    ensures { SendsHistory H.honest (H.seen host.old) agent.old
        (link_seen (L.sent link.old) (L.left link.old) (L.faults link.old)) result
        (H.seen host.new) agent.new
        (link_seen (L.sent link.new) (L.left link.new) (L.faults link.new)) }
{
    say(alloc, link, &Frame::Hello(agent.id()))?;
    let mut child = Child { alloc, last: None };
    let mut incoming = Incoming::new(alloc);
    'frames: loop {
        hear(alloc, link, &mut incoming)?;
        match child.take_frame(agent, host, link, incoming.frame())? {
            Flow::GoesOn => {}
            Flow::Done => return Ok(()),
        }
    }
}
