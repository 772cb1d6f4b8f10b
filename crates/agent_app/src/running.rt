//! A text whose beats are stored, line by line.
ghost use Rattle.std.specs.Prelude.{◌≡◌, ◌<◌, ◌≤◌, ◌∷◌, ℕ, List, [], take, true, IsErr, IsErrOf, IfErr, OnOk, OnErr};
ghost use Rattle.host_model.specs.Cause.{HasCause, Rose};
ghost use Rattle.host_model.specs.Past.{Told, MayAdd};
ghost use Rattle.plugin_text.specs.Answer.{IsFaultFor};
ghost use Rattle.plugin_text.specs.Line.{line as line_of};
ghost use Rattle.plugin_text.specs.Lines.{fits};
ghost use Rattle.history.specs.declared.limits.TheConstants.{UPDATE_EVERY_LIMIT};
ghost use Rattle.history.specs.Limits.{keeps_limits};
ghost use Rattle.history.specs.Registry.{Registry};
ghost use Rattle.collect_block.specs.Feed.{CountsFor, IsFeedOf};
ghost use Rattle.agent_core.specs.Fed.{IsFed};
ghost use Rattle.agent_core.specs.Replies.{reply_text};
ghost use Rattle.agent_app.specs.Running.{run_acts, IsCutShort, IsFit, TellsRefusal, TakesLine};

use crate::refusals::{push_refusal, refusal_status};
use crate::statuses::agent_status;
use agent_core::{Agent, AgentFault, Reply, Said, write_reply};
use collect_block::Feed;
use history::Line;
use host_model::{Failed, Host, Status};
use line_stream::Taker;
use plugin_text::{LineFault, Refusal, read_line};
use std::alloc::Global;

/// What is kept of a text whose beats are stored: the agent that has them, and the open beat.
#[derive(Drop)]
pub(crate) struct Running {
    pub(crate) alloc: Global,
    pub(crate) agent: Agent,
    pub(crate) feed: Feed,
}

/// Tells a text whole, as one event of the host.
pub(crate) fn tell_text<H: Host>(host: &mut H, text: &str) -> Result<(), Failed>
    ensures done { OnOk result (H.honest →
        (H.seen host.new).past ≡ Told text.now ∷ (H.seen host.old).past) }
    ensures torn { OnErr result (H.honest →
        MayAdd (λ n. Told (take n text.now)) (H.seen host.old).past (H.seen host.new).past) }
    ensures cause { HasCause (H.seen host.old).tell_faults (H.seen host.new).tell_faults
        (IsErr result) }
    ensures disk { (H.seen host.new).disk_faults ≡ (H.seen host.old).disk_faults }
{
    host.tell(text.as_bytes())
}

/// Tells a refusal, which ends the run.
pub(crate) fn tell_refusal<H: Host>(
    alloc: Global,
    host: &mut H,
    line: u64,
    refusal: Refusal,
) -> Status
    ensures tells { TellsRefusal result H.honest line refusal
        (H.seen host.old).past (H.seen host.new).past
        (Rose (H.seen host.old).tell_faults (H.seen host.new).tell_faults) }
    ensures cause { HasCause (H.seen host.old).tell_faults (H.seen host.new).tell_faults
        (result ≡ Status.TellFault) }
    ensures disk { (H.seen host.new).disk_faults ≡ (H.seen host.old).disk_faults }
{
    let mut out = String::new(alloc);
    if push_refusal(&mut out, line, refusal).is_err() {
        return Status::Memory;
    }
    match tell_text(host, out.as_str()) {
        Ok(()) => refusal_status(line, refusal),
        Err(_) => Status::TellFault,
    }
}

/// Tells a text whole, or says how the run ends.
fn tell_whole<H: Host>(host: &mut H, text: &str) -> Result<(), Status>
    ensures done { OnOk result (H.honest →
        (H.seen host.new).past ≡ Told text.now ∷ (H.seen host.old).past) }
    ensures torn { IfErr result (λ status. IsCutShort status H.honest text.now
        (H.seen host.old).past (H.seen host.new).past
        (Rose (H.seen host.old).tell_faults (H.seen host.new).tell_faults)) }
    ensures cause { HasCause (H.seen host.old).tell_faults (H.seen host.new).tell_faults
        (IsErrOf result Status.TellFault) }
    ensures disk { (H.seen host.new).disk_faults ≡ (H.seen host.old).disk_faults }
{
    match tell_text(host, text) {
        Ok(()) => Ok(()),
        Err(_) => Err(Status::TellFault),
    }
}

/// Tells that a beat is stored, and the events that it made.
pub(crate) fn tell_stored<H: Host>(alloc: Global, host: &mut H, reply: &Reply) -> Result<(), Status>
    ensures done { OnOk result (H.honest →
        (H.seen host.new).past ≡ Told (reply_text reply.now) ∷ (H.seen host.old).past) }
    ensures torn { IfErr result (λ status. IsCutShort status H.honest (reply_text reply.now)
        (H.seen host.old).past (H.seen host.new).past
        (Rose (H.seen host.old).tell_faults (H.seen host.new).tell_faults)) }
    ensures cause { HasCause (H.seen host.old).tell_faults (H.seen host.new).tell_faults
        (IsErrOf result Status.TellFault) }
    ensures disk { (H.seen host.new).disk_faults ≡ (H.seen host.old).disk_faults }
{
    let Ok(text) = write_reply(alloc, reply) else {
        return Err(Status::Memory);
    };
    tell_whole(host, text.as_str())
}

impl Running {
    /// A text of which nothing was taken. `every` is the update_every of the charts whose line leaves it open, in
    /// seconds.
    pub(crate) fn new(alloc: Global, agent: Agent, every: u32) -> Running
        requires every { 0 < every }
        requires limit { every ≤ UPDATE_EVERY_LIMIT }
        ensures agent { result.agent ≡ agent }
        ensures feed { IsFeedOf result.feed every [] }
        ensures counts { (registry : Registry) → CountsFor result.feed registry }
        ensures fed { IsFed result.feed }
    {
        Running {
            alloc,
            agent,
            feed: Feed::new(alloc, every),
        }
    }

    /// Refuses a line that says nothing, for this reason, and says how the run ends.
    fn refuse<H: Host>(&self, host: &mut H, number: u64, fault: LineFault) -> Status
        ensures takes { (bytes : List ℕ) → IsFaultFor (line_of bytes) fault → fits bytes ≡ true
            → TakesLine H.honest self.now (H.seen host.old) number bytes (Err result)
            self.now (H.seen host.new) }
    {
        match fault {
            LineFault::Memory => Status::Memory,
            _ => tell_refusal(self.alloc, host, number, Refusal::Line(fault)),
        }
    }

    /// Takes a line that says this. `Err` is how the run ends.
    fn take<H: Host>(&mut self, host: &mut H, number: u64, said: Line) -> Result<(), Status>
        requires ready { IsFit H.honest self.old (H.seen host.old) }
        requires limits { keeps_limits said ≡ true }
        ensures takes { (bytes : List ℕ) → line_of bytes ≡ Ok said → fits bytes ≡ true
            → TakesLine H.honest self.old (H.seen host.old) number bytes result
            self.new (H.seen host.new) }
        ensures ready { OnOk result (IsFit H.honest self.new (H.seen host.new)) }
    {
        match self.agent.take_line(host, &mut self.feed, said) {
            Ok(Said::Nothing) => Ok(()),
            Ok(Said::Stored(reply)) => tell_stored(self.alloc, host, &reply),
            Ok(Said::Table(reply)) => tell_whole(host, reply.as_str()),
            Ok(Said::Disabled) => Err(Status::Ok),
            Err(AgentFault::Refused(fault)) => {
                Err(tell_refusal(self.alloc, host, number, Refusal::Block(fault)))
            }
            Err(fault) => Err(agent_status(fault)),
        }
    }
}

impl<H: Host> Taker<H> for Running {
    ghost ready = { λ running host number. IsFit H.honest running (H.seen host) };

    ghost acts = { run_acts H.honest H.seen };

    fn take_line(&mut self, host: &mut H, number: u64, line: &[u8]) -> Result<(), Status> {
        match read_line(self.alloc, line) {
            Ok(said) => self.take(host, number, said),
            Err(fault) => Err(self.refuse(host, number, fault)),
        }
    }

    fn pause(&mut self, _host: &mut H) -> Result<(), Status> {
        Ok(())
    }

    fn end(&mut self, host: &mut H, lines: u64, rest: &[u8]) -> Status {
        match self.feed.end(rest) {
            Ok(()) => Status::Ok,
            Err(fault) => tell_refusal(self.alloc, host, lines, Refusal::Block(fault)),
        }
    }

    fn overflow(&mut self, host: &mut H, number: u64) -> Status {
        let refusal = Refusal::Line(LineFault::LineTooLong);
        tell_refusal(self.alloc, host, number, refusal)
    }
}
