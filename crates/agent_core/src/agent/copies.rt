//! The calls by which an agent copies a child, and by which a parent copies it.

ghost use Rattle.std.specs.Prelude.{◌≡◌, ◌<◌, ◌≤◌, ◌+◌, ◌^◌, ℕ, [], List, length, None, IfOk, IfErr, IsErrOf, OnOk, OnErr};
ghost use Rattle.host_model.specs.Past.{Event};
ghost use Rattle.host_model.specs.Disks.{EveryDisk};
ghost use Rattle.host_model.specs.Cause.{HasCause};
ghost use Rattle.host_model.specs.Moments.{Throughout};
ghost use Rattle.history.specs.History.{Beat as HistoryBeat, child as child_of};
ghost use Rattle.tier_settings.specs.declared.settings.Settings.{Settings as ASettings};
ghost use Rattle.store_core.specs.disk.Holds.{OnlyOwn};
ghost use Rattle.store_core.specs.Counts.{counted};
ghost use Rattle.replication.specs.Verdict.{is_stored};
ghost use Rattle.link_frames.specs.DataForm.{IsData};
ghost use Rattle.agent_core.specs.Bound.{GrowsWithin};
ghost use Rattle.agent_core.specs.Calls.{agent_verdict, AnswersAsk, TakesData};
ghost use Rattle.agent_core.specs.Copying.{beats_of, copy_refusal, events_onto};
ghost use Rattle.agent_core.specs.Faults.{fault_after, IsSpending};
ghost use Rattle.agent_core.specs.Gaps.{side_share};
ghost use Rattle.agent_core.specs.Kept.{onto};
ghost use Rattle.agent_core.specs.Stands.{StandsForPrefix};
ghost use Rattle.agent_core.specs.Roles.{child_in};

use super::Agent;
use crate::asking;
use crate::copying::{beats_in, is_stored};
use crate::fault::AgentFault;
use crate::left::Role;
use crate::names::copy_refusal;
use crate::reply::Reply;
use crate::storing::add_message;
use alarm_core::EventList;
use host_model::Host;
use replication::{Ask, Data, Parent, Verdict};
use std::alloc::Global;

/// The count after so many beats more.
fn raised_by(count: u64, more: u64) -> u64
    ensures { result ≡ counted (count + more) }
{
    count.saturating_add(more)
}

/// The reply where nothing is stored, after so many beats.
fn nothing_stored(alloc: Global, count: u64) -> Reply
    ensures reply { result ≡ record { count = count; events = [] } }
    ensures within { count < 2 ^ 64 }
{
    Reply {
        count,
        events: EventList::new(alloc),
    }
}

impl Agent {
    ghost use Rattle.agent_core.specs.Agent.{id_of, AgentIsReady, IsAgentOf};

    /// Takes a message of a child. Where it begins at the last moment, the gap before it and its beats are stored,
    /// and the reply has the events of all of them.
    ///
    /// The verdict is that of a copy of this child that ends at the last moment; where it is not `Stored`, nothing
    /// has changed. A message that is to be stored is `Refused` exactly where this history has collected beats, or its
    /// names change an update_every or are too many, with the first reason, and then nothing has changed either.
    /// After `DiskFault` or `Memory` the agent must be opened again, and then has the first of the gap and the beats,
    /// with none or with all of them.
    pub fn take<H: Host>(
        &mut self,
        host: &mut H,
        message: &Data,
    ) -> Result<(Verdict, Reply), AgentFault>
        requires ready { AgentIsReady H.honest (H.seen host.old).past self.old }
        requires form { IsData message.now }
        ensures { TakesData H.honest (H.seen host.old) self.old
            message.now result (H.seen host.new) self.new }
    {
        if let Some(cause) = self.fault {
            return Err(AgentFault::Reopen(cause));
        }
        let verdict = self.verdict(message);
        if !is_stored(verdict) {
            return Ok((verdict, nothing_stored(self.alloc, self.count)));
        }
        if let Some(reason) = copy_refusal(&self.left.registry, self.left.role, message) {
            return Err(AgentFault::Refused(reason));
        }
        let reply = self.add_copies(host, message)?;
        Ok((verdict, reply))
    }

    /// What the agent makes of a message of a child.
    fn verdict(&self, message: &Data) -> Verdict
        ensures { result ≡ agent_verdict self.now message.now }
    {
        Parent::new(self.left.role.child(), self.last).take(message)
    }

    /// Stores a message that begins at the last moment, against which nothing stands.
    fn add_copies<H: Host>(&mut self, host: &mut H, message: &Data) -> Result<Reply, AgentFault>
        requires ready { AgentIsReady H.honest (H.seen host.old).past self.old }
        requires going { self.old.fault ≡ None }
        requires form { IsData message.now }
        requires at { message.now.prev ≡ self.old.last }
        requires free { copy_refusal self.old.registry self.old.role message.now ≡ None }
        ensures any_moment { H.honest → (set : ASettings) (h : List HistoryBeat)
            → IsAgentOf (H.seen host.old).past self.old set h
            → Throughout (EveryDisk (StandsForPrefix set h
            (beats_of self.old.registry message.now))) (H.seen host.old).past
            (H.seen host.new).past }
        ensures done { OnOk result
            (H.honest → (set : ASettings) (h : List HistoryBeat)
            → IsAgentOf (H.seen host.old).past self.old set h
            → IsAgentOf (H.seen host.new).past self.new set
            (onto h (beats_of self.old.registry message.now))) }
        ensures number { IfOk result (λ reply. reply.count ≡ self.new.count) }
        ensures events { IfOk result
            (λ reply. H.honest → (set : ASettings) (h : List HistoryBeat)
            → IsAgentOf (H.seen host.old).past self.old set h
            → reply.events ≡ events_onto set h (beats_of self.old.registry message.now)) }
        ensures counts { OnOk result (self.new.count
            ≡ counted (self.old.count + length (beats_of self.old.registry message.now))) }
        ensures last { OnOk result (self.new.last ≡ message.now.upto) }
        ensures role { OnOk result (self.new.role ≡ Role.Copies message.now.child) }
        ensures faults { IfErr result IsSpending }
        ensures fault { self.new.fault ≡ fault_after self.old.fault result }
        ensures stays { OnErr result
            ((self.new.count ≡ self.old.count) × (self.new.last ≡ self.old.last)) }
        ensures id { id_of self.new ≡ id_of self.old }
        ensures ready { AgentIsReady H.honest (H.seen host.new).past self.new }
        ensures cause { HasCause (H.seen host.old).disk_faults (H.seen host.new).disk_faults
            (IsErrOf result AgentFault.DiskFault) }
        ensures bound { H.honest → (set : ASettings) (h : List HistoryBeat)
            → IsAgentOf (H.seen host.old).past self.old set h → (limit : ℕ)
            → side_share set ≤ limit
            → GrowsWithin set limit (H.seen host.old).past self.old.store
            (H.seen host.new).past self.new.store }
        ensures only_here { H.honest
            → OnlyOwn (H.seen host.old).past (H.seen host.new).past }
        ensures tells { (H.seen host.new).tell_faults ≡ (H.seen host.old).tell_faults }
    {
        let added = add_message(self.alloc, &mut self.store, &mut self.left, host, message);
        match added {
            Ok(told) => {
                self.last = message.upto;
                self.count = raised_by(self.count, beats_in(message));
                Ok(Reply {
                    count: self.count,
                    events: told,
                })
            }
            Err(fault) => {
                self.fault = fault.cause();
                Err(fault)
            }
        }
    }

    /// What this history answers to a parent that asks for the beats above a moment: of those with points that
    /// are kept, the first of them, with the names of their series. None where there are none, and where another
    /// history is asked.
    ///
    /// Nothing is stored. After `Memory` the agent must be opened again.
    pub fn data<H: Host>(&mut self, host: &mut H, ask: &Ask) -> Result<Option<Data>, AgentFault>
        requires { AgentIsReady H.honest (H.seen host.old).past self.old }
        ensures { AnswersAsk H.honest (H.seen host.old) self.old ask.now
            result (H.seen host.new) self.new }
    {
        if let Some(cause) = self.fault {
            return Err(AgentFault::Reopen(cause));
        }
        match asking::answer(self.alloc, &mut self.store, &self.left.registry, host, ask) {
            Ok(answer) => Ok(answer),
            Err(fault) => {
                self.fault = fault.cause();
                Err(fault)
            }
        }
    }

    /// The child that it copies, if it copies.
    pub fn child(&self) -> Option<u64>
        ensures value { result ≡ child_in self.now.role }
        ensures of { (past : List Event) (set : ASettings) (h : List HistoryBeat)
            → IsAgentOf past self.now set h → result ≡ child_of h }
    {
        self.left.role.child()
    }

    /// What it asks a child: the beats above its last moment.
    pub fn ask(&self, child: u64) -> Ask
        ensures { result ≡ record { child = child; last = self.now.last } }
    {
        Parent::new(self.left.role.child(), self.last).ask(child)
    }
}
