ghost use Rattle.std.specs.Prelude.{◌≡◌, ◌<◌, ◌≤◌, ◌⊎◌, ◌∷◌, ℕ, List, None, Err, true, false, IfOk, IfErr, OnOk, OnErr};
ghost use Rattle.host_model.specs.Past.{Event};
ghost use Rattle.host_model.specs.Disks.{EveryDisk};
ghost use Rattle.host_model.specs.Moments.{Throughout};
ghost use Rattle.history.specs.declared.beat.OpenBeat.{OpenBeat as AnOpenBeat};
ghost use Rattle.history.specs.History.{Beat as HistoryBeat, collected};
ghost use Rattle.history.specs.Limits.{keeps_limits};
ghost use Rattle.tier_settings.specs.declared.settings.Settings.{Settings as ASettings};
ghost use Rattle.tier_settings.specs.Limits.{InLimits};
ghost use Rattle.agent_core.specs.Gaps.{side_share};
ghost use Rattle.beat_tiers.specs.State.{tier_floor};
ghost use Rattle.store_core.specs.Counts.{raised};
ghost use Rattle.store_core.specs.Store.{is_due, IsReady};
ghost use Rattle.agent_core.specs.Answers.{floor_of_history};
ghost use Rattle.agent_core.specs.Agent.{left_in};
ghost use Rattle.alarm_core.specs.UpTo.{IsUpTo};
ghost use Rattle.agent_core.specs.Alarms.{events_at, DefinesNothing, IsSteppingOf};
ghost use Rattle.agent_core.specs.Calls.{Beats, Creates, Lines, Logs, Opens, SetsHealth};
ghost use Rattle.agent_core.specs.Fed.{IsFed};
ghost use Rattle.agent_core.specs.Faults.{cause_of, fault_after, of_block, IsUnreplayed};
ghost use Rattle.agent_core.specs.Stands.{HoldsHistory, StandsForHistory};
ghost use Rattle.agent_core.specs.Left.{AwaitsAlarms, IsLeftBy};
ghost use Rattle.agent_core.specs.Notes.{notes_go_on};
ghost use Rattle.agent_core.specs.Replay.{HasReplayed, IsOpenedFor};
ghost use Rattle.agent_core.specs.Roles.{copies};
ghost use Rattle.agent_core.specs.Rules.{HasLimits, IsOpenBeat};
ghost use Rattle.agent_core.specs.Steps.{IsOpenStep, Takes};
ghost use Rattle.history.specs.Registry.{same_chart, same_dimension};
ghost use Rattle.history.specs.Regular.{AreApart};
ghost use Rattle.beat_entries.specs.Rules.{with_beat};
ghost use Rattle.beat_entries.specs.Taking.{IsJudged};
ghost use Rattle.agent_core.specs.Bound.{GrowsWithin};
ghost use Rattle.agent_core.specs.Keeping.{KeepsStore};
ghost use Rattle.agent_core.specs.Kept.{Follows, IsJudgedAt};

mod copies;
mod questions;

use crate::alarming::{Stepping, follow};
use crate::fault::{AgentFault, OpenFault};
use crate::keeping::{add, add_health, defines_some, make_room};
use crate::left::Left;
use crate::replaying::{open_store, replay_all};
use crate::reply::{Reply, Said};
use crate::side::{read_left, write_left};
use alarm_core::Log;
use beat_entries::{define_beat, judge_beat};
use chart_registry::Registry;
use collect_block::{Feed, Step};
use health_config::Config;
use history::{BlockFault, Line, NumberedBeat, OpenBeat};
use host_model::Host;
use std::alloc::Global;
use std::marker::Model;
use store_core::{CreateFault, Store, Why};
use tier_settings::Settings;

/// The agent of one history, with the host that its database is on. Each call on it is handed that host,
/// which since the agent was made or opened only its calls, and `tell`, have touched.
#[derive(Drop)]
pub struct Agent {
    alloc: Global,
    store: Store,
    /// What its beats left.
    left: Left,
    /// The last moment, or 0.
    last: u32,
    /// How many beats there are.
    count: u64,
    /// The first cause for which the agent must be opened again.
    fault: Option<Why>,
}

impl Model for Agent {
    ghost use Rattle.std.specs.Coded.{codes};
    ghost use Rattle.health_expr.specs.contracts.expr.Expr as expr;
    ghost use Rattle.agent_core.specs.Agent.{AgentState};

    ghost Value = { AgentState };

    ghost coded = { Prim.hlevel (codes, expr.the_row.coded) };

    ghost view = { λ agent. record {
      store = agent.store;
      registry = agent.left.registry;
      last_rows = agent.left.last_rows;
      latest = agent.left.latest;
      gaps = agent.left.gaps;
      alarms = agent.left.alarms;
      last = agent.last;
      count = agent.count;
      role = agent.left.role;
      fault = agent.fault;
    } };
}

/// The count after one more beat.
fn raised(count: u64) -> u64
    ensures { result ≡ raised count }
{
    count.saturating_add(1)
}

impl Agent {
    ghost use Rattle.agent_core.specs.Agent.{id_of, AgentIsReady, Fits, HasLeft, IsAgentOf};

    /// Makes the agent of a history without beats, and its database, where there is none.
    ///
    /// `Exists` where there is a database, unless the disk fails or memory runs out, and nothing is
    /// written then. At every moment a crash leaves what it might have left before the call, no
    /// database, or the one without beats; at `Ok` the last.
    pub fn create<H: Host>(
        alloc: Global,
        host: &mut H,
        settings: &Settings,
    ) -> Result<Agent, CreateFault>
        requires { InLimits settings.now }
        ensures { Creates H.honest (H.seen host.old)
            settings.now result (H.seen host.new) }
    {
        let left = Left::new(alloc)?;
        let side = write_left(alloc, &left, 0)?;
        let store = Store::create(alloc, host, settings, side)?;
        Ok(Agent {
            alloc,
            store,
            left,
            last: 0,
            count: 0,
            fault: None,
        })
    }

    /// Opens the database of an agent and goes through all that it holds.
    ///
    /// `NotADatabase` where there is none, unless the disk fails or memory runs out, and `Damaged`
    /// only where what is there stands for no history. With 1 to 4 it tells the first part of the
    /// files that is not in its form: 1 the checkpoint's file, 2 its body, 3 an extent, 4 the
    /// journal. With 5 all of these are in form, and the side of the checkpoint, a note or a point
    /// is bad. What the pages of the extents hold, and whether any beats leave that, is not asked.
    /// A side is bad where it is none, its charts and dimensions do not go on from nothing, or its
    /// alarms are of a text that is refused or of a chart that is not there. A note is bad where it
    /// is no entry of a beat with the moment of its record, does not go on from the side and the
    /// notes before, mixes copies with collected beats, has a definition that does not keep its
    /// limits, or is a configuration whose text is refused. A point is bad where it names a series
    /// that is not there. What a side says of last rows, last points and gaps is compared with
    /// nothing. The words and steps of points are not compared with their definition, and a gap's
    /// child and beginning are compared with nothing. The alarms are those of that history: each
    /// beat steps them as it did when it was stored. At `Ok` the agent is of each history that the
    /// disk stands for, and these are all that a crash leaves from then on. At every moment a crash
    /// leaves what it might have left before, and each file reads as before: the disk is only read
    /// and synced.
    pub fn open<H: Host>(alloc: Global, host: &mut H) -> Result<Agent, OpenFault>
        ensures { Opens H.honest (H.seen host.old)
            result (H.seen host.new) }
    {
        let store = open_store(alloc, host)?;
        Agent::replayed(alloc, store, host)
    }

    /// The agent of a store that was just opened, once all its beats are replayed.
    fn replayed<H: Host>(alloc: Global, mut store: Store, host: &mut H) -> Result<Agent, OpenFault>
        requires going { store.fault ≡ None }
        ensures replayed { IfOk result (HasReplayed store) }
        ensures of { IfOk result (λ agent. (past : List Event) (set : ASettings)
            (h : List HistoryBeat) → IsOpenedFor past store set h
            → IsAgentOf past agent set h) }
        ensures stands { IfErr result
            (λ fault. (past : List Event) (set : ASettings) (h : List HistoryBeat)
            → IsOpenedFor past store set h
            → fault ≡ OpenFault.Memory) }
        ensures left { IfOk result (HasLeft store.body.side store.waiting) }
        ensures notes { OnOk result (notes_go_on store.body.side store.waiting ≡ true) }
        ensures broken { IfErr result (λ fault. fault ≡ OpenFault.Damaged 5
            → notes_go_on store.body.side store.waiting ≡ false) }
        ensures ready { IfOk result (λ agent. (past : List Event) → IsReady H.honest past store
            → IsReady H.honest past agent.store) }
        ensures host { H.seen host.new ≡ H.seen host.old }
        ensures faults { IfErr result IsUnreplayed }
    {
        let mut left = read_left(alloc, store.side())?;
        replay_all(alloc, &mut store, host, &mut left)?;
        Ok(Agent {
            alloc,
            last: store.last(),
            count: store.count(),
            store,
            left,
            fault: None,
        })
    }

    /// Takes the next line of a collector's text, and at a MOMENT stores the beat that it closes.
    ///
    /// `Refused` exactly where the line may not stand there or the history does not take its beat, with the
    /// first reason, and then nothing of the agent has changed. At a CHART or a DIMENSION this is so of a feed
    /// that counts for the agent's registry, as a new one does and goes on to. The feed has taken only lines that
    /// were handed to `Agent::line` or to `Feed::line` and were not refused, and their definitions, as that of
    /// this line, keep their limits. Where the beat of a MOMENT is refused the feed has given it away. After
    /// `DiskFault`, which comes at a MOMENT alone, or `Memory` the agent must be opened again. A QUERY is answered
    /// with the reply of the history. A line that is neither a MOMENT nor a QUERY makes no call on the host.
    pub fn line<H: Host>(
        &mut self,
        host: &mut H,
        feed: &mut Feed,
        line: &Line,
    ) -> Result<Said, AgentFault>
        requires ready { AgentIsReady H.honest (H.seen host.old).past self.old }
        requires fed { IsFed feed.old }
        requires limits { keeps_limits line.now ≡ true }
        ensures { Lines H.honest (H.seen host.old) self.old feed.old
            line.now result (H.seen host.new) self.new feed.new }
    {
        if let Some(cause) = self.fault {
            return Err(AgentFault::Reopen(cause));
        }
        let copies = self.left.role.copies();
        let fed = feed.line(&self.left.registry, self.last, copies, line);
        self.take_fed(host, fed)
    }

    /// The same of a line that is given away: its texts are kept and not copied.
    pub fn take_line<H: Host>(
        &mut self,
        host: &mut H,
        feed: &mut Feed,
        line: Line,
    ) -> Result<Said, AgentFault>
        requires ready { AgentIsReady H.honest (H.seen host.old).past self.old }
        requires fed { IsFed feed.old }
        requires limits { keeps_limits line ≡ true }
        ensures { Lines H.honest (H.seen host.old) self.old feed.old
            line result (H.seen host.new) self.new feed.new }
    {
        if let Some(cause) = self.fault {
            return Err(AgentFault::Reopen(cause));
        }
        let copies = self.left.role.copies();
        let fed = feed.take_line(&self.left.registry, self.last, copies, line);
        self.take_fed(host, fed)
    }

    /// Does what a feed made of a line: a step, or its fault.
    fn take_fed<H: Host>(
        &mut self,
        host: &mut H,
        fed: Result<Step, BlockFault>,
    ) -> Result<Said, AgentFault>
        requires ready { AgentIsReady H.honest (H.seen host.old).past self.old }
        requires going { self.old.fault ≡ None }
        requires is_open { IfOk fed IsOpenStep }
        ensures took { IfOk fed (λ step. Takes H.honest (H.seen host.old) self.old
            step result (H.seen host.new) self.new) }
        ensures told { IfErr fed (λ fault. result ≡ Err (of_block fault)) }
        ensures spent { IfErr fed
            (λ fault. self.new ≡ record self.old { fault = cause_of (of_block fault) }) }
        ensures host { OnErr fed (H.seen host.new ≡ H.seen host.old) }
    {
        match fed {
            Ok(step) => self.take_step(host, step),
            Err(fault) => {
                let fault = AgentFault::from(fault);
                self.fault = fault.cause();
                Err(fault)
            }
        }
    }

    /// Does what a line led to.
    fn take_step<H: Host>(&mut self, host: &mut H, step: Step) -> Result<Said, AgentFault>
        requires ready { AgentIsReady H.honest (H.seen host.old).past self.old }
        requires going { self.old.fault ≡ None }
        requires is_open { IsOpenStep step }
        ensures { Takes H.honest (H.seen host.old) self.old
            step result (H.seen host.new) self.new }
    {
        match step {
            Step::Nothing => Ok(Said::Nothing),
            Step::Disabled => Ok(Said::Disabled),
            Step::Beat(beat, moment) => Ok(Said::Stored(self.beat(host, &beat, moment)?)),
            Step::Query(text) => Ok(Said::Table(self.query(host, text.as_str())?)),
        }
    }

    /// Stores a beat of a collector at this moment.
    ///
    /// `Refused` exactly where the history does not take it, with the first reason, and then nothing has
    /// changed. After `DiskFault` or `Memory` the agent must be opened again.
    pub fn beat<H: Host>(
        &mut self,
        host: &mut H,
        beat: &OpenBeat,
        moment: u32,
    ) -> Result<Reply, AgentFault>
        requires ready { AgentIsReady H.honest (H.seen host.old).past self.old }
        requires is_open { IsOpenBeat beat.now }
        ensures { Beats H.honest (H.seen host.old) self.old
            beat.now moment result (H.seen host.new) self.new }
    {
        if let Some(cause) = self.fault {
            return Err(AgentFault::Reopen(cause));
        }
        let numbered = match judge_beat(
            self.alloc,
            &self.left.registry,
            self.left.role.copies(),
            self.last,
            moment,
            beat,
        ) {
            Ok(numbered) => numbered,
            Err(fault) => {
                let fault = AgentFault::from(fault);
                self.fault = fault.cause();
                return Err(fault);
            }
        };
        match self.add_beat(host, &numbered) {
            Ok(()) => {
                let stepping = Stepping::Beat(moment, defines_some(beat));
                self.tell(host, stepping, moment)
            }
            Err(fault) => {
                self.fault = fault.cause();
                Err(fault)
            }
        }
    }

    /// Adds a beat that was judged, by number: first makes a checkpoint where one is due, and then
    /// has the registry take what the beat defines. The alarms have still to follow it. After an
    /// `Err` nothing of the store and of what was left is of use.
    fn add_beat<H: Host>(&mut self, host: &mut H, numbered: &NumberedBeat) -> Result<(), AgentFault>
        requires fits { Fits H.honest (H.seen host.old).past self.old }
        requires later { self.old.last < numbered.now.moment }
        requires judged { (beat : AnOpenBeat) × IsJudged self.old.registry beat numbered.now }
        ensures any_moment { H.honest → (moment : ℕ) (beat : AnOpenBeat) (set : ASettings)
            (h : List HistoryBeat) → IsJudgedAt self.old.registry moment beat numbered.now
            → HoldsHistory (H.seen host.old).past self.old.store set h
            → IsLeftBy set h (left_in self.old) → Follows h moment beat
            → Throughout (EveryDisk (λ disk. StandsForHistory set h disk
            ⊎ StandsForHistory set (collected moment beat ∷ h) disk)) (H.seen host.old).past
            (H.seen host.new).past }
        ensures done { OnOk result (H.honest → (moment : ℕ) (beat : AnOpenBeat)
            (set : ASettings) (h : List HistoryBeat)
            → IsJudgedAt self.old.registry moment beat numbered.now
            → HoldsHistory (H.seen host.old).past self.old.store set h
            → IsLeftBy set h (left_in self.old) → Follows h moment beat
            → HoldsHistory (H.seen host.new).past self.new.store set (collected moment beat ∷ h)
            × AwaitsAlarms set h (collected moment beat) (left_in self.new)) }
        ensures registry { OnOk result ((beat : AnOpenBeat)
            → IsJudged self.old.registry beat numbered.now
            → self.new.registry ≡ with_beat self.old.registry beat) }
        ensures charts { OnOk result (AreApart same_chart self.new.registry.charts) }
        ensures dimensions { OnOk result
            (AreApart same_dimension self.new.registry.dimensions) }
        ensures limits { OnOk result (HasLimits self.new.registry) }
        ensures untouched { is_due self.old.store ≡ false
            → self.new.store.body ≡ self.old.store.body }
        ensures bound { H.honest → (set : ASettings) (h : List HistoryBeat)
            → HoldsHistory (H.seen host.old).past self.old.store set h
            → IsLeftBy set h (left_in self.old) → (limit : ℕ)
            → side_share set ≤ limit
            → GrowsWithin set limit (H.seen host.old).past self.old.store
            (H.seen host.new).past self.new.store }
        ensures gaps { self.new.gaps ≡ self.old.gaps }
        ensures keeps { KeepsStore H.honest (H.seen host.old) self.old.store result
            (H.seen host.new) self.new.store }
        ensures stored { OnOk result (self.new.store.tiers.last ≡ numbered.now.moment) }
        ensures stays { self.new ≡ record self.old {
          store = self.new.store;
          registry = self.new.registry;
          last_rows = self.new.last_rows;
          latest = self.new.latest;
          gaps = self.new.gaps;
          role = self.new.role;
        } }
    {
        make_room(self.alloc, &mut self.store, &self.left, host)?;
        define_beat(&mut self.left.registry, numbered)?;
        add(self.alloc, &mut self.store, &mut self.left, host, numbered)
    }

    /// Has the alarms follow a beat that is stored, and counts it. This is then the last moment.
    fn tell<H: Host>(
        &mut self,
        host: &mut H,
        stepping: Stepping,
        last: u32,
    ) -> Result<Reply, AgentFault>
        requires going { self.old.fault ≡ None }
        requires store_going { self.old.store.fault ≡ None }
        requires same { DefinesNothing stepping → IsUpTo self.old.alarms self.old.registry }
        ensures left_by { OnOk result ((past : List Event) (set : ASettings)
            (h : List HistoryBeat) (beat : HistoryBeat)
            → HoldsHistory past self.old.store set (beat ∷ h)
            → AwaitsAlarms set h beat (left_in self.old) → IsSteppingOf beat stepping
            → IsLeftBy set (beat ∷ h) (left_in self.new)) }
        ensures events { IfOk result (λ reply. (past : List Event) (set : ASettings)
            (h : List HistoryBeat) (beat : HistoryBeat)
            → HoldsHistory past self.old.store set (beat ∷ h)
            → AwaitsAlarms set h beat (left_in self.old) → IsSteppingOf beat stepping
            → reply.events ≡ events_at set (beat ∷ h)) }
        ensures number { IfOk result (λ reply. reply.count ≡ self.new.count) }
        ensures told { OnOk result (self.new ≡ record self.old {
          alarms = self.new.alarms;
          last = last;
          count = raised self.old.count;
        }) }
        ensures store { self.new.store ≡ self.old.store }
        ensures gaps { self.new.gaps ≡ self.old.gaps }
        ensures up_to { OnOk result (IsUpTo self.new.alarms self.new.registry) }
        ensures spent { OnErr result (self.new ≡ record self.old {
          alarms = self.new.alarms;
          fault = self.new.fault;
        }) }
        ensures fault { self.new.fault ≡ fault_after self.old.fault result }
        ensures memory { IfErr result (λ fault. fault ≡ AgentFault.Memory) }
        ensures host { H.seen host.new ≡ H.seen host.old }
    {
        match follow(self.alloc, &mut self.left, &mut self.store, host, stepping) {
            Ok(events) => {
                self.last = last;
                self.count = raised(self.count);
                Ok(Reply {
                    count: self.count,
                    events,
                })
            }
            Err(fault) => {
                let fault = AgentFault::from(fault);
                self.fault = fault.cause();
                Err(fault)
            }
        }
    }

    /// Stores another configuration of health, and gives the events of the alarms that it removes.
    ///
    /// `Health` exactly where the text is refused, with the first reason, and then nothing has changed; `Memory`
    /// may come before. After `DiskFault` or `Memory` the agent must be opened again. The configuration is a beat
    /// without a moment: the last moment stays, and no alarm is stepped.
    pub fn set_health<H: Host>(&mut self, host: &mut H, text: &[u8]) -> Result<Reply, AgentFault>
        requires ready { AgentIsReady H.honest (H.seen host.old).past self.old }
        ensures { SetsHealth H.honest (H.seen host.old) self.old
            text.now result (H.seen host.new) self.new }
    {
        if let Some(cause) = self.fault {
            return Err(AgentFault::Reopen(cause));
        }
        let config = match Config::read(self.alloc, text) {
            Ok(config) => config,
            Err(fault) => {
                let fault = AgentFault::from(fault);
                self.fault = fault.cause();
                return Err(fault);
            }
        };
        match add_health(self.alloc, &mut self.store, &self.left, host, text) {
            Ok(()) => {
                let last = self.last;
                self.left.latest.before = last;
                self.tell(host, Stepping::Configuration(config), last)
            }
            Err(fault) => {
                self.fault = fault.cause();
                Err(fault)
            }
        }
    }

    /// The log of the alarms: the last 1,000 events, the earliest first, and how many came before them.
    ///
    /// `Memory` changes nothing: the agent needs not be opened again.
    pub fn log(&self) -> Result<Log, AgentFault>
        ensures { Logs self.now result }
    {
        if let Some(cause) = self.fault {
            return Err(AgentFault::Reopen(cause));
        }
        Ok(self.left.alarms.log()?)
    }

    /// The floor of tier 0, 1 or 2, in seconds: the first moment of which the tier still answers, or 0.
    pub fn floor(&self, tier: u8) -> u32
        requires { tier < 3 }
        ensures of { (past : List Event) (set : ASettings) (h : List HistoryBeat)
            → IsAgentOf past self.now set h → result ≡ floor_of_history set h tier }
        ensures kept { result ≡ tier_floor self.now.store.tiers tier }
    {
        self.store.floor(tier)
    }

    /// How many beats there are: at most 2^64 - 1.
    pub fn count(&self) -> u64
        ensures { result ≡ self.now.count }
    {
        self.count
    }

    /// The last moment, or 0.
    pub fn last(&self) -> u32
        ensures { result ≡ self.now.last }
    {
        self.last
    }

    /// The number of the history.
    pub fn id(&self) -> u64
        ensures { result ≡ id_of self.now }
    {
        self.store.settings().id
    }

    /// The charts and dimensions, by number.
    pub fn registry(&self) -> &Registry
        ensures { result.now ≡ self.now.registry }
    {
        &self.left.registry
    }
}
