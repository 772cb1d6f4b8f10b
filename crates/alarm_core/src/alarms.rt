//! All alarms of a history: their states and their log.
ghost use Rattle.std.specs.Prelude.{◌≡◌, map, IsTrue};
ghost use Rattle.health_config.specs.Entity.{alarm_of};
ghost use Rattle.alarm_events.specs.declared.log.TheConstants.{SHOWN};
ghost use Rattle.alarm_core.specs.Charts.{AreTaken, wanted_on};

use crate::beats::step_states;
use crate::charts::{ChartWordsList, Pairing, are_states_of, pairing_of, renew};
use crate::fault::{AlarmFault, RestoreFault};
use crate::keep::kept_states;
use crate::latest::Latest;
use crate::pairing::{Turn, pair_states};
use crate::pairs::PairList;
use crate::restore::{Restored, are_known, read_config, restore};
use crate::runs::RunList;
use crate::sight::Sight;
use crate::state::{NameList, State};
use crate::telling::Told;
use alarm_events::{EventList, EventLog, KeptAlarms, Log};
use chart_registry::Registry;
use fixed_num::ByteList;
use health_config::{AlarmList, Config};
use query_engine::Points;
use std::alloc::{AllocError, Global};
use std::mem::replace;

/// The alarms of a configuration, how they stand for each chart, and the log of their events.
///
/// Contracts see it by `held`.
#[derive(Debug, Drop)]
pub struct Alarms {
    alloc: Global,
    text: ByteList,
    alarms: AlarmList,
    /// The names of alarms that were found with a state, and that the configuration has not for its chart.
    lost: NameList,
    states: Vec<State>,
    told: Told,
    /// The alarms that are computed for the charts that were there when this was worked out.
    pairing: Pairing,
    ghost paired: { pairing.pairs ≡ wanted_on (map alarm_of alarms) pairing.charts },
    ghost taken: { IsTrue pairing.taken → AreTaken states.items lost pairing.pairs },
}

impl Alarms {
    ghost use Rattle.std.specs.Prelude.{◌≤◌, ◌⊎◌, [], length, Some, None};
    ghost use Rattle.alarm_core.specs.Kept.{kept, held_from, of_kept};
    ghost use Rattle.std.specs.Prelude.{ℕ, List, IfOk, IfErr, OnOk, IsErrOf};
    ghost use Rattle.health_config.specs.ConfigOf.{entities_of, text_of};
    ghost use Rattle.host_model.specs.Cause.{HasCause};
    ghost use Rattle.tier_rollup.specs.declared.point.Point.{Point as APoint};
    ghost use Rattle.alarm_core.specs.UpTo.{IsUpTo};
    ghost use Rattle.history.specs.Registry.{Registry as ARegistry};
    ghost use Rattle.alarm_core.specs.Course.{held, nothing, configured, stepped_by};
    ghost use Rattle.alarm_core.specs.Taking.{TakesPairs};
    ghost use Rattle.alarm_core.specs.Beats.{Steps, beat_with};
    ghost use Rattle.alarm_core.specs.Series.{series_of_all};
    ghost use Rattle.alarm_core.specs.declared.fault.AlarmFault.TheVariants.{Memory};

    /// No alarms, and an empty log. It has room for all events that the log will show.
    pub fn new(alloc: Global) -> Result<Alarms, AlarmFault>
        ensures held { IfOk result (λ alarms. held alarms ≡ nothing) }
        ensures up_to { IfOk result (λ alarms. (registry : ARegistry) → IsUpTo alarms registry) }
        ensures memory { IfErr result (λ fault. fault ≡ Memory) }
    {
        Ok(Alarms {
            alloc,
            text: ByteList::new(alloc),
            alarms: AlarmList::new(alloc),
            lost: NameList::new(alloc),
            states: Vec::new(alloc),
            told: Told {
                log: EventLog::new(alloc)?,
                events: EventList::new(alloc),
            },
            pairing: Pairing {
                charts: ChartWordsList::new(alloc),
                pairs: PairList::new(alloc),
                runs: RunList::new(alloc),
                taken: false,
                series: Vec::new(alloc),
            },
        })
    }

    /// Takes another configuration at a moment, with the charts of a registry. `Ok` is what it tells: an
    /// event to `Removed` for each alarm of a chart that is not wanted any more, or differs in a field; it
    /// has the moment that is given. An alarm that stays keeps its status, its value and its delay. After
    /// an `Err` nothing is known of the alarms.
    #[tactic(auto, unfolding(crate::specs::Course::configured))]
    pub fn configure(
        &mut self,
        config: Config,
        registry: &Registry,
        moment: u32,
    ) -> Result<EventList, AlarmFault>
        ensures held { OnOk result (held self.new
            ≡ (configured (held self.old) (text_of config)
            (map alarm_of (entities_of config)) registry.now moment).held) }
        ensures events { IfOk result (λ events. events
            ≡ (configured (held self.old) (text_of config)
            (map alarm_of (entities_of config)) registry.now moment).events) }
        ensures up_to { OnOk result (IsUpTo self.new registry.now) }
        ensures memory { IfErr result (λ fault. fault ≡ Memory) }
    {
        self.told.events.clear();
        let (text, alarms) = config.into_parts();
        let turn = Turn {
            before: self.alarms.as_slice(),
            lost: self.lost.as_slice(),
            after: alarms.as_slice(),
        };
        let pairing = pairing_of(self.alloc, alarms.as_slice(), registry)?;
        let pairs = pairing.pairs.as_slice();
        let states = self.states.as_slice();
        let told = &mut self.told;
        let made = pair_states(self.alloc, told, &turn, pairs, registry, moment, states)?;
        self.text = text;
        self.alarms = alarms;
        self.lost.clear();
        self.states = made.into_vec();
        self.pairing = pairing;
        self.pairing.taken = true;
        Ok(replace(&mut self.told.events, EventList::new(self.alloc)))
    }

    /// Takes the charts that the alarms are paired with: tells which states go, and makes new ones.
    /// Where the states are those of the pairs, they stay.
    fn take_pairs(&mut self, registry: &Registry, moment: u32) -> Result<(), AllocError>
        requires { IsUpTo self.old registry.now }
        ensures { OnOk result (TakesPairs self.old registry.now moment self.new) }
    {
        if self.pairing.taken {
            self.told.events.clear();
            return Ok(());
        }
        self.take_new_pairs(registry, moment)
    }

    /// The same of states that may be others than those of the pairs. It goes through all of them.
    fn take_new_pairs(&mut self, registry: &Registry, moment: u32) -> Result<(), AllocError>
        requires { IsUpTo self.old registry.now }
        ensures { OnOk result (TakesPairs self.old registry.now moment self.new) }
    {
        self.told.events.clear();
        let alarms = self.alarms.as_slice();
        let pairs = self.pairing.pairs.as_slice();
        let states = self.states.as_slice();
        if are_states_of(states, pairs) {
            self.lost.clear();
            self.pairing.taken = true;
            return Ok(());
        }
        let turn = Turn {
            before: alarms,
            lost: self.lost.as_slice(),
            after: alarms,
        };
        let told = &mut self.told;
        let paired = pair_states(self.alloc, told, &turn, pairs, registry, moment, states)?;
        self.lost.clear();
        self.states = paired.into_vec();
        self.pairing.taken = true;
        Ok(())
    }

    /// Takes a beat at a moment: with the charts as they are now, some alarms of charts may go and others
    /// come, and then those are stepped whose span of `every` seconds is another than that of the beat
    /// before. `Ok` is what it tells: first the events to `Removed`, then those of the steps, each in the
    /// order of the states. `Disk` comes only where the count of failures of `points` rose. After an `Err`
    /// nothing is known of the alarms. Whatever the answer, `points` stands for the same as before.
    pub fn step<P: Points>(
        &mut self,
        moment: u32,
        registry: &Registry,
        latest: &Latest,
        points: &mut P,
    ) -> Result<EventList, AlarmFault>
        ensures held { OnOk result ((told : ℕ → List APoint) → P.tells points.old told
            → held self.new ≡ (stepped_by (held self.old)
            (beat_with moment registry.now latest.now (P.tiers points.old) told)).held) }
        ensures events { IfOk result (λ events. (told : ℕ → List APoint)
            → P.tells points.old told
            → events ≡ (stepped_by (held self.old)
            (beat_with moment registry.now latest.now (P.tiers points.old) told)).events) }
        ensures up_to { OnOk result (IsUpTo self.new registry.now) }
        ensures tiers { P.tiers points.new ≡ P.tiers points.old }
        ensures points_held { P.held points.new ≡ P.held points.old }
        ensures told { (told : ℕ → List APoint) → P.tells points.old told
            → P.tells points.new told }
        ensures cause { HasCause (P.faults points.old) (P.faults points.new)
            (IsErrOf result AlarmFault.Disk) }
        ensures faults { IfErr result (λ fault. (fault ≡ AlarmFault.Disk) ⊎ (fault ≡ Memory)) }
    {
        let alarms = self.alarms.as_slice();
        renew(self.alloc, &mut self.pairing, alarms, registry)?;
        self.step_again(moment, registry, latest, points)
    }

    /// The same, where the charts and dimensions are those of the call before, as at a beat that defines none.
    /// Nothing is worked out anew of them.
    #[tactic(auto, unfolding(crate::specs::Course::stepped_by))]
    pub fn step_again<P: Points>(
        &mut self,
        moment: u32,
        registry: &Registry,
        latest: &Latest,
        points: &mut P,
    ) -> Result<EventList, AlarmFault>
        requires { IsUpTo self.old registry.now }
        ensures held { OnOk result ((told : ℕ → List APoint) → P.tells points.old told
            → held self.new ≡ (stepped_by (held self.old)
            (beat_with moment registry.now latest.now (P.tiers points.old) told)).held) }
        ensures events { IfOk result (λ events. (told : ℕ → List APoint)
            → P.tells points.old told
            → events ≡ (stepped_by (held self.old)
            (beat_with moment registry.now latest.now (P.tiers points.old) told)).events) }
        ensures up_to { OnOk result (IsUpTo self.new registry.now) }
        ensures tiers { P.tiers points.new ≡ P.tiers points.old }
        ensures points_held { P.held points.new ≡ P.held points.old }
        ensures told { (told : ℕ → List APoint) → P.tells points.old told
            → P.tells points.new told }
        ensures cause { HasCause (P.faults points.old) (P.faults points.new)
            (IsErrOf result AlarmFault.Disk) }
        ensures faults { IfErr result (λ fault. (fault ≡ AlarmFault.Disk) ⊎ (fault ≡ Memory)) }
    {
        self.take_pairs(registry, moment)?;
        self.step_all(moment, registry, latest, points)?;
        Ok(replace(&mut self.told.events, EventList::new(self.alloc)))
    }

    /// Steps the states that are due on a beat, and tells of those that change.
    fn step_all<P: Points>(
        &mut self,
        moment: u32,
        registry: &Registry,
        latest: &Latest,
        points: &mut P,
    ) -> Result<(), AlarmFault>
        requires taken { IsTrue self.old.pairing.taken }
        requires series { (self.old.states.items ≡ [])
            ⊎ (self.old.pairing.series.items ≡ series_of_all registry.now) }
        ensures text { self.new.text ≡ self.old.text }
        ensures alarms { self.new.alarms ≡ self.old.alarms }
        ensures lost { self.new.lost ≡ self.old.lost }
        ensures pairs { self.new.pairing.pairs ≡ self.old.pairing.pairs }
        ensures series { self.new.pairing.series ≡ self.old.pairing.series }
        ensures steps { OnOk result ((told : ℕ → List APoint) → P.tells points.old told
            → Steps (beat_with moment registry.now latest.now (P.tiers points.old) told)
            (map alarm_of self.old.alarms) self.old.states.items self.new.states.items
            self.old.told self.new.told) }
        ensures tiers { P.tiers points.new ≡ P.tiers points.old }
        ensures points_held { P.held points.new ≡ P.held points.old }
        ensures told { (told : ℕ → List APoint) → P.tells points.old told
            → P.tells points.new told }
        ensures cause { HasCause (P.faults points.old) (P.faults points.new)
            (IsErrOf result AlarmFault.Disk) }
        ensures faults { IfErr result (λ fault. (fault ≡ AlarmFault.Disk) ⊎ (fault ≡ Memory)) }
    {
        if self.states.is_empty() {
            return Ok(());
        }
        let sight = Sight {
            moment,
            registry,
            latest,
            series: self.pairing.series.as_slice(),
        };
        let alarms = self.alarms.as_slice();
        let runs = self.pairing.runs.as_slice();
        let states = self.states.as_mut_slice();
        step_states(
            self.alloc,
            points,
            &sight,
            alarms,
            runs,
            states,
            &mut self.told,
        )?;
        Ok(())
    }

    /// What is kept of the alarms: the health text, the states with the names of their alarms, and the log.
    pub fn keep(&self) -> Result<KeptAlarms, AlarmFault>
        ensures kept { IfOk result (λ kept_alarms. kept_alarms ≡ kept (held self.now)) }
        ensures memory { IfErr result (λ fault. fault ≡ Memory) }
    {
        let Log { dropped, events } = self.told.log.log()?;
        let alarms = self.alarms.as_slice();
        let lost = self.lost.as_slice();
        Ok(KeptAlarms {
            text: ByteList::from_slice(self.alloc, self.text.as_slice())?,
            states: kept_states(self.alloc, alarms, lost, self.states.as_slice())?,
            dropped,
            events,
        })
    }

    /// The alarms of a configuration, with kept states and a kept log.
    fn with_kept(
        alloc: Global,
        registry: &Registry,
        config: Config,
        kept: &KeptAlarms,
    ) -> Result<Alarms, RestoreFault>
        requires events { length kept.now.events ≤ SHOWN }
        requires text { text_of config ≡ kept.now.text }
        ensures held { IfOk result (λ alarms. held alarms
            ≡ held_from kept.now (map alarm_of (entities_of config)) registry.now) }
        ensures up_to { IfOk result (λ alarms. IsUpTo alarms registry.now) }
        ensures memory { IfErr result (λ fault. fault ≡ RestoreFault.Memory) }
    {
        let (text, alarms) = config.into_parts();
        let pairing = pairing_of(alloc, alarms.as_slice(), registry)?;
        let pairs = pairing.pairs.as_slice();
        let Restored { states, lost } = restore(
            alloc,
            alarms.as_slice(),
            pairs,
            kept.states.as_slice(),
        )?;
        let log = EventLog::showing(alloc, kept.dropped, kept.events.as_slice())?;
        Ok(Alarms {
            alloc,
            text,
            alarms,
            lost,
            states: states.into_vec(),
            told: Told {
                log,
                events: EventList::new(alloc),
            },
            pairing,
        })
    }

    /// The alarms that were kept so, with the charts of a registry: a state's alarm is the one of its name that is
    /// computed for its chart. A state that has none is removed by the next call that takes charts. `BadKept` exactly
    /// where the health text is refused, or a state is of a chart that is not there, unless memory ran out before.
    pub fn from_kept(
        alloc: Global,
        kept: &KeptAlarms,
        registry: &Registry,
    ) -> Result<Alarms, RestoreFault>
        requires { length kept.now.events ≤ SHOWN }
        ensures held { IfOk result (λ alarms. of_kept registry.now kept.now ≡ Some (held alarms)) }
        ensures up_to { IfOk result (λ alarms. IsUpTo alarms registry.now) }
        ensures refused { IfErr result (λ fault. (fault ≡ RestoreFault.Memory)
            ⊎ ((fault ≡ RestoreFault.BadKept) × (of_kept registry.now kept.now ≡ None))) }
    {
        let config = read_config(alloc, kept.text.as_slice())?;
        if !are_known(kept.states.as_slice(), registry) {
            return Err(RestoreFault::BadKept);
        }
        Alarms::with_kept(alloc, registry, config, kept)
    }

    /// What the log shows: the last 1,000 events, and the number of those before them.
    pub fn log(&self) -> Result<Log, AlarmFault>
        ensures dropped { IfOk result (λ log. log.dropped ≡ (held self.now).log.dropped) }
        ensures events { IfOk result (λ log. log.events ≡ (held self.now).log.events) }
        ensures memory { IfErr result (λ fault. fault ≡ Memory) }
    {
        Ok(self.told.log.log()?)
    }
}
