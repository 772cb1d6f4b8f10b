//! The alarms of an agent follow the beats that are stored.

ghost use Rattle.std.specs.Prelude.{◌≡◌, ◌⊎◌, ℕ, ◌∷◌, List, map, false, None, IfOk, IfErr, IsErrOf, OnOk};
ghost use Rattle.health_config.specs.ConfigOf.{entities_of, text_of};
ghost use Rattle.health_config.specs.Entity.{alarm_of};
ghost use Rattle.history.specs.History.{Beat as HistoryBeat};
ghost use Rattle.alarm_core.specs.Course.{configured, held, stepped_by};
ghost use Rattle.alarm_core.specs.UpTo.{IsUpTo};
ghost use Rattle.host_model.specs.Cause.{HasCause};
ghost use Rattle.tier_rollup.specs.declared.point.Point.{Point as APoint};
ghost use Rattle.beat_tiers.specs.Beats.{TierBeat};
ghost use Rattle.tier_settings.specs.declared.settings.Settings.{Settings as ASettings};
ghost use Rattle.store_core.specs.Store.{HasApplied};
ghost use Rattle.store_core.specs.Tiers.{floor_at};
ghost use Rattle.store_core.specs.View.{points_of};
ghost use Rattle.agent_core.specs.Alarms.{events_at, DefinesNothing, IsSteppingOf};
ghost use Rattle.agent_core.specs.Answers.{tier_beats};
ghost use Rattle.agent_core.specs.Left.{AwaitsAlarms, IsLeftBy};

use crate::left::Left;
use alarm_core::{AlarmFault, Alarms, EventList, Latest};
use chart_registry::Registry;
use health_config::Config;
use host_model::Host;
use query_engine::Points;
use std::alloc::Global;
use store_core::{Store, StoreView};

/// What a beat does to alarms.
#[derive(Drop)]
pub enum Stepping {
    /// They are stepped on a beat at this moment. Whether it defines charts or dimensions.
    Beat(u32, bool),
    /// They get another configuration.
    Configuration(Config),
    /// Nothing.
    Nothing,
}

/// Steps alarms on a beat at a moment. The charts and dimensions are those of the call before, unless the beat
/// defines some. After an `Err` nothing is known of the alarms.
fn step_on<P: Points>(
    alarms: &mut Alarms,
    points: &mut P,
    registry: &Registry,
    latest: &Latest,
    moment: u32,
    defines: bool,
) -> Result<EventList, AlarmFault>
    requires same { defines ≡ false → IsUpTo alarms.old registry.now }
    ensures held { OnOk result ((told : ℕ → List APoint) → P.tells points.old told
        → held alarms.new ≡ (stepped_by (held alarms.old) (record {
          moment = moment;
          registry = registry.now;
          latest = latest.now;
          floor = (P.tiers points.old).floor 0;
          told = told;
        })).held) }
    ensures events { IfOk result (λ events. (told : ℕ → List APoint)
        → P.tells points.old told
        → events ≡ (stepped_by (held alarms.old) (record {
          moment = moment;
          registry = registry.now;
          latest = latest.now;
          floor = (P.tiers points.old).floor 0;
          told = told;
        })).events) }
    ensures up_to { OnOk result (IsUpTo alarms.new registry.now) }
    ensures points_held { P.held points.new ≡ P.held points.old }
    ensures cause { HasCause (P.faults points.old) (P.faults points.new)
        (IsErrOf result AlarmFault.Disk) }
    ensures faults { IfErr result
        (λ fault. (fault ≡ AlarmFault.Disk) ⊎ (fault ≡ AlarmFault.Memory)) }
{
    if defines {
        alarms.step(moment, registry, latest, points)
    } else {
        alarms.step_again(moment, registry, latest, points)
    }
}

/// Steps alarms on a beat at a moment, by what a store tells. After an `Err` nothing is known of the alarms.
fn step<H: Host>(
    alarms: &mut Alarms,
    store: &mut Store,
    host: &mut H,
    registry: &Registry,
    latest: &Latest,
    moment: u32,
    defines: bool,
) -> Result<EventList, AlarmFault>
    requires going { store.old.fault ≡ None }
    requires same { defines ≡ false → IsUpTo alarms.old registry.now }
    ensures held { OnOk result ((set : ASettings) (beats : List TierBeat)
        → HasApplied set beats store.old → held alarms.new
        ≡ (stepped_by (held alarms.old) (record {
          moment = moment;
          registry = registry.now;
          latest = latest.now;
          floor = floor_at set beats 0;
          told = points_of beats;
        })).held) }
    ensures events { IfOk result (λ events. (set : ASettings) (beats : List TierBeat)
        → HasApplied set beats store.old → events
        ≡ (stepped_by (held alarms.old) (record {
          moment = moment;
          registry = registry.now;
          latest = latest.now;
          floor = floor_at set beats 0;
          told = points_of beats;
        })).events) }
    ensures up_to { OnOk result (IsUpTo alarms.new registry.now) }
    ensures store { store.new ≡ store.old }
    ensures host { H.seen host.new ≡ H.seen host.old }
    ensures memory { IfErr result (λ fault. fault ≡ AlarmFault.Memory) }
{
    // No point of a store is read from the disk, which does not fail then.
    let mut view = StoreView { store, host };
    step_on(alarms, &mut view, registry, latest, moment, defines)
}

/// Has the alarms follow a beat that is stored, which all else has taken, and gives the events that it tells. After
/// an `Err` nothing is known of the alarms.
pub(crate) fn follow<H: Host>(
    alloc: Global,
    left: &mut Left,
    store: &mut Store,
    host: &mut H,
    stepping: Stepping,
) -> Result<EventList, AlarmFault>
    requires going { store.old.fault ≡ None }
    requires same { DefinesNothing stepping → IsUpTo left.old.alarms left.old.registry }
    ensures left_by { OnOk result ((set : ASettings) (h : List HistoryBeat) (beat : HistoryBeat)
        → HasApplied set (tier_beats (beat ∷ h)) store.old
        → AwaitsAlarms set h beat left.old → IsSteppingOf beat stepping
        → IsLeftBy set (beat ∷ h) left.new) }
    ensures events { IfOk result
        (λ events. (set : ASettings) (h : List HistoryBeat) (beat : HistoryBeat)
        → HasApplied set (tier_beats (beat ∷ h)) store.old
        → AwaitsAlarms set h beat left.old → IsSteppingOf beat stepping
        → events ≡ events_at set (beat ∷ h)) }
    ensures up_to { OnOk result (IsUpTo left.new.alarms left.new.registry) }
    ensures only { left.new ≡ record left.old { alarms = left.new.alarms } }
    ensures store { store.new ≡ store.old }
    ensures host { H.seen host.new ≡ H.seen host.old }
    ensures memory { IfErr result (λ fault. fault ≡ AlarmFault.Memory) }
{
    match stepping {
        Stepping::Beat(moment, defines) => step(
            &mut left.alarms,
            store,
            host,
            &left.registry,
            &left.latest,
            moment,
            defines,
        ),
        Stepping::Configuration(config) => {
            let before = left.latest.before;
            left.alarms.configure(config, &left.registry, before)
        }
        Stepping::Nothing => Ok(EventList::new(alloc)),
    }
}
