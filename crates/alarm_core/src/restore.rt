//! The states of kept alarms.
ghost use Rattle.std.specs.Prelude.{◌≡◌, ◌⊎◌, [], ◌∷◌, ◌++◌, length, find, map, if◌then◌else◌, Ok, IfOk, IfErr, IsErr, OnOk};
ghost use Rattle.std.specs.List.{list_all};
ghost use Rattle.std.specs.Option.{is_none};
ghost use Rattle.health_config.specs.Config.{config_read};
ghost use Rattle.health_config.specs.ConfigOf.{configuration_of, text_of};
ghost use Rattle.health_config.specs.Entity.{alarm_of};
ghost use Rattle.alarm_core.specs.Kept as spec;

use crate::by_chart::{ByChart, by_chart};
use crate::fault::RestoreFault;
use crate::pairing::push_state;
use crate::pairs::{Pair, alarm_in};
use crate::state::{Holder, NameList, State, StateList};
use alarm_events::KeptState;
use chart_registry::Registry;
use fixed_num::Text;
use health_config::{Config, ConfigFault, Entity};
use std::alloc::{AllocError, Global};

/// States, and the names of those alarms among them that no pair has.
#[derive(Debug, Drop)]
pub struct Restored {
    pub states: StateList,
    pub lost: NameList,
}

/// The configuration of a kept text.
pub fn read_config(alloc: Global, text: &[u8]) -> Result<Config, RestoreFault>
    ensures config { IfOk result (λ config. config_read text.now ≡ Ok (configuration_of config)) }
    ensures text { IfOk result (λ config. text_of config ≡ text.now) }
    ensures refused { IfErr result (λ fault. (fault ≡ RestoreFault.Memory)
        ⊎ ((fault ≡ RestoreFault.BadKept) × IsErr (config_read text.now))) }
{
    match Config::read(alloc, text) {
        Ok(config) => Ok(config),
        Err(ConfigFault::Memory) => Err(RestoreFault::Memory),
        Err(_) => Err(RestoreFault::BadKept),
    }
}

fn is_known(kept: &KeptState, registry: &Registry) -> bool
    ensures { result ≡ spec.is_known registry.now kept.now }
{
    kept.chart < registry.charts()
}

/// Whether the chart of each state is there.
pub fn are_known(states: &[KeptState], registry: &Registry) -> bool
    ensures { result ≡ list_all (spec.is_known registry.now) states.now }
{
    states.iter().all(|kept| is_known(kept, registry))
}

/// Whether the alarm at a place has this name.
fn is_named(entities: &[Entity], place: usize, name: &str) -> bool
    ensures { result ≡ spec.is_named (map alarm_of entities.now) place name.now }
{
    match alarm_in(entities, place) {
        Some(alarm) => alarm.name.as_str() == name,
        None => false,
    }
}

/// Whether a pair is that of a kept state.
fn is_pair_of(entities: &[Entity], kept: &KeptState, pair: Pair) -> bool
    ensures { result ≡ spec.is_pair_of (map alarm_of entities.now) kept.now pair }
{
    pair.chart == kept.chart && is_named(entities, pair.alarm, kept.alarm.as_str())
}

/// The pair of a kept state among these. It compares the state with each.
fn pair_among(entities: &[Entity], pairs: &[Pair], kept: &KeptState) -> Option<Pair>
    ensures { result ≡ find (spec.is_pair_of (map alarm_of entities.now) kept.now) pairs.now }
{
    for pair in pairs {
        if is_pair_of(entities, kept, *pair) {
            return Some(*pair);
        }
    }
    None
}

/// The pair of a kept state, found among those of its chart.
fn pair_of(entities: &[Entity], pairs: &ByChart<Pair>, kept: &KeptState) -> Option<Pair>
    ensures { result ≡ spec.pair_of (map alarm_of entities.now) pairs.now.items.now kept.now }
{
    pair_among(entities, pairs.on(kept.chart), kept)
}

fn state_by(alarm: Holder, kept: &KeptState) -> State
    ensures { result ≡ spec.state_by alarm kept.now }
{
    State {
        alarm,
        chart: kept.chart,
        value: kept.value,
        status: kept.status,
        delay: kept.delay,
    }
}

fn push_name(names: &mut NameList, name: Text) -> Result<(), AllocError>
    ensures { OnOk result (names.new ≡ names.old ++ name ∷ []) }
{
    names.push(name).map_err(|_| AllocError)
}

/// Whose a state is: the alarm of its pair, or the next that is lost, whose name is noted.
fn holder_of(
    lost: &mut NameList,
    pair: Option<Pair>,
    kept: &KeptState,
) -> Result<Holder, AllocError>
    ensures holder { IfOk result (λ holder. holder ≡ spec.holder_of (length lost.old) pair) }
    ensures lost { OnOk result (lost.new
        ≡ lost.old ++ (if is_none pair then kept.now.alarm ∷ [] else [])) }
{
    let place = lost.len();
    match pair {
        Some(pair) => Ok(Holder::Alarm(pair.alarm)),
        None => {
            push_name(lost, kept.alarm.clone()?)?;
            Ok(Holder::Lost(place))
        }
    }
}

/// Adds a state.
fn restore_one(
    restored: &mut Restored,
    entities: &[Entity],
    pairs: &ByChart<Pair>,
    kept: &KeptState,
) -> Result<(), AllocError>
    ensures states { OnOk result (restored.new.states ≡ restored.old.states
        ++ spec.state_by (spec.holder_of (length restored.old.lost)
        (spec.pair_of (map alarm_of entities.now) pairs.now.items.now kept.now)) kept.now ∷ []) }
    ensures lost { OnOk result (restored.new.lost ≡ restored.old.lost
        ++ map (λ kept. kept.alarm)
        (spec.lost_among (map alarm_of entities.now) pairs.now.items.now (kept.now ∷ []))) }
{
    let pair = pair_of(entities, pairs, kept);
    let holder = holder_of(&mut restored.lost, pair, kept)?;
    push_state(&mut restored.states, state_by(holder, kept))
}

/// The states of kept ones: each is of the pair that is its own. It compares each with the pairs
/// of its chart.
pub fn restore(
    alloc: Global,
    entities: &[Entity],
    pairs: &[Pair],
    states: &[KeptState],
) -> Result<Restored, AllocError>
    ensures { IfOk result (λ restored. restored
        ≡ spec.restored_states (map alarm_of entities.now) pairs.now states.now) }
{
    let mut restored = Restored {
        states: StateList::new(alloc),
        lost: NameList::new(alloc),
    };
    let of_pairs = by_chart(alloc, pairs)?;
    for kept in states {
        restore_one(&mut restored, entities, &of_pairs, kept)?;
    }
    Ok(restored)
}
