//! Which states go, which stay and which are new.
ghost use Rattle.std.specs.Prelude.{◌≡◌, ℕ, ◌∷◌, [], ◌++◌, List, find, map, option_map, slice_index_or, IfOk, OnOk};
ghost use Rattle.health_config.specs.Entity.{alarm_of};
ghost use Rattle.alarm_core.specs.Pairing as spec;
ghost use Rattle.alarm_core.specs.Telling.{tell_some, tell_all};
ghost use Rattle.chart_registry.specs.Defining.{chart_id};

use crate::by_chart::{ByChart, by_chart};
use crate::pairs::{Pair, alarm_in};
use crate::same::is_same;
use crate::state::{Holder, State, StateList};
use crate::telling::{self, Told};
use alarm_events::{Event, Status};
use chart_registry::Registry;
use fixed_num::Text;
use health_config::Entity;
use health_expr::Value;
use std::alloc::{AllocError, Global};

/// Two configurations: that of the states, and that of the pairs.
#[derive(Clone, Copy, Debug)]
pub struct Turn<'a> {
    pub before: &'a [Entity],
    /// The names of alarms of states that the configuration before has not.
    pub lost: &'a [Text],
    pub after: &'a [Entity],
}

/// The alarm of a state, where its configuration has it.
pub fn alarm_at(alarms: &[Entity], holder: Holder) -> Option<&Entity>
    ensures { option_map (λ entity. alarm_of entity.now) result
        ≡ spec.alarm_at (map alarm_of alarms.now) holder }
{
    match holder {
        Holder::Alarm(place) => alarm_in(alarms, place),
        Holder::Lost(_) => None,
    }
}

/// Whether the alarm of a state and the alarm at a place say the same.
fn is_same_at(alloc: Global, turn: &Turn, holder: Holder, f: usize) -> Result<bool, AllocError>
    ensures { IfOk result (λ same. same ≡ spec.is_same_at (map alarm_of turn.now.before.now) holder
        (map alarm_of turn.now.after.now) f) }
{
    match (alarm_at(turn.before, holder), alarm_in(turn.after, f)) {
        (Some(one), Some(other)) => is_same(alloc, one, other),
        _ => Ok(false),
    }
}

/// Whether a state is that of a pair.
fn is_of(alloc: Global, turn: &Turn, pair: Pair, state: State) -> Result<bool, AllocError>
    ensures { IfOk result
        (λ is. is ≡ spec.is_of (map alarm_of turn.now.before.now)
        (map alarm_of turn.now.after.now) pair state) }
{
    if state.chart == pair.chart {
        is_same_at(alloc, turn, state.alarm, pair.alarm)
    } else {
        Ok(false)
    }
}

/// Whether a state is that of one of these pairs. It compares the state with each.
fn stays_among(alloc: Global, turn: &Turn, pairs: &[Pair], state: State) -> Result<bool, AllocError>
    ensures { IfOk result
        (λ stays. stays ≡ spec.stays (map alarm_of turn.now.before.now)
        (map alarm_of turn.now.after.now) pairs.now state) }
{
    for pair in pairs {
        if is_of(alloc, turn, *pair, state)? {
            return Ok(true);
        }
    }
    Ok(false)
}

/// The same, compared with those of its chart alone.
fn stays(
    alloc: Global,
    turn: &Turn,
    pairs: &ByChart<Pair>,
    state: State,
) -> Result<bool, AllocError>
    ensures { IfOk result
        (λ stays. stays ≡ spec.stays (map alarm_of turn.now.before.now)
        (map alarm_of turn.now.after.now) pairs.now.items.now state) }
{
    stays_among(alloc, turn, pairs.on(state.chart), state)
}

/// The id of a chart, and nothing where there is none.
pub fn chart_text(alloc: Global, registry: &Registry, chart: u32) -> Result<Text, AllocError>
    ensures { IfOk result (λ text. text ≡ chart_id registry.now chart) }
{
    if chart < registry.charts() {
        registry.chart(chart).id.clone()
    } else {
        Ok(Text::new(alloc))
    }
}

/// The name of an alarm, and nothing where there is none.
fn alarm_text(alloc: Global, alarms: &[Entity], place: usize) -> Result<Text, AllocError>
    ensures { IfOk result (λ text. text ≡ spec.alarm_name (map alarm_of alarms.now) place) }
{
    match alarm_in(alarms, place) {
        Some(alarm) => alarm.name.clone(),
        None => Ok(Text::new(alloc)),
    }
}

/// The lost name at a place, and nothing where there is none.
fn lost_text(alloc: Global, lost: &[Text], place: usize) -> Result<Text, AllocError>
    ensures { IfOk result (λ text. text ≡ slice_index_or lost.now place []) }
{
    match lost.get(place) {
        Some(name) => name.clone(),
        None => Ok(Text::new(alloc)),
    }
}

/// The name of a state's alarm, also where that is lost.
pub fn holder_text(
    alloc: Global,
    alarms: &[Entity],
    lost: &[Text],
    holder: Holder,
) -> Result<Text, AllocError>
    ensures { IfOk result
        (λ text. text ≡ spec.holder_name (map alarm_of alarms.now) lost.now holder) }
{
    match holder {
        Holder::Alarm(place) => alarm_text(alloc, alarms, place),
        Holder::Lost(place) => lost_text(alloc, lost, place),
    }
}

/// The event of a state that goes.
fn removal(
    alloc: Global,
    turn: &Turn,
    registry: &Registry,
    moment: u32,
    state: State,
) -> Result<Event, AllocError>
    ensures { IfOk result
        (λ event. event ≡ spec.removal (map alarm_of turn.now.before.now) turn.now.lost.now
        registry.now moment state) }
{
    Ok(Event {
        id: 0,
        moment,
        chart: chart_text(alloc, registry, state.chart)?,
        alarm: holder_text(alloc, turn.before, turn.lost, state.alarm)?,
        old: state.status,
        new: Status::Removed,
        value: Value::Nan,
        due: None,
    })
}

/// The event of a state, where it goes.
fn removal_of(
    alloc: Global,
    turn: &Turn,
    pairs: &ByChart<Pair>,
    registry: &Registry,
    moment: u32,
    state: State,
) -> Result<Option<Event>, AllocError>
    ensures { IfOk result (λ event. event ≡ spec.removal_of (map alarm_of turn.now.before.now)
        turn.now.lost.now (map alarm_of turn.now.after.now) pairs.now.items.now
        registry.now moment state) }
{
    if stays(alloc, turn, pairs, state)? {
        Ok(None)
    } else {
        Ok(Some(removal(alloc, turn, registry, moment, state)?))
    }
}

/// Tells of a state, where it goes.
fn tell_removal(
    alloc: Global,
    told: &mut Told,
    turn: &Turn,
    pairs: &ByChart<Pair>,
    registry: &Registry,
    moment: u32,
    state: State,
) -> Result<(), AllocError>
    ensures { OnOk result (told.new ≡ tell_some told.old
        (spec.removal_of (map alarm_of turn.now.before.now) turn.now.lost.now
        (map alarm_of turn.now.after.now) pairs.now.items.now
        registry.now moment state)) }
{
    let event = removal_of(alloc, turn, pairs, registry, moment, state)?;
    telling::tell_some(told, event)
}

/// Tells of the states that go.
fn tell_removals(
    alloc: Global,
    told: &mut Told,
    turn: &Turn,
    pairs: &ByChart<Pair>,
    registry: &Registry,
    moment: u32,
    states: &[State],
) -> Result<(), AllocError>
    ensures { OnOk result (told.new ≡ tell_all told.old
        (spec.removals (map alarm_of turn.now.before.now) turn.now.lost.now
        (map alarm_of turn.now.after.now) pairs.now.items.now
        registry.now moment states.now)) }
{
    for state in states {
        tell_removal(alloc, told, turn, pairs, registry, moment, *state)?;
    }
    Ok(())
}

/// The state of a pair among these. It compares the pair with each.
fn state_among(
    alloc: Global,
    turn: &Turn,
    states: &[State],
    pair: Pair,
) -> Result<Option<State>, AllocError>
    ensures { IfOk result (λ state. state
        ≡ find (spec.is_of (map alarm_of turn.now.before.now)
        (map alarm_of turn.now.after.now) pair) states.now) }
{
    for state in states {
        if is_of(alloc, turn, pair, *state)? {
            return Ok(Some(*state));
        }
    }
    Ok(None)
}

/// The state of a pair before, found among those of its chart.
fn state_before(
    alloc: Global,
    turn: &Turn,
    states: &ByChart<State>,
    pair: Pair,
) -> Result<Option<State>, AllocError>
    ensures { IfOk result (λ state. state
        ≡ find (spec.is_of (map alarm_of turn.now.before.now)
        (map alarm_of turn.now.after.now) pair) states.now.items.now) }
{
    state_among(alloc, turn, states.on(pair.chart), pair)
}

/// How an alarm of a chart stands before its first step.
fn fresh(pair: Pair) -> State
    ensures { result ≡ spec.fresh pair }
{
    State {
        alarm: Holder::Alarm(pair.alarm),
        chart: pair.chart,
        value: Value::Nan,
        status: Status::Uninitialized,
        delay: None,
    }
}

/// The state of a pair: as it was, or a new one.
fn state_of(
    alloc: Global,
    turn: &Turn,
    states: &ByChart<State>,
    pair: Pair,
) -> Result<State, AllocError>
    ensures { IfOk result (λ state. state
        ≡ spec.state_of (map alarm_of turn.now.before.now)
        (map alarm_of turn.now.after.now) states.now.items.now pair) }
{
    match state_before(alloc, turn, states, pair)? {
        Some(state) => Ok(State {
            alarm: Holder::Alarm(pair.alarm),
            ..state
        }),
        None => Ok(fresh(pair)),
    }
}

/// Adds a state.
pub fn push_state(states: &mut StateList, state: State) -> Result<(), AllocError>
    ensures { OnOk result (states.new ≡ states.old ++ state ∷ []) }
{
    states.push(state).map_err(|_| AllocError)
}

/// The states of pairs.
fn states_of(
    alloc: Global,
    turn: &Turn,
    states: &ByChart<State>,
    pairs: &[Pair],
) -> Result<StateList, AllocError>
    ensures { IfOk result (λ made. made
        ≡ spec.states_of (map alarm_of turn.now.before.now)
        (map alarm_of turn.now.after.now) states.now.items.now pairs.now) }
{
    let mut made = StateList::new(alloc);
    for pair in pairs {
        let state = state_of(alloc, turn, states, *pair)?;
        push_state(&mut made, state)?;
    }
    Ok(made)
}

/// Tells which states go, and gives those of pairs. It compares each state with the pairs of its chart.
pub fn pair_states(
    alloc: Global,
    told: &mut Told,
    turn: &Turn,
    pairs: &[Pair],
    registry: &Registry,
    moment: u32,
    states: &[State],
) -> Result<StateList, AllocError>
    ensures states { IfOk result (λ made. made ≡ spec.states_of (map alarm_of turn.now.before.now)
        (map alarm_of turn.now.after.now) states.now pairs.now) }
    ensures told { OnOk result (told.new ≡ tell_all told.old
        (spec.removals (map alarm_of turn.now.before.now) turn.now.lost.now
        (map alarm_of turn.now.after.now) pairs.now registry.now moment states.now)) }
{
    let of_pairs = by_chart(alloc, pairs)?;
    tell_removals(alloc, told, turn, &of_pairs, registry, moment, states)?;
    let of_states = by_chart(alloc, states)?;
    states_of(alloc, turn, &of_states, pairs)
}
