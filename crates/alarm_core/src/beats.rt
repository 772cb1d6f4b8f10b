//! What a beat makes of the states.
ghost use Rattle.std.specs.Prelude.{◌≡◌, ℕ, List, All, map, Some, IfOk, OnOk, IsTrue, IsErrOf};
ghost use Rattle.host_model.specs.Cause.{HasCause};
ghost use Rattle.tier_rollup.specs.declared.point.Point.{Point as APoint};
ghost use Rattle.health_config.specs.Entity.{alarm_of};
ghost use Rattle.alarm_core.specs.Beats as spec;
ghost use Rattle.alarm_core.specs.Beats.{Steps, beat_of, is_due};
ghost use Rattle.alarm_core.specs.Charts.{owner};
ghost use Rattle.alarm_core.specs.Pairing.{alarm_at};
ghost use Rattle.alarm_core.specs.Runs.{StandIn};
ghost use Rattle.alarm_core.specs.Telling.{tell_some};

use crate::pairing::{chart_text, holder_text};
use crate::pairs::alarm_in;
use crate::runs::Run;
use crate::scene::Scene;
use crate::sight::Sight;
use crate::state::{Holder, State};
use crate::step::{Step, is_in_new_span};
use crate::telling::{self, Told};
use alarm_events::Event;
use chart_registry::Registry;
use health_config::Entity;
use query_engine::{PointFault, Points};
use std::alloc::{AllocError, Global};

/// The step of an alarm that is due, where its chart is there.
fn step_with<P: Points>(
    alloc: Global,
    points: &mut P,
    sight: &Sight,
    alarm: &Entity,
    state: State,
) -> Result<Option<Step>, PointFault>
    requires { IsTrue (is_due sight.now alarm.now.every) }
    ensures step { IfOk result (λ step. (told : ℕ → List APoint) → P.tells points.old told
        → step ≡ spec.step_with (beat_of sight.now ((P.tiers points.old).floor 0) told)
        state (alarm_of alarm.now)) }
    ensures tiers { P.tiers points.new ≡ P.tiers points.old }
    ensures held { P.held points.new ≡ P.held points.old }
    ensures told { (told : ℕ → List APoint) → P.tells points.old told → P.tells points.new told }
    ensures cause { HasCause (P.faults points.old) (P.faults points.new)
        (IsErrOf result PointFault.Disk) }
{
    if state.chart >= sight.registry.charts() {
        return Ok(None);
    }
    let scene = Scene {
        alarm,
        registry: sight.registry,
        latest: sight.latest,
        chart: state.chart,
        series: sight.series_of(state.chart),
        moment: sight.moment,
        status: state.status,
    };
    let step = scene.step(alloc, points, state.value, state.delay)?;
    Ok(Some(step))
}

/// How an alarm stands after a step, if there was one.
fn after_step(state: State, step: Option<Step>) -> State
    ensures { result ≡ spec.after_step state step }
{
    match step {
        Some(step) => State {
            value: step.value,
            status: step.status,
            delay: step.delay,
            ..state
        },
        None => state,
    }
}

/// The event of a change of status.
fn change(
    alloc: Global,
    alarms: &[Entity],
    registry: &Registry,
    moment: u32,
    state: State,
    step: Step,
) -> Result<Event, AllocError>
    ensures { IfOk result
        (λ event. event ≡ spec.change (map alarm_of alarms.now) registry.now moment state step) }
{
    Ok(Event {
        id: 0,
        moment,
        chart: chart_text(alloc, registry, state.chart)?,
        alarm: holder_text(alloc, alarms, &[], state.alarm)?,
        old: state.status,
        new: step.status,
        value: step.value,
        due: step.due,
    })
}

/// The event of a step, where the status changed.
fn change_of(
    alloc: Global,
    alarms: &[Entity],
    registry: &Registry,
    moment: u32,
    state: State,
    step: Option<Step>,
) -> Result<Option<Event>, AllocError>
    ensures { IfOk result
        (λ event. event ≡ spec.change_of (map alarm_of alarms.now) registry.now moment state step) }
{
    let Some(step) = step else {
        return Ok(None);
    };
    if state.status.number() == step.status.number() {
        return Ok(None);
    }
    Ok(Some(change(alloc, alarms, registry, moment, state, step)?))
}

/// Leaves an alarm as it stands after a step, if there was one, and tells of a change.
fn take_step(
    alloc: Global,
    sight: &Sight,
    alarms: &[Entity],
    state: &mut State,
    step: Option<Step>,
    told: &mut Told,
) -> Result<(), AllocError>
    ensures state { OnOk result (state.new ≡ spec.after_step state.old step) }
    ensures owner { owner state.new ≡ owner state.old }
    ensures told { OnOk result (told.new ≡ tell_some told.old
        (spec.change_of (map alarm_of alarms.now) sight.now.registry.now sight.now.moment
        state.old step)) }
{
    let event = change_of(alloc, alarms, sight.registry, sight.moment, *state, step)?;
    telling::tell_some(told, event)?;
    *state = after_step(*state, step);
    Ok(())
}

/// Steps the state of an alarm that is due.
fn step_one<P: Points>(
    alloc: Global,
    points: &mut P,
    sight: &Sight,
    alarms: &[Entity],
    alarm: &Entity,
    state: &mut State,
    told: &mut Told,
) -> Result<(), PointFault>
    requires due { IsTrue (is_due sight.now alarm.now.every) }
    requires alarm { alarm_at (map alarm_of alarms.now) state.old.alarm
        ≡ Some (alarm_of alarm.now) }
    ensures state { OnOk result ((series : ℕ → List APoint) → P.tells points.old series
        → state.new ≡ spec.state_after (beat_of sight.now ((P.tiers points.old).floor 0) series)
        (map alarm_of alarms.now) state.old) }
    ensures owner { owner state.new ≡ owner state.old }
    ensures event { OnOk result ((series : ℕ → List APoint) → P.tells points.old series
        → told.new ≡ tell_some told.old
        (spec.event_of (beat_of sight.now ((P.tiers points.old).floor 0) series)
        (map alarm_of alarms.now) state.old)) }
    ensures tiers { P.tiers points.new ≡ P.tiers points.old }
    ensures held { P.held points.new ≡ P.held points.old }
    ensures told { (told : ℕ → List APoint) → P.tells points.old told → P.tells points.new told }
    ensures cause { HasCause (P.faults points.old) (P.faults points.new)
        (IsErrOf result PointFault.Disk) }
{
    let step = step_with(alloc, points, sight, alarm, *state)?;
    take_step(alloc, sight, alarms, state, step, told)?;
    Ok(())
}

/// Steps the states of an alarm that is due.
fn step_due<P: Points>(
    alloc: Global,
    points: &mut P,
    sight: &Sight,
    alarms: &[Entity],
    alarm: &Entity,
    states: &mut [State],
    told: &mut Told,
) -> Result<(), PointFault>
    requires due { IsTrue (is_due sight.now alarm.now.every) }
    requires alarm { All (λ state. alarm_at (map alarm_of alarms.now) state.alarm
        ≡ Some (alarm_of alarm.now)) states.old }
    ensures steps { OnOk result ((series : ℕ → List APoint) → P.tells points.old series
        → Steps (beat_of sight.now ((P.tiers points.old).floor 0) series)
        (map alarm_of alarms.now) states.old states.new told.old told.new) }
    ensures owners { map owner states.new ≡ map owner states.old }
    ensures tiers { P.tiers points.new ≡ P.tiers points.old }
    ensures held { P.held points.new ≡ P.held points.old }
    ensures told { (told : ℕ → List APoint) → P.tells points.old told → P.tells points.new told }
    ensures cause { HasCause (P.faults points.old) (P.faults points.new)
        (IsErrOf result PointFault.Disk) }
{
    for state in states.iter_mut() {
        step_one(alloc, points, sight, alarms, alarm, state, told)?;
    }
    Ok(())
}

/// Steps the states of the alarm at a place, where it is due. If it is not, none is read.
fn step_run<P: Points>(
    alloc: Global,
    points: &mut P,
    sight: &Sight,
    alarms: &[Entity],
    place: usize,
    states: &mut [State],
    told: &mut Told,
) -> Result<(), PointFault>
    requires { All (λ state. state.alarm ≡ Holder.Alarm place) states.old }
    ensures steps { OnOk result ((series : ℕ → List APoint) → P.tells points.old series
        → Steps (beat_of sight.now ((P.tiers points.old).floor 0) series)
        (map alarm_of alarms.now) states.old states.new told.old told.new) }
    ensures owners { map owner states.new ≡ map owner states.old }
    ensures tiers { P.tiers points.new ≡ P.tiers points.old }
    ensures held { P.held points.new ≡ P.held points.old }
    ensures told { (told : ℕ → List APoint) → P.tells points.old told → P.tells points.new told }
    ensures cause { HasCause (P.faults points.old) (P.faults points.new)
        (IsErrOf result PointFault.Disk) }
{
    let Some(alarm) = alarm_in(alarms, place) else {
        return Ok(());
    };
    if !is_in_new_span(alarm.every, sight.latest.before, sight.moment) {
        return Ok(());
    }
    step_due(alloc, points, sight, alarms, alarm, states, told)
}

/// Steps the states of the alarms that are due, and tells of those that change. It tests each alarm of
/// the runs once, and reads no state of one that is not due.
pub fn step_states<P: Points>(
    alloc: Global,
    points: &mut P,
    sight: &Sight,
    alarms: &[Entity],
    runs: &[Run],
    states: &mut [State],
    told: &mut Told,
) -> Result<(), PointFault>
    requires { StandIn runs.now states.old }
    ensures steps { OnOk result ((series : ℕ → List APoint) → P.tells points.old series
        → Steps (beat_of sight.now ((P.tiers points.old).floor 0) series)
        (map alarm_of alarms.now) states.old states.new told.old told.new) }
    ensures owners { map owner states.new ≡ map owner states.old }
    ensures tiers { P.tiers points.new ≡ P.tiers points.old }
    ensures held { P.held points.new ≡ P.held points.old }
    ensures told { (told : ℕ → List APoint) → P.tells points.old told → P.tells points.new told }
    ensures cause { HasCause (P.faults points.old) (P.faults points.new)
        (IsErrOf result PointFault.Disk) }
{
    let mut first = 0;
    for run in runs {
        let stop = first + run.len;
        step_run(
            alloc,
            points,
            sight,
            alarms,
            run.alarm,
            &mut states[first..stop],
            told,
        )?;
        first = stop;
    }
    Ok(())
}
