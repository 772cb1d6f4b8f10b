//! One step of an alarm of a chart.
ghost use Rattle.std.specs.Prelude.{◌≡◌, ℕ, List, None, option_map, IfOk, IfSome, IsOk, IsErrOf};
ghost use Rattle.health_expr.specs.Value.{IsWithin};
ghost use Rattle.host_model.specs.Cause.{HasCause};
ghost use Rattle.tier_rollup.specs.declared.point.Point.{Point as APoint};
ghost use Rattle.alarm_core.specs.Seen.{seen};
ghost use Rattle.alarm_core.specs.Step as spec;
ghost use Rattle.alarm_core.specs.Verdict.{status_at};

use crate::delay::new_delay;
use crate::scene::Scene;
use crate::verdict::{status_at, value_at};
use alarm_events::{Delay, Status};
use health_expr::Value;
use query_engine::{PointFault, Points};
use std::alloc::Global;

/// What a step makes of an alarm of a chart.
#[derive(Clone, Copy, Debug, PartialEq, Eq)]
pub struct Step {
    /// What the alarm is worth: a number is within the limit of expressions.
    pub value: Value,
    /// The status of that value.
    pub status: Status,
    /// How long its changes wait from now on. None before the first that is told.
    pub delay: Option<Delay>,
    /// Until when telling the change of status waits. None where it stays, or where its change is not
    /// told.
    pub due: Option<u32>,
}

/// The delay of a change of status, where there is one that is told.
fn delay_of_change(scene: &Scene, before: Option<Delay>, status: Status) -> Option<Delay>
    ensures { result ≡ spec.delay_of_change (seen scene.now) before status }
{
    if scene.status.number() == status.number() {
        return None;
    }
    new_delay(scene.alarm, before, scene.moment, scene.status, status)
}

/// The due moment of a delay.
fn due_of(delay: Option<Delay>) -> Option<u32>
    ensures { result ≡ option_map (λ delay. delay.due) delay }
{
    Some(delay?.due)
}

/// A step to a value and a status.
fn step_to(scene: &Scene, before: Option<Delay>, value: Value, status: Status) -> Step
    ensures { result ≡ spec.step_to (seen scene.now) before value status }
{
    let change = delay_of_change(scene, before, status);
    Step {
        value,
        status,
        delay: change.or(before),
        due: due_of(change),
    }
}

/// Which span of so many seconds a moment lies in. Spans of 0 seconds count as of 1.
fn span_of(every: u32, moment: u32) -> u32
    ensures { result ≡ spec.span_of every moment }
{
    moment / every.max(1)
}

/// Whether a moment lies in another span of so many seconds than the moment before.
pub fn is_in_new_span(every: u32, before: u32, moment: u32) -> bool
    ensures { result ≡ spec.is_in_new_span every before moment }
{
    span_of(every, moment) != span_of(every, before)
}

impl<'a> Scene<'a> {
    /// The step of the alarm, which had this value and this delay, and looked up what was found, if it
    /// looks something up.
    pub(crate) fn step_by(&self, found: Option<Value>, value: Value, delay: Option<Delay>) -> Step
        ensures step { result ≡ spec.stepped (seen self.now) found value delay }
        ensures by_value { result ≡ spec.step_to (seen self.now) delay result.value
            (status_at (seen self.now) result.value) }
        ensures within { IfSome found IsWithin → IsWithin result.value }
    {
        let now = value_at(self, found, value);
        let status = status_at(self, now);
        step_to(self, delay, now, status)
    }

    /// The step of the alarm, which had this value and this delay. Its lookup reads the points of one
    /// series at a time, of a window of at most 2,592,000 seconds. Without a lookup nothing is read, and
    /// the answer is `Ok`. `Disk` comes only where the count of failures of `points` rose. Whatever the
    /// answer, `points` stands for the same as before.
    pub fn step<P: Points>(
        &self,
        alloc: Global,
        points: &mut P,
        value: Value,
        delay: Option<Delay>,
    ) -> Result<Step, PointFault>
        ensures step { IfOk result (λ step. (told : ℕ → List APoint) → P.tells points.old told
            → let found = spec.found_by (seen self.now) ((P.tiers points.old).floor 0) told in
            step ≡ spec.stepped (seen self.now) found value delay) }
        ensures by_value { IfOk result (λ step. step ≡ spec.step_to (seen self.now) delay
            step.value (status_at (seen self.now) step.value)) }
        ensures within { IfOk result (λ step. IsWithin step.value) }
        ensures unread { self.now.alarm.now.lookup ≡ None → IsOk result }
        ensures tiers { P.tiers points.new ≡ P.tiers points.old }
        ensures held { P.held points.new ≡ P.held points.old }
        ensures told { (told : ℕ → List APoint) → P.tells points.old told
            → P.tells points.new told }
        ensures cause { HasCause (P.faults points.old) (P.faults points.new)
            (IsErrOf result PointFault.Disk) }
    {
        let found = self.look_up(alloc, points)?;
        Ok(self.step_by(found, value, delay))
    }
}
