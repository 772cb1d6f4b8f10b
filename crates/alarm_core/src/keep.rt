//! What is kept of states.
ghost use Rattle.std.specs.Prelude.{◌≡◌, [], ◌∷◌, ◌++◌, map, IfOk, OnOk};
ghost use Rattle.health_config.specs.Entity.{alarm_of};
ghost use Rattle.alarm_core.specs.Kept as spec;

use crate::pairing::holder_text;
use crate::state::State;
use alarm_events::{KeptState, KeptStateList};
use fixed_num::Text;
use health_config::Entity;
use std::alloc::{AllocError, Global};

/// A state with the name of its alarm.
fn kept_state(
    alloc: Global,
    alarms: &[Entity],
    lost: &[Text],
    state: State,
) -> Result<KeptState, AllocError>
    ensures { IfOk result
        (λ kept. kept ≡ spec.kept_state (map alarm_of alarms.now) lost.now state) }
{
    Ok(KeptState {
        alarm: holder_text(alloc, alarms, lost, state.alarm)?,
        chart: state.chart,
        status: state.status,
        value: state.value,
        delay: state.delay,
    })
}

fn push(states: &mut KeptStateList, state: KeptState) -> Result<(), AllocError>
    ensures { OnOk result (states.new ≡ states.old ++ state ∷ []) }
{
    states.push(state).map_err(|_| AllocError)
}

/// States with the names of their alarms.
pub fn kept_states(
    alloc: Global,
    alarms: &[Entity],
    lost: &[Text],
    states: &[State],
) -> Result<KeptStateList, AllocError>
    ensures { IfOk result (λ kept. kept
        ≡ map (spec.kept_state (map alarm_of alarms.now) lost.now) states.now) }
{
    let mut kept = KeptStateList::new(alloc);
    for state in states {
        let one = kept_state(alloc, alarms, lost, *state)?;
        push(&mut kept, one)?;
    }
    Ok(kept)
}
