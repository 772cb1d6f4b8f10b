//! What is told, and the log of it.
ghost use Rattle.std.specs.Prelude.{◌≡◌, [], ◌∷◌, ◌++◌, OnOk};
ghost use Rattle.alarm_core.specs.Telling as spec;

use alarm_events::{Event, EventList, EventLog};
use std::alloc::AllocError;

/// The log of events, and those that a call tells.
#[derive(Debug, Drop)]
pub struct Told {
    pub log: EventLog,
    pub events: EventList,
}

fn push(events: &mut EventList, event: Event) -> Result<(), AllocError>
    ensures { OnOk result (events.new ≡ events.old ++ event ∷ []) }
{
    events.push(event).map_err(|_| AllocError)
}

/// Tells an event, with the next number of the log.
pub fn tell(told: &mut Told, event: Event) -> Result<(), AllocError>
    ensures { OnOk result (told.new ≡ spec.tell told.old event) }
{
    let mut copy = event.clone()?;
    copy.id = told.log.next_id();
    push(&mut told.events, copy)?;
    told.log.note(event);
    Ok(())
}

/// Tells an event, where there is one.
pub fn tell_some(told: &mut Told, event: Option<Event>) -> Result<(), AllocError>
    ensures { OnOk result (told.new ≡ spec.tell_some told.old event) }
{
    match event {
        Some(event) => tell(told, event),
        None => Ok(()),
    }
}
