//! The log of events.
ghost use Rattle.std.specs.Prelude.{◌≡◌, ◌≤◌, ◌<◌, ◌+◌, [], ◌∷◌, ◌++◌, List, length, IfOk, OnOk};
ghost use Rattle.alarm_events.specs.declared.event.Event.{Event as AnEvent};

use crate::event::{Event, EventList};
use crate::fault::AlarmFault;
use circular_buffer::HeapCircularBuffer;
use std::alloc::Global;
use std::marker::Model;

/// How many events a log shows.
pub const SHOWN: usize = 1_000;

/// What a log shows.
#[derive(Debug, Drop)]
pub struct Log {
    /// How many events came before those that are shown. It stands still at 2^64 - 1.
    pub dropped: u64,
    /// The last events, at most `SHOWN`, the earliest first.
    pub events: EventList,
}

/// The last `SHOWN` events, and how many came before them. Contracts see it as these.
#[derive(Debug, Drop)]
pub struct EventLog {
    alloc: Global,
    dropped: u64,
    shown: HeapCircularBuffer<Event>,
}

impl Model for EventLog {
    ghost use Rattle.std.specs.Prelude.{◌≡◌, ◌≤◌, length};
    ghost use Rattle.alarm_events.specs.Log.{Shown};
    ghost use Rattle.alarm_events.specs.declared.log.TheConstants.{SHOWN};

    ghost Value = { Shown };

    ghost view = { λ log. record { dropped = log.dropped; events = log.shown.items } };

    ghost invariant = { λ log. (log.shown.capacity ≡ SHOWN) × (length log.shown.items ≤ SHOWN) };
}

/// A ring with room for all events that a log shows.
fn empty_ring(alloc: Global) -> Result<HeapCircularBuffer<Event>, AlarmFault>
    ensures items { IfOk result (λ ring. ring.items ≡ []) }
    ensures capacity { IfOk result (λ ring. ring.capacity ≡ SHOWN) }
{
    Ok(HeapCircularBuffer::with_capacity(alloc, SHOWN)?)
}

/// Adds an event to a ring that is not full.
fn push_event(ring: &mut HeapCircularBuffer<Event>, event: Event)
    requires { length ring.old.items < ring.old.capacity }
    ensures items { ring.new.items ≡ ring.old.items ++ event ∷ [] }
    ensures capacity { ring.new.capacity ≡ ring.old.capacity }
{
    let _none = ring.push_back(event);
}

/// Adds copies of events to a ring that has room for them.
fn fill(ring: &mut HeapCircularBuffer<Event>, events: &[Event]) -> Result<(), AlarmFault>
    requires { length ring.old.items + length events.now ≤ ring.old.capacity }
    ensures items { OnOk result (ring.new.items ≡ ring.old.items ++ events.now) }
    ensures capacity { ring.new.capacity ≡ ring.old.capacity }
{
    for event in events {
        push_event(ring, event.clone()?);
    }
    Ok(())
}

/// Adds copies of events to a list.
fn copy_events(list: &mut EventList, events: &[Event]) -> Result<(), AlarmFault>
    ensures { OnOk result (list.new ≡ list.old ++ events.now) }
{
    for event in events {
        list.push(event.clone()?)?;
    }
    Ok(())
}

impl EventLog {
    ghost use Rattle.alarm_events.specs.Log.{shown, noted, counted, next_id};

    /// The log of no event. It has room for all that it will show. `Memory` where none is left.
    pub fn new(alloc: Global) -> Result<EventLog, AlarmFault>
        ensures { IfOk result (λ log. log ≡ shown []) }
    {
        Ok(EventLog {
            alloc,
            dropped: 0,
            shown: empty_ring(alloc)?,
        })
    }

    /// The log that shows these events, of which there are at most `SHOWN`, behind so many. `Memory` where
    /// none is left.
    pub fn showing(alloc: Global, dropped: u64, events: &[Event]) -> Result<EventLog, AlarmFault>
        requires { length events.now ≤ SHOWN }
        ensures { IfOk result (λ log. log ≡ record { dropped = dropped; events = events.now }) }
    {
        let mut shown = empty_ring(alloc)?;
        fill(&mut shown, events)?;
        Ok(EventLog {
            alloc,
            dropped,
            shown,
        })
    }

    /// The id of the event that comes next: 1 in an empty log. It stands still at 2^64 - 1.
    pub fn next_id(&self) -> u64
        ensures next { result ≡ next_id self.now }
        ensures count { (all : List AnEvent) → self.now ≡ shown all
            → result ≡ counted (length all + 1) }
    {
        let shown = self.shown.len() as u64;
        self.dropped.saturating_add(shown).saturating_add(1)
    }

    /// Adds an event with the next id in place of its own. Where `SHOWN` are shown, the earliest of them
    /// is dropped.
    pub fn note(&mut self, mut event: Event)
        ensures noted { self.new ≡ noted self.old event }
        ensures log { (all : List AnEvent) → self.old ≡ shown all
            → self.new ≡ shown (all ++ record event { id = counted (length all + 1) } ∷ []) }
    {
        event.id = self.next_id();
        if self.shown.push_back(event).is_some() {
            self.dropped = self.dropped.saturating_add(1);
        }
    }

    /// A copy of what the log shows. `Memory` where none is left.
    pub fn log(&self) -> Result<Log, AlarmFault>
        ensures dropped { IfOk result (λ log. log.dropped ≡ self.now.dropped) }
        ensures events { IfOk result (λ log. log.events ≡ self.now.events) }
    {
        let mut events = EventList::new(self.alloc);
        let (prefix, back) = self.shown.as_slices();
        copy_events(&mut events, prefix)?;
        copy_events(&mut events, back)?;
        Ok(Log {
            dropped: self.dropped,
            events,
        })
    }
}
