//! An event as bytes.
ghost use Rattle.std.specs.Prelude.{◌≡◌, ◌++◌, ◌↔◌, Ok, Err, IsTrue, IfOk, IfErr, OnOk, IsOkUnless};

use crate::event::Event;
use crate::format::AlarmFormat;
use crate::{due, status_field, value};
use field_codec::list::ListItem;
use field_codec::{FieldFault, Reader, Writer, text};
use std::alloc::Global;

impl ListItem<AlarmFormat> for Event {
    ghost use Rattle.alarm_events.specs.Events.{IsEvent, IsShortEvent, event_bytes, read_event};

    ghost is_item = { IsEvent };

    ghost is_short_item = { IsShortEvent };

    ghost item_bytes = { event_bytes };

    ghost read_item = { read_event };

    fn is_short(&self) -> bool {
        let (_id, _moment) = (self.id, self.moment);
        text::is_short(&self.chart)
            && text::is_short(&self.alarm)
            && value::is_short(self.value)
            && due::is_short(self.due)
    }

    #[tactic(auto, unfolding(crate::specs::Events::event_bytes))]
    fn put(&self, writer: &mut Writer) -> Result<(), FieldFault> {
        writer.put_u64(self.id)?;
        writer.put_u32(self.moment)?;
        text::put(&self.chart, writer)?;
        text::put(&self.alarm, writer)?;
        status_field::put(self.old, writer)?;
        status_field::put(self.new, writer)?;
        value::put(self.value, writer)?;
        due::put(self.due, writer)
    }

    #[tactic(auto, unfolding(crate::specs::Events::read_event))]
    fn take(alloc: Global, reader: &mut Reader<'_>) -> Result<Event, FieldFault> {
        let id = reader.take_u64()?;
        let moment = reader.take_u32()?;
        let chart = text::take(alloc, reader)?;
        let alarm = text::take(alloc, reader)?;
        let old = status_field::take(reader)?;
        let new = status_field::take(reader)?;
        let value = value::take(reader)?;
        let due = due::take(reader)?;
        Ok(Event {
            id,
            moment,
            chart,
            alarm,
            old,
            new,
            value,
            due,
        })
    }
}
