//! The events of alarms.
ghost use Rattle.std.specs.Prelude.{◌≡◌, ◌++◌, string_bytes, OnOk, IfOk};
ghost use Rattle.alarm_events.specs.Event as spec;

use crate::fault::AlarmFault;
use crate::status::Status;
use fixed_num::{ListOf, Text, write_units};
use health_expr::Value;
use std::alloc::{AllocError, Global};
use std::fmt::Write;

/// A status of an alarm that changed.
#[derive(Debug, Drop)]
pub struct Event {
    /// The number of the event in its log: 1 is that of the first.
    pub id: u64,
    /// The moment at which it was, in seconds.
    pub moment: u32,
    /// The id of the chart.
    pub chart: Text,
    /// The name of the alarm.
    pub alarm: Text,
    /// The status before.
    pub old: Status,
    /// The status that came.
    pub new: Status,
    /// What the alarm is worth.
    pub value: Value,
    /// The moment in seconds until which telling it is to wait, where it is to be told.
    pub due: Option<u32>,
}

impl Clone for Event {
    ghost is_clone = { λ event copy. copy ≡ event };

    fn clone(&self) -> Result<Event, AllocError> {
        Ok(Event {
            id: self.id,
            moment: self.moment,
            chart: self.chart.clone()?,
            alarm: self.alarm.clone()?,
            old: self.old,
            new: self.new,
            value: self.value,
            due: self.due,
        })
    }
}

/// Events, the earliest first.
pub type EventList = ListOf<Event>;

/// The text of a value as in the line of an event: `nan`, `inf`, `-inf`, or the shortest text of its
/// number. `Memory` where none is left.
pub fn value_text(alloc: Global, value: Value) -> Result<Text, AlarmFault>
    ensures { IfOk result (λ text. text ≡ spec.value_text value) }
{
    let mut text = Text::new(alloc);
    match value {
        Value::Nan => text.push_str("nan")?,
        Value::Inf(false) => text.push_str("inf")?,
        Value::Inf(true) => text.push_str("-inf")?,
        Value::Fixed(units) => {
            write_units(&mut text, units).map_err(|_| AlarmFault::Memory)?;
        }
    }
    Ok(text)
}

/// The text of a due moment, or `-`.
fn due_text(alloc: Global, due: Option<u32>) -> Result<String, AlarmFault>
    ensures { IfOk result (λ text. string_bytes text ≡ spec.due_text due) }
{
    match due {
        Some(moment) => Ok(format!(in alloc; "{moment}")?),
        None => Ok(String::from_str(alloc, "-")?),
    }
}

/// Adds the number of an event, its moment, its chart and its alarm.
fn push_head(line: &mut String, event: &Event) -> Result<(), AllocError>
    ensures { OnOk result (string_bytes line.new
        ≡ string_bytes line.old ++ spec.head_text event.now) }
{
    let chart = event.chart.as_str();
    let alarm = event.alarm.as_str();
    write!(line, "EVENT {} {} {chart} {alarm} ", event.id, event.moment)
}

/// Adds the statuses before and after.
fn push_change(line: &mut String, event: &Event) -> Result<(), AllocError>
    ensures { OnOk result (string_bytes line.new
        ≡ string_bytes line.old ++ spec.change_text event.now) }
{
    let old = event.old.name();
    let new = event.new.name();
    write!(line, "{old} {new} ")
}

/// Adds the value, when the event is due, and the line's end.
fn push_end(alloc: Global, line: &mut String, event: &Event) -> Result<(), AlarmFault>
    ensures { OnOk result (string_bytes line.new
        ≡ string_bytes line.old ++ spec.end_text event.now) }
{
    let value = value_text(alloc, event.value)?;
    let due = due_text(alloc, event.due)?;
    Ok(writeln!(line, "{} {}", value.as_str(), due.as_str())?)
}

/// The line that an event is told by, with its line feed. `Memory` where none is left.
pub fn write_event(alloc: Global, event: &Event) -> Result<Text, AlarmFault>
    ensures { IfOk result (λ text. text ≡ spec.event_line event.now) }
{
    let mut line = String::new(alloc);
    push_head(&mut line, event)?;
    push_change(&mut line, event)?;
    push_end(alloc, &mut line, event)?;
    Ok(Text::from_string(line))
}
