//! The log of alarms as lines.
ghost use Rattle.std.specs.Prelude.{◌≡◌, ◌++◌, IfOk, OnOk};
ghost use Rattle.std.specs.List.{flat_map};
ghost use Rattle.alarm_events.specs.Event.{event_line};
ghost use Rattle.agent_app.specs.LogText as spec;

use alarm_events::{Event, Log, write_event};
use fixed_num::Text;
use std::alloc::{AllocError, Global};

/// The line that says how many events came before those that are shown.
fn dropped_line(alloc: Global, dropped: u64) -> Result<Text, AllocError>
    ensures { IfOk result (λ line. line ≡ spec.dropped_line dropped) }
{
    let line = format!(in alloc; "DROPPED {dropped}\n")?;
    Ok(Text::from_string(line))
}

/// Adds the line of an event.
fn push_line(alloc: Global, text: &mut Text, event: &Event) -> Result<(), AllocError>
    ensures { OnOk result (text.new ≡ text.old ++ event_line event.now) }
{
    let line = write_event(alloc, event).map_err(|_| AllocError)?;
    text.push_str(line.as_str())
}

/// Adds the lines of events.
fn push_lines(alloc: Global, text: &mut Text, events: &[Event]) -> Result<(), AllocError>
    ensures { OnOk result (text.new ≡ text.old ++ flat_map event_line events.now) }
{
    for event in events {
        push_line(alloc, text, event)?;
    }
    Ok(())
}

/// The lines of what a log shows: `DROPPED` and how many events came before, and then a line for each event.
pub(crate) fn write_log(alloc: Global, log: &Log) -> Result<Text, AllocError>
    ensures { IfOk result (λ text. text ≡ spec.log_text (spec.shown_by log.now)) }
{
    let mut text = dropped_line(alloc, log.dropped)?;
    push_lines(alloc, &mut text, log.events.as_slice())?;
    Ok(text)
}
