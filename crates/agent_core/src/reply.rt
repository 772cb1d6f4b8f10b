ghost use Rattle.std.specs.Prelude.{◌≡◌, ◌++◌, IfOk, OnOk};
ghost use Rattle.alarm_events.specs.Event.{event_line};
ghost use Rattle.agent_core.specs.Replies.{event_lines, reply_text, stored_line};

use alarm_core::{Event, EventList, write_event};
use fixed_num::Text;
use std::alloc::{AllocError, Global};

/// What a stored beat is answered with.
#[derive(Debug, Drop)]
pub struct Reply {
    /// The number of the beat in its history: the first is 1, and it stands still at 2^64 - 1.
    pub count: u64,
    /// What its alarms tell, the earliest first.
    pub events: EventList,
}

/// What a line is answered with.
#[derive(Debug, Drop)]
pub enum Said {
    /// Nothing is said of it.
    Nothing,
    /// Its beat was stored.
    Stored(Reply),
    /// It is a question, and this is the reply to it: a table, or the line of a refusal.
    Table(Text),
    /// The text ends here for good.
    Disabled,
}

/// The line of a stored beat: `STORED`, the number of the beat, and a line feed.
fn stored_line(alloc: Global, count: u64) -> Result<Text, AllocError>
    ensures { IfOk result (λ text. text ≡ stored_line count) }
{
    let mut text = Text::from_str(alloc, "STORED ")?;
    text.push_str(itoa::Buffer::new().format(count))?;
    text.push_str("\n")?;
    Ok(text)
}

/// Adds the line of an event.
fn push_event(alloc: Global, text: &mut Text, event: &Event) -> Result<(), AllocError>
    ensures { OnOk result (text.new ≡ text.old ++ event_line event.now) }
{
    let line = write_event(alloc, event).map_err(|_| AllocError)?;
    text.push_str(line.as_str())
}

/// Adds the lines of events.
fn push_events(alloc: Global, text: &mut Text, events: &[Event]) -> Result<(), AllocError>
    ensures { OnOk result (text.new ≡ text.old ++ event_lines events.now) }
{
    for event in events {
        push_event(alloc, text, event)?;
    }
    Ok(())
}

/// What tells of a stored beat: its line, `STORED` and the number of the beat, and then the line of each
/// event.
pub fn write_reply(alloc: Global, reply: &Reply) -> Result<Text, AllocError>
    ensures { IfOk result (λ text. text ≡ reply_text reply.now) }
{
    let mut text = stored_line(alloc, reply.count)?;
    push_events(alloc, &mut text, reply.events.as_slice())?;
    Ok(text)
}
