//! The log of alarms as one line of JSON.
ghost use Rattle.std.specs.Prelude.{◌≡◌, ℕ, List, ◌++◌, codes, map, Some, IfOk, OnOk};
ghost use Rattle.serde_json.specs.Data.{string, put as with_member};
ghost use Rattle.serde_json.specs.Read.{read};
ghost use Rattle.serde_json.specs.View.{view, members_view};
ghost use Rattle.agent_app.specs.LogJson as spec;
ghost use Rattle.agent_app.specs.LogText.{shown_by};

use alarm_events::{Event, Log, value_text};
use fixed_num::Text;
use serde_json::{Map, Value as Json, json, put};
use std::alloc::{AllocError, Global};

/// When an event is due, or null.
fn due_json(due: Option<u32>) -> Json
    ensures { view result ≡ spec.due_data due }
{
    match due {
        Some(moment) => Json::from(moment),
        None => Json::Null,
    }
}

/// Puts a text into an object.
fn put_text(
    object: &mut Map<String, Json>,
    alloc: Global,
    key: &str,
    text: &str,
) -> Result<(), AllocError>
    ensures { OnOk result (members_view object.new.entries
        ≡ with_member key.now (string text.now) (members_view object.old.entries)) }
{
    put(object, alloc, key, Json::try_from_str(alloc, text)?)
}

/// An event as an object.
fn event_json(alloc: Global, event: &Event) -> Result<Json, AllocError>
    ensures { IfOk result (λ json. view json ≡ spec.event_data event.now) }
{
    let value = value_text(alloc, event.value).map_err(|_| AllocError)?;
    let mut object = Map::new(alloc);
    put_text(&mut object, alloc, "alarm", event.alarm.as_str())?;
    put_text(&mut object, alloc, "chart", event.chart.as_str())?;
    put(&mut object, alloc, "due", due_json(event.due))?;
    put(&mut object, alloc, "id", Json::from(event.id))?;
    put(&mut object, alloc, "moment", Json::from(event.moment))?;
    put_text(&mut object, alloc, "new", event.new.name())?;
    put_text(&mut object, alloc, "old", event.old.name())?;
    put_text(&mut object, alloc, "value", value.as_str())?;
    Ok(Json::Object(object))
}

/// Events as objects, in their order.
fn events_json(alloc: Global, events: &[Event]) -> Result<Vec<Json>, AllocError>
    ensures { IfOk result (λ list. map view list.items ≡ map spec.event_data events.now) }
{
    let mut list = Vec::new(alloc);
    for event in events {
        list.push(event_json(alloc, event)?)?;
    }
    Ok(list)
}

/// What a log shows, as an object.
fn log_object(alloc: Global, log: &Log) -> Result<Json, AllocError>
    ensures { IfOk result (λ json. view json ≡ spec.log_data (shown_by log.now)) }
{
    let events = events_json(alloc, log.events.as_slice())?;
    json!(in alloc; {"dropped": log.dropped, "events": events})
}

/// What a log shows, as one line of JSON with its line feed. Keys stand in the order of their bytes.
pub(crate) fn write_log_json(alloc: Global, log: &Log) -> Result<Text, AllocError>
    ensures text { IfOk result (λ text. text ≡ spec.log_json (shown_by log.now)) }

    // Of what stands before its line feed a reader of JSON gets just what the log shows.
    ensures reads_back { IfOk result (λ text. (line : List ℕ) → text ≡ line ++ codes "\n"
        → read line ≡ Some (spec.log_data (shown_by log.now))) }
{
    let mut line = log_object(alloc, log)?.to_string(alloc)?;
    line.push('\n')?;
    Ok(Text::from_string(line))
}
