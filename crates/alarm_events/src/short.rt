//! Whether alarms are short enough for a spelling.
ghost use Rattle.std.specs.Prelude.{◌↔◌, IsTrue};
ghost use Rattle.alarm_events.specs.Alarms.{IsShort};

use crate::kept::{KeptAlarms, TEXT_LIMIT};
use crate::reading;
use field_codec::list;

/// Whether alarms have a spelling: their texts have at most 65,535 bytes, the health text `TEXT_LIMIT`, their
/// values are within the limit of expressions, and there are no more states and events than there may be.
pub fn is_short(kept: &KeptAlarms) -> bool
    ensures { IsTrue result ↔ IsShort kept.now }
{
    kept.text.len() <= TEXT_LIMIT
        && list::is_short_list(&kept.states)
        && list::is_short_list(&kept.events)
        && reading::are_few(kept)
}
