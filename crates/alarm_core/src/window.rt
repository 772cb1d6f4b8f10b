//! The window of a lookup.
ghost use Rattle.std.specs.Prelude.{◌≡◌, ◌+◌, ◌^◌, ◌≤◌};
ghost use Rattle.alarm_core.specs.Lookups.{longest_window, start_of, stop_of};

use health_config::{LONGEST_DURATION, Lookup};

/// The moments from `start` to before `stop`.
#[derive(Clone, Copy, Debug)]
pub struct Window {
    pub start: u64,
    pub stop: u64,
    ghost fits: { stop ≤ 2 ^ 32 },
    ghost short: { stop ≤ start + longest_window },
}

/// The window of a lookup at a moment.
pub fn window_of(lookup: &Lookup, moment: u32) -> Window
    ensures start { result.start ≡ start_of lookup.now moment }
    ensures stop { result.stop ≡ stop_of lookup.now moment }
{
    let stop = (u64::from(moment) + 1).saturating_sub(u64::from(lookup.before));
    let start = stop.saturating_sub(u64::from(lookup.after.min(LONGEST_DURATION)));
    Window { start, stop }
}
