//! What is said of all alarms and of all calls.
ghost use Rattle.std.specs.Prelude.{◌≡◌, ◌↔◌, ◌<◌, ◌^◌, ℕ, List, length, map, IsTrue, Some};
ghost use Rattle.alarm_events.specs.Log.{shown, counted};
ghost use Rattle.std.specs.List.{range_with_len};
ghost use Rattle.health_config.specs.Entity.{Alarm};
ghost use Rattle.history.specs.Registry.{Registry};
ghost use Rattle.alarm_events.specs.Alarms.{IsShort};
ghost use Rattle.alarm_core.specs.Beats.{Beat};
ghost use Rattle.alarm_core.specs.Course.{Call, Held, nothing, held_after, events_of, configured, stepped_by};
ghost use Rattle.alarm_core.specs.Kept.{kept, of_kept};
ghost use Rattle.alarm_core.specs.Same.{is_same};
ghost use Rattle.alarm_core.specs.Short.{HaveShortIds, HaveShortNames};
ghost use Rattle.alarm_core.specs.Whole.{IsTextOf, IsWhole};

/// The laws of alarms. The log after any calls shows all events that they told, in their order, and these
/// are numbered from 1; at 2^64 - 1 numbers stand still. Two alarms say the same exactly where they have
/// the same fields, with expressions as trees. Without a call alarms are whole with any charts. Behind a
/// configuration that was read, and behind each beat after it, they are whole with the charts of that call;
/// and whole alarms come back from what is kept of them. The call does nothing.
pub fn alarms_stay_whole()
    ensures log { (calls : List Call)
        → (held_after nothing calls).log ≡ shown (events_of nothing calls) }
    ensures ids { (calls : List Call) → let events = events_of nothing calls in
        map (λ event. event.id) events ≡ map counted (range_with_len 1 (length events)) }
    ensures same { (one other : Alarm) → IsTrue (is_same one other) ↔ (one ≡ other) }
    ensures whole_nothing { (registry : Registry) → IsWhole nothing registry }
    ensures whole_configured { (held : Held) (text : List ℕ) (alarms : List Alarm)
        (registry : Registry) (moment : ℕ) → IsTextOf text alarms
        → IsWhole (configured held text alarms registry moment).held registry }
    ensures whole_stepped { (held : Held) (beat : Beat) → IsTextOf held.text held.alarms
        → IsWhole (stepped_by held beat).held beat.registry }
    ensures kept_again { (held : Held) (registry : Registry) → IsWhole held registry
        → of_kept registry (kept held) ≡ Some held }
{}

/// The law of alarms that have bytes. Without a call what is kept of alarms is short enough for bytes. So it
/// is behind a configuration and behind a beat, where it was before, the names of the alarms and the ids of
/// the charts have at most 65,535 bytes, and the text of the configuration fewer than 2^32. The call does
/// nothing.
pub fn short_alarms()
    ensures nothing { IsShort (kept nothing) }
    ensures configured { (held : Held) (text : List ℕ) (alarms : List Alarm) (registry : Registry)
        (moment : ℕ) → IsShort (kept held) → length text < 2 ^ 32 → HaveShortNames alarms
        → HaveShortIds registry
        → IsShort (kept (configured held text alarms registry moment).held) }
    ensures stepped { (held : Held) (beat : Beat) → IsShort (kept held)
        → HaveShortNames held.alarms → HaveShortIds beat.registry
        → IsShort (kept (stepped_by held beat).held) }
{}
