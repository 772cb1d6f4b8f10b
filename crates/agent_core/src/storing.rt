//! How the gap and the beats of a child's message are added to a history.

ghost use Rattle.std.specs.Prelude.{◌≡◌, ◌<◌, ◌≤◌, ◌+◌, ◌++◌, ◌∷◌, ◌⊎◌, [], ℕ, List, Some, None, true, false, length, IfOk, OnOk};
ghost use Rattle.alarm_core.specs.UpTo.{IsUpTo};
ghost use Rattle.host_model.specs.Past.{Event};
ghost use Rattle.host_model.specs.Disks.{EveryDisk};
ghost use Rattle.host_model.specs.Moments.{Throughout};
ghost use Rattle.history.specs.History.{Beat as HistoryBeat, copied, missing, registry_of, Copy};
ghost use Rattle.history.specs.Numbered.{numbered_charts, numbered_dimensions};
ghost use Rattle.history.specs.Registry.{Registry as ARegistry, same_chart, same_dimension, with_definitions};
ghost use Rattle.history.specs.Regular.{AreApart};
ghost use Rattle.tier_settings.specs.declared.settings.Settings.{Settings as ASettings};
ghost use Rattle.entry_codec.specs.Entries.{is_collected_canonical, IsWithinLimits};
ghost use Rattle.replication.specs.Copies.{latest as latest_of};
ghost use Rattle.replication.specs.Names.{beat_moment};
ghost use Rattle.link_frames.specs.DataForm.{has_rising_places, has_storage_numbers, IsData};
ghost use Rattle.link_frames.specs.DataForm.{AreApart as AreNamesApart};
ghost use Rattle.store_core.specs.beats.Beats.{FitsARecord, InForm};
ghost use Rattle.store_core.specs.Store.{is_due, IsReady, IsReplayed};
ghost use Rattle.agent_core.specs.Bound.{GrowsWithin};
ghost use Rattle.agent_core.specs.Copying.{beats_of, definitions_in, names_refusal};
ghost use Rattle.agent_core.specs.Gaps.{side_share, join_gap};
ghost use Rattle.agent_core.specs.Keeping.{KeepsStore};
ghost use Rattle.agent_core.specs.Kept.{onto, IsCopyOf};
ghost use Rattle.agent_core.specs.Stands.{HoldsHistory, StandsForPrefix, StandsForHistory};
ghost use Rattle.agent_core.specs.Left.{AwaitsAlarms, IsLeftBy};
ghost use Rattle.agent_core.specs.Notes.{names_series};
ghost use Rattle.agent_core.specs.Roles.{may_copy, role_of};
ghost use Rattle.agent_core.specs.Rules.{lacks_chart, HasLimits, IsOpenBeat};
ghost use Rattle.agent_core.specs.Storing.{defining, gap_beats, later_copies, named_series, sent_copies, with_names, AreSent, HasAdded, IsSentAs, MayTakeAll};

use crate::alarming::{Stepping, follow};
use crate::copying::{definitions_in, kept_copy, kept_gap, named_series};
use crate::fault::AgentFault;
use crate::keeping::{commit, make_room, see_copy};
use crate::left::{Left, Role};
use alarm_core::EventList;
use beat_entries::{NumberedDefinitions, number_definitions};
use chart_registry::Registry;
use history::{NumberedChart, NumberedDimension, OpenBeat};
use host_model::Host;
use replication::{Beat as SentBeat, Data, Names};
use side_codec::GapSpan;
use std::alloc::{AllocError, Global};
use store_core::{Beat, Store};

/// Adds a gap of a child, the moments above `from` up to `to`, to a store that is still of use. At every moment a
/// crash leaves the history with the gap or without it.
fn add_gap<H: Host>(
    alloc: Global,
    store: &mut Store,
    host: &mut H,
    child: u64,
    from: u32,
    to: u32,
) -> Result<(), AgentFault>
    requires ready { IsReady H.honest (H.seen host.old).past store.old }
    requires replayed { IsReplayed store.old }
    requires going { store.old.fault ≡ None }
    requires not_due { is_due store.old ≡ false }
    requires begins { from ≡ store.old.tiers.last }
    requires later { store.old.tiers.last < to }
    ensures any_moment { H.honest → (set : ASettings) (h : List HistoryBeat)
        → HoldsHistory (H.seen host.old).past store.old set h → may_copy (role_of h) ≡ true
        → let gap = missing (record { child = child; from = from; to = to }) in
        Throughout (EveryDisk (λ disk. StandsForHistory set h disk
        ⊎ StandsForHistory set (gap ∷ h) disk)) (H.seen host.old).past (H.seen host.new).past }
    ensures done { OnOk result (H.honest → (set : ASettings) (h : List HistoryBeat)
        → HoldsHistory (H.seen host.old).past store.old set h → may_copy (role_of h) ≡ true
        → HoldsHistory (H.seen host.new).past store.new set
        (missing (record { child = child; from = from; to = to }) ∷ h)) }
    ensures bound { H.honest → (set : ASettings) (h : List HistoryBeat)
        → HoldsHistory (H.seen host.old).past store.old set h → (limit : ℕ)
        → GrowsWithin set limit (H.seen host.old).past store.old (H.seen host.new).past
        store.new }
    ensures keeps { KeepsStore H.honest (H.seen host.old) store.old result (H.seen host.new)
        store.new }
    ensures last { OnOk result (store.new.tiers.last ≡ to) }
{
    let kept = kept_gap(alloc, child, from, to)?;
    commit(store, host, &kept)
}

/// Adds a copied beat, whose definitions the registry has: what is left is the role, and the alarms have still to
/// follow it. At every moment a crash leaves the history with the beat or without it. After an `Err` nothing of the
/// store and of what was left is of use.
fn store_copy<H: Host>(
    alloc: Global,
    store: &mut Store,
    left: &mut Left,
    host: &mut H,
    kept: &Beat,
    moment: u32,
) -> Result<(), AgentFault>
    requires ready { IsReady H.honest (H.seen host.old).past store.old }
    requires replayed { IsReplayed store.old }
    requires going { store.old.fault ≡ None }
    requires not_due { is_due store.old ≡ false }
    requires later { store.old.tiers.last < moment }
    requires moment { kept.now.moment ≡ Some moment }
    requires named { names_series left.old.registry kept.now.points ≡ true }
    requires form { InForm kept.now }
    requires size { FitsARecord kept.now }
    ensures any_moment { H.honest → (set : ASettings) (g : List HistoryBeat) (copy : Copy)
        → HoldsHistory (H.seen host.old).past store.old set g → IsCopyOf g copy kept.now
        → Throughout (EveryDisk (λ disk. StandsForHistory set g disk
        ⊎ StandsForHistory set (copied copy ∷ g) disk)) (H.seen host.old).past
        (H.seen host.new).past }
    ensures done { OnOk result (H.honest → (set : ASettings) (g : List HistoryBeat) (copy : Copy)
        → HoldsHistory (H.seen host.old).past store.old set g → IsCopyOf g copy kept.now
        → HoldsHistory (H.seen host.new).past store.new set (copied copy ∷ g)) }
    ensures awaits { OnOk result ((past : List Event) (before : ARegistry) (set : ASettings)
        (g : List HistoryBeat) (copy : Copy) → HoldsHistory past store.old set g
        → IsLeftBy set g (record left.old { registry = before }) → IsCopyOf g copy kept.now
        → left.old.registry ≡ registry_of (copied copy ∷ g)
        → AwaitsAlarms set g (copied copy) (record left.new { role = Role.Copies copy.child })) }
    ensures registry { left.new.registry ≡ left.old.registry }
    ensures alarms { left.new.alarms ≡ left.old.alarms }
    ensures bound { H.honest → (set : ASettings) (g : List HistoryBeat)
        → HoldsHistory (H.seen host.old).past store.old set g → (limit : ℕ)
        → GrowsWithin set limit (H.seen host.old).past store.old (H.seen host.new).past
        store.new }
    ensures gaps { left.new.gaps ≡ left.old.gaps }
    ensures keeps { KeepsStore H.honest (H.seen host.old) store.old result (H.seen host.new)
        store.new }
    ensures last { OnOk result (store.new.tiers.last ≡ moment) }
{
    let before = store.last();
    commit(store, host, kept)?;
    left.last_rows.make_room(&left.registry)?;
    see_copy(alloc, left, moment, kept.points.as_slice(), before)?;
    Ok(())
}

/// Adds a beat of a message that defines this, where the registry has the definitions of the
/// message, and these are the series of its names. It gives the events that the alarms tell. At
/// every moment a crash leaves the history with the beat or without it. `fresh` says whether
/// definitions came since the alarms were last stepped. After an `Err` nothing of the store and of
/// what was left is of use.
fn add_copy<H: Host>(
    alloc: Global,
    store: &mut Store,
    left: &mut Left,
    host: &mut H,
    message: &Data,
    series: &[Option<u32>],
    charts: &[NumberedChart],
    dimensions: &[NumberedDimension],
    beat: &SentBeat,
    fresh: bool,
) -> Result<EventList, AgentFault>
    requires ready { IsReady H.honest (H.seen host.old).past store.old }
    requires replayed { IsReplayed store.old }
    requires going { store.old.fault ≡ None }
    requires not_due { is_due store.old ≡ false }
    requires later { store.old.tiers.last < beat.now.moment }
    requires own { AreApart same_dimension left.old.registry.dimensions }
    requires registry { HasLimits left.old.registry }
    requires names { AreNamesApart message.now.names }
    requires places { has_rising_places beat.now ≡ true }
    requires words { has_storage_numbers beat.now ≡ true }
    requires series { series.now ≡ named_series left.old.registry message.now.names }
    requires within { IsWithinLimits (defining charts.now dimensions.now) }
    requires canonical { is_collected_canonical (defining charts.now dimensions.now) ≡ true }
    requires same { fresh ≡ false → IsUpTo left.old.alarms left.old.registry }
    ensures any_moment { H.honest → (set : ASettings) (g : List HistoryBeat) (copy : Copy)
        → HoldsHistory (H.seen host.old).past store.old set g
        → IsSentAs left.old.registry message.now charts.now dimensions.now beat.now g copy
        → Throughout (EveryDisk (λ disk. StandsForHistory set g disk
        ⊎ StandsForHistory set (copied copy ∷ g) disk)) (H.seen host.old).past
        (H.seen host.new).past }
    ensures done { IfOk result
        (λ events. H.honest → (before : ARegistry) (set : ASettings) (g : List HistoryBeat)
        (copy : Copy) → HoldsHistory (H.seen host.old).past store.old set g
        → IsLeftBy set g (record left.old { registry = before })
        → IsSentAs left.old.registry message.now charts.now dimensions.now beat.now g copy
        → HasAdded (H.seen host.new).past store.new left.new set g (copied copy ∷ []) events) }
    ensures registry { left.new.registry ≡ left.old.registry }
    ensures role { OnOk result (left.new.role ≡ Role.Copies message.now.child) }
    ensures up_to { OnOk result (IsUpTo left.new.alarms left.new.registry) }
    ensures bound { H.honest → (set : ASettings) (g : List HistoryBeat)
        → HoldsHistory (H.seen host.old).past store.old set g → (limit : ℕ)
        → GrowsWithin set limit (H.seen host.old).past store.old (H.seen host.new).past
        store.new }
    ensures gaps { left.new.gaps ≡ left.old.gaps }
    ensures keeps { KeepsStore H.honest (H.seen host.old) store.old result (H.seen host.new)
        store.new }
    ensures last { OnOk result (store.new.tiers.last ≡ beat.now.moment) }
{
    let moment = beat.moment;
    let kept = kept_copy(
        alloc,
        &left.registry,
        message,
        series,
        charts,
        dimensions,
        beat,
    )?;
    store_copy(alloc, store, left, host, &kept, moment)?;
    left.role = Role::Copies(message.child);
    Ok(follow(alloc, left, store, host, Stepping::Beat(moment, fresh))?)
}

/// Adds events to those before them.
fn add_events(events: &mut EventList, more: EventList) -> Result<(), AllocError>
    ensures { OnOk result (events.new ≡ events.old ++ more) }
{
    for event in more.into_vec() {
        events.push(event)?;
    }
    Ok(())
}

/// Adds beats of a message that define nothing, each after those before it, and gives the events of all of them. At
/// every moment a crash leaves the history with the first of them, with none or with all. After an `Err` nothing of
/// the store and of what was left is of use.
fn add_later<H: Host>(
    alloc: Global,
    store: &mut Store,
    left: &mut Left,
    host: &mut H,
    message: &Data,
    series: &[Option<u32>],
    beats: &[SentBeat],
) -> Result<EventList, AgentFault>
    requires ready { IsReady H.honest (H.seen host.old).past store.old }
    requires replayed { IsReplayed store.old }
    requires going { store.old.fault ≡ None }
    requires own { AreApart same_dimension left.old.registry.dimensions }
    requires registry { HasLimits left.old.registry }
    requires up_to { IsUpTo left.old.alarms left.old.registry }
    requires sent { AreSent store.old.tiers.last message.now beats.now }
    requires series { series.now ≡ named_series left.old.registry message.now.names }
    ensures any_moment { H.honest → (set : ASettings) (g : List HistoryBeat)
        → let more = later_copies left.old.registry message.now beats.now in
        HoldsHistory (H.seen host.old).past store.old set g → IsLeftBy set g left.old
        → MayTakeAll g more
        → Throughout (EveryDisk (StandsForPrefix set g more)) (H.seen host.old).past
        (H.seen host.new).past }
    ensures done { IfOk result
        (λ events. H.honest → (set : ASettings) (g : List HistoryBeat)
        → let more = later_copies left.old.registry message.now beats.now in
        HoldsHistory (H.seen host.old).past store.old set g → IsLeftBy set g left.old
        → MayTakeAll g more
        → HasAdded (H.seen host.new).past store.new left.new set g more events) }
    ensures registry { left.new.registry ≡ left.old.registry }
    ensures role { OnOk result (left.old.role ≡ Role.Copies message.now.child
        → left.new.role ≡ Role.Copies message.now.child) }
    ensures up_to { OnOk result (IsUpTo left.new.alarms left.new.registry) }
    ensures bound { H.honest → (set : ASettings) (g : List HistoryBeat)
        → HoldsHistory (H.seen host.old).past store.old set g → IsLeftBy set g left.old
        → MayTakeAll g (later_copies left.old.registry message.now beats.now)
        → (limit : ℕ) → side_share set ≤ limit
        → GrowsWithin set limit (H.seen host.old).past store.old (H.seen host.new).past
        store.new }
    ensures gaps { left.new.gaps ≡ left.old.gaps }
    ensures keeps { KeepsStore H.honest (H.seen host.old) store.old result (H.seen host.new)
        store.new }
    ensures last { OnOk result
        (store.new.tiers.last ≡ latest_of beat_moment store.old.tiers.last beats.now) }
{
    let mut events = EventList::new(alloc);
    for beat in beats {
        make_room(alloc, store, left, host)?;
        let more = add_copy(
            alloc,
            store,
            left,
            host,
            message,
            series,
            &[],
            &[],
            beat,
            false,
        )?;
        add_events(&mut events, more)?;
    }
    Ok(events)
}

/// Adds the beats of a message, each after those before it, where the registry has the definitions of the message, and
/// these are its numbers: the first beat has the definitions. The events are those of all of them. At every moment a
/// crash leaves the history with the first of them, with none or with all. After an `Err` nothing of the store and of
/// what was left is of use.
fn add_beats<H: Host>(
    alloc: Global,
    store: &mut Store,
    left: &mut Left,
    host: &mut H,
    message: &Data,
    numbers: &Numbers,
    beats: &[SentBeat],
) -> Result<EventList, AgentFault>
    requires ready { IsReady H.honest (H.seen host.old).past store.old }
    requires replayed { IsReplayed store.old }
    requires going { store.old.fault ≡ None }
    requires not_due { is_due store.old ≡ false }
    requires own { AreApart same_dimension left.old.registry.dimensions }
    requires registry { HasLimits left.old.registry }
    requires sent { AreSent store.old.tiers.last message.now beats.now }
    requires charts { numbers.now.definitions.charts
        ≡ numbered_charts left.old.registry (definitions_in message.now.names) }
    requires dimensions { numbers.now.definitions.dimensions
        ≡ numbered_dimensions left.old.registry (definitions_in message.now.names) }
    requires within { IsWithinLimits
        (defining numbers.now.definitions.charts numbers.now.definitions.dimensions) }
    requires canonical { is_collected_canonical
        (defining numbers.now.definitions.charts numbers.now.definitions.dimensions) ≡ true }
    requires series { numbers.now.series.items
        ≡ named_series left.old.registry message.now.names }
    ensures any_moment { H.honest → (before : ARegistry) (set : ASettings)
        (g : List HistoryBeat)
        → let more = sent_copies left.old.registry message.now beats.now in
        HoldsHistory (H.seen host.old).past store.old set g
        → IsLeftBy set g (record left.old { registry = before })
        → left.old.registry ≡ with_names before message.now → MayTakeAll g more
        → Throughout (EveryDisk (StandsForPrefix set g more)) (H.seen host.old).past
        (H.seen host.new).past }
    ensures done { IfOk result
        (λ events. H.honest → (before : ARegistry) (set : ASettings) (g : List HistoryBeat)
        → let more = sent_copies left.old.registry message.now beats.now in
        HoldsHistory (H.seen host.old).past store.old set g
        → IsLeftBy set g (record left.old { registry = before })
        → left.old.registry ≡ with_names before message.now → MayTakeAll g more
        → 0 < length beats.now
        → HasAdded (H.seen host.new).past store.new left.new set g more events) }
    ensures registry { left.new.registry ≡ left.old.registry }
    ensures role { OnOk result
        (0 < length beats.now → left.new.role ≡ Role.Copies message.now.child) }
    ensures up_to { OnOk result
        (0 < length beats.now → IsUpTo left.new.alarms left.new.registry) }
    ensures bound { H.honest → (before : ARegistry) (set : ASettings) (g : List HistoryBeat)
        → HoldsHistory (H.seen host.old).past store.old set g
        → IsLeftBy set g (record left.old { registry = before })
        → left.old.registry ≡ with_names before message.now
        → MayTakeAll g (sent_copies left.old.registry message.now beats.now)
        → (limit : ℕ) → side_share set ≤ limit
        → GrowsWithin set limit (H.seen host.old).past store.old (H.seen host.new).past
        store.new }
    ensures gaps { left.new.gaps ≡ left.old.gaps }
    ensures keeps { KeepsStore H.honest (H.seen host.old) store.old result (H.seen host.new)
        store.new }
    ensures last { OnOk result
        (store.new.tiers.last ≡ latest_of beat_moment store.old.tiers.last beats.now) }
{
    let Some((first, rest)) = beats.split_first() else {
        return Ok(EventList::new(alloc));
    };
    let series = numbers.series.as_slice();
    let charts = numbers.definitions.charts.as_slice();
    let dimensions = numbers.definitions.dimensions.as_slice();
    let mut events = add_copy(
        alloc, store, left, host, message, series, charts, dimensions, first, true,
    )?;
    let more = add_later(alloc, store, left, host, message, series, rest)?;
    add_events(&mut events, more)?;
    Ok(events)
}

/// Adds a gap to those that are left. After an `Err` nothing of these is of use.
fn join_gap(left: &mut Left, from: u32, to: u32) -> Result<(), AllocError>
    ensures joined { OnOk result
        (left.new.gaps ≡ join_gap left.old.gaps (record { from = from; to = to })) }
    ensures only { left.new ≡ record left.old { gaps = left.new.gaps } }
{
    left.gaps.join(GapSpan { from, to })
}

/// Adds the gap before the beats of a message, if there is one. At every moment a crash leaves the history with the
/// gap or without it. After an `Err` nothing of the store and of what was left is of use.
fn add_gap_before<H: Host>(
    alloc: Global,
    store: &mut Store,
    left: &mut Left,
    host: &mut H,
    message: &Data,
) -> Result<(), AgentFault>
    requires ready { IsReady H.honest (H.seen host.old).past store.old }
    requires replayed { IsReplayed store.old }
    requires going { store.old.fault ≡ None }
    requires at { message.now.prev ≡ store.old.tiers.last }
    requires from { message.now.prev ≤ message.now.from }
    ensures any_moment { H.honest → (set : ASettings) (h : List HistoryBeat)
        → HoldsHistory (H.seen host.old).past store.old set h → IsLeftBy set h left.old
        → may_copy (role_of h) ≡ true
        → Throughout (EveryDisk (StandsForPrefix set h (gap_beats message.now)))
        (H.seen host.old).past (H.seen host.new).past }
    ensures done { OnOk result (H.honest → (set : ASettings) (h : List HistoryBeat)
        → HoldsHistory (H.seen host.old).past store.old set h → IsLeftBy set h left.old
        → may_copy (role_of h) ≡ true
        → HoldsHistory (H.seen host.new).past store.new set (onto h (gap_beats message.now))) }
    ensures left_by { OnOk result ((past : List Event) (set : ASettings) (h : List HistoryBeat)
        → HoldsHistory past store.old set h → IsLeftBy set h left.old
        → IsLeftBy set (onto h (gap_beats message.now)) left.new) }
    ensures only { left.new ≡ record left.old { role = left.new.role; gaps = left.new.gaps } }
    ensures bound { H.honest → (set : ASettings) (h : List HistoryBeat)
        → HoldsHistory (H.seen host.old).past store.old set h → IsLeftBy set h left.old
        → (limit : ℕ) → side_share set ≤ limit
        → GrowsWithin set limit (H.seen host.old).past store.old (H.seen host.new).past
        store.new }
    ensures keeps { KeepsStore H.honest (H.seen host.old) store.old result (H.seen host.new)
        store.new }
    ensures last { OnOk result (store.new.tiers.last ≡ message.now.from) }
{
    if message.prev < message.from {
        make_room(alloc, store, left, host)?;
        join_gap(left, message.prev, message.from)?;
        add_gap(
            alloc,
            store,
            host,
            message.child,
            message.prev,
            message.from,
        )?;
        left.role = Role::Copies(message.child);
        Ok(())
    } else {
        Ok(())
    }
}

/// What a message says by number.
#[derive(Drop)]
struct Numbers {
    /// What it defines.
    definitions: NumberedDefinitions,
    /// The series of its names of dimensions, by place.
    series: Vec<Option<u32>>,
}

/// Takes the definitions of a message, against which the registry has nothing, and gives them and its names by number.
/// After an `Err` it may have taken them.
fn define(
    alloc: Global,
    registry: &mut Registry,
    names: &Names,
    defs: &OpenBeat,
) -> Result<Numbers, AllocError>
    requires is_open { IsOpenBeat defs.now }
    requires no_rows { defs.now.rows ≡ [] }
    requires has_charts { lacks_chart registry.old defs.now ≡ false }
    requires free { names_refusal registry.old defs.now ≡ None }
    requires charts { AreApart same_chart registry.old.charts }
    requires dimensions { AreApart same_dimension registry.old.dimensions }
    requires limits { HasLimits registry.old }
    ensures applied { OnOk result
        (registry.new ≡ with_definitions registry.old defs.now.charts defs.now.dimensions) }
    ensures numbered_charts { IfOk result
        (λ numbers. numbers.definitions.charts ≡ numbered_charts registry.new defs.now) }
    ensures numbered_dimensions { IfOk result
        (λ numbers. numbers.definitions.dimensions ≡ numbered_dimensions registry.new defs.now) }
    ensures within { IfOk result (λ numbers.
        IsWithinLimits (defining numbers.definitions.charts numbers.definitions.dimensions)) }
    ensures canonical { IfOk result (λ numbers. is_collected_canonical
        (defining numbers.definitions.charts numbers.definitions.dimensions) ≡ true) }
    ensures series { IfOk result
        (λ numbers. numbers.series.items ≡ named_series registry.new names.now) }
    ensures charts { OnOk result (AreApart same_chart registry.new.charts) }
    ensures dimensions { OnOk result (AreApart same_dimension registry.new.dimensions) }
    ensures limits { OnOk result (HasLimits registry.new) }
{
    let definitions = number_definitions(alloc, registry, defs)?;
    let charts = definitions.charts.as_slice();
    let dimensions = definitions.dimensions.as_slice();
    registry.take_definitions(charts, dimensions)?;
    let series = named_series(alloc, registry, names)?;
    Ok(Numbers {
        definitions,
        series,
    })
}

/// Adds the gap and the beats of a message that begins where the history ends, and gives the events of all of them;
/// nothing stands against it. At every moment a crash leaves the history with the first of them, with none or with all.
/// After an `Err` nothing of the store and of what was left is of use.
pub(crate) fn add_message<H: Host>(
    alloc: Global,
    store: &mut Store,
    left: &mut Left,
    host: &mut H,
    message: &Data,
) -> Result<EventList, AgentFault>
    requires ready { IsReady H.honest (H.seen host.old).past store.old }
    requires replayed { IsReplayed store.old }
    requires going { store.old.fault ≡ None }
    requires at { message.now.prev ≡ store.old.tiers.last }
    requires form { IsData message.now }
    requires free { names_refusal left.old.registry (definitions_in message.now.names) ≡ None }
    requires charts { AreApart same_chart left.old.registry.charts }
    requires dimensions { AreApart same_dimension left.old.registry.dimensions }
    requires limits { HasLimits left.old.registry }
    ensures any_moment { H.honest → (set : ASettings) (h : List HistoryBeat)
        → HoldsHistory (H.seen host.old).past store.old set h → IsLeftBy set h left.old
        → may_copy (role_of h) ≡ true
        → Throughout (EveryDisk (StandsForPrefix set h (beats_of left.old.registry message.now)))
        (H.seen host.old).past (H.seen host.new).past }
    ensures done { IfOk result
        (λ events. H.honest → (set : ASettings) (h : List HistoryBeat)
        → let more = beats_of left.old.registry message.now in
        HoldsHistory (H.seen host.old).past store.old set h → IsLeftBy set h left.old
        → may_copy (role_of h) ≡ true
        → HasAdded (H.seen host.new).past store.new left.new set h more events) }
    ensures role { OnOk result (left.new.role ≡ Role.Copies message.now.child) }
    ensures bound { H.honest → (set : ASettings) (h : List HistoryBeat)
        → HoldsHistory (H.seen host.old).past store.old set h → IsLeftBy set h left.old
        → may_copy (role_of h) ≡ true → (limit : ℕ)
        → side_share set ≤ limit
        → GrowsWithin set limit (H.seen host.old).past store.old (H.seen host.new).past
        store.new }
    ensures keeps { KeepsStore H.honest (H.seen host.old) store.old result (H.seen host.new)
        store.new }
    ensures last { OnOk result (store.new.tiers.last ≡ message.now.upto) }
    ensures charts { OnOk result (AreApart same_chart left.new.registry.charts) }
    ensures dimensions { OnOk result (AreApart same_dimension left.new.registry.dimensions) }
    ensures limits { OnOk result (HasLimits left.new.registry) }
    ensures up_to { OnOk result (IsUpTo left.new.alarms left.new.registry) }
{
    let defs = definitions_in(alloc, &message.names)?;
    add_gap_before(alloc, store, left, host, message)?;
    make_room(alloc, store, left, host)?;
    let numbers = define(alloc, &mut left.registry, &message.names, &defs)?;
    let beats = message.beats.as_slice();
    add_beats(alloc, store, left, host, message, &numbers, beats)
}
