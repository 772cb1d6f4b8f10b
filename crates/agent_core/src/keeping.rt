//! What a store keeps of a beat, and how it is added to a history.

ghost use Rattle.std.specs.Prelude.{◌≡◌, ◌↔◌, ◌<◌, ◌≤◌, [], ◌∷◌, ◌⊎◌, ℕ, List, Some, None, true, false, length, IfOk, IfSome, OnOk};
ghost use Rattle.health_config.specs.declared.config.TheConstants.{TEXT_LIMIT};
ghost use Rattle.host_model.specs.Disks.{EveryDisk};
ghost use Rattle.host_model.specs.Moments.{Throughout};
ghost use Rattle.history.specs.declared.beat.OpenBeat.{OpenBeat as AnOpenBeat};
ghost use Rattle.history.specs.History.{Beat as HistoryBeat, collected, health};
ghost use Rattle.history.specs.Registry.{Registry as ARegistry, same_chart};
ghost use Rattle.beat_points.specs.Points.{IsNext};
ghost use Rattle.history.specs.Regular.{AreApart};
ghost use Rattle.history.specs.Numbered.{numbered_beat, IsThere};
ghost use Rattle.entry_codec.specs.declared.entry.Entry.TheVariants as entry;
ghost use Rattle.tier_settings.specs.declared.settings.Settings.{Settings as ASettings};
ghost use Rattle.entry_codec.specs.Entries.{entry_bytes, is_collected_canonical, HasSpelling, IsWithinLimits};
ghost use Rattle.store_core.specs.beats.Beats.{FitsARecord, InForm};
ghost use Rattle.store_core.specs.beats.Records.{last_after};
ghost use Rattle.store_core.specs.Stands.{StandsAround};
ghost use Rattle.store_core.specs.Store.{is_due, IsReady, IsReplayed, IsStoreOf};
ghost use Rattle.store_core.specs.Stored.{Stored as AStored, stored_with};
ghost use Rattle.agent_core.specs.Bound.{GrowsWithin};
ghost use Rattle.agent_core.specs.Gaps.{side_share};
ghost use Rattle.agent_core.specs.Keeping.{KeepsStore};
ghost use Rattle.agent_core.specs.Kept.{kept_of, Follows, IsTakenBeat};
ghost use Rattle.agent_core.specs.Stands.{HoldsHistory, StandsForHistory};
ghost use Rattle.agent_core.specs.Left.{AwaitsAlarms, IsLeftBy};
ghost use Rattle.agent_core.specs.Health.{health_refusal};
ghost use Rattle.agent_core.specs.Notes.{names_series};
ghost use Rattle.agent_core.specs.Replay.{HasSeenBeat, HasSeenCopy, HasTakenRows};
ghost use Rattle.agent_core.specs.Rules.{HasLimits};

use crate::fault::AgentFault;
use crate::last_seen::{see_collected, see_copied};
use crate::left::{Left, Role};
use crate::points::stored_points;
use crate::side::write_left;
use beat_points::LastRows;
use chart_registry::Registry;
use entry_codec::{Entry, write_collected, write_entry};
use history::{NumberedBeat, OpenBeat};
use host_model::Host;
use std::alloc::{AllocError, Global};
use store_core::{Beat, BeatPoint, BeatPointList, ByteList, Store};

/// What a store keeps of a numbered beat, whose definitions the registry has.
fn stored_beat(
    alloc: Global,
    registry: &Registry,
    last_rows: &LastRows,
    numbered: &NumberedBeat,
) -> Result<Beat, AllocError>
    requires there { IsThere registry.now numbered.now }
    requires canonical { is_collected_canonical numbered.now ≡ true }
    requires limits { IsWithinLimits numbered.now }
    requires numbered { (opened : AnOpenBeat)
        × (numbered.now ≡ numbered_beat registry.now numbered.now.moment opened) }
    requires later { 0 < numbered.now.moment }
    requires charts { AreApart same_chart registry.now.charts }
    requires registry { HasLimits registry.now }
    ensures kept { IfOk result
        (λ kept. (h : List HistoryBeat) (opened : AnOpenBeat)
        → IsNext registry.now last_rows.now h numbered.now.moment opened
        → numbered.now ≡ numbered_beat registry.now numbered.now.moment opened
        → kept ≡ kept_of h numbered.now.moment opened) }
    ensures spelt { OnOk result (HasSpelling (entry.Collected numbered.now)) }
    ensures moment { IfOk result (λ kept. kept.moment ≡ Some numbered.now.moment) }
    ensures named { IfOk result (λ kept. names_series registry.now kept.points ≡ true) }
    ensures form { IfOk result InForm }
    ensures size { IfOk result FitsARecord }
{
    let Ok(words) = last_rows.points(alloc, registry, numbered) else {
        return Err(AllocError);
    };
    let points = stored_points(alloc, registry, words.as_slice())?;
    let note = write_collected(alloc, numbered)?;
    Ok(Beat {
        moment: Some(numbered.moment),
        points,
        note,
    })
}

/// Makes a checkpoint of what beats left, where one is due, so that a beat can be added. At every moment a crash leaves
/// the history.
pub(crate) fn make_room<H: Host>(
    alloc: Global,
    store: &mut Store,
    left: &Left,
    host: &mut H,
) -> Result<(), AgentFault>
    requires ready { IsReady H.honest (H.seen host.old).past store.old }
    requires replayed { IsReplayed store.old }
    requires going { store.old.fault ≡ None }
    ensures any_moment { H.honest → (set : ASettings) (h : List HistoryBeat)
        → HoldsHistory (H.seen host.old).past store.old set h → IsLeftBy set h left.now
        → Throughout (EveryDisk (StandsForHistory set h)) (H.seen host.old).past
        (H.seen host.new).past }
    ensures done { OnOk result (H.honest → (set : ASettings) (h : List HistoryBeat)
        → HoldsHistory (H.seen host.old).past store.old set h → IsLeftBy set h left.now
        → HoldsHistory (H.seen host.new).past store.new set h) }
    ensures not_due { OnOk result (is_due store.new ≡ false) }
    ensures untouched { is_due store.old ≡ false
        → (store.new ≡ store.old) × (host.new ≡ host.old) }
    ensures tiers { store.new.tiers ≡ store.old.tiers }
    ensures bound { H.honest → (set : ASettings) (h : List HistoryBeat)
        → HoldsHistory (H.seen host.old).past store.old set h → IsLeftBy set h left.now
        → (limit : ℕ) → side_share set ≤ limit
        → GrowsWithin set limit (H.seen host.old).past store.old (H.seen host.new).past
        store.new }
    ensures keeps { KeepsStore H.honest (H.seen host.old) store.old result (H.seen host.new)
        store.new }
{
    if !store.due() {
        return Ok(());
    }
    let side = write_left(alloc, left, store.floor(0))?;
    store.checkpoint(host, side)?;
    Ok(())
}

/// Adds a beat to a store that is still of use, where no checkpoint is due.
pub(crate) fn commit<H: Host>(
    store: &mut Store,
    host: &mut H,
    kept: &Beat,
) -> Result<(), AgentFault>
    requires ready { IsReady H.honest (H.seen host.old).past store.old }
    requires replayed { IsReplayed store.old }
    requires going { store.old.fault ≡ None }
    requires not_due { is_due store.old ≡ false }
    requires later { IfSome kept.now.moment (λ moment. store.old.tiers.last < moment) }
    requires form { InForm kept.now }
    requires size { FitsARecord kept.now }
    ensures any_moment { H.honest → (stored : AStored)
        → IsStoreOf (H.seen host.old).past store.old stored
        → Throughout (EveryDisk (StandsAround stored kept.now)) (H.seen host.old).past
        (H.seen host.new).past }
    ensures stored { OnOk result
        (H.honest → (stored : AStored)
        → IsStoreOf (H.seen host.old).past store.old stored
        → IsStoreOf (H.seen host.new).past store.new (stored_with stored kept.now)) }
    ensures body { store.new.body ≡ store.old.body }
    ensures bound { H.honest → (set : ASettings) (h : List HistoryBeat)
        → HoldsHistory (H.seen host.old).past store.old set h → (limit : ℕ)
        → GrowsWithin set limit (H.seen host.old).past store.old (H.seen host.new).past
        store.new }
    ensures keeps { KeepsStore H.honest (H.seen host.old) store.old result (H.seen host.new)
        store.new }
    ensures last { OnOk result
        (store.new.tiers.last ≡ last_after store.old.tiers.last kept.now.moment) }
{
    store.commit(host, kept)?;
    Ok(())
}

/// What a store keeps of a configuration, whose text is no longer than a health text may be.
fn health_beat(alloc: Global, text: &[u8]) -> Result<Beat, AllocError>
    requires { length text.now ≤ TEXT_LIMIT }
    ensures kept { IfOk result (λ kept. kept ≡ record {
      moment = None;
      points = [];
      note = entry_bytes (entry.Health text.now);
    }) }
    ensures spelt { OnOk result (HasSpelling (entry.Health text.now)) }
    ensures form { IfOk result InForm }
    ensures size { IfOk result FitsARecord }
{
    let entry = Entry::Health(ByteList::from_slice(alloc, text)?);
    let note = write_entry(alloc, &entry)?;
    Ok(Beat {
        moment: None,
        points: BeatPointList::new(alloc),
        note,
    })
}

/// Adds a configuration, whose text nothing refuses, to a store that is still of use. At every moment a crash
/// leaves the history with the configuration or without it.
pub(crate) fn add_health<H: Host>(
    alloc: Global,
    store: &mut Store,
    left: &Left,
    host: &mut H,
    text: &[u8],
) -> Result<(), AgentFault>
    requires ready { IsReady H.honest (H.seen host.old).past store.old }
    requires replayed { IsReplayed store.old }
    requires going { store.old.fault ≡ None }
    requires accepted { health_refusal text.now ≡ None }
    requires short { length text.now ≤ TEXT_LIMIT }
    ensures any_moment { H.honest → (set : ASettings) (h : List HistoryBeat)
        → HoldsHistory (H.seen host.old).past store.old set h → IsLeftBy set h left.now
        → Throughout (EveryDisk (λ disk. StandsForHistory set h disk
        ⊎ StandsForHistory set (health text.now ∷ h) disk)) (H.seen host.old).past
        (H.seen host.new).past }
    ensures done { OnOk result (H.honest → (set : ASettings) (h : List HistoryBeat)
        → HoldsHistory (H.seen host.old).past store.old set h → IsLeftBy set h left.now
        → HoldsHistory (H.seen host.new).past store.new set (health text.now ∷ h)) }
    ensures untouched { is_due store.old ≡ false → store.new.body ≡ store.old.body }
    ensures bound { H.honest → (set : ASettings) (h : List HistoryBeat)
        → HoldsHistory (H.seen host.old).past store.old set h → IsLeftBy set h left.now
        → (limit : ℕ) → side_share set ≤ limit
        → GrowsWithin set limit (H.seen host.old).past store.old (H.seen host.new).past
        store.new }
    ensures keeps { KeepsStore H.honest (H.seen host.old) store.old result (H.seen host.new)
        store.new }
    ensures last { OnOk result (store.new.tiers.last ≡ store.old.tiers.last) }
{
    make_room(alloc, store, left, host)?;
    let kept = health_beat(alloc, text)?;
    commit(store, host, &kept)
}

/// Takes the rows of a numbered beat as the last ones.
pub(crate) fn take_rows(
    last_rows: &mut LastRows,
    registry: &Registry,
    beat: &NumberedBeat,
) -> Result<(), AllocError>
    requires { IsThere registry.now beat.now }
    ensures { OnOk result (HasTakenRows registry.now last_rows.old last_rows.new beat.now) }
{
    match last_rows.apply(registry, beat) {
        Ok(()) => Ok(()),
        Err(_) => Err(AllocError),
    }
}

/// Takes a numbered beat and its points as what was last seen. `before` is the last moment before it.
pub(crate) fn see_beat(
    alloc: Global,
    left: &mut Left,
    numbered: &NumberedBeat,
    points: &[BeatPoint],
    before: u32,
) -> Result<(), AllocError>
    requires there { IsThere left.old.registry numbered.now }
    requires named { names_series left.old.registry points.now ≡ true }
    ensures seen { OnOk result (HasSeenBeat left.old.registry left.old.latest left.new.latest
        numbered.now points.now) }
    ensures before { OnOk result (left.new.latest.before ≡ before) }
    ensures only { left.new ≡ record left.old { latest = left.new.latest } }
{
    let (latest, registry) = (&mut left.latest, &left.registry);
    see_collected(alloc, latest, registry, numbered, points, before)
}

/// Takes the points of a copied beat at this moment as what was last seen. `before` is the last moment before it.
pub(crate) fn see_copy(
    alloc: Global,
    left: &mut Left,
    moment: u32,
    points: &[BeatPoint],
    before: u32,
) -> Result<(), AllocError>
    requires { names_series left.old.registry points.now ≡ true }
    ensures seen { OnOk result (HasSeenCopy left.old.registry left.old.latest left.new.latest
        moment points.now) }
    ensures before { OnOk result (left.new.latest.before ≡ before) }
    ensures only { left.new ≡ record left.old { latest = left.new.latest } }
{
    let (latest, registry) = (&mut left.latest, &left.registry);
    see_copied(alloc, latest, registry, moment, points, before)
}

/// Whether a beat defines charts or dimensions.
pub(crate) fn defines_some(beat: &OpenBeat) -> bool
    ensures { (result ≡ false) ↔ ((beat.now.charts ≡ []) × (beat.now.dimensions ≡ [])) }
{
    !beat.charts.is_empty() || !beat.dimensions.is_empty()
}

/// Adds a beat that may follow the history, by number: the registry has taken it. The alarms have still to follow
/// it. At every moment a crash leaves the history with the beat or without it. After an `Err` nothing of the store and
/// of what was left is of use.
pub(crate) fn add<H: Host>(
    alloc: Global,
    store: &mut Store,
    left: &mut Left,
    host: &mut H,
    numbered: &NumberedBeat,
) -> Result<(), AgentFault>
    requires ready { IsReady H.honest (H.seen host.old).past store.old }
    requires replayed { IsReplayed store.old }
    requires going { store.old.fault ≡ None }
    requires not_due { is_due store.old ≡ false }
    requires there { IsThere left.old.registry numbered.now }
    requires canonical { is_collected_canonical numbered.now ≡ true }
    requires limits { IsWithinLimits numbered.now }
    requires numbered { (opened : AnOpenBeat)
        × (numbered.now ≡ numbered_beat left.old.registry numbered.now.moment opened) }
    requires charts { AreApart same_chart left.old.registry.charts }
    requires registry { HasLimits left.old.registry }
    requires later { store.old.tiers.last < numbered.now.moment }
    ensures any_moment { H.honest → (before : ARegistry) (moment : ℕ) (opened : AnOpenBeat)
        (set : ASettings) (h : List HistoryBeat)
        → IsTakenBeat before moment opened left.old.registry numbered.now
        → HoldsHistory (H.seen host.old).past store.old set h
        → IsLeftBy set h (record left.old { registry = before }) → Follows h moment opened
        → Throughout (EveryDisk (λ disk. StandsForHistory set h disk
        ⊎ StandsForHistory set (collected moment opened ∷ h) disk)) (H.seen host.old).past
        (H.seen host.new).past }
    ensures done { OnOk result
        (H.honest → (before : ARegistry) (moment : ℕ) (opened : AnOpenBeat)
        (set : ASettings) (h : List HistoryBeat)
        → IsTakenBeat before moment opened left.old.registry numbered.now
        → HoldsHistory (H.seen host.old).past store.old set h
        → IsLeftBy set h (record left.old { registry = before }) → Follows h moment opened
        → HoldsHistory (H.seen host.new).past store.new set (collected moment opened ∷ h)
        × AwaitsAlarms set h (collected moment opened) left.new) }
    ensures registry { left.new.registry ≡ left.old.registry }
    ensures alarms { left.new.alarms ≡ left.old.alarms }
    ensures body { store.new.body ≡ store.old.body }
    ensures bound { H.honest → (set : ASettings) (h : List HistoryBeat)
        → HoldsHistory (H.seen host.old).past store.old set h → (limit : ℕ)
        → GrowsWithin set limit (H.seen host.old).past store.old (H.seen host.new).past
        store.new }
    ensures gaps { left.new.gaps ≡ left.old.gaps }
    ensures keeps { KeepsStore H.honest (H.seen host.old) store.old result (H.seen host.new)
        store.new }
    ensures last { OnOk result (store.new.tiers.last ≡ numbered.now.moment) }
{
    let kept = stored_beat(alloc, &left.registry, &left.last_rows, numbered)?;
    let before = store.last();
    commit(store, host, &kept)?;
    take_rows(&mut left.last_rows, &left.registry, numbered)?;
    see_beat(alloc, left, numbered, kept.points.as_slice(), before)?;
    left.role = Role::Collects;
    Ok(())
}
