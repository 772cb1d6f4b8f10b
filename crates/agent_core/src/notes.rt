//! What is taken of the note of a kept beat.

ghost use Rattle.std.specs.Prelude.{◌≡◌, ◌↔◌, ◌⊎◌, [], List, Some, None, is_none, true, false, IfOk, IfErr, OnOk, OnErr};
ghost use Rattle.history.specs.History.{Beat as HistoryBeat, last};
ghost use Rattle.history.specs.Numbered.{IsThere};
ghost use Rattle.history.specs.Registry.{same_chart, same_dimension};
ghost use Rattle.history.specs.Regular.{AreApart};
ghost use Rattle.beat_tiers.specs.Tiers.{IsTier};
ghost use Rattle.tier_settings.specs.declared.settings.Settings.{Settings as ASettings};
ghost use Rattle.tier_settings.specs.Settings.{first_tier};
ghost use Rattle.store_core.specs.declared.beats.beat.Beat.{Beat as StoreBeat};
ghost use Rattle.agent_core.specs.Gaps.{join_gap};
ghost use Rattle.agent_core.specs.Kept.{AreBeatsOf, IsBeatOf};
ghost use Rattle.agent_core.specs.Left.{AwaitsAlarms, IsLeftBy};
ghost use Rattle.agent_core.specs.Notes.{entry_goes_on, entry_in, moment_of, names_series, noted_in, takes_note, with_entry, with_note};
ghost use Rattle.agent_core.specs.Roles.{may_copy};
ghost use Rattle.agent_core.specs.Alarms.{DefinesNothing, IsReadOf, IsSteppingOf};
ghost use Rattle.agent_core.specs.Health.{health_refusal};
ghost use Rattle.agent_core.specs.Replay.{gaps_after, HasRows, HasSeen, IsDoneBy, IsEntryThere};
ghost use Rattle.agent_core.specs.Rules.{HasLimits};

use crate::alarming::Stepping;
use crate::fault::{NOTE_PART, OpenFault};
use crate::keeping::{see_beat, see_copy, take_rows};
use crate::left::{Left, Role};
use beat_entries::{define, define_copied};
use chart_registry::Registry;
use entry_codec::{Copied, Entry, Gap, read_entry};
use health_config::{Config, ConfigFault};
use history::NumberedBeat;
use side_codec::GapSpan;
use std::alloc::{AllocError, Global};
use store_core::{Beat, BeatPoint};

/// The moment of an entry's beat: a gap counts with its end, and a configuration has none.
fn moment_of(entry: &Entry) -> Option<u32>
    ensures { result ≡ moment_of entry.now }
{
    match entry {
        Entry::Health(_) => None,
        Entry::Collected(found) => Some(found.moment),
        Entry::Copied(found) => Some(found.moment),
        Entry::Gap(gap) => Some(gap.to),
    }
}

/// The entry of a kept beat, with the beat's moment, or the database is damaged.
fn entry_in(alloc: Global, kept: &Beat) -> Result<Entry, OpenFault>
    ensures found { IfOk result (λ entry. entry_in kept.now ≡ Some entry) }

    // It is damaged only where there is no such entry.
    ensures refused { IfErr result
        (λ fault. fault ≡ OpenFault.Damaged 5 → entry_in kept.now ≡ None) }
    ensures faults { IfErr result
        (λ fault. (fault ≡ OpenFault.Memory) ⊎ (fault ≡ OpenFault.Damaged 5)) }
{
    let entry = read_entry(alloc, kept.note.as_slice())?;
    if moment_of(&entry) == kept.moment {
        Ok(entry)
    } else {
        Err(OpenFault::Damaged(NOTE_PART))
    }
}

/// Takes a collected beat: its definitions, and its rows as the last ones.
fn take_collected(left: &mut Left, entry: &NumberedBeat) -> Result<(), OpenFault>
    ensures there { OnOk result (IsThere left.new.registry entry.now) }
    ensures left { OnOk result
        (noted_in left.new ≡ with_entry (noted_in left.old) (Entry.Collected entry.now)) }
    ensures rows { OnOk result (HasRows left.new.registry left.old.last_rows left.new.last_rows
        (Entry.Collected entry.now)) }
    ensures next { OnOk result
        (entry_goes_on (noted_in left.old) (Entry.Collected entry.now) ≡ true) }
    ensures broken { IfErr result
        (λ fault. fault ≡ OpenFault.Damaged 5
        → entry_goes_on (noted_in left.old) (Entry.Collected entry.now) ≡ false) }
    ensures faults { IfErr result
        (λ fault. (fault ≡ OpenFault.Memory) ⊎ (fault ≡ OpenFault.Damaged 5)) }
    ensures latest { left.new.latest ≡ left.old.latest }
    ensures gaps { left.new.gaps ≡ left.old.gaps }
    ensures alarms { left.new.alarms ≡ left.old.alarms }
{
    if !left.role.may_collect() {
        return Err(OpenFault::Damaged(NOTE_PART));
    }
    define(&mut left.registry, entry)?;
    take_rows(&mut left.last_rows, &left.registry, entry)?;
    left.role = Role::Collects;
    Ok(())
}

/// Takes a copied beat: its definitions. It has no rows, so the last rows only make room for its series.
fn take_copied(alloc: Global, left: &mut Left, entry: &Copied) -> Result<(), OpenFault>
    ensures left { OnOk result
        (noted_in left.new ≡ with_entry (noted_in left.old) (Entry.Copied entry.now)) }
    ensures rows { OnOk result (HasRows left.new.registry left.old.last_rows left.new.last_rows
        (Entry.Copied entry.now)) }
    ensures next { OnOk result
        (entry_goes_on (noted_in left.old) (Entry.Copied entry.now) ≡ true) }
    ensures broken { IfErr result
        (λ fault. fault ≡ OpenFault.Damaged 5
        → entry_goes_on (noted_in left.old) (Entry.Copied entry.now) ≡ false) }
    ensures faults { IfErr result
        (λ fault. (fault ≡ OpenFault.Memory) ⊎ (fault ≡ OpenFault.Damaged 5)) }
    ensures latest { left.new.latest ≡ left.old.latest }
    ensures gaps { left.new.gaps ≡ left.old.gaps }
    ensures alarms { left.new.alarms ≡ left.old.alarms }
{
    if !left.role.may_copy() {
        return Err(OpenFault::Damaged(NOTE_PART));
    }
    define_copied(alloc, &mut left.registry, entry)?;
    left.last_rows.make_room(&left.registry)?;
    left.role = Role::Copies(entry.child);
    Ok(())
}

/// Takes a gap, where nothing was collected.
fn take_gap(left: &mut Left, gap: &Gap) -> Result<(), OpenFault>
    ensures left { OnOk result (left.new ≡ record left.old {
      role = Role.Copies gap.now.child;
      gaps = join_gap left.old.gaps (record { from = gap.now.from; to = gap.now.to });
    }) }
    ensures next { OnOk result (may_copy left.old.role ≡ true) }
    ensures broken { IfErr result
        (λ fault. fault ≡ OpenFault.Damaged 5 → may_copy left.old.role ≡ false) }
    ensures faults { IfErr result
        (λ fault. (fault ≡ OpenFault.Memory) ⊎ (fault ≡ OpenFault.Damaged 5)) }
    ensures refused { OnErr result (left.new ≡ record left.old { gaps = left.new.gaps }) }
{
    if !left.role.may_copy() {
        return Err(OpenFault::Damaged(NOTE_PART));
    }
    let (from, to) = (gap.from, gap.to);
    left.gaps.join(GapSpan { from, to })?;
    left.role = Role::Copies(gap.child);
    Ok(())
}

/// The configuration of a health text, or the database is damaged.
fn read_health(alloc: Global, text: &[u8]) -> Result<Config, OpenFault>
    ensures read { IfOk result (IsReadOf text.now) }
    ensures next { OnOk result (is_none (health_refusal text.now) ≡ true) }
    ensures broken { IfErr result
        (λ fault. fault ≡ OpenFault.Damaged 5 → is_none (health_refusal text.now) ≡ false) }
    ensures faults { IfErr result
        (λ fault. (fault ≡ OpenFault.Memory) ⊎ (fault ≡ OpenFault.Damaged 5)) }
{
    match Config::read(alloc, text) {
        Ok(config) => Ok(config),
        Err(ConfigFault::Memory) => Err(OpenFault::Memory),
        Err(_) => Err(OpenFault::Damaged(NOTE_PART)),
    }
}

/// Whether a collected beat defines charts or dimensions.
fn defines_some(entry: &NumberedBeat) -> bool
    ensures { (result ≡ false) ↔ ((entry.now.charts ≡ []) × (entry.now.dimensions ≡ [])) }
{
    !entry.charts.is_empty() || !entry.dimensions.is_empty()
}

/// Whether a copied beat does.
fn copy_defines(entry: &Copied) -> bool
    ensures { (result ≡ false) ↔ ((entry.now.charts ≡ []) × (entry.now.dimensions ≡ [])) }
{
    !entry.charts.is_empty() || !entry.dimensions.is_empty()
}

/// Takes the entry of a beat, and says what the beat does to alarms.
fn take_entry(alloc: Global, left: &mut Left, entry: &Entry) -> Result<Stepping, OpenFault>
    ensures does { IfOk result (IsDoneBy entry.now) }
    ensures there { OnOk result (IsEntryThere left.new.registry entry.now) }
    ensures same { IfOk result
        (λ does. DefinesNothing does → left.new.registry ≡ left.old.registry) }
    ensures left { OnOk result (noted_in left.new ≡ with_entry (noted_in left.old) entry.now) }
    ensures rows { OnOk result
        (HasRows left.new.registry left.old.last_rows left.new.last_rows entry.now) }
    ensures next { OnOk result (entry_goes_on (noted_in left.old) entry.now ≡ true) }
    ensures broken { IfErr result
        (λ fault. fault ≡ OpenFault.Damaged 5
        → entry_goes_on (noted_in left.old) entry.now ≡ false) }
    ensures faults { IfErr result
        (λ fault. (fault ≡ OpenFault.Memory) ⊎ (fault ≡ OpenFault.Damaged 5)) }
    ensures latest { left.new.latest ≡ left.old.latest }
    ensures gaps { OnOk result (left.new.gaps ≡ gaps_after left.old.gaps entry.now) }
    ensures alarms { left.new.alarms ≡ left.old.alarms }
{
    match entry {
        Entry::Collected(found) => {
            take_collected(left, found)?;
            Ok(Stepping::Beat(found.moment, defines_some(found)))
        }
        Entry::Copied(found) => {
            take_copied(alloc, left, found)?;
            Ok(Stepping::Beat(found.moment, copy_defines(found)))
        }
        Entry::Health(text) => {
            let config = read_health(alloc, text.as_slice())?;
            Ok(Stepping::Configuration(config))
        }
        Entry::Gap(gap) => {
            take_gap(left, gap)?;
            Ok(Stepping::Nothing)
        }
    }
}

/// Takes an entry and the points of its beat as what was last seen.
fn see_entry(
    alloc: Global,
    left: &mut Left,
    entry: &Entry,
    points: &[BeatPoint],
    before: u32,
) -> Result<(), AllocError>
    requires there { IsEntryThere left.old.registry entry.now }
    requires named { names_series left.old.registry points.now ≡ true }
    ensures seen { OnOk result
        (HasSeen left.old.registry left.old.latest left.new.latest entry.now points.now) }
    ensures before { OnOk result (left.new.latest.before ≡ before) }
    ensures only { left.new ≡ record left.old { latest = left.new.latest } }
{
    match entry {
        Entry::Collected(found) => see_beat(alloc, left, found, points, before),
        Entry::Copied(found) => see_copy(alloc, left, found.moment, points, before),
        Entry::Health(_) | Entry::Gap(_) => {
            left.latest.before = before;
            Ok(())
        }
    }
}

/// Whether each point is of a series that the registry has.
fn names_series(registry: &Registry, points: &[BeatPoint]) -> bool
    ensures { result ≡ names_series registry.now points.now }
{
    points
        .iter()
        .all(|point| point.series < registry.dimensions())
}

/// Takes a kept beat by its note, all but what it does to alarms, and says that. `before` is the last moment before
/// it.
pub(crate) fn replay_beat(
    alloc: Global,
    left: &mut Left,
    kept: &Beat,
    before: u32,
) -> Result<Stepping, OpenFault>
    requires charts { AreApart same_chart left.old.registry.charts }
    requires dimensions { AreApart same_dimension left.old.registry.dimensions }
    requires limits { HasLimits left.old.registry }
    ensures taken { OnOk result
        ((set : ASettings) (g : List HistoryBeat) (beats : List StoreBeat) (beat : HistoryBeat)
        → IsTier (first_tier set) → AreBeatsOf g beats → IsBeatOf g beat kept.now
        → before ≡ last g → IsLeftBy set g left.old → AwaitsAlarms set g beat left.new) }
    ensures does { IfOk result
        (λ does. (g : List HistoryBeat) (beat : HistoryBeat) → IsBeatOf g beat kept.now
        → IsSteppingOf beat does) }
    ensures same { IfOk result
        (λ does. DefinesNothing does → left.new.registry ≡ left.old.registry) }
    ensures alarms { left.new.alarms ≡ left.old.alarms }

    // Where the beat is kept for one that follows the history, only memory can be short.
    ensures stands { IfErr result
        (λ fault. (set : ASettings) (g : List HistoryBeat) (beats : List StoreBeat)
        (beat : HistoryBeat) → AreBeatsOf g beats → IsBeatOf g beat kept.now
        → IsLeftBy set g left.old → fault ≡ OpenFault.Memory) }

    // Whatever beat it is: its note has an entry that goes on and its points are of series that are there then,
    // or it is damaged.
    ensures left { OnOk result (noted_in left.new ≡ with_note (noted_in left.old) kept.now) }
    ensures next { OnOk result (takes_note (noted_in left.old) kept.now ≡ true) }
    ensures broken { IfErr result
        (λ fault. fault ≡ OpenFault.Damaged 5 → takes_note (noted_in left.old) kept.now ≡ false) }
    ensures charts { OnOk result (AreApart same_chart left.new.registry.charts) }
    ensures dimensions { OnOk result (AreApart same_dimension left.new.registry.dimensions) }
    ensures limits { OnOk result (HasLimits left.new.registry) }
    ensures faults { IfErr result
        (λ fault. (fault ≡ OpenFault.Memory) ⊎ (fault ≡ OpenFault.Damaged 5)) }
{
    let entry = entry_in(alloc, kept)?;
    let does = take_entry(alloc, left, &entry)?;
    let points = kept.points.as_slice();
    if !names_series(&left.registry, points) {
        return Err(OpenFault::Damaged(NOTE_PART));
    }
    see_entry(alloc, left, &entry, points, before)?;
    Ok(does)
}
