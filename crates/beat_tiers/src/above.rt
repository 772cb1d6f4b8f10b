ghost use Rattle.std.specs.Prelude.{◌≡◌, ◌==◌, ◌||◌, ◌+◌, ◌≤◌, [], ◌∷◌, filter, length, nat_lt, take, IfOk, OnOk};
ghost use Rattle.std.specs.List.{AllByRecursion};
ghost use Rattle.beat_tiers.specs.Above.{is_above, least_behind, Adds, AddsAbove, RiseAbove, RiseFrom};
ghost use Rattle.beat_tiers.specs.Kept.{kept_in};
ghost use Rattle.beat_tiers.specs.Searching.{items_in, HasItems};
ghost use Rattle.beat_tiers.specs.Segments.{items_of};
ghost use Rattle.beat_tiers.specs.Tiers.{AreOrdered};

use crate::item::{Item, Stepped};
use crate::kept::{KeptBeat, KeptBeatList, add_item};
use crate::sealed::Sealed;
use crate::searching::{from_place, from_segment};
use crate::segments::Segments;
use std::alloc::{AllocError, Global};

/// The first place above a moment that an item behind beats may have.
fn least_behind(beats: &[KeptBeat], from: u32) -> u64
    ensures { result ≡ least_behind (from + 1) beats.now }
{
    match beats.last() {
        Some(last) => u64::from(last.moment),
        None => u64::from(from) + 1,
    }
}

/// Whether an item at this place begins a beat behind these, where `least` is the first place that
/// it may have.
fn begins(beats: &[KeptBeat], least: u64, place: u64) -> bool
    ensures { result ≡ nat_lt least place || (length beats.now == 0) }
{
    least < place || beats.is_empty()
}

/// Puts an item behind beats above a moment, and passes over one that lies before them. `false`
/// where it is of a beat more than are asked for.
fn add_above(
    alloc: Global,
    beats: &mut Vec<KeptBeat>,
    item: &Item<Stepped>,
    from: u32,
    most: usize,
) -> Result<bool, AllocError>
    requires rises { RiseAbove from beats.old.items }
    requires few { length beats.old.items ≤ most }
    ensures rises { OnOk result (RiseAbove from beats.new.items) }
    ensures few { OnOk result (length beats.new.items ≤ most) }
    ensures added { least_behind (from + 1) beats.old.items ≤ item.now.place
        → IfOk result (Adds most beats.old.items (item.now ∷ []) beats.new.items) }
{
    let least = least_behind(beats.as_slice(), from);
    let place = u64::from(item.place);
    if place < least {
        return Ok(true);
    }
    if most <= beats.len() && begins(beats.as_slice(), least, place) {
        return Ok(false);
    }
    add_item(alloc, beats, item)?;
    Ok(true)
}

/// Puts items behind beats above a moment, up to the end of the last beat that is asked for.
/// Whether more are wanted.
fn add_items(
    alloc: Global,
    beats: &mut Vec<KeptBeat>,
    items: &[Item<Stepped>],
    from: u32,
    most: usize,
) -> Result<bool, AllocError>
    requires rises { RiseAbove from beats.old.items }
    requires few { length beats.old.items ≤ most }
    ensures rises { OnOk result (RiseAbove from beats.new.items) }
    ensures few { OnOk result (length beats.new.items ≤ most) }
    ensures added { IfOk result
        (λ going. RiseFrom (least_behind (from + 1) beats.old.items) items.now
        → Adds most beats.old.items items.now beats.new.items going) }
{
    for item in items {
        if !add_above(alloc, beats, item, from, most)? {
            return Ok(false);
        }
    }
    Ok(true)
}

/// Puts those of some items behind beats that lie above a moment. The first of them is found by
/// halves.
fn add_ordered(
    alloc: Global,
    beats: &mut Vec<KeptBeat>,
    items: &[Item<Stepped>],
    from: u32,
    most: usize,
) -> Result<bool, AllocError>
    requires rises { RiseAbove from beats.old.items }
    requires few { length beats.old.items ≤ most }
    ensures rises { OnOk result (RiseAbove from beats.new.items) }
    ensures few { OnOk result (length beats.new.items ≤ most) }
    ensures added { IfOk result
        (AddsAbove from most beats.old.items items.now beats.new.items) }
{
    let above = from_place(items, u64::from(from) + 1);
    add_items(alloc, beats, above, from, most)
}

/// Puts those items of segments behind beats that lie above a moment.
fn add_segments(
    alloc: Global,
    beats: &mut Vec<KeptBeat>,
    segments: &[Sealed<Stepped>],
    from: u32,
    most: usize,
) -> Result<bool, AllocError>
    requires rises { RiseAbove from beats.old.items }
    requires few { length beats.old.items ≤ most }
    ensures rises { OnOk result (RiseAbove from beats.new.items) }
    ensures few { OnOk result (length beats.new.items ≤ most) }
    ensures added { IfOk result
        (AddsAbove from most beats.old.items (items_in segments.now) beats.new.items) }
{
    for segment in segments {
        if !add_ordered(alloc, beats, segment.items(), from, most)? {
            return Ok(false);
        }
    }
    Ok(true)
}

/// Puts those items of segments behind beats that lie above a moment. The first segment that has
/// some is found by halves.
fn add_sealed(
    alloc: Global,
    beats: &mut Vec<KeptBeat>,
    segments: &[Sealed<Stepped>],
    from: u32,
    most: usize,
) -> Result<bool, AllocError>
    requires full { AllByRecursion HasItems segments.now }
    requires rises { RiseAbove from beats.old.items }
    requires few { length beats.old.items ≤ most }
    ensures rises { OnOk result (RiseAbove from beats.new.items) }
    ensures few { OnOk result (length beats.new.items ≤ most) }
    ensures added { IfOk result
        (AddsAbove from most beats.old.items (items_in segments.now) beats.new.items) }
{
    let above = from_segment(segments, u64::from(from) + 1);
    add_segments(alloc, beats, above, from, most)
}

/// Puts those of all items behind beats that lie above a moment.
fn add_all(
    alloc: Global,
    beats: &mut Vec<KeptBeat>,
    segments: &Segments<Stepped>,
    from: u32,
    most: usize,
) -> Result<bool, AllocError>
    requires rises { RiseAbove from beats.old.items }
    requires few { length beats.old.items ≤ most }
    ensures rises { OnOk result (RiseAbove from beats.new.items) }
    ensures few { OnOk result (length beats.new.items ≤ most) }
    ensures added { IfOk result
        (AddsAbove from most beats.old.items (items_of segments.now.kept) beats.new.items) }
{
    let (earlier, later) = segments.sealed();
    if !add_sealed(alloc, beats, earlier, from, most)? {
        return Ok(false);
    }
    if !add_sealed(alloc, beats, later, from, most)? {
        return Ok(false);
    }
    add_ordered(alloc, beats, segments.unsealed(), from, most)
}

/// The beats above a moment that gave the items of segments, the earliest first, and at most so
/// many of them.
pub(crate) fn kept_above(
    alloc: Global,
    segments: &Segments<Stepped>,
    from: u32,
    most: usize,
) -> Result<KeptBeatList, AllocError>
    ensures kept { AreOrdered (items_of segments.now.kept) → IfOk result (λ beats.
        beats ≡ take most (filter (is_above from) (kept_in segments.now.kept).beats)) }
    ensures rises { IfOk result (RiseAbove from) }
    ensures few { IfOk result (λ beats. length beats ≤ most) }
{
    let mut beats = Vec::new(alloc);
    let _more = add_all(alloc, &mut beats, segments, from, most)?;
    Ok(KeptBeatList::from_vec(beats))
}
