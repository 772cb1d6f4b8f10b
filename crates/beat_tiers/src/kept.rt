ghost use Rattle.std.specs.Prelude.{◌≡◌, [], ◌∷◌, ◌++◌, flat_map, IfOk, OnOk};
ghost use Rattle.beat_tiers.specs.declared.item.Stepped.{Stepped as AStepped};
ghost use Rattle.beat_tiers.specs.declared.parts.Segment.{Segment as ASegment};
ghost use Rattle.beat_tiers.specs.Kept.{beat_of_item, behind_all, behind_beats, kept_in, point_of_item};

use crate::item::{Item, Stepped};
use crate::sealed::Sealed;
use crate::segments::Segments;
use fixed_num::ListOf;
use std::alloc::{AllocError, Global};

/// A point of a kept beat.
#[derive(Clone, Copy, Debug, PartialEq, Eq)]
pub struct KeptPoint {
    /// The number of the series.
    pub series: u32,
    /// The value, as a storage number.
    pub word: u32,
}

/// The points of a kept beat, in the order in which they came.
pub type KeptPointList = ListOf<KeptPoint>;

/// A beat with points that are kept.
#[derive(Debug, Drop)]
pub struct KeptBeat {
    /// In seconds.
    pub moment: u32,
    pub points: KeptPointList,
}

/// Kept beats, the earliest first.
pub type KeptBeatList = ListOf<KeptBeat>;

/// The beats that are kept of all that had points.
#[derive(Debug, Drop)]
pub struct Kept {
    /// How many came before them. The count stands still at 2^64 - 1.
    pub before: u64,
    pub beats: KeptBeatList,
}

fn point_of_item(item: &Item<Stepped>) -> KeptPoint
    ensures { result ≡ point_of_item item.now }
{
    KeptPoint {
        series: item.series,
        word: item.value.word,
    }
}

/// The beat of one item.
fn beat_of_item(alloc: Global, item: &Item<Stepped>) -> Result<KeptBeat, AllocError>
    ensures { IfOk result (λ beat. beat ≡ beat_of_item item.now) }
{
    let mut points = KeptPointList::new(alloc);
    points.push(point_of_item(item))?;
    Ok(KeptBeat {
        moment: item.place,
        points,
    })
}

/// Adds an item to the beat of its moment.
fn add_point(beat: &mut KeptBeat, item: &Item<Stepped>) -> Result<(), AllocError>
    ensures { OnOk result (beat.new
        ≡ record beat.old { points = beat.old.points ++ point_of_item item.now ∷ [] }) }
{
    beat.points.push(point_of_item(item))?;
    Ok(())
}

/// Puts the last beat back, and an item behind it.
fn add_behind(
    alloc: Global,
    beats: &mut Vec<KeptBeat>,
    mut last: KeptBeat,
    item: &Item<Stepped>,
) -> Result<(), AllocError>
    ensures { OnOk result (beats.new.items
        ≡ beats.old.items ++ behind_beats (last ∷ []) item.now) }
{
    if last.moment == item.place {
        add_point(&mut last, item)?;
        beats.push(last)?;
        return Ok(());
    }
    beats.push(last)?;
    beats.push(beat_of_item(alloc, item)?)?;
    Ok(())
}

/// Puts an item behind beats.
pub(crate) fn add_item(
    alloc: Global,
    beats: &mut Vec<KeptBeat>,
    item: &Item<Stepped>,
) -> Result<(), AllocError>
    ensures { OnOk result (beats.new.items ≡ behind_beats beats.old.items item.now) }
{
    match beats.pop() {
        Some(last) => add_behind(alloc, beats, last, item),
        None => {
            beats.push(beat_of_item(alloc, item)?)?;
            Ok(())
        }
    }
}

/// Puts items behind beats, one after the other.
fn add_items(
    alloc: Global,
    beats: &mut Vec<KeptBeat>,
    items: &[Item<Stepped>],
) -> Result<(), AllocError>
    ensures { OnOk result (beats.new.items ≡ behind_all beats.old.items items.now) }
{
    for item in items {
        add_item(alloc, beats, item)?;
    }
    Ok(())
}

/// Puts the items of segments behind beats.
fn add_segments(
    alloc: Global,
    beats: &mut Vec<KeptBeat>,
    segments: &[Sealed<Stepped>],
) -> Result<(), AllocError>
    ensures { OnOk result (beats.new.items ≡ behind_all beats.old.items
        (flat_map (λ (segment : ASegment AStepped). segment.items) segments.now)) }
{
    for segment in segments {
        add_items(alloc, beats, segment.items())?;
    }
    Ok(())
}

/// The beats of all items.
fn beats_of(alloc: Global, segments: &Segments<Stepped>) -> Result<KeptBeatList, AllocError>
    ensures { IfOk result (λ beats. beats ≡ (kept_in segments.now.kept).beats) }
{
    let mut beats = Vec::new(alloc);
    let (earlier, later) = segments.sealed();
    add_segments(alloc, &mut beats, earlier)?;
    add_segments(alloc, &mut beats, later)?;
    add_items(alloc, &mut beats, segments.unsealed())?;
    Ok(KeptBeatList::from_vec(beats))
}

/// The beats that gave the items of segments.
pub(crate) fn kept_of(alloc: Global, segments: &Segments<Stepped>) -> Result<Kept, AllocError>
    ensures { IfOk result (λ kept. kept ≡ kept_in segments.now.kept) }
{
    let beats = beats_of(alloc, segments)?;
    Ok(Kept {
        before: segments.before(),
        beats,
    })
}
