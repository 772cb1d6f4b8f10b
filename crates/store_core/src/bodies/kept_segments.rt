//! The sealed segments of a tier, by the extents that a body names and by their pages.
ghost use Rattle.std.specs.Prelude.{◌≡◌, List, Some, IfOk, IfSome};
ghost use Rattle.std.specs.List.{AllByRecursion};
ghost use Rattle.fixed_num.specs.declared.units.Record.{Record as ARecord};
ghost use Rattle.beat_tiers.specs.declared.item.Stepped.{Stepped as AStepped};
ghost use Rattle.beat_tiers.specs.declared.parts.Segment.{Segment as ASegment};
ghost use Rattle.store_core.specs.bodies.Reading.{ArePointSegmentsIn, AreRecordSegmentsIn, IsInOrder, IsPointSegmentIn, IsRecordSegmentIn};

use crate::bodies::kept_items::{points_of, records_of};
use crate::bodies::numbers::{has_number, next_number};
use beat_tiers::{Segment, SegmentList, Stepped, places_in};
use checkpoint_body::{Extent, RecordPage, RecordPageList, SlotPage, SlotPageList};
use fixed_num::{ListOf, Record};
use std::alloc::{AllocError, Global};

/// The segment of an extent of points, before which so many beats had points. `None` where the
/// extent and its pages are those of no segment with this number.
fn point_segment(
    alloc: Global,
    serial: Option<u64>,
    before: u64,
    extent: &Extent,
    pages: &[SlotPage],
) -> Result<Option<Segment<Stepped>>, AllocError>
    ensures found { IfOk result (λ found. IfSome found
        (IsPointSegmentIn serial before extent.now pages.now)) }
    ensures one { IfOk result (λ found. (segment : ASegment AStepped) → IsInOrder segment
        → IsPointSegmentIn serial before extent.now pages.now segment → found ≡ Some segment) }
{
    let Some(items) = points_of(alloc, pages)? else {
        return Ok(None);
    };
    let beats = before.saturating_add(places_in(items.as_slice()));
    if !has_number(extent, serial) || extent.beats != beats {
        return Ok(None);
    }
    let sealed_at = extent.sealed_at;
    Ok(Some(Segment { sealed_at, items }))
}

/// The segments of extents of points, the first of which has this number, and before which so many
/// beats had points. `None` where the extents and their pages are those of no segments.
pub(crate) fn point_segments(
    alloc: Global,
    mut serial: Option<u64>,
    mut before: u64,
    extents: &[Extent],
    kept: &[SlotPageList],
) -> Result<Option<SegmentList<Stepped>>, AllocError>
    ensures found { IfOk result (λ found. IfSome found
        (ArePointSegmentsIn serial before extents.now kept.now)) }
    ensures one { IfOk result (λ found. (segments : List (ASegment AStepped))
        → AllByRecursion IsInOrder segments
        → ArePointSegmentsIn serial before extents.now kept.now segments
        → found ≡ Some segments) }
{
    let mut segments = ListOf::new(alloc);
    let mut ahead = extents;
    for pages in kept {
        let Some((extent, others)) = ahead.split_first() else {
            return Ok(None);
        };
        let found = point_segment(alloc, serial, before, extent, pages.as_slice())?;
        let Some(segment) = found else {
            return Ok(None);
        };
        segments.push(segment)?;
        serial = next_number(serial);
        before = extent.beats;
        ahead = others;
    }
    if !ahead.is_empty() {
        return Ok(None);
    }
    Ok(Some(segments))
}

/// The segment of an extent of records of buckets of a width. `None` where the extent and its pages
/// are those of no segment with this number.
fn record_segment(
    alloc: Global,
    width: u32,
    serial: Option<u64>,
    extent: &Extent,
    pages: &[RecordPage],
) -> Result<Option<Segment<Record>>, AllocError>
    ensures found { IfOk result (λ found. IfSome found
        (IsRecordSegmentIn width serial extent.now pages.now)) }
    ensures one { IfOk result (λ found. (segment : ASegment ARecord) → IsInOrder segment
        → IsRecordSegmentIn width serial extent.now pages.now segment → found ≡ Some segment) }
{
    let Some(records) = records_of(alloc, width, pages)? else {
        return Ok(None);
    };
    if !has_number(extent, serial) || extent.beats != 0 {
        return Ok(None);
    }
    Ok(Some(Segment {
        sealed_at: extent.sealed_at,
        items: records,
    }))
}

/// The segments of extents of records of buckets of a width, the first of which has this number.
/// `None` where the extents and their pages are those of no segments.
pub(crate) fn record_segments(
    alloc: Global,
    width: u32,
    mut serial: Option<u64>,
    extents: &[Extent],
    kept: &[RecordPageList],
) -> Result<Option<SegmentList<Record>>, AllocError>
    ensures found { IfOk result (λ found. IfSome found
        (AreRecordSegmentsIn width serial extents.now kept.now)) }
    ensures one { IfOk result (λ found. (segments : List (ASegment ARecord))
        → AllByRecursion IsInOrder segments
        → AreRecordSegmentsIn width serial extents.now kept.now segments
        → found ≡ Some segments) }
{
    let mut segments = ListOf::new(alloc);
    let mut ahead = extents;
    for pages in kept {
        let Some((extent, others)) = ahead.split_first() else {
            return Ok(None);
        };
        let found = record_segment(alloc, width, serial, extent, pages.as_slice())?;
        let Some(segment) = found else {
            return Ok(None);
        };
        segments.push(segment)?;
        serial = next_number(serial);
        ahead = others;
    }
    if !ahead.is_empty() {
        return Ok(None);
    }
    Ok(Some(segments))
}
