//! The segments of extents whose pages may hold what no beats leave.
ghost use Rattle.std.specs.Prelude.{◌<◌, IfOk};
ghost use Rattle.std.specs.List.{AllByRecursion};
ghost use Rattle.beat_tiers.specs.Searching.{items_in};
ghost use Rattle.beat_tiers.specs.Sound.{IsPointItem, IsRecordOfSeries};

use crate::bodies::left_items::{left_points, left_records};
use beat_tiers::{Segment, SegmentList, Stepped};
use checkpoint_body::{Extent, RecordPageList, SlotPageList};
use fixed_num::Record;
use std::alloc::{AllocError, Global};

/// The segments of extents of points: of each that has some, the points that are left.
pub(crate) fn left_point_segments(
    alloc: Global,
    extents: &[Extent],
    kept: &[SlotPageList],
) -> Result<SegmentList<Stepped>, AllocError>
    ensures { IfOk result (λ segments. AllByRecursion IsPointItem (items_in segments)) }
{
    let mut segments = SegmentList::new(alloc);
    for (extent, pages) in extents.iter().zip(kept) {
        let sealed_at = extent.sealed_at;
        let items = left_points(alloc, sealed_at, pages.as_slice())?;
        if !items.is_empty() {
            segments.push(Segment { sealed_at, items })?;
        }
    }
    Ok(segments)
}

/// The segments of extents of records of buckets of a width: of each that has some, the records
/// that are left.
pub(crate) fn left_record_segments(
    alloc: Global,
    width: u32,
    extents: &[Extent],
    kept: &[RecordPageList],
) -> Result<SegmentList<Record>, AllocError>
    requires { 0 < width }
    ensures { IfOk result (λ segments. AllByRecursion IsRecordOfSeries (items_in segments)) }
{
    let mut segments = SegmentList::new(alloc);
    for (extent, pages) in extents.iter().zip(kept) {
        let sealed_at = extent.sealed_at;
        let items = left_records(alloc, sealed_at, width, pages.as_slice())?;
        if !items.is_empty() {
            segments.push(Segment { sealed_at, items })?;
        }
    }
    Ok(segments)
}
