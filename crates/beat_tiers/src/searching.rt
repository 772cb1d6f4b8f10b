ghost use Rattle.std.specs.Prelude.{◌≡◌, ◌==◌, ℕ, [], ◌∷◌, ◌++◌, nat_le, filter, find, flat_map, take, IfOk, OnOk};
ghost use Rattle.std.specs.List.{filter_map, AllByRecursion};
ghost use Rattle.std.specs.Option.{option_map};
ghost use Rattle.fixed_num.specs.declared.units.Record.{Record as ARecord};
ghost use Rattle.beat_tiers.specs.declared.item.Item.{Item as AnItem};
ghost use Rattle.beat_tiers.specs.declared.parts.Segment.{Segment as ASegment};
ghost use Rattle.beat_tiers.specs.Searching.{first_place, is_before, is_next, items_in, last_place, HasItems};
ghost use Rattle.beat_tiers.specs.Segments.{items_of};
ghost use Rattle.beat_tiers.specs.State.{is_item, point_at};
ghost use Rattle.beat_tiers.specs.Tiers.{AreOrdered};

use crate::item::{Item, Stepped};
use crate::sealed::Sealed;
use crate::segments::Segments;
use fixed_num::Record;
use std::alloc::{AllocError, Global};
use tier_rollup::{Point, PointList};

/// The items from a place on, by halves.
pub(crate) fn from_place<T>(items: &[Item<T>], low: u64) -> &[Item<T>]
    ensures ordered { AreOrdered items.now → AreOrdered result.now }
    ensures from { AreOrdered items.now
        → result.now ≡ filter (λ (item : AnItem T). nat_le low item.place) items.now }
{
    let start = items.partition_point(|item| u64::from(item.place) < low);
    items.split_at(start).1
}

/// The items up to a place, by halves.
fn to_place<T>(items: &[Item<T>], high: u32) -> &[Item<T>]
    ensures { AreOrdered items.now
        → result.now ≡ filter (λ (item : AnItem T). nat_le item.place high) items.now }
{
    let end = items.partition_point(|item| item.place <= high);
    items.split_at(end).0
}

/// The place of the first item, or 0.
fn first_place<T>(segment: &Sealed<T>) -> u32
    ensures { result ≡ first_place segment.now }
{
    match segment.items().first() {
        Some(item) => item.place,
        None => 0,
    }
}

/// The place of the last item, or 0.
fn last_place<T>(segment: &Sealed<T>) -> u32
    ensures { result ≡ last_place segment.now }
{
    match segment.items().last() {
        Some(item) => item.place,
        None => 0,
    }
}

/// The segments that have items from a place on, by halves.
pub(crate) fn from_segment<T>(segments: &[Sealed<T>], low: u64) -> &[Sealed<T>]
    requires { AllByRecursion HasItems segments.now }
    ensures ordered { AreOrdered (items_in segments.now) → AreOrdered (items_in result.now) }
    ensures full { AllByRecursion HasItems result.now }
    ensures from { AreOrdered (items_in segments.now)
        → filter (λ (item : AnItem T). nat_le low item.place) (items_in result.now)
        ≡ filter (λ (item : AnItem T). nat_le low item.place) (items_in segments.now) }
{
    let start = segments.partition_point(|segment| u64::from(last_place(segment)) < low);
    segments.split_at(start).1
}

/// The segments that have items up to a place, by halves.
fn to_segment<T>(segments: &[Sealed<T>], high: u32) -> &[Sealed<T>]
    requires { AllByRecursion HasItems segments.now }
    ensures ordered { AreOrdered (items_in segments.now) → AreOrdered (items_in result.now) }
    ensures to { AreOrdered (items_in segments.now)
        → filter (λ (item : AnItem T). nat_le item.place high) (items_in result.now)
        ≡ filter (λ (item : AnItem T). nat_le item.place high) (items_in segments.now) }
{
    let end = segments.partition_point(|segment| first_place(segment) <= high);
    segments.split_at(end).0
}

/// The point that an item is, where it is of this series and between these moments.
fn point_at(item: &Item<Stepped>, floor: u64, series: u32, from: u32, to: u32) -> Option<Point>
    ensures { result ≡ point_at floor series from to item.now }
{
    if item.series == series
        && floor <= u64::from(item.place)
        && from <= item.place
        && item.place <= to
    {
        Some(Point {
            moment: item.place,
            word: item.value.word,
        })
    } else {
        None
    }
}

/// Adds the point that an item is.
fn add_item(
    points: &mut PointList,
    item: &Item<Stepped>,
    floor: u64,
    series: u32,
    from: u32,
    to: u32,
) -> Result<(), AllocError>
    ensures { OnOk result (points.new
        ≡ points.old ++ filter_map (point_at floor series from to) (item.now ∷ [])) }
{
    match point_at(item, floor, series, from, to) {
        Some(point) => {
            points.push(point)?;
            Ok(())
        }
        None => Ok(()),
    }
}

/// Adds the points that some items are.
fn add_items(
    points: &mut PointList,
    items: &[Item<Stepped>],
    floor: u64,
    series: u32,
    from: u32,
    to: u32,
) -> Result<(), AllocError>
    ensures { OnOk result (points.new
        ≡ points.old ++ filter_map (point_at floor series from to) items.now) }
{
    for item in items {
        add_item(points, item, floor, series, from, to)?;
    }
    Ok(())
}

/// Adds the points that ordered items are, and reads those alone that lie between the moments.
fn add_ordered(
    points: &mut PointList,
    items: &[Item<Stepped>],
    floor: u64,
    series: u32,
    from: u32,
    to: u32,
) -> Result<(), AllocError>
    ensures { AreOrdered items.now → OnOk result (points.new
        ≡ points.old ++ filter_map (point_at floor series from to) items.now) }
{
    let low = floor.max(u64::from(from));
    let between = to_place(from_place(items, low), to);
    add_items(points, between, floor, series, from, to)
}

/// Adds the points that the items of a segment are.
fn add_segment(
    points: &mut PointList,
    segment: &Sealed<Stepped>,
    floor: u64,
    series: u32,
    from: u32,
    to: u32,
) -> Result<(), AllocError>
    ensures { AreOrdered segment.now.items → OnOk result (points.new
        ≡ points.old ++ filter_map (point_at floor series from to) segment.now.items) }
{
    add_ordered(points, segment.of_series(series), floor, series, from, to)
}

/// Adds the points that the items of segments are.
fn add_segments(
    points: &mut PointList,
    segments: &[Sealed<Stepped>],
    floor: u64,
    series: u32,
    from: u32,
    to: u32,
) -> Result<(), AllocError>
    ensures { AreOrdered (items_in segments.now)
        → OnOk result (points.new ≡ points.old ++ filter_map (point_at floor series from to)
        (items_in segments.now)) }
{
    for segment in segments {
        add_segment(points, segment, floor, series, from, to)?;
    }
    Ok(())
}

/// Adds the points that the items of segments are, and reads those segments alone that have some between the moments.
fn add_between(
    points: &mut PointList,
    segments: &[Sealed<Stepped>],
    floor: u64,
    series: u32,
    from: u32,
    to: u32,
) -> Result<(), AllocError>
    requires { AllByRecursion HasItems segments.now }
    ensures { AreOrdered (items_in segments.now) → OnOk result (points.new
        ≡ points.old ++ filter_map (point_at floor series from to) (items_in segments.now)) }
{
    let low = floor.max(u64::from(from));
    let between = to_segment(from_segment(segments, low), to);
    add_segments(points, between, floor, series, from, to)
}

/// The points of a series at or above a floor and between two moments, these included.
pub(crate) fn points_of(
    alloc: Global,
    segments: &Segments<Stepped>,
    floor: u64,
    series: u32,
    from: u32,
    to: u32,
) -> Result<PointList, AllocError>
    ensures { AreOrdered (items_of segments.now.kept) → IfOk result (λ points. points
        ≡ filter_map (point_at floor series from to) (items_of segments.now.kept)) }
{
    let mut points = PointList::new(alloc);
    let (earlier, later) = segments.sealed();
    add_between(&mut points, earlier, floor, series, from, to)?;
    add_between(&mut points, later, floor, series, from, to)?;
    add_ordered(&mut points, segments.unsealed(), floor, series, from, to)?;
    Ok(points)
}

/// Whether an item comes before those of a bucket's series.
fn is_before<T>(item: &Item<T>, bucket: u32, series: u32) -> bool
    ensures { result ≡ is_before bucket series item.now }
{
    item.place < bucket || (item.place == bucket && item.series < series)
}

/// The items from that of a bucket's series on, by halves.
fn from_item(items: &[Item<Record>], bucket: u32, series: u32) -> &[Item<Record>]
    ensures { AreOrdered items.now → find (is_item bucket series) (take 1 result.now)
        ≡ find (is_item bucket series) items.now }
{
    let start = items.partition_point(|item| is_before(item, bucket, series));
    items.split_at(start).1
}

/// The record of a bucket's series among ordered items.
fn find_item(items: &[Item<Record>], bucket: u32, series: u32) -> Option<Record>
    ensures { AreOrdered items.now → result ≡ option_map (λ (item : AnItem ARecord). item.value)
        (find (is_item bucket series) items.now) }
{
    match from_item(items, bucket, series).first() {
        Some(item) if item.place == bucket && item.series == series => Some(item.value),
        _ => None,
    }
}

/// The record of a bucket's series among the items of segments.
fn find_in_segments(segments: &[Sealed<Record>], bucket: u32, series: u32) -> Option<Record>
    ensures { AreOrdered (items_in segments.now)
        → result ≡ option_map (λ (item : AnItem ARecord). item.value)
        (find (is_item bucket series)
        (items_in segments.now)) }
{
    for segment in segments {
        match find_item(segment.items(), bucket, series) {
            Some(record) => return Some(record),
            None => {}
        }
    }
    None
}

/// The record of a bucket's series among the items of segments. The segments of the bucket are found by halves.
fn find_between(segments: &[Sealed<Record>], bucket: u32, series: u32) -> Option<Record>
    requires { AllByRecursion HasItems segments.now }
    ensures { AreOrdered (items_in segments.now)
        → result ≡ option_map (λ (item : AnItem ARecord). item.value)
        (find (is_item bucket series) (items_in segments.now)) }
{
    let between = to_segment(from_segment(segments, u64::from(bucket)), bucket);
    find_in_segments(between, bucket, series)
}

/// The record of a bucket's series.
pub(crate) fn record_of(segments: &Segments<Record>, bucket: u32, series: u32) -> Option<Record>
    ensures { AreOrdered (items_of segments.now.kept)
        → result ≡ option_map (λ (item : AnItem ARecord). item.value)
        (find (is_item bucket series) (items_of segments.now.kept)) }
{
    let (earlier, later) = segments.sealed();
    match find_between(earlier, bucket, series) {
        Some(record) => Some(record),
        None => match find_between(later, bucket, series) {
            Some(record) => Some(record),
            None => find_item(segments.unsealed(), bucket, series),
        },
    }
}

/// The first item of a series.
fn first_of(items: &[Item<Record>], series: u32) -> Option<Item<Record>>
    ensures { result ≡ find (λ (item : AnItem ARecord). item.series == series) items.now }
{
    items.iter().find(|item| item.series == series).copied()
}

/// The first item of a series among ordered items, from one place to another, these included. The places are found by
/// halves.
fn find_next(items: &[Item<Record>], series: u32, from: u32, to: u32) -> Option<Item<Record>>
    ensures { AreOrdered items.now → result ≡ find (is_next series from to) items.now }
{
    first_of(to_place(from_place(items, u64::from(from)), to), series)
}

/// The first item of a series in a segment, from one place to another, these included.
fn next_in(segment: &Sealed<Record>, series: u32, from: u32, to: u32) -> Option<Item<Record>>
    ensures { AreOrdered segment.now.items
        → result ≡ find (is_next series from to) segment.now.items }
{
    find_next(segment.of_series(series), series, from, to)
}

/// The first item of a series among the items of segments, from one place to another, these included.
fn next_in_segments(
    segments: &[Sealed<Record>],
    series: u32,
    from: u32,
    to: u32,
) -> Option<Item<Record>>
    ensures { AreOrdered (items_in segments.now)
        → result ≡ find (is_next series from to)
        (items_in segments.now) }
{
    for segment in segments {
        match next_in(segment, series, from, to) {
            Some(item) => return Some(item),
            None => {}
        }
    }
    None
}

/// The first item of a series among the items of segments, from one place to another, these included. The segments
/// between the places are found by halves.
fn next_between(
    segments: &[Sealed<Record>],
    series: u32,
    from: u32,
    to: u32,
) -> Option<Item<Record>>
    requires { AllByRecursion HasItems segments.now }
    ensures { AreOrdered (items_in segments.now)
        → result ≡ find (is_next series from to) (items_in segments.now) }
{
    let between = to_segment(from_segment(segments, u64::from(from)), to);
    next_in_segments(between, series, from, to)
}

/// The first item of a series from one place to another, these included.
pub(crate) fn next_item(
    segments: &Segments<Record>,
    series: u32,
    from: u32,
    to: u32,
) -> Option<Item<Record>>
    ensures { AreOrdered (items_of segments.now.kept)
        → result ≡ find (is_next series from to) (items_of segments.now.kept) }
{
    let (earlier, later) = segments.sealed();
    match next_between(earlier, series, from, to) {
        Some(item) => Some(item),
        None => match next_between(later, series, from, to) {
            Some(item) => Some(item),
            None => find_next(segments.unsealed(), series, from, to),
        },
    }
}
