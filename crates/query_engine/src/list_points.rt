ghost use Rattle.std.specs.Prelude.{◌≡◌, ◌≢◌, ℕ, ◌<◌, ◌≤◌, ◌*◌, List, [], filter, length, slice_index, slice_index_or, IsTrue, Some, IfOk, IsErrOf};
ghost use Rattle.std.specs.List.{list_all};
ghost use Rattle.query_engine.specs.Points.{are_series, are_widths, is_asked, record_at, IsFirstRecord};
ghost use Rattle.query_engine.specs.InMemory.{series_in};

use crate::fault::PointFault;
use crate::point::{MomentList, Point, PointList, SeriesPointsList};
use crate::points::Points;
use crate::span;
use fixed_num::Record;
use std::alloc::Global;

/// Points in memory, with records that are computed from them. Its calls fail only out of memory.
#[derive(Debug, Drop)]
pub struct ListPoints {
    widths: MomentList,
    floors: MomentList,
    points: SeriesPointsList,
    ghost widths_of_tiers: { IsTrue (are_widths widths) },
    ghost floor_of_each: { length floors ≡ length widths },
    ghost rising: { IsTrue (list_all are_series points) },
}

impl ListPoints {
    ghost use Rattle.query_engine.specs.ListPoints.{points_of, tiers_of};
    ghost use Rattle.query_engine.specs.InMemory.{tiers_in};

    /// Tiers of these widths and floors over the points of each series, that of series 0 first.
    pub fn new(widths: MomentList, floors: MomentList, points: SeriesPointsList) -> ListPoints
        requires widths { IsTrue (are_widths widths) }
        requires floors { length floors ≡ length widths }
        requires series { IsTrue (list_all are_series points) }
        ensures tiers { tiers_of result ≡ tiers_in widths floors }
        ensures points { points_of result ≡ series_in points }
    {
        ListPoints {
            widths,
            floors,
            points,
        }
    }
}

/// The points at or above a floor, from one moment to another, both included.
fn points_between(
    alloc: Global,
    points: &[Point],
    floor: u32,
    from: u32,
    to: u32,
) -> Result<PointList, PointFault>
    ensures found { IfOk result (λ found. found ≡ filter (is_asked floor from to) points.now) }
    ensures memory { IsErrOf result PointFault.Disk → ⊥ }
{
    let mut found = PointList::new(alloc);
    for point in points {
        if floor <= point.moment && from <= point.moment && point.moment <= to {
            found.push(*point)?;
        }
    }
    Ok(found)
}

/// The points of a series, of which there are none past the last series.
fn series_in(points: &[PointList], series: u32) -> &[Point]
    ensures { result.now ≡ series_in points.now series }
{
    match points.get(series as usize) {
        Some(found) => found.as_slice(),
        None => &[],
    }
}

/// The record of a bucket that starts at or above a floor, if it has points.
fn record_at(points: &[Point], width: u32, floor: u32, bucket: u32) -> Option<Record>
    ensures { IsTrue (are_series points.now) → result ≡ record_at width floor bucket points.now }
{
    let start = u64::from(bucket) * u64::from(width);
    if start < u64::from(floor) {
        return None;
    }
    span::record_between(points, start, start + u64::from(width))
}

/// The first bucket from one on and up to another, both included, that has a record, and that record.
fn first_record(
    points: &[Point],
    width: u32,
    floor: u32,
    from: u32,
    to: u32,
) -> Option<(u32, Record)>
    requires { 0 < width }
    ensures { IsTrue (are_series points.now)
        → IsFirstRecord width floor from to points.now result }
{
    for point in points {
        let bucket = point.moment / width;
        if from <= bucket && bucket <= to {
            if let Some(record) = record_at(points, width, floor, bucket) {
                return Some((bucket, record));
            }
        }
    }
    None
}

impl Points for ListPoints {
    ghost use Rattle.query_engine.specs.ListPoints.{points_of, tiers_of};
    ghost use Rattle.query_engine.specs.InMemory.{told_series};

    ghost tiers = { tiers_of };

    ghost tells = { λ source told. told ≡ points_of source };

    ghost faults = { λ _. 0 };

    ghost held = { λ _. tt };

    fn widths(&self) -> &[u32] {
        self.widths.as_slice()
    }

    fn floor(&self, tier: u8) -> u32 {
        self.floors.as_slice()[tier as usize]
    }

    fn points(
        &mut self,
        alloc: Global,
        series: u32,
        from: u32,
        to: u32,
    ) -> Result<PointList, PointFault> {
        let floor = self.floor(0);
        points_between(
            alloc,
            series_in(self.points.as_slice(), series),
            floor,
            from,
            to,
        )
    }

    fn record_of(
        &mut self,
        _alloc: Global,
        tier: u8,
        series: u32,
        bucket: u32,
    ) -> Result<Option<Record>, PointFault> {
        let width = self.widths.as_slice()[tier as usize];
        let floor = self.floor(tier);
        Ok(record_at(
            series_in(self.points.as_slice(), series),
            width,
            floor,
            bucket,
        ))
    }

    fn next_record(
        &mut self,
        _alloc: Global,
        tier: u8,
        series: u32,
        from: u32,
        to: u32,
    ) -> Result<Option<(u32, Record)>, PointFault> {
        let width = self.widths.as_slice()[tier as usize];
        let floor = self.floor(tier);
        Ok(first_record(
            series_in(self.points.as_slice(), series),
            width,
            floor,
            from,
            to,
        ))
    }

    ghost rising_widths = { λ source. source.widths_of_tiers };

    ghost rising_series = { λ source told tells series.
        told_series source.points source.rising told tells series };
}
