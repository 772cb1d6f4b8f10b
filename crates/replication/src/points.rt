//! Points in the order of their names, and names that are numbered in this order.
ghost use Rattle.std.specs.Prelude.{◌≡◌, ℕ, ◌<◌, ◌≤◌, ◌^◌, List, map, length, insert, position, slice_set, vec_len, IfOk, IfErr, OnOk};
ghost use Rattle.std.specs.List.{flat_map, list_any, position_or_len};
ghost use Rattle.std.specs.Str.{bytes_eq};
ghost use Rattle.replication.specs.Points.{name_cmp, has_name_of, put, put_all, in_order, names_in, with_id, with_ids, charts_of, plain_chart, plain_dimension, names_of, numbered_point, numbered_beat, numbered_beats};

use crate::beats::{Beat, BeatList, SeriesWord, SeriesWordList};
use crate::fault::CopyFault;
use crate::named::{NamedBeat, NamedPoint, NamedPointList};
use crate::names::{ChartName, ChartNameList, DimName, DimNameList, Names};
use fixed_num::Text;
use std::alloc::Global;
use std::cmp::Ordering;

/// Compares by the bytes of the chart's id, and then of the dimension's.
fn compare_names(p: &NamedPoint, q: &NamedPoint) -> Ordering
    ensures { result ≡ name_cmp p.now q.now }
{
    let charts = p.chart.as_str().cmp(q.chart.as_str());
    charts.then(p.dimension.as_str().cmp(q.dimension.as_str()))
}

fn has_name_of(p: &NamedPoint, q: &NamedPoint) -> bool
    ensures { result ≡ has_name_of p.now q.now }
{
    compare_names(p, q).is_eq()
}

fn copy_of(point: &NamedPoint) -> Result<NamedPoint, CopyFault>
    ensures { IfOk result (λ copy. copy ≡ point.now) }
{
    Ok(NamedPoint {
        chart: point.chart.clone()?,
        dimension: point.dimension.clone()?,
        word: point.word,
    })
}

/// The place of the point of this name, or else the place at which this point stands in order.
fn search(points: &[NamedPoint], point: &NamedPoint) -> Result<usize, usize>
    ensures found_within { IfOk result (λ place. place < length points.now) }
    ensures found { IfOk result (λ place.
        put point.now points.now ≡ slice_set points.now place point.now) }
    ensures new_within { IfErr result (λ place. place ≤ length points.now) }
    ensures new { IfErr result (λ place.
        put point.now points.now ≡ insert points.now place point.now) }
{
    for (place, other) in points.iter().enumerate() {
        match compare_names(point, other) {
            Ordering::Less => return Err(place),
            Ordering::Equal => return Ok(place),
            Ordering::Greater => {}
        }
    }
    Err(points.len())
}

/// Puts a point at its place in order, in place of one of its name.
fn put(points: &mut Vec<NamedPoint>, point: NamedPoint) -> Result<(), CopyFault>
    ensures { OnOk result (points.new.items ≡ put point points.old.items) }
{
    match search(points.as_slice(), &point) {
        Ok(place) => points[place] = point,
        Err(place) => points.insert(place, point)?,
    }
    Ok(())
}

fn put_all(points: &mut Vec<NamedPoint>, more: &[NamedPoint]) -> Result<(), CopyFault>
    ensures { OnOk result (points.new.items ≡ put_all points.old.items more.now) }
{
    for point in more {
        put(points, copy_of(point)?)?;
    }
    Ok(())
}

/// The points in the order of their names, the last of each name.
pub(crate) fn in_order(alloc: Global, points: &[NamedPoint]) -> Result<NamedPointList, CopyFault>
    ensures { IfOk result (λ sorted. sorted ≡ in_order points.now) }
{
    let mut sorted = Vec::new(alloc);
    put_all(&mut sorted, points)?;
    Ok(NamedPointList::from_vec(sorted))
}

/// A point of each name in the beats, in the order of the names.
pub(crate) fn names_in(alloc: Global, beats: &[NamedBeat]) -> Result<Vec<NamedPoint>, CopyFault>
    ensures { IfOk result (λ names. names.items ≡ names_in beats.now) }
{
    let mut names = Vec::new(alloc);
    for beat in beats {
        let points = beat.points.as_slice();
        put_all(&mut names, points)?;
    }
    Ok(names)
}

fn is_same(id: &Text, other: &Text) -> bool
    ensures { result ≡ bytes_eq id.now other.now }
{
    id == other
}

/// The place of a chart, or how many there are.
fn chart_place(charts: &[Text], id: &Text) -> usize
    ensures { result ≡ position_or_len (bytes_eq id.now) charts.now }
{
    for (place, chart) in charts.iter().enumerate() {
        if is_same(id, chart) {
            return place;
        }
    }
    charts.len()
}

/// Adds a chart, unless it is there.
fn add_chart(charts: &mut Vec<Text>, id: &Text) -> Result<(), CopyFault>
    ensures { OnOk result (charts.new.items ≡ with_id charts.old.items id.now) }
{
    let there = charts.as_slice();
    let place = chart_place(there, id);
    let count = there.len();
    if place < count {
        return Ok(());
    }
    let copy = id.clone()?;
    charts.push(copy)?;
    Ok(())
}

/// The charts of the points, each once.
fn charts_of(alloc: Global, points: &[NamedPoint]) -> Result<Vec<Text>, CopyFault>
    ensures { IfOk result (λ charts. charts.items ≡ charts_of points.now) }
{
    let mut charts = Vec::new(alloc);
    for point in points {
        add_chart(&mut charts, &point.chart)?;
    }
    Ok(charts)
}

/// The names of charts with their ids as contexts.
fn chart_names(alloc: Global, charts: &[Text]) -> Result<ChartNameList, CopyFault>
    ensures { IfOk result (λ names. names ≡ map plain_chart charts.now) }
{
    let mut names = ChartNameList::new(alloc);
    for chart in charts {
        names.push(ChartName {
            id: chart.clone()?,
            context: chart.clone()?,
            update_every: 1,
        })?;
    }
    Ok(names)
}

/// The names of dimensions, each with the place of its chart.
fn dimension_names(
    alloc: Global,
    charts: &[Text],
    points: &[NamedPoint],
) -> Result<DimNameList, CopyFault>
    requires { length charts.now < 2 ^ 32 }
    ensures { IfOk result (λ names. names ≡ map (plain_dimension charts.now) points.now) }
{
    let mut names = DimNameList::new(alloc);
    for point in points {
        names.push(DimName {
            chart: chart_place(charts, &point.chart) as u32,
            id: point.dimension.clone()?,
            hidden: false,
        })?;
    }
    Ok(names)
}

/// The names of points, each a series by its place.
pub(crate) fn names_of(alloc: Global, points: &[NamedPoint]) -> Result<Names, CopyFault>
    requires { length points.now < 2 ^ 32 }
    ensures { IfOk result (λ names. names ≡ names_of points.now) }
{
    let charts = charts_of(alloc, points)?;
    let ids = charts.as_slice();
    Ok(Names {
        charts: chart_names(alloc, ids)?,
        dimensions: dimension_names(alloc, ids, points)?,
    })
}

/// The place of the point of this name, or how many there are.
fn name_place(names: &[NamedPoint], point: &NamedPoint) -> usize
    ensures { result ≡ position_or_len (has_name_of point.now) names.now }
{
    for (place, name) in names.iter().enumerate() {
        if has_name_of(point, name) {
            return place;
        }
    }
    names.len()
}

fn numbered_points(
    alloc: Global,
    names: &[NamedPoint],
    points: &[NamedPoint],
) -> Result<SeriesWordList, CopyFault>
    requires { length names.now < 2 ^ 32 }
    ensures { IfOk result (λ words. words ≡ map (numbered_point names.now) points.now) }
{
    let mut words = SeriesWordList::new(alloc);
    for point in points {
        words.push(SeriesWord {
            series: name_place(names, point) as u32,
            word: point.word,
        })?;
    }
    Ok(words)
}

/// The beats by the places of their names.
pub(crate) fn numbered_beats(
    alloc: Global,
    names: &[NamedPoint],
    beats: &[NamedBeat],
) -> Result<BeatList, CopyFault>
    requires { length names.now < 2 ^ 32 }
    ensures { IfOk result (λ numbered. numbered ≡ numbered_beats names.now beats.now) }
{
    let mut numbered = BeatList::new(alloc);
    for beat in beats {
        numbered.push(Beat {
            moment: beat.moment,
            words: numbered_points(alloc, names, beat.points.as_slice())?,
        })?;
    }
    Ok(numbered)
}
