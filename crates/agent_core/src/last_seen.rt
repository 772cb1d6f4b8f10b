//! What was last seen of each chart and each series, by number.

ghost use Rattle.std.specs.Prelude.{◌≡◌, ◌∷◌, List, Option, map, ◌<◌, ◌≤◌, [], length, true, All, Some, None, reverse, IfOk, OnOk};
ghost use Rattle.algorithms.specs.declared.last.Last.{Last};
ghost use Rattle.history.specs.declared.beat.OpenBeat.{OpenBeat as AnOpenBeat};
ghost use Rattle.history.specs.History.{Beat as HistoryBeat, collected, copied, registry_of, Copy};
ghost use Rattle.history.specs.Numbered.{numbered_beat, IsThere};
ghost use Rattle.history.specs.Regular.{IsRegular};
ghost use Rattle.beat_points.specs.LastRows.{is_of_series, AreLastOf};
ghost use Rattle.beat_points.specs.Numbered.{rows_values};
ghost use Rattle.beat_tiers.specs.Beats.{is_series};
ghost use Rattle.store_core.specs.declared.beats.beat.Beat.{Beat as StoreBeat};
ghost use Rattle.agent_core.specs.Kept.{copied_point, stored_points, AreBeatsOf};
ghost use Rattle.agent_core.specs.LastSeen.{is_point_at, is_row_at, with_room, HasTaken, IsLatestOf};
ghost use Rattle.agent_core.specs.Notes.{names_series};

use alarm_core::{Latest, SeriesPointList, SeriesValueList};
use chart_registry::Registry;
use fixed_num::ListOf;
use history::{NumberedBeat, Row, Value};
use query_engine::{MomentList, Point};
use std::alloc::{AllocError, Global};
use std::mem;
use store_core::BeatPoint;

/// What was last seen of a history without beats: nothing.
pub(crate) fn nothing_seen(alloc: Global) -> Latest
    ensures before { result.before ≡ 0 }
    ensures none { IsLatestOf result [] }
{
    Latest {
        before: 0,
        charts: ListOf::new(alloc),
        points: ListOf::new(alloc),
        raws: ListOf::new(alloc),
    }
}

/// Takes a list by number out of its place, with room for this many things.
fn with_room<T: Copy + Drop>(
    alloc: Global,
    list: &mut ListOf<T>,
    most: usize,
    none: T,
) -> Result<Vec<T>, AllocError>
    ensures { IfOk result (λ taken. taken.items ≡ with_room none most list.old) }
{
    let mut taken = mem::replace(list, ListOf::new(alloc)).into_vec();
    if taken.len() < most {
        taken.resize(most, none)?;
    }
    Ok(taken)
}

/// Takes the moment of rows for their charts.
fn take_rows(moments: &mut [u32], rows: &[Row], moment: u32)
    requires { All (λ row. row.chart < length moments.old) rows.now }
    ensures { HasTaken is_row_at (λ _. moment) 0 (reverse rows.now) moments.old moments.new }
{
    for row in rows {
        moments[row.chart as usize] = moment;
    }
}

/// Takes the values of a row.
fn take_values(last: &mut [Option<i64>], values: &[Value])
    requires { All (λ value. value.series < length last.old) values.now }
    ensures { HasTaken is_of_series (λ value. Some value.value) None (reverse values.now)
        last.old last.new }
{
    for value in values {
        last[value.series as usize] = Some(value.value);
    }
}

/// Takes the values of rows.
fn take_rows_values(last: &mut [Option<i64>], rows: &[Row])
    requires { All (λ row. All (λ value. value.series < length last.old) row.values) rows.now }
    ensures { HasTaken is_of_series (λ value. Some value.value) None
        (reverse (rows_values rows.now)) last.old last.new }
{
    for row in rows {
        take_values(last, row.values.as_slice());
    }
}

/// Takes points of this moment. Of several of one series it takes the first.
fn take_points(last: &mut [Option<Point>], points: &[BeatPoint], moment: u32)
    requires { All (λ point. point.series < length last.old) points.now }
    ensures { HasTaken is_series
        (λ point. Some (record { moment = moment; word = point.word })) None points.now
        last.old last.new }
{
    for i in (0..points.len()).rev() {
        let point = points[i];
        last[point.series as usize] = Some(Point {
            moment,
            word: point.word,
        });
    }
}

/// Takes the moment of points for the charts of their series.
fn take_owners(moments: &mut [u32], registry: &Registry, points: &[BeatPoint], moment: u32)
    requires charts { length registry.now.charts ≤ length moments.old }
    requires series { All (λ point. point.series < length registry.now.dimensions) points.now }
    ensures { HasTaken (is_point_at registry.now) (λ _. moment) 0 (reverse points.now)
        moments.old moments.new }
{
    for point in points {
        moments[registry.owner(point.series) as usize] = moment;
    }
}

/// Takes the moment of a beat's rows for their charts.
fn see_rows(
    alloc: Global,
    charts: &mut MomentList,
    registry: &Registry,
    beat: &NumberedBeat,
) -> Result<(), AllocError>
    requires { IsThere registry.now beat.now }
    ensures { OnOk result (HasTaken is_row_at (λ _. beat.now.moment) 0 (reverse beat.now.rows)
        (with_room 0 (length registry.now.charts) charts.old) charts.new) }
{
    let mut moments = with_room(alloc, charts, registry.charts() as usize, 0)?;
    take_rows(&mut moments, beat.rows.as_slice(), beat.moment);
    *charts = MomentList::from_vec(moments);
    Ok(())
}

/// Takes the values of a beat.
fn see_values(
    alloc: Global,
    raws: &mut SeriesValueList,
    registry: &Registry,
    beat: &NumberedBeat,
) -> Result<(), AllocError>
    requires { IsThere registry.now beat.now }
    ensures { OnOk result (HasTaken is_of_series (λ value. Some value.value) None
        (reverse (rows_values beat.now.rows))
        (with_room None (length registry.now.dimensions) raws.old) raws.new) }
{
    let mut values = with_room(alloc, raws, registry.dimensions() as usize, None)?;
    take_rows_values(&mut values, beat.rows.as_slice());
    *raws = SeriesValueList::from_vec(values);
    Ok(())
}

/// Takes the points of a beat at this moment.
fn see_points(
    alloc: Global,
    last: &mut SeriesPointList,
    registry: &Registry,
    points: &[BeatPoint],
    moment: u32,
) -> Result<(), AllocError>
    requires { names_series registry.now points.now ≡ true }
    ensures { OnOk result (HasTaken is_series
        (λ point. Some (record { moment = moment; word = point.word })) None points.now
        (with_room None (length registry.now.dimensions) last.old) last.new) }
{
    let mut seen = with_room(alloc, last, registry.dimensions() as usize, None)?;
    take_points(&mut seen, points, moment);
    *last = SeriesPointList::from_vec(seen);
    Ok(())
}

/// Takes the moment of copied points for the charts of their series.
fn see_owners(
    alloc: Global,
    charts: &mut MomentList,
    registry: &Registry,
    points: &[BeatPoint],
    moment: u32,
) -> Result<(), AllocError>
    requires { names_series registry.now points.now ≡ true }
    ensures { OnOk result (HasTaken (is_point_at registry.now) (λ _. moment) 0 (reverse points.now)
        (with_room 0 (length registry.now.charts) charts.old) charts.new) }
{
    let mut moments = with_room(alloc, charts, registry.charts() as usize, 0)?;
    take_owners(&mut moments, registry, points, moment);
    *charts = MomentList::from_vec(moments);
    Ok(())
}

/// Makes room for the values of the registry's series.
fn see_no_values(
    alloc: Global,
    raws: &mut SeriesValueList,
    registry: &Registry,
) -> Result<(), AllocError>
    ensures { OnOk result (raws.new ≡ with_room None (length registry.now.dimensions) raws.old) }
{
    let values = with_room(alloc, raws, registry.dimensions() as usize, None)?;
    *raws = SeriesValueList::from_vec(values);
    Ok(())
}

/// Takes a beat that was collected, by number and with its points, into what was last seen of the history
/// before it, whose last moment this is. After an `Err` it is of no more use.
pub(crate) fn see_collected(
    alloc: Global,
    latest: &mut Latest,
    registry: &Registry,
    beat: &NumberedBeat,
    points: &[BeatPoint],
    before: u32,
) -> Result<(), AllocError>
    requires there { IsThere registry.now beat.now }
    requires series { names_series registry.now points.now ≡ true }
    ensures seen { OnOk result ((h : List HistoryBeat) (beats : List StoreBeat)
        (lasts : List (Option Last)) (opened : AnOpenBeat)
        → AreBeatsOf h beats → AreLastOf lasts h → IsLatestOf latest.old h
        → registry.now ≡ registry_of (collected beat.now.moment opened ∷ h)
        → IsRegular registry.now opened
        → beat.now ≡ numbered_beat registry.now beat.now.moment opened
        → points.now ≡ stored_points registry.now h beat.now.moment opened
        → IsLatestOf latest.new (collected beat.now.moment opened ∷ h)) }
    ensures before { OnOk result (latest.new.before ≡ before) }
{
    see_rows(alloc, &mut latest.charts, registry, beat)?;
    see_values(alloc, &mut latest.raws, registry, beat)?;
    see_points(alloc, &mut latest.points, registry, points, beat.moment)?;
    latest.before = before;
    Ok(())
}

/// Takes a beat that was copied at this moment, with its points, into what was last seen of the history
/// before it, whose last moment is `before`. After an `Err` it is of no more use.
pub(crate) fn see_copied(
    alloc: Global,
    latest: &mut Latest,
    registry: &Registry,
    moment: u32,
    points: &[BeatPoint],
    before: u32,
) -> Result<(), AllocError>
    requires { names_series registry.now points.now ≡ true }
    ensures seen { OnOk result ((h : List HistoryBeat) (beats : List StoreBeat)
        (lasts : List (Option Last)) (copy : Copy)
        → AreBeatsOf h beats → AreLastOf lasts h → IsLatestOf latest.old h
        → registry.now ≡ registry_of (copied copy ∷ h) → moment ≡ copy.moment
        → points.now ≡ map (copied_point registry.now) copy.words
        → IsLatestOf latest.new (copied copy ∷ h)) }
    ensures before { OnOk result (latest.new.before ≡ before) }
{
    see_owners(alloc, &mut latest.charts, registry, points, moment)?;
    see_no_values(alloc, &mut latest.raws, registry)?;
    see_points(alloc, &mut latest.points, registry, points, moment)?;
    latest.before = before;
    Ok(())
}
