//! What numbers of series say by names.
ghost use Rattle.std.specs.Prelude.{◌≡◌, List, ◌++◌, map, filter_map, IfOk, OnOk};
ghost use Rattle.std.specs.Option.{option_to_list};
ghost use Rattle.replication.specs.Names.{named_point, named_beat, named_beats};

use crate::beats::{Beat, SeriesWord};
use crate::fault::CopyFault;
use crate::named::{NamedBeat, NamedBeatList, NamedPoint, NamedPointList};
use crate::names::Names;
use std::alloc::Global;

/// The point by name, if its series has one.
fn named_point(names: &Names, word: &SeriesWord) -> Result<Option<NamedPoint>, CopyFault>
    ensures { IfOk result (λ point. point ≡ named_point names.now word.now) }
{
    let Some(dimension) = names.dimensions.as_slice().get(word.series as usize) else {
        return Ok(None);
    };
    let Some(chart) = names.charts.as_slice().get(dimension.chart as usize) else {
        return Ok(None);
    };
    Ok(Some(NamedPoint {
        chart: chart.id.clone()?,
        dimension: dimension.id.clone()?,
        word: word.word,
    }))
}

/// Adds a point, if there is one.
fn add_point(points: &mut NamedPointList, point: Option<NamedPoint>) -> Result<(), CopyFault>
    ensures { OnOk result (points.new ≡ points.old ++ option_to_list point) }
{
    match point {
        None => Ok(()),
        Some(point) => Ok(points.push(point)?),
    }
}

fn named_points(
    alloc: Global,
    names: &Names,
    words: &[SeriesWord],
) -> Result<NamedPointList, CopyFault>
    ensures { IfOk result (λ points. points ≡ filter_map (named_point names.now) words.now) }
{
    let mut points = NamedPointList::new(alloc);
    for word in words {
        let point = named_point(names, word)?;
        add_point(&mut points, point)?;
    }
    Ok(points)
}

/// The beats by name.
pub(crate) fn named_beats(
    alloc: Global,
    names: &Names,
    beats: &[Beat],
) -> Result<Vec<NamedBeat>, CopyFault>
    ensures { IfOk result (λ named. named.items ≡ named_beats names.now beats.now) }
{
    let mut named = Vec::new(alloc);
    for beat in beats {
        named.push(NamedBeat {
            moment: beat.moment,
            points: named_points(alloc, names, beat.words.as_slice())?,
        })?;
    }
    Ok(named)
}
