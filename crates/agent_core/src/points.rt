//! The points of a beat as a store keeps them.

ghost use Rattle.std.specs.Prelude.{◌≡◌, map, IfOk};
ghost use Rattle.std.specs.List.{AllByRecursion};
ghost use Rattle.store_core.specs.beats.Beats.{IsPoint};
ghost use Rattle.agent_core.specs.Kept.{point_of, step_of};

use beat_points::SeriesWord;
use chart_registry::Registry;
use std::alloc::{AllocError, Global};
use store_core::{BeatPoint, BeatPointList};

/// The update_every of the chart of a dimension, or 1 where there is none with this number.
fn step_of(registry: &Registry, series: u32) -> u32
    ensures { result ≡ step_of registry.now series }
{
    if series < registry.dimensions() {
        registry.chart(registry.owner(series)).update_every
    } else {
        1
    }
}

fn point_of(registry: &Registry, point: SeriesWord) -> BeatPoint
    ensures value { result ≡ point_of registry.now point }
    ensures short { IsPoint result }
{
    BeatPoint {
        series: point.series,
        step: step_of(registry, point.series),
        word: point.word,
    }
}

/// The words of a beat as the points of their series.
pub(crate) fn stored_points(
    alloc: Global,
    registry: &Registry,
    words: &[SeriesWord],
) -> Result<BeatPointList, AllocError>
    ensures points { IfOk result (λ points. points ≡ map (point_of registry.now) words.now) }
    ensures short { IfOk result (AllByRecursion IsPoint) }
{
    let mut points = Vec::with_capacity(alloc, words.len())?;
    for word in words {
        points.push(point_of(registry, *word))?;
    }
    Ok(BeatPointList::from_vec(points))
}
