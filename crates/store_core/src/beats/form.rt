//! Whether a beat is in form.

ghost use Rattle.std.specs.Prelude.{◌≡◌, ℕ, ◌∷◌, ◌++◌, [], ◌↔◌, map, IsTrue};
ghost use Rattle.std.specs.List.{list_all, AllByRecursion};
ghost use Rattle.std.specs.Option.{option_to_list};
ghost use Rattle.entry_codec.specs.Lists.{is_ascending};
ghost use Rattle.store_core.specs.beats.Beats.{has_form, is_point, is_timed, series_of, IsMoment, IsPoint, IsShort};

use crate::beats::beat::{Beat, BeatPoint};
use tier_settings::{LONGEST_STEP, MOST_SERIES};

/// Whether a series may follow the last one.
fn is_above(last: Option<u32>, series: u32) -> bool
    ensures { result ≡ is_ascending (option_to_list last ++ series ∷ []) }
{
    match last {
        None => true,
        Some(last) => last < series,
    }
}

/// Whether the points are in the order of their series, each series once.
fn are_rising(points: &[BeatPoint]) -> bool
    ensures { result ≡ is_ascending (map series_of points.now) }
{
    let mut last = None;
    for point in points {
        if !is_above(last, point.series) {
            return false;
        }
        last = Some(point.series);
    }
    true
}

// A number that is read is known to be in the range of its type.
fn is_point(point: BeatPoint) -> bool
    ensures form { result ≡ is_point point }
    ensures range { IsTrue result → IsPoint point }
{
    point.series < MOST_SERIES
        && 1 <= point.step
        && point.step <= LONGEST_STEP
        && storage_number::is_word(point.word)
}

fn are_points(points: &[BeatPoint]) -> bool
    ensures form { result ≡ list_all is_point points.now }
    ensures range { IsTrue result → AllByRecursion IsPoint points.now }
{
    points.iter().all(|point| is_point(*point))
}

fn is_timed(moment: Option<u32>, points: &[BeatPoint]) -> bool
    ensures { result ≡ is_timed moment points.now }
{
    match moment {
        Some(_) => true,
        None => matches!(points, []),
    }
}

/// Whether the series rise, each point is one of a beat, and there are none without a moment.
pub(crate) fn has_form(beat: &Beat) -> bool
    ensures form { result ≡ has_form beat.now }
    ensures range { IsTrue result → AllByRecursion IsPoint beat.now.points }
{
    let points = beat.points.as_slice();
    are_rising(points) && are_points(points) && is_timed(beat.moment, points)
}

fn is_moment(moment: Option<u32>) -> bool
    ensures { IsTrue result ↔ IsMoment moment }
{
    match moment {
        None => true,
        Some(moment) => 0 < moment,
    }
}

/// Whether the lists are no longer than a u32 counts, and the moment is not 0.
pub(crate) fn is_short(beat: &Beat) -> bool
    requires { AllByRecursion IsPoint beat.now.points }
    ensures { IsTrue result ↔ IsShort beat.now }
{
    let longest = u32::MAX as usize;
    is_moment(beat.moment) && beat.points.len() <= longest && beat.note.len() <= longest
}
