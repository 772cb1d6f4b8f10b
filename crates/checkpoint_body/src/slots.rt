ghost use Rattle.std.specs.Prelude.{◌≡◌, ◌≤◌, ◌≢◌, Bool, true, false, [], ◌∷◌, ◌++◌, length, find, replicate, Some, None, if◌then◌else◌, IfOk, OnOk, All};
ghost use Rattle.checkpoint_body.specs.Slots.{gaps, points_from, points_in, points_of, slot_page_of, slot_pages, takes, with_point, EndsInTime};

use crate::grid::moment_of;
use crate::item::{Point, PointList};
use crate::page::{SlotPage, SlotPageList, WordList};
use page_buffer::{MOST_EMPTY, MOST_SLOTS};
use std::alloc::{AllocError, Global};

/// How many slots may be empty between two points.
const GAPS: [u8; MOST_EMPTY as usize + 1] = [0, 1, 2, 3, 4, 5, 6];

/// The page of a point alone.
fn slot_page_of(alloc: Global, point: &Point) -> Result<SlotPage, AllocError>
    ensures { IfOk result (λ page. page ≡ slot_page_of point.now) }
{
    let mut words = WordList::new(alloc);
    words.push(point.word)?;
    Ok(SlotPage {
        series: point.series,
        first: point.moment,
        step: point.step,
        words,
    })
}

/// Whether the page takes the point after so many empty slots.
fn takes(page: &SlotPage, point: &Point, empty: u8) -> bool
    ensures { result ≡ takes page.now point.now empty }
{
    let len = page.words.len();
    if len >= MOST_SLOTS {
        return false;
    }
    let place = len + usize::from(empty);
    page.series == point.series
        && page.step == point.step
        && moment_of(page.first, page.step, place) == u128::from(point.moment)
        && place < MOST_SLOTS
}

/// After how many empty slots the page takes the point, if it does.
fn gap_before(page: &SlotPage, point: &Point) -> Option<u8>
    ensures { result ≡ find (takes page.now point.now) gaps }
{
    GAPS.iter()
        .copied()
        .find(|empty| takes(page, point, *empty))
}

/// Puts a word behind others, after so many empty slots.
fn push_word(words: &mut WordList, empty: u8, word: u32) -> Result<(), AllocError>
    ensures { OnOk result (words.new ≡ words.old ++ replicate empty 0 ++ word ∷ []) }
{
    for _ in 0..empty {
        words.push(0)?;
    }
    words.push(word)?;
    Ok(())
}

/// Puts a point into the page, where that takes it. Whether it does.
fn add_point(page: &mut SlotPage, point: &Point) -> Result<bool, AllocError>
    ensures added { IfOk result
        (λ added. added ≡ true → with_point page.old point.now ≡ Some page.new) }
    ensures refused { IfOk result (λ added. added ≡ false → with_point page.old point.now ≡ None) }
    ensures same { IfOk result (λ added. added ≡ false → page.new ≡ page.old) }
{
    let Some(empty) = gap_before(page, point) else {
        return Ok(false);
    };
    push_word(&mut page.words, empty, point.word)?;
    Ok(true)
}

/// The pages of points in the order of their series, then moments: a point goes into the last page,
/// where that is of its series and step, the point is 1 to 7 steps past the last slot, and at most
/// `MOST_SLOTS` slots result. Else it begins a page.
pub fn slot_pages(alloc: Global, points: &[Point]) -> Result<SlotPageList, AllocError>
    ensures { IfOk result (λ pages. pages ≡ slot_pages points.now) }
{
    let mut pages = SlotPageList::new(alloc);
    let Some((first, others)) = points.split_first() else {
        return Ok(pages);
    };
    let mut page = slot_page_of(alloc, first)?;
    for point in others {
        if !add_point(&mut page, point)? {
            let next = slot_page_of(alloc, point)?;
            pages.push(std::mem::replace(&mut page, next))?;
        }
    }
    pages.push(page)?;
    Ok(pages)
}

/// Puts the points of a page behind others.
fn add_points(points: &mut PointList, page: &SlotPage) -> Result<(), AllocError>
    requires { EndsInTime page.now }
    ensures { OnOk result (points.new ≡ points.old ++ points_in page.now) }
{
    let mut moment = page.first;
    for word in page.words.as_slice() {
        if *word != 0 {
            points.push(Point {
                series: page.series,
                moment,
                step: page.step,
                word: *word,
            })?;
        }
        moment = moment.wrapping_add(page.step);
    }
    Ok(())
}

/// The points of pages: their slots that are not empty, in order.
pub fn points_of(alloc: Global, pages: &[SlotPage]) -> Result<PointList, AllocError>
    requires { All EndsInTime pages.now }
    ensures { IfOk result (λ points. points ≡ points_of pages.now) }
{
    let mut points = PointList::new(alloc);
    for page in pages {
        add_points(&mut points, page)?;
    }
    Ok(points)
}
