ghost use Rattle.std.specs.Prelude.{◌≡◌, ◌<◌, ◌^◌, All, IfOk, List, length, map};
ghost use Rattle.std.specs.List.{AllByRecursion};
ghost use Rattle.beat_tiers.specs.declared.item.Item.{Item as AnItem};
ghost use Rattle.beat_tiers.specs.declared.item.Stepped.{Stepped as AStepped};
ghost use Rattle.beat_tiers.specs.Tiers.{AreOrdered};
ghost use Rattle.checkpoint_body.specs.Slots.{EndsInTime};
ghost use Rattle.store_core.specs.pages.Items.{HaveItems, item_of_point, point_of_item};
ghost use Rattle.beat_tiers.specs.Sound.{IsPointItem};
ghost use Rattle.store_core.specs.pages.Pages.{AreSlotPagesOf};
ghost use Rattle.store_core.specs.pages.Ranges.{FitsPoint};

use crate::pages::sorting::{sorted_by_place, sorted_by_series};
use beat_tiers::{Item, Stepped};
use checkpoint_body::{Point, PointList, SlotPage, SlotPageList};
use fixed_num::ListOf;
use std::alloc::{AllocError, Global};

/// A point of these numbers.
fn point(series: u32, moment: u32, step: u32, word: u32) -> Point
    ensures value { result
        ≡ record { series = series; moment = moment; step = step; word = word } }
    ensures fits { FitsPoint result }
{
    Point {
        series,
        moment,
        step,
        word,
    }
}

/// The points that items are.
fn points_of_items(alloc: Global, items: &[Item<Stepped>]) -> Result<PointList, AllocError>
    ensures points { IfOk result (λ points. points ≡ map point_of_item items.now) }
    ensures fit { IfOk result (λ points. All FitsPoint points) }
{
    let mut points = PointList::new(alloc);
    for item in items {
        let next = point(item.series, item.place, item.value.step, item.value.word);
        points.push(next)?;
    }
    Ok(points)
}

/// The items that points are.
fn items_of_points(alloc: Global, points: &[Point]) -> Result<Vec<Item<Stepped>>, AllocError>
    ensures { IfOk result (λ items. items.items ≡ map item_of_point points.now) }
{
    points
        .iter()
        .map(|point| Item {
            place: point.moment,
            series: point.series,
            value: Stepped {
                step: point.step,
                word: point.word,
            },
        })
        .collect(alloc)
}

/// The pages of a segment of points.
pub fn slot_pages_of(alloc: Global, items: &[Item<Stepped>]) -> Result<SlotPageList, AllocError>
    requires ordered { AreOrdered items.now }
    requires points { AllByRecursion IsPointItem items.now }
    requires few { length items.now < 2 ^ 32 }
    ensures { IfOk result (AreSlotPagesOf items.now) }
{
    let sorted = sorted_by_series(alloc, items)?;
    let points = points_of_items(alloc, sorted.as_slice())?;
    checkpoint_body::slot_pages(alloc, points.as_slice())
}

/// The items of pages, by their places, then series.
pub fn items_of_slots(
    alloc: Global,
    pages: &[SlotPage],
) -> Result<ListOf<Item<Stepped>>, AllocError>
    requires in_time { All EndsInTime pages.now }
    ensures have { IfOk result (HaveItems pages.now) }
    ensures ordered { IfOk result (λ items. (others : List (AnItem AStepped))
        → AreOrdered others → HaveItems pages.now others → items ≡ others) }
{
    let points = checkpoint_body::points_of(alloc, pages)?;
    let items = items_of_points(alloc, points.as_slice())?;
    sorted_by_place(items)
}
