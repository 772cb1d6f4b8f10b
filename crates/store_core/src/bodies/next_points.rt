//! What the next body has of the points.
ghost use Rattle.std.specs.Prelude.{◌≡◌, ◌-◌, ◌<◌, ◌≤◌, ◌^◌, length, map, IfOk};
ghost use Rattle.beat_tiers.specs.Sound.{IsPointItem};
ghost use Rattle.store_core.specs.disk.Holds.{page_of_slots};
ghost use Rattle.store_core.specs.disk.Next.{written_slots};
ghost use Rattle.tier_settings.specs.declared.limits.TheConstants.{MOST_EXTENTS};
ghost use Rattle.extent_file.specs.Pages.{items_of};
ghost use Rattle.store_core.specs.pages.Pages.{AreSlotPagesOf};
ghost use Rattle.store_core.specs.bodies.Next.{pages_of_slots, AreNextPoints, CanBeNamed, CanBePages, IsNew, IsNextPointTier};
ghost use Rattle.store_core.specs.bodies.Segments.{beats_in};

use crate::bodies::next_extents::{
    beats_before, extent_of, fitting, last_extents, sealed_after, sealed_count,
};
use crate::disk::{SlotExtent, SlotExtentList, lowest_free};
use crate::pages::slot_pages_of;
use beat_tiers::{Sealed, Segments, Stepped, places_in};
use checkpoint_body::{Extent, ExtentList, PointTier, SlotPage};
use extent_file::size_of;
use std::alloc::{AllocError, Global};

/// How many slots pages have together.
fn slots_in(pages: &[SlotPage]) -> u64
    requires { items_of (map page_of_slots pages.now) < 2 ^ 40 }
    ensures { result ≡ items_of (map page_of_slots pages.now) }
{
    let mut count: u64 = 0;
    for page in pages {
        count += page.words.len() as u64;
    }
    count
}

/// The extent of a new segment, which has this number in its tier, and its pages. So many beats had
/// points before it.
fn new_points(
    alloc: Global,
    old: &[Extent],
    number: u64,
    before: u64,
    segment: &Sealed<Stepped>,
) -> Result<(Extent, SlotExtent), AllocError>
    requires slots { length old.now ≤ MOST_EXTENTS }
    requires items { CanBePages IsPointItem segment.now.items }
    ensures { IfOk result (λ made. IsNew 0 written_slots pages_of_slots AreSlotPagesOf beats_in
        old.now number before segment.now made.0 made.1) }
{
    let pages = slot_pages_of(alloc, segment.items())?;
    let slots = slots_in(pages.as_slice());
    let size = size_of(0, pages.len() as u64, slots);
    let beats = before.saturating_add(places_in(segment.items()));
    let slot = lowest_free(old);
    let extent = extent_of(slot, number, segment.sealed_at(), size, beats);
    Ok((extent, SlotExtent { slot, pages }))
}

/// The extents of points of the next body, where the open one is of a moment and has the old ones.
fn point_extents(
    alloc: Global,
    moment: u32,
    old: &[Extent],
    now: &Segments<Stepped>,
) -> Result<(ExtentList, SlotExtentList), AllocError>
    requires { CanBeNamed IsPointItem moment old.now now.now.kept }
    ensures { IfOk result (λ made. AreNextPoints moment old.now now.now.kept made.0 made.1) }
{
    let count = sealed_count(now);
    let mut new = SlotExtentList::new(alloc);
    let Some(segment) = sealed_after(now, moment) else {
        let stay = last_extents(alloc, old, count)?;
        return Ok((stay, new));
    };
    let mut extents = last_extents(alloc, old, count.saturating_sub(1))?;
    let before = beats_before(now.before(), extents.as_slice());
    let number = now.count().saturating_sub(1);
    let (extent, one) = new_points(alloc, old, number, before, segment)?;
    extents.push(extent)?;
    new.push(one)?;
    Ok((extents, new))
}

/// What the next body has of the points, and the segment that was sealed since the open one, which is
/// of a moment.
pub(crate) fn next_points(
    alloc: Global,
    moment: u32,
    old: &PointTier,
    now: &Segments<Stepped>,
) -> Result<(PointTier, SlotExtentList), AllocError>
    requires { CanBeNamed IsPointItem moment old.now.extents now.now.kept }
    ensures { IfOk result (λ made.
        IsNextPointTier moment old.now now.now.kept made.0 made.1) }
{
    let (extents, new) = point_extents(alloc, moment, old.extents.as_slice(), now)?;
    let pages = slot_pages_of(alloc, now.unsealed())?;
    let (floor, before, sealed) = fitting(now.floor(), now.before(), now.count());
    let tier = PointTier {
        floor,
        before,
        sealed,
        extents,
        pages,
    };
    Ok((tier, new))
}
