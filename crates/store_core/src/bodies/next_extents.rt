//! The extents that the next body names.
ghost use Rattle.std.specs.Prelude.{◌≡◌, ◌-◌, ◌<◌, ◌≤◌, ◌^◌, drop, length, option_copied, IfOk};
ghost use Rattle.checkpoint_body.specs.Fields.{FitsExtent};
ghost use Rattle.tier_settings.specs.declared.limits.TheConstants.{MOST_EXTENTS};
ghost use Rattle.store_core.specs.bodies.Next.{beats_before, sealed_after, FitCounts};

use beat_tiers::{Sealed, Segments};
use checkpoint_body::{Extent, ExtentList};
use std::alloc::{AllocError, Global};

/// An extent of these numbers.
pub(crate) fn extent_of(slot: u32, serial: u64, sealed_at: u32, size: u64, beats: u64) -> Extent
    ensures value { result ≡ record {
      slot = slot;
      serial = serial;
      sealed_at = sealed_at;
      size = size;
      beats = beats;
    } }
    ensures fits { FitsExtent result }
{
    Extent {
        slot,
        serial,
        sealed_at,
        size,
        beats,
    }
}

/// The floor, the beats below it and the count of a tier as they are, whose numbers are known to fit.
pub(crate) fn fitting(floor: u32, before: u64, count: u64) -> (u32, u64, u64)
    ensures value { result ≡ (floor, before, count) }
    ensures fit { FitCounts result.0 result.1 result.2 }
{
    (floor, before, count)
}

/// The last segment of a tier, where it was sealed after a moment.
pub fn sealed_after<T: Copy + Drop>(segments: &Segments<T>, moment: u32) -> Option<&Sealed<T>>
    ensures { option_copied result ≡ sealed_after moment segments.now.kept.sealed }
{
    let (earlier, later) = segments.sealed();
    let last = match later.last() {
        Some(last) => last,
        None => earlier.last()?,
    };
    if last.sealed_at() <= moment {
        return None;
    }
    Some(last)
}

/// How many sealed segments a tier keeps.
pub(crate) fn sealed_count<T: Copy + Drop>(segments: &Segments<T>) -> usize
    requires { length segments.now.kept.sealed ≤ MOST_EXTENTS }
    ensures { result ≡ length segments.now.kept.sealed }
{
    let (earlier, later) = segments.sealed();
    earlier.len() + later.len()
}

/// The last so many of the extents.
pub(crate) fn last_extents(
    alloc: Global,
    extents: &[Extent],
    count: usize,
) -> Result<ExtentList, AllocError>
    ensures { IfOk result (λ last. last ≡ drop (length extents.now - count) extents.now) }
{
    let gone = extents.len().saturating_sub(count);
    let (_, last) = extents.split_at(gone);
    Ok(ExtentList::from_vec(Vec::from_slice(alloc, last)?))
}

/// How many beats had points up to the last of these extents, where so many had before the first.
pub(crate) fn beats_before(before: u64, extents: &[Extent]) -> u64
    ensures { result ≡ beats_before before extents.now }
{
    match extents.last() {
        Some(extent) => extent.beats,
        None => before,
    }
}
