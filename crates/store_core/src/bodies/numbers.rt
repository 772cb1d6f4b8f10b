//! The numbers of segments in their tier, which extents have.
ghost use Rattle.std.specs.Prelude.{◌≡◌, ◌↔◌, IsTrue};
ghost use Rattle.store_core.specs.bodies.Segments.{first_number, next_number, HasNumber};

use checkpoint_body::Extent;

/// The number of the first of so many kept segments, where so many were ever sealed. `None` where
/// that count stands still.
pub(crate) fn first_number(count: u64, kept: u64) -> Option<u64>
    ensures { result ≡ first_number count kept }
{
    if count < u64::MAX {
        Some(count.saturating_sub(kept))
    } else {
        None
    }
}

/// The number of the segment behind one of this number.
pub(crate) fn next_number(number: Option<u64>) -> Option<u64>
    ensures { result ≡ next_number number }
{
    match number {
        Some(number) => Some(number.saturating_add(1)),
        None => None,
    }
}

/// Whether an extent has a number, if there is one.
pub(crate) fn has_number(extent: &Extent, number: Option<u64>) -> bool
    ensures { IsTrue result ↔ HasNumber number extent.now }
{
    match number {
        Some(number) => extent.serial == number,
        None => true,
    }
}
