//! Whether the extents that a body names have slots of their own.

ghost use Rattle.std.specs.Prelude.{◌≡◌, nat_le};
ghost use Rattle.std.specs.List.{list_all};
ghost use Rattle.store_core.specs.disk.Slots.{are_apart, have_slots, most_extents, has_own_slots};

use crate::disk::free_slot::is_used;
use checkpoint_body::{Body, Extent};

/// Whether no extent has the slot of another.
fn are_apart(extents: &[Extent]) -> bool
    ensures { result ≡ are_apart extents.now }
{
    let mut ahead = extents;
    while let Some((extent, others)) = ahead.split_first() {
        if is_used(others, extent.slot) {
            return false;
        }
        ahead = others;
    }
    true
}

fn are_low(extents: &[Extent], most: u32) -> bool
    ensures { result ≡ list_all (λ extent. nat_le extent.slot most) extents.now }
{
    extents.iter().all(|extent| extent.slot <= most)
}

fn have_slots(extents: &[Extent], most: u32) -> bool
    ensures { result ≡ have_slots most extents.now }
{
    are_low(extents, most) && are_apart(extents)
}

/// How many extents a tier keeps.
fn most_extents(body: &Body, tier: usize) -> u32
    ensures { result ≡ most_extents body.now tier }
{
    match body.settings.tiers.as_slice().get(tier) {
        Some(of_tier) => of_tier.extents,
        None => 0,
    }
}

/// Whether each extent that a body names has a slot of its own, and one of its tier.
pub(crate) fn has_own_slots(body: &Body) -> bool
    ensures { result ≡ has_own_slots body.now }
{
    have_slots(body.points.extents.as_slice(), most_extents(body, 0))
        && have_slots(body.minutes.extents.as_slice(), most_extents(body, 1))
        && have_slots(body.hours.extents.as_slice(), most_extents(body, 2))
}
