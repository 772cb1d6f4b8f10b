ghost use Rattle.std.specs.Prelude.{◌≡◌, ◌<◌, ◌≤◌, ℕ, length};
ghost use Rattle.tier_settings.specs.declared.limits.TheConstants.{MOST_EXTENTS};
ghost use Rattle.store_core.specs.disk.Slots.{is_used, IsUnused};

use checkpoint_body::Extent;

/// Whether one of these extents has this slot.
pub(crate) fn is_used(extents: &[Extent], slot: u32) -> bool
    ensures { result ≡ is_used extents.now slot }
{
    extents.iter().any(|extent| slot == extent.slot)
}

/// The lowest slot that none of these extents has, which is at most their count.
pub fn lowest_free(extents: &[Extent]) -> u32
    requires few { length extents.now ≤ MOST_EXTENTS }
    ensures unused { IsUnused extents.now result }
    ensures lowest { (slot : ℕ) → slot < result → ¬ IsUnused extents.now slot }
    ensures most { result ≤ length extents.now }
{
    let mut slot = 0;
    while is_used(extents, slot) {
        slot += 1;
    }
    slot
}
