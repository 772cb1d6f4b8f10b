ghost use Rattle.std.specs.Prelude.{◌≡◌, ◌≤◌};
ghost use Rattle.tier_settings.specs.declared.limits.TheConstants.{MOST_ITEMS};
ghost use Rattle.checkpoint_body.specs.Body.{HasSpelling};
ghost use Rattle.store_core.specs.disk.Holds.{items_of};

use checkpoint_body::Body;

/// How many items a tier cuts off at once.
pub(crate) fn items_of(body: &Body, tier: usize) -> u32
    requires { HasSpelling body.now }
    ensures value { result ≡ items_of body.now tier }
    ensures most { result ≤ MOST_ITEMS }
{
    match body.settings.tiers.as_slice().get(tier) {
        Some(of_tier) => of_tier.items,
        None => 0,
    }
}
