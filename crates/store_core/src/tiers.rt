//! The tiers of a database that was just made.

ghost use Rattle.std.specs.Prelude.{◌≡◌, IfOk};
ghost use Rattle.beat_tiers.specs.Room.{tiers_held};
ghost use Rattle.beat_tiers.specs.State.{no_beats};
ghost use Rattle.tier_settings.specs.Limits.{InLimits};
ghost use Rattle.tier_settings.specs.Settings.{first_tier, other_tiers};

use beat_tiers::Tiers;
use std::alloc::{AllocError, Global};
use tier_settings::Settings;

/// The tiers of no beat.
#[tactic(auto, using(crate::proofs::TierLemmas::is_first, crate::proofs::TierLemmas::are_others))]
pub(crate) fn new_tiers(alloc: Global, settings: &Settings) -> Result<Tiers, AllocError>
    requires { InLimits settings.now }
    ensures { IfOk result (λ tiers. tiers_held tiers
        ≡ no_beats (first_tier settings.now) (other_tiers settings.now)) }
{
    let tiers = settings.tiers.as_slice();
    Tiers::new(alloc, tiers[0], &tiers[1..])
}
