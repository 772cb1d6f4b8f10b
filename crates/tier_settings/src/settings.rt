ghost use Rattle.std.specs.Prelude.{◌≡◌, IfOk};
ghost use Rattle.tier_settings.specs.Settings.{settings_of, tier_of};

use crate::limits::WIDTHS;
use crate::tier::{Tier, TierList};
use std::alloc::{AllocError, Global};

/// The settings of a database.
#[derive(Debug, Drop)]
pub struct Settings {
    /// The number of the database.
    pub id: u64,
    /// The tiers, that of the points first.
    pub tiers: TierList,
}

/// The tier of this width with these items and extents.
fn tier_of(width: u32, quota: (u32, u32)) -> Tier
    ensures { result ≡ tier_of width quota }
{
    let (items, extents) = quota;
    Tier {
        width,
        items,
        extents,
    }
}

impl Settings {
    /// The settings with this id, and with these items and extents of the tiers of 1, 60 and 3,600
    /// seconds, in this order.
    pub fn new(alloc: Global, id: u64, quotas: [(u32, u32); 3]) -> Result<Settings, AllocError>
        ensures { IfOk result (λ settings. settings ≡ settings_of id quotas) }
    {
        let [second, minute, hour] = WIDTHS;
        let [of_seconds, of_minutes, of_hours] = quotas;
        let tiers = [
            tier_of(second, of_seconds),
            tier_of(minute, of_minutes),
            tier_of(hour, of_hours),
        ];
        Ok(Settings {
            id,
            tiers: TierList::from_vec(Vec::from_slice(alloc, tiers.as_slice())?),
        })
    }

    /// A copy of the settings.
    pub fn copy(&self, alloc: Global) -> Result<Settings, AllocError>
        ensures { IfOk result (λ copy. copy ≡ self.now) }
    {
        Ok(Settings {
            id: self.id,
            tiers: TierList::from_vec(Vec::from_slice(alloc, self.tiers.as_slice())?),
        })
    }
}
