//! Which settings a database may have.

ghost use Rattle.std.specs.Prelude.{◌≡◌, ◌↔◌, IsTrue};
ghost use Rattle.std.specs.List.{list_all};
ghost use Rattle.tier_settings.specs.Limits.{is_tier, widths, HasWidths, InLimits};

use crate::settings::Settings;
use crate::tier::Tier;

/// The most items that make a segment full.
pub const MOST_ITEMS: u32 = 262_144;

/// The most full segments that a tier keeps.
pub const MOST_EXTENTS: u32 = 1_024;

/// The most series of a database.
pub const MOST_SERIES: u32 = 65_536;

/// The most seconds that a point may stand for.
pub const LONGEST_STEP: u32 = 86_400;

/// The seconds of a bucket of each tier: a second, a minute and an hour.
pub const WIDTHS: [u32; 3] = [1, 60, 3_600];

/// The seconds of a bucket of each tier.
pub fn widths() -> &'static [u32]
    ensures { result.now ≡ widths }
{
    &WIDTHS
}

fn is_tier(tier: &Tier) -> bool
    ensures { result ≡ is_tier tier.now }
{
    1 <= tier.items && tier.items <= MOST_ITEMS && 1 <= tier.extents && tier.extents <= MOST_EXTENTS
}

/// Whether each of the tiers keeps the limits of its items and segments.
pub fn are_tiers(tiers: &[Tier]) -> bool
    ensures { result ≡ list_all is_tier tiers.now }
{
    tiers.iter().all(is_tier)
}

/// Whether there is a tier of each width, in this order, and no other.
pub fn has_widths(tiers: &[Tier]) -> bool
    ensures { IsTrue result ↔ HasWidths tiers.now }
{
    let [second, minute, hour] = tiers else {
        return false;
    };
    [second.width, minute.width, hour.width] == WIDTHS
}

/// Whether a database may have these settings: it has a tier of each width, in their order, and no
/// other, and in each 1 to 262,144 items make a segment full, and 1 to 1,024 segments are kept.
pub fn is_in_limits(settings: &Settings) -> bool
    ensures { IsTrue result ↔ InLimits settings.now }
{
    // A number that is read is known to be in the range of its type.
    let _id = settings.id;
    let tiers = settings.tiers.as_slice();
    has_widths(tiers) && are_tiers(tiers)
}
