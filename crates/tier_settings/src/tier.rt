use fixed_num::ListOf;

/// The settings of a tier.
#[derive(Clone, Copy, Debug, PartialEq, Eq)]
pub struct Tier {
    /// The seconds of a bucket, 1 in tier 0.
    pub width: u32,
    /// How many items make a segment full, from 1 to 262,144.
    pub items: u32,
    /// How many full segments are kept, from 1 to 1,024.
    pub extents: u32,
}

/// Tiers, that of the points first.
pub type TierList = ListOf<Tier>;
