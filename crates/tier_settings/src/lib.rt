//! The settings with which a database is made.
//!
//! `Settings` are an id and a list of tiers. A tier has the width of its buckets in seconds, and
//! how much it keeps: how many items make a segment full, and how many full segments are kept. A
//! database may have the settings with tiers of 1, 60 and 3,600 seconds, in this order, each with 1
//! to 262,144 items and 1 to 1,024 segments: the widths and these limits stand here alone.
//!
//! It is proved that `is_in_limits` answers just which settings a database may have, that `new`
//! gives those with the id and with the items and segments that it is told, and that a copy equals
//! its original.
//!
//! It stands on the lists of `fixed_num`, and knows neither beats nor bytes.
#![tactic(auto)]

mod limits;
mod settings;
mod tier;

pub use limits::{
    LONGEST_STEP, MOST_EXTENTS, MOST_ITEMS, MOST_SERIES, WIDTHS, are_tiers, has_widths,
    is_in_limits, widths,
};
pub use settings::Settings;
pub use tier::{Tier, TierList};
