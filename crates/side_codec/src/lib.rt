//! The side of a checkpoint as bytes: what is restored of a history in place of replaying its
//! beats.
//!
//! A `Side` has the role of a history, its charts and dimensions, when each chart was last seen,
//! the last row and the last point of each series, the alarms, and the spans that were not copied.
//! Charts and dimensions stand at the places of their numbers, each dimension is of a chart that is
//! there, definitions keep their limits, and the words of points are storage numbers: a side of
//! another form has no spelling. What a side tells of each chart and each series follows without a
//! count, and is as long as the lists of charts and dimensions.
//!
//! What is written is the spelling, and what is read of bytes has them as its spelling: so a side
//! has one spelling, two never share one, and what was written is read again. Bytes that are no
//! spelling are refused. A list grows with the items that are read, so that a count takes no memory
//! by itself. That no two charts have one id, that no two dimensions of one chart have one, and that
//! no chart has too many, is left to the caller, who defines them in a registry.
//!
//! It stands on `entry_codec` for charts and dimensions, on `alarm_events` for alarms, on
//! `field_codec` for the fields, on `algorithms` and `storage_number` for rows and points, and on
//! the limits of `history` and `health_config`.
#![tactic(auto)]

mod definitions;
mod fault;
mod format;
mod gap;
mod last_point;
mod last_row;
mod lasts;
mod law;
mod limits;
mod reading;
mod role;
mod short;
mod side;
mod writing;

pub use fault::SideFault;
pub use gap::{GapSpan, GapSpanList};
pub use last_point::{LastPoint, LastPointList};
pub use law::sides_round_trip;
pub use reading::read_side;
pub use role::SideRole;
pub use short::is_short;
pub use side::{MomentList, Side};
pub use writing::write_side;
