//! The tiers that a database has at its checkpoint.
//!
//! A checkpoint's body has, of each tier, its counts, its items since the last sealed segment, and
//! the extents in which the sealed segments lie. `tiers_of` makes the tiers of an opened database
//! from its body and from the pages of these extents.
//!
//! It is proved that the tiers that come back are sound and are those of the body and the pages;
//! that `None` comes back only where the body and the pages are those of no tiers; and that they are
//! those of one list of tiers at most. `left_tiers` makes tiers of any body and whatever the pages
//! hold: those of what can be read of them. It is proved that they are sound.
//!
//! `first_body` makes the body of a database of no beats. It is proved that it has a spelling, that
//! it names no extent, and that its tiers are those of no beats.
//!
//! `next_body` makes the body of the next checkpoint, of the body of the open one and of the tiers
//! that the database has now, and the pages of the segments that were sealed since. It is proved
//! that the body has a spelling; that it and the new segments may follow the open checkpoint, and
//! lie in slots that this does not name; and that its tiers are those that it was made of. The tiers
//! have to go on from those of the open body, with one new segment in each at most.
//!
//! It stands on `disk` for what was opened and what may follow, on `extent_file` for the
//! sizes of extents, on `checkpoint_body` for the body and its pages, on `pages` for the items
//! that pages have, and on `beat_tiers` for the tiers.

mod first;
mod kept_items;
mod kept_segments;
mod kept_tiers;
mod left;
mod left_items;
mod left_segments;
mod next;
mod next_extents;
mod next_points;
mod next_records;
mod numbers;
mod sound;
mod tiers;

pub use first::first_body;
pub use left::left_tiers;
pub use next::next_body;
pub use next_extents::sealed_after;
pub use tiers::{body_determines_its_tiers, tiers_of};
