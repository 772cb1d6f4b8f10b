//! The items of a tier's segments as pages, and back.
//!
//! The items of a segment have the order of their places, and at one place that of their series. In
//! a checkpoint and in an extent they are pages, by series. `slot_pages_of` makes the pages of a
//! segment of points, and `record_pages_of` those of a segment of records. `items_of_slots` and
//! `items_of_records` read the items back, in the order that they have in a segment.
//!
//! Proved is that the pages have each item just once, and that they have the form and the order
//! that a checkpoint's body and an extent ask of them. Items in their order come back from their
//! pages as they were: a list in that order is the only one that its pages have. The pages of a
//! segment may be written into a slot of its tier, where it has fewer than `MOST_SERIES` items
//! beyond those at which the tier seals a segment. `pages_determine_their_items` has these laws.
//!
//! It stands on `beat_tiers` for the items, on `checkpoint_body` for the pages and how a list is cut
//! into them, and on `disk` and `extent_file` for what an extent asks of pages. It knows no
//! file. Memory is taken for the copies that are sorted, and for what is answered.

mod law;
mod records;
mod slots;
mod sorting;

pub use law::pages_determine_their_items;
pub use records::{items_of_records, record_pages_of};
pub use slots::{items_of_slots, slot_pages_of};
pub(crate) use sorting::sorted_by_place;
