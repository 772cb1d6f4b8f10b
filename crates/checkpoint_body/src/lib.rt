//! The body of a checkpoint, and the pages in which it has the items of segments.
//!
//! The items of a segment are points of series in the tier of points, and records of buckets in the
//! other tiers. In the order of their series, then moments, they are cut into pages: a page of
//! slots has points of a series whose moments are steps apart, with at most six empty slots between
//! two of them, and a page of records has the records of buckets in a row. A page has 1,024 slots
//! or 73 records at most. It is proved that pages give their items back, and how many bytes they
//! have at most.
//!
//! A `Body` says what is kept of a database: its settings, how many beats it has taken, of each
//! tier the floor, the kept extents, the open records and the pages of the segment that is not
//! full, and what is kept beside the tiers. It has one spelling, where it is in the form in which
//! it is written: no tier has more than its settings allow, each series has one open record at
//! most, and lists have their order. What is written is the spelling, and what is read of bytes has them as its
//! spelling: so two bodies never share one, what was written is read again, and bytes that are no
//! spelling are refused. The settings and the side say how many bytes it has at most. A list grows
//! with the items that are read, so that a count takes no memory by itself.
//!
//! It stands on `field_codec` for the fields and lists, on `tier_settings` for the settings and
//! their limits, on `page_buffer` for how much a page holds, and on `fixed_num` for records and
//! lists. A word of a page may be any number. It knows no disk.
#![tactic(auto)]

mod body;
mod canonical;
mod fault;
mod format;
mod grid;
mod item;
mod law;
mod list_items;
mod of_tiers;
mod page;
mod reading;
mod records;
mod slots;
mod span;
mod writing;

pub use body::{Body, Extent, ExtentList, OpenRecord, OpenRecordList, PointTier, RecordTier};
pub use canonical::{are_record_pages, are_slot_pages};
pub use fault::BodyFault;
pub use item::{BucketRecord, BucketRecordList, Point, PointList};
pub use law::{bodies_round_trip, record_pages_give_records_back, slot_pages_give_points_back};
pub use page::{RecordList, RecordPage, RecordPageList, SlotPage, SlotPageList, WordList};
pub use reading::read_body;
pub use records::{record_pages, records_of};
pub use slots::{points_of, slot_pages};
pub use writing::write_body;
