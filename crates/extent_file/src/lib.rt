//! Sealed extents: the pages of a segment of a tier, in a slot of the tier's file, with their directory.
//!
//! `docs/FORMATS.md` has the bytes. Proved is, over an honest host: after `write_extent` answered `Ok` each crash
//! leaves the extent of the pages that were written. At every moment of it the other slots and all other files
//! stay. `open` gives the entries of exactly the extent that stands there. `read_page` gives the bytes of a page's
//! items, and `find` is equal to the plain search of the entries. Where there is no extent, `BadExtent` has the
//! first byte of the file at which the form, read field by field, does not go on. What the items say is for the
//! pages' own `decode`.
//!
//! It stands on `host_model` for what a crash leaves of a file, on `page_buffer` for the pages, on `page_pool` for
//! raw pages, on `tier_settings` for the most items and extents of a tier, and on
//! `byteorder` and `fixed_num`.
#![tactic(auto)]

mod directory;
mod encoding;
mod entry;
mod extent;
mod fault;
mod field;
mod finding;
mod head;
mod law;
mod opening;
mod page;
mod reading;
mod sizes;
mod writing;

pub use extent::Extent;
pub use fault::{ExtentFault, WriteFault};
pub use law::bytes_say_one_extent;
pub use page::{Page, PageList};
pub use sizes::{MOST_ENTRIES, PLACE_LIMIT, SLOT_LIMIT, START_LIMIT, size_of};
pub use writing::write_extent;
