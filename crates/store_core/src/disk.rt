//! The files of a database: a checkpoint, the extents that it names, and the journal since.
//!
//! `create` makes a database without extents, `open` gives what a disk holds, `append` adds a
//! record, and `checkpoint` writes sealed segments into free slots (`lowest_free`), prepares the
//! next journal, and switches to the next body. Proved is, over an honest host: a disk holds one
//! contents at most, and none where a part is damaged. A whole database is opened, but for the disk
//! or memory; else `open` says that there is none, or which part is damaged. `open_left` opens one
//! that is in form, whatever its pages hold. A crash leaves at every moment of `create` what it
//! might have left before, no database, or the new one. Of `append` and `checkpoint`, where the
//! body names kept or new extents, each in a slot of its own, it leaves the old contents or the
//! new, and at `Ok` the new. No other file is touched. Where each file has at most its share, and
//! what is written fits the shares, each crash leaves it so.
//!
//! It stands on `checkpoint`, `journal_core`, `extent_file`, `checkpoint_body`, `page_buffer`,
//! `page_pool`, `tier_settings` and `host_model`.

mod advancing;
mod beginning;
pub(crate) mod fault;
mod files;
mod free_slot;
mod items;
mod law;
mod left;
mod making;
mod opening;
mod pages;
mod reading;
mod sealed;
mod segment;
mod slots;
mod tier;
mod writing;

pub use fault::FilesFault;
pub use files::{Files, JOURNAL_SHARE};
pub use free_slot::lowest_free;
pub use law::{one_disk_holds_one_contents, shares_hold_what_is_written, telling_keeps_files_open};
pub use left::{Left, open_left};
pub use making::create;
pub use opening::{Opened, open};
pub use sealed::{RecordExtent, RecordExtentList, Sealed, SlotExtent, SlotExtentList};
