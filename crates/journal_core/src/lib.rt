//! The journal: a file of records, each of which is there whole or not at all.
//!
//! A journal begins with the eight bytes `NDAJRNL1` and its generation in eight more, the lowest first.
//! At byte 16 stands a gate byte. Where a gate byte is 1, the length of a record follows in four bytes,
//! the lowest first, then the record, and then the next gate byte. Any other gate byte ends the records,
//! and bytes behind it have no meaning. A record has at most `RECORD_LIMIT` bytes.
//!
//! A record is written and synced behind the closed gate, and then the gate is opened in a write of its
//! own, while all that it opens is stable. So at every moment a crash leaves the records that were there,
//! with the new one or without it, and a record whose `append` answered `Ok` is never lost again.
//!
//! It stands on `host_model`: what a crash may leave of a file is its definition, and over a host that
//! tells nothing of its past each call is still safe and returns. Only `open` takes memory, for the
//! records that it gives.
#![tactic(auto)]

mod fault;
mod form;
mod gate;
mod journal;
mod law;
mod piece;
mod reading;
mod start;
mod store;

pub use fault::{AppendFault, JournalFault};
pub use journal::{EMPTY_SIZE, JOURNAL_LIMIT, Journal, RECORD_LIMIT};
pub use law::bytes_hold_one_journal;
pub use reading::RecordList;
pub use start::prepare;
