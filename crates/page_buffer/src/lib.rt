//! Pages of a series: the points or the records of following moments, in a raw page.
//!
//! A page says its series, the moment of its first item and the step from one item to the next, and
//! holds the items alone. A `SlotPage` holds words of 4 bytes, one slot for each step, where a slot with 0
//! is empty: up to 1,024 slots, of which at most six in a row are empty, and neither the first nor the
//! last. A `RecordPage` holds records of 56 bytes, one for each step: up to 73. Numbers have their lowest
//! byte first.
//!
//! Contracts see a page as these numbers and the list of its items. Proved is when a push is refused and
//! what it leaves, and that a moment's slot is what was pushed there. A page which `decode` makes of what
//! `encode` gave is the same page, and `decode` refuses exactly what no page encodes to. Pushes make each
//! page of slots or records which `decode` takes. No call but `encode` takes memory.
//!
//! It stands on `page_pool` for the raw pages, on `fixed_num` for records and lists, and on the kit's
//! `byteorder` for the order of bytes.
#![tactic(auto)]

mod fault;
mod grid;
mod law;
mod raw;
mod record_page;
mod records;
mod slot_page;
mod words;

pub use fault::PageFault;
pub use law::{pushes_make_all_records, pushes_make_all_slots};
pub use record_page::{MOST_RECORDS, RecordPage};
pub use records::RECORD_SIZE;
pub use slot_page::{MOST_EMPTY, MOST_SLOTS, SlotPage};
