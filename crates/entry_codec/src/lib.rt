//! Entries as bytes: what a journal keeps, one after the other.
//!
//! An `Entry` is a beat that was collected or copied, the text of a configuration, or a gap in what
//! was copied. Its spelling is a kind byte and its fields, and nothing follows. A list is its count
//! and its items, in the order of their numbers, each number once, and the words of a copied beat
//! are storage numbers: an entry of another form has no spelling.
//!
//! What is written is the spelling, and what is read of bytes has them as its spelling: so an entry
//! has one spelling, two never share one, and what was written is read again. Bytes that are no
//! spelling are refused with the first fault from the left, and after all fields with
//! `NotCanonical`. A list grows with the items that are read, so that a count takes no memory by
//! itself.
//!
//! It stands on `field_codec` for the fields and lists, on the definitions of `history`, and on
//! `storage_number` for which words are storage numbers.
#![tactic(auto)]

mod canonical;
mod charts;
mod dimensions;
mod entry;
mod fault;
mod format;
mod kind;
mod law;
mod marks;
mod order;
mod reading;
mod rows;
mod words;
mod writing;

pub use charts::{CopiedChart, CopiedChartList};
pub use dimensions::{CopiedDimension, CopiedDimensionList};
pub use entry::{COLLECTED_LIMIT, Copied, Entry, Gap};
pub use fault::EntryFault;
pub use format::EntryFormat;
pub use law::{entries_round_trip, entry_length_is_limited};
pub use reading::read_entry;
pub use words::{CopiedWord, CopiedWordList};
pub use writing::{write_collected, write_entry};
