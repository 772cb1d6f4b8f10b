//! Beats as a database keeps them, and their records: a beat is a moment, points, and a note, which
//! is bytes of the layer above.
//!
//! A beat in form has one spelling, which `write_beat` writes and `read_beat` reads; bytes of
//! another form are no beat. `next_beat` reads one that may follow a moment, and `read_beats` reads
//! all of a journal. `Waiting` holds those that wait for their replay.
//!
//! It stands on `field_codec` and `entry_codec` for the spelling, and on `beat_tiers` for points.

mod beat;
mod form;
mod law;
mod reading;
mod records;
mod waiting;
mod writing;

pub use beat::{Beat, BeatPoint, BeatPointList};
pub use fixed_num::ByteList;
pub use law::beats_are_read_again;
pub use reading::read_beat;
pub use records::{is_later, last_after, next_beat, read_beats};
pub use waiting::Waiting;
pub use writing::write_beat;
