//! The lines of a collector's text to the lines that its points are told by.
//!
//! A `Reader` takes the lines of a text one by one and adds what each tells to an output: a MOMENT tells
//! the points of its beat, one line each, by ascending series, and every other line tells nothing. What it
//! tells, and which line it refuses and why, are proved to be what the definitions say by looking back over
//! the lines before. It keeps no line: only the open beat, the charts and dimensions, the last row of each
//! dimension, and two counts.
//!
//! The crate stands on `plugin_text` for what a line says, on `collect_block` for where it may stand and
//! for the beats, on `beat_entries` for a beat by number, and on `beat_points` for the points that a beat
//! gives.
#![tactic(auto)]

mod reader;
mod stop;
mod telling;

pub use reader::Reader;
pub use stop::Stop;
