//! A text that comes from a source in pieces, and what is done with its lines.
//!
//! `take_text` takes the input piece by piece, cuts it into lines and hands them to a `Taker`, one by one and
//! in their order, until the taker ends the run, the input ends or fails, a line is too long, or `INPUT_LIMIT`
//! bytes were taken. It is proved which bytes were taken and which of their lines were handed over, for every
//! taker: what a taker does with a line is a relation of its own, and a run is a chain of such steps. So what a
//! command makes of a whole text is proved from that chain alone, whatever the pieces were.
//!
//! `take_text` takes its pieces of a `Source`. Who has a text from elsewhere hands its pieces to a `Stream`, and tells
//! it when the text has ended.
//!
//! It stands on `plugin_text` for lines, on `history` for what one line is, and on `host_model` for the outside.
#![tactic(auto)]

mod stream;
mod taker;

pub use stream::{INPUT_LIMIT, Stream, take_text};
pub use taker::Taker;
