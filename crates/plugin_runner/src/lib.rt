//! A program that is run as a collector, and the text that becomes of what it writes.
//!
//! A `Runner` starts the program, takes what it writes, and starts it again while it ends with 0. Its text has the
//! whole lines of all children in their order, and between them the MOMENT lines that close beats. These stand before a
//! BEGIN whose chart has a row in the open beat, and at a child's end, where an open block is dropped first. What is
//! put where is said by looking back over the lines of the text; the runner keeps an open beat instead. It is proved
//! over every spawner and clock that tell theirs that the bytes which turns have put are the text of what was heard, or
//! a prefix of it where memory ran out. Each answer has its cause (`runner_puts_what_it_heard`).
//! `run_hears_its_children_whole` says what that text is where a spawner tells its children.
//!
//! `take_collected` takes turns of a new runner to the end, and hands the lines of its text to a `Taker`. It is proved
//! which lines those are and why it halted, for every taker. `collected_text_is_whole` and
//! `collected_text_is_a_prefix` are its laws where a spawner tells its children.
//!
//! It stands on `line_stream` for takers of lines, on `plugin_text` for lines and what they say, on `history` for
//! questions about lines, and on `host_model` for the outside.
#![tactic(auto)]

mod collecting;
mod command;
mod fault;
mod follower;
mod law;
mod moment;
mod runner;
mod writing;

pub use collecting::{Halt, take_collected};
pub use fault::{RunFault, Turn};
pub use law::{
    collected_text_is_a_prefix, collected_text_is_whole, run_hears_its_children_whole,
    runner_puts_what_it_heard,
};
pub use runner::Runner;
