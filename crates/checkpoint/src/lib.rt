//! Checkpoints: one numbered body, in two files of which one counts.
//!
//! A checkpoint file is a gate byte, a number in eight bytes, the length of the body in eight more, each
//! with the lowest byte first, and the body. A file is open where it has these 17 bytes, its gate byte is
//! 1, and its number is even in the first file and odd in the second. The open file with the larger
//! number counts. Bytes behind the body have no meaning.
//!
//! A switch writes the next checkpoint over the older one: it closes that file's gate, writes all that
//! stands behind the gate, and then opens it, each with a sync. A gate is opened, and an open one closed,
//! only where the rest is stable. So at every moment a crash leaves the checkpoint that was there, or the
//! new one whole.
//!
//! It stands on `host_model`: what a crash may leave of a file is its definition, and over a host that
//! tells nothing of its past each call is still safe and returns. Only `load` takes memory, for the body
//! that it gives.
#![tactic(auto)]

mod closing;
mod fault;
mod gate;
mod head;
mod loading;
mod rest;
mod switching;

pub use fault::CheckFault;
pub use head::HEAD;
pub use loading::load;
pub use switching::switch;
