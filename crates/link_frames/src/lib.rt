//! Frames: what a child and its parent say to each other over a link, as bytes.
//!
//! A `Frame` is the length of its body and the body. What `write_frame` writes is the frame's one spelling. No two
//! frames share a spelling, and none is the prefix of another (`frames_are_prefix_free`).
//!
//! A `FrameReader` is fed the bytes of a link piece by piece and hands out the frames that stand in them. These
//! are the frames of the bytes so far, however they are cut into pieces (`cut_changes_no_frames`,
//! `pieces_change_no_frames`). It stops at a length above `BODY_LIMIT` once its four bytes are there, and at a
//! body that no frame has once it is whole, each time after the frames before it. Where memory runs out it is a
//! prefix of these frames, and the reader reads no more. Between two pieces it keeps fewer than `BODY_LIMIT` + 4
//! bytes (`cut_changes_no_frames`). Nothing is reserved by a length or a count; what is read of a body takes some
//! times the bytes of the body. No contract says so.
//!
//! It stands on the spelling of a `Data` of `replication`, on the fields and lists of `field_codec`, on the order
//! of lists of `entry_codec`, on the form of ids of `history`, and on `storage_number` for which words are storage
//! numbers.
#![tactic(auto)]

mod apart;
mod cut;
mod data_form;
mod fault;
mod form;
mod format;
mod frame;
mod items;
mod law;
mod reader;
mod reading;
mod used;
mod writing;

pub use fault::FrameFault;
pub use frame::{BAD_FRAME, BODY_LIMIT, DONE, Frame, FrameList, WRONG_CHILD};
pub use law::{
    answers_are_frames, cut_changes_no_frames, frames_are_prefix_free, one_beat_fits_a_frame,
    pieces_change_no_frames,
};
pub use reader::FrameReader;
pub use writing::write_frame;
