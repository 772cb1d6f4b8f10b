use fixed_num::ListOf;
use replication::{Ask, Data};

/// How many bytes the body of a frame may have.
pub const BODY_LIMIT: u32 = 1 << 24;

/// Why an end goes: it is done.
pub const DONE: u8 = 0;

/// Why an end goes: the child is another one.
pub const WRONG_CHILD: u8 = 1;

/// Why an end goes: a frame was bad.
pub const BAD_FRAME: u8 = 2;

/// Frames, the first one first.
pub type FrameList = ListOf<Frame>;

/// What one end of a link says to the other.
#[derive(Debug, Drop)]
pub enum Frame {
    /// A child begins, and tells its id.
    Hello(u64),
    /// A parent asks a child for what comes above a moment.
    Ask(Ask),
    /// A child tells its next beats.
    Data(Data),
    /// A parent has all up to this moment, in seconds.
    Have(u32),
    /// An end goes, and tells why: [`DONE`], [`WRONG_CHILD`] or [`BAD_FRAME`].
    Bye(u8),
}
