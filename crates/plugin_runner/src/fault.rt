use thiserror::Error;

/// How a turn ended that was not refused.
#[derive(Clone, Copy, Debug, PartialEq, Eq)]
pub enum Turn {
    /// There may be more: the turn took a byte, or started or finished a child.
    More,
    /// The text has ended: all starts were made and each child ended with 0, or 8,193 bytes came without a
    /// line feed.
    Ended,
}

/// Why a turn is refused.
#[derive(Clone, Copy, Debug, PartialEq, Eq, Error)]
pub enum RunFault {
    /// The program could not be started.
    #[error("the program could not be started")]
    SpawnFault,
    /// What a child wrote could not be taken, or its end could not be waited for.
    #[error("what the program writes could not be read")]
    PipeFault,
    /// A child ended with this status, which is not 0, or printed DISABLE.
    #[error("the program is disabled")]
    Disabled(Option<i32>),
    /// There was no memory.
    #[error("out of memory")]
    Memory,
}
