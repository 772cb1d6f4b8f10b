ghost use Rattle.std.specs.Prelude.{◌≡◌};
ghost use Rattle.link_session.specs.Incoming.{reading_fault};

use agent_core::AgentFault;
use link_frames::FrameFault;
use std::alloc::AllocError;
use thiserror::Error;

/// Why one end of a link refused the other.
#[derive(Clone, Copy, Debug, PartialEq, Eq, Error)]
pub enum PeerFault {
    /// The parent has a copy of another child.
    #[error("the parent has a copy of another child")]
    WrongChild,
    /// A frame is in no form, or stands where it may not stand.
    #[error("a frame is bad")]
    BadFrame,
    /// The body of a frame has more than 2^24 bytes.
    #[error("a frame is too long")]
    FrameTooLong,
}

/// Why a session ended before it was done.
#[derive(Clone, Copy, Debug, PartialEq, Eq, Error)]
pub enum SessionFault {
    /// A call on the link failed.
    #[error("the link failed")]
    LinkFault,
    /// The agent did not do what it was asked to do.
    #[error("{0}")]
    Agent(AgentFault),
    /// One end refused the other.
    #[error("{0}")]
    PeerRefused(PeerFault),
    /// The peer sends no more, and the session was not done.
    #[error("the peer has gone")]
    Ended,
    /// As many bytes were taken as may be.
    #[error("the input is too long")]
    InputLimit,
    /// A call on the output failed.
    #[error("the output failed")]
    TellFault,
    /// There was no memory.
    #[error("out of memory")]
    Memory,
}

impl From<AllocError> for SessionFault {
    ghost use Rattle.std.specs.Prelude.{◌≡◌};
    ghost use Rattle.link_session.specs.declared.fault.SessionFault.TheVariants.{Memory};

    ghost from_gives = { λ _ fault. fault ≡ Memory };

    fn from(_error: AllocError) -> SessionFault {
        SessionFault::Memory
    }
}

impl From<AgentFault> for SessionFault {
    ghost use Rattle.std.specs.Prelude.{◌≡◌};
    ghost use Rattle.link_session.specs.declared.fault.SessionFault.TheVariants.{Agent};

    ghost from_gives = { λ fault given. given ≡ Agent fault };

    fn from(fault: AgentFault) -> SessionFault {
        SessionFault::Agent(fault)
    }
}

/// What a refusal of a reader is for a session.
impl From<FrameFault> for SessionFault {
    ghost from_gives = { λ fault given. given ≡ reading_fault fault };

    fn from(fault: FrameFault) -> SessionFault {
        match fault {
            FrameFault::FrameTooLong => SessionFault::PeerRefused(PeerFault::FrameTooLong),
            FrameFault::BadFrame => SessionFault::PeerRefused(PeerFault::BadFrame),
            FrameFault::Memory => SessionFault::Memory,
        }
    }
}
