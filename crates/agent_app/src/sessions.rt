//! How a session with another agent ends.
ghost use Rattle.std.specs.Prelude.{◌≡◌};
ghost use Rattle.agent_app.specs.Sessions.{fault_status, peer_kind, session_status};

use crate::statuses::agent_status;
use host_model::Status;
use link_session::{PeerFault, SessionFault};

/// The number of a refusal between two agents.
fn peer_kind(why: PeerFault) -> u32
    ensures { result ≡ peer_kind why }
{
    match why {
        PeerFault::WrongChild => 1,
        PeerFault::BadFrame => 2,
        PeerFault::FrameTooLong => 3,
    }
}

/// The status of a session that ended with this fault.
fn fault_status(fault: SessionFault) -> Status
    ensures { result ≡ fault_status fault }
{
    match fault {
        SessionFault::LinkFault => Status::LinkFault,
        SessionFault::Agent(fault) => agent_status(fault),
        SessionFault::PeerRefused(why) => Status::PeerRefused(peer_kind(why)),
        SessionFault::Ended => Status::LinkEnded,
        SessionFault::InputLimit => Status::InputLimit,
        SessionFault::TellFault => Status::TellFault,
        SessionFault::Memory => Status::Memory,
    }
}

/// The status of a session that ended so.
pub(crate) fn session_status(ended: Result<(), SessionFault>) -> Status
    ensures { result ≡ session_status ended }
{
    match ended {
        Ok(()) => Status::Ok,
        Err(fault) => fault_status(fault),
    }
}
