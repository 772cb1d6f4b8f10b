//! The status of a command whose database was not opened, or did not do what it was asked to do.
ghost use Rattle.std.specs.Prelude.{◌≡◌};
ghost use Rattle.agent_app.specs.Statuses.{agent_status, opening_status};

use crate::health::fault_status;
use crate::refusals::refusal_status;
use agent_core::{AgentFault, OpenFault, Why};
use host_model::Status;
use plugin_text::Refusal;

/// The status of a command whose database was not opened.
pub(crate) fn opening_status(fault: OpenFault) -> Status
    ensures { result ≡ opening_status fault }
{
    match fault {
        OpenFault::DiskFault => Status::DiskFault,
        OpenFault::NotADatabase => Status::NotADatabase,
        OpenFault::Damaged(part) => Status::Damaged(part),
        OpenFault::Memory => Status::Memory,
    }
}

/// The status of a command that a fault of its agent ended. What the history does not take came in no line.
pub(crate) fn agent_status(fault: AgentFault) -> Status
    ensures { result ≡ agent_status fault }
{
    match fault {
        AgentFault::Refused(why) => refusal_status(0, Refusal::Block(why)),
        AgentFault::Health(why) => fault_status(why),
        AgentFault::DiskFault | AgentFault::Reopen(Why::Disk) => Status::DiskFault,
        AgentFault::Memory | AgentFault::Reopen(Why::Memory) => Status::Memory,
    }
}
