ghost use Rattle.std.specs.Prelude.{◌≡◌};
ghost use Rattle.agent_core.specs.Faults.{fault_of, of_alarms, of_beat, of_block, of_config, of_entry, of_followed, of_opening, of_points, of_restored, of_side, unread};
ghost use Rattle.agent_core.specs.declared.fault.AgentFault.TheVariants as agent;
ghost use Rattle.agent_core.specs.declared.fault.OpenFault.TheVariants as opening;

use alarm_core::{AlarmFault, RestoreFault};
use beat_entries::{BeatFault, EntryRefusal};
use entry_codec::EntryFault;
use health_config::ConfigFault;
use history::BlockFault;
use query_engine::PointFault;
use query_text::QueryFault;
use replication::CopyFault;
use side_codec::SideFault;
use std::alloc::AllocError;
use store_core::{StoreFault, Why};
use thiserror::Error;

/// The number of the part that the side, the notes and the points are. The files of the store are the parts before it.
pub const NOTE_PART: u32 = 5;

/// Why a call on an agent did not do what it was asked to do.
#[derive(Clone, Copy, Debug, PartialEq, Eq, Error)]
pub enum AgentFault {
    /// The history does not take this line or beat.
    #[error("{0}")]
    Refused(BlockFault),
    /// The health text is refused.
    #[error("{0}")]
    Health(ConfigFault),
    /// A call on the disk failed.
    #[error("the disk failed")]
    DiskFault,
    /// An earlier call failed so, and the database must be opened again.
    #[error("the database must be opened again: {0}")]
    Reopen(Why),
    /// There was no memory.
    #[error("out of memory")]
    Memory,
}

/// Why an agent was not opened.
#[derive(Clone, Copy, Debug, PartialEq, Eq, Error)]
pub enum OpenFault {
    /// A call on the disk failed.
    #[error("the disk failed")]
    DiskFault,
    /// There is no database on the disk.
    #[error("there is no database")]
    NotADatabase,
    /// What is on the disk is no database: the part of its form with this number does not hold.
    #[error("the database is damaged in part {0}")]
    Damaged(u32),
    /// There was no memory.
    #[error("out of memory")]
    Memory,
}

impl AgentFault {
    ghost use Rattle.std.specs.Prelude.{◌≡◌};
    ghost use Rattle.agent_core.specs.Faults.{cause_of};

    /// Why the agent is of no more use after this fault, if it is not.
    pub(crate) fn cause(self) -> Option<Why>
        ensures { result ≡ cause_of self }
    {
        match self {
            AgentFault::DiskFault => Some(Why::Disk),
            AgentFault::Memory => Some(Why::Memory),
            AgentFault::Refused(_) | AgentFault::Health(_) | AgentFault::Reopen(_) => None,
        }
    }
}

// ---- why a call on an agent failed

impl From<AllocError> for AgentFault {
    ghost from_gives = { λ _ fault. fault ≡ agent.Memory };

    fn from(_error: AllocError) -> AgentFault {
        AgentFault::Memory
    }
}

impl From<CopyFault> for AgentFault {
    ghost from_gives = { λ _ fault. fault ≡ agent.Memory };

    fn from(_error: CopyFault) -> AgentFault {
        AgentFault::Memory
    }
}

impl From<BeatFault> for AgentFault {
    ghost from_gives = { λ fault given. given ≡ of_beat fault };

    fn from(fault: BeatFault) -> AgentFault {
        match fault {
            BeatFault::Refused(reason) => AgentFault::Refused(reason),
            BeatFault::Memory => AgentFault::Memory,
        }
    }
}

impl From<BlockFault> for AgentFault {
    ghost from_gives = { λ fault given. given ≡ of_block fault };

    fn from(fault: BlockFault) -> AgentFault {
        match fault {
            BlockFault::Memory => AgentFault::Memory,
            reason => AgentFault::Refused(reason),
        }
    }
}

impl From<ConfigFault> for AgentFault {
    ghost from_gives = { λ fault given. given ≡ of_config fault };

    fn from(fault: ConfigFault) -> AgentFault {
        match fault {
            ConfigFault::Memory => AgentFault::Memory,
            reason => AgentFault::Health(reason),
        }
    }
}

/// A query that is refused is answered by a line, so that only memory can be short.
impl From<QueryFault> for AgentFault {
    ghost from_gives = { λ _ fault. fault ≡ agent.Memory };

    fn from(_error: QueryFault) -> AgentFault {
        AgentFault::Memory
    }
}

impl From<AlarmFault> for AgentFault {
    ghost from_gives = { λ fault given. given ≡ of_alarms fault };

    fn from(fault: AlarmFault) -> AgentFault {
        match fault {
            AlarmFault::Disk => AgentFault::DiskFault,
            AlarmFault::Memory => AgentFault::Memory,
        }
    }
}

impl From<PointFault> for AgentFault {
    ghost from_gives = { λ fault given. given ≡ of_points fault };

    fn from(fault: PointFault) -> AgentFault {
        match fault {
            PointFault::Disk => AgentFault::DiskFault,
            PointFault::Memory => AgentFault::Memory,
        }
    }
}

impl From<StoreFault> for AgentFault {
    ghost from_gives = { λ fault given. given ≡ fault_of fault };

    fn from(fault: StoreFault) -> AgentFault {
        match fault {
            StoreFault::DiskFault => AgentFault::DiskFault,
            StoreFault::MomentOrder(last) => AgentFault::Refused(BlockFault::MomentOrder(last)),
            StoreFault::Reopen(cause) => AgentFault::Reopen(cause),
            StoreFault::Memory => AgentFault::Memory,
        }
    }
}

// ---- why an agent was not opened

impl From<AllocError> for OpenFault {
    ghost from_gives = { λ _ fault. fault ≡ opening.Memory };

    fn from(_error: AllocError) -> OpenFault {
        OpenFault::Memory
    }
}

impl From<store_core::OpenFault> for OpenFault {
    ghost from_gives = { λ fault given. given ≡ of_opening fault };

    fn from(fault: store_core::OpenFault) -> OpenFault {
        match fault {
            store_core::OpenFault::DiskFault => OpenFault::DiskFault,
            store_core::OpenFault::NotADatabase => OpenFault::NotADatabase,
            store_core::OpenFault::Damaged(part) => OpenFault::Damaged(part),
            store_core::OpenFault::Memory => OpenFault::Memory,
        }
    }
}

/// What is stored and does not go on is damaged.
impl From<EntryRefusal> for OpenFault {
    ghost from_gives = { λ refusal fault. fault ≡ unread refusal };

    fn from(refusal: EntryRefusal) -> OpenFault {
        match refusal {
            EntryRefusal::NotNext => OpenFault::Damaged(NOTE_PART),
            EntryRefusal::Memory => OpenFault::Memory,
        }
    }
}

/// What is stored and is no entry is damaged.
impl From<EntryFault> for OpenFault {
    ghost from_gives = { λ fault given. given ≡ of_entry fault };

    fn from(fault: EntryFault) -> OpenFault {
        match fault {
            EntryFault::Short
            | EntryFault::Range
            | EntryFault::NotText
            | EntryFault::UnknownKind
            | EntryFault::NotCanonical => OpenFault::Damaged(NOTE_PART),
            EntryFault::Memory => OpenFault::Memory,
        }
    }
}

/// What is stored and is no side is damaged.
impl From<SideFault> for OpenFault {
    ghost from_gives = { λ fault given. given ≡ of_side fault };

    fn from(fault: SideFault) -> OpenFault {
        match fault {
            SideFault::BadBytes => OpenFault::Damaged(NOTE_PART),
            SideFault::Memory => OpenFault::Memory,
        }
    }
}

/// What is stored and is no alarms is damaged.
impl From<RestoreFault> for OpenFault {
    ghost from_gives = { λ fault given. given ≡ of_restored fault };

    fn from(fault: RestoreFault) -> OpenFault {
        match fault {
            RestoreFault::BadKept => OpenFault::Damaged(NOTE_PART),
            RestoreFault::Memory => OpenFault::Memory,
        }
    }
}

impl From<AlarmFault> for OpenFault {
    ghost from_gives = { λ fault given. given ≡ of_followed fault };

    fn from(fault: AlarmFault) -> OpenFault {
        match fault {
            AlarmFault::Disk => OpenFault::DiskFault,
            AlarmFault::Memory => OpenFault::Memory,
        }
    }
}
