ghost use Rattle.std.specs.Prelude.{◌≡◌};
ghost use Rattle.store_core.specs.disk.Faults.{fault_of_body, fault_of_check, fault_of_extent, fault_of_journal, fault_of_write};
ghost use Rattle.store_core.specs.declared.disk.fault.FilesFault.TheVariants.{DiskFault, Memory};
ghost use Rattle.store_core.specs.declared.fault.OpenFault.TheVariants as opening;

use crate::fault::OpenFault;
use checkpoint::CheckFault;
use checkpoint_body::BodyFault;
use extent_file::{ExtentFault, WriteFault};
use host_model::Failed;
use journal_core::JournalFault;
use page_pool::PoolFault;
use std::alloc::{AllocError, AllocFailed};
use thiserror::Error;

/// The part of a database that is the file of its checkpoint.
pub(crate) const FILE_PART: u32 = 1;

/// The part that is the checkpoint's body.
pub(crate) const BODY_PART: u32 = 2;

/// The part that is an extent.
pub(crate) const EXTENT_PART: u32 = 3;

/// The part that is the journal.
pub(crate) const JOURNAL_PART: u32 = 4;

/// Why the files of a database were not changed.
#[derive(Clone, Copy, Debug, PartialEq, Eq, Error)]
pub enum FilesFault {
    /// A call on the disk failed.
    #[error("the disk failed")]
    DiskFault,
    /// There was no memory.
    #[error("out of memory")]
    Memory,
}

impl From<Failed> for FilesFault {
    ghost from_gives = { λ _ fault. fault ≡ DiskFault };

    fn from(_error: Failed) -> FilesFault {
        FilesFault::DiskFault
    }
}

impl From<AllocError> for FilesFault {
    ghost from_gives = { λ _ fault. fault ≡ Memory };

    fn from(_error: AllocError) -> FilesFault {
        FilesFault::Memory
    }
}

impl<T: Drop> From<AllocFailed<T>> for FilesFault {
    ghost from_gives = { λ _ fault. fault ≡ Memory };

    fn from(_error: AllocFailed<T>) -> FilesFault {
        FilesFault::Memory
    }
}

impl From<PoolFault> for FilesFault {
    ghost from_gives = { λ _ fault. fault ≡ Memory };

    fn from(_error: PoolFault) -> FilesFault {
        FilesFault::Memory
    }
}

impl From<WriteFault> for FilesFault {
    ghost from_gives = { λ fault given. given ≡ fault_of_write fault };

    fn from(fault: WriteFault) -> FilesFault {
        match fault {
            WriteFault::DiskFault => FilesFault::DiskFault,
            WriteFault::Memory => FilesFault::Memory,
        }
    }
}

impl From<Failed> for OpenFault {
    ghost from_gives = { λ _ fault. fault ≡ opening.DiskFault };

    fn from(_error: Failed) -> OpenFault {
        OpenFault::DiskFault
    }
}

impl From<AllocError> for OpenFault {
    ghost from_gives = { λ _ fault. fault ≡ opening.Memory };

    fn from(_error: AllocError) -> OpenFault {
        OpenFault::Memory
    }
}

impl<T: Drop> From<AllocFailed<T>> for OpenFault {
    ghost from_gives = { λ _ fault. fault ≡ opening.Memory };

    fn from(_error: AllocFailed<T>) -> OpenFault {
        OpenFault::Memory
    }
}

impl From<PoolFault> for OpenFault {
    ghost from_gives = { λ _ fault. fault ≡ opening.Memory };

    fn from(_error: PoolFault) -> OpenFault {
        OpenFault::Memory
    }
}

impl From<CheckFault> for OpenFault {
    ghost from_gives = { λ fault given. given ≡ fault_of_check fault };

    fn from(fault: CheckFault) -> OpenFault {
        match fault {
            CheckFault::DiskFault => OpenFault::DiskFault,
            CheckFault::NoneOpen => OpenFault::NotADatabase,
            CheckFault::BadSlot(_) => OpenFault::Damaged(FILE_PART),
            CheckFault::Memory => OpenFault::Memory,
        }
    }
}

impl From<BodyFault> for OpenFault {
    ghost from_gives = { λ fault given. given ≡ fault_of_body fault };

    fn from(fault: BodyFault) -> OpenFault {
        match fault {
            BodyFault::BadBody => OpenFault::Damaged(BODY_PART),
            BodyFault::Memory => OpenFault::Memory,
        }
    }
}

impl From<ExtentFault> for OpenFault {
    ghost from_gives = { λ fault given. given ≡ fault_of_extent fault };

    fn from(fault: ExtentFault) -> OpenFault {
        match fault {
            ExtentFault::DiskFault => OpenFault::DiskFault,
            ExtentFault::BadExtent(_) => OpenFault::Damaged(EXTENT_PART),
            ExtentFault::Memory => OpenFault::Memory,
        }
    }
}

impl From<JournalFault> for OpenFault {
    ghost from_gives = { λ fault given. given ≡ fault_of_journal fault };

    fn from(fault: JournalFault) -> OpenFault {
        match fault {
            JournalFault::DiskFault => OpenFault::DiskFault,
            JournalFault::NotAJournal(_) => OpenFault::Damaged(JOURNAL_PART),
            JournalFault::Memory => OpenFault::Memory,
        }
    }
}
