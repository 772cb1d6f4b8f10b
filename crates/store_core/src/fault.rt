ghost use Rattle.std.specs.Prelude.{◌≡◌};
ghost use Rattle.store_core.specs.Faults.{create_fault_of_files, fault_of_files};
ghost use Rattle.store_core.specs.declared.fault.CreateFault.TheVariants as create;
ghost use Rattle.store_core.specs.declared.fault.StoreFault.TheVariants.{Memory};

use crate::disk::FilesFault;
use std::alloc::AllocError;
use thiserror::Error;

/// Why a store is of no more use.
#[derive(Clone, Copy, Debug, PartialEq, Eq, Error)]
pub enum Why {
    /// A call on the disk failed.
    #[error("the disk failed")]
    Disk,
    /// There was no memory.
    #[error("out of memory")]
    Memory,
}

/// Why a database was not made.
#[derive(Clone, Copy, Debug, PartialEq, Eq, Error)]
pub enum CreateFault {
    /// A call on the disk failed.
    #[error("the disk failed")]
    DiskFault,
    /// There is a database on the disk already.
    #[error("there is a database already")]
    Exists,
    /// There was no memory.
    #[error("out of memory")]
    Memory,
}

/// Why a database was not opened.
#[derive(Clone, Copy, Debug, PartialEq, Eq, Error)]
pub enum OpenFault {
    /// A call on the disk failed.
    #[error("the disk failed")]
    DiskFault,
    /// There is no database on the disk.
    #[error("there is no database")]
    NotADatabase,
    /// What is on the disk is no database: the part of its form with this number does not hold. It
    /// is 1 for the file of its checkpoint, 2 for the body of that, 3 for an extent that the body
    /// names, 4 for the journal.
    #[error("the database is damaged in part {0}")]
    Damaged(u32),
    /// There was no memory.
    #[error("out of memory")]
    Memory,
}

/// Why a call on an open store did not do what it was asked to do.
#[derive(Clone, Copy, Debug, PartialEq, Eq, Error)]
pub enum StoreFault {
    /// A call on the disk failed.
    #[error("the disk failed")]
    DiskFault,
    /// The moment of a beat is not above the last one, which is this.
    #[error("the moment is not above the last one, {0}")]
    MomentOrder(u32),
    /// An earlier call failed so, and the database must be opened again.
    #[error("the database must be opened again: {0}")]
    Reopen(Why),
    /// There was no memory.
    #[error("out of memory")]
    Memory,
}

impl StoreFault {
    ghost use Rattle.std.specs.Prelude.{◌≡◌};
    ghost use Rattle.store_core.specs.Faults.{cause_of};

    /// Why the store is of no more use after this fault, if it is not.
    pub fn cause(self) -> Option<Why>
        ensures { result ≡ cause_of self }
    {
        match self {
            StoreFault::DiskFault => Some(Why::Disk),
            StoreFault::Memory => Some(Why::Memory),
            StoreFault::MomentOrder(_) | StoreFault::Reopen(_) => None,
        }
    }
}

impl From<AllocError> for CreateFault {
    ghost from_gives = { λ _ fault. fault ≡ create.Memory };

    fn from(_error: AllocError) -> CreateFault {
        CreateFault::Memory
    }
}

impl From<FilesFault> for CreateFault {
    ghost from_gives = { λ fault given. given ≡ create_fault_of_files fault };

    fn from(fault: FilesFault) -> CreateFault {
        match fault {
            FilesFault::DiskFault => CreateFault::DiskFault,
            FilesFault::Memory => CreateFault::Memory,
        }
    }
}

impl From<AllocError> for StoreFault {
    ghost from_gives = { λ _ fault. fault ≡ Memory };

    fn from(_error: AllocError) -> StoreFault {
        StoreFault::Memory
    }
}

impl From<FilesFault> for StoreFault {
    ghost from_gives = { λ fault given. given ≡ fault_of_files fault };

    fn from(fault: FilesFault) -> StoreFault {
        match fault {
            FilesFault::DiskFault => StoreFault::DiskFault,
            FilesFault::Memory => StoreFault::Memory,
        }
    }
}
