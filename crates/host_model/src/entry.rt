use crate::file::File;
use fixed_num::ByteList;

/// What the record of a host keeps of one call that left something.
#[derive(Debug, Drop)]
pub(crate) enum Entry {
    /// These bytes were written from this place on.
    Write(File, u64, ByteList),
    /// A write of so many bytes from this place on failed, and put none down.
    FailedWrite(File, u64, u64),
    /// The file was cut to this length.
    CutTo(File, u64),
    /// A cut to this length failed, and took nothing away.
    FailedCutTo(File, u64),
    /// The file was synced.
    Sync(File),
    /// These bytes were sent to the output.
    Tell(ByteList),
}
