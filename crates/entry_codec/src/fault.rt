use field_codec::FieldFault;
use thiserror::Error;

/// Why bytes are no entry, or an entry has no bytes.
#[derive(Clone, Copy, Debug, PartialEq, Eq, Error)]
pub enum EntryFault {
    /// The bytes end inside a field.
    #[error("the entry ends inside a field")]
    Short,
    /// A flag or an enumerated byte is out of range.
    #[error("a byte of the entry is out of range")]
    Range,
    /// A text is not UTF-8.
    #[error("a text of the entry is not UTF-8")]
    NotText,
    /// No kind of entry has this byte.
    #[error("there is no such kind of entry")]
    UnknownKind,
    /// A list is out of order or names a thing twice, a word is no storage number, or bytes follow.
    #[error("the entry is not as it is written")]
    NotCanonical,
    /// There was no memory.
    #[error("out of memory")]
    Memory,
}

impl From<FieldFault> for EntryFault {
    ghost use Rattle.std.specs.Prelude.{◌≡◌};
    ghost use Rattle.entry_codec.specs.Entries.{entry_fault};

    ghost from_gives = { λ field fault. fault ≡ entry_fault field };

    fn from(fault: FieldFault) -> EntryFault {
        match fault {
            FieldFault::Short => EntryFault::Short,
            FieldFault::Range => EntryFault::Range,
            FieldFault::NotText => EntryFault::NotText,
            FieldFault::Memory => EntryFault::Memory,
        }
    }
}
