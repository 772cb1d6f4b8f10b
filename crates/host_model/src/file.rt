ghost use Rattle.std.specs.Prelude.{◌≡◌, ◌<◌};

/// The files of a database.
#[derive(Clone, Copy, Debug, PartialEq, Eq)]
pub enum File {
    /// One of the two checkpoints.
    CheckA,
    /// The other checkpoint.
    CheckB,
    /// One of the two journals.
    JournalA,
    /// The other journal.
    JournalB,
    /// Sealed pages of the slots as they were collected.
    Tier0,
    /// Sealed pages of the records of the first tier.
    Tier1,
    /// Sealed pages of the records of the second tier.
    Tier2,
    /// Sealed pages of the records of the third tier.
    Tier3,
    /// Sealed pages of the records of the fourth tier.
    Tier4,
}

impl File {
    ghost use Rattle.host_model.specs.Past.{file_number, is_same};

    /// The place of the file in the order of their names, from 0 to 8.
    pub fn number(self) -> usize
        ensures number { result ≡ file_number self }
        ensures below { result < 9 }
    {
        match self {
            File::CheckA => 0,
            File::CheckB => 1,
            File::JournalA => 2,
            File::JournalB => 3,
            File::Tier0 => 4,
            File::Tier1 => 5,
            File::Tier2 => 6,
            File::Tier3 => 7,
            File::Tier4 => 8,
        }
    }

    /// The file with this number.
    pub(crate) fn at(number: usize) -> File
        requires { number < 9 }
        ensures { file_number result ≡ number }
    {
        match number {
            0 => File::CheckA,
            1 => File::CheckB,
            2 => File::JournalA,
            3 => File::JournalB,
            4 => File::Tier0,
            5 => File::Tier1,
            6 => File::Tier2,
            7 => File::Tier3,
            _ => File::Tier4,
        }
    }

    /// Whether the two are one file.
    pub(crate) fn is(self, other: File) -> bool
        ensures { result ≡ is_same self other }
    {
        self.number() == other.number()
    }
}
