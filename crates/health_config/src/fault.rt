ghost use Rattle.std.specs.Prelude.{◌≡◌};
ghost use Rattle.health_config.specs.Fault as spec;

use thiserror::Error;

/// Why a health text is refused. A line is counted from 1, as the first of those that it is joined
/// from.
#[derive(Clone, Copy, Debug, PartialEq, Eq, Error)]
pub enum ConfigFault {
    /// The line is no `key: value`, is not UTF-8, or its value is refused.
    #[error("line {0} cannot be read")]
    BadLine(u64),
    /// The line begins an entity without a name.
    #[error("line {0} names no entity")]
    NoName(u64),
    /// The entity that begins at the line does not say what it is on.
    #[error("the entity of line {0} is on nothing")]
    NoOn(u64),
    /// A duration of the line is none, or is out of its limits.
    #[error("line {0} has a bad duration")]
    BadDuration(u64),
    /// The line begins an entity behind `ENTITY_LIMIT` others.
    #[error("line {0} begins one entity too many")]
    TooManyAlarms(u64),
    /// The text has more than `TEXT_LIMIT` bytes.
    #[error("a health text is too long")]
    TextTooLong,
    /// There was no memory.
    #[error("out of memory")]
    Memory,
}

impl ConfigFault {
    /// The number that a refusal is told by. Out of memory is no refusal and has none.
    pub fn number(self) -> Option<u32>
        ensures { result ≡ spec.fault_number self }
    {
        match self {
            ConfigFault::BadLine(_) => Some(41),
            ConfigFault::NoName(_) => Some(42),
            ConfigFault::NoOn(_) => Some(43),
            ConfigFault::BadDuration(_) => Some(44),
            ConfigFault::TooManyAlarms(_) => Some(45),
            ConfigFault::TextTooLong => Some(46),
            ConfigFault::Memory => None,
        }
    }

    /// The line of a refusal, which is 0 for that of the text as a whole. Out of memory has none.
    pub fn line(self) -> Option<u64>
        ensures { result ≡ spec.fault_line self }
    {
        match self {
            ConfigFault::BadLine(line)
            | ConfigFault::NoName(line)
            | ConfigFault::NoOn(line)
            | ConfigFault::BadDuration(line)
            | ConfigFault::TooManyAlarms(line) => Some(line),
            ConfigFault::TextTooLong => Some(0),
            ConfigFault::Memory => None,
        }
    }
}

/// Why a value is refused, wherever it stands.
#[derive(Clone, Copy, Debug)]
pub enum ValueFault {
    /// It is not in the form of its key.
    Bad,
    /// An entity's name is empty.
    NoName,
    /// A duration is none, or is out of its limits.
    Duration,
    /// There was no memory.
    Memory,
}

impl ValueFault {
    /// The refusal of a value at a line.
    pub fn at(self, line: u64) -> ConfigFault
        ensures { result ≡ spec.at line self }
    {
        match self {
            ValueFault::Bad => ConfigFault::BadLine(line),
            ValueFault::NoName => ConfigFault::NoName(line),
            ValueFault::Duration => ConfigFault::BadDuration(line),
            ValueFault::Memory => ConfigFault::Memory,
        }
    }
}
