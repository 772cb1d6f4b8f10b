//! How an alarm of a chart stands.
ghost use Rattle.std.specs.Prelude.{◌≡◌};
ghost use Rattle.alarm_events.specs.Status as spec;

/// How an alarm of a chart stands, from the lowest to the highest.
#[derive(Clone, Copy, Debug, PartialEq, Eq)]
pub enum Status {
    /// It is not wanted any more, or is another alarm now.
    Removed,
    /// Nothing can be said: its value is nan or inf, or neither its `warn` nor its `crit` is there and worth a
    /// number or inf.
    Undefined,
    /// It was not computed yet.
    Uninitialized,
    /// All is well.
    Clear,
    /// Its `warn` holds, and its `crit` does not or is not there.
    Warning,
    /// Its `crit` holds.
    Critical,
}

impl Status {
    /// The number that it is kept by: the value of its variable in expressions plus 2, which is 0 to 6 without 4.
    pub fn number(self) -> u8
        ensures { result ≡ spec.number self }
    {
        match self {
            Status::Removed => 0,
            Status::Undefined => 1,
            Status::Uninitialized => 2,
            Status::Clear => 3,
            Status::Warning => 5,
            Status::Critical => 6,
        }
    }

    /// The status that is kept by this number. `None` where none is.
    pub fn of(number: u8) -> Option<Status>
        ensures { result ≡ spec.status_of number }
    {
        match number {
            0 => Some(Status::Removed),
            1 => Some(Status::Undefined),
            2 => Some(Status::Uninitialized),
            3 => Some(Status::Clear),
            5 => Some(Status::Warning),
            6 => Some(Status::Critical),
            _ => None,
        }
    }

    /// The name that it is shown by.
    pub fn name(self) -> &'static str
        ensures { result.now ≡ spec.name self }
    {
        match self {
            Status::Removed => "REMOVED",
            Status::Undefined => "UNDEFINED",
            Status::Uninitialized => "UNINITIALIZED",
            Status::Clear => "CLEAR",
            Status::Warning => "WARNING",
            Status::Critical => "CRITICAL",
        }
    }

    /// Whether it is `Warning` or `Critical`.
    pub fn is_raised(self) -> bool
        ensures { result ≡ spec.is_raised self }
    {
        matches!(self, Status::Warning | Status::Critical)
    }
}
