use crate::event::EventList;
use crate::state::KeptStateList;
use fixed_num::ByteList;

/// The most bytes of the health text.
pub(crate) const TEXT_LIMIT: usize = u32::MAX as usize;

/// The most states of alarms.
pub const MOST_STATES: usize = 65_536;

/// What is kept of the alarms of a history.
#[derive(Debug, Drop)]
pub struct KeptAlarms {
    /// The health text: at most `TEXT_LIMIT` bytes.
    pub text: ByteList,
    /// The states of alarms: at most `MOST_STATES`.
    pub states: KeptStateList,
    /// How many events came before those that the log shows.
    pub dropped: u64,
    /// The events that the log shows, at most `SHOWN`, the earliest first.
    pub events: EventList,
}
