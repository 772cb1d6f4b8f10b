//! The events of alarms, their log, and the alarms of a history as bytes.
//!
//! An event says that the status of an alarm of a chart changed: when, from which of the six statuses to
//! which, with what value, and until when telling it is to wait. `write_event` is proved to give its
//! line. An `EventLog` keeps the last `SHOWN` events and the number of those before them, as one ring that
//! never grows: noting an event takes no memory, and the ids of events go on past those that are gone.
//!
//! `KeptAlarms` has the health text, the state of each alarm of a chart, the events that the log shows and the
//! number of those before them. Its spelling is the fields one after the other, and nothing follows. What is
//! written is the spelling, and what is read of bytes has them as its spelling: so alarms have one spelling,
//! two never share one, and what was written is read again. Bytes that are no spelling are refused. A list
//! grows with the items that are read, so that a count takes no memory by itself. `put_alarms` and
//! `take_alarms` write and read them among other fields.
//!
//! It stands on `health_expr` for values, on `fixed_num` for texts and numbers, on `field_codec` for the fields
//! and lists of bytes, and on the kit's `circular_buffer` for the ring.
#![tactic(auto)]

mod delay;
mod due;
mod event;
mod event_field;
mod fault;
mod format;
mod kept;
mod kept_fault;
mod law;
mod log;
mod reading;
mod short;
mod state;
mod status;
mod status_field;
mod value;
mod writing;

pub use delay::Delay;
pub use event::{Event, EventList, value_text, write_event};
pub use fault::AlarmFault;
pub use kept::{KeptAlarms, MOST_STATES};
pub use kept_fault::KeptFault;
pub use law::kept_alarms_round_trip;
pub use log::{EventLog, Log, SHOWN};
pub use reading::{read_alarms, take_alarms};
pub use short::is_short;
pub use state::{KeptState, KeptStateList};
pub use status::Status;
pub use writing::{put_alarms, write_alarms};
