//! The alarms of charts: which are computed, how they stand, and what is told of them.
//!
//! `Alarms` has the alarms of a configuration, their states for each chart, and the log of events. `configure`
//! takes another configuration, `step` a beat, and `step_again` one that defines no chart and no dimension;
//! `from_kept` takes again what `keep` gave. What they leave and tell is proved to be what the definitions in
//! `specs/` say of the alarms before (`Course.antt`). Points are read from an object that is `Points`, which may be
//! silent. A lookup reads tier 0 alone, and its sums are exact.
//!
//! Only a configuration, or a `step` behind which charts are more or named otherwise, pairs alarms and charts anew.
//! Else a beat costs by the alarms that have a chart and the states that are due.
//!
//! It stands on `health_config`, `health_expr`, `alarm_events` for events and what is kept, `chart_registry`, and
//! `query_engine` and `storage_number` for points.
#![tactic(auto)]

mod alarms;
mod beats;
mod by_chart;
mod charts;
mod delay;
mod dimension;
mod expr_words;
mod fault;
mod gather;
mod keep;
mod latest;
mod law;
mod lookup;
mod number;
mod pairing;
mod pairs;
mod record;
mod restore;
mod runs;
mod same;
mod scene;
mod series;
mod sight;
mod state;
mod step;
mod telling;
mod variable;
mod verdict;
mod window;

pub use alarm_events::{Delay, Event, EventList, Log, Status, write_event};
pub use alarms::Alarms;
pub use fault::{AlarmFault, RestoreFault};
pub use latest::{Latest, SeriesPointList, SeriesValueList};
pub use law::{alarms_stay_whole, short_alarms};
pub use pairs::{MOST_PAIRS, Pair, PairList, wanted_pairs};
