//! The agent of one history: the beats of a collector or a child go in, and the database on the disk stands for
//! just the beats that were stored.
//!
//! Over an honest host a crash leaves at every moment of a call the history with the first of the beats that it
//! adds, and at `Ok` with all. `beat`, `line`, `set_health` and `take` are refused exactly where the history
//! refuses, for the first reason, and change nothing then. `create` and `open` give the agent of each history
//! that the disk stands for, and `open` writes nothing. `query`, `log`, `ask` and `data` answer by definitions
//! over all beats. A history collects, or copies one child. Once a call that takes the agent for itself has had
//! `DiskFault` or `Memory`, each such call gives the first cause: the agent must be opened again. Each call
//! promises one record (`specs/Calls.antt`); the law `calls_keep_an_agent_sound` stands on these alone. At every moment
//! each file of the database stays within its share, by the gaps that the agent has
//! (`calls_stay_within_shares`).
//!
//! It stands on `store_core`, `collect_block`, `chart_registry`, `beat_points`, `beat_entries`, `query_engine`,
//! `query_text`, `alarm_core` and `replication`.
#![tactic(auto)]

mod agent;
mod alarming;
mod answering;
mod asking;
mod copying;
mod fault;
mod gaps;
mod keeping;
mod last_seen;
mod law;
mod left;
mod names;
mod notes;
mod points;
mod replaying;
mod reply;
mod side;
mod storing;
mod used;

pub use agent::Agent;
pub use alarm_core::{Event, EventList, Latest, Log, Status, write_event};
pub use fault::{AgentFault, NOTE_PART, OpenFault};
pub use health_config::ConfigFault;
pub use law::{
    accepted_text_keeps_the_rules, calls_keep_an_agent_sound, calls_stay_within_shares,
    copy_stays_a_copy, history_notes_go_on, log_shows_all_events, tiers_see_the_points,
};
pub use replication::{Ask, Data, Verdict};
pub use reply::{Reply, Said, write_reply};
pub use store_core::{CreateFault, Kept, KeptBeat, KeptBeatList, KeptPoint, KeptPointList, Why};
pub use tier_settings::{Settings, is_in_limits};
