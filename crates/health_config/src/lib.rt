//! The configuration of health: which alarms a text says, or why it is refused.
//!
//! A text is lines of `key: value`. Each `alarm` or `template` begins an entity, whose lines say what it is
//! on, what it looks up and computes, when it warns and how its events are delayed; for each key the last
//! line counts, and keys that are not known are skipped and counted. Such are the configurations of health
//! in Netdata's public documentation; the rules are made exact here.
//!
//! What a text says is one definition on its lines, `specs/Config.antt`: entities as groups of lines, the
//! one reading of each key's value, and the first refusal from the first line on. `Config::read` is proved
//! to give just that, with expressions as their trees, or to lack memory. It stands on `health_expr` for
//! expressions, `simple_pattern` for patterns and words, `words` for blanks and `fixed_num` for numbers and
//! texts.
#![tactic(auto)]

mod config;
mod delay;
mod draft;
mod entity;
mod fault;
mod key;
mod lines;
mod lookup;
mod number;
mod setting;
mod tally;

pub use config::{Config, TEXT_LIMIT};
pub use entity::{AlarmList, Entity, NAME_LIMIT};
pub use fault::ConfigFault;
pub use lookup::{Lookup, Method};
pub use number::LONGEST_DURATION;
