//! The tests of what a configuration of alarms says, and tests only: its lines and entities, its expressions, and the
//! events of alarms as lines and as bytes.
#![tactic(auto)]

#[cfg(test)]
mod configurations;
#[cfg(test)]
mod events;
#[cfg(test)]
mod expressions;
