//! The tests of the commands `convert`, `run`, `query`, `collect`, `health` and `log`, and tests only: each file holds the
//! tables of one subject.
#![tactic(auto)]

#[cfg(test)]
mod alarms;
#[cfg(test)]
mod asked;
#[cfg(test)]
mod collect;
#[cfg(test)]
mod collect_crashes;
#[cfg(test)]
mod configurations;
#[cfg(test)]
mod convert;
#[cfg(test)]
mod delays;
#[cfg(test)]
mod faults;
#[cfg(test)]
mod health_examples;
#[cfg(test)]
mod health_sizes;
#[cfg(test)]
mod histories;
#[cfg(test)]
mod logs;
#[cfg(test)]
mod random;
#[cfg(test)]
mod replaced_crashes;
#[cfg(test)]
mod run;
#[cfg(test)]
mod steps;
#[cfg(test)]
mod stored;
#[cfg(test)]
mod usage;
