//! Sixty commands over one database of small quotas, and tests only. Each, and the session at the end, is run again
//! with each of its calls on the host refused in turn, and the host then crashes. What opens is the history before the
//! command, or with some of its beats behind it, at the least those that were told of. It has its floors, its answers
//! at each tier, its alarms and its log. The same is tried of a beat over quotas of one.
#![tactic(auto)]

#[cfg(test)]
mod commands;
#[cfg(test)]
mod files;
#[cfg(test)]
mod found;
#[cfg(test)]
mod lefts;
#[cfg(test)]
mod places;
#[cfg(test)]
mod readings;
#[cfg(test)]
mod runs;
#[cfg(test)]
mod seals;
#[cfg(test)]
mod sessions;
#[cfg(test)]
mod sweeps;
#[cfg(test)]
mod tests;
