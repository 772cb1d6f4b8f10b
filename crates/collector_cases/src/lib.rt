//! The tests of what collects lines, and tests only: the texts of `line_stream`, and of `plugin_runner` the turns of a
//! runner and whole runs.
#![tactic(auto)]

#[cfg(test)]
mod collecting;
#[cfg(test)]
mod runners;
#[cfg(test)]
mod streams;
