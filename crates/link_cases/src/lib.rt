//! The tests of what goes over links, and tests only: the frames of `link_frames` as bytes, and the copies of
//! `replication`, by hand and over many schedules.
#![tactic(auto)]

#[cfg(test)]
mod copies;
#[cfg(test)]
mod frames;
