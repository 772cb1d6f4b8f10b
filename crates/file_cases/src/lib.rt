//! The tests of files and what stands in them, and tests only: the objects in memory of `host_model`, the journals of
//! `journal_core`, the extents of `extent_file`, the files of a database, and the items of tiers
//! as pages.
#![tactic(auto)]

#[cfg(test)]
mod databases;
#[cfg(test)]
mod extents;
#[cfg(test)]
mod hosts;
#[cfg(test)]
mod journals;
#[cfg(test)]
mod pages;
