//! The tests of bytes and of pages, and tests only: fields, entries, sides and bodies as bytes, checkpoints in their
//! two files, and pages. Each file has the tests of one subject.
#![tactic(auto)]

#[cfg(test)]
mod bodies;
#[cfg(test)]
mod cached_pages;
#[cfg(test)]
mod checkpoints;
#[cfg(test)]
mod entries;
#[cfg(test)]
mod fields;
#[cfg(test)]
mod raw_pages;
#[cfg(test)]
mod series_pages;
#[cfg(test)]
mod sides;
