//! The tests of `store_core`, and tests only: databases in memory that are made, opened and crash, and views that answer
//! as plain lists do.
#![tactic(auto)]

#[cfg(test)]
mod tests;
