//! The tests of which databases an agent opens, and tests only: bytes by hand of their sides, notes and journals, on a
//! host in memory.
#![tactic(auto)]

#[cfg(test)]
mod tests;
