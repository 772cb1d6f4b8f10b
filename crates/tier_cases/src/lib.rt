//! The tests of what the tiers of a database keep, and tests only: the tiers of `beat_tiers`.
#![tactic(auto)]

#[cfg(test)]
mod tiers;
