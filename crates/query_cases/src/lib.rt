//! The tests of `query_engine` over its public calls, and tests only: windows by hand, wide windows, and random
//! requests against the plain answer.
#![tactic(auto)]

#[cfg(test)]
mod windows;
