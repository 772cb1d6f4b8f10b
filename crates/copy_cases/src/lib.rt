//! The tests of `send` and `receive`, and tests only: a child's database and a parent's, each over
//! an outside in memory, speak in turn, and once over a connection of the system. What each says is compared
//! with frames written once more, and what a parent answers in the end with what the child was given.
#![tactic(auto)]

#[cfg(test)]
mod tests;
