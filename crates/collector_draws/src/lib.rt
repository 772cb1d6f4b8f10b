//! A test of collectors by random children, and that alone: what the children write, their ends,
//! the clock and the cuts between pieces are drawn. What a runner puts is compared with its rules
//! written once more, and what `collect` tells with what `run` tells of the text that these rules
//! give.
#![tactic(auto)]

#[cfg(test)]
mod tests;
