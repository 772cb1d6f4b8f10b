//! The tests of lines with a registry, and tests only: collected texts and where they end, the lines that points are told
//! by, and questions and answers.
#![tactic(auto)]

#[cfg(test)]
mod feeds;
#[cfg(test)]
mod point_texts;
#[cfg(test)]
mod query_texts;
#[cfg(test)]
mod registries;
#[cfg(test)]
mod texts;
