//! The tests of texts, and tests only: numbers and lists, words and patterns, limits, and the lines of collectors. Each
//! file holds the tables of one subject.
#![tactic(auto)]

#[cfg(test)]
mod limits;
#[cfg(test)]
mod numbers;
#[cfg(test)]
mod patterns;
#[cfg(test)]
mod plugin_lines;
#[cfg(test)]
mod plugin_pieces;
#[cfg(test)]
mod texts_and_lists;
#[cfg(test)]
mod word_cuts;
