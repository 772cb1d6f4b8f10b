//! The tests of values, and tests only: settings, storage numbers, the words of rows, and the records of buckets. Each
//! file holds the tables of one subject.
#![tactic(auto)]

#[cfg(test)]
mod buckets;
#[cfg(test)]
mod row_words;
#[cfg(test)]
mod settings;
#[cfg(test)]
mod storage_words;
