//! Algorithms: the points that the values of a row give.
//!
//! Each dimension of a chart has an algorithm: the value as it is, its rise in a second, or its share in
//! the sum of the row's values or of the row's rises. `row_points` works out the storage number of each
//! value of a row from the value, the last one before it and the dimension's definition, exactly as the
//! definitions of `history` say: the fraction is exact, and packed once. All of it is integer arithmetic
//! in 128 bits, and no sum or product comes near their limit. A call takes memory for its result and for
//! one list of samples that it gives back.
//!
//! `row_points` is made of two parts. `sample_of` joins a value, its last row and its dimension's
//! definition to a `Sample`, and `sample_words` gives the words of a row's samples. A caller that has the
//! definitions by reference calls these two, and makes no list of definitions.
//!
//! The crate stands on the values and definitions of `history`, and on the packing of `storage_number`.
#![tactic(auto)]

mod fault;
mod last;
mod law;
mod row;
mod sample;
mod total;
mod word;

pub use fault::AlgoFault;
pub use last::{Last, LastList};
pub use law::{cells_follow_the_history, last_rows_follow_the_history};
pub use row::{DimList, ROW_LIMIT, WordList, row_points, sample_words};
pub use sample::{Earlier, Sample, sample_of};
