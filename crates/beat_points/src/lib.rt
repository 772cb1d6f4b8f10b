//! The points that a collected beat gives.
//!
//! `LastRows` has the last row in which each series was set, by the number that the registry gives it. From
//! these, `points` works out the storage number of each dimension that a beat sets, by ascending series, and
//! `apply` then takes the beat's rows. Both take a numbered beat, look nothing up by its text, and sort what
//! the beat sets once; none goes through the whole registry. Both are proved to be what the definitions of
//! `history` say of the open beat that was numbered, after every history whose values lie before the beat. The
//! registry has the beat's own definitions already. What is taken is regular, as each beat is that a text of
//! accepted lines closes, by the law `accepted_text_is_regular`.
//!
//! The crate stands on the numbers of `chart_registry` and on the words of a row of `algorithms`.
#![tactic(auto)]

mod fault;
mod giving;
mod last_rows;
mod law;
mod samples;
mod series_word;
mod taking;

pub use fault::PointFault;
pub use last_rows::LastRows;
pub use law::{accepted_text_is_regular, beat_adds_its_points, values_lie_before_later_moments};
pub use series_word::{SeriesWord, SeriesWordList};
