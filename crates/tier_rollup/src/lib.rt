//! A tier of the store: the points of each bucket of time come to one record.
//!
//! A bucket of a tier of width w is a span of w seconds: bucket b has the moments from b * w to before
//! (b + 1) * w. Its record is the minimum, the maximum and the sum of the units of its points, their
//! count and how many of them are anomalous. A `Roller` takes points in the order of their moments and
//! keeps the record of the last bucket alone, by adding. It hands the record out once the bucket is
//! over: at the first point past it, or when it is asked to close what ends before a moment.
//!
//! The definitions read the whole list of the points, latest first, and never what the roller keeps:
//! the record of a bucket is that of all of its members. Proved is that each bucket that has points is
//! handed out once or still open, that its record is the definition's, and that a roller resumed from
//! an open record is the one that was left. No sum and no count comes near its limit where a list of
//! points stands behind the roller; where none does, they stop at the limit.
//!
//! The crate stands on the numbers of `fixed_num`, and takes no memory.
#![tactic(auto)]

mod law;
mod point;
mod record;
mod roller;
mod rolling;

pub use law::{buckets_are_named_once, moments_have_one_bucket, records_grow_by_one_point};
pub use point::{Point, PointList};
pub use record::with_value;
pub use roller::Roller;
