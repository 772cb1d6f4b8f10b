//! The charts and dimensions of a history, each with its number.
//!
//! A `Registry` numbers charts, and all their dimensions together, in the order of their first
//! definitions, from 0; the number of a dimension is that of its series. A later definition of the same
//! chart or dimension replaces the one before and keeps the number. Definitions are taken by number: `takes_chart` and
//! `takes_dimension` say which may be, and are proved to say what the definitions of `history` say: a chart keeps its
//! update_every, and there are at most 4,096 charts, 1,024 dimensions of one chart and 65,536 in all. What is known by
//! its number is compared there, and only a new id is looked up, by a hash. Of a list all definitions are taken or
//! none, also where memory runs out. No call goes through all charts or dimensions.
//!
//! A `ChartTable` and a `DimensionTable` have the definitions of a beat that is not in the registry yet,
//! and find them by hashes too.
#![tactic(auto)]

mod changes;
mod chart_table;
mod charts;
mod defining;
mod dimension_table;
mod dimensions;
mod known;
mod registry;

pub use chart_table::ChartTable;
pub use dimension_table::DimensionTable;
pub use known::{
    is_known_dimension, is_known_dimension_at, is_new_chart, is_new_dimension, is_off,
    known_dimensions_of, known_update_every, new_charts, new_dimensions, new_dimensions_of,
};
pub use registry::Registry;
