//! What a collector's text says, and the history that it leads to: plain values and their definitions.
//!
//! A `Line` is one line as it was read, an `OpenBeat` what lines say between two moments, and a `NumberedBeat`
//! the same by the numbers of a registry. Whether a definition keeps its limits is told by
//! `ChartDef::keeps_limits` and `DimDef::keeps_limits`. The definitions say, by looking back over the lines
//! before, which line may follow, what the beat of a MOMENT is, which charts and dimensions a history has,
//! and which points its values give. No function of the agent does these things here; the crates above are
//! proved to do them.
#![tactic(auto)]

mod beat;
mod chart;
mod dimension;
mod fault;
mod limits;
mod line;
mod numbered;
mod row;

pub use beat::{
    ChartDefList, OpenBeat, OpenDim, OpenDimList, OpenRow, OpenRowList, OpenValue, OpenValueList,
};
pub use chart::{ChartDef, ChartKind, USUAL_PRIORITY, USUAL_UPDATE_EVERY};
pub use dimension::{Algorithm, DimDef};
pub use fault::BlockFault;
pub use limits::{
    FACTOR_LIMIT, ID_LIMIT, MOST_CHARTS, MOST_DIMENSIONS, MOST_DIMENSIONS_OF_CHART, TEXT_LIMIT,
    UPDATE_EVERY_LIMIT, is_chart_id, is_id,
};
pub use line::Line;
pub use numbered::{ChartList, DimensionList, NumberedBeat, NumberedChart, NumberedDimension};
pub use row::{Row, RowList, Value, ValueList};
