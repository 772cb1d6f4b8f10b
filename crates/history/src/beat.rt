use crate::chart::ChartDef;
use crate::dimension::DimDef;
use fixed_num::{ListOf, Text};

/// Definitions of charts.
pub type ChartDefList = ListOf<ChartDef>;

/// Definitions of dimensions, each with its chart.
pub type OpenDimList = ListOf<OpenDim>;

/// Values of one row.
pub type OpenValueList = ListOf<OpenValue>;

/// Rows of one beat.
pub type OpenRowList = ListOf<OpenRow>;

/// The definition of a dimension, with the id of its chart.
#[derive(Debug, Drop)]
pub struct OpenDim {
    pub chart: Text,
    pub def: DimDef,
}

/// A value that was collected for a dimension.
#[derive(Debug, Drop)]
pub struct OpenValue {
    pub id: Text,
    pub value: i64,
    /// Whether the collector marked it.
    pub anomalous: bool,
}

/// What one block collected for a chart: the dimensions that it set, each once.
#[derive(Debug, Drop)]
pub struct OpenRow {
    pub chart: Text,
    pub values: OpenValueList,
}

/// What a collector's text says between two moments: each thing that it defines once, and at most one
/// row for each chart.
#[derive(Debug, Drop)]
pub struct OpenBeat {
    pub charts: ChartDefList,
    pub dimensions: OpenDimList,
    pub rows: OpenRowList,
}
