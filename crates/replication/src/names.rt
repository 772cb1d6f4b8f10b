use fixed_num::{ListOf, Text};

/// Charts by name, in the order of their numbers.
pub type ChartNameList = ListOf<ChartName>;

/// Dimensions by name, in the order of their numbers.
pub type DimNameList = ListOf<DimName>;

/// What a copy keeps of the definition of a chart.
#[derive(Debug, Drop)]
pub struct ChartName {
    /// The chart's id, of 1 to 200 bytes.
    pub id: Text,
    /// The chart's context, of at most 200 bytes.
    pub context: Text,
    /// The seconds between two values, 1 to 86,400.
    pub update_every: u32,
}

/// What a copy keeps of the definition of a dimension.
#[derive(Debug, Drop)]
pub struct DimName {
    /// The place of its chart in the list of charts, from 0.
    pub chart: u32,
    /// The dimension's id, of 1 to 200 bytes.
    pub id: Text,
    /// Whether charts are drawn without it.
    pub hidden: bool,
}

/// The names of series: a series has the number of the place of its dimension, from 0.
#[derive(Debug, Drop)]
pub struct Names {
    /// The charts of the dimensions.
    pub charts: ChartNameList,
    /// The dimensions, each with the place of its chart.
    pub dimensions: DimNameList,
}
