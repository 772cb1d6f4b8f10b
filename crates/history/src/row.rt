use fixed_num::ListOf;

/// Values of one row, by number.
pub type ValueList = ListOf<Value>;

/// Rows of one beat, by number.
pub type RowList = ListOf<Row>;

/// A value that was collected for a dimension.
#[derive(Debug, Drop)]
pub struct Value {
    /// The number of the dimension.
    pub series: u32,
    pub value: i64,
    /// Whether the collector marked it.
    pub anomalous: bool,
}

/// What one block collected for a chart: the dimensions that it set, each once.
#[derive(Debug, Drop)]
pub struct Row {
    /// The number of the chart.
    pub chart: u32,
    pub values: ValueList,
}
