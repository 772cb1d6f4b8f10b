use crate::chart::ChartDef;
use crate::dimension::DimDef;
use crate::row::RowList;
use fixed_num::ListOf;

/// Charts by number.
pub type ChartList = ListOf<NumberedChart>;

/// Dimensions by number.
pub type DimensionList = ListOf<NumberedDimension>;

/// The definition of a chart, with the number that its registry gave it.
#[derive(Debug, Drop)]
pub struct NumberedChart {
    pub number: u32,
    pub def: ChartDef,
}

/// The definition of a dimension, with the numbers that its registry gave it and its chart.
#[derive(Debug, Drop)]
pub struct NumberedDimension {
    pub series: u32,
    pub chart: u32,
    pub def: DimDef,
}

/// A beat that collectors told, by number: what it defined, and the rows of its charts. Each list is in the
/// order of its numbers, each number once.
#[derive(Debug, Drop)]
pub struct NumberedBeat {
    pub moment: u32,
    pub charts: ChartList,
    pub dimensions: DimensionList,
    pub rows: RowList,
}
