use fixed_num::{ListOf, Units};

/// A cell for each series of a request, in its order. `None` is null.
pub type CellList = ListOf<Option<Units>>;

/// The rows of a table, by their windows.
pub type TableRowList = ListOf<TableRow>;

/// What one window comes to.
#[derive(Debug, Drop)]
pub struct TableRow {
    /// Where the window starts, in seconds. It may lie past all moments.
    pub start: u64,
    /// Numbers of ten-millionths, counts and percentages too.
    pub cells: CellList,
}

/// An answer: a row for each window.
#[derive(Debug, Drop)]
pub struct Table {
    pub rows: TableRowList,
}
