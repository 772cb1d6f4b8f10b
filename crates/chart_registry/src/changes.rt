use history::{ChartDef, DimDef};

/// What a definition changed in a registry, so that it can be taken back.
#[derive(Drop)]
pub(crate) enum Change {
    /// A chart was added.
    ChartAdded,
    /// The chart with this number had this definition.
    ChartReplaced(u32, ChartDef),
    /// A dimension was added.
    DimensionAdded,
    /// The dimension with this series had this definition.
    DimensionReplaced(u32, DimDef),
}
