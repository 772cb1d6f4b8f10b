//! Whether no name of a `Data` stands twice.
ghost use Rattle.std.specs.Prelude.{◌↔◌, IfOk, IsTrue};
ghost use Rattle.std.specs.List.{IsDistinct};
ghost use Rattle.link_frames.specs.DataForm.{same_chart, same_dimension, AreApart};

use replication::{ChartName, DimName, Names};
use std::alloc::{AllocError, Global};
use std::collections::BTreeSet;

/// Whether no two charts have one id.
fn are_charts_apart(alloc: Global, charts: &[ChartName]) -> Result<bool, AllocError>
    ensures { IfOk result (λ apart. IsTrue apart ↔ IsDistinct same_chart charts.now) }
{
    let mut seen = BTreeSet::new(alloc);
    for chart in charts {
        if !seen.insert(chart.id.as_str())? {
            return Ok(false);
        }
    }
    Ok(true)
}

/// Whether no two dimensions of one chart have one id.
fn are_dimensions_apart(alloc: Global, dimensions: &[DimName]) -> Result<bool, AllocError>
    ensures { IfOk result (λ apart. IsTrue apart ↔ IsDistinct same_dimension dimensions.now) }
{
    let mut seen = BTreeSet::new(alloc);
    for dimension in dimensions {
        if !seen.insert((dimension.chart, dimension.id.as_str()))? {
            return Ok(false);
        }
    }
    Ok(true)
}

/// Whether no name stands twice.
pub(crate) fn are_apart(alloc: Global, names: &Names) -> Result<bool, AllocError>
    ensures { IfOk result (λ apart. IsTrue apart ↔ AreApart names.now) }
{
    Ok(
        are_charts_apart(alloc, names.charts.as_slice())?
            && are_dimensions_apart(alloc, names.dimensions.as_slice())?,
    )
}
