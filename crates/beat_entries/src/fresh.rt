ghost use Rattle.std.specs.Prelude.{◌≡◌, filter, IfOk};
ghost use Rattle.history.specs.Refusal.{is_new_chart, is_new_dimension};
ghost use Rattle.history.specs.Registry.{same_chart, same_dimension};
ghost use Rattle.history.specs.Regular.{AreApart};

use chart_registry::{ChartTable, DimensionTable, Registry, is_new_chart, is_new_dimension};
use history::{ChartDef, OpenBeat, OpenDim};
use std::alloc::{AllocError, Global};

/// What a beat defines anew, which hashes find.
#[derive(Drop)]
pub(crate) struct Fresh {
    /// The charts that the registry does not have.
    pub(crate) charts: ChartTable,
    /// The dimensions that the registry does not have.
    pub(crate) dimensions: DimensionTable,
}

fn fresh_charts(
    alloc: Global,
    registry: &Registry,
    charts: &[ChartDef],
) -> Result<ChartTable, AllocError>
    requires { AreApart same_chart charts.now }
    ensures { IfOk result (λ table. table ≡ filter (is_new_chart registry.now) charts.now) }
{
    let mut table = ChartTable::new(alloc);
    for def in charts {
        if is_new_chart(registry, def) {
            table.define(def.clone()?)?;
        }
    }
    Ok(table)
}

fn fresh_dimensions(
    alloc: Global,
    registry: &Registry,
    dimensions: &[OpenDim],
) -> Result<DimensionTable, AllocError>
    requires { AreApart same_dimension dimensions.now }
    ensures { IfOk result (λ table. table ≡ filter (is_new_dimension registry.now) dimensions.now) }
{
    let mut table = DimensionTable::new(alloc);
    for dimension in dimensions {
        if is_new_dimension(registry, dimension) {
            table.define(OpenDim {
                chart: dimension.chart.clone()?,
                def: dimension.def.clone()?,
            })?;
        }
    }
    Ok(table)
}

impl Fresh {
    ghost use Rattle.beat_entries.specs.Fresh.{IsFreshOf};

    /// What of the beat the registry does not have. It takes memory only for that.
    pub(crate) fn new(
        alloc: Global,
        registry: &Registry,
        beat: &OpenBeat,
    ) -> Result<Fresh, AllocError>
        requires charts { AreApart same_chart beat.now.charts }
        requires dimensions { AreApart same_dimension beat.now.dimensions }
        ensures { IfOk result (IsFreshOf registry.now beat.now) }
    {
        Ok(Fresh {
            charts: fresh_charts(alloc, registry, beat.charts.as_slice())?,
            dimensions: fresh_dimensions(alloc, registry, beat.dimensions.as_slice())?,
        })
    }
}
