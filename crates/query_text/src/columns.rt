ghost use Rattle.std.specs.Prelude.{◌≡◌, ◌<◌, [], ◌∷◌, ◌++◌, length, slice_get, All, if◌then◌else◌, IfOk, OnOk, IfSome, IsOkUnless};
ghost use Rattle.history.specs.Registry.{is_of};
ghost use Rattle.chart_registry.specs.Defining.{chart_id};
ghost use Rattle.query_text.specs.Shown.{is_shown, is_column, columns};

use crate::fault::QueryFault;
use crate::selection::accepts;
use chart_registry::Registry;
use history::DimDef;
use query_engine::SeriesList;
use simple_pattern::Pattern;
use std::alloc::{AllocError, Global};

/// Whether a dimension is of a chart.
fn is_of(registry: &Registry, chart: u32, series: u32) -> bool
    requires chart { chart < length registry.now.charts }
    requires series { series < length registry.now.dimensions }
    ensures { IfSome (slice_get registry.now.dimensions series)
        (λ dimension. result ≡ is_of (chart_id registry.now chart) dimension) }
{
    registry.chart(chart).id == registry.chart(registry.owner(series)).id
}

/// Whether a dimension is shown where its chart is asked.
fn is_shown(pattern: &Pattern, def: &DimDef) -> bool
    ensures { result ≡ is_shown pattern.now def.now }
{
    !def.hidden && (accepts(pattern, def.id.as_str()) || accepts(pattern, def.name.as_str()))
}

/// Whether a dimension is shown in a query of a chart.
fn is_column(registry: &Registry, chart: u32, pattern: &Pattern, series: u32) -> bool
    requires chart { chart < length registry.now.charts }
    requires series { series < length registry.now.dimensions }
    ensures { IfSome (slice_get registry.now.dimensions series)
        (λ dimension. result ≡ is_column (chart_id registry.now chart) pattern.now dimension) }
{
    is_of(registry, chart, series) && is_shown(pattern, registry.dimension(series))
}

/// Adds a dimension, where it is shown.
fn keep_column(found: &mut SeriesList, shown: bool, series: u32) -> Result<(), AllocError>
    ensures { OnOk result (found.new ≡ found.old ++ (if shown then series ∷ [] else [])) }
{
    if shown {
        found.push(series)?;
    }
    Ok(())
}

/// The dimensions that a query of a chart shows, by their numbers.
pub fn read_columns(
    alloc: Global,
    registry: &Registry,
    chart: u32,
    pattern: &Pattern,
) -> Result<SeriesList, QueryFault>
    requires { chart < length registry.now.charts }
    ensures columns { IfOk result
        (λ series. series ≡ columns registry.now (chart_id registry.now chart) pattern.now) }
    ensures within { IfOk result (All (λ series. series < length registry.now.dimensions)) }
    ensures memory { IsOkUnless result QueryFault.Memory }
{
    let mut found = SeriesList::new(alloc);
    for series in 0..registry.dimensions() {
        let shown = is_column(registry, chart, pattern, series);
        keep_column(&mut found, shown, series)?;
    }
    Ok(found)
}
