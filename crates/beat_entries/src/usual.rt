//! Definitions of which no more is told than a copy tells.
ghost use Rattle.std.specs.Prelude.{◌≡◌, IfOk};
ghost use Rattle.std.specs.List.{after_first};
ghost use Rattle.history.specs.Limits.{is_dot};
ghost use Rattle.beat_entries.specs.Copied.{full_chart, full_dimension, usual_chart, usual_dimension};

use entry_codec::{CopiedChart, CopiedDimension};
use fixed_num::Text;
use history::{
    Algorithm, ChartDef, ChartKind, DimDef, NumberedChart, NumberedDimension, USUAL_PRIORITY,
};
use std::alloc::{AllocError, Global};

/// The part of a chart's id behind its first dot, or nothing where it has no dot.
fn chart_part(id: &str) -> &str
    ensures { result.now ≡ after_first is_dot id.now }
{
    match id.split_once('.') {
        Some((_, part)) => part,
        None => "",
    }
}

/// The definition of a chart of which a copy tells this: its name and its family are the part of its id behind
/// the first dot, and what else there is is as usual.
pub fn usual_chart(
    alloc: Global,
    id: &Text,
    context: &Text,
    update_every: u32,
) -> Result<ChartDef, AllocError>
    ensures { IfOk result (λ def. def ≡ usual_chart id.now context.now update_every) }
{
    let part = chart_part(id.as_str());
    Ok(ChartDef {
        id: id.clone()?,
        name: Text::from_str(alloc, part)?,
        title: Text::new(alloc),
        units: Text::new(alloc),
        family: Text::from_str(alloc, part)?,
        context: context.clone()?,
        kind: ChartKind::Line,
        priority: USUAL_PRIORITY,
        update_every,
        store_first: false,
    })
}

/// The whole definition of a chart.
pub(crate) fn full_chart(alloc: Global, chart: &CopiedChart) -> Result<NumberedChart, AllocError>
    ensures { IfOk result (λ made. made ≡ full_chart chart.now) }
{
    Ok(NumberedChart {
        number: chart.number,
        def: usual_chart(alloc, &chart.id, &chart.context, chart.update_every)?,
    })
}

/// The definition of a dimension of which a copy tells this: its name is its id, and what else there is is as
/// usual.
pub fn usual_dimension(id: &Text, hidden: bool) -> Result<DimDef, AllocError>
    ensures { IfOk result (λ def. def ≡ usual_dimension id.now hidden) }
{
    Ok(DimDef {
        id: id.clone()?,
        name: id.clone()?,
        algorithm: Algorithm::Absolute,
        multiplier: 1,
        divisor: 1,
        hidden,
        noreset: false,
    })
}

/// The whole definition of a dimension.
pub(crate) fn full_dimension(dimension: &CopiedDimension) -> Result<NumberedDimension, AllocError>
    ensures { IfOk result (λ made. made ≡ full_dimension dimension.now) }
{
    Ok(NumberedDimension {
        series: dimension.series,
        chart: dimension.chart,
        def: usual_dimension(&dimension.id, dimension.hidden)?,
    })
}
