//! The charts and dimensions of a side, and those as bytes.
ghost use Rattle.std.specs.Prelude.{◌≡◌, ◌≤◌, ◌++◌, true, length, Ok, Err, IsTrue, IfOk, IfErr, OnOk, IsOkUnless};
ghost use Rattle.std.specs.List.{list_all};
ghost use Rattle.field_codec.specs.Lists.{IsRefusal};
ghost use Rattle.side_codec.specs.Definitions.{are_charts_numbered, are_few, are_registered, are_series_numbered, definitions_bytes, definitions_in, is_of_chart, keep_chart_limits, keep_dimension_limits, read_definitions, AreDefinitions};

use crate::side::Side;
use entry_codec::EntryFormat;
use field_codec::list::{put_list, take_list};
use field_codec::{FieldFault, Reader, Writer};
use history::{
    ChartList, DimensionList, MOST_CHARTS, MOST_DIMENSIONS, NumberedChart, NumberedDimension,
};
use std::alloc::Global;

/// The charts and dimensions of a side.
#[derive(Drop)]
pub(crate) struct Definitions {
    pub(crate) charts: ChartList,
    pub(crate) dimensions: DimensionList,
}

fn are_few(charts: &[NumberedChart], dimensions: &[NumberedDimension]) -> bool
    ensures { result ≡ are_few charts.now dimensions.now }
{
    charts.len() <= MOST_CHARTS as usize && dimensions.len() <= MOST_DIMENSIONS as usize
}

fn are_charts_numbered(charts: &[NumberedChart]) -> bool
    ensures { result ≡ are_charts_numbered charts.now }
{
    charts
        .iter()
        .enumerate()
        .all(|(place, chart)| chart.number as usize == place)
}

fn are_series_numbered(dimensions: &[NumberedDimension]) -> bool
    ensures { result ≡ are_series_numbered dimensions.now }
{
    dimensions
        .iter()
        .enumerate()
        .all(|(place, dimension)| dimension.series as usize == place)
}

fn are_of_charts(count: usize, dimensions: &[NumberedDimension]) -> bool
    ensures { result ≡ list_all (is_of_chart count) dimensions.now }
{
    dimensions
        .iter()
        .all(|dimension| (dimension.chart as usize) < count)
}

fn keep_chart_limits(charts: &[NumberedChart]) -> bool
    ensures { result ≡ keep_chart_limits charts.now }
{
    charts.iter().all(|chart| chart.def.keeps_limits())
}

fn keep_dimension_limits(dimensions: &[NumberedDimension]) -> bool
    ensures { result ≡ keep_dimension_limits dimensions.now }
{
    dimensions
        .iter()
        .all(|dimension| dimension.def.keeps_limits())
}

/// Whether charts and dimensions are few, numbered by their places, and keep their limits, and each
/// dimension is of a chart that is there.
#[tactic(auto, unfolding(crate::specs::Definitions::are_registered))]
pub(crate) fn are_registered(charts: &[NumberedChart], dimensions: &[NumberedDimension]) -> bool
    ensures { result ≡ are_registered charts.now dimensions.now }
{
    are_few(charts, dimensions)
        && are_charts_numbered(charts)
        && are_series_numbered(dimensions)
        && are_of_charts(charts.len(), dimensions)
        && keep_chart_limits(charts)
        && keep_dimension_limits(dimensions)
}

#[tactic(auto, unfolding(crate::specs::Definitions::definitions_bytes))]
pub(crate) fn put(side: &Side, writer: &mut Writer) -> Result<(), FieldFault>
    requires { are_registered side.now.charts side.now.dimensions ≡ true }
    ensures put { OnOk result
        (writer.new ≡ writer.old ++ definitions_bytes (definitions_in side.now)) }
    ensures definitions { OnOk result (AreDefinitions (definitions_in side.now)) }
    ensures memory { IsOkUnless result FieldFault.Memory }
{
    put_list::<EntryFormat, NumberedChart>(&side.charts, writer)?;
    put_list::<EntryFormat, NumberedDimension>(&side.dimensions, writer)
}

#[tactic(auto, unfolding(crate::specs::Definitions::read_definitions))]
pub(crate) fn take(alloc: Global, reader: &mut Reader<'_>) -> Result<Definitions, FieldFault>
    ensures taken { IfOk result
        (λ definitions. read_definitions reader.old ≡ Ok (definitions, reader.new)) }
    ensures charts { IfOk result (λ definitions. length definitions.charts ≤ MOST_CHARTS) }
    ensures dimensions { IfOk result
        (λ definitions. length definitions.dimensions ≤ MOST_DIMENSIONS) }
    ensures fault { IfErr result (IsRefusal (read_definitions reader.old)) }
{
    let charts = take_list::<EntryFormat, NumberedChart>(alloc, reader)?;
    let dimensions = take_list::<EntryFormat, NumberedDimension>(alloc, reader)?;
    if !are_registered(charts.as_slice(), dimensions.as_slice()) {
        return Err(FieldFault::Range);
    }
    Ok(Definitions { charts, dimensions })
}
