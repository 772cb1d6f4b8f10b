ghost use Rattle.std.specs.Prelude.{◌≡◌, ◌<◌, ◌≤◌, ◌&&◌, length, count_by, find, slice_get, Option, Some, true, false, is_some, is_none, IfOk, IfSome, IfNone, OnOk, OnErr};
ghost use Rattle.std.specs.List.{list_any};
ghost use Rattle.std.specs.Option.{option_and_then, option_map};
ghost use Rattle.history.specs.Registry.{empty, is_chart, is_of, is_dimension, chart_of, series_of};
ghost use Rattle.history.specs.Refusal.{chart_refusal, dimension_refusal, dimensions_full};
ghost use Rattle.chart_registry.specs.Defining.{nothing_open, chart_id};
ghost use Rattle.chart_registry.specs.Changes.{IsChange};
ghost use Rattle.chart_registry.specs.Taking.{all_taken, is_number, takes_chart, takes_dimension, with_chart, with_charts, with_dimension, with_dimensions};
ghost use Rattle.history.specs.Registry.{Registry as Definitions};

use crate::changes::Change;
use crate::charts::{self, Chart};
use crate::defining;
use crate::dimensions::{self, Dimension};
use history::{
    ChartDef, DimDef, MOST_CHARTS, MOST_DIMENSIONS, MOST_DIMENSIONS_OF_CHART, NumberedChart,
    NumberedDimension,
};
use indexmap::IndexMap;
use std::alloc::{AllocError, Global};
use std::marker::Model;

/// The charts and dimensions of a history, which contracts see as their last definitions in the order
/// of their numbers.
#[derive(Drop)]
pub struct Registry {
    alloc: Global,
    charts: IndexMap<String, Chart>,
    dimensions: Vec<Dimension>,
}

impl Model for Registry {
    ghost use Rattle.history.specs.Registry.{Registry as Definitions};

    ghost Value = { Definitions };

    ghost use Rattle.chart_registry.specs.Kept.{definitions, IsRegistry};

    ghost view = { definitions };

    ghost invariant = { IsRegistry };
}

impl Registry {
    /// The registry without charts.
    pub fn new(alloc: Global) -> Registry
        ensures { result ≡ empty }
    {
        Registry {
            alloc,
            charts: IndexMap::new(alloc),
            dimensions: Vec::new(alloc),
        }
    }

    /// How many charts there are: at most 4,096.
    pub fn charts(&self) -> u32
        ensures value { result ≡ length self.now.charts }
        ensures few { result ≤ MOST_CHARTS }
    {
        self.charts.len() as u32
    }

    /// How many dimensions there are: at most 65,536.
    pub fn dimensions(&self) -> u32
        ensures value { result ≡ length self.now.dimensions }
        ensures few { result ≤ MOST_DIMENSIONS }
    {
        self.dimensions.len() as u32
    }

    /// The number of the chart with this id. A chart that is not there has no dimensions.
    pub fn chart_of(&self, id: &str) -> Option<u32>
        ensures value { result ≡ chart_of self.now id.now }
        ensures found { is_some result ≡ list_any (is_chart id.now) self.now.charts }
        ensures chart { option_and_then (slice_get self.now.charts) result
            ≡ find (is_chart id.now) self.now.charts }
        ensures id { IfSome result (λ number. chart_id self.now number ≡ id.now) }
        ensures within { IfSome result (λ number. number < length self.now.charts) }
        ensures unowned { IfNone result (list_any (is_of id.now) self.now.dimensions ≡ false) }
    {
        charts::number_of(&self.charts, id)
    }

    /// The definition of the chart with this number.
    pub fn chart(&self, number: u32) -> &ChartDef
        requires { number < length self.now.charts }
        ensures value { slice_get self.now.charts number ≡ Some result.now }
        ensures id { chart_id self.now number ≡ result.now.id }
        ensures number { chart_of self.now result.now.id ≡ Some number }
        ensures grid { 0 < result.now.update_every }
    {
        &charts::chart_at(&self.charts, number).def
    }

    /// How many dimensions the chart with this number has: at most 1,024.
    pub fn dimensions_of(&self, chart: u32) -> u32
        requires { chart < length self.now.charts }
        ensures value { result ≡ count_by (is_of (chart_id self.now chart)) self.now.dimensions }
        ensures few { result ≤ MOST_DIMENSIONS_OF_CHART }
    {
        charts::chart_at(&self.charts, chart).series.len() as u32
    }

    /// The series of a dimension by its id and its chart's number.
    pub fn series_of(&self, chart: u32, id: &str) -> Option<u32>
        requires { chart < length self.now.charts }
        ensures value { result ≡ series_of self.now (chart_id self.now chart) id.now }
        ensures found { is_some result
            ≡ list_any (is_dimension (chart_id self.now chart) id.now) self.now.dimensions }
        ensures within { IfSome result (λ series. series < length self.now.dimensions) }
    {
        charts::series_of(&self.charts, chart, id)
    }

    /// Whether the chart with this id has this number. Nothing is looked up.
    pub fn is_number_of(&self, number: u32, id: &str) -> bool
        ensures value { result ≡ is_number number (chart_of self.now id.now) }
        ensures within { result ≡ true → number < length self.now.charts }
        ensures chart { result ≡ true → chart_id self.now number ≡ id.now }
    {
        number < self.charts() && id == self.chart(number).id.as_str()
    }

    /// Whether the dimension with this id, of the chart with this number, has this series. Nothing is looked up.
    pub fn is_series_of(&self, series: u32, chart: u32, id: &str) -> bool
        requires { chart < length self.now.charts }
        ensures { result
            ≡ is_number series (series_of self.now (chart_id self.now chart) id.now) }
    {
        if series >= self.dimensions() {
            return false;
        }
        let dimension = &self.dimensions[series as usize];
        dimension.owner == chart && id == dimension.definition.def.id.as_str()
    }

    /// Whether the registry may take this chart by its number: the chart has an update_every and keeps its limits, and
    /// either it is the one with this number and has the same update_every there, or its number is the next one, its
    /// id is new and it is at most the 4,096th. Only a new id is looked up.
    pub fn takes_chart(&self, chart: &NumberedChart) -> bool
        ensures { result ≡ takes_chart self.now chart.now }
    {
        let def = &chart.def;
        def.update_every > 0 && def.keeps_limits() && self.has_place_for_chart(chart)
    }

    /// Whether a chart may be defined, and then has the number that it says.
    fn has_place_for_chart(&self, chart: &NumberedChart) -> bool
        ensures { result ≡ (is_none (chart_refusal self.now nothing_open chart.now.def)
            && is_number chart.now.number
            (chart_of (with_chart self.now chart.now) chart.now.def.id)) }
    {
        if chart.number < self.charts() {
            self.is_same_chart(chart)
        } else {
            self.is_next_chart(chart)
        }
    }

    /// The same, where there is a chart with this number.
    fn is_same_chart(&self, chart: &NumberedChart) -> bool
        requires { chart.now.number < length self.now.charts }
        ensures { result ≡ (is_none (chart_refusal self.now nothing_open chart.now.def)
            && is_number chart.now.number
            (chart_of (with_chart self.now chart.now) chart.now.def.id)) }
    {
        let update_every = self.chart(chart.number).update_every;
        self.is_number_of(chart.number, chart.def.id.as_str())
            && update_every == chart.def.update_every
    }

    /// The same, where there is no chart with this number yet.
    fn is_next_chart(&self, chart: &NumberedChart) -> bool
        requires { length self.now.charts ≤ chart.now.number }
        ensures { result ≡ (is_none (chart_refusal self.now nothing_open chart.now.def)
            && is_number chart.now.number
            (chart_of (with_chart self.now chart.now) chart.now.def.id)) }
    {
        if chart.number >= MOST_CHARTS {
            return false;
        }
        chart.number == self.charts() && self.chart_of(chart.def.id.as_str()).is_none()
    }

    /// Takes a chart by its number, in the place of its definition so far or behind all charts. After an `Err` all is
    /// as before. Nothing is looked up but what a new id needs to be kept.
    pub fn take_chart(&mut self, chart: &NumberedChart) -> Result<(), AllocError>
        requires { takes_chart self.old chart.now ≡ true }
        ensures taken { OnOk result (self.new ≡ with_chart self.old chart.now) }
        ensures unchanged { OnErr result (self.new ≡ self.old) }
    {
        let _change = self.change_chart(chart)?;
        Ok(())
    }

    /// The same, and tells what changed.
    pub(crate) fn change_chart(&mut self, chart: &NumberedChart) -> Result<Change, AllocError>
        requires { takes_chart self.old chart.now ≡ true }
        ensures ok { OnOk result (self.new ≡ with_chart self.old chart.now) }
        ensures change { IfOk result (λ change. IsChange self.old change self.new) }
        ensures err { OnErr result (self.new ≡ self.old) }
    {
        if chart.number < self.charts() {
            let def = chart.def.clone()?;
            let before = charts::exchange(&mut self.charts, chart.number, def);
            Ok(Change::ChartReplaced(chart.number, before))
        } else {
            charts::add(self.alloc, &mut self.charts, &chart.def)?;
            Ok(Change::ChartAdded)
        }
    }

    /// Whether there is no room for one more dimension, of this chart or at all.
    fn is_full(&self, chart: u32) -> bool
        requires { chart < length self.now.charts }
        ensures { result ≡ dimensions_full self.now nothing_open (chart_id self.now chart) }
    {
        self.dimensions_of(chart) >= MOST_DIMENSIONS_OF_CHART
            || self.dimensions() >= MOST_DIMENSIONS
    }

    /// Whether the registry may take this dimension by its numbers: its chart is there, it keeps its limits, and either
    /// it is the one with this series, or its series is the next number, its chart has no dimension with its id and
    /// there is room for it. Only a new id is looked up.
    pub fn takes_dimension(&self, dimension: &NumberedDimension) -> bool
        ensures { result ≡ takes_dimension self.now dimension.now }
    {
        dimension.chart < self.charts()
            && dimension.def.keeps_limits()
            && self.has_place_for_dimension(dimension)
    }

    /// Whether a dimension of a chart that is there may be defined, and then has the series that it says.
    fn has_place_for_dimension(&self, dimension: &NumberedDimension) -> bool
        requires { dimension.now.chart < length self.now.charts }
        ensures { result ≡ (is_none (dimension_refusal self.now nothing_open
            (chart_id self.now dimension.now.chart) dimension.now.def)
            && is_number dimension.now.series
            (series_of (with_dimension self.now dimension.now)
            (chart_id self.now dimension.now.chart) dimension.now.def.id)) }
    {
        if dimension.series < self.dimensions() {
            self.is_series_of(dimension.series, dimension.chart, dimension.def.id.as_str())
        } else {
            self.is_next_dimension(dimension)
        }
    }

    /// The same, where there is no dimension with this series yet.
    fn is_next_dimension(&self, dimension: &NumberedDimension) -> bool
        requires chart { dimension.now.chart < length self.now.charts }
        requires next { length self.now.dimensions ≤ dimension.now.series }
        ensures { result ≡ (is_none (dimension_refusal self.now nothing_open
            (chart_id self.now dimension.now.chart) dimension.now.def)
            && is_number dimension.now.series
            (series_of (with_dimension self.now dimension.now)
            (chart_id self.now dimension.now.chart) dimension.now.def.id)) }
    {
        if self.is_full(dimension.chart) {
            return false;
        }
        let id = dimension.def.id.as_str();
        dimension.series == self.dimensions() && self.series_of(dimension.chart, id).is_none()
    }

    /// Takes a dimension by its numbers, in the place of its definition so far or behind all dimensions. After an `Err`
    /// all is as before. Nothing is looked up but what a new id needs to be kept.
    pub fn take_dimension(&mut self, dimension: &NumberedDimension) -> Result<(), AllocError>
        requires { takes_dimension self.old dimension.now ≡ true }
        ensures taken { OnOk result (self.new ≡ with_dimension self.old dimension.now) }
        ensures unchanged { OnErr result (self.new ≡ self.old) }
    {
        let _change = self.change_dimension(dimension)?;
        Ok(())
    }

    /// The same, and tells what changed.
    pub(crate) fn change_dimension(
        &mut self,
        dimension: &NumberedDimension,
    ) -> Result<Change, AllocError>
        requires { takes_dimension self.old dimension.now ≡ true }
        ensures ok { OnOk result (self.new ≡ with_dimension self.old dimension.now) }
        ensures change { IfOk result (λ change. IsChange self.old change self.new) }
        ensures err { OnErr result (self.new ≡ self.old) }
    {
        let def = &dimension.def;
        if dimension.series < self.dimensions() {
            let after = def.clone()?;
            let before = dimensions::exchange(&mut self.dimensions, dimension.series, after);
            Ok(Change::DimensionReplaced(dimension.series, before))
        } else {
            dimensions::add(&mut self.charts, &mut self.dimensions, dimension.chart, def)?;
            Ok(Change::DimensionAdded)
        }
    }

    /// Takes a change back, which was the last.
    pub(crate) fn undo(&mut self, change: Change)
        requires { (before : Definitions) × IsChange before change self.old }
        ensures { (before : Definitions) → IsChange before change self.old → self.new ≡ before }
    {
        match change {
            Change::ChartAdded => charts::remove_last(&mut self.charts),
            Change::ChartReplaced(number, before) => {
                let _after = charts::exchange(&mut self.charts, number, before);
            }
            Change::DimensionAdded => {
                dimensions::remove_last(&mut self.charts, &mut self.dimensions);
            }
            Change::DimensionReplaced(series, before) => {
                let _after = dimensions::exchange(&mut self.dimensions, series, before);
            }
        }
    }

    /// Takes charts and then dimensions by their numbers, all of them or none: each may be taken behind those before
    /// it. After an `Err` all is as before.
    pub fn take_definitions(
        &mut self,
        charts: &[NumberedChart],
        dimensions: &[NumberedDimension],
    ) -> Result<(), AllocError>
        requires charts { all_taken takes_chart with_chart self.old charts.now ≡ true }
        requires dimensions { all_taken takes_dimension with_dimension
            (with_charts self.old charts.now) dimensions.now ≡ true }
        ensures taken { OnOk result
            (self.new ≡ with_dimensions (with_charts self.old charts.now) dimensions.now) }
        ensures unchanged { OnErr result (self.new ≡ self.old) }
    {
        let mut changes = Vec::new(self.alloc);
        match defining::define(self, charts, dimensions, &mut changes) {
            Ok(()) => Ok(()),
            Err(error) => {
                defining::undo_all(self, changes);
                Err(error)
            }
        }
    }

    /// The definition of the dimension with this series.
    pub fn dimension(&self, series: u32) -> &DimDef
        requires { series < length self.now.dimensions }
        ensures value { option_map (λ dimension. dimension.def)
            (slice_get self.now.dimensions series) ≡ Some result.now }
        ensures series { IfSome (slice_get self.now.dimensions series)
            (λ dimension. series_of self.now dimension.chart dimension.def.id ≡ Some series) }
    {
        &self.dimensions[series as usize].definition.def
    }

    /// The number of the chart of the dimension with this series.
    pub fn owner(&self, series: u32) -> u32
        requires { series < length self.now.dimensions }
        ensures value { IfSome (slice_get self.now.dimensions series)
            (λ dimension. chart_of self.now dimension.chart ≡ Some result) }
        ensures id { option_map (λ dimension. dimension.chart)
            (slice_get self.now.dimensions series) ≡ Some (chart_id self.now result) }
        ensures within { result < length self.now.charts }
    {
        self.dimensions[series as usize].owner
    }
}
