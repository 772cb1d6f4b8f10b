ghost use Rattle.std.specs.Prelude.{◌≡◌, ◌≤◌, ◌%◌, ◌==◌, ◌&&◌, false, not, nat_lt, length, count_by, find, OnOk, OnErr};
ghost use Rattle.std.specs.List.{list_any};
ghost use Rattle.std.specs.Option.{option_map, option_map_or};
ghost use Rattle.chart_registry.specs.Defining.{nothing_open};
ghost use Rattle.history.specs.Refusal.{chart_now, has_chart, has_dimension, is_new_chart, is_new_dimension, charts_full, chart_refusal, dimension_refusal, is_off_grid, is_empty};
ghost use Rattle.history.specs.Put.{put};
ghost use Rattle.history.specs.Registry.{Registry as Definitions, is_chart, is_of, is_dimension, same_chart, same_dimension};
ghost use Rattle.history.specs.declared.chart.ChartDef.{ChartDef as ChartDefinition};
ghost use Rattle.history.specs.declared.dimension.DimDef.{DimDef as DimDefinition};
ghost use Rattle.collect_block.specs.BeatTables.{beat_of, chart_full, all_full, CountsNew};

use crate::count_table::{CountTable, raised};
use crate::row_table::RowTable;
use chart_registry::{
    ChartTable, DimensionTable, Registry, is_known_dimension_at, is_off, known_dimensions_of,
    known_update_every, new_charts, new_dimensions, new_dimensions_of,
};
use history::{
    BlockFault, ChartDef, MOST_CHARTS, MOST_DIMENSIONS, MOST_DIMENSIONS_OF_CHART, OpenBeat,
    OpenDim, OpenRow,
};
use std::alloc::{AllocError, Global};

/// The open beat of a text. It counts those of its definitions that the registry did not have: of the
/// charts, of the dimensions, and of the dimensions of each chart.
#[derive(Drop)]
pub(crate) struct BeatTables {
    pub(crate) charts: ChartTable,
    pub(crate) dimensions: DimensionTable,
    pub(crate) rows: RowTable,
    counted_charts: usize,
    counted_dimensions: usize,
    counted_of: CountTable,
}

impl BeatTables {
    pub(crate) fn new(alloc: Global) -> BeatTables
        ensures beat { beat_of result ≡ nothing_open }
        ensures counts { (registry : Definitions) → CountsNew result registry }
    {
        BeatTables {
            charts: ChartTable::new(alloc),
            dimensions: DimensionTable::new(alloc),
            rows: RowTable::new(alloc),
            counted_charts: 0,
            counted_dimensions: 0,
            counted_of: CountTable::new(alloc),
        }
    }

    /// Whether it says nothing.
    pub(crate) fn is_empty(&self) -> bool
        ensures { result
            ≡ (is_empty self.now.charts && is_empty self.now.dimensions && is_empty self.now.rows) }
    {
        self.charts.as_slice().is_empty()
            && self.dimensions.as_slice().is_empty()
            && self.rows.as_slice().is_empty()
    }

    /// Takes the beat out, and leaves none.
    pub(crate) fn close(&mut self) -> OpenBeat
        ensures closed { result ≡ beat_of self.old }
        ensures left { beat_of self.new ≡ nothing_open }
        ensures counts { (registry : Definitions) → CountsNew self.new registry }
    {
        self.counted_charts = 0;
        self.counted_dimensions = 0;
        self.counted_of.clear();
        OpenBeat {
            charts: self.charts.take(),
            dimensions: self.dimensions.take(),
            rows: self.rows.take(),
        }
    }

    /// The update_every of a chart as it is now, by its last definition.
    pub(crate) fn update_every_of(&self, registry: &Registry, id: &str) -> Option<u32>
        ensures { result ≡ option_map (λ def. def.update_every)
            (chart_now registry.now (beat_of self.now) id.now) }
    {
        match self.charts.update_every_of(id) {
            Some(update_every) => Some(update_every),
            None => known_update_every(registry, id),
        }
    }

    pub(crate) fn has_chart(&self, registry: &Registry, id: &str) -> bool
        ensures { result ≡ has_chart registry.now (beat_of self.now) id.now }
    {
        match registry.chart_of(id) {
            Some(_) => true,
            None => self.charts.update_every_of(id).is_some(),
        }
    }

    pub(crate) fn has_dimension(&self, registry: &Registry, chart: &str, id: &str) -> bool
        ensures { result ≡ has_dimension registry.now (beat_of self.now) chart.now id.now }
    {
        self.has_dimension_at(registry, None, chart, id)
    }

    /// The same, where the registry may have the chart at this number, which spares looking for it.
    pub(crate) fn has_dimension_at(
        &self,
        registry: &Registry,
        number: Option<u32>,
        chart: &str,
        id: &str,
    ) -> bool
        ensures { result ≡ has_dimension registry.now (beat_of self.now) chart.now id.now }
    {
        is_known_dimension_at(registry, number, chart, id) || self.dimensions.has(chart, id)
    }

    /// Keeps a chart's definition, in the place of an earlier one of the same chart, and counts the chart
    /// where neither the registry nor the beat has it. After an `Err` all is as before.
    pub(crate) fn define_chart(
        &mut self,
        registry: &Registry,
        def: ChartDef,
    ) -> Result<(), AllocError>
        ensures beat { OnOk result
            (beat_of self.new ≡ record
            (beat_of self.old) { charts = put same_chart self.old.charts def }) }
        ensures counts { OnOk result
            (CountsNew self.old registry.now → CountsNew self.new registry.now) }
        ensures err { OnErr result (self.new ≡ self.old) }
    {
        let is_new = !self.has_chart(registry, def.id.as_str());
        self.charts.define(def)?;
        if is_new {
            self.counted_charts = raised(self.counted_charts, self.charts.as_slice().len());
        }
        Ok(())
    }

    /// Keeps a dimension's definition, in the place of an earlier one of the same dimension, and counts the
    /// dimension where neither the registry nor the beat has it. After an `Err` all is as before.
    pub(crate) fn define_dimension(
        &mut self,
        registry: &Registry,
        dimension: OpenDim,
    ) -> Result<(), AllocError>
        ensures beat { OnOk result
            (beat_of self.new ≡ record
            (beat_of self.old) { dimensions = put same_dimension self.old.dimensions dimension }) }
        ensures counts { OnOk result
            (CountsNew self.old registry.now → CountsNew self.new registry.now) }
        ensures err { OnErr result (self.new ≡ self.old) }
    {
        let chart = dimension.chart.as_str();
        if self.has_dimension(registry, chart, dimension.def.id.as_str()) {
            return self.dimensions.define(dimension);
        }
        self.counted_of.define(&mut self.dimensions, dimension)?;
        self.counted_dimensions = raised(self.counted_dimensions, self.dimensions.as_slice().len());
        Ok(())
    }

    /// Whether there is no room for one more chart. The charts of the beat are gone through only where
    /// those that are counted leave no room.
    fn is_full_of_charts(&self, registry: &Registry) -> bool
        ensures { CountsNew self.now registry.now
            → result ≡ charts_full registry.now (beat_of self.now) }
    {
        let known = registry.charts() as usize;
        let most = MOST_CHARTS as usize;
        if self.counted_charts < most - known {
            return false;
        }
        new_charts(registry, self.charts.as_slice()) >= most - known
    }

    /// Whether there is no room for one more dimension of this chart.
    fn is_full_of(&self, registry: &Registry, chart: &str) -> bool
        ensures { CountsNew self.now registry.now
            → result ≡ chart_full registry.now (beat_of self.now) chart.now }
    {
        let known = known_dimensions_of(registry, chart) as usize;
        let most = MOST_DIMENSIONS_OF_CHART as usize;
        if self.counted_of.count_of(chart) < most - known {
            return false;
        }
        new_dimensions_of(registry, self.dimensions.as_slice(), chart) >= most - known
    }

    /// Whether there is no room for one more dimension of any chart.
    fn is_full_of_dimensions(&self, registry: &Registry) -> bool
        ensures { CountsNew self.now registry.now
            → result ≡ all_full registry.now (beat_of self.now) }
    {
        let known = registry.dimensions() as usize;
        let most = MOST_DIMENSIONS as usize;
        if self.counted_dimensions < most - known {
            return false;
        }
        new_dimensions(registry, self.dimensions.as_slice()) >= most - known
    }

    /// Why a chart may not be defined with this update_every.
    pub(crate) fn chart_refusal(
        &self,
        registry: &Registry,
        id: &str,
        update_every: u32,
    ) -> Option<BlockFault>
        ensures { CountsNew self.now registry.now → (def : ChartDefinition) → def.id ≡ id.now
            → def.update_every ≡ update_every
            → result ≡ chart_refusal registry.now (beat_of self.now) def }
    {
        match self.update_every_of(registry, id) {
            Some(old) if old == update_every => None,
            Some(_) => Some(BlockFault::GridChanged),
            None if self.is_full_of_charts(registry) => Some(BlockFault::TooManyCharts),
            None => None,
        }
    }

    /// Why a dimension of this chart may not be defined.
    pub(crate) fn dimension_refusal(
        &self,
        registry: &Registry,
        chart: &str,
        id: &str,
    ) -> Option<BlockFault>
        ensures { CountsNew self.now registry.now → (def : DimDefinition) → def.id ≡ id.now
            → result ≡ dimension_refusal registry.now (beat_of self.now) chart.now def }
    {
        if self.has_dimension(registry, chart, id) {
            return None;
        }
        if self.is_full_of(registry, chart) || self.is_full_of_dimensions(registry) {
            return Some(BlockFault::TooManyDimensions);
        }
        None
    }

    /// Whether a moment is no multiple of the update_every of a chart with a row.
    pub(crate) fn is_off_grid(&self, registry: &Registry, moment: u32) -> bool
        ensures { result ≡ is_off_grid registry.now (beat_of self.now) moment }
    {
        self.rows.as_slice().iter().any(|row| is_off(
            self.update_every_of(registry, row.chart.as_str()),
            moment,
        ))
    }
}
