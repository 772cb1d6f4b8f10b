ghost use Rattle.std.specs.Prelude.{◌≡◌, ◌+◌, ℕ, List, [], length, min, string_bytes, OnOk, OnErr};
ghost use Rattle.history.specs.Put.{put};
ghost use Rattle.history.specs.Registry.{same_dimension};
ghost use Rattle.chart_registry.specs.Places.{count_in, with_count};

use chart_registry::DimensionTable;
use history::OpenDim;
use indexmap::IndexMap;
use std::alloc::{AllocError, Global};
use std::marker::Model;

/// How many dimensions are counted of each chart, which a hash of the charts' ids finds: none of a chart
/// that is not there.
#[derive(Drop)]
pub(crate) struct CountTable {
    counts: IndexMap<String, usize>,
}

impl Model for CountTable {
    ghost use Rattle.std.specs.Prelude.{ℕ, List};
    ghost use Rattle.std.specs.declared.alloc.Global.{Global};
    ghost use Rattle.std.specs.declared.string.String.{String};

    ghost Value = { List (String Global × ℕ) };

    ghost view = { λ table. table.counts.entries };
}

impl CountTable {
    /// The table that counts nothing.
    pub(crate) fn new(alloc: Global) -> CountTable
        ensures { result ≡ [] }
    {
        CountTable {
            counts: IndexMap::new(alloc),
        }
    }

    /// The count of a chart.
    pub(crate) fn count_of(&self, chart: &str) -> usize
        ensures { result ≡ count_in self.now chart.now }
    {
        match self.counts.get(chart) {
            Some(count) => *count,
            None => 0,
        }
    }

    /// Keeps a dimension's definition in a table, and counts it for its chart: at most as many as the
    /// table has. After an `Err` all is as before.
    pub(crate) fn define(
        &mut self,
        table: &mut DimensionTable,
        dimension: OpenDim,
    ) -> Result<(), AllocError>
        ensures table { OnOk result (table.new ≡ put same_dimension table.old dimension) }
        ensures counts { OnOk result
            ((chart : List ℕ) → count_in self.new chart
            ≡ with_count self.old dimension.chart
            (min (count_in self.old dimension.chart + 1) (length table.new)) chart) }
        ensures table_kept { OnErr result (table.new ≡ table.old) }
        ensures counts_kept { OnErr result (self.new ≡ self.old) }
    {
        let chart = dimension.chart.clone()?.into_string();
        self.counts.reserve(1)?;
        table.define(dimension)?;
        let count = raised(self.count_of(chart.as_str()), table.as_slice().len());
        self.counts.insert(chart, count).unwrap();
        Ok(())
    }

    /// Counts nothing any more.
    pub(crate) fn clear(&mut self)
        ensures { self.new ≡ [] }
    {
        self.counts.clear();
    }
}

/// One more than a count, but at most so many.
pub(crate) fn raised(count: usize, most: usize) -> usize
    ensures { result ≡ min (count + 1) most }
{
    if count < most { count + 1 } else { most }
}
