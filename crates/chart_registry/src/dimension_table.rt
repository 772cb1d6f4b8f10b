ghost use Rattle.std.specs.Prelude.{◌≡◌, ◌≤◌, ℕ, List, [], length, count_by, position, string_bytes, Some, None, OnOk, OnErr};
ghost use Rattle.std.specs.List.{list_any};
ghost use Rattle.history.specs.Put.{put};
ghost use Rattle.history.specs.Registry.{is_of, is_dimension, same_dimension};
ghost use Rattle.chart_registry.specs.Places.{place_in, table_in, AddsPlace, EntersPlace, KeepsTables, FindsDimensions};

use fixed_num::ListOf;
use history::{OpenDim, OpenDimList};
use indexmap::IndexMap;
use std::alloc::{AllocError, Global};
use std::marker::Model;

/// The dimensions that an open beat defines, each once, which hashes of their chart's id and their own
/// find.
#[derive(Drop)]
pub struct DimensionTable {
    alloc: Global,
    defs: Vec<OpenDim>,
    tables: IndexMap<String, IndexMap<String, usize>>,
}

impl Model for DimensionTable {
    ghost use Rattle.std.specs.Prelude.{List};
    ghost use Rattle.history.specs.declared.beat.OpenDim.{OpenDim as Definition};

    ghost Value = { List Definition };

    ghost use Rattle.chart_registry.specs.Tables.{AreDimensionsFound};

    ghost view = { λ table. table.defs.items };

    ghost invariant = { AreDimensionsFound };
}

impl DimensionTable {
    /// The table without definitions.
    pub fn new(alloc: Global) -> DimensionTable
        ensures { result ≡ [] }
    {
        DimensionTable {
            alloc,
            defs: Vec::new(alloc),
            tables: IndexMap::new(alloc),
        }
    }

    /// The definitions, in the order in which each was first made.
    pub fn as_slice(&self) -> &[OpenDim]
        ensures { result.now ≡ self.now }
    {
        self.defs.as_slice()
    }

    /// Where the definition of the chart's dimension with this id stands, from 0.
    pub fn place_of(&self, chart: &str, id: &str) -> Option<usize>
        ensures { result ≡ position (is_dimension chart.now id.now) self.now }
    {
        place_of(&self.tables, chart, id)
    }

    /// Whether the chart has a dimension with this id.
    pub fn has(&self, chart: &str, id: &str) -> bool
        ensures { result ≡ list_any (is_dimension chart.now id.now) self.now }
    {
        place_of(&self.tables, chart, id).is_some()
    }

    /// How many dimensions of this chart there are.
    pub fn count_of(&self, chart: &str) -> usize
        ensures value { result ≡ count_by (is_of chart.now) self.now }
        ensures within { result ≤ length self.now }
    {
        match self.tables.get(chart) {
            Some(table) => table.len(),
            None => 0,
        }
    }

    /// Keeps a definition, in the place of an earlier one of the same dimension. After an `Err` all is as
    /// before.
    pub fn define(&mut self, dimension: OpenDim) -> Result<(), AllocError>
        ensures ok { OnOk result (self.new ≡ put same_dimension self.old dimension) }
        ensures err { OnErr result (self.new ≡ self.old) }
    {
        define(self.alloc, &mut self.defs, &mut self.tables, dimension)
    }

    /// Takes all definitions out.
    pub fn take(&mut self) -> OpenDimList
        ensures taken { result ≡ self.old }
        ensures left { self.new ≡ [] }
    {
        self.tables.clear();
        ListOf::from_vec(std::mem::replace(&mut self.defs, Vec::new(self.alloc)))
    }
}

// Where the dimension stands.
fn place_of(
    tables: &IndexMap<String, IndexMap<String, usize>>,
    chart: &str,
    id: &str,
) -> Option<usize>
    ensures { result ≡ place_in (table_in tables.now.entries chart.now) id.now }
{
    match tables.get(chart) {
        Some(table) => table.get(id).copied(),
        None => None,
    }
}

// Adds the place of a new dimension to its chart's table.
fn add_place(
    table: &mut IndexMap<String, usize>,
    id: String,
    place: usize,
) -> Result<(), AllocError>
    requires absent { place_in table.old.entries (string_bytes id) ≡ None }
    ensures ok { OnOk result (AddsPlace table.old.entries
        (string_bytes id) place table.new.entries) }
    ensures err { OnErr result (table.new.entries ≡ table.old.entries) }
{
    table.insert(id, place)?;
    Ok(())
}

// Enters the place of the first dimension of a chart.
fn enter_first(
    alloc: Global,
    tables: &mut IndexMap<String, IndexMap<String, usize>>,
    chart: String,
    id: String,
    place: usize,
) -> Result<(), AllocError>
    requires absent { place_in tables.old.entries (string_bytes chart) ≡ None }
    ensures ok { OnOk result (EntersPlace tables.old.entries (string_bytes chart)
        (string_bytes id) place tables.new.entries) }
    ensures err { OnErr result (KeepsTables tables.old.entries tables.new.entries) }
{
    let mut table = IndexMap::new(alloc);
    add_place(&mut table, id, place)?;
    tables.insert(chart, table)?;
    Ok(())
}

// Enters the place of a new dimension into the table of its chart.
fn enter(
    alloc: Global,
    tables: &mut IndexMap<String, IndexMap<String, usize>>,
    chart: String,
    id: String,
    place: usize,
) -> Result<(), AllocError>
    requires absent { place_in (table_in tables.old.entries (string_bytes chart)) (string_bytes id)
        ≡ None }
    ensures ok { OnOk result (EntersPlace tables.old.entries (string_bytes chart)
        (string_bytes id) place tables.new.entries) }
    ensures err { OnErr result (KeepsTables tables.old.entries tables.new.entries) }
{
    match tables.get_index_of(chart.as_str()) {
        Some(number) => add_place(&mut tables[number], id, place),
        None => enter_first(alloc, tables, chart, id, place),
    }
}

// Keeps a definition, in the place of an earlier one of the same dimension.
fn define(
    alloc: Global,
    defs: &mut Vec<OpenDim>,
    tables: &mut IndexMap<String, IndexMap<String, usize>>,
    dimension: OpenDim,
) -> Result<(), AllocError>
    requires found { FindsDimensions tables.old.entries defs.old.items }
    ensures found { FindsDimensions tables.new.entries defs.new.items }
    ensures ok { OnOk result (defs.new.items ≡ put same_dimension defs.old.items dimension) }
    ensures err { OnErr result (defs.new.items ≡ defs.old.items) }
{
    match place_of(tables, dimension.chart.as_str(), dimension.def.id.as_str()) {
        Some(place) => {
            replace(defs, place, dimension);
            Ok(())
        }
        None => add(alloc, defs, tables, dimension),
    }
}

// Keeps a definition in the place of an earlier one of the same dimension.
fn replace(defs: &mut Vec<OpenDim>, place: usize, dimension: OpenDim)
    requires there { position (same_dimension dimension) defs.old.items ≡ Some place }
    ensures put { defs.new.items ≡ put same_dimension defs.old.items dimension }
    ensures kept { (chart id : List ℕ)
        → position (is_dimension chart id) defs.new.items
        ≡ position (is_dimension chart id) defs.old.items }
    ensures counts { (chart : List ℕ)
        → count_by (is_of chart) defs.new.items ≡ count_by (is_of chart) defs.old.items }
{
    defs[place] = dimension;
}

// Adds the definition of a new dimension at the end.
fn add(
    alloc: Global,
    defs: &mut Vec<OpenDim>,
    tables: &mut IndexMap<String, IndexMap<String, usize>>,
    dimension: OpenDim,
) -> Result<(), AllocError>
    requires found { FindsDimensions tables.old.entries defs.old.items }
    requires absent { position (same_dimension dimension) defs.old.items ≡ None }
    ensures found { FindsDimensions tables.new.entries defs.new.items }
    ensures ok { OnOk result (defs.new.items ≡ put same_dimension defs.old.items dimension) }
    ensures err { OnErr result (defs.new.items ≡ defs.old.items) }
{
    let chart = dimension.chart.clone()?.into_string();
    let id = dimension.def.id.clone()?.into_string();
    defs.reserve(1)?;
    enter(alloc, tables, chart, id, defs.len())?;
    defs.push(dimension).unwrap();
    Ok(())
}
