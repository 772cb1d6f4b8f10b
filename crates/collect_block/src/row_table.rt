ghost use Rattle.std.specs.Prelude.{◌≡◌, ◌<◌, ◌||◌, ℕ, List, [], ◌∷◌, ◌++◌, is_some, vec_len, vec_capacity, OnOk, OnErr, IfErr};
ghost use Rattle.std.specs.List.{list_any};
ghost use Rattle.std.specs.Str.{bytes_eq};
ghost use Rattle.collect_block.specs.Block.{row_of};
ghost use Rattle.chart_registry.specs.Places.{place_in, FindsRows};

use crate::block::Block;
use fixed_num::ListOf;
use history::{OpenRow, OpenRowList};
use indexmap::IndexMap;
use std::alloc::{AllocError, Global};
use std::marker::Model;

/// The rows of an open beat, which a hash of their charts' ids finds.
#[derive(Drop)]
pub(crate) struct RowTable {
    alloc: Global,
    rows: Vec<OpenRow>,
    charts: IndexMap<String, ()>,
}

impl Model for RowTable {
    ghost use Rattle.std.specs.Prelude.{List};
    ghost use Rattle.history.specs.declared.beat.OpenRow.{OpenRow as Row};

    ghost Value = { List Row };

    ghost use Rattle.collect_block.specs.Tables.{AreRowsFound};

    ghost view = { λ table. table.rows.items };

    ghost invariant = { AreRowsFound };
}

impl RowTable {
    pub(crate) fn new(alloc: Global) -> RowTable
        ensures { result ≡ [] }
    {
        RowTable {
            alloc,
            rows: Vec::new(alloc),
            charts: IndexMap::new(alloc),
        }
    }

    pub(crate) fn as_slice(&self) -> &[OpenRow]
        ensures { result.now ≡ self.now }
    {
        self.rows.as_slice()
    }

    // Whether the chart has a row.
    pub(crate) fn has(&self, chart: &str) -> bool
        ensures { result ≡ list_any (λ row. bytes_eq chart.now row.chart) self.now }
    {
        self.charts.contains_key(chart)
    }

    // Adds the row of a block at the end. After an `Err` all is as before, and the error has the block.
    pub(crate) fn add(&mut self, block: Block) -> Result<(), Block>
        ensures ok { OnOk result (self.new ≡ self.old ++ row_of block ∷ []) }
        ensures err { OnErr result (self.new ≡ self.old) }
        ensures returned { IfErr result (λ back. back ≡ block) }
    {
        add(self.alloc, &mut self.rows, &mut self.charts, block)
    }

    // Takes all rows out.
    pub(crate) fn take(&mut self) -> OpenRowList
        ensures taken { result ≡ self.old }
        ensures left { self.new ≡ [] }
    {
        self.charts.clear();
        ListOf::from_vec(std::mem::replace(&mut self.rows, Vec::new(self.alloc)))
    }
}

// Adds the row of a block at the end.
fn add(
    alloc: Global,
    rows: &mut Vec<OpenRow>,
    charts: &mut IndexMap<String, ()>,
    block: Block,
) -> Result<(), Block>
    requires found { FindsRows charts.old.entries rows.old.items }
    ensures found { FindsRows charts.new.entries rows.new.items }
    ensures ok { OnOk result (rows.new.items ≡ rows.old.items ++ row_of block ∷ []) }
    ensures err { OnErr result (rows.new.items ≡ rows.old.items) }
    ensures returned { IfErr result (λ back. back ≡ block) }
{
    match make_room(alloc, rows, charts, block.chart.as_str()) {
        Ok(()) => {
            rows.push(block.into_row()).unwrap();
            Ok(())
        }
        Err(_) => Err(block),
    }
}

// Makes room for a row of this chart, and notes that it has one.
fn make_room(
    alloc: Global,
    rows: &mut Vec<OpenRow>,
    charts: &mut IndexMap<String, ()>,
    chart: &str,
) -> Result<(), AllocError>
    ensures rows { rows.new.items ≡ rows.old.items }
    ensures room { OnOk result (vec_len rows.new < vec_capacity rows.new) }
    ensures ok { OnOk result ((other : List ℕ)
        → is_some (place_in charts.new.entries other)
        ≡ (bytes_eq chart.now other || is_some (place_in charts.old.entries other))) }
    ensures err { OnErr result (charts.new.entries ≡ charts.old.entries) }
{
    let key = String::from_str(alloc, chart)?;
    rows.reserve(1)?;
    charts.insert(key, ())?;
    Ok(())
}
