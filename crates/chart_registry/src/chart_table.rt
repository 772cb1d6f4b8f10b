ghost use Rattle.std.specs.Prelude.{◌≡◌, ℕ, List, [], find, position, Some, None, OnOk, OnErr};
ghost use Rattle.std.specs.Option.{option_map};
ghost use Rattle.history.specs.Put.{put};
ghost use Rattle.history.specs.Registry.{is_chart, same_chart};
ghost use Rattle.chart_registry.specs.Places.{FindsCharts};

use fixed_num::ListOf;
use history::{ChartDef, ChartDefList};
use indexmap::IndexMap;
use std::alloc::{AllocError, Global};
use std::marker::Model;

/// The charts that an open beat defines, each once, which a hash of their ids finds.
#[derive(Drop)]
pub struct ChartTable {
    alloc: Global,
    defs: Vec<ChartDef>,
    places: IndexMap<String, usize>,
}

impl Model for ChartTable {
    ghost use Rattle.std.specs.Prelude.{List};
    ghost use Rattle.history.specs.declared.chart.ChartDef.{ChartDef as Definition};

    ghost Value = { List Definition };

    ghost use Rattle.chart_registry.specs.Tables.{AreChartsFound};

    ghost view = { λ table. table.defs.items };

    ghost invariant = { AreChartsFound };
}

impl ChartTable {
    /// The table without definitions.
    pub fn new(alloc: Global) -> ChartTable
        ensures { result ≡ [] }
    {
        ChartTable {
            alloc,
            defs: Vec::new(alloc),
            places: IndexMap::new(alloc),
        }
    }

    /// The definitions, in the order in which each was first made.
    pub fn as_slice(&self) -> &[ChartDef]
        ensures { result.now ≡ self.now }
    {
        self.defs.as_slice()
    }

    /// The update_every of the chart with this id, in seconds.
    pub fn update_every_of(&self, id: &str) -> Option<u32>
        ensures { result ≡ option_map (λ def. def.update_every) (find (is_chart id.now) self.now) }
    {
        match self.places.get(id) {
            Some(place) => Some(self.defs[*place].update_every),
            None => None,
        }
    }

    /// Where the definition of the chart with this id stands, from 0.
    pub fn place_of(&self, id: &str) -> Option<usize>
        ensures { result ≡ position (is_chart id.now) self.now }
    {
        self.places.get(id).copied()
    }

    /// Keeps a definition, in the place of an earlier one of the same chart. After an `Err` all is as before.
    pub fn define(&mut self, def: ChartDef) -> Result<(), AllocError>
        ensures ok { OnOk result (self.new ≡ put same_chart self.old def) }
        ensures err { OnErr result (self.new ≡ self.old) }
    {
        define(&mut self.defs, &mut self.places, def)
    }

    /// Takes all definitions out.
    pub fn take(&mut self) -> ChartDefList
        ensures taken { result ≡ self.old }
        ensures left { self.new ≡ [] }
    {
        self.places.clear();
        ListOf::from_vec(std::mem::replace(&mut self.defs, Vec::new(self.alloc)))
    }
}

// Keeps a definition, in the place of an earlier one of the same chart.
fn define(
    defs: &mut Vec<ChartDef>,
    places: &mut IndexMap<String, usize>,
    def: ChartDef,
) -> Result<(), AllocError>
    requires found { FindsCharts places.old.entries defs.old.items }
    ensures found { FindsCharts places.new.entries defs.new.items }
    ensures ok { OnOk result (defs.new.items ≡ put same_chart defs.old.items def) }
    ensures err { OnErr result (defs.new.items ≡ defs.old.items) }
{
    match places.get(def.id.as_str()).copied() {
        Some(place) => {
            replace(defs, place, def);
            Ok(())
        }
        None => add(defs, places, def),
    }
}

// Keeps a definition in the place of an earlier one of the same chart.
fn replace(defs: &mut Vec<ChartDef>, place: usize, def: ChartDef)
    requires there { position (is_chart def.id) defs.old.items ≡ Some place }
    ensures put { defs.new.items ≡ put same_chart defs.old.items def }
    ensures kept { (id : List ℕ)
        → position (is_chart id) defs.new.items ≡ position (is_chart id) defs.old.items }
{
    defs[place] = def;
}

// Adds the definition of a new chart at the end.
fn add(
    defs: &mut Vec<ChartDef>,
    places: &mut IndexMap<String, usize>,
    def: ChartDef,
) -> Result<(), AllocError>
    requires found { FindsCharts places.old.entries defs.old.items }
    requires absent { position (is_chart def.id) defs.old.items ≡ None }
    ensures found { FindsCharts places.new.entries defs.new.items }
    ensures ok { OnOk result (defs.new.items ≡ put same_chart defs.old.items def) }
    ensures err { OnErr result (defs.new.items ≡ defs.old.items) }
{
    let id = def.id.clone()?.into_string();
    defs.reserve(1)?;
    places.insert(id, defs.len())?;
    defs.push(def).unwrap();
    Ok(())
}
