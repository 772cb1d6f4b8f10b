ghost use Rattle.std.specs.Prelude.{◌≡◌, ◌<◌, ◌∷◌, [], ◌++◌, length, slice_get, Some, None, IfOk, OnOk, OnErr};
ghost use Rattle.std.specs.Option.{option_map};
ghost use Rattle.chart_registry.specs.Rows.{rows, row_at, marks, chart_defs, open_dims, redefined, series_in, AreById, AreKept, EntersSeries};
ghost use Rattle.chart_registry.specs.Leaving.{LeavesSeries};
ghost use Rattle.chart_registry.specs.declared.dimensions.Dimension.{Dimension as Kept};

use crate::charts::{self, Chart};
use history::{DimDef, MOST_DIMENSIONS, OpenDim};
use indexmap::IndexMap;
use std::alloc::AllocError;
use std::mem::replace;

/// A dimension as it is kept: its last definition with its chart's id, and its chart's number.
#[derive(Drop)]
pub(crate) struct Dimension {
    pub(crate) owner: u32,
    pub(crate) definition: OpenDim,
}

// A dimension of the chart with this number.
fn dimension_of(chart: &Chart, number: u32, def: &DimDef) -> Result<Dimension, AllocError>
    ensures { IfOk result (λ made. made ≡ record {
      owner = number;
      definition = record { chart = chart.now.def.id; def = def.now };
    }) }
{
    Ok(Dimension {
        owner: number,
        definition: OpenDim {
            chart: chart.def.id.clone()?,
            def: def.clone()?,
        },
    })
}

// Puts a definition in the place of that of the dimension with this series, which has the same id, and gives
// that.
pub(crate) fn exchange(dimensions: &mut Vec<Dimension>, series: u32, def: DimDef) -> DimDef
    requires { option_map (λ mark. mark.id) (slice_get (marks dimensions.old.items) series)
        ≡ Some def.id }
    ensures marks { marks dimensions.new.items ≡ marks dimensions.old.items }
    ensures defs { open_dims dimensions.new.items
        ≡ redefined (open_dims dimensions.old.items) series def }
    ensures before { option_map (λ dimension. dimension.def)
        (slice_get (open_dims dimensions.old.items) series) ≡ Some result }
{
    replace(&mut dimensions[series as usize].definition.def, def)
}

// Takes the last dimension out.
pub(crate) fn remove_last(charts: &mut IndexMap<String, Chart>, dimensions: &mut Vec<Dimension>)
    requires kept { AreKept (rows charts.old) (marks dimensions.old.items) }
    requires some { 0 < length dimensions.old.items }
    ensures by_id { AreById charts.old → AreById charts.new }
    ensures defs { chart_defs charts.new ≡ chart_defs charts.old }
    ensures last { (last : Kept) × (dimensions.old.items ≡ dimensions.new.items ++ last ∷ [])
        × LeavesSeries (rows charts.old) last.owner last.definition.def.id (rows charts.new) }
{
    let dimension = dimensions.pop().unwrap();
    charts::leave(
        charts,
        dimension.owner,
        dimension.definition.def.id.as_str(),
    )
}

// Keeps a dimension with an id that none of its chart has yet. Its series is the next number.
pub(crate) fn add(
    charts: &mut IndexMap<String, Chart>,
    dimensions: &mut Vec<Dimension>,
    number: u32,
    def: &DimDef,
) -> Result<(), AllocError>
    requires there { number < length (chart_defs charts.old) }
    requires few { length dimensions.old.items < MOST_DIMENSIONS }
    requires absent { series_in (row_at (rows charts.old) number).series def.now.id ≡ None }
    ensures by_id { AreById charts.old → AreById charts.new }
    ensures defs { chart_defs charts.new ≡ chart_defs charts.old }
    ensures rows { OnOk result (EntersSeries (rows charts.old) number def.now.id
        (length dimensions.old.items) (rows charts.new)) }
    ensures ok { OnOk result (dimensions.new.items ≡ dimensions.old.items
        ++ record {
          owner = number;
          definition = record {
            chart = (row_at
                (rows charts.old) number).id;
            def = def.now;
          };
        } ∷ []) }
    ensures rows_err { OnErr result (rows charts.new ≡ rows charts.old) }
    ensures err { OnErr result (dimensions.new.items ≡ dimensions.old.items) }
{
    let dimension = dimension_of(charts::chart_at(charts, number), number, def)?;
    let id = def.id.clone()?.into_string();
    dimensions.reserve(1)?;
    let series = dimensions.len() as u32;
    charts::enter(charts, number, id, series)?;
    dimensions.push(dimension).unwrap();
    Ok(())
}
