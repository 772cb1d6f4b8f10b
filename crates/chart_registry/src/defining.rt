//! Definitions by number that are taken one after the other, with what each of them changes, so that all can be taken
//! back.

ghost use Rattle.std.specs.Prelude.{◌≡◌, [], ◌∷◌, ◌++◌, true, OnOk, OnErr};
ghost use Rattle.history.specs.Registry.{Registry as Definitions};
ghost use Rattle.chart_registry.specs.Changes.{IsChange, AreChanges};
ghost use Rattle.chart_registry.specs.Taking.{all_taken, takes_chart, takes_dimension, with_chart, with_charts, with_dimension, with_dimensions};

use crate::changes::Change;
use crate::registry::Registry;
use history::{NumberedChart, NumberedDimension};
use std::alloc::AllocError;

/// Takes definitions, the charts first, each list in its order, up to the first for which there is no memory, and
/// adds what each of them changed.
pub(crate) fn define(
    registry: &mut Registry,
    charts: &[NumberedChart],
    dimensions: &[NumberedDimension],
    changes: &mut Vec<Change>,
) -> Result<(), AllocError>
    requires charts { all_taken takes_chart with_chart registry.old charts.now ≡ true }
    requires dimensions { all_taken takes_dimension with_dimension
        (with_charts registry.old charts.now) dimensions.now ≡ true }
    ensures ok { OnOk result
        (registry.new ≡ with_dimensions (with_charts registry.old charts.now) dimensions.now) }
    ensures noted { (before : Definitions) → AreChanges before changes.old.items registry.old
        → AreChanges before changes.new.items registry.new }
{
    define_charts(registry, charts, changes)?;
    define_dimensions(registry, dimensions, changes)
}

fn define_charts(
    registry: &mut Registry,
    charts: &[NumberedChart],
    changes: &mut Vec<Change>,
) -> Result<(), AllocError>
    requires { all_taken takes_chart with_chart registry.old charts.now ≡ true }
    ensures ok { OnOk result (registry.new ≡ with_charts registry.old charts.now) }
    ensures noted { (before : Definitions) → AreChanges before changes.old.items registry.old
        → AreChanges before changes.new.items registry.new }
{
    for chart in charts {
        define_chart(registry, chart, changes)?;
    }
    Ok(())
}

fn define_dimensions(
    registry: &mut Registry,
    dimensions: &[NumberedDimension],
    changes: &mut Vec<Change>,
) -> Result<(), AllocError>
    requires { all_taken takes_dimension with_dimension registry.old dimensions.now ≡ true }
    ensures ok { OnOk result (registry.new ≡ with_dimensions registry.old dimensions.now) }
    ensures noted { (before : Definitions) → AreChanges before changes.old.items registry.old
        → AreChanges before changes.new.items registry.new }
{
    for dimension in dimensions {
        define_dimension(registry, dimension, changes)?;
    }
    Ok(())
}

/// Takes a chart, and adds what that changed. After an `Err` all is as before.
fn define_chart(
    registry: &mut Registry,
    chart: &NumberedChart,
    changes: &mut Vec<Change>,
) -> Result<(), AllocError>
    requires { takes_chart registry.old chart.now ≡ true }
    ensures ok { OnOk result (registry.new ≡ with_chart registry.old chart.now) }
    ensures err { OnErr result (registry.new ≡ registry.old) }
    ensures unnoted { OnErr result (changes.new.items ≡ changes.old.items) }
    ensures noted { OnOk result ((before : Definitions)
        → AreChanges before changes.old.items registry.old
        → AreChanges before changes.new.items registry.new) }
{
    let change = registry.change_chart(chart)?;
    note(registry, change, changes)
}

/// Takes a dimension, and adds what that changed. After an `Err` all is as before.
fn define_dimension(
    registry: &mut Registry,
    dimension: &NumberedDimension,
    changes: &mut Vec<Change>,
) -> Result<(), AllocError>
    requires { takes_dimension registry.old dimension.now ≡ true }
    ensures ok { OnOk result (registry.new ≡ with_dimension registry.old dimension.now) }
    ensures err { OnErr result (registry.new ≡ registry.old) }
    ensures unnoted { OnErr result (changes.new.items ≡ changes.old.items) }
    ensures noted { OnOk result ((before : Definitions)
        → AreChanges before changes.old.items registry.old
        → AreChanges before changes.new.items registry.new) }
{
    let change = registry.change_dimension(dimension)?;
    note(registry, change, changes)
}

/// Adds what the last definition changed. Without memory for that, it takes the change back.
fn note(
    registry: &mut Registry,
    change: Change,
    changes: &mut Vec<Change>,
) -> Result<(), AllocError>
    requires { (before : Definitions) × IsChange before change registry.old }
    ensures ok { OnOk result (registry.new ≡ registry.old) }
    ensures noted { OnOk result (changes.new.items ≡ changes.old.items ++ change ∷ []) }
    ensures err { OnErr result
        ((before : Definitions) → IsChange before change registry.old → registry.new ≡ before) }
    ensures unnoted { OnErr result (changes.new.items ≡ changes.old.items) }
{
    match changes.push(change) {
        Ok(()) => Ok(()),
        Err(failed) => {
            registry.undo(failed.value);
            Err(AllocError)
        }
    }
}

/// Takes all changes back, the last one first.
pub(crate) fn undo_all(registry: &mut Registry, mut changes: Vec<Change>)
    requires { (before : Definitions) × AreChanges before changes.items registry.old }
    ensures { (before : Definitions) → AreChanges before changes.items registry.old
        → registry.new ≡ before }
{
    while let Some(change) = changes.pop() {
        registry.undo(change);
    }
}
