ghost use Rattle.std.specs.Prelude.{◌≡◌, ◌<◌, length, map, filter_map, All, Some, None, OnOk, slice_index_or};
ghost use Rattle.algorithms.specs.Samples.{cell_at};
ghost use Rattle.beat_points.specs.Numbered.{cell_by};

use crate::fault::PointFault;
use algorithms::{Last, Sample, sample_of};
use chart_registry::Registry;
use history::{ChartDef, Value};

/// The last row of a series.
fn last_of(last: &[Option<Last>], series: u32) -> Option<Last>
    ensures { result ≡ slice_index_or last.now series None }
{
    match last.get(series as usize) {
        Some(last) => *last,
        None => None,
    }
}

/// The sample of a value that its chart collected at `moment`.
fn sample_at(
    registry: &Registry,
    last: &[Option<Last>],
    chart: &ChartDef,
    moment: u32,
    value: &Value,
) -> Sample
    requires { value.now.series < length registry.now.dimensions }
    ensures { cell_by registry.now last.now chart.now moment value.now ≡ Some (cell_at result) }
{
    sample_of(
        chart.update_every,
        chart.store_first,
        moment,
        value,
        last_of(last, value.series),
        registry.dimension(value.series),
    )
}

/// Leaves the samples of the values of a row that its chart collected at `moment`, in their order.
pub(crate) fn sample_row(
    samples: &mut Vec<Sample>,
    registry: &Registry,
    last: &[Option<Last>],
    chart: &ChartDef,
    moment: u32,
    values: &[Value],
) -> Result<(), PointFault>
    requires { All (λ value. value.series < length registry.now.dimensions) values.now }
    ensures cells { OnOk result (map cell_at samples.new.items
        ≡ filter_map (cell_by registry.now last.now chart.now moment) values.now) }
    ensures count { OnOk result (length samples.new.items ≡ length values.now) }
{
    samples.clear();
    for value in values {
        samples.push(sample_at(registry, last, chart, moment, value))?;
    }
    Ok(())
}
