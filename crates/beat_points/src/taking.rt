ghost use Rattle.std.specs.Prelude.{◌≡◌, ◌<◌, ◌-◌, ◌++◌, length, All, None, replicate, OnOk, OnErr};
ghost use Rattle.beat_points.specs.LastRows.{Takes};
ghost use Rattle.beat_points.specs.Numbered.{rows_values};

use algorithms::Last;
use history::{Row, Value};
use std::alloc::AllocError;

/// Makes room for the series of a registry of this many.
pub(crate) fn make_room(last: &mut Vec<Option<Last>>, series: usize) -> Result<(), AllocError>
    ensures ok { OnOk result (last.new.items
        ≡ last.old.items ++ replicate (series - length last.old.items) None) }
    ensures err { OnErr result (last.new.items ≡ last.old.items) }
{
    if last.len() < series {
        last.resize(series, None)?;
    }
    Ok(())
}

/// Takes the values of one row.
fn take_row(last: &mut [Option<Last>], values: &[Value], moment: u32)
    requires { All (λ value. value.series < length last.old) values.now }
    ensures { Takes moment values.now last.old last.new }
{
    for value in values {
        last[value.series as usize] = Some(Last {
            moment,
            value: value.value,
        });
    }
}

/// Takes the rows of a beat.
pub(crate) fn take_rows(last: &mut [Option<Last>], rows: &[Row], moment: u32)
    requires { All (λ row. All (λ value. value.series < length last.old) row.values) rows.now }
    ensures { Takes moment (rows_values rows.now) last.old last.new }
{
    for row in rows {
        take_row(last, row.values.as_slice(), moment);
    }
}
