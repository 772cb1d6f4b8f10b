//! The text of an answer.
ghost use Rattle.std.specs.Prelude.{◌≡◌, ◌<◌, ◌++◌, List, length, Some, All, IfOk, OnOk, IsOkUnless};
ghost use Rattle.std.specs.Fmt.{decimal};
ghost use Rattle.std.specs.List.{flat_map};
ghost use Rattle.query_text.specs.Told.{column_text, head_text, cell_text, row_text, table_text, fault_text};

use crate::fault::QueryFault;
use chart_registry::Registry;
use fixed_num::{Text, Units, write_units};
use query_engine::{Request, Table, TableRow};
use std::alloc::{AllocError, Global};

/// Adds the digits of a number.
fn push_number(out: &mut Text, number: u64) -> Result<(), AllocError>
    ensures { OnOk result (out.new ≡ out.old ++ decimal number) }
{
    out.push_str(itoa::Buffer::new().format(number))
}

/// Adds a column's id.
fn push_column(out: &mut Text, registry: &Registry, series: u32) -> Result<(), AllocError>
    requires { series < length registry.now.dimensions }
    ensures { OnOk result (out.new ≡ out.old ++ column_text registry.now series) }
{
    out.push_str(" ")?;
    out.push_str(registry.dimension(series).id.as_str())
}

/// Adds the ids of the columns.
fn push_columns(out: &mut Text, registry: &Registry, series: &[u32]) -> Result<(), AllocError>
    requires { All (λ one. one < length registry.now.dimensions) series.now }
    ensures { OnOk result (out.new ≡ out.old ++ flat_map (column_text registry.now) series.now) }
{
    for one in series {
        push_column(out, registry, *one)?;
    }
    Ok(())
}

/// Adds the first line.
fn push_head(
    out: &mut Text,
    registry: &Registry,
    series: &[u32],
    rows: usize,
) -> Result<(), AllocError>
    requires { All (λ one. one < length registry.now.dimensions) series.now }
    ensures { OnOk result (out.new ≡ out.old ++ head_text registry.now series.now rows) }
{
    out.push_str("ROWS ")?;
    push_number(out, rows as u64)?;
    push_columns(out, registry, series)?;
    out.push_str("\n")
}

/// Adds a cell.
fn push_cell(out: &mut Text, cell: Option<Units>) -> Result<(), AllocError>
    ensures { OnOk result (out.new ≡ out.old ++ cell_text cell) }
{
    let Some(units) = cell else {
        return out.push_str(" null");
    };
    out.push_str(" ")?;
    write_units(out, units).map_err(|_| AllocError)
}

/// Adds the cells of a window.
fn push_cells(out: &mut Text, cells: &[Option<Units>]) -> Result<(), AllocError>
    ensures { OnOk result (out.new ≡ out.old ++ flat_map cell_text cells.now) }
{
    for cell in cells {
        push_cell(out, *cell)?;
    }
    Ok(())
}

/// Adds the line of a window.
fn push_row(out: &mut Text, row: &TableRow) -> Result<(), AllocError>
    ensures { OnOk result (out.new ≡ out.old ++ row_text row.now) }
{
    push_number(out, row.start)?;
    push_cells(out, row.cells.as_slice())?;
    out.push_str("\n")
}

/// Adds the lines of the windows.
fn push_rows(out: &mut Text, rows: &[TableRow]) -> Result<(), AllocError>
    ensures { OnOk result (out.new ≡ out.old ++ flat_map row_text rows.now) }
{
    for row in rows {
        push_row(out, row)?;
    }
    Ok(())
}

/// The text of an answer to a request: `ROWS`, the number of windows and the ids of the columns, then a
/// line for each window with its start and a cell for each column, `null` or an exact number. Each line
/// ends with a line feed. `Memory` is the only error.
pub fn write_table(
    alloc: Global,
    request: &Request,
    registry: &Registry,
    table: &Table,
) -> Result<Text, QueryFault>
    requires { All (λ series. series < length registry.now.dimensions) request.now.series }
    ensures text { IfOk result (λ text. text ≡ table_text registry.now request.now table.now) }
    ensures memory { IsOkUnless result QueryFault.Memory }
{
    let mut out = Text::new(alloc);
    let rows = table.rows.as_slice();
    push_head(&mut out, registry, request.series.as_slice(), rows.len())?;
    push_rows(&mut out, rows)?;
    Ok(out)
}

/// The line of a refusal, `ERROR` and its number. `Memory` is the only error, and the answer for
/// `Memory` itself, which is no refusal.
pub fn write_fault(alloc: Global, fault: QueryFault) -> Result<Text, QueryFault>
    ensures text { IfOk result (λ text. fault_text fault ≡ Some text) }
    ensures memory { IsOkUnless result QueryFault.Memory }
{
    let Some(number) = fault.number() else {
        return Err(QueryFault::Memory);
    };
    let mut out = Text::from_str(alloc, "ERROR ")?;
    push_number(&mut out, u64::from(number))?;
    out.push_str("\n")?;
    Ok(out)
}
