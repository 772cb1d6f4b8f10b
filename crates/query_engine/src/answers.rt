ghost use Rattle.std.specs.Prelude.{◌≡◌, ◌≢◌, ℕ, ◌+◌, ◌*◌, ◌%◌, ◌^◌, ◌<◌, ◌≤◌, List, [], ◌∷◌, ◌++◌, map, IfOk, OnOk, IsErrOf};
ghost use Rattle.host_model.specs.Cause.{HasCause};
ghost use Rattle.tier_rollup.specs.declared.point.Point.{Point as APoint};
ghost use Rattle.query_engine.specs.Planning.{IsPlan};
ghost use Rattle.query_engine.specs.Windows.{cell, row_of, start_of, table_of};

use crate::cell;
use crate::fault::PointFault;
use crate::plan::{self, Plan};
use crate::points::Points;
use crate::request::{Group, Request};
use crate::table::{CellList, Table, TableRow, TableRowList};
use fixed_num::Units;
use std::alloc::Global;

/// Adds a cell to a row.
fn keep(cells: &mut CellList, cell: Option<Units>) -> Result<(), PointFault>
    ensures ok { OnOk result (cells.new ≡ cells.old ++ cell ∷ []) }
    ensures memory { IsErrOf result PointFault.Disk → ⊥ }
{
    cells.push(cell)?;
    Ok(())
}

/// The cells of a window, one for each series.
fn read_cells<P: Points>(
    alloc: Global,
    points: &mut P,
    plan: Plan,
    group: Group,
    series: &[u32],
    start: u64,
    window: u32,
) -> Result<CellList, PointFault>
    requires plan { IsPlan (P.tiers points.old) plan }
    requires room { start + window < 2 ^ 64 }
    requires buckets { plan.tier ≢ 0 → (start % plan.width ≡ 0) × (window % plan.width ≡ 0) }
    ensures cells { IfOk result (λ cells. (told : ℕ → List APoint) → P.tells points.old told
        → cells ≡ map (λ one. cell group plan.floor start window (told one)) series.now) }
    ensures tiers { P.tiers points.new ≡ P.tiers points.old }
    ensures told { (told : ℕ → List APoint) → P.tells points.old told → P.tells points.new told }
    ensures held { P.held points.new ≡ P.held points.old }
    ensures cause { HasCause (P.faults points.old) (P.faults points.new)
        (IsErrOf result PointFault.Disk) }
{
    let mut cells = CellList::new(alloc);
    for one in series {
        let found = cell::read_cell(alloc, points, plan, group, *one, start, window)?;
        keep(&mut cells, found)?;
    }
    Ok(cells)
}

/// The start of a window.
fn start_of(request: &Request, i: u32) -> u64
    ensures start { result ≡ start_of request.now i }
    ensures room { result + request.now.window < 2 ^ 64 }
{
    u64::from(request.after) + u64::from(i) * u64::from(request.window)
}

/// The row of a window.
fn read_row<P: Points>(
    alloc: Global,
    points: &mut P,
    plan: Plan,
    request: &Request,
    i: u32,
) -> Result<TableRow, PointFault>
    requires plan { IsPlan (P.tiers points.old) plan }
    requires buckets { plan.tier ≢ 0
        → (request.now.after % plan.width ≡ 0) × (request.now.window % plan.width ≡ 0) }
    ensures row { IfOk result (λ row. (told : ℕ → List APoint) → P.tells points.old told
        → row ≡ row_of plan.floor told request.now i) }
    ensures tiers { P.tiers points.new ≡ P.tiers points.old }
    ensures told { (told : ℕ → List APoint) → P.tells points.old told → P.tells points.new told }
    ensures held { P.held points.new ≡ P.held points.old }
    ensures cause { HasCause (P.faults points.old) (P.faults points.new)
        (IsErrOf result PointFault.Disk) }
{
    let start = start_of(request, i);
    let cells = read_cells(
        alloc,
        points,
        plan,
        request.group,
        request.series.as_slice(),
        start,
        request.window,
    )?;
    Ok(TableRow { start, cells })
}

/// The answer to a request. Whatever it is, `points` stands for the same as before.
pub fn answer<P: Points>(
    alloc: Global,
    points: &mut P,
    request: &Request,
) -> Result<Table, PointFault>
    ensures answered { IfOk result (λ table. (told : ℕ → List APoint) → P.tells points.old told
        → table ≡ table_of (P.tiers points.old).widths
        (P.tiers points.old).floor told request.now) }
    ensures tiers { P.tiers points.new ≡ P.tiers points.old }
    ensures told { (told : ℕ → List APoint) → P.tells points.old told → P.tells points.new told }
    ensures held { P.held points.new ≡ P.held points.old }
    ensures cause { HasCause (P.faults points.old) (P.faults points.new)
        (IsErrOf result PointFault.Disk) }
{
    let plan = plan::plan_for(points, request.after, request.window);
    let mut rows = TableRowList::new(alloc);
    for i in 0..request.rows {
        let row = read_row(alloc, points, plan, request, i)?;
        rows.push(row)?;
    }
    Ok(Table { rows })
}
