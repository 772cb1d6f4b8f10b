ghost use Rattle.std.specs.Prelude.{◌≡◌, ◌⊎◌, Some, None, Ok, Err, IfOk, IfErr};
ghost use Rattle.field_codec.specs.Lists.{IsRefusal};
ghost use Rattle.side_codec.specs.Sides.{read_fields, read_series, read_side, side_bytes, HasSpelling, IsNoSpelling};

use crate::fault::SideFault;
use crate::format::SideFormat;
use crate::gap::GapSpan;
use crate::side::Side;
use crate::{definitions, lasts, role};
use definitions::Definitions;
use field_codec::list::take_list;
use field_codec::{FieldFault, Reader};
use lasts::Lasts;
use std::alloc::Global;

/// What each chart and each series is, and what it had last.
#[tactic(auto, unfolding(crate::specs::Sides::read_series))]
fn take_series(alloc: Global, reader: &mut Reader<'_>) -> Result<(Definitions, Lasts), FieldFault>
    ensures taken { IfOk result
        (λ series. read_series reader.old ≡ Ok ((series.0, series.1), reader.new)) }
    ensures fault { IfErr result (IsRefusal (read_series reader.old)) }
{
    let definitions = definitions::take(alloc, reader)?;
    let charts = definitions.charts.len() as u32;
    let series = definitions.dimensions.len() as u32;
    let lasts = lasts::take(alloc, charts, series, reader)?;
    Ok((definitions, lasts))
}

#[tactic(auto, unfolding(crate::specs::Sides::read_fields))]
fn take_fields(alloc: Global, reader: &mut Reader<'_>) -> Result<Side, FieldFault>
    ensures taken { IfOk result (λ side. read_fields reader.old ≡ Ok (side, reader.new)) }
    ensures fault { IfErr result (IsRefusal (read_fields reader.old)) }
{
    let role = role::take(reader)?;
    let (definitions, lasts) = take_series(alloc, reader)?;
    let alarms = alarm_events::take_alarms(alloc, reader)?;
    let gaps = take_list::<SideFormat, GapSpan>(alloc, reader)?;
    Ok(Side {
        role,
        charts: definitions.charts,
        dimensions: definitions.dimensions,
        chart_moments: lasts.chart_moments,
        last_rows: lasts.last_rows,
        last_points: lasts.last_points,
        alarms,
        gaps,
    })
}

#[tactic(auto, unfolding(crate::specs::Sides::read_side))]
fn take_whole(alloc: Global, bytes: &[u8]) -> Result<Side, SideFault>
    ensures value { IfOk result (λ side. read_side bytes.now ≡ Some side) }
    ensures fault { IfErr result (λ fault. (fault ≡ SideFault.Memory)
        ⊎ ((fault ≡ SideFault.BadBytes) × (read_side bytes.now ≡ None))) }
{
    let mut reader = Reader::new(bytes);
    let side = take_fields(alloc, &mut reader)?;
    if !reader.done() {
        return Err(SideFault::BadBytes);
    }
    Ok(side)
}

/// The side whose spelling the bytes are. `BadBytes` exactly where they are no spelling, unless
/// memory ran out before. Two charts, or two dimensions of one chart, may have one id, and a chart
/// any number of dimensions: a caller that defines them in a registry is to refuse that.
pub fn read_side(alloc: Global, bytes: &[u8]) -> Result<Side, SideFault>
    ensures value { IfOk result (λ side. read_side bytes.now ≡ Some side) }
    ensures fits { IfOk result HasSpelling }
    ensures spelling { IfOk result (λ side. bytes.now ≡ side_bytes side) }
    ensures refused { IfErr result (λ fault. (fault ≡ SideFault.Memory)
        ⊎ ((fault ≡ SideFault.BadBytes) × IsNoSpelling bytes.now)) }
{
    take_whole(alloc, bytes)
}
