//! What each chart and each series had last, as bytes.
ghost use Rattle.std.specs.Prelude.{◌≡◌, ◌≤◌, ◌^◌, ◌++◌, ◌<◌, ℕ, length, Ok, Err, IfOk, IfErr, OnOk, IsOkUnless};
ghost use Rattle.field_codec.specs.Lists.{IsRefusal};
ghost use Rattle.side_codec.specs.Lasts.{lasts_bytes, lasts_in, read_lasts, AreLasts, AreLastsFor};

use crate::format::SideFormat;
use crate::last_point::{LastPoint, LastPointList};
use crate::side::{MomentList, Side};
use algorithms::{Last, LastList};
use field_codec::list::{put_items, take_items};
use field_codec::{FieldFault, Reader, Writer};
use std::alloc::Global;

/// What each chart and each series had last.
#[derive(Drop)]
pub(crate) struct Lasts {
    pub(crate) chart_moments: MomentList,
    pub(crate) last_rows: LastList,
    pub(crate) last_points: LastPointList,
}

#[tactic(auto, unfolding(crate::specs::Lasts::lasts_bytes))]
pub(crate) fn put(side: &Side, writer: &mut Writer) -> Result<(), FieldFault>
    requires { AreLastsFor side.now }
    ensures put { OnOk result (writer.new ≡ writer.old ++ lasts_bytes (lasts_in side.now)) }
    ensures lasts { OnOk result
        (AreLasts (length side.now.charts) (length side.now.dimensions) (lasts_in side.now)) }
    ensures memory { IsOkUnless result FieldFault.Memory }
{
    put_items::<SideFormat, u32>(side.chart_moments.as_slice(), writer)?;
    put_items::<SideFormat, Option<Last>>(side.last_rows.as_slice(), writer)?;
    put_items::<SideFormat, Option<LastPoint>>(side.last_points.as_slice(), writer)
}

/// Takes the moments of so many charts, and the last rows and points of so many series.
#[tactic(auto, unfolding(crate::specs::Lasts::read_lasts))]
pub(crate) fn take(
    alloc: Global,
    charts: u32,
    series: u32,
    reader: &mut Reader<'_>,
) -> Result<Lasts, FieldFault>
    ensures taken { IfOk result
        (λ lasts. read_lasts charts series reader.old ≡ Ok (lasts, reader.new)) }
    ensures fault { IfErr result (IsRefusal (read_lasts charts series reader.old)) }
{
    let chart_moments = take_items::<SideFormat, u32>(alloc, charts, reader)?;
    let last_rows = take_items::<SideFormat, Option<Last>>(alloc, series, reader)?;
    let last_points = take_items::<SideFormat, Option<LastPoint>>(alloc, series, reader)?;
    Ok(Lasts {
        chart_moments,
        last_rows,
        last_points,
    })
}
