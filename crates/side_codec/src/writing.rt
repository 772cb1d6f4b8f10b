ghost use Rattle.std.specs.Prelude.{◌≡◌, ◌++◌, ◌↔◌, Some, IsTrue, IfOk, OnOk, IsOkUnless};
ghost use Rattle.side_codec.specs.Sides.{read_side, series_bytes, series_in, side_bytes, AreSeries, HasSpelling, IsShort};

use crate::format::SideFormat;
use crate::gap::GapSpan;
use crate::side::Side;
use crate::{definitions, lasts, role};
use field_codec::list::put_list;
use field_codec::{ByteList, FieldFault, Writer};
use std::alloc::{AllocError, Global};

#[tactic(auto, unfolding(crate::specs::Sides::series_bytes))]
fn put_series(side: &Side, writer: &mut Writer) -> Result<(), FieldFault>
    requires { IsShort side.now }
    ensures put { OnOk result (writer.new ≡ writer.old ++ series_bytes (series_in side.now)) }
    ensures series { OnOk result (AreSeries (series_in side.now)) }
    ensures memory { IsOkUnless result FieldFault.Memory }
{
    definitions::put(side, writer)?;
    lasts::put(side, writer)
}

#[tactic(auto, unfolding(crate::specs::Sides::side_bytes))]
fn put_side(side: &Side, writer: &mut Writer) -> Result<(), FieldFault>
    requires { IsShort side.now }
    ensures put { OnOk result (writer.new ≡ writer.old ++ side_bytes side.now) }
    ensures written { OnOk result (HasSpelling side.now) }
    ensures memory { IsOkUnless result FieldFault.Memory }
{
    role::put(side.role, writer)?;
    put_series(side, writer)?;
    alarm_events::put_alarms(&side.alarms, writer)?;
    put_list::<SideFormat, GapSpan>(&side.gaps, writer)
}

fn write_fields(alloc: Global, side: &Side) -> Result<ByteList, FieldFault>
    requires { IsShort side.now }
    ensures spelling { IfOk result (λ bytes. bytes ≡ side_bytes side.now) }
    ensures written { OnOk result (HasSpelling side.now) }
{
    let mut writer = Writer::new(alloc);
    put_side(side, &mut writer)?;
    Ok(writer.into_bytes())
}

/// The one spelling of a side, whose parts fit one another: `is_short` tells it.
pub fn write_side(alloc: Global, side: &Side) -> Result<ByteList, AllocError>
    requires { IsShort side.now }
    ensures spelling { IfOk result (λ bytes. bytes ≡ side_bytes side.now) }
    ensures written { OnOk result (HasSpelling side.now) }
    ensures reads_back { IfOk result (λ bytes. read_side bytes ≡ Some side.now) }
{
    match write_fields(alloc, side) {
        Ok(bytes) => Ok(bytes),
        Err(_) => Err(AllocError),
    }
}
