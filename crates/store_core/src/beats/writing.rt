//! From a beat to its bytes.

ghost use Rattle.std.specs.Prelude.{◌≡◌, ◌++◌, IfOk, OnOk, IsOkUnless};
ghost use Rattle.std.specs.List.{flat_map, AllByRecursion};
ghost use Rattle.field_codec.specs.Lists.{IsShortListOf};
ghost use Rattle.field_codec.specs.Spelling.{list_bytes};
ghost use Rattle.store_core.specs.beats.Beats.{beat_bytes, moment_bytes, point_bytes, IsPoint, IsShort};

use crate::beats::beat::{Beat, BeatPoint};
use field_codec::{FieldFault, Writer};
use fixed_num::ByteList;
use std::alloc::{AllocError, Global};

#[tactic(auto, unfolding(crate::specs::beats::Beats::moment_bytes))]
fn put_moment(moment: Option<u32>, writer: &mut Writer) -> Result<(), FieldFault>
    ensures put { OnOk result (writer.new ≡ writer.old ++ moment_bytes moment) }
    ensures memory { IsOkUnless result FieldFault.Memory }
{
    writer.put_u32(moment.unwrap_or(0))
}

#[tactic(auto, unfolding(crate::specs::beats::Beats::point_bytes))]
fn put_point(point: &BeatPoint, writer: &mut Writer) -> Result<(), FieldFault>
    ensures put { OnOk result (writer.new ≡ writer.old ++ point_bytes point.now) }
    ensures memory { IsOkUnless result FieldFault.Memory }
{
    writer.put_u32(point.series)?;
    writer.put_u32(point.step)?;
    writer.put_u32(point.word)
}

fn put_points(points: &[BeatPoint], writer: &mut Writer) -> Result<(), FieldFault>
    ensures put { OnOk result (writer.new ≡ writer.old ++ flat_map point_bytes points.now) }
    ensures memory { IsOkUnless result FieldFault.Memory }
{
    for point in points {
        put_point(point, writer)?;
    }
    Ok(())
}

#[tactic(auto, unfolding(field_codec::specs::Spelling::list_bytes))]
fn put_list(points: &[BeatPoint], writer: &mut Writer) -> Result<(), FieldFault>
    requires { IsShortListOf IsPoint points.now }
    ensures put { OnOk result (writer.new ≡ writer.old ++ list_bytes point_bytes points.now) }
    ensures memory { IsOkUnless result FieldFault.Memory }
{
    writer.put_u32(points.len() as u32)?;
    put_points(points, writer)
}

#[tactic(auto, unfolding(crate::specs::beats::Beats::beat_bytes))]
fn put_beat(beat: &Beat, writer: &mut Writer) -> Result<(), FieldFault>
    requires { IsShort beat.now }
    ensures put { OnOk result (writer.new ≡ writer.old ++ beat_bytes beat.now) }
    ensures memory { IsOkUnless result FieldFault.Memory }
{
    put_moment(beat.moment, writer)?;
    put_list(beat.points.as_slice(), writer)?;
    writer.put_bytes(beat.note.as_slice())
}

/// The bytes of a beat, as a record of a journal has them.
pub fn write_beat(alloc: Global, beat: &Beat) -> Result<ByteList, AllocError>
    requires { IsShort beat.now }
    ensures { IfOk result (λ bytes. bytes ≡ beat_bytes beat.now) }
{
    let mut writer = Writer::new(alloc);
    match put_beat(beat, &mut writer) {
        Ok(()) => Ok(writer.into_bytes()),
        Err(_) => Err(AllocError),
    }
}
