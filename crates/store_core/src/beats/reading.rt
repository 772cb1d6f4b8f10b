//! From bytes to the beat that has them.

ghost use Rattle.std.specs.Prelude.{◌≡◌, ◌∷◌, ◌++◌, [], Ok, Err, IfOk, IfErr, OnOk, IsOkUnless};
ghost use Rattle.field_codec.specs.Reading.{read_bytes};
ghost use Rattle.field_codec.specs.Lists.{read_items, read_list, IsRefusal};
ghost use Rattle.store_core.specs.beats.Beats.{beat_in, read_fields, read_moment, read_point};

use crate::beats::beat::{Beat, BeatPoint, BeatPointList};
use crate::beats::form;
use field_codec::{FieldFault, Reader};
use fixed_num::ByteList;
use std::alloc::{AllocError, Global};

#[tactic(auto, unfolding(crate::specs::beats::Beats::read_moment))]
fn take_moment(reader: &mut Reader<'_>) -> Result<Option<u32>, FieldFault>
    ensures taken { IfOk result (λ moment. read_moment reader.old ≡ Ok (moment, reader.new)) }
    ensures fault { IfErr result (IsRefusal (read_moment reader.old)) }
{
    match reader.take_u32()? {
        0 => Ok(None),
        moment => Ok(Some(moment)),
    }
}

#[tactic(auto, unfolding(crate::specs::beats::Beats::read_point))]
fn take_point(reader: &mut Reader<'_>) -> Result<BeatPoint, FieldFault>
    ensures taken { IfOk result (λ point. read_point reader.old ≡ Ok (point, reader.new)) }
    ensures fault { IfErr result (IsRefusal (read_point reader.old)) }
{
    let series = reader.take_u32()?;
    let step = reader.take_u32()?;
    let word = reader.take_u32()?;
    Ok(BeatPoint { series, step, word })
}

fn push(points: &mut BeatPointList, point: BeatPoint) -> Result<(), FieldFault>
    ensures ok { OnOk result (points.new ≡ points.old ++ point ∷ []) }
    ensures memory { IsOkUnless result FieldFault.Memory }
{
    points.push(point).map_err(|_| FieldFault::Memory)
}

/// So many points, one after the other. The list grows with what is read, and not by the count.
fn take_points(
    alloc: Global,
    count: u32,
    reader: &mut Reader<'_>,
) -> Result<BeatPointList, FieldFault>
    ensures taken { IfOk result
        (λ points. read_items read_point count reader.old ≡ Ok (points, reader.new)) }
    ensures fault { IfErr result (IsRefusal (read_items read_point count reader.old)) }
{
    let mut points = BeatPointList::new(alloc);
    for _ in 0..count {
        let point = take_point(reader)?;
        push(&mut points, point)?;
    }
    Ok(points)
}

#[tactic(auto, unfolding(field_codec::specs::Lists::read_list))]
fn take_list(alloc: Global, reader: &mut Reader<'_>) -> Result<BeatPointList, FieldFault>
    ensures taken { IfOk result
        (λ points. read_list read_point reader.old ≡ Ok (points, reader.new)) }
    ensures fault { IfErr result (IsRefusal (read_list read_point reader.old)) }
{
    let count = reader.take_u32()?;
    take_points(alloc, count, reader)
}

fn take_note(alloc: Global, reader: &mut Reader<'_>) -> Result<ByteList, FieldFault>
    ensures taken { IfOk result (λ bytes. read_bytes reader.old ≡ Ok (bytes, reader.new)) }
    ensures fault { IfErr result (IsRefusal (read_bytes reader.old)) }
{
    match reader.take_bytes() {
        Ok(bytes) => Ok(ByteList::from_slice(alloc, bytes)?),
        Err(fault) => Err(fault),
    }
}

#[tactic(auto, unfolding(crate::specs::beats::Beats::read_fields))]
fn take_beat(alloc: Global, reader: &mut Reader<'_>) -> Result<Beat, FieldFault>
    ensures taken { IfOk result (λ beat. read_fields reader.old ≡ Ok (beat, reader.new)) }
    ensures fault { IfErr result (IsRefusal (read_fields reader.old)) }
{
    let moment = take_moment(reader)?;
    let points = take_list(alloc, reader)?;
    let note = take_note(alloc, reader)?;
    Ok(Beat {
        moment,
        points,
        note,
    })
}

/// The beat in form that has these bytes, if there is one.
#[tactic(auto, unfolding(crate::specs::beats::Beats::beat_in))]
pub fn read_beat(alloc: Global, bytes: &[u8]) -> Result<Option<Beat>, AllocError>
    ensures { IfOk result (λ found. found ≡ beat_in bytes.now) }
{
    let mut reader = Reader::new(bytes);
    match take_beat(alloc, &mut reader) {
        Ok(beat) => {
            if reader.done() && form::has_form(&beat) {
                Ok(Some(beat))
            } else {
                Ok(None)
            }
        }
        Err(FieldFault::Memory) => Err(AllocError),
        Err(_) => Ok(None),
    }
}
