ghost use Rattle.std.specs.Prelude.{◌≡◌, ◌⊎◌, Ok, Err, Some, None, IfOk, IfErr};
ghost use Rattle.tier_settings.specs.Limits.{HasWidths};
ghost use Rattle.field_codec.specs.Lists.{read_list, IsRefusal};
ghost use Rattle.field_codec.specs.Reading.{read_bytes, read_u32, read_u64};
ghost use Rattle.checkpoint_body.specs.Body.{body_bytes, read_body, read_fields, HasSpelling, IsNoSpelling};
ghost use Rattle.checkpoint_body.specs.Fields.{read_each, read_extent, read_quota, read_settings, read_version};

use crate::body::{Body, ExtentList, PointTier, RecordTier};
use crate::canonical;
use crate::fault::BodyFault;
use crate::of_tiers::OfTiers;
use field_codec::list::take_list;
use field_codec::{ByteList, FieldFault, Reader};
use std::alloc::Global;
use tier_settings::Settings;

#[tactic(auto, unfolding(crate::specs::Fields::read_quota))]
fn take_quota(reader: &mut Reader<'_>) -> Result<(u32, u32), FieldFault>
    ensures taken { IfOk result (λ quota. read_quota reader.old ≡ Ok (quota, reader.new)) }
    ensures fault { IfErr result (λ fault. read_quota reader.old ≡ Err fault) }
{
    let items = reader.take_u32()?;
    let extents = reader.take_u32()?;
    Ok((items, extents))
}

#[tactic(auto, unfolding(crate::specs::Fields::read_version))]
fn take_version(reader: &mut Reader<'_>) -> Result<(), FieldFault>
    ensures taken { IfOk result (λ _. read_version reader.old ≡ Ok (1, reader.new)) }
    ensures fault { IfErr result (λ fault. read_version reader.old ≡ Err fault) }
{
    if reader.take_u8()? == 1 {
        Ok(())
    } else {
        Err(FieldFault::Range)
    }
}

#[tactic(auto, unfolding(crate::specs::Fields::read_settings))]
fn take_settings(alloc: Global, reader: &mut Reader<'_>) -> Result<Settings, FieldFault>
    ensures taken { IfOk result (λ settings. read_settings reader.old ≡ Ok (settings, reader.new)) }
    ensures widths { IfOk result (λ settings. HasWidths settings.tiers) }
    ensures fault { IfErr result (IsRefusal (read_settings reader.old)) }
{
    take_version(reader)?;
    let id = reader.take_u64()?;
    let first = take_quota(reader)?;
    let second = take_quota(reader)?;
    let third = take_quota(reader)?;
    Ok(Settings::new(alloc, id, [first, second, third])?)
}

fn take_floors(reader: &mut Reader<'_>) -> Result<OfTiers<u32>, FieldFault>
    ensures taken { IfOk result
        (λ floors. read_each read_u32 reader.old ≡ Ok (floors, reader.new)) }
    ensures fault { IfErr result (λ fault. read_each read_u32 reader.old ≡ Err fault) }
{
    let points = reader.take_u32()?;
    let minutes = reader.take_u32()?;
    let hours = reader.take_u32()?;
    Ok(OfTiers {
        points,
        minutes,
        hours,
    })
}

fn take_sealed(reader: &mut Reader<'_>) -> Result<OfTiers<u64>, FieldFault>
    ensures taken { IfOk result
        (λ sealed. read_each read_u64 reader.old ≡ Ok (sealed, reader.new)) }
    ensures fault { IfErr result (λ fault. read_each read_u64 reader.old ≡ Err fault) }
{
    let points = reader.take_u64()?;
    let minutes = reader.take_u64()?;
    let hours = reader.take_u64()?;
    Ok(OfTiers {
        points,
        minutes,
        hours,
    })
}

fn take_extents(alloc: Global, reader: &mut Reader<'_>) -> Result<OfTiers<ExtentList>, FieldFault>
    ensures taken { IfOk result
        (λ extents. read_each (read_list read_extent) reader.old ≡ Ok (extents, reader.new)) }
    ensures fault { IfErr result (IsRefusal (read_each (read_list read_extent) reader.old)) }
{
    let points = take_list(alloc, reader)?;
    let minutes = take_list(alloc, reader)?;
    let hours = take_list(alloc, reader)?;
    Ok(OfTiers {
        points,
        minutes,
        hours,
    })
}

fn take_side(alloc: Global, reader: &mut Reader<'_>) -> Result<ByteList, FieldFault>
    ensures taken { IfOk result (λ bytes. read_bytes reader.old ≡ Ok (bytes, reader.new)) }
    ensures fault { IfErr result (IsRefusal (read_bytes reader.old)) }
{
    match reader.take_bytes() {
        Ok(bytes) => Ok(ByteList::from_slice(alloc, bytes)?),
        Err(fault) => Err(fault),
    }
}

#[tactic(auto, unfolding(crate::specs::Body::read_fields))]
fn take_body(alloc: Global, reader: &mut Reader<'_>) -> Result<Body, FieldFault>
    ensures taken { IfOk result (λ body. read_fields reader.old ≡ Ok (body, reader.new)) }
    ensures widths { IfOk result (λ body. HasWidths body.settings.tiers) }
    ensures fault { IfErr result (IsRefusal (read_fields reader.old)) }
{
    let settings = take_settings(alloc, reader)?;
    let count = reader.take_u64()?;
    let last = reader.take_u32()?;
    let floors = take_floors(reader)?;
    let before = reader.take_u64()?;
    let sealed = take_sealed(reader)?;
    let extents = take_extents(alloc, reader)?;
    let open_minutes = take_list(alloc, reader)?;
    let open_hours = take_list(alloc, reader)?;
    let points = take_list(alloc, reader)?;
    let minutes = take_list(alloc, reader)?;
    let hours = take_list(alloc, reader)?;
    let side = take_side(alloc, reader)?;
    Ok(Body {
        settings,
        count,
        last,
        points: PointTier {
            floor: floors.points,
            before,
            sealed: sealed.points,
            extents: extents.points,
            pages: points,
        },
        minutes: RecordTier {
            floor: floors.minutes,
            sealed: sealed.minutes,
            extents: extents.minutes,
            open_records: open_minutes,
            pages: minutes,
        },
        hours: RecordTier {
            floor: floors.hours,
            sealed: sealed.hours,
            extents: extents.hours,
            open_records: open_hours,
            pages: hours,
        },
        side,
    })
}

#[tactic(auto, unfolding(crate::specs::Body::read_body))]
fn take_whole(alloc: Global, bytes: &[u8]) -> Result<Body, BodyFault>
    ensures value { IfOk result (λ body. read_body bytes.now ≡ Some body) }
    ensures fault { IfErr result
        (λ fault. (fault ≡ BodyFault.Memory) ⊎ (read_body bytes.now ≡ None)) }
{
    let mut reader = Reader::new(bytes);
    let body = take_body(alloc, &mut reader)?;
    if !reader.done() || !canonical::is_canonical(&body) {
        return Err(BodyFault::BadBody);
    }
    Ok(body)
}

/// The body whose spelling the bytes are. `BadBody` where they are the spelling of none.
pub fn read_body(alloc: Global, bytes: &[u8]) -> Result<Body, BodyFault>
    ensures value { IfOk result (λ body. read_body bytes.now ≡ Some body) }
    ensures fits { IfOk result HasSpelling }
    ensures spelling { IfOk result (λ body. bytes.now ≡ body_bytes body) }
    ensures refused { IfErr result (λ fault. (fault ≡ BodyFault.Memory) ⊎ IsNoSpelling bytes.now) }
{
    take_whole(alloc, bytes)
}
