ghost use Rattle.std.specs.Prelude.{◌≡◌, ◌<◌, ◌^◌, ◌++◌, length, flat_map, IfOk, OnOk, IsOkUnless};
ghost use Rattle.field_codec.specs.Lists.{IsShortListOf};
ghost use Rattle.field_codec.specs.Spelling.{list_bytes, u32_bytes, u64_bytes};
ghost use Rattle.checkpoint_body.specs.Body.{body_bytes, extents_of, floors_of, sealed_of, FitsBody, HasSpelling};
ghost use Rattle.checkpoint_body.specs.Fields.{each_bytes, extent_bytes, quota_bytes, settings_bytes, FitsExtent, IsEach};

use crate::body::Body;
use field_codec::list::put_list;
use field_codec::{ByteList, FieldFault, Writer};
use std::alloc::{AllocError, Global};
use tier_settings::{Settings, Tier};

#[tactic(auto, unfolding(crate::specs::Fields::quota_bytes))]
fn put_quota(tier: &Tier, writer: &mut Writer) -> Result<(), FieldFault>
    ensures put { OnOk result (writer.new ≡ writer.old ++ quota_bytes tier.now) }
    ensures memory { IsOkUnless result FieldFault.Memory }
{
    writer.put_u32(tier.items)?;
    writer.put_u32(tier.extents)
}

fn put_quotas(tiers: &[Tier], writer: &mut Writer) -> Result<(), FieldFault>
    ensures put { OnOk result (writer.new ≡ writer.old ++ flat_map quota_bytes tiers.now) }
    ensures memory { IsOkUnless result FieldFault.Memory }
{
    for tier in tiers {
        put_quota(tier, writer)?;
    }
    Ok(())
}

#[tactic(auto, unfolding(crate::specs::Fields::settings_bytes))]
fn put_settings(settings: &Settings, writer: &mut Writer) -> Result<(), FieldFault>
    ensures put { OnOk result (writer.new ≡ writer.old ++ settings_bytes settings.now) }
    ensures memory { IsOkUnless result FieldFault.Memory }
{
    writer.put_u8(1)?;
    writer.put_u64(settings.id)?;
    put_quotas(settings.tiers.as_slice(), writer)
}

fn put_floors(body: &Body, writer: &mut Writer) -> Result<(), FieldFault>
    ensures put { OnOk result
        (writer.new ≡ writer.old ++ each_bytes u32_bytes (floors_of body.now)) }
    ensures memory { IsOkUnless result FieldFault.Memory }
{
    writer.put_u32(body.points.floor)?;
    writer.put_u32(body.minutes.floor)?;
    writer.put_u32(body.hours.floor)
}

fn put_sealed(body: &Body, writer: &mut Writer) -> Result<(), FieldFault>
    ensures put { OnOk result
        (writer.new ≡ writer.old ++ each_bytes u64_bytes (sealed_of body.now)) }
    ensures memory { IsOkUnless result FieldFault.Memory }
{
    writer.put_u64(body.points.sealed)?;
    writer.put_u64(body.minutes.sealed)?;
    writer.put_u64(body.hours.sealed)
}

fn put_extents(body: &Body, writer: &mut Writer) -> Result<(), FieldFault>
    requires { IsEach (IsShortListOf FitsExtent) (extents_of body.now) }
    ensures put { OnOk result
        (writer.new ≡ writer.old ++ each_bytes (list_bytes extent_bytes) (extents_of body.now)) }
    ensures memory { IsOkUnless result FieldFault.Memory }
{
    put_list(&body.points.extents, writer)?;
    put_list(&body.minutes.extents, writer)?;
    put_list(&body.hours.extents, writer)
}

#[tactic(auto, unfolding(crate::specs::Body::body_bytes))]
fn put_body(body: &Body, writer: &mut Writer) -> Result<(), FieldFault>
    requires { FitsBody body.now }
    ensures put { OnOk result (writer.new ≡ writer.old ++ body_bytes body.now) }
    ensures memory { IsOkUnless result FieldFault.Memory }
{
    put_settings(&body.settings, writer)?;
    writer.put_u64(body.count)?;
    writer.put_u32(body.last)?;
    put_floors(body, writer)?;
    writer.put_u64(body.points.before)?;
    put_sealed(body, writer)?;
    put_extents(body, writer)?;
    put_list(&body.minutes.open_records, writer)?;
    put_list(&body.hours.open_records, writer)?;
    put_list(&body.points.pages, writer)?;
    put_list(&body.minutes.pages, writer)?;
    put_list(&body.hours.pages, writer)?;
    writer.put_bytes(body.side.as_slice())
}

/// The one spelling of a body that has one.
pub fn write_body(alloc: Global, body: &Body) -> Result<ByteList, AllocError>
    requires { HasSpelling body.now }
    ensures { IfOk result (λ bytes. bytes ≡ body_bytes body.now) }
{
    let mut writer = Writer::new(alloc);
    match put_body(body, &mut writer) {
        Ok(()) => Ok(writer.into_bytes()),
        Err(_) => Err(AllocError),
    }
}
