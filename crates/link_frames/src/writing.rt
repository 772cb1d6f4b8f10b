//! From a frame to its bytes.
ghost use Rattle.std.specs.Prelude.{◌≡◌, ◌<◌, ◌≤◌, ◌^◌, ◌++◌, length, Err, IfOk, OnOk, IsErrOf, IsOkUnless};
ghost use Rattle.field_codec.specs.Spelling.{sized_bytes};
ghost use Rattle.replication.specs.Bytes.{data_bytes, names_bytes};
ghost use Rattle.link_frames.specs.Fields.{FitNames, FitsMessage};
ghost use Rattle.link_frames.specs.Frames.{ask_bytes, body_bytes, body_limit, frame_bytes, HasFields, HasSpelling, IsInForm};

use crate::fault::FrameFault;
use crate::form::{has_fields, is_in_form};
use crate::frame::{BODY_LIMIT, Frame};
use field_codec::{ByteList, FieldFault, Writer, list};
use replication::{Ask, Data, Names};
use std::alloc::Global;

#[tactic(auto, unfolding(crate::specs::Frames::ask_bytes))]
fn put_ask(ask: &Ask, writer: &mut Writer) -> Result<(), FieldFault>
    ensures put { OnOk result (writer.new ≡ writer.old ++ ask_bytes ask.now) }
    ensures memory { IsOkUnless result FieldFault.Memory }
{
    writer.put_u64(ask.child)?;
    writer.put_u32(ask.last)
}

#[tactic(auto, unfolding(replication::specs::Bytes::names_bytes))]
fn put_names(names: &Names, writer: &mut Writer) -> Result<(), FieldFault>
    requires { FitNames names.now }
    ensures put { OnOk result (writer.new ≡ writer.old ++ names_bytes names.now) }
    ensures memory { IsOkUnless result FieldFault.Memory }
{
    list::put_list(&names.charts, writer)?;
    list::put_list(&names.dimensions, writer)
}

#[tactic(auto, unfolding(replication::specs::Bytes::data_fields, replication::specs::Bytes::data_bytes))]
fn put_data(message: &Data, writer: &mut Writer) -> Result<(), FieldFault>
    requires { FitsMessage message.now }
    ensures put { OnOk result (writer.new ≡ writer.old ++ data_bytes message.now) }
    ensures memory { IsOkUnless result FieldFault.Memory }
{
    writer.put_u8(3)?;
    writer.put_u64(message.child)?;
    writer.put_u32(message.prev)?;
    writer.put_u32(message.from)?;
    writer.put_u32(message.upto)?;
    writer.put_u32(message.floor)?;
    put_names(&message.names, writer)?;
    list::put_list(&message.beats, writer)
}

#[tactic(auto, unfolding(crate::specs::Frames::body_bytes, field_codec::specs::Spelling::u8_bytes))]
fn put_body(frame: &Frame, writer: &mut Writer) -> Result<(), FieldFault>
    requires { HasFields frame.now }
    ensures put { OnOk result (writer.new ≡ writer.old ++ body_bytes frame.now) }
    ensures memory { IsOkUnless result FieldFault.Memory }
{
    match frame {
        Frame::Hello(child) => {
            writer.put_u8(1)?;
            writer.put_u64(*child)
        }
        Frame::Ask(ask) => {
            writer.put_u8(2)?;
            put_ask(ask, writer)
        }
        Frame::Data(message) => put_data(message, writer),
        Frame::Have(last) => {
            writer.put_u8(4)?;
            writer.put_u32(*last)
        }
        Frame::Bye(reason) => {
            writer.put_u8(5)?;
            writer.put_u8(*reason)
        }
    }
}

/// The body of a frame.
fn write_body(alloc: Global, frame: &Frame) -> Result<ByteList, FieldFault>
    requires { HasFields frame.now }
    ensures body { IfOk result (λ bytes. bytes ≡ body_bytes frame.now) }
    ensures memory { IsOkUnless result FieldFault.Memory }
{
    let mut writer = Writer::new(alloc);
    put_body(frame, &mut writer)?;
    Ok(writer.into_bytes())
}

/// A body behind its length.
fn write_sized(alloc: Global, body: &[u8]) -> Result<ByteList, FieldFault>
    requires { length body.now < 2 ^ 32 }
    ensures sized { IfOk result (λ bytes. bytes ≡ sized_bytes body.now) }
    ensures memory { IsOkUnless result FieldFault.Memory }
{
    let mut writer = Writer::new(alloc);
    writer.put_bytes(body)?;
    Ok(writer.into_bytes())
}

/// The one spelling of a frame. `BadFrame` where it is in no form, and else `FrameTooLong` where its body has more
/// than 2^24 bytes.
#[tactic(auto, unfolding(crate::specs::Frames::frame_bytes))]
pub fn write_frame(alloc: Global, frame: &Frame) -> Result<ByteList, FrameFault>
    ensures spelling { IfOk result (λ bytes. bytes ≡ frame_bytes frame.now) }
    ensures written { OnOk result (HasSpelling frame.now) }
    ensures bad { IsErrOf result FrameFault.BadFrame → HasFields frame.now
        → IsInForm frame.now → ⊥ }
    ensures long { IsErrOf result FrameFault.FrameTooLong → HasFields frame.now × IsInForm frame.now
        × (body_limit < length (body_bytes frame.now)) }
    ensures memory { HasSpelling frame.now → IsOkUnless result FrameFault.Memory }
{
    if !has_fields(frame) || !is_in_form(alloc, frame)? {
        return Err(FrameFault::BadFrame);
    }
    let body = write_body(alloc, frame)?;
    if body.len() > BODY_LIMIT as usize {
        return Err(FrameFault::FrameTooLong);
    }
    Ok(write_sized(alloc, body.as_slice())?)
}
