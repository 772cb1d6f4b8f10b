//! From the body of a frame to the frame that has it.
ghost use Rattle.std.specs.Prelude.{◌≡◌, ◌≤◌, length, Ok, Err, IsErrOf, IfOk, IfErr};
ghost use Rattle.field_codec.specs.Lists.{IsRefusal};
ghost use Rattle.link_frames.specs.Frames.{body_bytes, body_limit, HasSpelling, IsInForm, IsNoBody};
ghost use Rattle.link_frames.specs.Reading.{read_ask, read_body, read_data, read_kind, read_names};

use crate::fault::FrameFault;
use crate::form::is_in_form;
use crate::frame::Frame;
use field_codec::{FieldFault, Reader, list};
use replication::{Ask, Data, Names};
use std::alloc::Global;

#[tactic(auto, unfolding(crate::specs::Reading::read_ask))]
fn take_ask(reader: &mut Reader<'_>) -> Result<Ask, FieldFault>
    ensures taken { IfOk result (λ ask. read_ask reader.old ≡ Ok (ask, reader.new)) }
    ensures fault { IfErr result (IsRefusal (read_ask reader.old)) }
{
    let child = reader.take_u64()?;
    let last = reader.take_u32()?;
    Ok(Ask { child, last })
}

#[tactic(auto, unfolding(crate::specs::Reading::read_names))]
fn take_names(alloc: Global, reader: &mut Reader<'_>) -> Result<Names, FieldFault>
    ensures taken { IfOk result (λ names. read_names reader.old ≡ Ok (names, reader.new)) }
    ensures fault { IfErr result (IsRefusal (read_names reader.old)) }
{
    let charts = list::take_list(alloc, reader)?;
    let dimensions = list::take_list(alloc, reader)?;
    Ok(Names { charts, dimensions })
}

#[tactic(auto, unfolding(crate::specs::Reading::read_data))]
fn take_data(alloc: Global, reader: &mut Reader<'_>) -> Result<Data, FieldFault>
    ensures taken { IfOk result (λ message. read_data reader.old ≡ Ok (message, reader.new)) }
    ensures fault { IfErr result (IsRefusal (read_data reader.old)) }
{
    let child = reader.take_u64()?;
    let prev = reader.take_u32()?;
    let from = reader.take_u32()?;
    let upto = reader.take_u32()?;
    let floor = reader.take_u32()?;
    let names = take_names(alloc, reader)?;
    let beats = list::take_list(alloc, reader)?;
    Ok(Data {
        child,
        prev,
        from,
        upto,
        floor,
        names,
        beats,
    })
}

/// The fields of a frame of this kind.
fn take_kind(alloc: Global, kind: u8, reader: &mut Reader<'_>) -> Result<Frame, FieldFault>
    ensures taken { IfOk result (λ frame. read_kind kind reader.old ≡ Ok (frame, reader.new)) }
    ensures fault { IfErr result (IsRefusal (read_kind kind reader.old)) }
{
    match kind {
        1 => Ok(Frame::Hello(reader.take_u64()?)),
        2 => Ok(Frame::Ask(take_ask(reader)?)),
        3 => Ok(Frame::Data(take_data(alloc, reader)?)),
        4 => Ok(Frame::Have(reader.take_u32()?)),
        5 => Ok(Frame::Bye(reader.take_u8()?)),
        _ => Err(FieldFault::Range),
    }
}

#[tactic(auto, unfolding(crate::specs::Reading::read_body, field_codec::specs::Reading::read_u8))]
fn take_body(alloc: Global, reader: &mut Reader<'_>) -> Result<Frame, FieldFault>
    ensures taken { IfOk result (λ frame. read_body reader.old ≡ Ok (frame, reader.new)) }
    ensures fault { IfErr result (IsRefusal (read_body reader.old)) }
{
    let kind = reader.take_u8()?;
    take_kind(alloc, kind, reader)
}

/// The frame with this body. `BadFrame` where there is none.
pub(crate) fn read_body(alloc: Global, body: &[u8]) -> Result<Frame, FrameFault>
    requires { length body.now ≤ body_limit }
    ensures spelling { IfOk result HasSpelling }
    ensures spelt { IfOk result (λ frame. body.now ≡ body_bytes frame) }
    ensures bad { IsErrOf result FrameFault.BadFrame → IsNoBody body.now }
    ensures short { IsErrOf result FrameFault.FrameTooLong → ⊥ }
{
    let mut reader = Reader::new(body);
    let frame = take_body(alloc, &mut reader)?;
    if !reader.done() {
        return Err(FrameFault::BadFrame);
    }
    if !is_in_form(alloc, &frame)? {
        return Err(FrameFault::BadFrame);
    }
    Ok(frame)
}
