//! Whether a frame fits its fields, and whether it is one that an end of a link may send.
ghost use Rattle.std.specs.Prelude.{◌<◌, ◌↔◌, ◌^◌, IfOk, IsTrue};
ghost use Rattle.link_frames.specs.Fields.{FitNames, FitsAsk, FitsMessage};
ghost use Rattle.link_frames.specs.Frames.{HasFields, IsInForm};

use crate::data_form::is_data;
use crate::frame::{BAD_FRAME, DONE, Frame, WRONG_CHILD};
use field_codec::list;
use replication::{Ask, Data, Names};
use std::alloc::{AllocError, Global};

// A number that is read is known to be in the range of its type.

fn is_u64(_number: u64) -> bool
    ensures { IsTrue result ↔ (_number < 2 ^ 64) }
{
    true
}

fn is_u32(_number: u32) -> bool
    ensures { IsTrue result ↔ (_number < 2 ^ 32) }
{
    true
}

fn is_u8(_number: u8) -> bool
    ensures { IsTrue result ↔ (_number < 2 ^ 8) }
{
    true
}

fn fits_ask(ask: &Ask) -> bool
    ensures { IsTrue result ↔ FitsAsk ask.now }
{
    let (_child, _last) = (ask.child, ask.last);
    true
}

fn fit_names(names: &Names) -> bool
    ensures { IsTrue result ↔ FitNames names.now }
{
    list::is_short_list(&names.charts) && list::is_short_list(&names.dimensions)
}

fn fits_message(message: &Data) -> bool
    ensures { IsTrue result ↔ FitsMessage message.now }
{
    let (_child, _prev, _from) = (message.child, message.prev, message.from);
    let (_upto, _floor) = (message.upto, message.floor);
    fit_names(&message.names) && list::is_short_list(&message.beats)
}

/// Whether the numbers, texts and lists of a frame fit their fields.
pub(crate) fn has_fields(frame: &Frame) -> bool
    ensures { IsTrue result ↔ HasFields frame.now }
{
    match frame {
        Frame::Hello(child) => is_u64(*child),
        Frame::Ask(ask) => fits_ask(ask),
        Frame::Data(message) => fits_message(message),
        Frame::Have(last) => is_u32(*last),
        Frame::Bye(reason) => is_u8(*reason),
    }
}

/// Whether the fields of a frame say what an end of a link may say.
pub(crate) fn is_in_form(alloc: Global, frame: &Frame) -> Result<bool, AllocError>
    ensures { IfOk result (λ yes. IsTrue yes ↔ IsInForm frame.now) }
{
    match frame {
        Frame::Hello(_) | Frame::Ask(_) | Frame::Have(_) => Ok(true),
        Frame::Data(message) => is_data(alloc, message),
        Frame::Bye(reason) => Ok(matches!(*reason, DONE | WRONG_CHILD | BAD_FRAME)),
    }
}
