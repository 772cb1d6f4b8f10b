//! Commands that store nothing: each of their calls refused in turn, and a crash behind it.

use crate::files::Refused;
use crate::places::Place;
use crate::sweeps::{Seen, calls_of};
use host_model::{Keep, Status};
use std::alloc::Global;
use std::test::Fail;

/// Whether the command fails where this call is refused, tells no more than it should, and leaves what was there.
fn leaves_all(alloc: Global, place: &Place, call: u64, keep: Keep) -> Result<bool, Fail> {
    let mut host = place.files.host_with(alloc, Refused::Once(call))?;
    let end = place.run(alloc, &mut host)?;
    let is_fault = end.status == Status::DiskFault || end.status == Status::TellFault;
    let is_first = place.wanted.told.starts_with(end.told.as_str());
    Ok(is_fault && is_first && place.is_as_before(alloc, host, keep)?)
}

/// The crashes where each call is refused in turn.
pub fn sweep_reading(alloc: Global, place: &Place, keep: Keep) -> Result<Seen, Fail> {
    let mut crashes = 0u64;
    for call in 0..calls_of(alloc, place)? {
        if !leaves_all(alloc, place, call, keep)? {
            return Ok((crashes, Some(call)));
        }
        crashes = crashes.saturating_add(1);
    }
    Ok((crashes, None))
}
