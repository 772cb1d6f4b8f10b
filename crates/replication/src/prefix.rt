ghost use Rattle.std.specs.Prelude.{◌≡◌, ℕ, ◌<◌, ◌≤◌, length, take, IfOk};
ghost use Rattle.replication.specs.Answer.{AreNames, AreBeatsOf, data_with, prefix};

use crate::answer::{BEAT_LIMIT, DATA_LIMIT};
use crate::beats::Beat;
use crate::fault::CopyFault;
use crate::marks::Marks;
use crate::names::Names;
use std::alloc::Global;

/// How many bytes the body of a `Data`'s frame has without names and beats.
const EMPTY_SIZE: usize = 37;

/// How many of the beats a `Data` may have: as many as come within 64 beats and 2^20 bytes, but at least one.
pub(crate) fn fitting_len(alloc: Global, names: &Names, later: &[Beat]) -> Result<usize, CopyFault>
    requires names { AreNames names.now }
    requires series { AreBeatsOf (length names.now.dimensions) later.now }
    requires some { 0 < length later.now }
    ensures within { IfOk result (λ count. count ≤ length later.now) }
    ensures prefix { IfOk result (λ count. (child floor prev : ℕ)
        → take count later.now ≡ prefix (data_with child floor prev names.now) later.now) }
{
    let mut marks = Marks::new(alloc, names)?;
    let mut room = DATA_LIMIT - EMPTY_SIZE;
    let mut count = 0;
    for beat in later {
        if count == BEAT_LIMIT {
            break;
        }
        match marks.room_after(names, beat, room) {
            Some(left) => room = left,
            None => break,
        }
        count += 1;
    }
    Ok(count.max(1))
}
