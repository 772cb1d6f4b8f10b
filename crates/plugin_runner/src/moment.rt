//! The moments of beats.
ghost use Rattle.std.specs.Prelude.{◌≡◌, ◌<◌, ◌≤◌, ◌++◌, codes, decimal, IfOk};
ghost use Rattle.plugin_runner.specs.Text.{moment};

use fixed_num::ByteList;
use std::alloc::{AllocError, Global};

/// The first number that is too late for a moment.
const TOO_LATE: u64 = 4_294_967_296;

/// The moment of a beat, in seconds since 1970: the larger of the last multiple of `every` up to the
/// clock's reading and the first one above the last moment, and at most 4,294,967,296.
pub(crate) fn moment(every: u32, last: u32, reading: u64) -> u64
    requires { 0 < every }
    ensures value { result ≡ moment every last reading }
    ensures range { result ≤ TOO_LATE }
{
    let every = u64::from(every);
    let at_clock = reading / every * every;
    let above_last = (u64::from(last) / every + 1) * every;
    at_clock.max(above_last).min(TOO_LATE)
}

/// The line that closes a beat.
pub(crate) fn moment_line(alloc: Global, moment: u64) -> Result<ByteList, AllocError>
    ensures { IfOk result (λ line. line ≡ codes "MOMENT " ++ decimal moment) }
{
    let mut line = ByteList::from_slice(alloc, b"MOMENT ")?;
    line.extend(itoa::Buffer::new().format(moment).as_bytes())?;
    Ok(line)
}
