ghost use Rattle.std.specs.Prelude.{◌↔◌, IsTrue, pos, ◌≤ℤ◌};

use std::fs::{File, Files};
use std::os::fd::AsRawFd;

/// Whether a descriptor is that of standard input, standard output or standard error.
pub(crate) fn is_standard(descriptor: i32) -> bool
    ensures { IsTrue result ↔ (descriptor ≤ℤ pos 2) }
{
    descriptor <= 2
}

/// What stands in for the standard streams that were closed when the program began.
///
/// The system gives a file that is opened the lowest descriptor that is free. So without this a
/// database that is opened could become standard output, and be written over. Each stand-in is
/// `/dev/null`, opened for reading alone: it reads as empty, and a write to it fails.
#[derive(Drop)]
pub struct StandIns {
    _first: Option<File>,
    _second: Option<File>,
    _third: Option<File>,
}

impl StandIns {
    /// Opens a stand-in for each standard stream that is closed. They stay open as long as this lives.
    pub fn open<R: Files<File = File>>(system: &R) -> StandIns {
        StandIns {
            _first: stand_in(system),
            _second: stand_in(system),
            _third: stand_in(system),
        }
    }
}

/// Opens `/dev/null` in the place of a standard stream, where one is closed.
fn stand_in<R: Files<File = File>>(system: &R) -> Option<File> {
    let Ok(opened) = File::open(system, "/dev/null") else {
        return None;
    };
    if is_standard(opened.as_raw_fd()) {
        Some(opened)
    } else {
        None
    }
}
