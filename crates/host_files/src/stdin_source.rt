ghost use Rattle.std.specs.Prelude.{◌≡◌, ◌<◌, ◌≤◌, ◌↔◌, length, IfOk, IsSome, None};

use crate::faults::Faults;
use host_model::{Failed, Source};
use std::io;
use std::io::{ErrorKind, Read};

/// A reader as a source, which is standard input in the program. It tells nothing.
#[derive(Drop)]
pub struct StdinSource<R> {
    reader: R,
    faults: Faults<io::Error>,
}

impl<R: Read + Drop> StdinSource<R> {
    /// A source of which no call has failed.
    pub fn new(reader: R) -> StdinSource<R>
        ensures { ⟦<StdinSource<R> as Source>⟧.faults result ≡ 0 }
    {
        StdinSource {
            reader,
            faults: Faults::new(),
        }
    }

    /// Why the first call that failed did.
    pub fn error(&self) -> Option<io::Error>
        ensures { IsSome result ↔ (0 < ⟦<StdinSource<R> as Source>⟧.faults self.now) }
    {
        self.faults.first()
    }
}

/// Reads once, and again where a signal came between.
pub(crate) fn read_on<R: Read>(reader: &mut R, into: &mut [u8]) -> io::Result<usize>
    ensures { IfOk result (λ n. n ≤ length into.new) }
{
    for _ in 0..u64::MAX {
        match reader.read(into) {
            Err(error) if error.kind() == ErrorKind::Interrupted => {}
            outcome => return outcome,
        }
    }
    Err(io::Error::from(ErrorKind::Interrupted))
}

impl<R: Read + Drop> Source for StdinSource<R> {
    ghost left = { λ _. None };

    ghost faults = { λ source. source.faults.count };

    fn pull(&mut self, into: &mut [u8]) -> Result<usize, Failed> {
        match read_on(&mut self.reader, into) {
            Ok(taken) => Ok(taken),
            Err(reason) => {
                self.faults.add(reason);
                Err(Failed)
            }
        }
    }
}
