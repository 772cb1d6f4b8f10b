ghost use Rattle.std.specs.Prelude.{◌≤◌, IfOk};

use super::*;
use std::cell::Cell;
use std::test::Fail;

/// A file of the eight bytes `abcdefgh`, every second call on which a signal cuts short; each other
/// gives or takes two bytes at most, and none behind the eighth.
#[derive(Drop)]
struct Slow {
    calls: Cell<u64>,
}

impl Slow {
    /// How many bytes this call gives or takes.
    fn step(&self, len: usize, offset: u64) -> io::Result<usize>
        ensures { IfOk result (λ n. n ≤ len) }
    {
        let call = self.calls.get();
        self.calls.set(call.wrapping_add(1));
        if call % 2 == 0 {
            return Err(io::Error::from(ErrorKind::Interrupted));
        }
        let most = if offset < 8 { 2 } else { 0 };
        Ok(len.min(most))
    }
}

impl FileExt for Slow {
    fn read_at(&self, buf: &mut [u8], offset: u64) -> io::Result<usize> {
        let size = self.step(buf.len(), offset)?;
        for (place, byte) in buf.iter_mut().enumerate() {
            let behind = offset.wrapping_add(place as u64) % 8;
            *byte = b'a'.wrapping_add(behind as u8);
        }
        Ok(size)
    }

    fn write_at(&self, buf: &[u8], offset: u64) -> io::Result<usize> {
        self.step(buf.len(), offset)
    }
}

fn slow_file() -> Slow {
    Slow {
        calls: Cell::new(0),
    }
}

#[test]
fn a_short_read_goes_on_where_it_was(rt: HostRuntime) -> Result<(), Fail> {
    let mut bytes = [b'-'; 6];
    assert_eq!(rt; read_all_at(&slow_file(), 0, &mut bytes)?, 6);
    assert_eq!(rt; bytes.as_slice(), b"abcdef".as_slice());
    assert_eq!(rt; read_all_at(&slow_file(), 6, &mut bytes)?, 2);
    Ok(())
}

#[test]
fn a_file_whose_sync_failed_is_lost(rt: HostRuntime) -> Result<(), Fail> {
    let mut files = Handles::new(rt.alloc(), &rt, ".", Use::ReadAndWrite)?;
    // What has no disk below it cannot be synced.
    files.handles[2] = Handle::Open(fs::open(&rt, "/dev/null")?);
    assert!(rt; files.sync(File::JournalA).is_err());
    assert!(rt; files.len(File::JournalA).is_err());
    assert!(rt; files.write_at(File::JournalA, 0, b"a").is_err());
    assert!(rt; files.sync(File::JournalA).is_err());
    assert_eq!(rt; files.len(File::CheckA)?, 0);
    Ok(())
}
