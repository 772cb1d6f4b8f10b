//! A host: what a crash leaves of its files, and what was told.

use host_model::{CallList, File, Host, Keep, MemoryHost};
use std::alloc::Global;
use std::test::Fail;

const FILE: File = File::JournalA;

fn host_of(alloc: Global) -> Result<MemoryHost, Fail> {
    Ok(MemoryHost::new(alloc, CallList::new(alloc))?)
}

/// A host on whose disk `abcd` holds.
fn synced(alloc: Global) -> Result<MemoryHost, Fail> {
    let mut host = host_of(alloc)?;
    host.write_at(FILE, 0, b"abcd")?;
    host.sync(FILE)?;
    Ok(host)
}

/// What the file reads as after a crash, with `-` behind its end.
fn left(host: MemoryHost, keep: Keep) -> Result<[u8; 5], Fail> {
    let mut host = host.stop(keep)?;
    let mut bytes = [b'-'; 5];
    host.read(FILE, 0, &mut bytes)?;
    Ok(bytes)
}

/// What a crash leaves after a write.
fn written(alloc: Global, keep: Keep) -> Result<[u8; 5], Fail> {
    let mut host = synced(alloc)?;
    host.write_at(FILE, 0, b"XY")?;
    left(host, keep)
}

/// What a crash leaves after a cut and a write.
fn cut(alloc: Global, keep: Keep) -> Result<[u8; 5], Fail> {
    let mut host = synced(alloc)?;
    host.cut(FILE, 0)?;
    host.write_at(FILE, 0, b"XY")?;
    left(host, keep)
}

#[test]
fn crashes_leave_what_was_worked_out_by_hand(rt: HostRuntime) -> Result<(), Fail> {
    for (keep, one, other) in [
        (Keep::All, b"XYcd-", b"XY---"),
        (Keep::None, b"abcd-", b"abcd-"),
        (Keep::Fill(b'*'), b"**cd-", b"****-"),
    ] {
        assert_eq!(rt; written(rt.alloc(), keep)?.as_slice(), one.as_slice());
        assert_eq!(rt; cut(rt.alloc(), keep)?.as_slice(), other.as_slice());
    }
    Ok(())
}

#[test]
fn tells_what_was_sent(rt: HostRuntime) -> Result<(), Fail> {
    let mut host = host_of(rt.alloc())?;
    host.tell(b"ab")?;
    host.tell(b"c")?;
    assert_eq!(rt; host.told(), b"abc".as_slice());
    Ok(())
}

#[test]
fn all_calls_past_the_fuse_fail(rt: HostRuntime) -> Result<(), Fail> {
    let mut host = MemoryHost::fused(rt.alloc(), 0)?;
    assert!(rt; host.sync(FILE).is_err());
    let mut host = host.stop(Keep::All)?;
    assert_eq!(rt; host.len(FILE)?, 0);
    Ok(())
}
