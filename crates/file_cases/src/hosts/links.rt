//! A link: what is sent and taken.

use host_model::{CallList, Link, MemoryLink};
use std::test::Fail;

/// Whether a value may go to another thread shows in that it may be passed here.
fn crossed<T: Send>(value: T) -> T {
    value
}

#[test]
fn sends_and_gives_bytes(rt: HostRuntime) -> Result<(), Fail> {
    let link = MemoryLink::new(rt.alloc(), b"ab", CallList::new(rt.alloc()))?;
    let mut link = crossed(link);
    let mut piece = [b'-'; 3];
    link.send(b"xy")?;
    assert_eq!(rt; link.recv(&mut piece)?, 2);
    assert_eq!(rt; piece.as_slice(), b"ab-".as_slice());
    assert_eq!(rt; link.sent(), b"xy".as_slice());
    Ok(())
}
