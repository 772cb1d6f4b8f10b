//! A source: its bytes in pieces.

use host_model::{CallList, MemorySource, Source};
use std::test::Fail;

#[test]
fn gives_its_bytes_in_pieces(rt: HostRuntime) -> Result<(), Fail> {
    let mut source = MemorySource::new(rt.alloc(), b"abcde", CallList::new(rt.alloc()))?;
    let mut piece = [b'-'; 3];
    assert_eq!(rt; source.pull(&mut piece)?, 3);
    assert_eq!(rt; source.pull(&mut piece)?, 2);
    assert_eq!(rt; piece.as_slice(), b"dec".as_slice());
    Ok(())
}
