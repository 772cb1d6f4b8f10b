//! How long the text of a configuration may be, and what a source that fails leaves.

use crate::run::{host_of, run_over};
use host_model::{MemoryHost, Status};
use std::alloc::Global;
use std::test::Fail;

/// A comment of so many bytes is the configuration of a new database. Gives the status and what was told.
fn ending_of(alloc: Global, size: usize) -> Result<(Status, String), Fail> {
    let mut host = host_of(alloc, &[])?;
    run_over(alloc, &mut host, &["new", "7"], b"", &[])?;
    let text = vec![in alloc; b'#'; size]?;
    let ending = run_over(alloc, &mut host, &["health"], &text, &[])?;
    Ok((ending.status, ending.told))
}

#[test]
fn a_text_of_the_most_bytes_is_taken(rt: HostRuntime) -> Result<(), Fail> {
    let (status, told) = ending_of(rt.alloc(), 1_048_576)?;
    assert_eq!(rt; status, Status::Ok);
    assert_eq!(rt; told.as_str(), "STORED 1\n");
    Ok(())
}

#[test]
fn a_byte_more_is_too_long(rt: HostRuntime) -> Result<(), Fail> {
    let (status, told) = ending_of(rt.alloc(), 1_048_577)?;
    assert_eq!(rt; status, Status::Limit(0, 46));
    assert_eq!(rt; told.as_str(), "LIMIT 0 46\n");
    Ok(())
}

/// A configuration whose source fails at this call. Gives the status and what was told.
fn failing_at(alloc: Global, host: &mut MemoryHost, call: u64) -> Result<(Status, String), Fail> {
    let ending = run_over(alloc, host, &["health"], b"alarm: high\n", &[call])?;
    Ok((ending.status, ending.told))
}

#[test]
fn a_source_that_fails_stores_nothing(rt: HostRuntime) -> Result<(), Fail> {
    let mut host = host_of(rt.alloc(), &[])?;
    run_over(rt.alloc(), &mut host, &["new", "7"], b"", &[])?;
    for call in 0..2 {
        let (status, told) = failing_at(rt.alloc(), &mut host, call)?;
        assert_eq!(rt; status, Status::ReadFault, "at {call}");
        assert_eq!(rt; told.as_str(), "", "at {call}");
    }
    Ok(())
}
