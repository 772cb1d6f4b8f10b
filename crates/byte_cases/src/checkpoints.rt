//! The tests of `checkpoint`: two files, and which of them counts.

use checkpoint::{CheckFault, load, switch};
use host_model::{CallList, Failed, File, Host, MemoryHost};
use std::alloc::Global;
use std::test::Fail;

// Each call stands in a function of its own that promises nothing, so that a test's proof carries little.

fn empty_host(alloc: Global) -> Result<MemoryHost, Fail> {
    Ok(MemoryHost::new(alloc, CallList::new(alloc))?)
}

/// Whether this number and this body are loaded.
fn loads(
    alloc: Global,
    host: &mut MemoryHost,
    number: u64,
    body: &[u8],
) -> Result<bool, CheckFault> {
    let (found, bytes) = load(alloc, host)?;
    Ok(found == number && bytes.as_slice() == body)
}

fn switched(host: &mut MemoryHost, number: u64, body: &[u8]) -> Result<(), Failed> {
    switch(host, number, body)
}

/// Writes these bytes into an empty file, unless the host fails.
fn put(host: &mut MemoryHost, file: File, bytes: &[u8]) {
    let _ = host.write_at(file, 0, bytes);
}

#[test]
fn the_first_checkpoint(rt: HostRuntime) -> Result<(), Fail> {
    let mut host = empty_host(rt.alloc())?;
    let none = loads(rt.alloc(), &mut host, 0, b"");
    assert_eq!(rt; none, Err(CheckFault::NoneOpen));
    switched(&mut host, 0, b"abc")?;
    assert!(rt; loads(rt.alloc(), &mut host, 0, b"abc")?);
    Ok(())
}

const SIX: &[u8] = b"\x01\x06\0\0\0\0\0\0\0\x01\0\0\0\0\0\0\0a";

const SEVEN: &[u8] = b"\x01\x07\0\0\0\0\0\0\0\x02\0\0\0\0\0\0\0bc";

#[test]
fn the_larger_number_counts(rt: HostRuntime) -> Result<(), Fail> {
    let mut host = empty_host(rt.alloc())?;
    put(&mut host, File::CheckA, SIX);
    put(&mut host, File::CheckB, SEVEN);
    assert!(rt; loads(rt.alloc(), &mut host, 7, b"bc")?);
    Ok(())
}
