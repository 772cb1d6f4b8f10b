//! A database on a host in memory: made, appended to, and brought to the next checkpoint.

ghost use Rattle.std.specs.Prelude.{◌≡◌, [], IfOk};
ghost use Rattle.checkpoint_body.specs.Body.{HasSpelling};
ghost use Rattle.store_core.specs.disk.Advancing.{NamesNone};

use checkpoint_body::{Body, read_body};
use fixed_num::ListOf;
use host_model::{CallList, MemoryHost};
use std::alloc::Global;
use std::test::Fail;
use store_core::OpenFault;
use store_core::disk::{Sealed, create, open};

/// The bytes of a body that keeps nothing: the version, the id, and of each tier 4 items and 4 extents.
fn body_bytes() -> [u8; 125] {
    let mut bytes = [0; 125];
    bytes[0] = 1;
    bytes[1] = 7;
    for place in 2..8usize {
        bytes[1 + 4 * place] = 4;
    }
    bytes
}

/// The body of these bytes, if it names no extent.
fn empty_body(alloc: Global) -> Result<Body, OpenFault>
    ensures spelt { IfOk result HasSpelling }
    ensures none { IfOk result NamesNone }
{
    let Ok(body) = read_body(alloc, body_bytes().as_slice()) else {
        return Err(OpenFault::Memory);
    };
    if !body.points.extents.is_empty() {
        return Err(OpenFault::Damaged(2));
    }
    if !body.minutes.extents.is_empty() {
        return Err(OpenFault::Damaged(2));
    }
    if !body.hours.extents.is_empty() {
        return Err(OpenFault::Damaged(2));
    }
    Ok(body)
}

fn nothing_sealed(alloc: Global) -> Sealed
    ensures points { result.points ≡ [] }
    ensures minutes { result.minutes ≡ [] }
    ensures hours { result.hours ≡ [] }
{
    Sealed {
        points: ListOf::new(alloc),
        minutes: ListOf::new(alloc),
        hours: ListOf::new(alloc),
    }
}

/// Makes a database, adds a record, and makes the next checkpoint, and says whether all went well.
fn run(alloc: Global, host: &mut MemoryHost) -> bool {
    let Ok(body) = empty_body(alloc) else {
        return false;
    };
    let Ok(mut files) = create(alloc, host, &body) else {
        return false;
    };
    if files.journal_bytes() > 1 << 60 || files.append(host, b"one").is_err() {
        return false;
    }
    let sealed = nothing_sealed(alloc);
    if files.number() == u64::MAX || files.checkpoint(alloc, host, &body, &sealed).is_err() {
        return false;
    }
    true
}

#[test]
fn makes_appends_and_goes_on(rt: HostRuntime) -> Result<(), Fail> {
    let mut host = MemoryHost::new(rt.alloc(), CallList::new(rt.alloc()))?;
    assert!(rt; run(rt.alloc(), &mut host));
    let found = open(rt.alloc(), &mut host)?;
    assert_eq!(rt; found.files.number(), 1);
    assert_eq!(rt; found.records.len(), 0);
    Ok(())
}
