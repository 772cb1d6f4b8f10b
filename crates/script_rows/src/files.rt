//! The files of a host, and hosts that have them.

use crate::commands::command;
use crate::runs::{host_of, is_right};
use host_model::{File, Host, MemoryHost};
use std::alloc::Global;
use std::test::Fail;

const FILES: [File; 7] = [
    File::CheckA,
    File::CheckB,
    File::JournalA,
    File::JournalB,
    File::Tier0,
    File::Tier1,
    File::Tier2,
];

/// How many calls a host has had that was given its files.
const GIVEN: u64 = 14;

/// The calls that fail: one of them, or all from it on.
#[derive(Clone, Copy)]
pub enum Refused {
    Once(u64),
    From(u64),
}

/// What a file holds.
#[derive(Drop)]
struct Held {
    file: File,
    bytes: Vec<u8>,
}

/// What the files of a host hold.
#[derive(Drop)]
pub struct Files {
    held: Vec<Held>,
}

fn held_in(alloc: Global, host: &mut MemoryHost, file: File) -> Result<Held, Fail> {
    let size = host.len(file)?;
    let mut bytes = vec![in alloc; 0; size as usize]?;
    host.read(file, 0, &mut bytes)?;
    Ok(Held { file, bytes })
}

impl Files {
    /// Those of this host.
    pub fn of(alloc: Global, host: &mut MemoryHost) -> Result<Files, Fail> {
        let mut held = Vec::new(alloc);
        for file in FILES {
            held.push(held_in(alloc, host, file)?)?;
        }
        Ok(Files { held })
    }

    /// Gives them to a new host.
    fn give(&self, host: &mut MemoryHost) -> Result<(), Fail> {
        for held in self.held.as_slice() {
            host.write_at(held.file, 0, held.bytes.as_slice())?;
            host.sync(held.file)?;
        }
        Ok(())
    }

    /// A host that has them.
    pub fn host(&self, alloc: Global) -> Result<MemoryHost, Fail> {
        let mut host = host_of(alloc, &[])?;
        self.give(&mut host)?;
        Ok(host)
    }

    /// A host that has them, and of which these calls then fail.
    pub fn host_with(&self, alloc: Global, refused: Refused) -> Result<MemoryHost, Fail> {
        let mut host = match refused {
            Refused::Once(call) => host_of(alloc, &[call.saturating_add(GIVEN)])?,
            Refused::From(call) => MemoryHost::fused(alloc, call.saturating_add(GIVEN))?,
        };
        self.give(&mut host)?;
        Ok(host)
    }
}

/// Runs a command that ends as it should.
fn take(alloc: Global, host: &mut MemoryHost, number: usize) -> Result<(), Fail> {
    let step = command(number)?;
    if !is_right(alloc, host, step)? {
        return Err(Fail::new(number));
    }
    Ok(())
}

/// A host behind the commands before this one, each of which ended as it should.
pub fn host_before(alloc: Global, number: usize) -> Result<MemoryHost, Fail> {
    let mut host = host_of(alloc, &[])?;
    for earlier in 0..number {
        take(alloc, &mut host, earlier)?;
    }
    Ok(host)
}
