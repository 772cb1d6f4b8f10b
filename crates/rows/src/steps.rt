//! Commands over one host, and the first of them that does not end as it should.

use crate::run::{ONE_POINT, host_of, run_over};
use host_model::{MemoryHost, Status};
use std::alloc::Global;
use std::test::Fail;

/// A command: its words, the input, what is told, and how it ends.
pub type Step = (&'static [&'static str], &'static str, &'static str, Status);

/// Makes a database.
pub const NEW: &[&str] = &["new", "7"];

/// Stores a text.
pub const RUN: &[&str] = &["run"];

/// The database is made.
pub const MAKE: Step = (NEW, "", "", Status::Ok);

/// Its first beat is stored.
pub const STORE: Step = (RUN, ONE_POINT, "STORED 1\n", Status::Ok);

/// How a command ended, and whether it told what is wanted.
pub fn step(alloc: Global, host: &mut MemoryHost, step: &Step) -> Result<(Status, bool), Fail> {
    let (words, input, told, _) = step;
    let end = run_over(alloc, host, words, input.as_bytes(), &[])?;
    Ok((end.status, end.told.as_str() == *told))
}

/// The first of the commands over this host that does not end as it should.
pub fn first_wrong_over(
    alloc: Global,
    host: &mut MemoryHost,
    steps: &[Step],
) -> Result<Option<usize>, Fail> {
    for (index, row) in steps.iter().enumerate() {
        if step(alloc, host, row)? != (row.3, true) {
            return Ok(Some(index));
        }
    }
    Ok(None)
}

/// The same over a new host.
pub fn first_wrong(alloc: Global, steps: &[Step]) -> Result<Option<usize>, Fail> {
    let mut host = host_of(alloc, &[])?;
    first_wrong_over(alloc, &mut host, steps)
}
