//! The tests of `store_core::disk`: what the files of a database hold, on a host in memory.

mod making;
mod opening;
