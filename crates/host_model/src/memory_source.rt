ghost use Rattle.std.specs.Prelude.{◌≡◌, ◌↔◌, ◌++◌, length, min, take, drop, Contains, Some, IsErr, IfOk, OnErr};
ghost use Rattle.host_model.specs.Source.{Takes};
ghost use Rattle.host_model.specs.Cause.{HasCause};
ghost use Rattle.host_model.specs.Calls.{raised};

use crate::calls::{CallList, ModelFault, is_listed};
use crate::contents::{copy_prefix, rest_from};
use crate::host::Failed;
use crate::source::Source;
use fixed_num::ByteList;
use std::alloc::Global;
use std::marker::Model;

/// A source over bytes in memory, of which the listed calls fail.
#[derive(Debug, Drop)]
pub struct MemorySource {
    bytes: ByteList,
    /// How many of the bytes were taken.
    taken: usize,
    calls: u64,
    fails: CallList,
    faults: u64,
}

impl Model for MemorySource {
    ghost use Rattle.std.specs.Prelude.{◌≤◌, drop, length};
    ghost use Rattle.host_model.specs.MemorySource.{SourceState};

    ghost Value = { SourceState };

    ghost view = { λ s.
        record {
          left = drop s.taken s.bytes;
          calls = s.calls;
          fails = s.fails;
          faults = s.faults;
        } };

    ghost invariant = { λ s. s.taken ≤ length s.bytes };
}

impl MemorySource {
    /// A source of a copy of `bytes`, no call of which was made yet.
    pub fn new(alloc: Global, bytes: &[u8], fails: CallList) -> Result<MemorySource, ModelFault>
        ensures { IfOk result (λ source.
            source ≡ record { left = bytes.now; calls = 0; fails = fails; faults = 0 }) }
    {
        Ok(MemorySource {
            bytes: ByteList::from_slice(alloc, bytes).map_err(|_| ModelFault::Memory)?,
            taken: 0,
            calls: 0,
            fails,
            faults: 0,
        })
    }
}

impl Source for MemorySource {
    ghost left = { λ source. Some source.left };

    ghost faults = { λ source. source.faults };

    fn pull(&mut self, into: &mut [u8]) -> Result<usize, Failed>
        ensures bytes { IfOk result (λ n.
            Takes (Some self.old.left) (take n into.new) (Some self.new.left)) }
        ensures cause { HasCause self.old.faults self.new.faults (IsErr result) }

        // Exactly the listed calls fail, and each is counted.
        ensures listed { IsErr result ↔ Contains self.old.fails self.old.calls }
        ensures failed { OnErr result (self.new
            ≡ record self.old { calls = raised self.old.calls; faults = raised self.old.faults }) }

        // A call that is not listed takes as many bytes as are left and fit.
        ensures size { IfOk result (λ n. n ≡ min (length self.old.left) (length into.old)) }
        ensures taken { IfOk result (λ n. self.new
            ≡ record self.old { left = drop n self.old.left; calls = raised self.old.calls }) }
        ensures filled { IfOk result (λ n. into.new ≡ take n self.old.left ++ drop n into.old) }
        ensures untouched { OnErr result (into.new ≡ into.old) }
    {
        let call = self.calls;
        self.calls = call.saturating_add(1);
        if is_listed(self.fails.as_slice(), call) {
            self.faults = self.faults.saturating_add(1);
            return Err(Failed);
        }
        let size = copy_prefix(rest_from(self.bytes.as_slice(), self.taken), into);
        self.taken += size;
        Ok(size)
    }
}
