ghost use Rattle.std.specs.Prelude.{◌≡◌, ◌⊎◌, ◌↔◌, [], ◌++◌, length, min, take, drop, Contains, Some, IsErr, IsTrue, IfOk, OnOk, OnErr};
ghost use Rattle.host_model.specs.Source.{Takes};
ghost use Rattle.host_model.specs.Link.{Sends, SendsPrefix};
ghost use Rattle.host_model.specs.Cause.{HasCause, Rose};
ghost use Rattle.host_model.specs.Calls.{raised};
ghost use Rattle.host_model.specs.MemoryLink.{after_send, after_link_fault, after_link_refusal};

use crate::calls::{CallList, ModelFault, is_listed};
use crate::contents::{copy_prefix, rest_from};
use crate::host::Failed;
use crate::link::Link;
use fixed_num::ByteList;
use std::alloc::Global;
use std::marker::Model;

/// A link in memory, whose peer's bytes are given beforehand and of which the listed calls fail.
#[derive(Debug, Drop)]
pub struct MemoryLink {
    /// The bytes that were sent so far.
    sent: ByteList,
    /// All bytes of the peer.
    bytes: ByteList,
    /// How many of the peer's bytes were taken.
    taken: usize,
    calls: u64,
    fails: CallList,
    faults: u64,
    refusals: u64,
}

impl Model for MemoryLink {
    ghost use Rattle.std.specs.Prelude.{◌≤◌, drop, length};
    ghost use Rattle.host_model.specs.MemoryLink.{LinkState};

    ghost Value = { LinkState };

    ghost view = { λ s. record {
      sent = s.sent;
      left = drop s.taken s.bytes;
      calls = s.calls;
      fails = s.fails;
      faults = s.faults;
      refusals = s.refusals;
    } };

    ghost invariant = { λ s. s.taken ≤ length s.bytes };
}

impl MemoryLink {
    /// A link that has sent nothing and will give a copy of `bytes`, no call of which was made yet. Of
    /// its calls, of both kinds together, the listed ones are to fail.
    pub fn new(alloc: Global, bytes: &[u8], fails: CallList) -> Result<MemoryLink, ModelFault>
        ensures { IfOk result (λ link. link ≡ record {
          sent = [];
          left = bytes.now;
          calls = 0;
          fails = fails;
          faults = 0;
          refusals = 0;
        }) }
    {
        Ok(MemoryLink {
            sent: ByteList::new(alloc),
            bytes: ByteList::from_slice(alloc, bytes).map_err(|_| ModelFault::Memory)?,
            taken: 0,
            calls: 0,
            fails,
            faults: 0,
            refusals: 0,
        })
    }

    /// All that was sent.
    pub fn sent(&self) -> &[u8]
        ensures { result.now ≡ self.now.sent }
    {
        self.sent.as_slice()
    }

    /// Counts a call, and says whether it is listed.
    fn begin(&mut self) -> bool
        ensures listed { IsTrue result ↔ Contains self.old.fails self.old.calls }
        ensures counted { self.new ≡ record self.old { calls = raised self.old.calls } }
    {
        let call = self.calls;
        self.calls = call.saturating_add(1);
        is_listed(self.fails.as_slice(), call)
    }

    /// Counts a call that failed.
    fn fail(&mut self) -> Failed
        ensures counted { self.new ≡ record self.old { faults = raised self.old.faults } }
        ensures rose { Rose self.old.faults self.new.faults }
    {
        self.faults = self.faults.saturating_add(1);
        Failed
    }
}

impl Link for MemoryLink {
    ghost sent = { λ link. Some link.sent };

    ghost left = { λ link. Some link.left };

    ghost faults = { λ link. link.faults };

    fn send(&mut self, bytes: &[u8]) -> Result<(), Failed>
        ensures cause { HasCause self.old.faults self.new.faults (IsErr result) }

        // A listed call fails, and another only where memory is refused to it. A call that fails sends
        // nothing.
        ensures listed { Contains self.old.fails self.old.calls → IsErr result }
        ensures done { OnOk result (self.new ≡ after_send self.old bytes.now) }
        ensures failed { OnErr result
            ((Contains self.old.fails self.old.calls × (self.new ≡ after_link_fault self.old))
            ⊎ ((Contains self.old.fails self.old.calls → ⊥)
            × (self.new ≡ after_link_refusal self.old))) }
    {
        if self.begin() {
            return Err(self.fail());
        }
        if self.sent.extend(bytes).is_err() {
            self.refusals = self.refusals.saturating_add(1);
            return Err(self.fail());
        }
        Ok(())
    }

    fn recv(&mut self, into: &mut [u8]) -> Result<usize, Failed>
        ensures bytes { IfOk result (λ n.
            Takes (Some self.old.left) (take n into.new) (Some self.new.left)) }
        ensures cause { HasCause self.old.faults self.new.faults (IsErr result) }

        // Exactly the listed calls fail, and each is counted.
        ensures listed { IsErr result ↔ Contains self.old.fails self.old.calls }
        ensures failed { OnErr result (self.new ≡ after_link_fault self.old) }

        // A call that is not listed takes as many bytes as are left and fit.
        ensures size { IfOk result (λ n. n ≡ min (length self.old.left) (length into.old)) }
        ensures taken { IfOk result (λ n. self.new
            ≡ record self.old { left = drop n self.old.left; calls = raised self.old.calls }) }
        ensures filled { IfOk result (λ n. into.new ≡ take n self.old.left ++ drop n into.old) }
        ensures untouched { OnErr result (into.new ≡ into.old) }
    {
        if self.begin() {
            return Err(self.fail());
        }
        let size = copy_prefix(rest_from(self.bytes.as_slice(), self.taken), into);
        self.taken += size;
        Ok(size)
    }
}
