ghost use Rattle.std.specs.Prelude.{◌≡◌, ◌⊎◌, ◌↔◌, ◌∷◌, [], ◌++◌, length, min, take, drop, Contains, Some, None, Ok, IsErr, IsTrue, IfOk, IfSome, IsSomeAnd, OnOk, OnErr, option_map};
ghost use Rattle.host_model.specs.Cause.{HasCause, Rose};
ghost use Rattle.host_model.specs.Calls.{raised};
ghost use Rattle.host_model.specs.Spawner.{before_bytes, after_start, after_end};
ghost use Rattle.host_model.specs.MemorySpawner.{CannotStart, HasNoChild, IsListed, after_pull, after_spawner_call, after_spawner_fault, after_spawner_refusal, with_child};

use crate::calls::{CallList, ModelFault, is_listed};
use crate::contents::{copy_prefix, rest_from};
use crate::host::Failed;
use crate::spawner::Spawner;
use fixed_num::{ByteList, ListOf, WordsList};
use std::alloc::{AllocError, Global};
use std::collections::VecDeque;
use std::marker::Model;

/// A child in memory.
#[derive(Debug, Drop)]
struct MemoryChild {
    /// All bytes that it writes.
    bytes: ByteList,
    /// How many of them were taken.
    taken: usize,
    status: i32,
}

impl Model for MemoryChild {
    ghost use Rattle.std.specs.Prelude.{◌≤◌, drop, length};
    ghost use Rattle.host_model.specs.Spawner.{Child};

    ghost Value = { Child };

    ghost view = { λ child. record { left = drop child.taken child.bytes; status = child.status } };

    ghost invariant = { λ child. child.taken ≤ length child.bytes };
}

impl MemoryChild {
    /// Takes as many bytes as are left and fit, and says how many.
    fn pull(&mut self, into: &mut [u8]) -> usize
        ensures size { result ≡ min (length self.old.left) (length into.old) }
        ensures taken { self.new ≡ record self.old { left = drop result self.old.left } }
        ensures filled { into.new ≡ take result self.old.left ++ drop result into.old }
        ensures bytes { self.old.left ≡ take result into.new ++ self.new.left }
    {
        let size = copy_prefix(rest_from(self.bytes.as_slice(), self.taken), into);
        self.taken += size;
        size
    }
}

/// A spawner in memory, whose children are given beforehand and of which the listed calls fail.
#[derive(Debug, Drop)]
pub struct MemorySpawner {
    alloc: Global,
    starts: ListOf<WordsList>,
    running: Option<MemoryChild>,
    coming: VecDeque<MemoryChild>,
    calls: u64,
    fails: CallList,
    faults: u64,
    refusals: u64,
}

impl Model for MemorySpawner {
    ghost use Rattle.host_model.specs.MemorySpawner.{SpawnerState};

    ghost Value = { SpawnerState };

    ghost view = { λ s. record {
      children = record { starts = s.starts; running = s.running; coming = s.coming.items };
      calls = s.calls;
      fails = s.fails;
      faults = s.faults;
      refusals = s.refusals;
    } };
}

/// A copy of these words.
fn copy_words(alloc: Global, words: &WordsList) -> Result<WordsList, AllocError>
    ensures { IfOk result (λ copy. copy ≡ words.now) }
{
    let mut copy = WordsList::new(alloc);
    for word in words.as_slice() {
        copy.push(word.clone()?)?;
    }
    Ok(copy)
}

impl MemorySpawner {
    /// A spawner with no child to come, no call of which was made yet. Of its calls, of all kinds
    /// together, the listed ones are to fail.
    pub fn new(alloc: Global, fails: CallList) -> MemorySpawner
        ensures { result ≡ record {
          children = record { starts = []; running = None; coming = [] };
          calls = 0;
          fails = fails;
          faults = 0;
          refusals = 0;
        } }
    {
        MemorySpawner {
            alloc,
            starts: ListOf::new(alloc),
            running: None,
            coming: VecDeque::new(alloc),
            calls: 0,
            fails,
            faults: 0,
            refusals: 0,
        }
    }

    /// Puts a child behind those to come, which writes a copy of `bytes` and ends with `status`. After
    /// an `Err` all is as before.
    pub fn add(&mut self, bytes: &[u8], status: i32) -> Result<(), ModelFault>
        ensures ok { OnOk result (self.new
            ≡ with_child self.old (record { left = bytes.now; status = status })) }
        ensures err { OnErr result (self.new ≡ self.old) }
    {
        let bytes = ByteList::from_slice(self.alloc, bytes).map_err(|_| ModelFault::Memory)?;
        let child = MemoryChild {
            bytes,
            taken: 0,
            status,
        };
        self.coming.push_back(child).map_err(|_| ModelFault::Memory)
    }

    /// The words of the starts so far.
    pub fn starts(&self) -> &[WordsList]
        ensures { result.now ≡ self.now.children.starts }
    {
        self.starts.as_slice()
    }

    /// Counts a call, and says whether it is listed.
    fn begin(&mut self) -> bool
        ensures listed { IsTrue result ↔ Contains self.old.fails self.old.calls }
        ensures counted { self.new ≡ record self.old { calls = raised self.old.calls } }
    {
        let call = self.calls;
        self.calls = call.saturating_add(1);
        is_listed(self.fails.as_slice(), call)
    }

    /// Counts a call that failed.
    fn fail(&mut self) -> Failed
        ensures counted { self.new ≡ record self.old { faults = raised self.old.faults } }
        ensures rose { Rose self.old.faults self.new.faults }
    {
        self.faults = self.faults.saturating_add(1);
        Failed
    }

    /// Keeps the words of a start. After an `Err` all is as before.
    fn note(&mut self, words: &WordsList) -> Result<(), AllocError>
        ensures ok { OnOk result (self.new ≡ record self.old {
          children = record self.old.children {
            starts = self.old.children.starts ++ words.now ∷ [];
          };
        }) }
        ensures err { OnErr result (self.new ≡ self.old) }
    {
        let words = copy_words(self.alloc, words)?;
        self.starts.push(words)?;
        Ok(())
    }
}

impl Spawner for MemorySpawner {
    ghost children = { λ spawner. Some spawner.children };

    ghost faults = { λ spawner. spawner.faults };

    fn start(&mut self, words: &WordsList) -> Result<(), Failed>
        ensures cause { HasCause self.old.faults self.new.faults (IsErr result) }

        // A listed call fails, and one with no child to come, and another only where memory is refused
        // to it. A call that fails starts nothing.
        ensures refused { CannotStart self.old → IsErr result }
        ensures done { OnOk result (self.new
            ≡ after_spawner_call self.old (after_start words.now self.old.children)) }
        ensures failed { OnErr result
            ((CannotStart self.old × (self.new ≡ after_spawner_fault self.old))
            ⊎ ((CannotStart self.old → ⊥) × (self.new ≡ after_spawner_refusal self.old))) }
    {
        if self.begin() || self.coming.is_empty() {
            return Err(self.fail());
        }
        if self.note(words).is_err() {
            self.refusals = self.refusals.saturating_add(1);
            return Err(self.fail());
        }
        self.running = self.coming.pop_front();
        Ok(())
    }

    fn pull(&mut self, into: &mut [u8]) -> Result<usize, Failed>
        ensures bytes { IfOk result (λ n.
            self.old.children ≡ before_bytes (take n into.new) self.new.children) }
        ensures cause { HasCause self.old.faults self.new.faults (IsErr result) }

        // Exactly the listed calls fail, and those with no child that runs.
        ensures refused { IsErr result ↔ HasNoChild self.old }
        ensures failed { OnErr result (self.new ≡ after_spawner_fault self.old) }

        // Another call takes as many bytes as are left and fit.
        ensures size { IfOk result (λ n. IsSomeAnd self.old.children.running
            (λ child. n ≡ min (length child.left) (length into.old))) }
        ensures taken { IfOk result (λ n. self.new
            ≡ after_spawner_call self.old (after_pull n self.old.children)) }
        ensures filled { IfOk result (λ n. IsSomeAnd self.old.children.running
            (λ child. into.new ≡ take n child.left ++ drop n into.old)) }
        ensures untouched { OnErr result (into.new ≡ into.old) }
    {
        let listed = self.begin();
        match &mut self.running {
            Some(child) if !listed => Ok(child.pull(into)),
            _ => Err(self.fail()),
        }
    }

    fn finish(&mut self) -> Result<i32, Failed>
        ensures cause { HasCause self.old.faults self.new.faults (IsErr result) }

        // Exactly the listed calls fail, and those with no child that runs.
        ensures refused { IsErr result ↔ HasNoChild self.old }
        ensures failed { OnErr result (self.new ≡ after_spawner_fault self.old) }
        ensures status { IfOk result (λ status.
            IsSomeAnd self.old.children.running (λ child. child.status ≡ status)) }
        ensures done { OnOk result (self.new
            ≡ after_spawner_call self.old (after_end self.old.children)) }
    {
        if self.begin() {
            return Err(self.fail());
        }
        match self.running.take() {
            Some(child) => Ok(child.status),
            None => Err(self.fail()),
        }
    }

    fn stop(&mut self) -> Result<(), Failed>
        ensures cause { HasCause self.old.faults self.new.faults (IsErr result) }

        // Exactly the listed calls fail.
        ensures listed { IsErr result ↔ IsListed self.old }
        ensures failed { OnErr result (self.new ≡ after_spawner_fault self.old) }
        ensures done { OnOk result (self.new
            ≡ after_spawner_call self.old (after_end self.old.children)) }
    {
        if self.begin() {
            return Err(self.fail());
        }
        self.running = None;
        Ok(())
    }
}
