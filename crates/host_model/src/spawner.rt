ghost use Rattle.std.specs.Prelude.{◌≡◌, ◌≢◌, ℕ, ◌<◌, ◌≤◌, [], length, take, Option, Some, IsErr, IfOk, IfSome, IsSomeAnd, OnOk, OnErr, option_map};
ghost use Rattle.host_model.specs.Cause.{HasCause};
ghost use Rattle.host_model.specs.Spawner.{Children, after_start, before_bytes, after_end};

use crate::host::Failed;
use fixed_num::WordsList;

/// What starts other programs, one after the other. A program that was started is a child: it writes
/// bytes and ends with a status.
pub trait Spawner {
    /// The starts so far, the child that runs and the children to come, where the spawner tells them.
    ghost children: { Self → Option Children };

    /// How many calls have failed. The count stands still at 2^64 - 1.
    ghost faults: { Self → ℕ };

    /// Starts a program. The first word names it, and the others are handed to it. A child that runs
    /// is left behind. `Failed` has started nothing.
    fn start(&mut self, words: &WordsList) -> Result<(), Failed>
        ensures started { OnOk result
            (children self.new ≡ option_map (after_start words.now) (children self.old)) }
        ensures came { OnOk result (IfSome (children self.old) (λ old. old.coming ≢ [])) }
        ensures kept { OnErr result (children self.new ≡ children self.old) }
        ensures cause { HasCause (faults self.old) (faults self.new) (IsErr result) };

    /// Takes the next bytes that the child writes into the start of `into`, and says how many. No byte
    /// for an `into` that has room means that the child writes no more. `Failed` takes nothing.
    fn pull(&mut self, into: &mut [u8]) -> Result<usize, Failed>
        ensures within { IfOk result (λ n. n ≤ length into.new) }
        ensures bytes { IfOk result (λ n.
            children self.old ≡ option_map (before_bytes (take n into.new)) (children self.new)) }
        ensures end { IfOk result (λ n. n ≡ 0 → 0 < length into.new
            → IfSome (children self.new) (λ new. IfSome new.running (λ child. child.left ≡ []))) }
        ensures kept { OnErr result (children self.new ≡ children self.old) }
        ensures cause { HasCause (faults self.old) (faults self.new) (IsErr result) };

    /// Waits for the child's end, and gives its status: what it ended with, or -1 where a signal ended
    /// it. What it wrote and was not taken is lost.
    fn finish(&mut self) -> Result<i32, Failed>
        ensures status { IfOk result (λ status. IfSome (children self.old)
            (λ old. IsSomeAnd old.running (λ child. child.status ≡ status))) }
        ensures ended { OnOk result
            (children self.new ≡ option_map after_end (children self.old)) }
        ensures kept { OnErr result (children self.new ≡ children self.old) }
        ensures cause { HasCause (faults self.old) (faults self.new) (IsErr result) };

    /// Ends the child that runs, if one does. After `Failed` it may go on.
    fn stop(&mut self) -> Result<(), Failed>
        ensures ended { OnOk result
            (children self.new ≡ option_map after_end (children self.old)) }
        ensures kept { OnErr result (children self.new ≡ children self.old) }
        ensures cause { HasCause (faults self.old) (faults self.new) (IsErr result) };
}
