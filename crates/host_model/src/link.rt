ghost use Rattle.std.specs.Prelude.{◌≡◌, ℕ, ◌<◌, ◌≤◌, List, [], length, take, Option, IsErr, IfOk, IfSome, OnOk, OnErr};
ghost use Rattle.host_model.specs.Source.{Takes};
ghost use Rattle.host_model.specs.Link.{Sends, SendsPrefix};
ghost use Rattle.host_model.specs.Cause.{HasCause};

use crate::host::Failed;

/// A way to and from a peer, which may send anything, fall silent or go away.
pub trait Link {
    /// The bytes that were sent so far, where the link tells them.
    ghost sent: { Self → Option (List ℕ) };

    /// The bytes that are still to come from the peer, where the link tells them.
    ghost left: { Self → Option (List ℕ) };

    /// How many calls have failed. The count stands still at 2^64 - 1.
    ghost faults: { Self → ℕ };

    /// Sends `bytes`, all of them. After `Failed` a prefix of them may have been sent.
    fn send(&mut self, bytes: &[u8]) -> Result<(), Failed>
        ensures done { OnOk result (Sends (sent self.old) bytes.now (sent self.new)) }
        ensures torn { OnErr result (SendsPrefix (sent self.old) bytes.now (sent self.new)) }
        ensures left { left self.new ≡ left self.old }
        ensures cause { HasCause (faults self.old) (faults self.new) (IsErr result) };

    /// Takes bytes from the start of what is left into the start of `into`, and says how many. No
    /// byte for an `into` that has room means that the peer sends no more. `Failed` takes nothing.
    fn recv(&mut self, into: &mut [u8]) -> Result<usize, Failed>
        ensures within { IfOk result (λ n. n ≤ length into.new) }
        ensures bytes { IfOk result (λ n. Takes (left self.old) (take n into.new) (left self.new)) }
        ensures end { IfOk result (λ n.
            n ≡ 0 → 0 < length into.new → IfSome (left self.new) (λ bytes. bytes ≡ [])) }
        ensures kept { OnErr result (left self.new ≡ left self.old) }
        ensures sent { sent self.new ≡ sent self.old }
        ensures cause { HasCause (faults self.old) (faults self.new) (IsErr result) };
}
