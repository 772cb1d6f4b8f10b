ghost use Rattle.std.specs.Prelude.{◌≡◌, ℕ, ◌+◌, ◌≤◌, true, OnOk};
ghost use Rattle.history.specs.Limits.{is_one_line};
ghost use Rattle.plugin_text.specs.Lines.{fits};
ghost use Rattle.line_stream.specs.Chain.{Acts};
ghost use Rattle.line_stream.specs.declared.stream.TheConstants.{INPUT_LIMIT};

use host_model::{Host, Status};

/// Who takes the lines of a text, and does something with them on a host.
///
/// Each call says how the run ends where it does. What a call does is a relation between what was before and
/// what is after it, which the taker names.
pub trait Taker<H: Host> {
    /// The line with this number may be handed over; the first line has the number 1.
    ghost ready: { Self → H → ℕ → Type 0 };

    /// What each call does.
    ghost acts: { Acts Self H };

    /// Takes a line, which stands there without its line feed. `Err` says how the run ends.
    fn take_line(&mut self, host: &mut H, number: u64, line: &[u8]) -> Result<(), Status>
        requires ready { ready self.old host.old number }
        requires few { number ≤ INPUT_LIMIT }
        requires short { fits line.now ≡ true }
        requires whole { is_one_line line.now ≡ true }
        ensures takes { acts.takes self.old host.old number line.now result self.new host.new }
        ensures ready { OnOk result (ready self.new host.new (number + 1)) };

    /// The input may be slow to go on: what waits can be told now. `Err` says how the run ends.
    fn pause(&mut self, host: &mut H) -> Result<(), Status>
        requires ready { (number : ℕ) × ready self.old host.old number }
        ensures pauses { acts.pauses self.old host.old result self.new host.new }
        ensures ready { OnOk result
            ((number : ℕ) → ready self.old host.old number → ready self.new host.new number) };

    /// The input has ended after so many lines, with these bytes behind the last line feed. Says how the run
    /// ends.
    fn end(&mut self, host: &mut H, lines: u64, rest: &[u8]) -> Status
        requires ready { ready self.old host.old (lines + 1) }
        requires few { lines ≤ INPUT_LIMIT }
        requires short { fits rest.now ≡ true }
        ensures ends { acts.ends self.old host.old lines rest.now result self.new host.new };

    /// The line with this number is too long. Says how the run ends.
    fn overflow(&mut self, host: &mut H, number: u64) -> Status
        requires ready { ready self.old host.old number }
        requires few { number ≤ INPUT_LIMIT + 1 }
        ensures overflows { acts.overflows self.old host.old number result self.new host.new };
}
