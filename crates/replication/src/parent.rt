ghost use Rattle.std.specs.Prelude.{◌≡◌, ◌≢◌, Option, Some};
ghost use Rattle.replication.specs.Verdict.{verdict_by};

use crate::ask::Ask;
use crate::message::Data;
use crate::verdict::Verdict;

/// The end of a copy that keeps it: of which child it is, and where it ends.
#[derive(Clone, Copy, Debug, PartialEq, Eq)]
pub struct Parent {
    /// The child that it is a copy of, None as long as it has nothing.
    pub child: Option<u64>,
    /// The last moment in seconds, where a gap counts with its end; 0 for none.
    pub last: u32,
}

impl Parent {
    /// A parent whose copy is of this child, if it has anything, and ends at `last`.
    pub fn new(child: Option<u64>, last: u32) -> Parent
        ensures { result ≡ record { child = child; last = last } }
    {
        Parent { child, last }
    }

    /// What it asks a child: the beats above its last moment.
    pub fn ask(&self, child: u64) -> Ask
        ensures { result ≡ record { child = child; last = self.now.last } }
    {
        Ask {
            child,
            last: self.last,
        }
    }

    /// Judges a message, and where it is stored ends at its last moment from then on. A copy of another
    /// child is WrongChild; a message that begins below the last moment is Old, and above it Ahead.
    pub fn take(&mut self, message: &Data) -> Verdict
        ensures verdict { result
            ≡ verdict_by self.old.child self.old.last message.now.child message.now.prev }
        ensures stored { result ≡ Verdict.Stored
            → self.new ≡ record { child = Some message.now.child; last = message.now.upto } }
        ensures others { result ≢ Verdict.Stored → self.new ≡ self.old }
    {
        if let Some(kept) = self.child {
            if kept != message.child {
                return Verdict::WrongChild {
                    kept,
                    came: message.child,
                };
            }
        }
        if message.prev < self.last {
            return Verdict::Old;
        }
        if message.prev > self.last {
            return Verdict::Ahead;
        }
        self.child = Some(message.child);
        self.last = message.upto;
        Verdict::Stored
    }
}
