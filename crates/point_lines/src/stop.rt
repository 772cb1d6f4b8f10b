ghost use Rattle.std.specs.Prelude.{◌≡◌};
ghost use Rattle.point_lines.specs.declared.stop.Stop.TheVariants.{Memory};
ghost use Rattle.point_lines.specs.Steps.{line_stop, block_stop, beat_stop};

use beat_entries::BeatFault;
use beat_points::PointFault;
use history::BlockFault;
use plugin_text::{LineFault, Refusal};
use std::alloc::AllocError;

/// Why a line was not read.
#[derive(Clone, Copy, Debug, PartialEq, Eq)]
pub enum Stop {
    /// It is refused.
    Refused(Refusal),
    /// It is a DISABLE line, which ends the text.
    Disabled,
    /// There was no memory.
    Memory,
}

/// Why a line that is refused by itself was not read.
impl From<LineFault> for Stop {
    ghost from_gives = { λ fault given. given ≡ line_stop fault };

    fn from(fault: LineFault) -> Stop {
        match fault {
            LineFault::Memory => Stop::Memory,
            _ => Stop::Refused(Refusal::Line(fault)),
        }
    }
}

/// Why a line that may not stand where it does was not read.
impl From<BlockFault> for Stop {
    ghost from_gives = { λ fault given. given ≡ block_stop fault };

    fn from(fault: BlockFault) -> Stop {
        match fault {
            BlockFault::Memory => Stop::Memory,
            _ => Stop::Refused(Refusal::Block(fault)),
        }
    }
}

/// Why the beat that a line closed was not taken.
impl From<BeatFault> for Stop {
    ghost from_gives = { λ fault given. given ≡ beat_stop fault };

    fn from(fault: BeatFault) -> Stop {
        match fault {
            BeatFault::Refused(why) => Stop::Refused(Refusal::Block(why)),
            BeatFault::Memory => Stop::Memory,
        }
    }
}

impl From<PointFault> for Stop {
    ghost from_gives = { λ _ given. given ≡ Memory };

    fn from(_error: PointFault) -> Stop {
        Stop::Memory
    }
}

impl From<AllocError> for Stop {
    ghost from_gives = { λ _ given. given ≡ Memory };

    fn from(_error: AllocError) -> Stop {
        Stop::Memory
    }
}
