ghost use Rattle.std.specs.Prelude.{◌≡◌};
ghost use Rattle.plugin_text.specs.Refusal.{block_number, refusal_number};

use crate::fault::LineFault;
use history::BlockFault;

/// Why a text is refused.
#[derive(Clone, Copy, Debug, PartialEq, Eq)]
pub enum Refusal {
    /// By the line alone.
    Line(LineFault),
    /// By where the line stands.
    Block(BlockFault),
}

impl Refusal {
    /// The number that the refusal is told by. Out of memory is no refusal, and has 0 here.
    pub fn number(self) -> u32
        ensures { result ≡ refusal_number self }
    {
        match self {
            Refusal::Line(fault) => fault.number().unwrap_or(0),
            Refusal::Block(fault) => block_number(fault),
        }
    }
}

/// The number that a refusal by a line's place is told by.
fn block_number(fault: BlockFault) -> u32
    ensures { result ≡ block_number fault }
{
    match fault {
        BlockFault::NoChart => 21,
        BlockFault::NoDimension => 22,
        BlockFault::NoBlock => 23,
        BlockFault::OpenBlock => 24,
        BlockFault::SecondBlock => 25,
        BlockFault::OffGrid => 26,
        BlockFault::MomentOrder(_) => 27,
        BlockFault::Unfinished => 28,
        BlockFault::MixedRoles => 29,
        BlockFault::GridChanged => 31,
        BlockFault::TooManyCharts => 32,
        BlockFault::TooManyDimensions => 33,
        BlockFault::Memory => 0,
    }
}
