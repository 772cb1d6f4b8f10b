ghost use Rattle.std.specs.Prelude.{◌≡◌};
ghost use Rattle.history.specs.declared.fault.BlockFault.TheVariants.{Memory};

use std::alloc::AllocError;
use thiserror::Error;

/// Why a line may not stand where it does in a collector's text.
#[derive(Clone, Copy, Debug, PartialEq, Eq, Error)]
pub enum BlockFault {
    /// A dimension before any chart of its text, or a block of a chart that is not defined.
    #[error("there is no such chart")]
    NoChart,
    /// A value of a dimension that the chart does not have.
    #[error("the chart has no such dimension")]
    NoDimension,
    /// A value, or the end of a block, outside any block.
    #[error("no block is open")]
    NoBlock,
    /// A definition, a block or a moment inside a block.
    #[error("a block is open")]
    OpenBlock,
    /// A second block of a chart in one beat.
    #[error("the chart has a row in this beat already")]
    SecondBlock,
    /// A moment that is no multiple of the update_every of a chart with a row.
    #[error("the moment is off the chart's grid")]
    OffGrid,
    /// A moment that is not above the last one, which it carries.
    #[error("the moment is not above {0}")]
    MomentOrder(u32),
    /// The text ended inside a beat, a block or a line.
    #[error("the text is unfinished")]
    Unfinished,
    /// A collected beat where the history has copied beats or gaps.
    #[error("a history is either collected or copied")]
    MixedRoles,
    /// A chart with another update_every than it has.
    #[error("a chart keeps its update_every")]
    GridChanged,
    /// A 4,097th chart.
    #[error("there are too many charts")]
    TooManyCharts,
    /// A 1,025th dimension of its chart, or a 65,537th in all.
    #[error("there are too many dimensions")]
    TooManyDimensions,
    /// There was no memory.
    #[error("out of memory")]
    Memory,
}

impl From<AllocError> for BlockFault {
    ghost from_gives = { λ _ fault. fault ≡ Memory };

    fn from(_error: AllocError) -> BlockFault {
        BlockFault::Memory
    }
}
