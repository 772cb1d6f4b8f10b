ghost use Rattle.std.specs.Prelude.{◌≡◌};
ghost use Rattle.collect_block.specs.Block.{row_of};

use crate::block_values::BlockValues;
use fixed_num::Text;
use history::OpenRow;

/// An open block: the values of a chart so far, each dimension once.
#[derive(Drop)]
pub(crate) struct Block {
    pub(crate) chart: Text,
    pub(crate) values: BlockValues,
}

impl Block {
    /// The row that an END makes of it.
    pub(crate) fn into_row(self) -> OpenRow
        ensures { result ≡ row_of self }
    {
        OpenRow {
            chart: self.chart,
            values: self.values.into_list(),
        }
    }
}
