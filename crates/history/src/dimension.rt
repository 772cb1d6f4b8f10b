ghost use Rattle.std.specs.Prelude.{◌≡◌};

use fixed_num::Text;
use std::alloc::AllocError;

/// How the points of a dimension come from the values that were collected.
#[derive(Clone, Copy, Debug, PartialEq, Eq)]
pub enum Algorithm {
    /// The value as it is.
    Absolute,
    /// How much the value rose in a second.
    Incremental,
    /// The share of the value in the sum of its row, in percent.
    PercentageOfAbsoluteRow,
    /// The share of the value's rise in the sum of the rises of its row, in percent.
    PercentageOfIncrementalRow,
}

/// The definition of a dimension.
#[derive(Debug, Drop, PartialEq, Eq)]
pub struct DimDef {
    /// 1 to 200 bytes.
    pub id: Text,
    /// The name that is shown: at most 200 bytes.
    pub name: Text,
    pub algorithm: Algorithm,
    /// The collected value is multiplied by this: -2,147,483,647 to 2,147,483,647, and not 0.
    pub multiplier: i32,
    /// The product is divided by this: -2,147,483,647 to 2,147,483,647, and not 0.
    pub divisor: i32,
    /// Whether the dimension is left out when the chart is drawn.
    pub hidden: bool,
    /// Whether a value that falls is no reset of its counter.
    pub noreset: bool,
}

impl Clone for DimDef {
    ghost is_clone = { λ dimension copy. copy ≡ dimension };

    fn clone(&self) -> Result<DimDef, AllocError> {
        Ok(DimDef {
            id: self.id.clone()?,
            name: self.name.clone()?,
            algorithm: self.algorithm,
            multiplier: self.multiplier,
            divisor: self.divisor,
            hidden: self.hidden,
            noreset: self.noreset,
        })
    }
}
