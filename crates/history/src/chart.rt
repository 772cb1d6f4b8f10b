ghost use Rattle.std.specs.Prelude.{◌≡◌};

use fixed_num::Text;
use std::alloc::AllocError;

/// The priority of a chart that nothing tells.
pub const USUAL_PRIORITY: i64 = 1000;

/// How many seconds lie between two values of a chart, where neither its line nor a command says it.
pub const USUAL_UPDATE_EVERY: u32 = 1;

/// How a chart is drawn.
#[derive(Clone, Copy, Debug, PartialEq, Eq)]
pub enum ChartKind {
    Line,
    Area,
    Stacked,
}

/// The definition of a chart.
#[derive(Debug, Drop, PartialEq, Eq)]
pub struct ChartDef {
    /// `type.id`: at most 200 bytes, with one on each side of its first dot.
    pub id: Text,
    /// The name that is shown: at most 200 bytes, like the texts below.
    pub name: Text,
    pub title: Text,
    /// The units of its values.
    pub units: Text,
    /// The family that it is shown with.
    pub family: Text,
    /// What charts of one kind have in common.
    pub context: Text,
    pub kind: ChartKind,
    /// The charts of a page are shown with the least priority first.
    pub priority: i64,
    /// How many seconds lie between two values: 1 to 86,400, or 0 where the line leaves it open.
    pub update_every: u32,
    /// Whether the first value of an incremental dimension counts from 0.
    pub store_first: bool,
}

impl Clone for ChartDef {
    ghost is_clone = { λ chart copy. copy ≡ chart };

    fn clone(&self) -> Result<ChartDef, AllocError> {
        Ok(ChartDef {
            id: self.id.clone()?,
            name: self.name.clone()?,
            title: self.title.clone()?,
            units: self.units.clone()?,
            family: self.family.clone()?,
            context: self.context.clone()?,
            kind: self.kind,
            priority: self.priority,
            update_every: self.update_every,
            store_first: self.store_first,
        })
    }
}
