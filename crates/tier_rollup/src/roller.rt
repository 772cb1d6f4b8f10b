ghost use Rattle.std.specs.Prelude.{◌≤◌};

use fixed_num::Record;

/// The records of a tier, as its points come.
#[derive(Clone, Copy)]
pub struct Roller {
    pub(crate) width: u32,
    /// The last bucket with a point and its record, until it is handed out.
    pub(crate) current: Option<(u32, Record)>,
    ghost positive: { 1 ≤ width },
}
