use fixed_num::Units;

/// A collected value with its marks.
#[derive(Clone, Copy, Debug, PartialEq, Eq)]
pub struct Point {
    /// In ten-millionths.
    pub units: Units,
    /// The collector held the value for unusual.
    pub anomalous: bool,
    /// The counter behind the value began anew.
    pub reset: bool,
}
