use fixed_num::ListOf;

/// The last row in which a dimension was set: its moment, and the value.
#[derive(Clone, Copy, Debug, PartialEq, Eq)]
pub struct Last {
    pub moment: u32,
    pub value: i64,
}

/// The last row of each dimension of a row, where it has one.
pub type LastList = ListOf<Option<Last>>;
