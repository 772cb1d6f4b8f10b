/// What a parent asks a child for: the beats above a moment.
#[derive(Clone, Copy, Debug, PartialEq, Eq)]
pub struct Ask {
    /// The id of the child that is asked.
    pub child: u64,
    /// The last moment that the parent has, in seconds, 0 for none.
    pub last: u32,
}
