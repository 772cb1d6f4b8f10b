/// The moments of a series that a page has, in seconds.
#[derive(Clone, Copy)]
pub(crate) struct Span {
    pub(crate) series: u32,
    pub(crate) first: u32,
    /// The moment of the last item.
    pub(crate) end: u128,
}
