/// What becomes of a session at a frame, where nothing is wrong.
#[derive(Clone, Copy, Debug, PartialEq, Eq)]
pub(crate) enum Flow {
    /// It goes on.
    GoesOn,
    /// It is done.
    Done,
}
