/// What a crash leaves of what was not synced.
#[derive(Clone, Copy, Debug, PartialEq, Eq)]
pub enum Keep {
    /// All of it: each file is what it reads as.
    All,
    /// None of it: each file is what it was at its last sync.
    None,
    /// This byte wherever another could stand, at the greatest length that the file may have.
    Fill(u8),
}
