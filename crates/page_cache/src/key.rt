/// Which page: its tier, its extent's serial number, and its place in the extent.
#[derive(Clone, Copy, Debug, PartialEq, Eq, Hash)]
pub struct PageKey {
    pub tier: u8,
    pub extent: u64,
    pub index: u32,
}
