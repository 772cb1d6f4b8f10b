/// How many bytes a page may hold.
pub const PAGE_SIZE: usize = 4_096;

/// What stands in the block of a page: its bytes, and beside them the link to the next free page, which
/// counts while the page is free.
#[derive(Drop)]
pub(crate) struct Node {
    pub(crate) link: *mut Node,
    pub(crate) bytes: [u8; PAGE_SIZE],
}

unsafe impl Send for Node {}
