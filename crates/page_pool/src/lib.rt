//! Raw pages of 4,096 bytes that are used again: a pool, and the pages that it gives.
//!
//! A `RawPage` is a list of at most 4,096 bytes in one block of memory of its own, which it frees when it
//! is dropped, so that it may outlive its pool. A `PagePool` keeps free pages as a list that stands in the
//! pages themselves: the link to the next stands beside the bytes in the free page's block. So memory is
//! taken in `reserve` alone, one block for each page that is missing, and `take` and `give` take none.
//!
//! Proved is that a page is the list of the bytes that were pushed since it was taken or cleared, whatever
//! stood in its block before. As many pages can be taken as are spare. Each block has one owner, who alone
//! can free it, and at most once. A pool that is dropped leaves no page in its list; that a dropped page or
//! pool frees its blocks is not proved.
//!
//! Seven small functions of `Block` and `FreeList` go through a pointer; their proofs are by hand, and all
//! else stands on their contracts. A page and a pool may go to another thread; that a block and a list of
//! free pages may is proved by hand too.
//!
//! The crate stands on no other of the repository. It names the crates of std whose proofs on boxes and on
//! the heap it cites.
#![tactic(auto)]

mod block;
mod fault;
mod free_list;
mod node;
mod page;
mod pool;

pub use fault::PoolFault;
pub use node::PAGE_SIZE;
pub use page::RawPage;
pub use pool::PagePool;
