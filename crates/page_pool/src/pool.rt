ghost use Rattle.std.specs.Prelude.{◌≡◌, ◌+◌, ◌-◌, ◌^◌, ◌<◌, ◌≤◌, [], length, max, min, IfNone, IfSome, IfOk, IsOk, OnOk, OnErr};

use crate::block::Block;
use crate::fault::PoolFault;
use crate::free_list::FreeList;
use crate::node::{Node, PAGE_SIZE};
use crate::page::RawPage;
use std::alloc::{AllocError, Global};
use std::marker::Model;
use std::ptr::null_mut;

/// Free pages that are kept to be taken again. Contracts see it as the number of pages that it holds.
pub struct PagePool {
    free: FreeList,
    spare: usize,
    alloc: Global,
}

impl Model for PagePool {
    ghost use Rattle.std.specs.Prelude.{◌≡◌, ℕ, length, true};
    ghost use Rattle.page_pool.specs.Whole.{are_whole};

    ghost Value = { ℕ };

    ghost view = { λ pool. pool.spare };

    ghost invariant = { λ pool.
        (length pool.free.nodes ≡ pool.spare) × (are_whole pool.free.nodes ≡ true) };
}

/// A block of memory for a page.
fn new_block(alloc: Global) -> Result<Block<Node, Global>, AllocError>
    ensures { IfOk result (λ block. length block.value.bytes ≡ PAGE_SIZE) }
{
    let node = Node {
        link: null_mut(),
        bytes: [0; PAGE_SIZE],
    };
    Ok(Block::of(Box::new(alloc, node)?))
}

impl PagePool {
    /// A pool with no page, which takes its pages' memory from `alloc`.
    pub fn new(alloc: Global) -> PagePool
        ensures { result ≡ 0 }
    {
        PagePool {
            free: FreeList::new(),
            spare: 0,
            alloc,
        }
    }

    /// Puts one block more among the free pages.
    fn grow(&mut self) -> Result<(), AllocError>
        requires { self.old < 2 ^ 64 - 1 }
        ensures ok { OnOk result (self.new ≡ self.old + 1) }
        ensures err { OnErr result (self.new ≡ self.old) }
    {
        let block = new_block(self.alloc)?;
        self.free.put(block);
        self.spare += 1;
        Ok(())
    }

    /// Sees that at least `n` pages are spare, by one block of memory for each that is missing. Where
    /// memory ends no fewer pages than before are spare.
    pub fn reserve(&mut self, n: usize) -> Result<(), PoolFault>
        ensures ok { OnOk result (self.new ≡ max self.old n) }
        ensures kept { (self.old ≤ self.new) × (self.new ≤ max self.old n) }
        ensures enough { n ≤ self.old → IsOk result × (self.new ≡ self.old) }
    {
        'missing: while self.spare < n {
            self.grow()?;
        }
        Ok(())
    }

    /// An empty page, if one is spare.
    pub fn take(&mut self) -> Option<RawPage>
        ensures none { IfNone result ((self.old ≡ 0) × (self.new ≡ 0)) }
        ensures some { IfSome result (λ page. (page ≡ []) × (self.old ≡ self.new + 1)) }
    {
        if self.spare == 0 {
            return None;
        }
        self.spare -= 1;
        Some(RawPage::of(self.free.take(self.alloc)))
    }

    /// Keeps a page to be taken again, whatever it holds. It takes no memory. A pool of 2^64 - 1 pages, which
    /// no memory has room for, would let go of it.
    pub fn give(&mut self, page: RawPage)
        ensures { self.new ≡ min (self.old + 1) (2 ^ 64 - 1) }
    {
        if self.spare == usize::MAX {
            return;
        }
        self.free.put(page.into_block());
        self.spare += 1;
    }

    /// How many pages are spare.
    pub fn spare(&self) -> usize
        ensures { result ≡ self.now }
    {
        self.spare
    }
}

impl Drop for PagePool {
    fn drop(self) {
        let PagePool {
            mut free,
            spare,
            alloc,
        } = self;
        for _ in 0..spare {
            drop(free.take(alloc).into_box());
        }
        free.end();
    }
}
