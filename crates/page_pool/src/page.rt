ghost use Rattle.std.specs.Prelude.{◌≡◌, ◌<◌, ◌≤◌, [], ◌∷◌, ◌++◌, length, Some, slice_get};

use crate::block::Block;
use crate::node::{Node, PAGE_SIZE};
use std::alloc::Global;
use std::marker::Model;

/// A page of up to 4,096 bytes, in a block of memory of its own, which is freed when the page is dropped.
/// Contracts see it as the list of the bytes that were pushed.
pub struct RawPage {
    block: Block<Node, Global>,
    filled: usize,
}

impl Model for RawPage {
    ghost use Rattle.std.specs.Prelude.{◌≡◌, ◌≤◌, ℕ, List, length, take};
    ghost use Rattle.page_pool.specs.declared.node.TheConstants.{PAGE_SIZE};

    ghost Value = { List ℕ };

    ghost view = { λ page. take page.filled page.block.value.bytes };

    ghost invariant = { λ page.
        (page.filled ≤ PAGE_SIZE) × (length page.block.value.bytes ≡ PAGE_SIZE) };
}

impl RawPage {
    /// The empty page in a block, whatever the block held.
    pub(crate) fn of(block: Block<Node, Global>) -> RawPage
        requires { length block.value.bytes ≡ PAGE_SIZE }
        ensures { result ≡ [] }
    {
        RawPage { block, filled: 0 }
    }

    /// The block of the page.
    pub(crate) fn into_block(self) -> Block<Node, Global>
        ensures { length result.value.bytes ≡ PAGE_SIZE }
    {
        let RawPage { block, filled: _ } = self;
        block
    }

    /// Adds a byte at the end of a page that is not full.
    pub fn push(&mut self, byte: u8)
        requires { length self.old < PAGE_SIZE }
        ensures { self.new ≡ self.old ++ byte ∷ [] }
    {
        self.block.get_mut().bytes[self.filled] = byte;
        self.filled += 1;
    }

    /// The byte at a place that is filled.
    pub fn get(&self, i: usize) -> u8
        requires { i < length self.now }
        ensures { slice_get self.now i ≡ Some result }
    {
        self.block.get().bytes[i]
    }

    /// How many bytes the page holds, at most 4,096.
    pub fn len(&self) -> usize
        ensures value { result ≡ length self.now }
        ensures most { result ≤ PAGE_SIZE }
    {
        self.filled
    }

    /// Leaves the empty page.
    pub fn clear(&mut self)
        ensures { self.new ≡ [] }
    {
        self.filled = 0;
    }

    /// The bytes of the page, at most 4,096.
    pub fn as_slice(&self) -> &[u8]
        ensures value { result.now ≡ self.now }
        ensures most { length self.now ≤ PAGE_SIZE }
    {
        &self.block.get().bytes[..self.filled]
    }
}

impl Drop for RawPage {
    fn drop(self) {
        drop(self.into_block().into_box());
    }
}
