ghost use Rattle.std.specs.Prelude.{◌≡◌};
ghost use denote.Struct.Lending.{lent_at};
ghost use types.Logic.{sem};
ghost use Rattle.std_alloc.specs.Box.Ownership.{box_owns};

use std::alloc::Allocator;
use std::marker::Model;

/// The owner of one block of memory, which is reached by its pointer alone. The value that stands in the
/// block is its ghost field, and the owner holds the right to free the block.
pub(crate) struct Block<T, A: Allocator> {
    pub(crate) at: *mut T,
    pub(crate) alloc: A,
    pub(crate) ghost value: { T },
}

impl<T, A: Allocator> Model for Block<T, A> {
    ghost also_owns = { λ b. box_owns (A.dealloc_token b.alloc) T.row b.at b.value };

    ghost also_shares = { λ b _ κ. lent_at T.row b.at b.value κ };
}

unsafe impl<T: Send, A: Allocator + Send> Send for Block<T, A> {}

impl<T, A: Allocator> Block<T, A> {
    ghost use Rattle.page_pool.specs.Block.{block_follows};

    /// The value in the block.
    pub(crate) fn get(&self) -> &T
        ensures { result.now ≡ self.now.value }
    {
        unsafe { &*self.at }
    }

    /// The value in the block, to be written. What is written last stands there once the loan ends.
    pub(crate) fn get_mut(&mut self) -> &mut T
        ensures* writes_back { sem 𝓛 (block_follows T.row A.row A.Allocator self.entry result) }
        ensures value { result.now ≡ self.old.value }
    {
        unsafe { &mut *self.at }
    }
}

impl<T: Drop, A: Allocator> Block<T, A> {
    /// The block of a box.
    pub(crate) fn of(value: Box<T, A>) -> Block<T, A>
        ensures { result.value ≡ value.value }
    {
        let (at, alloc) = Box::into_raw_with_allocator(value);
        Block { at, alloc }
    }

    /// The box of the block, by which it is freed.
    pub(crate) fn into_box(self) -> Box<T, A>
        ensures { result.value ≡ self.value }
    {
        let Block { at, alloc } = self;
        unsafe { Box::from_raw(alloc, at) }
    }
}
