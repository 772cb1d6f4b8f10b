ghost use Rattle.std.specs.Prelude.{◌≡◌, ◌<◌, List, [], ◌∷◌, length};
ghost use Rattle.page_pool.specs.declared.node.Node.{Node as TheNode};

use crate::block::Block;
use crate::node::Node;
use std::alloc::Global;
use std::marker::Model;
use std::ptr::null_mut;

/// The free pages of a pool, the last that was put first. Each owns its block, and its link leads to the
/// next; what the link of the last is does not matter.
pub(crate) struct FreeList {
    first: *mut Node,
    pub(crate) ghost nodes: { List TheNode },
}

impl Model for FreeList {
    ghost use base.Fml.{ftrue};
    ghost use Rattle.page_pool.specs.Chain.{chain};

    ghost also_owns = { λ list. chain list.first list.nodes };

    ghost also_shares = { λ _ _ _. ftrue };
}

unsafe impl Send for FreeList {}

impl FreeList {
    ghost use Rattle.page_pool.specs.Chain.{with_link};

    /// A list with no page.
    pub(crate) fn new() -> FreeList
        ensures { result.nodes ≡ [] }
    {
        FreeList { first: null_mut() }
    }

    /// Puts a page before the others.
    pub(crate) fn put(&mut self, block: Block<Node, Global>)
        ensures { self.new.nodes ≡ with_link block.value self.old.first ∷ self.old.nodes }
    {
        let Block { at, alloc: _ } = block;
        unsafe {
            (*at).link = self.first;
        }
        self.first = at;
    }

    /// Takes the first page.
    pub(crate) fn take(&mut self, alloc: Global) -> Block<Node, Global>
        requires { 0 < length self.old.nodes }
        ensures { self.old.nodes ≡ result.value ∷ self.new.nodes }
    {
        let at = self.first;
        self.first = unsafe { (*at).link };
        Block { at, alloc }
    }

    /// Lets go of a list with no page. A page that is left in a list is never freed.
    pub(crate) fn end(self)
        requires { self.nodes ≡ [] }
    {
        let FreeList { first: _ } = self;
    }
}
