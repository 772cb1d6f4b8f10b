ghost use Rattle.std.specs.Prelude.{◌≡◌, ◌++◌, [], ◌∷◌, true, IsOkAnd};

use std::alloc::{AllocError, Global};

/// Things that are kept as long as there is memory.
#[derive(Drop)]
pub(crate) struct Gathered<T> {
    pub(crate) items: Vec<T>,
    /// Whether there was memory for all of them.
    pub(crate) whole: bool,
}

impl<T: Drop> Gathered<T> {
    /// None so far, with room for so many.
    pub(crate) fn with_room(alloc: Global, count: usize) -> Gathered<T>
        ensures { result.items.items ≡ [] }
    {
        let mut items = Vec::new(alloc);
        let whole = items.reserve(count).is_ok();
        Gathered { items, whole }
    }

    /// Keeps one more.
    pub(crate) fn push(&mut self, item: T)
        ensures before { self.new.whole ≡ true → self.old.whole ≡ true }
        ensures items { self.new.whole ≡ true
            → self.new.items.items ≡ self.old.items.items ++ item ∷ [] }
    {
        if self.whole {
            self.whole = self.items.push(item).is_ok();
        }
    }

    /// Keeps one more, if there was memory to make it.
    pub(crate) fn keep(&mut self, item: Result<T, AllocError>)
        ensures before { self.new.whole ≡ true → self.old.whole ≡ true }
        ensures items { self.new.whole ≡ true → IsOkAnd item
            (λ item. self.new.items.items ≡ self.old.items.items ++ item ∷ []) }
    {
        match item {
            Ok(item) => self.push(item),
            Err(_) => self.whole = false,
        }
    }
}
