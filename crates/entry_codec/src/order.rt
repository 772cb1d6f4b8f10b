//! The order of lists.
ghost use Rattle.std.specs.Prelude.{◌≡◌, ℕ, [], ◌∷◌, ◌++◌, map};
ghost use Rattle.std.specs.Option.{option_to_list};
ghost use Rattle.entry_codec.specs.Lists.{is_ascending};

/// What a list is in the order of the numbers of.
pub(crate) trait Numbered {
    ghost item_number: { Self → ℕ };

    fn number(&self) -> u32
        ensures { result ≡ item_number self.now };
}

/// Whether a number may follow the last one.
fn is_above(last: Option<u32>, number: u32) -> bool
    ensures { result ≡ is_ascending (option_to_list last ++ number ∷ []) }
{
    match last {
        None => true,
        Some(last) => last < number,
    }
}

/// Whether the items are in the order of their numbers, each number once.
pub(crate) fn is_ascending<T: Numbered>(items: &[T]) -> bool
    ensures { result ≡ is_ascending (map T.item_number items.now) }
{
    let mut last = None;
    for item in items {
        let number = item.number();
        if !is_above(last, number) {
            return false;
        }
        last = Some(number);
    }
    true
}
