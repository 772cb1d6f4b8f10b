ghost use Rattle.std.specs.Prelude.{IfOk, IsPermutation};
ghost use Rattle.beat_tiers.specs.Searching.{IsBySeries};
ghost use Rattle.store_core.specs.pages.Sorting.{IsByPlace};

use beat_tiers::Item;
use fixed_num::ListOf;
use std::alloc::{AllocError, Global};

/// The items by their series, each series' in their order.
pub(crate) fn sorted_by_series<T: Copy + Drop>(
    alloc: Global,
    items: &[Item<T>],
) -> Result<Vec<Item<T>>, AllocError>
    ensures by_series { IfOk result (λ sorted. IsBySeries items.now sorted.items) }
    ensures permutation { IfOk result (λ sorted. IsPermutation items.now sorted.items) }
{
    let mut sorted = Vec::from_slice(alloc, items)?;
    sorted.sort_by_key(|item| item.series)?;
    Ok(sorted)
}

/// The items by their places, and at one place by their series.
pub(crate) fn sorted_by_place<T: Copy + Drop>(
    mut items: Vec<Item<T>>,
) -> Result<ListOf<Item<T>>, AllocError>
    ensures by_place { IfOk result IsByPlace }
    ensures permutation { IfOk result (λ sorted. IsPermutation items.items sorted) }
{
    items.sort_by_key(|item| (item.place, item.series))?;
    Ok(ListOf::from_vec(items))
}
