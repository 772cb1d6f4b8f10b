ghost use Rattle.std.specs.Prelude.{◌≡◌, nat_le, filter, IfSome};
ghost use Rattle.std.specs.List.Sorted.{IsNonDecreasingBy};
ghost use Rattle.beat_tiers.specs.declared.item.Item.{Item as AnItem};
ghost use Rattle.beat_tiers.specs.Searching.{is_of, IsBySeries};
ghost use Rattle.beat_tiers.specs.Tiers.{AreOrdered};

use crate::item::Item;
use crate::parts::Segment;
use std::alloc::Global;
use std::marker::Model;

/// A sealed segment, which contracts see as the segment alone.
#[derive(Debug, Drop)]
pub struct Sealed<T> {
    segment: Segment<T>,
    /// The items by their series, each series' in their order. Where memory lacked there is none, and a question
    /// reads the items of all series.
    by_series: Option<Vec<Item<T>>>,
}

impl<T> Model for Sealed<T> {
    ghost use Rattle.std.specs.Prelude.{IfSome};
    ghost use Rattle.beat_tiers.specs.declared.parts.Segment.{Segment as ASegment};
    ghost use Rattle.beat_tiers.specs.Searching.{IsBySeries};

    ghost Value = { ASegment T };

    ghost view = { λ sealed. sealed.segment };

    ghost invariant = { λ sealed. IfSome sealed.by_series
        (λ sorted. IsBySeries sealed.segment.items sorted.items) };
}

/// The items by their series. `None` where memory lacks.
fn sorted_by_series<T: Copy + Drop>(alloc: Global, items: &[Item<T>]) -> Option<Vec<Item<T>>>
    ensures { IfSome result (λ sorted. IsBySeries items.now sorted.items) }
{
    let Ok(mut sorted) = Vec::from_slice(alloc, items) else {
        return None;
    };
    match sorted.sort_by_key(|item| item.series) {
        Ok(()) => Some(sorted),
        Err(_) => None,
    }
}

/// The items from a series on, by halves.
fn from_series<T>(sorted: &[Item<T>], series: u32) -> &[Item<T>]
    requires { IsNonDecreasingBy (λ (item : AnItem T). item.series) sorted.now }
    ensures from { result.now ≡ filter (λ (item : AnItem T). nat_le series item.series) sorted.now }
    ensures rises { IsNonDecreasingBy (λ (item : AnItem T). item.series) result.now }
{
    let start = sorted.partition_point(|item| item.series < series);
    sorted.split_at(start).1
}

/// The items up to a series, by halves.
fn to_series<T>(sorted: &[Item<T>], series: u32) -> &[Item<T>]
    requires { IsNonDecreasingBy (λ (item : AnItem T). item.series) sorted.now }
    ensures { result.now ≡ filter (λ (item : AnItem T). nat_le item.series series) sorted.now }
{
    let end = sorted.partition_point(|item| item.series <= series);
    sorted.split_at(end).0
}

/// The items of a series among items by their series.
fn run_of<T>(sorted: &[Item<T>], series: u32) -> &[Item<T>]
    requires { IsNonDecreasingBy (λ (item : AnItem T). item.series) sorted.now }
    ensures { result.now ≡ filter (is_of series) sorted.now }
{
    to_series(from_series(sorted, series), series)
}

impl<T: Copy + Drop> Sealed<T> {
    /// It costs by the items, times the logarithm of their count.
    pub(crate) fn new(alloc: Global, segment: Segment<T>) -> Sealed<T>
        ensures { result ≡ segment }
    {
        let by_series = sorted_by_series(alloc, segment.items.as_slice());
        Sealed { segment, by_series }
    }
}

impl<T> Sealed<T> {
    /// The moment of the beat at which the items were cut off, in seconds.
    pub fn sealed_at(&self) -> u32
        ensures { result ≡ self.now.sealed_at }
    {
        self.segment.sealed_at
    }

    /// The items, in the order in which they came.
    pub fn items(&self) -> &[Item<T>]
        ensures { result.now ≡ self.now.items }
    {
        self.segment.items.as_slice()
    }

    /// The items of a series in their order, found by halves. Others may be among them.
    pub(crate) fn of_series(&self, series: u32) -> &[Item<T>]
        ensures ordered { AreOrdered self.now.items → AreOrdered result.now }
        ensures same { filter (is_of series) result.now ≡ filter (is_of series) self.now.items }
    {
        match &self.by_series {
            Some(sorted) => run_of(sorted.as_slice(), series),
            None => self.segment.items.as_slice(),
        }
    }
}
