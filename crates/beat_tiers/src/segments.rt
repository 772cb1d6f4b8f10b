ghost use Rattle.std.specs.Prelude.{◌≡◌, ◌-◌, ◌≤◌, length, [], ◌∷◌, ◌++◌, vec_len, vec_capacity, None, IfOk, OnOk};
ghost use Rattle.std.specs.VecDeque.{deque_len, deque_capacity};
ghost use Rattle.beat_tiers.specs.Room.{SegmentsHeld, HasRoom};
ghost use Rattle.std.specs.List.{AllByRecursion};
ghost use Rattle.beat_tiers.specs.Searching.{HasItems};
ghost use Rattle.beat_tiers.specs.Segments.{beats_of, ended, expired_from, floor_left, is_elsewhere, no_segments, places_behind, sealed_at, with_item};

use crate::item::Item;
use crate::parts::{KeptItems, Segment, SegmentList};
use crate::sealed::Sealed;
use fixed_num::ListOf;
use std::alloc::{AllocError, Global};
use std::collections::VecDeque;
use std::marker::Model;
use tier_settings::Tier;

/// What the items of a tier are.
#[derive(Clone, Copy, Debug, PartialEq, Eq)]
pub(crate) enum ItemKind {
    Points,
    Records,
}

impl ItemKind {
    /// The first moment that is kept where a segment that a beat of this moment sealed has expired.
    fn floor_left(self, tier: Tier, moment: u32) -> u32
        requires { 1 ≤ tier.width }
        ensures { result ≡ floor_left self tier moment }
    {
        match self {
            ItemKind::Points => moment.saturating_add(1),
            ItemKind::Records => tier.width * (moment / tier.width),
        }
    }

    /// How many beats gave these items, where they are points.
    fn beats_of<T>(self, items: &[Item<T>]) -> u64
        ensures { result ≡ beats_of self items.now }
    {
        match self {
            ItemKind::Points => places_in(items),
            ItemKind::Records => 0,
        }
    }
}

/// Whether a place is not that of the item before.
fn is_elsewhere(before: Option<u32>, place: u32) -> bool
    ensures { result ≡ is_elsewhere before place }
{
    match before {
        Some(before) => before != place,
        None => true,
    }
}

/// How many places items have, where the items of a place stand together.
pub fn places_in<T>(items: &[Item<T>]) -> u64
    ensures { result ≡ places_behind None items.now }
{
    let mut before = None;
    let mut count: u64 = 0;
    for item in items {
        count += u64::from(is_elsewhere(before, item.place));
        before = Some(item.place);
    }
    count
}

/// The items of a tier that are kept: sealed segments, the earliest first, and the items since.
#[derive(Debug, Drop)]
pub struct Segments<T> {
    alloc: Global,
    /// The first moment that is kept, or 0 where nothing has expired.
    floor: u32,
    /// How many beats gave points that have expired, and 0 of records. The count stands still at 2^64 - 1.
    before: u64,
    /// How many segments were ever sealed. The count stands still there too.
    count: u64,
    sealed: VecDeque<Sealed<T>>,
    unsealed: Vec<Item<T>>,
}

impl<T> Model for Segments<T> {
    ghost Value = { SegmentsHeld T };

    ghost view = { λ segments. record {
      kept = record {
        floor = segments.floor;
        before = segments.before;
        count = segments.count;
        sealed = segments.sealed.items;
        unsealed = segments.unsealed.items;
      };
      items = vec_capacity segments.unsealed - vec_len segments.unsealed;
      segments = deque_capacity segments.sealed - deque_len segments.sealed;
    } };

    ghost invariant = { λ segments. AllByRecursion HasItems segments.sealed.items };
}

impl<T: Copy + Drop> Segments<T> {
    pub(crate) fn new(alloc: Global) -> Segments<T>
        ensures { result.kept ≡ no_segments }
    {
        Segments {
            alloc,
            floor: 0,
            before: 0,
            count: 0,
            sealed: VecDeque::new(alloc),
            unsealed: Vec::new(alloc),
        }
    }

    /// Puts a sealed segment behind the others.
    fn put_sealed(&mut self, segment: Segment<T>) -> Result<(), AllocError>
        requires { HasItems segment }
        ensures { OnOk result (self.new.kept ≡ record self.old.kept {
          sealed = self.old.kept.sealed ++ segment ∷ [];
        }) }
    {
        self.sealed.reserve(1)?;
        self.sealed
            .push_back_reserved(Sealed::new(self.alloc, segment));
        Ok(())
    }

    /// Puts sealed segments behind the others.
    fn put_each(&mut self, segments: SegmentList<T>) -> Result<(), AllocError>
        requires { AllByRecursion HasItems segments }
        ensures { OnOk result (self.new.kept ≡ record self.old.kept {
          sealed = self.old.kept.sealed ++ segments;
        }) }
    {
        for segment in segments.into_vec() {
            self.put_sealed(segment)?;
        }
        Ok(())
    }

    /// The segments of what was kept, whose items are not copied.
    pub(crate) fn restore(alloc: Global, kept: KeptItems<T>) -> Result<Segments<T>, AllocError>
        requires { AllByRecursion HasItems kept.sealed }
        ensures { IfOk result (λ segments. segments.kept ≡ kept) }
    {
        let mut segments = Segments::new(alloc);
        segments.put_each(kept.sealed)?;
        segments.floor = kept.floor;
        segments.before = kept.before;
        segments.count = kept.count;
        segments.unsealed = kept.unsealed.into_vec();
        Ok(segments)
    }

    /// The first moment that is kept, or 0 where nothing has expired.
    pub fn floor(&self) -> u32
        ensures { result ≡ self.now.kept.floor }
    {
        self.floor
    }

    /// How many beats gave points that have expired, and 0 of records.
    pub fn before(&self) -> u64
        ensures { result ≡ self.now.kept.before }
    {
        self.before
    }

    /// How many segments were ever sealed. The count stands still at 2^64 - 1.
    pub fn count(&self) -> u64
        ensures { result ≡ self.now.kept.count }
    {
        self.count
    }

    /// The segments that are sealed and kept, the earliest first: some, and those behind them.
    pub fn sealed(&self) -> (&[Sealed<T>], &[Sealed<T>])
        ensures all { result.0.now ++ result.1.now ≡ self.now.kept.sealed }
        ensures earlier { AllByRecursion HasItems result.0.now }
        ensures later { AllByRecursion HasItems result.1.now }
    {
        self.sealed.as_slices()
    }

    /// The items since the last cut.
    pub fn unsealed(&self) -> &[Item<T>]
        ensures { result.now ≡ self.now.kept.unsealed }
    {
        self.unsealed.as_slice()
    }

    /// Takes memory for so many more items, and for a segment.
    pub(crate) fn reserve(&mut self, more: usize) -> Result<(), AllocError>
        ensures kept { self.new.kept ≡ self.old.kept }
        ensures room { OnOk result (HasRoom more self.new) }
    {
        self.unsealed.reserve(more)?;
        self.sealed.reserve(1)
    }

    /// Adds an item, for which there is memory.
    pub(crate) fn push(&mut self, item: Item<T>)
        requires { 1 ≤ self.old.items }
        ensures { self.new ≡ record self.old {
          kept = with_item self.old.kept item;
          items = self.old.items - 1;
        } }
    {
        self.unsealed.push_reserved(item);
    }

    /// Ends a beat that gave items: those since the last cut are cut off where they are enough.
    pub(crate) fn end_beat(&mut self, kind: ItemKind, tier: Tier, moment: u32)
        requires room { 1 ≤ self.old.segments }
        requires items { 1 ≤ tier.items }
        requires width { 1 ≤ tier.width }
        ensures { self.new.kept ≡ ended kind tier moment self.old.kept }
    {
        if self.unsealed.len() < tier.items as usize {
            return;
        }
        self.seal(moment);
        self.expire(kind, tier);
    }

    fn seal(&mut self, moment: u32)
        requires room { 1 ≤ self.old.segments }
        requires some { 1 ≤ length self.old.kept.unsealed }
        ensures { self.new.kept ≡ sealed_at moment self.old.kept }
    {
        let items = std::mem::replace(&mut self.unsealed, Vec::new(self.alloc));
        let segment = Segment {
            sealed_at: moment,
            items: ListOf::from_vec(items),
        };
        self.sealed
            .push_back_reserved(Sealed::new(self.alloc, segment));
        self.count = self.count.saturating_add(1);
    }

    /// Drops the earliest segment where more are sealed than are kept.
    fn expire(&mut self, kind: ItemKind, tier: Tier)
        requires { 1 ≤ tier.width }
        ensures { self.new.kept ≡ expired_from kind tier self.old.kept }
    {
        if self.sealed.len() <= tier.extents as usize {
            return;
        }
        if let Some(first) = self.sealed.pop_front() {
            self.floor = kind.floor_left(tier, first.sealed_at());
            self.before = self.before.saturating_add(kind.beats_of(first.items()));
        }
    }
}
