ghost use Rattle.std.specs.Prelude.{◌≡◌, ℕ, ◌+◌, ◌-◌, ◌^◌, ◌<◌, ◌≤◌, min, ◌∷◌, ◌++◌, filter, length, map, slice_get, take, true, Some, None, IfOk, IsNone, IsOk, OnOk};
ghost use Rattle.std.specs.List.{AllByRecursion};
ghost use Rattle.std.specs.Option.{option_map};
ghost use Rattle.beat_tiers.specs.Above.{is_above, RiseAbove};
ghost use Rattle.beat_tiers.specs.Kept.{kept_in};
ghost use Rattle.beat_tiers.specs.Parts.{are_in_form, are_record_tiers, restored, restored_tiers};
ghost use Rattle.beat_tiers.specs.Room.{records_held, tiers_held, HasRoom, HasRoomAfter, HasRoomFor};
ghost use Rattle.beat_tiers.specs.Segments.{items_of, with_items};
ghost use Rattle.beat_tiers.specs.State.{AreClosed, RecordTierState, after_beat, no_beats, no_records, point_items, points_after, points_in, record_in, record_tier_after, tier_floor};
ghost use Rattle.beat_tiers.specs.Tiers.{AreOrdered, IsFirstRecord, IsTier};

use crate::item::{BeatPoint, Item, Stepped};
use crate::kept::{self, Kept, KeptBeatList};
use crate::parts::{KeptItems, KeptRecordsList};
use crate::record_tier::RecordTier;
use crate::segments::{ItemKind, Segments};
use crate::{above, form, searching};
use fixed_num::Record;
use std::alloc::{AllocError, Global};
use std::marker::Model;
use tier_rollup::PointList;
use tier_settings::Tier;

/// What the tiers of a database keep of its beats.
#[derive(Debug, Drop)]
pub struct Tiers {
    alloc: Global,
    /// The last moment of a beat, or 0.
    last: u32,
    first: Tier,
    points: Segments<Stepped>,
    records: Vec<RecordTier>,
}

impl Model for Tiers {
    ghost use Rattle.std.specs.Prelude.{◌≤◌};
    ghost use Rattle.beat_tiers.specs.Room.{TiersHeld};

    ghost Value = { TiersHeld };

    ghost view = { λ tiers. record {
      last = tiers.last;
      first = tiers.first;
      points = tiers.points;
      records = tiers.records.items;
    } };

    ghost invariant = { λ tiers. (1 ≤ tiers.first.items) × (1 ≤ tiers.first.width) };
}

/// Tiers of records with these settings.
fn record_tiers(alloc: Global, settings: &[Tier]) -> Result<Vec<RecordTier>, AllocError>
    requires { AllByRecursion IsTier settings.now }
    ensures { IfOk result (λ tiers. map records_held tiers.items ≡ map no_records settings.now) }
{
    let mut tiers = Vec::new(alloc);
    for tier in settings {
        tiers.push(RecordTier::new(alloc, *tier))?;
    }
    Ok(tiers)
}

/// Tiers of records of what was kept.
fn restored_tiers(
    alloc: Global,
    last: u32,
    settings: &[Tier],
    records: KeptRecordsList,
) -> Result<Vec<RecordTier>, AllocError>
    requires settings { AllByRecursion IsTier settings.now }
    requires form { are_record_tiers last settings.now records ≡ true }
    ensures { IfOk result (λ tiers. map records_held tiers.items
        ≡ restored_tiers settings.now records) }
{
    let mut tiers = Vec::new(alloc);
    let mut ahead = settings;
    for kept in records.into_vec() {
        let Some((tier, rest)) = ahead.split_first() else {
            return Ok(tiers);
        };
        tiers.push(RecordTier::restore(alloc, *tier, kept)?)?;
        ahead = rest;
    }
    Ok(tiers)
}

/// Adds points as items, for which there is memory.
fn push_points(segments: &mut Segments<Stepped>, moment: u32, points: &[BeatPoint])
    requires { length points.now ≤ segments.old.items }
    ensures { segments.new ≡ record segments.old {
      kept = with_items segments.old.kept (point_items moment points.now);
      items = segments.old.items - length points.now;
    } }
{
    for point in points {
        segments.push(Item {
            place: moment,
            series: point.series,
            value: Stepped {
                step: point.step,
                word: point.word,
            },
        });
    }
}

/// Adds the points of a beat, for which there is memory, and ends it.
fn take_points(segments: &mut Segments<Stepped>, tier: Tier, moment: u32, points: &[BeatPoint])
    requires room { HasRoom (length points.now) segments.old }
    requires items { 1 ≤ tier.items }
    requires width { 1 ≤ tier.width }
    ensures { segments.new.kept ≡ points_after tier moment points.now segments.old.kept }
{
    if points.is_empty() {
        return;
    }
    push_points(segments, moment, points);
    segments.end_beat(ItemKind::Points, tier, moment);
}

/// Each tier of records takes the memory for a beat.
fn reserve_each(
    tiers: &mut [RecordTier],
    last: u32,
    moment: u32,
    points: &[BeatPoint],
) -> Result<(), AllocError>
    ensures kept { map records_held tiers.new ≡ map records_held tiers.old }
    ensures room { OnOk result
        (AllByRecursion (HasRoomAfter last moment points.now) tiers.new) }
{
    for tier in tiers.iter_mut() {
        tier.reserve(last, moment, points)?;
    }
    Ok(())
}

/// Each tier of records takes a beat, for which there is memory.
fn take_each(tiers: &mut [RecordTier], last: u32, moment: u32, points: &[BeatPoint])
    requires { AllByRecursion (HasRoomAfter last moment points.now) tiers.old }
    ensures { map records_held tiers.new
        ≡ map (record_tier_after last moment points.now) (map records_held tiers.old) }
{
    for tier in tiers.iter_mut() {
        tier.take(last, moment, points);
    }
}

impl Tiers {
    /// The tiers of no beat: `first` has the settings of tier 0, and `others` those of the tiers of records.
    pub fn new(alloc: Global, first: Tier, others: &[Tier]) -> Result<Tiers, AllocError>
        requires first { IsTier first }
        requires others { AllByRecursion IsTier others.now }
        ensures { IfOk result (λ tiers. tiers_held tiers ≡ no_beats first others.now) }
    {
        Ok(Tiers {
            alloc,
            last: 0,
            first,
            points: Segments::new(alloc),
            records: record_tiers(alloc, others)?,
        })
    }

    /// The tiers of what was kept: `last` is the last moment, or 0, and the settings are those of `new`. `None`
    /// where the parts are not in the form that such tiers have.
    pub fn restore(
        alloc: Global,
        first: Tier,
        others: &[Tier],
        last: u32,
        points: KeptItems<Stepped>,
        records: KeptRecordsList,
    ) -> Result<Option<Tiers>, AllocError>
        requires first { IsTier first }
        requires others { AllByRecursion IsTier others.now }
        ensures { IfOk result (λ found. option_map tiers_held found
            ≡ restored first others.now last points records) }
    {
        if !form::are_in_form(first, others, last, &points, records.as_slice()) {
            return Ok(None);
        }
        Ok(Some(Tiers::of_parts(alloc, first, others, last, points, records)?))
    }

    /// The tiers of parts that are in their form: `last` and the settings are those of `restore`.
    pub fn of_parts(
        alloc: Global,
        first: Tier,
        others: &[Tier],
        last: u32,
        points: KeptItems<Stepped>,
        records: KeptRecordsList,
    ) -> Result<Tiers, AllocError>
        requires first { IsTier first }
        requires others { AllByRecursion IsTier others.now }
        requires form { are_in_form first others.now last points records ≡ true }
        ensures { IfOk result (λ tiers. restored first others.now last points records
            ≡ Some (tiers_held tiers)) }
    {
        Ok(Tiers {
            alloc,
            last,
            first,
            points: Segments::restore(alloc, points)?,
            records: restored_tiers(alloc, last, others, records)?,
        })
    }

    /// Takes the memory for a beat. What is kept is as before, also after an `Err`.
    pub fn reserve(&mut self, moment: Option<u32>, points: &[BeatPoint]) -> Result<(), AllocError>
        ensures kept { tiers_held self.new ≡ tiers_held self.old }
        ensures room { OnOk result (HasRoomFor moment points.now self.new) }
        ensures untimed { IsNone moment → IsOk result }
    {
        let Some(moment) = moment else {
            return Ok(());
        };
        self.points.reserve(points.len())?;
        reserve_each(&mut self.records, self.last, moment, points)
    }

    /// Takes a beat, for which there is memory. One without a moment changes nothing.
    pub fn take(&mut self, moment: Option<u32>, points: &[BeatPoint])
        requires { HasRoomFor moment points.now self.old }
        ensures { tiers_held self.new ≡ after_beat moment points.now (tiers_held self.old) }
    {
        if let Some(moment) = moment {
            take_points(&mut self.points, self.first, moment, points);
            take_each(&mut self.records, self.last, moment, points);
            self.last = moment;
        }
    }

    /// The last moment of a beat in seconds, or 0.
    pub fn last(&self) -> u32
        ensures { result ≡ self.now.last }
    {
        self.last
    }

    /// How many tiers there are.
    pub fn tiers(&self) -> usize
        ensures { result ≡ length self.now.records + 1 }
    {
        self.records.len() + 1
    }

    /// The settings of a tier, if there is one of this number.
    pub fn tier(&self, number: usize) -> Option<Tier>
        ensures { result ≡ slice_get
            (self.now.first ∷ map (λ (one : RecordTierState). one.tier)
            (tiers_held self.now).records) number }
    {
        if number == 0 {
            return Some(self.first);
        }
        match self.records.get(number - 1) {
            Some(tier) => Some(tier.tier()),
            None => None,
        }
    }

    /// What is kept of the points, to be read.
    pub fn kept_points(&self) -> &Segments<Stepped>
        ensures { result.now ≡ self.now.points }
    {
        &self.points
    }

    /// What is kept of the tiers of records, to be read. The first is tier 1.
    pub fn kept_records(&self) -> &[RecordTier]
        ensures { result.now ≡ self.now.records }
    {
        self.records.as_slice()
    }

    /// The first moment of which a tier has what it was given, in seconds, or 0 where nothing has expired. It is
    /// the last moment of the type where points of that moment have expired, and 0 for a tier that is not there.
    pub fn floor(&self, tier: u8) -> u32
        ensures { result ≡ tier_floor (tiers_held self.now) tier }
    {
        if tier == 0 {
            return self.points.floor();
        }
        match self.records.get(usize::from(tier) - 1) {
            Some(tier) => tier.floor(),
            None => 0,
        }
    }

    /// The points of a series at or above tier 0's floor and from one moment to another, these included, the
    /// earliest first.
    pub fn points(&self, series: u32, from: u32, to: u32) -> Result<PointList, AllocError>
        ensures { AreOrdered (items_of self.now.points.kept)
            → IfOk result (λ points. points ≡ points_in (tiers_held self.now) series from to) }
    {
        let floor = u64::from(self.points.floor());
        searching::points_of(self.alloc, &self.points, floor, series, from, to)
    }

    /// The record of a series in a bucket that starts at or above the floor of a tier of records, whether or not
    /// the bucket is over. `None` in tier 0 and in a tier that is not there.
    pub fn record_of(&self, tier: u8, series: u32, bucket: u32) -> Option<Record>
        ensures kept { (place : ℕ) (one : RecordTierState)
            → slice_get (tiers_held self.now).records place ≡ Some one → tier ≡ place + 1
            → AreOrdered (items_of one.segments)
            → result ≡ record_in one self.now.last series bucket }
        ensures first { tier ≡ 0 → result ≡ None }
        ensures beyond { length self.now.records < tier → result ≡ None }
    {
        if tier == 0 {
            return None;
        }
        match self.records.get(usize::from(tier) - 1) {
            Some(tier) => tier.record_of(self.last, series, bucket),
            None => None,
        }
    }

    /// The first bucket of a tier of records, from one to another, these included, that has a record of a series at or
    /// above the tier's floor, and that record, whether or not the bucket is over. `None` in tier 0 and in a tier that is
    /// not there. It costs by what is kept between the two, and not by the buckets or by what is kept before and behind them.
    pub fn next_record(&self, tier: u8, series: u32, from: u32, to: u32) -> Option<(u32, Record)>
        ensures kept { (place : ℕ) (one : RecordTierState)
            → slice_get (tiers_held self.now).records place ≡ Some one → tier ≡ place + 1
            → AreOrdered (items_of one.segments) → AreClosed self.now.last one
            → IsFirstRecord (λ bucket. record_in one self.now.last series bucket)
            from to result }
        ensures first { tier ≡ 0 → result ≡ None }
        ensures beyond { length self.now.records < tier → result ≡ None }
    {
        if tier == 0 {
            return None;
        }
        match self.records.get(usize::from(tier) - 1) {
            Some(tier) => tier.next_record(self.last, series, from, to),
            None => None,
        }
    }

    /// How many beats gave points that have expired, and the beats that gave those that are kept, the earliest first.
    pub fn kept(&self) -> Result<Kept, AllocError>
        ensures { IfOk result (λ kept. kept ≡ kept_in self.now.points.kept) }
    {
        kept::kept_of(self.alloc, &self.points)
    }

    /// The kept beats above a moment, the earliest first, and at most so many of them. It costs by
    /// what it gives and by a search for the first of them, and not by what is kept.
    pub fn kept_above(&self, from: u32, most: usize) -> Result<KeptBeatList, AllocError>
        ensures kept { AreOrdered (items_of self.now.points.kept) → IfOk result (λ beats.
            beats ≡ take most (filter (is_above from) (kept_in self.now.points.kept).beats)) }

        // The same, of tiers that are of no beats.
        ensures rises { IfOk result (RiseAbove from) }
        ensures few { IfOk result (λ beats. length beats ≤ most) }
    {
        above::kept_above(self.alloc, &self.points, from, most)
    }
}
