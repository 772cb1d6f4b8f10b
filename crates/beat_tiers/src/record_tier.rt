ghost use Rattle.std.specs.Prelude.{◌≡◌, ◌==◌, ◌&&◌, ◌-◌, ℕ, ◌≤◌, true, length, nat_le, if◌then◌else◌, [], ◌∷◌, ◌++◌, None, IfOk, OnOk};
ghost use Rattle.std.specs.BTreeMap.{insert_entry};
ghost use Rattle.std.specs.List.{AllByRecursion};
ghost use Rattle.std.specs.Map.{keys_of, lookup};
ghost use Rattle.std.specs.Option.{option_map};
ghost use Rattle.std.specs.Ordering.{nat_cmp};
ghost use Rattle.fixed_num.specs.declared.units.Record.{Record as ARecord};
ghost use Rattle.beat_tiers.specs.Parts.{are_open, restored_tier, with_records};
ghost use Rattle.beat_tiers.specs.Room.{closes, filled, has_slot, records_held, HasRoom, HasRoomAfter, HaveSlots};
ghost use Rattle.beat_tiers.specs.Searching.{HasItems};
ghost use Rattle.beat_tiers.specs.Segments.{items_of, with_items};
ghost use Rattle.beat_tiers.specs.State.{AreClosed, closed_before, first_bucket, no_records, open_record, record_in, record_items, record_tier_after, with_point, with_points, with_value_at};
ghost use Rattle.beat_tiers.specs.Tiers.{AreOrdered, IsFirstRecord, IsTier};

use crate::item::{BeatPoint, Item};
use crate::parts::{KeptRecords, OpenRecordList};
use crate::searching;
use crate::segments::{ItemKind, Segments};
use fixed_num::Record;
use std::alloc::{AllocError, Global};
use std::collections::BTreeMap;
use std::marker::Model;
use storage_number::{Point as Value, unpack};
use tier_rollup::with_value;
use tier_settings::Tier;

/// The slots of a bucket by series: a slot has the record of its series, or is the memory for one.
type Slots = BTreeMap<u32, Option<Record>>;

/// A tier of records.
#[derive(Debug, Drop)]
pub struct RecordTier {
    tier: Tier,
    /// The slots of the bucket of the last moment.
    current: Slots,
    /// Those of the bucket that follows it, which has no record yet.
    next: Slots,
    /// The records of buckets that are over.
    segments: Segments<Record>,
}

impl Model for RecordTier {
    ghost use Rattle.std.specs.Prelude.{◌≡◌, ◌≤◌, []};
    ghost use Rattle.beat_tiers.specs.Room.{RecordTierHeld, filled};

    ghost Value = { RecordTierHeld };

    ghost view = { λ tier. record {
      tier = tier.tier;
      slots = tier.current.entries;
      next = tier.next.entries;
      segments = tier.segments;
    } };

    ghost invariant = { λ tier. (1 ≤ tier.tier.width) × (filled tier.next.entries ≡ [])
        × (1 ≤ tier.tier.items) };
}

/// Adds the record of a slot as an item, if it has one.
fn push_slot(segments: &mut Segments<Record>, bucket: u32, series: u32, slot: Option<Record>)
    requires { length (filled ((series, slot) ∷ [])) ≤ segments.old.items }
    ensures { segments.new ≡ record segments.old {
      kept = with_items segments.old.kept (record_items bucket (filled ((series, slot) ∷ [])));
      items = segments.old.items - length (filled ((series, slot) ∷ []));
    } }
{
    if let Some(value) = slot {
        segments.push(Item {
            place: bucket,
            series,
            value,
        });
    }
}

/// Adds the records of a bucket as items, for which there is memory.
fn push_records(segments: &mut Segments<Record>, bucket: u32, slots: &Slots)
    requires { length (filled slots.now.entries) ≤ segments.old.items }
    ensures { segments.new ≡ record segments.old {
      kept = with_items segments.old.kept (record_items bucket (filled slots.now.entries));
      items = segments.old.items - length (filled slots.now.entries);
    } }
{
    for (series, slot) in slots.iter() {
        push_slot(segments, bucket, *series, *slot);
    }
}

/// The record of a series.
fn record_in(slots: &Slots, series: u32) -> Option<Record>
    ensures { result ≡ lookup (λ key. series == key) (filled slots.now.entries) }
{
    if slots.len() == 0 {
        return None;
    }
    match slots.get(&series) {
        Some(slot) => *slot,
        None => None,
    }
}

/// Makes a slot for a series, if it has none.
fn reserve_slot(slots: &mut Slots, series: u32) -> Result<(), AllocError>
    ensures kept { filled slots.new.entries ≡ filled slots.old.entries }
    ensures others { (other : ℕ) → has_slot slots.old.entries other ≡ true
        → has_slot slots.new.entries other ≡ true }
    ensures room { OnOk result (has_slot slots.new.entries series ≡ true) }
{
    if slots.contains_key(&series) {
        return Ok(());
    }
    slots.insert(series, None)?;
    Ok(())
}

/// Makes a slot for the series of each point.
fn reserve_slots(slots: &mut Slots, points: &[BeatPoint]) -> Result<(), AllocError>
    ensures kept { filled slots.new.entries ≡ filled slots.old.entries }
    ensures room { OnOk result (HaveSlots slots.new.entries points.now) }
{
    for point in points {
        reserve_slot(slots, point.series)?;
    }
    Ok(())
}

/// Puts in the record of a series.
fn put_record(slots: &mut Slots, series: u32, value: Record) -> Result<(), AllocError>
    ensures { OnOk result (filled slots.new.entries
        ≡ insert_entry nat_cmp (filled slots.old.entries) series value) }
{
    slots.insert(series, Some(value))?;
    Ok(())
}

/// Puts in records, one after the other.
fn put_records(slots: &mut Slots, records: &[(u32, Record)]) -> Result<(), AllocError>
    ensures { OnOk result (filled slots.new.entries
        ≡ with_records (filled slots.old.entries) records.now) }
{
    for record in records {
        put_record(slots, record.0, record.1)?;
    }
    Ok(())
}

/// Adds the record of a slot to others, if it has one.
fn add_open(
    records: &mut OpenRecordList,
    series: u32,
    slot: Option<Record>,
) -> Result<(), AllocError>
    ensures { OnOk result (records.new ≡ records.old ++ filled ((series, slot) ∷ [])) }
{
    if let Some(record) = slot {
        records.push((series, record))?;
    }
    Ok(())
}

/// The records of slots.
fn open_records(alloc: Global, slots: &Slots) -> Result<OpenRecordList, AllocError>
    ensures { IfOk result (λ records. records ≡ filled slots.now.entries) }
{
    let mut records = OpenRecordList::new(alloc);
    for (series, slot) in slots.iter() {
        add_open(&mut records, *series, *slot)?;
    }
    Ok(records)
}

/// Adds a value to the record of its series, which has a slot.
fn add_value(slots: &mut Slots, series: u32, value: Value)
    requires { has_slot slots.old.entries series ≡ true }
    ensures added { filled slots.new.entries
        ≡ with_value_at (filled slots.old.entries) series value }
    ensures room { keys_of slots.new.entries ≡ keys_of slots.old.entries }
{
    let before = record_in(slots, series);
    let after = with_value(before, value.units, value.anomalous);
    let _before = slots.insert(series, Some(after));
}

/// Adds a point to the record of its series, which has a slot.
fn add_point(slots: &mut Slots, point: &BeatPoint)
    requires { has_slot slots.old.entries point.now.series ≡ true }
    ensures added { filled slots.new.entries ≡ with_point (filled slots.old.entries) point.now }
    ensures room { keys_of slots.new.entries ≡ keys_of slots.old.entries }
{
    if let Some(value) = unpack(point.word) {
        add_value(slots, point.series, value);
    }
}

/// Adds each point to the record of its series. Each has a slot.
fn add_points(slots: &mut Slots, points: &[BeatPoint])
    requires { HaveSlots slots.old.entries points.now }
    ensures { filled slots.new.entries ≡ with_points (filled slots.old.entries) points.now }
{
    for point in points {
        add_point(slots, point);
    }
}

impl RecordTier {
    pub(crate) fn new(alloc: Global, tier: Tier) -> RecordTier
        requires { IsTier tier }
        ensures { records_held result ≡ no_records tier }
    {
        RecordTier {
            tier,
            current: BTreeMap::new(alloc),
            next: BTreeMap::new(alloc),
            segments: Segments::new(alloc),
        }
    }

    /// The tier of what was kept.
    pub(crate) fn restore(
        alloc: Global,
        tier: Tier,
        kept: KeptRecords,
    ) -> Result<RecordTier, AllocError>
        requires settings { IsTier tier }
        requires sealed { AllByRecursion HasItems kept.items.sealed }
        requires records { are_open 0 kept.current ≡ true }
        ensures { IfOk result (λ restored. records_held restored ≡ restored_tier tier kept) }
    {
        let mut current = BTreeMap::new(alloc);
        put_records(&mut current, kept.current.as_slice())?;
        Ok(RecordTier {
            tier,
            current,
            next: BTreeMap::new(alloc),
            segments: Segments::restore(alloc, kept.items)?,
        })
    }

    /// The records of buckets that are over.
    pub fn segments(&self) -> &Segments<Record>
        ensures { result.now ≡ self.now.segments }
    {
        &self.segments
    }

    /// A copy of the records of the bucket of the last moment.
    pub fn open_records(&self, alloc: Global) -> Result<OpenRecordList, AllocError>
        ensures { IfOk result (λ records. records ≡ filled self.now.slots) }
    {
        open_records(alloc, &self.current)
    }

    /// The settings.
    pub fn tier(&self) -> Tier
        ensures { result ≡ self.now.tier }
    {
        self.tier
    }

    /// Whether a beat of this moment lies behind the bucket of the last moment.
    fn closes(&self, last: u32, moment: u32) -> bool
        ensures { result ≡ closes last moment self.now }
    {
        last / self.tier.width < moment / self.tier.width
    }

    /// Takes the memory for a beat of this moment, behind one of the last moment.
    pub(crate) fn reserve(
        &mut self,
        last: u32,
        moment: u32,
        points: &[BeatPoint],
    ) -> Result<(), AllocError>
        ensures kept { records_held self.new ≡ records_held self.old }
        ensures room { OnOk result (HasRoomAfter last moment points.now self.new) }
    {
        if !self.closes(last, moment) {
            return reserve_slots(&mut self.current, points);
        }
        self.segments.reserve(self.current.len())?;
        reserve_slots(&mut self.next, points)
    }

    /// Takes a beat of this moment, behind one of the last moment. There is memory for it.
    pub(crate) fn take(&mut self, last: u32, moment: u32, points: &[BeatPoint])
        requires { HasRoomAfter last moment points.now self.old }
        ensures { records_held self.new
            ≡ record_tier_after last moment points.now (records_held self.old) }
    {
        if self.closes(last, moment) {
            self.close(last, moment);
        }
        add_points(&mut self.current, points);
    }

    /// The records of the bucket of the last moment become items at a beat that lies behind it.
    fn close(&mut self, last: u32, moment: u32)
        requires closes { closes last moment self.old ≡ true }
        requires room { HasRoom (length (filled self.old.slots)) self.old.segments }
        ensures slots { self.new.slots ≡ self.old.next }
        ensures closed { records_held self.new ≡ closed_before last moment (records_held self.old) }
    {
        let before = self.segments.unsealed().len();
        push_records(&mut self.segments, last / self.tier.width, &self.current);
        if before < self.segments.unsealed().len() {
            self.segments.end_beat(ItemKind::Records, self.tier, moment);
        }
        std::mem::swap(&mut self.current, &mut self.next);
        self.next.clear();
    }

    /// The first moment that is kept, or 0 where nothing has expired.
    pub(crate) fn floor(&self) -> u32
        ensures { result ≡ self.now.segments.kept.floor }
    {
        self.segments.floor()
    }

    /// The record of a series in the bucket of the last moment.
    fn open_record(&self, series: u32) -> Option<Record>
        ensures { result ≡ open_record (records_held self.now) series }
    {
        record_in(&self.current, series)
    }

    /// The record of a series in a bucket at or above the floor, where `last` is the last moment.
    pub(crate) fn record_of(&self, last: u32, series: u32, bucket: u32) -> Option<Record>
        ensures { AreOrdered (items_of self.now.segments.kept)
            → result ≡ record_in (records_held self.now) last series bucket }
    {
        if u64::from(bucket) * u64::from(self.tier.width) < u64::from(self.floor()) {
            return None;
        }
        if bucket == last / self.tier.width {
            return self.open_record(series);
        }
        searching::record_of(&self.segments, bucket, series)
    }

    /// The first bucket that is kept.
    fn first_bucket(&self) -> u32
        ensures { result ≡ first_bucket (records_held self.now) }
    {
        self.floor().div_ceil(self.tier.width)
    }

    /// The bucket of the last moment and the record of a series in it, where the bucket is from one to another, these
    /// included.
    fn next_open(&self, bucket: u32, series: u32, from: u32, to: u32) -> Option<(u32, Record)>
        ensures { result ≡ if nat_le from bucket && nat_le bucket to
            then option_map (λ (found : ARecord). (bucket, found))
            (open_record (records_held self.now) series)
            else None }
    {
        if from <= bucket && bucket <= to {
            let found = self.open_record(series)?;
            return Some((bucket, found));
        }
        None
    }

    /// The first bucket from one to another, these included, that has a record of a series at or above the floor, and
    /// that record, where `last` is the last moment.
    pub(crate) fn next_record(
        &self,
        last: u32,
        series: u32,
        from: u32,
        to: u32,
    ) -> Option<(u32, Record)>
        ensures { AreOrdered (items_of self.now.segments.kept)
            → AreClosed last (records_held self.now)
            → IsFirstRecord (λ bucket. record_in (records_held self.now) last series bucket)
            from to result }
    {
        let low = from.max(self.first_bucket());
        match searching::next_item(&self.segments, series, low, to) {
            Some(item) => Some((item.place, item.value)),
            None => self.next_open(last / self.tier.width, series, low, to),
        }
    }
}
