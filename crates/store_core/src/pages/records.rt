ghost use Rattle.std.specs.Prelude.{◌≡◌, ℕ, ◌<◌, ◌^◌, All, IfOk, List, length, map};
ghost use Rattle.std.specs.List.{AllByRecursion};
ghost use Rattle.fixed_num.specs.declared.units.Record.{Record as ARecord};
ghost use Rattle.beat_tiers.specs.declared.item.Item.{Item as AnItem};
ghost use Rattle.beat_tiers.specs.Tiers.{AreOrdered};
ghost use Rattle.checkpoint_body.specs.Records.{EndsInTime, HasStep};
ghost use Rattle.checkpoint_body.specs.Fields.{FitsRecord};
ghost use Rattle.store_core.specs.pages.Items.{HaveRecords, IsRecordItem, bucket_record_of_item, item_of_bucket_record};
ghost use Rattle.store_core.specs.pages.Pages.{AreRecordPagesOf};
ghost use Rattle.store_core.specs.pages.Ranges.{FitsBucketRecord};

use crate::pages::sorting::{sorted_by_place, sorted_by_series};
use beat_tiers::Item;
use checkpoint_body::{BucketRecord, BucketRecordList, RecordPage, RecordPageList};
use fixed_num::{ListOf, Record};
use std::alloc::{AllocError, Global};

/// The record as it is, whose numbers are known to fit.
fn fitting(one: Record) -> Record
    ensures value { result ≡ one }
    ensures fits { FitsRecord result }
{
    one
}

/// The records of buckets that items are.
fn records_of_items(alloc: Global, items: &[Item<Record>]) -> Result<BucketRecordList, AllocError>
    ensures records { IfOk result (λ records. records ≡ map bucket_record_of_item items.now) }
    ensures fit { IfOk result (λ records. All FitsBucketRecord records) }
{
    let mut records = BucketRecordList::new(alloc);
    for item in items {
        let value = fitting(item.value);
        records.push(BucketRecord {
            series: item.series,
            bucket: item.place,
            value,
        })?;
    }
    Ok(records)
}

/// The items that records of buckets are.
fn items_of_bucket_records(
    alloc: Global,
    records: &[BucketRecord],
) -> Result<Vec<Item<Record>>, AllocError>
    ensures { IfOk result (λ items. items.items ≡ map item_of_bucket_record records.now) }
{
    records
        .iter()
        .map(|one| Item {
            place: one.bucket,
            series: one.series,
            value: one.value,
        })
        .collect(alloc)
}

/// The pages of a segment of records, in a tier of this width in seconds.
pub fn record_pages_of(
    alloc: Global,
    width: u32,
    items: &[Item<Record>],
) -> Result<RecordPageList, AllocError>
    requires ordered { AreOrdered items.now }
    requires records { AllByRecursion (IsRecordItem width) items.now }
    requires some { 0 < width }
    requires few { length items.now < 2 ^ 32 }
    ensures { (tier : ℕ) → 0 < tier → IfOk result (AreRecordPagesOf tier width items.now) }
{
    let sorted = sorted_by_series(alloc, items)?;
    let records = records_of_items(alloc, sorted.as_slice())?;
    checkpoint_body::record_pages(alloc, width, records.as_slice())
}

/// The items of pages, by their places, then series.
pub fn items_of_records(
    alloc: Global,
    pages: &[RecordPage],
) -> Result<ListOf<Item<Record>>, AllocError>
    requires step { All HasStep pages.now }
    requires in_time { All EndsInTime pages.now }
    ensures have { IfOk result (HaveRecords pages.now) }
    ensures ordered { IfOk result (λ items. (others : List (AnItem ARecord))
        → AreOrdered others → HaveRecords pages.now others → items ≡ others) }
{
    let records = checkpoint_body::records_of(alloc, pages)?;
    let items = items_of_bucket_records(alloc, records.as_slice())?;
    sorted_by_place(items)
}
