ghost use Rattle.std.specs.Prelude.{◌≡◌, ◌<◌, ◌*◌, ◌^◌, true, false, [], ◌∷◌, ◌++◌, length, Some, None, IfOk, OnOk, All};
ghost use Rattle.checkpoint_body.specs.declared.item.BucketRecord.{BucketRecord as ABucketRecord};
ghost use Rattle.checkpoint_body.specs.Records.{is_next, records_in, records_of, record_page_of, record_pages, with_record, EndsInTime, HasStep};

use crate::grid::moment_of;
use crate::item::{BucketRecord, BucketRecordList};
use crate::page::{RecordList, RecordPage, RecordPageList};
use page_buffer::MOST_RECORDS;
use std::alloc::{AllocError, Global};

/// The page of a record alone.
fn record_page_of(alloc: Global, width: u32, item: &BucketRecord) -> Result<RecordPage, AllocError>
    requires { item.now.bucket * width < 2 ^ 32 }
    ensures { IfOk result (λ page. page ≡ record_page_of width item.now) }
{
    let mut records = RecordList::new(alloc);
    records.push(item.value)?;
    Ok(RecordPage {
        series: item.series,
        first: item.bucket * width,
        step: width,
        records,
    })
}

/// Whether the record is the page's next one.
fn is_next(width: u32, page: &RecordPage, item: &BucketRecord) -> bool
    requires { item.now.bucket * width < 2 ^ 32 }
    ensures { result ≡ is_next width page.now item.now }
{
    let len = page.records.len();
    if len >= MOST_RECORDS {
        return false;
    }
    page.series == item.series
        && page.step == width
        && moment_of(page.first, width, len) == u128::from(item.bucket * width)
}

/// Puts a record into the page, where that takes it. Whether it does.
fn add_record(width: u32, page: &mut RecordPage, item: &BucketRecord) -> Result<bool, AllocError>
    requires { item.now.bucket * width < 2 ^ 32 }
    ensures added { IfOk result
        (λ added. added ≡ true → with_record width page.old item.now ≡ Some page.new) }
    ensures refused { IfOk result
        (λ added. added ≡ false → with_record width page.old item.now ≡ None) }
    ensures same { IfOk result (λ added. added ≡ false → page.new ≡ page.old) }
{
    if !is_next(width, page, item) {
        return Ok(false);
    }
    page.records.push(item.value)?;
    Ok(true)
}

/// The pages of records in the order of their series, then buckets, of a tier of this width in
/// seconds: a record goes into the last page, where that is of its series, the record's bucket is
/// the next one and at most `MOST_RECORDS` records result. Else it begins a page.
pub fn record_pages(
    alloc: Global,
    width: u32,
    items: &[BucketRecord],
) -> Result<RecordPageList, AllocError>
    requires { All (λ (item : ABucketRecord). item.bucket * width < 2 ^ 32) items.now }
    ensures { IfOk result (λ pages. pages ≡ record_pages width items.now) }
{
    let mut pages = RecordPageList::new(alloc);
    let Some((first, others)) = items.split_first() else {
        return Ok(pages);
    };
    let mut page = record_page_of(alloc, width, first)?;
    for item in others {
        if !add_record(width, &mut page, item)? {
            let next = record_page_of(alloc, width, item)?;
            pages.push(std::mem::replace(&mut page, next))?;
        }
    }
    pages.push(page)?;
    Ok(pages)
}

/// Puts the records of a page behind others.
fn add_records(items: &mut BucketRecordList, page: &RecordPage) -> Result<(), AllocError>
    requires step { HasStep page.now }
    requires in_time { EndsInTime page.now }
    ensures { OnOk result (items.new ≡ items.old ++ records_in page.now) }
{
    let mut moment = page.first;
    for record in page.records.as_slice() {
        items.push(BucketRecord {
            series: page.series,
            bucket: moment / page.step,
            value: *record,
        })?;
        moment = moment.wrapping_add(page.step);
    }
    Ok(())
}

/// The records of pages, in order.
pub fn records_of(alloc: Global, pages: &[RecordPage]) -> Result<BucketRecordList, AllocError>
    requires step { All HasStep pages.now }
    requires in_time { All EndsInTime pages.now }
    ensures { IfOk result (λ items. items ≡ records_of pages.now) }
{
    let mut items = BucketRecordList::new(alloc);
    for page in pages {
        add_records(&mut items, page)?;
    }
    Ok(items)
}
