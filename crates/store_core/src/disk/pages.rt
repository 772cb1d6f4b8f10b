//! Pages as a checkpoint's body has them, put into the pages of an extent.

ghost use Rattle.std.specs.Prelude.{◌≡◌, ◌<◌, All, [], map, IfOk, IsOkUnless};
ghost use Rattle.page_buffer.specs.Page.{page_of};
ghost use Rattle.page_buffer.specs.Records.{AreRecords};
ghost use Rattle.page_buffer.specs.Slots.{AreSlots};
ghost use Rattle.store_core.specs.disk.Holds.{page_of_records, page_of_slots};
ghost use Rattle.store_core.specs.disk.Next.{IsFormed};

use crate::disk::fault::FilesFault;
use crate::disk::reading::raw_page;
use checkpoint_body as body;
use extent_file::{Page, PageList};
use fixed_num::Record;
use page_buffer::{RecordPage, SlotPage};
use page_pool::PagePool;
use std::alloc::Global;

/// Puts the words of slots into a page that has none. An empty slot is left by the point behind it.
fn put_words(page: &mut SlotPage, first: u32, step: u32, words: &[u32])
    requires empty { page.old ≡ page_of page.old.series first step [] }
    requires step { 0 < step }
    requires slots { AreSlots first step words.now }
    ensures { page.new ≡ page_of page.old.series first step words.now }
{
    for (place, word) in words.iter().enumerate() {
        if *word != 0 {
            let _ = page.push(first + place as u32 * step, *word);
        }
    }
}

/// Puts records into a page that has none.
fn put_records(page: &mut RecordPage, first: u32, step: u32, records: &[Record])
    requires empty { page.old ≡ page_of page.old.series first step [] }
    requires records { AreRecords first step records.now }
    ensures { page.new ≡ page_of page.old.series first step records.now }
{
    for (place, item) in records.iter().enumerate() {
        let _ = page.push(first + place as u32 * step, *item);
    }
}

fn slot_page(alloc: Global, page: &body::SlotPage) -> Result<Page, FilesFault>
    requires { IsFormed (page_of_slots page.now) }
    ensures page { IfOk result (λ made. made ≡ page_of_slots page.now) }
    ensures memory { IsOkUnless result FilesFault.Memory }
{
    let mut pool = PagePool::new(alloc);
    let raw = raw_page(&mut pool)?;
    let mut made = SlotPage::new(raw, page.series, page.first, page.step);
    put_words(&mut made, page.first, page.step, page.words.as_slice());
    Ok(Page::Slots(made))
}

fn record_page(alloc: Global, page: &body::RecordPage) -> Result<Page, FilesFault>
    requires { IsFormed (page_of_records page.now) }
    ensures page { IfOk result (λ made. made ≡ page_of_records page.now) }
    ensures memory { IsOkUnless result FilesFault.Memory }
{
    let mut pool = PagePool::new(alloc);
    let raw = raw_page(&mut pool)?;
    let mut made = RecordPage::new(raw, page.series, page.first, page.step);
    put_records(&mut made, page.first, page.step, page.records.as_slice());
    Ok(Page::Records(made))
}

/// The pages of an extent of points.
pub(crate) fn slot_pages(alloc: Global, pages: &[body::SlotPage]) -> Result<PageList, FilesFault>
    requires { All IsFormed (map page_of_slots pages.now) }
    ensures pages { IfOk result (λ made. made ≡ map page_of_slots pages.now) }
    ensures memory { IsOkUnless result FilesFault.Memory }
{
    let mut made = PageList::new(alloc);
    for page in pages {
        made.push(slot_page(alloc, page)?)?;
    }
    Ok(made)
}

/// The pages of an extent of records.
pub(crate) fn record_pages(
    alloc: Global,
    pages: &[body::RecordPage],
) -> Result<PageList, FilesFault>
    requires { All IsFormed (map page_of_records pages.now) }
    ensures pages { IfOk result (λ made. made ≡ map page_of_records pages.now) }
    ensures memory { IsOkUnless result FilesFault.Memory }
{
    let mut made = PageList::new(alloc);
    for page in pages {
        made.push(record_page(alloc, page)?)?;
    }
    Ok(made)
}
