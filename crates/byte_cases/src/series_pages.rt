//! The tests of `page_buffer`: pages of slots and of records, and their bytes.

use fixed_num::{ByteList, Record};
use page_buffer::{PageFault, RecordPage, SlotPage};
use page_pool::{PagePool, RawPage};
use std::alloc::Global;
use std::test::Fail;

fn empty_page(alloc: Global) -> Result<RawPage, Fail> {
    let mut pool = PagePool::new(alloc);
    pool.reserve(1)?;
    Ok(pool.take().ok_or("no page is spare")?)
}

fn full_page(alloc: Global) -> Result<SlotPage, Fail> {
    let mut page = SlotPage::new(empty_page(alloc)?, 1, 0, 1);
    for moment in 0..1_024 {
        page.push(moment, 9)?;
    }
    Ok(page)
}

#[test]
fn a_full_page_takes_no_point(rt: HostRuntime) -> Result<(), Fail> {
    let mut page = full_page(rt.alloc())?;
    assert_eq!(rt; page.push(1_024, 9), Err(PageFault::PageFull));
    Ok(())
}

fn two_points(alloc: Global) -> Result<SlotPage, Fail> {
    let mut page = SlotPage::new(empty_page(alloc)?, 7, 10, 10);
    page.push(10, 1)?;
    page.push(30, 2)?;
    Ok(page)
}

#[test]
fn a_page_takes_no_point_eight_steps_on(rt: HostRuntime) -> Result<(), Fail> {
    let mut page = two_points(rt.alloc())?;
    assert_eq!(rt; page.push(110, 9), Err(PageFault::TooFar));
    Ok(())
}

/// The bytes of the page that is read of bytes.
fn slots_again(alloc: Global, bytes: &[u8]) -> Result<RawPage, Fail> {
    let page = SlotPage::decode(bytes, empty_page(alloc)?, 7, 10, 10)?;
    Ok(page.into_raw())
}

#[test]
fn slots_are_words_with_zeros_between_points(rt: HostRuntime) -> Result<(), Fail> {
    let want = b"\x01\0\0\0\0\0\0\0\x02\0\0\0".as_slice();
    let mut bytes = ByteList::new(rt.alloc());
    let page = two_points(rt.alloc())?;
    page.encode(&mut bytes)?;
    assert_eq!(rt; bytes.as_slice(), want);
    assert_eq!(rt; slots_again(rt.alloc(), want)?.as_slice(), want);
    Ok(())
}

fn one_record(alloc: Global) -> Result<RecordPage, Fail> {
    let record = Record {
        min: -1,
        max: 256,
        sum: 500,
        count: 3,
        anomalies: 1,
    };
    let mut page = RecordPage::new(empty_page(alloc)?, 7, 3_600, 60);
    page.push(3_600, record)?;
    Ok(page)
}

/// The bytes of the page that is read of bytes.
fn records_again(alloc: Global, bytes: &[u8]) -> Result<RawPage, Fail> {
    let page = RecordPage::decode(bytes, empty_page(alloc)?, 7, 3_600, 60)?;
    Ok(page.into_raw())
}

#[test]
fn a_record_has_56_bytes(rt: HostRuntime) -> Result<(), Fail> {
    let want =
        b"\xff\xff\xff\xff\xff\xff\xff\xff\xff\xff\xff\xff\xff\xff\xff\xff\0\x01\0\0\0\0\0\0\0\0\0\0\0\0\0\0\xf4\x01\0\0\0\0\0\0\0\0\0\0\0\0\0\0\x03\0\0\0\x01\0\0\0".as_slice();
    let mut bytes = ByteList::new(rt.alloc());
    let page = one_record(rt.alloc())?;
    page.encode(&mut bytes)?;
    assert_eq!(rt; bytes.as_slice(), want);
    assert_eq!(rt; records_again(rt.alloc(), want)?.as_slice(), want);
    Ok(())
}
