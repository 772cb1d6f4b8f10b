//! The tests of `extent_file`: an extent that is written, opened and read, and bytes that are none.

ghost use Rattle.std.specs.Prelude.{◌≡◌, ◌≤◌, [], ◌∷◌, length, IfOk};
ghost use Rattle.page_buffer.specs.Page.{page_of};
ghost use Rattle.extent_file.specs.Directory.{at_first};
ghost use Rattle.extent_file.specs.Pages.{ArePages, extent_size};

use extent_file::{Extent, ExtentFault, Page, PageList, write_extent};
use host_model::{CallList, File, Host, MemoryHost};
use page_buffer::SlotPage;
use page_pool::{PagePool, RawPage};
use std::alloc::Global;
use std::test::Fail;

fn raw_page(alloc: Global) -> Result<RawPage, Fail> {
    let mut pool = PagePool::new(alloc);
    pool.reserve(1)?;
    Ok(pool.take().ok_or("no page is spare")?)
}

/// A page with one point.
fn point(alloc: Global, series: u32, first: u32) -> Result<SlotPage, Fail>
    ensures { IfOk result (λ page. page ≡ page_of series first 1 (7 ∷ [])) }
{
    let mut page = SlotPage::new(raw_page(alloc)?, series, first, 1);
    page.push(first, 7)?;
    Ok(page)
}

/// The page of one point.
fn one_page(alloc: Global) -> Result<PageList, Fail>
    ensures { IfOk result (λ pages. ArePages 0 (at_first (length pages)) pages
        × (extent_size 0 pages ≤ 100)) }
{
    let mut pages = PageList::new(alloc);
    let page = point(alloc, 3, 60)?;
    pages.push(Page::Slots(page))?;
    Ok(pages)
}

fn host_of(alloc: Global) -> Result<MemoryHost, Fail> {
    Ok(MemoryHost::new(alloc, CallList::new(alloc))?)
}

/// Writes the extent of one point into slot 0, and gives its length.
fn write_first(alloc: Global, host: &mut MemoryHost) -> Result<u64, Fail> {
    let pages = one_page(alloc)?;
    Ok(write_extent(alloc, host, File::Tier0, 1, 0, &pages)?)
}

/// Writes it into slot 1.
fn write_second(alloc: Global, host: &mut MemoryHost) -> Result<u64, Fail> {
    let pages = one_page(alloc)?;
    Ok(write_extent(alloc, host, File::Tier0, 1, 1, &pages)?)
}

/// The extent of one point.
const BYTES: [u8; 52] =
    *b"NDAEXT01\0\0\0\0\x01\0\0\0\x34\0\0\0\0\0\0\0\x03\0\0\0\x3c\0\0\0\x01\0\0\0\x01\0\0\0\x30\0\0\0\0\0\0\0\x07\0\0\0";

#[test]
fn an_extent_of_one_point_has_52_bytes(rt: HostRuntime) -> Result<(), Fail> {
    let mut host = host_of(rt.alloc())?;
    assert_eq!(rt; write_first(rt.alloc(), &mut host)?, 52);
    let mut bytes = [0_u8; 52];
    host.read(File::Tier0, 0, &mut bytes)?;
    assert_eq!(rt; bytes.as_slice(), BYTES.as_slice());
    Ok(())
}

#[test]
fn an_extent_of_one_point_is_read(rt: HostRuntime) -> Result<(), Fail> {
    let mut host = host_of(rt.alloc())?;
    write_first(rt.alloc(), &mut host)?;
    let extent = Extent::open(rt.alloc(), &mut host, File::Tier0, 1, 0, 52)?;
    let entries = extent.entries();
    assert!(rt; entries == 1);
    assert_eq!(rt; extent.head(0), (3, 60, 1, 1));
    assert_eq!(rt; [extent.find(3, 60), extent.find(3, 61)], [Some(0), None]);
    let read = extent.read_page(&mut host, 0, raw_page(rt.alloc())?)?;
    assert_eq!(rt; read.as_slice(), [7, 0, 0, 0].as_slice());
    Ok(())
}

// A slot has 24 bytes and 28 for each of 1 + 65,536 items.
#[test]
fn the_second_slot_begins_behind_the_first(rt: HostRuntime) -> Result<(), Fail> {
    let mut host = host_of(rt.alloc())?;
    write_second(rt.alloc(), &mut host)?;
    assert_eq!(rt; host.len(File::Tier0)?, 1_835_060 + 52);
    Ok(())
}

/// Why a file of these bytes has no extent of 52 bytes.
fn fault_of(alloc: Global, bytes: &[u8]) -> Result<Option<ExtentFault>, Fail> {
    let mut host = host_of(alloc)?;
    host.write_at(File::Tier0, 0, bytes)?;
    Ok(Extent::open(alloc, &mut host, File::Tier0, 1, 0, 52).err())
}

// Mark, tier, number of pages, length, step, count and place.
#[test]
fn a_changed_byte_is_found(rt: HostRuntime) -> Result<(), Fail> {
    for (at, byte, stops) in [
        (7, b'2', 7),
        (8, 1, 8),
        (12, 2, 12),
        (16, 53, 16),
        (32, 0, 35),
        (36, 2, 36),
        (40, 49, 40),
    ] {
        let mut bytes = BYTES;
        if let Some(place) = bytes.get_mut(at) {
            *place = byte;
        }
        let fault = fault_of(rt.alloc(), &bytes)?;
        assert_eq!(rt; fault, Some(ExtentFault::BadExtent(stops)), "byte {at}");
    }
    let fault = fault_of(rt.alloc(), &BYTES[..47])?;
    assert_eq!(rt; fault, Some(ExtentFault::BadExtent(47)));
    Ok(())
}
