ghost use Rattle.std.specs.Prelude.{◌≡◌, ◌+◌, ◌*◌, ◌≤◌, ◌^◌, ◌<◌, ◌++◌, ℕ, List, length, IfOk, OnOk, IfErr};
ghost use Rattle.extent_file.specs.Slot.{item_size};
ghost use Rattle.extent_file.specs.Directory.{at_first};
ghost use Rattle.extent_file.specs.Pages.{ArePages, IsExtentOf, extent_size, entries_of, items_of};
ghost use Rattle.extent_file.specs.Writing.{entry_bytes, directory_bytes, head_bytes, AreItems};
ghost use Rattle.extent_file.specs.declared.sizes.TheConstants.{SLOT_LIMIT};

use crate::entry::Entry;
use crate::head::MARK;
use crate::page::Page;
use crate::sizes::{ENTRY_SIZE, HEAD_SIZE};
use fixed_num::ByteList;
use page_buffer::PageFault;
use std::alloc::{AllocError, Global};

/// Adds the head of an extent.
fn append_head(out: &mut ByteList, tier: u32, pages: u32, size: u64) -> Result<(), AllocError>
    ensures { OnOk result (out.new ≡ out.old ++ head_bytes tier pages size) }
{
    out.extend(&MARK.to_le_bytes())?;
    out.extend(&tier.to_le_bytes())?;
    out.extend(&pages.to_le_bytes())?;
    out.extend(&size.to_le_bytes())
}

/// Adds an entry.
fn append_entry(out: &mut ByteList, entry: &Entry) -> Result<(), AllocError>
    ensures { OnOk result (out.new ≡ out.old ++ entry_bytes entry.now) }
{
    out.extend(&entry.series.to_le_bytes())?;
    out.extend(&entry.first.to_le_bytes())?;
    out.extend(&entry.step.to_le_bytes())?;
    out.extend(&entry.count.to_le_bytes())?;
    out.extend(&entry.place.to_le_bytes())
}

/// Adds the entries of pages whose items begin at a place.
fn append_directory(
    out: &mut ByteList,
    tier: u32,
    first: u64,
    pages: &[Page],
) -> Result<(), AllocError>
    requires { first + items_of pages.now * item_size tier ≤ SLOT_LIMIT }
    ensures { OnOk result
        (out.new ≡ out.old ++ directory_bytes (entries_of tier first pages.now)) }
{
    let mut place = first;
    for page in pages {
        let (series, first, step, count) = page.head();
        let entry = Entry {
            series,
            first,
            step,
            count,
            place,
        };
        append_entry(out, &entry)?;
        place += entry.bytes(tier);
    }
    Ok(())
}

/// Adds the items of pages.
fn append_items(out: &mut ByteList, pages: &[Page]) -> Result<(), PageFault>
    ensures { OnOk result ((bytes : List ℕ) × (out.new ≡ out.old ++ bytes)
        × AreItems pages.now bytes) }
{
    for page in pages {
        page.encode(out)?;
    }
    Ok(())
}

/// Adds the extent of pages whose items begin at a place, with its size.
fn append_all(
    out: &mut ByteList,
    tier: u32,
    first: u64,
    size: u64,
    pages: &[Page],
    items: &[u8],
) -> Result<(), AllocError>
    requires room { first + items_of pages.now * item_size tier ≤ SLOT_LIMIT }
    requires count { length pages.now < 2 ^ 32 }
    ensures { OnOk result (out.new ≡ out.old ++ (head_bytes tier (length pages.now) size
        ++ (directory_bytes (entries_of tier first pages.now) ++ items.now))) }
{
    append_head(out, tier, pages.len() as u32, size)?;
    append_directory(out, tier, first, pages)?;
    out.extend(items)
}

/// The bytes of the extent of pages, which fits a slot of this size.
pub(crate) fn encode(
    alloc: Global,
    tier: u32,
    slot: u64,
    pages: &[Page],
) -> Result<ByteList, AllocError>
    requires pages { ArePages tier (at_first (length pages.now)) pages.now }
    requires fits { extent_size tier pages.now ≤ slot }
    requires slot { slot ≤ SLOT_LIMIT }
    ensures extent { IfOk result (λ bytes. (more : List ℕ)
        → IsExtentOf tier slot pages.now (bytes ++ more)) }
    ensures size { IfOk result (λ bytes. length bytes ≡ extent_size tier pages.now) }
{
    let mut items = ByteList::new(alloc);
    if append_items(&mut items, pages).is_err() {
        return Err(AllocError);
    }
    let first = HEAD_SIZE as u64 + ENTRY_SIZE as u64 * pages.len() as u64;
    let size = first + items.len() as u64;
    let mut out = ByteList::new(alloc);
    if append_all(&mut out, tier, first, size, pages, items.as_slice()).is_err() {
        return Err(AllocError);
    }
    Ok(out)
}
