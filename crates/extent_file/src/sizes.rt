ghost use Rattle.std.specs.Prelude.{◌≡◌, ◌+◌, ◌*◌, ◌<◌, ◌≤◌, ◌^◌};
ghost use Rattle.tier_settings.specs.declared.limits.TheConstants.{MOST_EXTENTS, MOST_ITEMS, MOST_SERIES};
ghost use Rattle.extent_file.specs.Slot.{IsTierFile, tier_of, item_size, most_items, slot_size, slot_start};

use host_model::File;
use page_buffer::RECORD_SIZE;
use page_pool::PAGE_SIZE;
use tier_settings::MOST_SERIES;

/// The most bytes that a slot has.
pub const SLOT_LIMIT: u64 = 1 << 26;

/// The last byte of a file at which a slot may begin.
pub const START_LIMIT: u64 = 1 << 36;

/// The last byte of an extent that a directory is read up to.
pub const PLACE_LIMIT: u64 = 1 << 40;

/// The most entries of a directory.
pub const MOST_ENTRIES: u32 = 1 << 22;

/// How many bytes stand before the directory.
pub(crate) const HEAD_SIZE: usize = 24;

/// How many bytes an entry of the directory has.
pub(crate) const ENTRY_SIZE: usize = 24;

/// How many bytes a word of a slot page has.
const WORD_SIZE: usize = 4;

/// The tier whose extents lie in a file.
pub(crate) fn tier_of(file: File) -> u32
    requires { IsTierFile file }
    ensures value { result ≡ tier_of file }
    ensures below { result < 5 }
{
    (file.number() - 4) as u32
}

/// How many bytes an item has.
pub(crate) fn item_size(tier: u32) -> u64
    ensures { result ≡ item_size tier }
{
    let size = if tier == 0 { WORD_SIZE } else { RECORD_SIZE };
    size as u64
}

/// The most items of a page.
pub(crate) fn most_items(tier: u32) -> u64
    ensures { result ≡ most_items tier }
{
    PAGE_SIZE as u64 / item_size(tier)
}

/// How many bytes an extent of so many pages has, which have so many items together.
pub fn size_of(tier: u32, pages: u64, items: u64) -> u64
    requires { HEAD_SIZE + ENTRY_SIZE * pages + items * item_size tier < 2 ^ 64 }
    ensures { result ≡ HEAD_SIZE + ENTRY_SIZE * pages + items * item_size tier }
{
    HEAD_SIZE as u64 + ENTRY_SIZE as u64 * pages + items * item_size(tier)
}

/// How many bytes a slot has.
pub(crate) fn slot_size(tier: u32, items: u32) -> u64
    requires { items ≤ MOST_ITEMS }
    ensures value { result ≡ slot_size tier items }
    ensures most { result ≤ SLOT_LIMIT }
{
    let most = u64::from(items) + u64::from(MOST_SERIES);
    HEAD_SIZE as u64 + most * (ENTRY_SIZE as u64 + item_size(tier))
}

/// Where a slot begins.
pub(crate) fn slot_start(tier: u32, items: u32, slot: u32) -> u64
    requires items { items ≤ MOST_ITEMS }
    requires slot { slot ≤ MOST_EXTENTS }
    ensures value { result ≡ slot_start tier items slot }
    ensures most { result ≤ START_LIMIT }
{
    u64::from(slot) * slot_size(tier, items)
}
