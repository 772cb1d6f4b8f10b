ghost use Rattle.std.specs.Prelude.{◌≡◌, ◌+◌, ◌*◌, ◌/◌, ◌-◌, ◌^◌, ◌<◌, ◌≤◌, ◌==◌, ℕ, if◌then◌else◌, length, IfOk, IfErr};
ghost use Rattle.extent_file.specs.declared.entry.Entry.{Entry as TheEntry};
ghost use Rattle.extent_file.specs.Fields.{IsField};
ghost use Rattle.extent_file.specs.Form.{Form, GoesTo};
ghost use Rattle.extent_file.specs.Slot.{item_size, most_items};
ghost use Rattle.extent_file.specs.Directory.{between, last_of, bytes_of, after_entry, first_field, count_field, in_time, fewest, room, entry_form, Follows};
ghost use Rattle.extent_file.specs.Find.{is_before};
ghost use Rattle.extent_file.specs.declared.sizes.TheConstants.{ENTRY_SIZE, PLACE_LIMIT};

use crate::field::{Field, read_at};
use crate::sizes::{item_size, most_items};

/// The largest number of 4 bytes.
const TOP: u64 = 0xFFFF_FFFF;

/// What the directory says of a page.
#[derive(Clone, Copy, Debug)]
pub(crate) struct Entry {
    pub(crate) series: u32,
    /// The moment of its first item.
    pub(crate) first: u32,
    /// From one item to the next.
    pub(crate) step: u32,
    /// How many items it has.
    pub(crate) count: u32,
    /// Where its items begin, counted from the extent's start.
    pub(crate) place: u64,
}

/// What an entry leaves to the next one.
#[derive(Clone, Copy, Debug)]
pub(crate) struct Before {
    pub(crate) series: u64,
    /// The first moment after the page.
    pub(crate) free: u64,
    /// Where its items end.
    pub(crate) place: u64,
}

impl Entry {
    /// The moment of its last item.
    pub(crate) fn last(&self) -> u64
        ensures value { result ≡ last_of self.now }
        ensures most { result < 2 ^ 64 - 1 }
    {
        u64::from(self.first) + u64::from(self.count.saturating_sub(1)) * u64::from(self.step)
    }

    /// Whether it stands before each page of the series that has an item at or after the moment.
    pub(crate) fn is_before(&self, series: u32, moment: u32) -> bool
        ensures { result ≡ is_before series moment self.now }
    {
        self.series < series || self.series == series && self.last() < u64::from(moment)
    }

    /// How many bytes the items have.
    pub(crate) fn bytes(&self, tier: u32) -> u64
        ensures { result ≡ bytes_of tier self.now }
    {
        u64::from(self.count) * item_size(tier)
    }

    /// What it leaves to the next one.
    pub(crate) fn after(&self, tier: u32) -> Before
        requires { self.now.place ≤ PLACE_LIMIT }
        ensures { result ≡ after_entry tier self.now }
    {
        Before {
            series: u64::from(self.series),
            free: self.last() + 1,
            place: self.place + self.bytes(tier),
        }
    }
}

/// A field of 4 bytes.
fn between(low: u64, high: u64) -> Field
    ensures { result ≡ between 4 low high }
{
    Field {
        width: 4,
        low,
        high,
    }
}

/// A field of this width with one value.
pub(crate) fn exactly(width: usize, value: u64) -> Field
    ensures { result ≡ between width value value }
{
    Field {
        width,
        low: value,
        high: value,
    }
}

/// The first moments that a page of a series may have.
fn first_field(before: Before, series: u64) -> Field
    ensures value { result ≡ first_field before series }
    ensures form { IsField result }
{
    let low = if series == before.series {
        before.free
    } else {
        0
    };
    between(low, TOP)
}

/// How many items of a page end before 2^32.
fn in_time(first: u64, step: u64) -> u64
    requires first { first ≤ TOP }
    requires step { 1 ≤ step }
    ensures { result ≡ in_time first step }
{
    1 + (TOP - first) / step
}

/// The fewest items of a page.
fn fewest(tier: u32, size: u64, left: u32, place: u64) -> u64
    requires { size ≤ PLACE_LIMIT }
    ensures { result ≡ fewest tier size left place }
{
    if left != 0 {
        return 1;
    }
    let item = item_size(tier);
    ((size.saturating_sub(place) + (item - 1)) / item).max(1)
}

/// How many items a page may have.
fn count_field(tier: u32, size: u64, left: u32, place: u64, first: u64, step: u64) -> Field
    requires size { size ≤ PLACE_LIMIT }
    requires first { first ≤ TOP }
    requires step { 1 ≤ step }
    ensures value { result ≡ count_field tier size left place first step }
    ensures form { IsField result }
{
    let room = (size.saturating_sub(place) / item_size(tier)).saturating_sub(u64::from(left));
    let most = most_items(tier).min(in_time(first, step).min(room));
    between(fewest(tier, size, left, place), most)
}

/// The entry at a place of what was seen of an extent of this size, with so many after it, or the place at
/// which the form does not go on.
pub(crate) fn read_entry(
    seen: &[u8],
    at: usize,
    tier: u32,
    size: u64,
    left: u32,
    before: Before,
) -> Result<Entry, usize>
    requires size { size ≤ PLACE_LIMIT }
    requires inside { at ≤ length seen.now }
    requires place { before.place ≤ size }
    ensures follows { IfOk result (λ entry. Follows tier before entry) }
    ensures inside { IfOk result (λ entry. (at + ENTRY_SIZE ≤ length seen.now)
        × (entry.place + bytes_of tier entry ≤ size)) }
    ensures reaches { IfErr result (λ place. place ≤ length seen.now) }
    ensures leads { (next : TheEntry → Form) → GoesTo seen.now at (at + ENTRY_SIZE)
        (entry_form tier size left before next) next result }
{
    let series = read_at(seen, at, between(before.series, TOP))?;
    let first = read_at(seen, at + 4, first_field(before, series))?;
    let step = read_at(seen, at + 8, between(1, TOP))?;
    let counts = count_field(tier, size, left, before.place, first, step);
    let count = read_at(seen, at + 12, counts)?;
    let place = read_at(seen, at + 16, exactly(8, before.place))?;
    Ok(Entry {
        series: series as u32,
        first: first as u32,
        step: step as u32,
        count: count as u32,
        place,
    })
}
