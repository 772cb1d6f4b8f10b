ghost use Rattle.std.specs.Prelude.{◌≡◌, ◌+◌, ◌*◌, ◌/◌, ◌-◌, ◌<◌, ◌≤◌, ℕ, [], if◌then◌else◌, nat_le, min, max, length, IfOk, IfErr};
ghost use Rattle.extent_file.specs.Fields.{IsField};
ghost use Rattle.extent_file.specs.Form.{GoesTo};
ghost use Rattle.extent_file.specs.Slot.{item_size};
ghost use Rattle.extent_file.specs.Directory.{between, pages_field, at_first, directory_form, extent_form};
ghost use Rattle.extent_file.specs.declared.sizes.TheConstants.{SLOT_LIMIT};

use crate::entry::exactly;
use crate::field::{Field, read_at};
use crate::sizes::{ENTRY_SIZE, HEAD_SIZE, item_size};

/// The number that the first 8 bytes of an extent, `NDAEXT01`, are.
pub(crate) const MARK: u64 = 0x3130_5458_4541_444E;

/// How many pages an extent may have.
fn pages_field(tier: u32, slot: u64, size: u64) -> Field
    requires { slot ≤ SLOT_LIMIT }
    ensures value { result ≡ pages_field tier slot size }
    ensures form { IsField result }
{
    let room = size.min(slot).saturating_sub(HEAD_SIZE as u64);
    Field {
        width: 4,
        low: u64::from(size > HEAD_SIZE as u64),
        high: room / (ENTRY_SIZE as u64 + item_size(tier)),
    }
}

/// The sizes that an extent may say.
fn size_field(slot: u64, size: u64) -> Field
    ensures { result ≡ between 8 (max size HEAD_SIZE) (min size slot) }
{
    Field {
        width: 8,
        low: size.max(HEAD_SIZE as u64),
        high: size.min(slot),
    }
}

/// The number of pages of an extent of this size, of which at least the head was seen, or the place at which the
/// form does not go on.
pub(crate) fn read_head(seen: &[u8], tier: u32, slot: u64, size: u64) -> Result<u32, usize>
    requires { slot ≤ SLOT_LIMIT }
    ensures fits { IfOk result (λ pages. (HEAD_SIZE + pages * (ENTRY_SIZE + item_size tier) ≤ size)
        × (HEAD_SIZE ≤ length seen.now) × (size ≤ slot)) }
    ensures reaches { IfErr result (λ place. place ≤ length seen.now) }
    ensures leads { GoesTo seen.now 0 HEAD_SIZE (extent_form tier slot size)
        (λ pages. directory_form tier size pages (at_first pages) []) result }
{
    read_at(seen, 0, exactly(8, MARK))?;
    read_at(seen, 8, exactly(4, u64::from(tier)))?;
    let pages = read_at(seen, 12, pages_field(tier, slot, size))?;
    read_at(seen, 16, size_field(slot, size))?;
    Ok(pages as u32)
}
