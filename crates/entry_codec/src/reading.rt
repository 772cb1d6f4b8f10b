ghost use Rattle.std.specs.Prelude.{◌≡◌, ◌⊎◌, Ok, Err, IfOk, IfErr};
ghost use Rattle.field_codec.specs.Lists.{IsRefusal};
ghost use Rattle.field_codec.specs.Reading.{read_bytes};
ghost use Rattle.entry_codec.specs.Entries.{entry_bytes, read_collected, read_copied, read_entry, read_fields, read_gap, read_kind_fields, HasSpelling, IsNoSpelling};

use crate::canonical;
use crate::entry::{Copied, Entry, Gap};
use crate::fault::EntryFault;
use field_codec::{ByteList, FieldFault, Reader, list};
use history::NumberedBeat;
use std::alloc::Global;

#[tactic(auto, unfolding(crate::specs::Entries::read_collected))]
fn take_collected(alloc: Global, reader: &mut Reader<'_>) -> Result<NumberedBeat, FieldFault>
    ensures taken { IfOk result
        (λ collected. read_collected reader.old ≡ Ok (collected, reader.new)) }
    ensures fault { IfErr result (IsRefusal (read_collected reader.old)) }
{
    let moment = reader.take_u32()?;
    let charts = list::take_list(alloc, reader)?;
    let dimensions = list::take_list(alloc, reader)?;
    let rows = list::take_list(alloc, reader)?;
    Ok(NumberedBeat {
        moment,
        charts,
        dimensions,
        rows,
    })
}

#[tactic(auto, unfolding(crate::specs::Entries::read_copied))]
fn take_copied(alloc: Global, reader: &mut Reader<'_>) -> Result<Copied, FieldFault>
    ensures taken { IfOk result (λ copied. read_copied reader.old ≡ Ok (copied, reader.new)) }
    ensures fault { IfErr result (IsRefusal (read_copied reader.old)) }
{
    let child = reader.take_u64()?;
    let moment = reader.take_u32()?;
    let charts = list::take_list(alloc, reader)?;
    let dimensions = list::take_list(alloc, reader)?;
    let words = list::take_list(alloc, reader)?;
    Ok(Copied {
        child,
        moment,
        charts,
        dimensions,
        words,
    })
}

fn take_health(alloc: Global, reader: &mut Reader<'_>) -> Result<ByteList, FieldFault>
    ensures taken { IfOk result (λ bytes. read_bytes reader.old ≡ Ok (bytes, reader.new)) }
    ensures fault { IfErr result (IsRefusal (read_bytes reader.old)) }
{
    match reader.take_bytes() {
        Ok(bytes) => Ok(ByteList::from_slice(alloc, bytes)?),
        Err(fault) => Err(fault),
    }
}

#[tactic(auto, unfolding(crate::specs::Entries::read_gap))]
fn take_gap(reader: &mut Reader<'_>) -> Result<Gap, FieldFault>
    ensures taken { IfOk result (λ gap. read_gap reader.old ≡ Ok (gap, reader.new)) }
    ensures fault { IfErr result (λ fault. read_gap reader.old ≡ Err fault) }
{
    let child = reader.take_u64()?;
    let from = reader.take_u32()?;
    let to = reader.take_u32()?;
    Ok(Gap { child, from, to })
}

/// The fields of an entry of this kind.
fn take_kind(alloc: Global, kind: u8, reader: &mut Reader<'_>) -> Result<Entry, EntryFault>
    ensures taken { IfOk result
        (λ entry. read_kind_fields kind reader.old ≡ Ok (entry, reader.new)) }
    ensures fault { IfErr result
        (λ fault. (fault ≡ EntryFault.Memory) ⊎ (read_kind_fields kind reader.old ≡ Err fault)) }
{
    match kind {
        1 => Ok(Entry::Collected(take_collected(alloc, reader)?)),
        2 => Ok(Entry::Copied(take_copied(alloc, reader)?)),
        3 => Ok(Entry::Health(take_health(alloc, reader)?)),
        4 => Ok(Entry::Gap(take_gap(reader)?)),
        _ => Err(EntryFault::UnknownKind),
    }
}

#[tactic(auto, unfolding(crate::specs::Entries::read_fields, field_codec::specs::Reading::read_u8))]
fn take_entry(alloc: Global, reader: &mut Reader<'_>) -> Result<Entry, EntryFault>
    ensures taken { IfOk result (λ entry. read_fields reader.old ≡ Ok (entry, reader.new)) }
    ensures fault { IfErr result
        (λ fault. (fault ≡ EntryFault.Memory) ⊎ (read_fields reader.old ≡ Err fault)) }
{
    let kind = reader.take_u8()?;
    take_kind(alloc, kind, reader)
}

#[tactic(auto, unfolding(crate::specs::Entries::read_entry))]
fn take_whole(alloc: Global, bytes: &[u8]) -> Result<Entry, EntryFault>
    ensures value { IfOk result (λ entry. read_entry bytes.now ≡ Ok entry) }
    ensures fault { IfErr result
        (λ fault. (fault ≡ EntryFault.Memory) ⊎ (read_entry bytes.now ≡ Err fault)) }
{
    let mut reader = Reader::new(bytes);
    let entry = take_entry(alloc, &mut reader)?;
    if !reader.done() || !canonical::is_canonical(&entry) {
        return Err(EntryFault::NotCanonical);
    }
    Ok(entry)
}

/// The entry whose spelling the bytes are.
pub fn read_entry(alloc: Global, bytes: &[u8]) -> Result<Entry, EntryFault>
    ensures value { IfOk result (λ entry. read_entry bytes.now ≡ Ok entry) }
    ensures fits { IfOk result HasSpelling }
    ensures spelling { IfOk result (λ entry. bytes.now ≡ entry_bytes entry) }

    // The first fault from the left, unless memory ran out; and the bytes are no spelling then.
    ensures fault { IfErr result
        (λ fault. (fault ≡ EntryFault.Memory) ⊎ (read_entry bytes.now ≡ Err fault)) }
    ensures refused { IfErr result (λ fault. (fault ≡ EntryFault.Memory) ⊎ IsNoSpelling bytes.now) }
{
    take_whole(alloc, bytes)
}
