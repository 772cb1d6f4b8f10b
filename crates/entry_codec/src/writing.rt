ghost use Rattle.std.specs.Prelude.{◌≡◌, ◌<◌, ◌++◌, true, Ok, Err, IfOk, OnOk, IsOkUnless};
ghost use Rattle.entry_codec.specs.Entries.{collected_bytes, copied_bytes, entry_bytes, gap_bytes, is_collected_canonical, read_entry, HasSpelling, IsCollected, IsShort, IsShortCollected, IsShortCopied, IsWithinLimits};
ghost use Rattle.entry_codec.specs.declared.entry.Entry.TheVariants as entry;

use crate::entry::{Copied, Entry, Gap};
use field_codec::{ByteList, FieldFault, Writer, list};
use history::NumberedBeat;
use std::alloc::{AllocError, Global};

#[tactic(auto, unfolding(crate::specs::Entries::collected_bytes))]
fn put_collected(collected: &NumberedBeat, writer: &mut Writer) -> Result<(), FieldFault>
    requires { IsShortCollected collected.now }
    ensures put { OnOk result (writer.new ≡ writer.old ++ collected_bytes collected.now) }
    ensures collected { OnOk result (IsCollected collected.now) }
    ensures memory { IsOkUnless result FieldFault.Memory }
{
    writer.put_u32(collected.moment)?;
    list::put_list(&collected.charts, writer)?;
    list::put_list(&collected.dimensions, writer)?;
    list::put_list(&collected.rows, writer)
}

#[tactic(auto, unfolding(crate::specs::Entries::copied_bytes))]
fn put_copied(copied: &Copied, writer: &mut Writer) -> Result<(), FieldFault>
    requires { IsShortCopied copied.now }
    ensures put { OnOk result (writer.new ≡ writer.old ++ copied_bytes copied.now) }
    ensures memory { IsOkUnless result FieldFault.Memory }
{
    writer.put_u64(copied.child)?;
    writer.put_u32(copied.moment)?;
    list::put_list(&copied.charts, writer)?;
    list::put_list(&copied.dimensions, writer)?;
    list::put_list(&copied.words, writer)
}

#[tactic(auto, unfolding(crate::specs::Entries::gap_bytes))]
fn put_gap(gap: &Gap, writer: &mut Writer) -> Result<(), FieldFault>
    ensures put { OnOk result (writer.new ≡ writer.old ++ gap_bytes gap.now) }
    ensures memory { IsOkUnless result FieldFault.Memory }
{
    writer.put_u64(gap.child)?;
    writer.put_u32(gap.from)?;
    writer.put_u32(gap.to)
}

#[tactic(auto, unfolding(crate::specs::Entries::entry_bytes, field_codec::specs::Spelling::u8_bytes))]
fn put_entry(entry: &Entry, writer: &mut Writer) -> Result<(), FieldFault>
    requires { IsShort entry.now }
    ensures put { OnOk result (writer.new ≡ writer.old ++ entry_bytes entry.now) }
    ensures memory { IsOkUnless result FieldFault.Memory }
{
    match entry {
        Entry::Collected(collected) => {
            writer.put_u8(1)?;
            put_collected(collected, writer)
        }
        Entry::Copied(copied) => {
            writer.put_u8(2)?;
            put_copied(copied, writer)
        }
        Entry::Health(bytes) => {
            writer.put_u8(3)?;
            writer.put_bytes(bytes.as_slice())
        }
        Entry::Gap(gap) => {
            writer.put_u8(4)?;
            put_gap(gap, writer)
        }
    }
}

fn write_short(alloc: Global, entry: &Entry) -> Result<ByteList, FieldFault>
    requires { IsShort entry.now }
    ensures spelling { IfOk result (λ bytes. bytes ≡ entry_bytes entry.now) }
    ensures memory { IsOkUnless result FieldFault.Memory }
{
    let mut writer = Writer::new(alloc);
    put_entry(entry, &mut writer)?;
    Ok(writer.into_bytes())
}

#[tactic(auto, unfolding(crate::specs::Entries::entry_bytes, field_codec::specs::Spelling::u8_bytes))]
fn write_short_collected(alloc: Global, beat: &NumberedBeat) -> Result<ByteList, FieldFault>
    requires { IsShortCollected beat.now }
    ensures spelling { IfOk result (λ bytes. bytes ≡ entry_bytes (entry.Collected beat.now)) }
    ensures collected { OnOk result (IsCollected beat.now) }
    ensures memory { IsOkUnless result FieldFault.Memory }
{
    let mut writer = Writer::new(alloc);
    writer.put_u8(1)?;
    put_collected(beat, &mut writer)?;
    Ok(writer.into_bytes())
}

/// The one spelling of the entry of a numbered beat whose lists are in the order of their numbers,
/// and which keeps to the limits of a registry. It has at most
/// `COLLECTED_LIMIT` bytes.
#[tactic(auto, unfolding(crate::specs::Entries::is_canonical))]
pub fn write_collected(alloc: Global, beat: &NumberedBeat) -> Result<ByteList, AllocError>
    requires canonical { is_collected_canonical beat.now ≡ true }
    requires limits { IsWithinLimits beat.now }
    ensures spelling { IfOk result (λ bytes. bytes ≡ entry_bytes (entry.Collected beat.now)) }
    ensures written { OnOk result (HasSpelling (entry.Collected beat.now)) }
{
    match write_short_collected(alloc, beat) {
        Ok(bytes) => Ok(bytes),
        Err(_) => Err(AllocError),
    }
}

/// The one spelling of an entry that has one: its lists are in the order of their numbers, each
/// number once, its words are storage numbers, no text is longer than 65,535 bytes, and no list and
/// no bytes are longer than a u32 counts.
#[tactic(auto, using(crate::proofs::EntriesLaw::reads_back))]
pub fn write_entry(alloc: Global, entry: &Entry) -> Result<ByteList, AllocError>
    requires { HasSpelling entry.now }
    ensures spelling { IfOk result (λ bytes. bytes ≡ entry_bytes entry.now) }
    ensures reads_back { IfOk result (λ bytes. read_entry bytes ≡ Ok entry.now) }
{
    match write_short(alloc, entry) {
        Ok(bytes) => Ok(bytes),
        Err(_) => Err(AllocError),
    }
}
