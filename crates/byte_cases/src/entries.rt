//! The tests of `entry_codec`: entries, and their bytes.

use entry_codec::{Entry, EntryFault, read_entry, write_entry};
use fixed_num::ListOf;
use history::NumberedBeat;
use std::alloc::Global;
use std::test::Fail;

// The beat of moment 60: the chart test.one with a dimension a, and the value 42.
const BEAT: &[u8; 122] =
    b"\x01\x3c\0\0\0\x01\0\0\0\0\0\0\0\x08\0test.one\x03\0one\x03\0One\x05\0units\x03\0one\x08\0test.one\0\xe8\x03\0\0\0\0\0\0\x01\0\0\0\0\x01\0\0\0\0\0\0\0\0\0\0\0\x01\0a\x01\0a\0\x01\0\0\0\x01\0\0\0\0\x01\0\0\0\0\0\0\0\x01\0\0\0\0\0\0\0\x2a\0\0\0\0\0\0\0\0";

/// An entry of each other kind.
static KINDS: [&[u8]; 3] = [
    b"\x02\x07\0\0\0\0\0\0\0\x3c\0\0\0\x01\0\0\0\x05\0\0\0\x03\0a.b\x01\0c\x0a\0\0\0\x01\0\0\0\x06\0\0\0\x05\0\0\0\x01\0d\x01\x01\0\0\0\x06\0\0\0\0\0\0\x01",
    b"\x03\x02\0\0\0\xff\x09",
    b"\x04\x07\0\0\0\0\0\0\0\x3c\0\0\0\x78\0\0\0",
];

/// Whether what the bytes read as is written as them again.
fn is_written_again(alloc: Global, bytes: &[u8]) -> Result<bool, Fail> {
    let entry = read_entry(alloc, bytes)?;
    Ok(write_entry(alloc, &entry)?.as_slice() == bytes)
}

#[test]
fn the_other_kinds_are_read_and_written_again(rt: HostRuntime) -> Result<(), Fail> {
    for bytes in &KINDS {
        assert!(rt; is_written_again(rt.alloc(), bytes)?);
    }
    Ok(())
}

fn beat_of(alloc: Global, bytes: &[u8]) -> Result<NumberedBeat, Fail> {
    match read_entry(alloc, bytes)? {
        Entry::Collected(beat) => Ok(beat),
        _ => Err(Fail::from("no beat")),
    }
}

/// The first value of the first row.
fn first_value(beat: &NumberedBeat) -> Option<i64> {
    let row = beat.rows.as_slice().first()?;
    let value = row.values.as_slice().first()?;
    Some(value.value)
}

#[test]
fn a_collected_beat_is_read_and_written_again(rt: HostRuntime) -> Result<(), Fail> {
    assert!(rt; is_written_again(rt.alloc(), BEAT)?);
    let beat = beat_of(rt.alloc(), BEAT)?;
    assert_eq!(rt; beat.moment, 60);
    for chart in beat.charts.as_slice() {
        let def = &chart.def;
        assert_eq!(rt; (def.title.as_str(), def.units.as_str()), ("One", "units"));
        assert_eq!(rt; (def.context.as_str(), def.priority), ("test.one", 1_000));
    }
    assert_eq!(rt; first_value(&beat), Some(42));
    Ok(())
}

/// Why the bytes are no entry.
fn fault_of(alloc: Global, bytes: &[u8]) -> Option<EntryFault> {
    read_entry(alloc, bytes).err()
}

#[test]
fn a_byte_more_and_another_kind_are_refused(rt: HostRuntime) -> Result<(), Fail> {
    let mut longer = ListOf::from_slice(rt.alloc(), BEAT)?;
    longer.push(0)?;
    assert_eq!(rt;
        fault_of(rt.alloc(), longer.as_slice()),
        Some(EntryFault::NotCanonical)
    );
    assert_eq!(rt; fault_of(rt.alloc(), b"\0"), Some(EntryFault::UnknownKind));
    Ok(())
}
