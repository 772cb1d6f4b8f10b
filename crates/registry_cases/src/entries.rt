//! The tests of `beat_entries` on entries: what an entry's bytes define in a registry.

ghost use Rattle.std.specs.Prelude.{◌<◌};

use beat_entries::{EntryRefusal, define, define_copied};
use chart_registry::Registry;
use entry_codec::{Copied, Entry, read_entry};
use history::NumberedBeat;
use std::alloc::Global;
use std::test::Fail;

/// The entry of the moment 60: the chart test.one with a dimension a, and the value 42.
const ENTRY: &[u8; 122] =
    b"\x01\x3c\0\0\0\x01\0\0\0\0\0\0\0\x08\0test.one\x03\0one\x03\0One\x05\0units\x03\0one\x08\0test.one\0\xe8\x03\0\0\0\0\0\0\x01\0\0\0\0\x01\0\0\0\0\0\0\0\0\0\0\0\x01\0a\x01\0a\0\x01\0\0\0\x01\0\0\0\0\x01\0\0\0\0\0\0\0\x01\0\0\0\0\0\0\0\x2a\0\0\0\0\0\0\0\0";

fn entry(alloc: Global, bytes: &[u8]) -> Result<NumberedBeat, Fail> {
    match read_entry(alloc, bytes) {
        Ok(Entry::Collected(entry)) => Ok(entry),
        Ok(_) => Err(Fail::from("another entry")),
        Err(_) => Err(Fail::from("no entry")),
    }
}

#[test]
fn defines_by_number(rt: HostRuntime) -> Result<(), Fail> {
    let mut registry = Registry::new(rt.alloc());
    let beat = entry(rt.alloc(), ENTRY.as_slice())?;
    assert_eq!(rt; define(&mut registry, &beat), Ok(()));
    assert_eq!(rt; registry.charts(), 1);
    assert_eq!(rt; registry.dimensions(), 1);
    Ok(())
}

/// Why the entry with another byte at this place is not defined.
fn changed(alloc: Global, place: usize, byte: u8) -> Result<Option<EntryRefusal>, Fail>
    requires { place < 122 }
{
    let mut bytes = *ENTRY;
    bytes[place] = byte;
    let mut registry = Registry::new(alloc);
    let beat = entry(alloc, bytes.as_slice())?;
    Ok(define(&mut registry, &beat).err())
}

#[test]
fn a_definition_that_breaks_its_limits_is_not_next(rt: HostRuntime) -> Result<(), Fail> {
    // The dot of the chart's id, and the one byte of the dimension's.
    assert_eq!(rt; changed(rt.alloc(), 19, b'_')?, Some(EntryRefusal::NotNext));
    assert_eq!(rt;
        changed(rt.alloc(), 83, b'\n')?,
        Some(EntryRefusal::NotNext)
    );
    assert_eq!(rt; changed(rt.alloc(), 83, b'b')?, None);
    Ok(())
}

/// The copied entry of the moment 60: the chart test.one with a hidden dimension a, and a word.
const COPY: &[u8; 73] =
    b"\x02\x07\0\0\0\0\0\0\0\x3c\0\0\0\x01\0\0\0\0\0\0\0\x08\0test.one\x08\0test.all\x05\0\0\0\x01\0\0\0\0\0\0\0\0\0\0\0\x01\0a\x01\x01\0\0\0\0\0\0\0\0\0\0\x01";

fn copied_entry(alloc: Global, bytes: &[u8]) -> Result<Copied, Fail> {
    match read_entry(alloc, bytes) {
        Ok(Entry::Copied(entry)) => Ok(entry),
        Ok(_) => Err(Fail::from("another entry")),
        Err(_) => Err(Fail::from("no entry")),
    }
}

/// What a registry has first once a copied entry is defined, or why it is not defined.
fn definitions(alloc: Global, registry: &mut Registry, bytes: &[u8]) -> Result<String, Fail> {
    let entry = copied_entry(alloc, bytes)?;
    if let Err(refusal) = define_copied(alloc, registry, &entry) {
        return Ok(format!(in alloc; "{refusal:?}")?);
    }
    if registry.charts() == 0 || registry.dimensions() == 0 {
        return Err(Fail::from("nothing was defined"));
    }
    Ok(format!(in alloc; "{:?} def: {:?}", registry.chart(0), registry.dimension(0))?)
}

#[test]
fn defines_the_usual(rt: HostRuntime) -> Result<(), Fail> {
    let mut registry = Registry::new(rt.alloc());
    let text = definitions(rt.alloc(), &mut registry, COPY.as_slice())?;
    let ids = r#"id: Text { string: "test.one" }, name: Text { string: "one" }, "#;
    let texts = r#"title: Text { string: "" }, units: Text { string: "" }, "#;
    let kinds = r#"family: Text { string: "one" }, context: Text { string: "test.all" }, "#;
    let rest = "kind: Line, priority: 1000, update_every: 5, store_first: false }";
    let dimension = r#"def: DimDef { id: Text { string: "a" }, name: Text { string: "a" }, "#;
    let factors = "algorithm: Absolute, multiplier: 1, divisor: 1, hidden: true, noreset: false }";
    for part in [ids, texts, kinds, rest, dimension, factors] {
        assert!(rt; text.as_str().contains(part), "at {part}");
    }
    assert_eq!(rt; registry.charts(), 1);
    assert_eq!(rt; registry.dimensions(), 1);
    Ok(())
}

/// What comes of the copied entry with another byte at this place.
fn changed_copy(alloc: Global, place: usize, byte: u8) -> Result<String, Fail>
    requires { place < 73 }
{
    let mut bytes = *COPY;
    bytes[place] = byte;
    let mut registry = Registry::new(alloc);
    definitions(alloc, &mut registry, bytes.as_slice())
}

#[test]
fn a_copied_entry_of_another_number_is_not_next(rt: HostRuntime) -> Result<(), Fail> {
    // Another number of the chart, of the dimension, of its chart, and of the word's series, and a chart's id
    // without a dot. Whether the dimension is hidden may change.
    assert_eq!(rt; changed_copy(rt.alloc(), 17, 1)?.as_str(), "NotNext");
    assert_eq!(rt; changed_copy(rt.alloc(), 49, 1)?.as_str(), "NotNext");
    assert_eq!(rt; changed_copy(rt.alloc(), 53, 1)?.as_str(), "NotNext");
    assert_eq!(rt; changed_copy(rt.alloc(), 65, 1)?.as_str(), "NotNext");
    assert_eq!(rt; changed_copy(rt.alloc(), 27, b'_')?.as_str(), "NotNext");
    assert_ne!(rt; changed_copy(rt.alloc(), 60, 0)?.as_str(), "NotNext");
    Ok(())
}
