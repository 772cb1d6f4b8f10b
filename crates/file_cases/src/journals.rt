//! The tests of `journal_core`: a journal that is prepared, opened and appended to, and bytes by hand.

use host_model::{CallList, File, Host, MemoryHost};
use journal_core::{Journal, JournalFault, RecordList, prepare};
use std::alloc::Global;
use std::test::Fail;

const FILE: File = File::JournalA;

/// What a journal of the generation 7 begins with.
const HEADER: [u8; 16] = *b"NDAJRNL1\x07\0\0\0\0\0\0\0";

fn host_of(alloc: Global) -> Result<MemoryHost, Fail> {
    Ok(MemoryHost::new(alloc, CallList::new(alloc))?)
}

/// Opens the journal and adds a record, and says whether that went well.
fn add(alloc: Global, host: &mut MemoryHost, body: &[u8]) -> bool {
    let Ok((mut journal, _records)) = Journal::open(alloc, host, FILE, 7) else {
        return false;
    };
    if journal.bytes() > 1 << 60 || journal.append(host, body).is_err() {
        return false;
    }
    true
}

fn open_file(alloc: Global, host: &mut MemoryHost) -> Result<RecordList, JournalFault> {
    let (_journal, records) = Journal::open(alloc, host, FILE, 7)?;
    Ok(records)
}

/// A host whose journal of the generation 7 has the record `abc`.
fn host_of_one(alloc: Global) -> Result<MemoryHost, Fail> {
    let mut host = host_of(alloc)?;
    prepare(&mut host, FILE, 7)?;
    if !add(alloc, &mut host, b"abc") {
        return Err(Fail::from("nothing was added"));
    }
    Ok(host)
}

#[test]
fn a_journal_of_one_record_has_25_bytes(rt: HostRuntime) -> Result<(), Fail> {
    let mut host = host_of_one(rt.alloc())?;
    let mut bytes = [0; 26];
    assert_eq!(rt; host.read(FILE, 0, &mut bytes)?, 25);
    let wanted = b"NDAJRNL1\x07\0\0\0\0\0\0\0\x01\x03\0\0\0abc\0\0";
    assert_eq!(rt; bytes.as_slice(), wanted.as_slice());
    Ok(())
}

#[test]
fn a_record_is_there_when_its_journal_is_opened(rt: HostRuntime) -> Result<(), Fail> {
    let mut host = host_of_one(rt.alloc())?;
    let records = open_file(rt.alloc(), &mut host)?;
    let [record] = records.as_slice() else {
        assert!(rt; false, "not one record");
        return Ok(());
    };
    assert_eq!(rt; record.as_slice(), b"abc".as_slice());
    Ok(())
}

/// How many records a journal has in which these bytes stand behind the header.
fn opened(alloc: Global, rest: &[u8]) -> Result<Result<usize, JournalFault>, Fail> {
    let mut bytes = HEADER.to_vec(alloc)?;
    bytes.extend_from_slice(rest)?;
    let mut host = host_of(alloc)?;
    host.write_at(FILE, 0, bytes.as_slice())?;
    Ok(match open_file(alloc, &mut host) {
        Ok(records) => Ok(records.len()),
        Err(fault) => Err(fault),
    })
}

/// Bytes behind the header, and how many records there are.
const ROWS: [(&[u8], Result<usize, JournalFault>); 5] = [
    // Another byte than 1 at the gate.
    (b"\xff\x03\0\0\0abc", Ok(0)),
    // A torn record behind the last gate.
    (b"\x01\x03\0\0\0abc\0\x09\0\0\0a", Ok(1)),
    // The file ends in a record, and in one of 2^26 bytes.
    (b"\x01\x03\0\0\0a", Err(JournalFault::NotAJournal(22))),
    (b"\x01\0\0\0\x04a", Err(JournalFault::NotAJournal(22))),
    // A record of 2^26 + 1 bytes.
    (b"\x01\x01\0\0\x04a", Err(JournalFault::NotAJournal(20))),
];

#[test]
fn opens_what_was_worked_out_by_hand(rt: HostRuntime) -> Result<(), Fail> {
    for (rest, opens) in ROWS {
        assert_eq!(rt; opened(rt.alloc(), rest)?, opens, "{rest:?}");
    }
    Ok(())
}
