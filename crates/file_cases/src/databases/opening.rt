//! Databases whose bytes are written by hand.
use checkpoint::switch;
use checkpoint_body::{RecordPageList, SlotPageList};
use fixed_num::ByteList;
use host_model::{CallList, File, Host, MemoryHost};
use std::alloc::{AllocError, Global};
use std::test::Fail;
use store_core::OpenFault;
use store_core::disk::{Opened, open};

/// Adds numbers of 32 bits.
fn add_all(out: &mut ByteList, numbers: &[u32]) -> Result<(), AllocError> {
    for number in numbers {
        out.extend(&number.to_le_bytes())?;
    }
    Ok(())
}

/// Adds the list of one kept extent of this length, in slot 0.
fn add_extent(out: &mut ByteList, size: u32) -> Result<(), AllocError> {
    add_all(out, &[1, 0, 0, 0, 60, size, 0, 0, 0])
}

/// The body of database 7, with an extent of these lengths in each tier.
fn body(alloc: Global, version: u8, sizes: [u32; 3]) -> Result<ByteList, AllocError> {
    let mut out = ByteList::new(alloc);
    out.extend(&[version])?;
    // The id, the quotas, the count, the last moment, the floors, the beats before and the seals.
    add_all(&mut out, &[7, 0, 1, 1, 1, 1, 1, 1])?;
    add_all(&mut out, &[1, 0, 60, 0, 0, 0, 0, 0, 1, 0, 1, 0, 1, 0])?;
    let [points, minutes, hours] = sizes;
    add_extent(&mut out, points)?;
    add_extent(&mut out, minutes)?;
    add_extent(&mut out, hours)?;
    // No open records, no pages, and nothing beside them.
    add_all(&mut out, &[0; 6])?;
    Ok(out)
}

/// The extent of this length, which has one page of a tier with these items.
fn extent(alloc: Global, tier: u32, size: u32, items: &[u32]) -> Result<ByteList, AllocError> {
    let step = if tier == 0 { 1 } else { 60 };
    let mut out = ByteList::new(alloc);
    out.extend(b"NDAEXT01")?;
    add_all(&mut out, &[tier, 1, size, 0])?;
    add_all(&mut out, &[3, 60, step, 1, 48, 0])?;
    add_all(&mut out, items)?;
    Ok(out)
}

/// The items of a page with one record: minimum 1, maximum 2, sum 3, count 4, anomalies 5.
static RECORD: [u32; 14] = [1, 0, 0, 0, 2, 0, 0, 0, 3, 0, 0, 0, 4, 5];

/// The journal of generation 0 with one record.
const JOURNAL: &[u8] = b"NDAJRNL1\0\0\0\0\0\0\0\0\x01\x03\0\0\0abc\0";

/// Writes these bytes into an empty file.
fn put(host: &mut MemoryHost, file: File, bytes: &[u8]) -> Result<(), Fail> {
    Ok(host.write_at(file, 0, bytes)?)
}

/// Writes an extent into each tier.
fn put_extents(alloc: Global, host: &mut MemoryHost) -> Result<(), Fail> {
    put(host, File::Tier0, extent(alloc, 0, 52, &[7])?.as_slice())?;
    put(
        host,
        File::Tier1,
        extent(alloc, 1, 104, &RECORD)?.as_slice(),
    )?;
    put(
        host,
        File::Tier2,
        extent(alloc, 2, 104, &RECORD)?.as_slice(),
    )
}

/// Writes the checkpoint with this body.
fn put_body(host: &mut MemoryHost, body: &[u8]) -> Result<(), Fail> {
    Ok(switch(host, 0, body)?)
}

/// The database whose body has this version and says this length of the extent of points.
fn database(alloc: Global, version: u8, size: u32, journal: &[u8]) -> Result<MemoryHost, Fail> {
    let mut host = MemoryHost::new(alloc, CallList::new(alloc))?;
    put_extents(alloc, &mut host)?;
    put(&mut host, File::JournalA, journal)?;
    put_body(
        &mut host,
        body(alloc, version, [size, 104, 104])?.as_slice(),
    )?;
    Ok(host)
}

/// Whether it is the database whose body has the version 1 and says 52 bytes.
fn is_written(found: &Opened) -> bool {
    found.body.settings.id == 7
        && found.body.last == 60
        && have_point(found.points.as_slice())
        && have_record(found.minutes.as_slice())
        && have_record(found.hours.as_slice())
        && match found.records.as_slice() {
            [record] => record.as_slice() == b"abc".as_slice(),
            _ => false,
        }
}

fn have_point(kept: &[SlotPageList]) -> bool {
    let [pages] = kept else {
        return false;
    };
    let [page] = pages.as_slice() else {
        return false;
    };
    (page.series, page.first, page.step) == (3, 60, 1) && page.words.as_slice() == [7].as_slice()
}

fn have_record(kept: &[RecordPageList]) -> bool {
    let [pages] = kept else {
        return false;
    };
    let [page] = pages.as_slice() else {
        return false;
    };
    let [record] = page.records.as_slice() else {
        return false;
    };
    (page.series, page.first, page.step) == (3, 60, 60)
        && (record.min, record.max, record.sum) == (1, 2, 3)
        && (record.count, record.anomalies) == (4, 5)
}

#[test]
fn a_database_is_opened(rt: HostRuntime) -> Result<(), Fail> {
    let mut host = database(rt.alloc(), 1, 52, JOURNAL)?;
    let found = open(rt.alloc(), &mut host)?;
    assert!(rt; is_written(&found));
    Ok(())
}

/// A version, a length of the extent of points, a journal, and the part that is damaged then.
const ROWS: [(u8, u32, &[u8], u32); 3] = [
    (2, 52, JOURNAL, 2),
    (1, 56, JOURNAL, 3),
    (1, 52, b"NDAJRNL2", 4),
];

#[test]
fn a_part_that_is_damaged_is_named(rt: HostRuntime) -> Result<(), Fail> {
    for (version, size, journal, part) in ROWS {
        let mut host = database(rt.alloc(), version, size, journal)?;
        let fault = open(rt.alloc(), &mut host).err();
        assert_eq!(rt; fault, Some(OpenFault::Damaged(part)));
    }
    Ok(())
}
