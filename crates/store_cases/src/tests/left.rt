use super::random::open_whole;
use super::*;
use host_model::{File, Host};

/// The bytes of a slot of points whose segments have four.
const SLOT: u64 = 24 + (4 + 65_536) * 28;

/// Where the words of the first page of a slot begin, behind a head and one entry.
const WORDS: u64 = 48;

/// Where the body begins in the file of a checkpoint.
const BODY: u64 = 17;

/// The files that only a checkpoint writes.
const WRITTEN_BY_CHECKPOINTS: [File; 3] = [File::CheckA, File::CheckB, File::Tier0];

/// Writes over the bytes of a file from this place on.
fn write_over(host: &mut MemoryHost, file: File, place: u64, bytes: &[u8]) -> Result<(), Fail> {
    if host.len(file)? < place {
        return Err(Fail::new("the file is too short"));
    }
    host.write_at(file, place, bytes)?;
    Ok(())
}

/// Makes the database of nine beats, of which the points of 5 to 8 lie in slot 1, and writes zeros over the first.
fn rot(alloc: Global, host: &mut MemoryHost) -> Result<(), Fail> {
    let _store = made(alloc, host, NINE.as_slice())?;
    write_over(host, File::Tier0, SLOT + WORDS, &[0; 4])
}

#[test]
fn a_page_that_is_no_encoding_is_left_out(rt: HostRuntime) -> Result<(), Fail> {
    let mut host = new_host(rt.alloc())?;
    rot(rt.alloc(), &mut host)?;
    let mut store = open(rt.alloc(), &mut host)?;
    check_since(&rt, &mut store)?;
    check_kept(&rt, &mut store, &mut host, 4, &[9])
}

/// All bytes of a file.
fn bytes_of(alloc: Global, host: &mut MemoryHost, file: File) -> Result<Vec<u8>, Fail> {
    let size = host.len(file)?;
    let mut bytes = vec![in alloc; 0; size as usize]?;
    host.read(file, 0, &mut bytes)?;
    Ok(bytes)
}

/// All bytes that checkpoints wrote.
fn written_by_checkpoints(alloc: Global, host: &mut MemoryHost) -> Result<Vec<Vec<u8>>, Fail> {
    let mut written = Vec::new(alloc);
    for file in WRITTEN_BY_CHECKPOINTS {
        written.push(bytes_of(alloc, host, file)?)?;
    }
    Ok(written)
}

/// Whether checkpoints wrote the same.
fn are_same(before: &[Vec<u8>], after: &[Vec<u8>]) -> bool {
    before
        .iter()
        .zip(after)
        .all(|(before, after)| before.as_slice() == after.as_slice())
}

/// Opens the database and adds five beats, of which the third fills a segment. A checkpoint is made where one is due.
fn go_on(alloc: Global, host: &mut MemoryHost) -> Result<Store, Fail> {
    let mut store = open_whole(alloc, host)?;
    let more = [(10, 1), (11, 1), (12, 1), (13, 1), (14, 1)];
    add(alloc, &mut store, host, more.as_slice())?;
    Ok(store)
}

#[test]
fn what_no_beats_leave_makes_no_checkpoint(rt: HostRuntime) -> Result<(), Fail> {
    let mut host = new_host(rt.alloc())?;
    rot(rt.alloc(), &mut host)?;
    let before = written_by_checkpoints(rt.alloc(), &mut host)?;
    let mut store = go_on(rt.alloc(), &mut host)?;
    let after = written_by_checkpoints(rt.alloc(), &mut host)?;
    assert!(rt; are_same(before.as_slice(), after.as_slice()));
    check_kept(&rt, &mut store, &mut host, 4, &[9, 10, 11, 12, 13, 14])
}

#[test]
fn what_beats_leave_makes_a_checkpoint(rt: HostRuntime) -> Result<(), Fail> {
    let mut host = new_host(rt.alloc())?;
    let _store = made(rt.alloc(), &mut host, NINE.as_slice())?;
    let before = written_by_checkpoints(rt.alloc(), &mut host)?;
    let mut store = go_on(rt.alloc(), &mut host)?;
    let after = written_by_checkpoints(rt.alloc(), &mut host)?;
    assert!(rt; !are_same(before.as_slice(), after.as_slice()));
    check_kept(&rt, &mut store, &mut host, 8, &[9, 10, 11, 12, 13, 14])
}

/// Why the database of nine beats is not opened with these bytes in these files from this place on.
fn refused_with(alloc: Global, files: [File; 2], place: u64) -> Result<Option<OpenFault>, Fail> {
    let mut host = new_host(alloc)?;
    let _store = made(alloc, &mut host, NINE.as_slice())?;
    for file in files {
        write_over(&mut host, file, place, &[255; 8])?;
    }
    Ok(open(alloc, &mut host).err())
}

#[test]
fn the_first_part_that_is_in_no_form_is_told(rt: HostRuntime) -> Result<(), Fail> {
    let body = refused_with(rt.alloc(), [File::CheckA, File::CheckB], BODY)?;
    assert_eq!(rt; body, Some(OpenFault::Damaged(2)));
    let extent = refused_with(rt.alloc(), [File::Tier0, File::Tier0], SLOT)?;
    assert_eq!(rt; extent, Some(OpenFault::Damaged(3)));
    let journal = refused_with(rt.alloc(), [File::JournalA, File::JournalB], 0)?;
    assert_eq!(rt; journal, Some(OpenFault::Damaged(4)));
    Ok(())
}
