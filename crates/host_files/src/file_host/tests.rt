use super::*;
use crate::standard::StandIns;
use crate::stdin_source::StdinSource;
use host_model::Source;
use std::os::fd::AsRawFd;
use std::os::unix::fs::{MetadataExt, symlink};
use std::test::Fail;
use std::{env, fs};

/// A new folder of the test's own.
fn own_folder(rt: &HostRuntime, name: &str) -> Result<String, Fail> {
    let base = env::temp_dir(rt)?;
    let base = base.as_path().to_str().unwrap_or("/tmp");
    let process = std::process::id(rt.process());
    let folder = format!(in rt.alloc(); "{base}/{name}-{process}")?;
    let _ = fs::remove_dir_all(rt, folder.as_str());
    fs::create_dir(rt, folder.as_str())?;
    Ok(folder)
}

type OwnHost<'a> = FileHost<&'a HostRuntime, Vec<u8>>;

/// A host over a folder, whose output goes nowhere.
fn host_in<'a>(rt: &'a HostRuntime, folder: &str, lock: LockKind) -> Result<OwnHost<'a>, Fail> {
    let output = Vec::<u8>::new(rt.alloc());
    Ok(FileHost::in_folder(rt.alloc(), rt, folder, lock, output)?)
}

/// Writes bytes from a place on.
fn put(host: &mut OwnHost<'_>, file: File, at: u64, bytes: &[u8]) -> Result<(), Failed> {
    host.write_at(file, at, bytes)
}

/// Up to nine bytes from a place on, with `-` behind those that are there.
fn get(host: &mut OwnHost<'_>, file: File, at: u64) -> Result<[u8; 9], Fail> {
    let mut bytes = [b'-'; 9];
    host.read(file, at, &mut bytes)?;
    Ok(bytes)
}

/// The length of a file, if it is told.
fn len_of(host: &mut OwnHost<'_>, file: File) -> Option<u64> {
    host.len(file).ok()
}

/// Writes nine bytes, and lets go of the folder.
fn write_nine(rt: &HostRuntime, folder: &str) -> Result<(), Fail> {
    let mut host = host_in(rt, folder, LockKind::Alone)?;
    put(&mut host, File::JournalA, 0, b"abcdef")?;
    put(&mut host, File::JournalA, 4, b"EFG")?;
    host.cut(File::JournalA, 6)?;
    put(&mut host, File::JournalA, 6, &[0; 3])?;
    host.sync(File::JournalA)?;
    Ok(())
}

#[test]
fn a_file_keeps_what_was_written(rt: HostRuntime) -> Result<(), Fail> {
    let folder = own_folder(&rt, "host_files_kept")?;
    write_nine(&rt, folder.as_str())?;
    let mut host = host_in(&rt, folder.as_str(), LockKind::Shared)?;
    let bytes = get(&mut host, File::JournalA, 1)?;
    assert_eq!(rt; bytes.as_slice(), b"bcdEF\0\0\0-".as_slice());
    let bytes = get(&mut host, File::JournalB, 0)?;
    assert_eq!(rt; bytes.as_slice(), b"---------".as_slice());
    assert!(rt; put(&mut host, File::JournalA, 0, b"a").is_err());
    assert!(rt; host.cut(File::JournalB, 0).is_err());
    fs::remove_dir_all(&rt, folder.as_str())?;
    Ok(())
}

/// Writes zeros within the file, over its end and behind it, and a byte behind all of them.
fn write_hole(host: &mut OwnHost<'_>) -> Result<(), Fail> {
    put(host, File::Tier0, 0, b"abcdef")?;
    put(host, File::Tier0, 1, &[0; 2])?;
    put(host, File::Tier0, 4, &[0; 4])?;
    for piece in 0..64 {
        put(host, File::Tier0, 8 + 4_096 * piece, &[0; 4_096])?;
    }
    put(host, File::Tier0, 262_152, b"g")?;
    Ok(())
}

#[test]
fn zeros_at_the_end_take_no_room(rt: HostRuntime) -> Result<(), Fail> {
    let folder = own_folder(&rt, "host_files_hole")?;
    let mut host = host_in(&rt, folder.as_str(), LockKind::Alone)?;
    write_hole(&mut host)?;
    host.sync(File::Tier0)?;
    let bytes = get(&mut host, File::Tier0, 0)?;
    assert_eq!(rt; bytes.as_slice(), b"a\0\0d\0\0\0\0\0".as_slice());
    let bytes = get(&mut host, File::Tier0, 262_145)?;
    assert_eq!(rt; bytes.as_slice(), b"\0\0\0\0\0\0\0g-".as_slice());
    let name = format!(in rt.alloc(); "{folder}/nda.4")?;
    // Of 513 blocks of 512 bytes, those that were written, and what a file system adds to them.
    assert!(rt; fs::metadata(&rt, name.as_str())?.blocks() <= 64);
    fs::remove_dir_all(&rt, folder.as_str())?;
    Ok(())
}

#[test]
fn what_was_told_reaches_the_writer(rt: HostRuntime) -> Result<(), Fail> {
    let folder = own_folder(&rt, "host_files_told")?;
    let name = format!(in rt.alloc(); "{folder}/output")?;
    let output = fs::create(&rt, name.as_str())?;
    let mut host = FileHost::new(rt.alloc(), &rt, LockKind::None, output)?;
    host.tell(b"ab")?;
    assert_eq!(rt; fs::read_to_string(&rt, name.as_str())?.as_str(), "ab");
    fs::remove_dir_all(&rt, folder.as_str())?;
    Ok(())
}

#[test]
fn an_output_for_reading_fails_each_tell(rt: HostRuntime) -> Result<(), Fail> {
    let output = fs::open(&rt, "/dev/null")?;
    let mut host = FileHost::new(rt.alloc(), &rt, LockKind::None, output)?;
    assert!(rt; host.tell(b"a").is_err());
    assert!(rt; host.tell(b"b").is_err());
    assert!(rt; host.tell_error().is_some());
    Ok(())
}

#[test]
fn a_source_gives_what_a_file_holds(rt: HostRuntime) -> Result<(), Fail> {
    let folder = own_folder(&rt, "host_files_source")?;
    let name = format!(in rt.alloc(); "{folder}/input")?;
    fs::write(&rt, name.as_str(), b"abc")?;
    let mut source = StdinSource::new(fs::open(&rt, name.as_str())?);
    let mut piece = [b'-'; 2];
    assert_eq!(rt; source.pull(&mut piece)?, 2);
    assert_eq!(rt; piece.as_slice(), b"ab".as_slice());
    assert_eq!(rt; source.pull(&mut piece)?, 1);
    assert_eq!(rt; source.pull(&mut piece)?, 0);
    fs::remove_dir_all(&rt, folder.as_str())?;
    Ok(())
}

#[test]
fn a_folder_is_no_source(rt: HostRuntime) -> Result<(), Fail> {
    let mut source = StdinSource::new(fs::open(&rt, ".")?);
    assert!(rt; source.pull(&mut [0; 1]).is_err());
    assert!(rt; source.error().is_some());
    Ok(())
}

#[test]
fn a_folder_is_used_by_one(rt: HostRuntime) -> Result<(), Fail> {
    let folder = own_folder(&rt, "host_files_alone")?;
    let mut one = host_in(&rt, folder.as_str(), LockKind::Alone)?;
    put(&mut one, File::CheckA, 0, b"a")?;
    let mut other = host_in(&rt, folder.as_str(), LockKind::Alone)?;
    assert_eq!(rt; len_of(&mut other, File::CheckA), None);
    assert!(rt; matches!(other.disk_error(), Some(DiskError::Taken)));
    let mut reader = host_in(&rt, folder.as_str(), LockKind::Shared)?;
    assert_eq!(rt; len_of(&mut reader, File::CheckA), None);
    drop(one);
    assert_eq!(rt; len_of(&mut reader, File::CheckA), Some(1));
    fs::remove_dir_all(&rt, folder.as_str())?;
    Ok(())
}

#[test]
fn a_folder_is_used_by_readers(rt: HostRuntime) -> Result<(), Fail> {
    let folder = own_folder(&rt, "host_files_shared")?;
    write_nine(&rt, folder.as_str())?;
    let mut reader = host_in(&rt, folder.as_str(), LockKind::Shared)?;
    assert_eq!(rt; len_of(&mut reader, File::JournalA), Some(9));
    let mut beside = host_in(&rt, folder.as_str(), LockKind::Shared)?;
    assert_eq!(rt; len_of(&mut beside, File::JournalA), Some(9));
    for lock in [LockKind::Alone, LockKind::None] {
        let mut other = host_in(&rt, folder.as_str(), lock)?;
        assert_eq!(rt; len_of(&mut other, File::JournalA), None);
    }
    fs::remove_dir_all(&rt, folder.as_str())?;
    Ok(())
}

/// Puts a folder and two links in the place of files.
fn make_odd(rt: &HostRuntime, folder: &str) -> Result<(), Fail> {
    fs::create_dir(rt, format!(in rt.alloc(); "{folder}/nda.0")?)?;
    symlink(rt, "/dev/zero", format!(in rt.alloc(); "{folder}/nda.1")?)?;
    symlink(rt, "nowhere", format!(in rt.alloc(); "{folder}/nda.2")?)?;
    Ok(())
}

#[test]
fn what_is_no_regular_file_is_a_failure(rt: HostRuntime) -> Result<(), Fail> {
    let folder = own_folder(&rt, "host_files_odd")?;
    make_odd(&rt, folder.as_str())?;
    let mut host = host_in(&rt, folder.as_str(), LockKind::Alone)?;
    for file in [File::CheckA, File::CheckB, File::JournalA] {
        assert_eq!(rt; len_of(&mut host, file), None);
    }
    assert!(rt; put(&mut host, File::JournalA, 0, b"a").is_err());
    assert_eq!(rt; len_of(&mut host, File::JournalB), Some(0));
    fs::remove_dir_all(&rt, folder.as_str())?;
    Ok(())
}

#[test]
fn a_folder_that_is_not_there_is_a_failure(rt: HostRuntime) -> Result<(), Fail> {
    let mut host = host_in(&rt, "no.such.folder", LockKind::Alone)?;
    assert_eq!(rt; len_of(&mut host, File::CheckA), None);
    Ok(())
}

#[test]
fn no_file_is_opened_as_a_standard_stream(rt: HostRuntime) -> Result<(), Fail> {
    let _stand_ins = StandIns::open(&rt);
    let opened = fs::open(&rt, "/dev/null")?;
    assert!(rt; opened.as_raw_fd() > 2);
    Ok(())
}
