use super::*;
use std::process::Abort;
use std::test::Fail;

/// Compares the line of an ending.
fn assert_says<R: Abort + AllocGlobal>(rt: &R, ending: &Ending, line: &str) -> Result<(), Fail> {
    let said = format!(in rt.alloc(); "{ending}")?;
    assert_eq!(rt; said.as_str(), line);
    Ok(())
}

#[test]
fn each_status_of_an_input_has_its_line(rt: HostRuntime) -> Result<(), Fail> {
    let table = [
        (
            Status::Usage,
            "the words of the command line are in no form; use one of these forms",
        ),
        (
            Status::Refused(12, 13),
            "line 12 is refused with 13, a quote that is left open; the beats before it stand; mend it; run takes the text again from behind the MOMENT before it, convert from its start",
        ),
        (
            Status::Limit(7, 32),
            "line 7 is refused with 32, too many charts; the beats before it stand; leave out what is too much",
        ),
        (
            Status::ReadFault,
            "standard input cannot be read; the beats before stand; run takes the text again from behind the last MOMENT that came, convert from its start",
        ),
        (
            Status::TellFault,
            "standard output cannot be written; more may be stored than was told; mend it, and run again",
        ),
        (
            Status::InputLimit,
            "2^40 bytes of input were taken, and no end had come; the beats before stand; another run takes the text from behind the last MOMENT that came",
        ),
        (
            Status::Memory,
            "out of memory; what was told as stored is kept; free some, and run again",
        ),
    ];
    for (status, line) in table {
        assert_says(&rt, &Ending::of(status), line)?;
    }
    Ok(())
}

#[test]
fn each_status_of_a_folder_has_its_line(rt: HostRuntime) -> Result<(), Fail> {
    let table = [
        (
            Status::DiskFault,
            "the disk cannot be used; what was told as stored is kept; mend it, and run again",
        ),
        (
            Status::NotADatabase,
            "there is no database in this folder; go to its folder, or make one by nda new: that and later commands overwrite the files nda.0 to nda.6 here",
        ),
        (
            Status::Exists,
            "there is a database in this folder already; nothing was changed; nda run and nda collect store beats in it",
        ),
        (
            Status::Damaged(1),
            "the database here is damaged, or none of this program: part 1, the file of its checkpoint; nothing was changed; put all files of a backup into an empty folder, or make a database in another",
        ),
        (
            Status::Damaged(4),
            "the database here is damaged, or none of this program: part 4, its journal; nothing was changed; put all files of a backup into an empty folder, or make a database in another",
        ),
    ];
    for (status, line) in table {
        assert_says(&rt, &Ending::of(status), line)?;
    }
    Ok(())
}

#[test]
fn each_status_of_a_peer_or_a_collector_has_its_line(rt: HostRuntime) -> Result<(), Fail> {
    let table = [
        (
            Status::LinkFault,
            "the link to the other agent failed; what came before is stored; see that the other agent can be reached, and run again",
        ),
        (
            Status::PeerRefused(1),
            "the exchange is refused with kind 1, the parent's database has copies of another child; what came before is stored; a parent has a database of its own for each child",
        ),
        (
            Status::PeerRefused(2),
            "the exchange is refused with kind 2, a frame was out of place or in no form; what came before is stored; see that nda of this version is at ADDRESS",
        ),
        (
            Status::PeerRefused(3),
            "the exchange is refused with kind 3, a frame of more than 16,777,216 bytes was announced; what came before is stored; see that nda of this version is at ADDRESS",
        ),
        (
            Status::LinkEnded,
            "the link ended before the other agent was done; what came before is stored; run again to go on from there",
        ),
        (
            Status::SpawnFault,
            "the collector could not be started, read or waited for; the beats before stand; see that its program is there and may be run",
        ),
        (
            Status::Disabled,
            "the collector ended with another status than 0, or wrote DISABLE; the beats before stand; see what it says on standard error, where it may also be run alone",
        ),
    ];
    for (status, line) in table {
        assert_says(&rt, &Ending::of(status), line)?;
    }
    Ok(())
}

/// An ending of a command that reads such a text.
fn of_text(text: TextKind, status: Status) -> Ending {
    Ending {
        text,
        ..Ending::of(status)
    }
}

#[test]
fn a_text_that_is_refused_leaves_what_its_command_says(rt: HostRuntime) -> Result<(), Fail> {
    let table = [
        (
            TextKind::Alarms,
            Status::Refused(3, 44),
            "line 3 is refused with 44, a duration that is none, is missing or is out of its limits; nothing of it is stored; mend it, and run again",
        ),
        (
            TextKind::Alarms,
            Status::Limit(0, 46),
            "line 0 is refused with 46, a text of more than 1,048,576 bytes; nothing of it is stored; leave out what is too much",
        ),
        (
            TextKind::Alarms,
            Status::ReadFault,
            "standard input cannot be read; nothing of it is stored; mend it, and run again",
        ),
        (
            TextKind::Collected,
            Status::Refused(8, 26),
            "line 8 is refused with 26, a moment that is no multiple of the update_every of a chart with a row; the beats before it stand; it is counted with the MOMENT and FLUSH lines that were put in; mend the collector",
        ),
        (
            TextKind::Collected,
            Status::Limit(7, 32),
            "line 7 is refused with 32, too many charts; the beats before it stand; leave out what is too much",
        ),
        (
            TextKind::Collected,
            Status::InputLimit,
            "2^40 bytes of input were taken, and no end had come; the beats before stand; run it again",
        ),
    ];
    for (text, status, line) in table {
        assert_says(&rt, &of_text(text, status), line)?;
    }
    Ok(())
}

#[test]
fn a_child_that_is_refused_leaves_what_came_before(rt: HostRuntime) -> Result<(), Fail> {
    let table = [
        (
            TextKind::Frames,
            Status::Refused(0, 29),
            "what the child sent is refused with 29, the database has beats of its own, and takes no copies; what came before is stored; receive in a database of its own for each child",
        ),
        (
            TextKind::Frames,
            Status::Refused(0, 31),
            "what the child sent is refused with 31, the chart has another update_every; what came before is stored; receive in a database of its own for each child",
        ),
        (
            TextKind::Frames,
            Status::Limit(0, 33),
            "what the child sent is refused with 33, too many dimensions; what came before is stored; the child has more than a database keeps",
        ),
        (
            TextKind::Frames,
            Status::InputLimit,
            "2^40 bytes of input were taken, and no end had come; what came before is stored; run again to go on from there",
        ),
    ];
    for (text, status, line) in table {
        assert_says(&rt, &of_text(text, status), line)?;
    }
    Ok(())
}

#[test]
fn a_failure_has_the_reason_of_the_system(rt: HostRuntime) -> Result<(), Fail> {
    let full = io::Error::from_raw_os_error(28);
    let mut ending = Ending::of(Status::ReadFault);
    ending.input = Some(io::Error::from_raw_os_error(21));
    ending.output = Some(full);
    assert_says(
        &rt,
        &ending,
        "standard input cannot be read: Is a directory (os error 21); the beats before stand; run takes the text again from behind the last MOMENT that came, convert from its start",
    )?;
    ending.status = Status::TellFault;
    assert_says(
        &rt,
        &ending,
        "standard output cannot be written: No space left on device (os error 28); more may be stored than was told; mend it, and run again",
    )?;
    ending.status = Status::LinkFault;
    ending.link = Some(io::Error::from_raw_os_error(111));
    assert_says(
        &rt,
        &ending,
        "the link to the other agent failed: Connection refused (os error 111); what came before is stored; see that the other agent can be reached, and run again",
    )?;
    ending.status = Status::SpawnFault;
    ending.program = Some(io::Error::from_raw_os_error(13));
    assert_says(
        &rt,
        &ending,
        "the collector could not be started, read or waited for: Permission denied (os error 13); the beats before stand; see that its program is there and may be run",
    )
}

#[test]
fn a_failure_of_the_disk_names_what_failed(rt: HostRuntime) -> Result<(), Fail> {
    let reason = io::Error::from_raw_os_error(5);
    let table = [
        (
            DiskError::Taken,
            "the disk cannot be used: another program is at work in this folder and holds nda.lock; nothing was read or written; run again when it has ended",
        ),
        (
            DiskError::Lock(reason),
            "the disk cannot be used: nda.lock: Input/output error (os error 5); nothing was read or written; mend it, and run again",
        ),
        (
            DiskError::File(2, reason),
            "the disk cannot be used: nda.2: Input/output error (os error 5); what was told as stored is kept; mend it, and run again",
        ),
        (
            DiskError::Sync(2, reason),
            "the disk cannot be used: nda.2 could not be synced: Input/output error (os error 5); what was told as stored is kept; see to the disk, and mount it anew before the next run",
        ),
        (
            DiskError::Folder(reason),
            "the disk cannot be used: the folder could not be synced: Input/output error (os error 5); what was told as stored is kept; see to the disk, and mount it anew before the next run",
        ),
    ];
    for (disk, line) in table {
        let ending = Ending {
            disk: Some(disk),
            ..Ending::of(Status::DiskFault)
        };
        assert_says(&rt, &ending, line)?;
    }
    Ok(())
}
