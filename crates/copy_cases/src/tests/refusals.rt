//! Messages that a history does not take.

use super::ends::{Ending, NEW_PARENT, RECEIVE, found, host_with, talk, told};
use super::row::{FIRST, beats_text, parent_at_three};
use super::wire::{Message, Says, WORD, bytes_of};
use host_model::{MemoryHost, Status};
use std::alloc::Global;
use std::test::Fail;

/// A message that begins at the moment 3, with a chart of this update_every.
fn behind(update_every: u32) -> Message {
    Message {
        child: 7,
        prev: 3,
        from: 3,
        upto: 4,
        floor: 0,
        update_every,
        beats: &[(4, WORD + 4)],
    }
}

/// Whether a session ended so.
fn is_ending(
    alloc: Global,
    end: &Ending,
    sent: &[Says],
    told: &str,
    status: Status,
) -> Result<bool, Fail> {
    let sent = bytes_of(alloc, sent)?;
    Ok(end.status == status && end.told.as_str() == told && end.sent.as_slice() == sent.as_slice())
}

fn hear(alloc: Global, host: &mut MemoryHost, said: &[Says]) -> Result<Ending, Fail> {
    let heard = bytes_of(alloc, said)?;
    talk(alloc, host, RECEIVE, heard.as_slice())
}

/// Whether the parent still asks for what is above 3, and is told that there is nothing.
fn is_as_before(alloc: Global, host: &mut MemoryHost) -> Result<bool, Fail> {
    let end = hear(alloc, host, &[Says::Hello(7), Says::Bye(0)])?;
    is_ending(alloc, &end, &[Says::Ask(7, 3)], "", Status::Ok)
}

#[test]
fn a_database_that_collects_takes_no_copies(rt: HostRuntime) -> Result<(), Fail> {
    let alloc = rt.alloc();
    let text = beats_text(alloc, 1, 3)?;
    let mut host = found(host_with(alloc, &[], NEW_PARENT, text.as_str())?)?;
    let end = hear(alloc, &mut host, &[Says::Hello(7), Says::Data(behind(1))])?;
    let status = Status::Refused(0, 29);
    assert!(rt;
        is_ending(alloc, &end, &[Says::Ask(7, 3)], "REFUSED 0 29\n", status)?,
        "{end:?}"
    );
    assert!(rt; is_as_before(alloc, &mut host)?);
    Ok(())
}

#[test]
fn a_parent_keeps_to_its_child(rt: HostRuntime) -> Result<(), Fail> {
    let alloc = rt.alloc();
    let mut host = found(parent_at_three(alloc, &[])?)?;
    let end = hear(alloc, &mut host, &[Says::Hello(8), Says::Data(FIRST)])?;
    let status = Status::PeerRefused(1);
    assert!(rt;
        is_ending(alloc, &end, &[Says::Bye(1)], "", status)?,
        "{end:?}"
    );
    assert!(rt; is_as_before(alloc, &mut host)?);
    Ok(())
}

#[test]
fn a_database_of_copies_collects_nothing(rt: HostRuntime) -> Result<(), Fail> {
    let alloc = rt.alloc();
    let mut host = found(parent_at_three(alloc, &[])?)?;
    let text = beats_text(alloc, 4, 4)?;
    let refused = told(alloc, &mut host, &["run"], text.as_str())?;
    assert_eq!(rt; refused.as_str(), "REFUSED 6 29\n");
    assert!(rt; is_as_before(alloc, &mut host)?);
    Ok(())
}
