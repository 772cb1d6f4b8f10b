//! What the program says on standard error where it ends with another status than 0.
use crate::arguments::TextKind;
use crate::refusals::{copy_reason_of, peer_reason_of, reason_of};
use host_files::DiskError;
use host_model::Status;
use std::{fmt, io};

/// How a run of the program ended, and why a call on the outside failed where one did. It prints as
/// one line: what happened, and what is to be done.
#[derive(Debug, Drop)]
pub struct Ending {
    pub status: Status,
    /// What its command reads.
    pub text: TextKind,
    /// Of standard input.
    pub input: Option<io::Error>,
    /// Of standard output.
    pub output: Option<io::Error>,
    pub disk: Option<DiskError>,
    /// Of the link to another agent.
    pub link: Option<io::Error>,
    /// Of the program that is run as a collector.
    pub program: Option<io::Error>,
}

impl Ending {
    /// An ending of a command that reads beats, if any text, for which no call on the outside gave a
    /// reason.
    pub fn of(status: Status) -> Ending {
        Ending {
            status,
            text: TextKind::Beats,
            input: None,
            output: None,
            disk: None,
            link: None,
            program: None,
        }
    }

    /// Writes what happened, and why where the system said it.
    fn write_event<W: fmt::Write>(&self, f: &mut fmt::Formatter<W>) -> fmt::Result {
        match self.status {
            // No line is written then.
            Status::Ok => f.write_str("all was done"),
            Status::Usage => f.write_str("the words of the command line are in no form"),
            Status::Refused(line, number) | Status::Limit(line, number) => {
                write_refusal(f, self.text, line, number)
            }
            Status::ReadFault => write_failure(f, "standard input cannot be read", &self.input),
            Status::TellFault => write_failure(
                f,
                "standard output cannot be written",
                &self.output,
            ),
            Status::DiskFault => write_failure(f, "the disk cannot be used", &self.disk),
            Status::LinkFault => write_failure(f, "the link to the other agent failed", &self.link),
            Status::NotADatabase => f.write_str("there is no database in this folder"),
            Status::Exists => f.write_str("there is a database in this folder already"),
            Status::Damaged(part) => write_damage(f, part),
            Status::PeerRefused(kind) => write_peer_refusal(f, kind),
            Status::LinkEnded => f.write_str("the link ended before the other agent was done"),
            Status::SpawnFault => write_failure(
                f,
                "the collector could not be started, read or waited for",
                &self.program,
            ),
            Status::Disabled => {
                f.write_str("the collector ended with another status than 0, or wrote DISABLE")
            }
            Status::InputLimit => {
                f.write_str("2^40 bytes of input were taken, and no end had come")
            }
            Status::Memory => f.write_str("out of memory"),
        }
    }

    /// What is left, and what is to be done.
    fn advice(&self) -> &'static str {
        match self.status {
            // No line is written then.
            Status::Ok => "there is nothing to do",
            Status::Usage => "use one of these forms",
            Status::Refused(..) => advice_on_refusal(self.text),
            Status::Limit(..) => advice_on_limit(self.text),
            Status::ReadFault => advice_on_input(self.text),
            Status::TellFault => "more may be stored than was told; mend it, and run again",
            Status::DiskFault => advice_on(&self.disk),
            Status::LinkFault => {
                "what came before is stored; see that the other agent can be reached, and run again"
            }
            Status::NotADatabase =>
                "go to its folder, or make one by nda new: that and later commands overwrite the files nda.0 to nda.6 here",
            Status::Exists => "nothing was changed; nda run and nda collect store beats in it",
            Status::Damaged(_) =>
                "nothing was changed; put all files of a backup into an empty folder, or make a database in another",
            Status::PeerRefused(1) => {
                "what came before is stored; a parent has a database of its own for each child"
            }
            Status::PeerRefused(_) => {
                "what came before is stored; see that nda of this version is at ADDRESS"
            }
            Status::LinkEnded => "what came before is stored; run again to go on from there",
            Status::SpawnFault => {
                "the beats before stand; see that its program is there and may be run"
            }
            Status::Disabled => {
                "the beats before stand; see what it says on standard error, where it may also be run alone"
            }
            Status::InputLimit => advice_on_length(self.text),
            Status::Memory => "what was told as stored is kept; free some, and run again",
        }
    }
}

/// The part of a database with this number.
fn part_of(part: u32) -> &'static str {
    match part {
        1 => "the file of its checkpoint",
        2 => "the body of its checkpoint",
        3 => "a sealed segment",
        4 => "its journal",
        _ => "what a beat or the side of its checkpoint says",
    }
}

/// What a text that is refused leaves, and what is to be done.
fn advice_on_refusal(text: TextKind) -> &'static str {
    match text {
        TextKind::Alarms => "nothing of it is stored; mend it, and run again",
        TextKind::Beats => {
            "the beats before it stand; mend it; run takes the text again from behind the MOMENT before it, convert from its start"
        }
        TextKind::Collected => {
            "the beats before it stand; it is counted with the MOMENT and FLUSH lines that were put in; mend the collector"
        }
        TextKind::Frames => {
            "what came before is stored; receive in a database of its own for each child"
        }
    }
}

/// What a text that asks for too much leaves, and what is to be done.
fn advice_on_limit(text: TextKind) -> &'static str {
    match text {
        TextKind::Alarms => "nothing of it is stored; leave out what is too much",
        TextKind::Beats | TextKind::Collected => {
            "the beats before it stand; leave out what is too much"
        }
        TextKind::Frames => "what came before is stored; the child has more than a database keeps",
    }
}

/// What an input that cannot be read leaves, and what is to be done.
fn advice_on_input(text: TextKind) -> &'static str {
    match text {
        TextKind::Alarms => "nothing of it is stored; mend it, and run again",
        TextKind::Beats | TextKind::Collected | TextKind::Frames => {
            "the beats before stand; run takes the text again from behind the last MOMENT that came, convert from its start"
        }
    }
}

/// What a text that is too long leaves, and what is to be done.
fn advice_on_length(text: TextKind) -> &'static str {
    match text {
        TextKind::Collected => "the beats before stand; run it again",
        TextKind::Frames => "what came before is stored; run again to go on from there",
        TextKind::Alarms | TextKind::Beats => {
            "the beats before stand; another run takes the text from behind the last MOMENT that came"
        }
    }
}

/// What a disk that failed leaves, and what is to be done.
fn advice_on(reason: &Option<DiskError>) -> &'static str {
    match reason {
        Some(DiskError::Taken) => "nothing was read or written; run again when it has ended",
        Some(DiskError::Lock(_)) => "nothing was read or written; mend it, and run again",
        Some(DiskError::Sync(..) | DiskError::Folder(_)) => {
            "what was told as stored is kept; see to the disk, and mount it anew before the next run"
        }
        _ => "what was told as stored is kept; mend it, and run again",
    }
}

/// Writes what is refused, and why. What a child sends has no lines.
fn write_refusal<W: fmt::Write>(
    f: &mut fmt::Formatter<W>,
    text: TextKind,
    line: u64,
    number: u32,
) -> fmt::Result {
    if text == TextKind::Frames {
        let reason = copy_reason_of(number);
        return write!(f, "what the child sent is refused with {number}, {reason}");
    }
    let reason = reason_of(number);
    write!(f, "line {line} is refused with {number}, {reason}")
}

/// Writes which part of the database is damaged.
fn write_damage<W: fmt::Write>(f: &mut fmt::Formatter<W>, part: u32) -> fmt::Result {
    let name = part_of(part);
    write!(
        f,
        "the database here is damaged, or none of this program: part {part}, {name}"
    )
}

/// Writes why one agent refused the other.
fn write_peer_refusal<W: fmt::Write>(f: &mut fmt::Formatter<W>, kind: u32) -> fmt::Result {
    let reason = peer_reason_of(kind);
    write!(f, "the exchange is refused with kind {kind}, {reason}")
}

/// Writes what failed, and the reason where there is one.
fn write_failure<W: fmt::Write, E: fmt::Display>(
    f: &mut fmt::Formatter<W>,
    what: &str,
    reason: &Option<E>,
) -> fmt::Result {
    match reason {
        Some(reason) => write!(f, "{what}: {reason}"),
        None => f.write_str(what),
    }
}

impl fmt::Display for Ending {
    fn fmt<W: fmt::Write>(&self, f: &mut fmt::Formatter<W>) -> fmt::Result {
        self.write_event(f)?;
        let advice = self.advice();
        write!(f, "; {advice}")
    }
}

#[cfg(test)]
mod tests;
