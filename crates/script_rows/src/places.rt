//! A command in its place: the files before it, and all that it may leave.

use crate::commands::command;
use crate::files::{Files, host_before};
use crate::found::{Found, text_at};
use crate::lefts::{Left, found_among, lefts_of, told_among};
use crate::runs::{Session, Step, talk_over};
use host_model::{Keep, MemoryHost, Status};
use std::alloc::Global;
use std::test::Fail;

/// A command, the files before it, and all that it may leave: nothing, one of its beats, and so on to all of them.
#[derive(Drop)]
pub struct Place {
    pub words: &'static [&'static str],
    pub input: &'static str,
    /// What comes on its link.
    pub heard: Vec<u8>,
    /// How it ends where nothing fails.
    pub wanted: Session,
    pub files: Files,
    /// The text by which is found what is there.
    pub text: String,
    pub lefts: Vec<Left>,
}

/// How many beats a command stores. A new database counts as one.
fn beats_of(step: &Step) -> usize {
    if step.0.first() == Some(&"new") && step.3 == Status::Ok {
        return 1;
    }
    let mut beats = 0usize;
    for line in step.2.lines() {
        if line.starts_with("STORED ") {
            beats = beats.saturating_add(1);
        }
    }
    beats
}

/// How many bytes an Ask has.
const ASK: usize = 17;

impl Place {
    /// The place of a command, behind which a beat is stored at this moment.
    pub fn of(alloc: Global, number: usize, moment: u32) -> Result<Place, Fail> {
        let step = command(number)?;
        let mut host = host_before(alloc, number)?;
        let text = text_at(alloc, moment)?;
        Place::behind(alloc, &mut host, step, text)
    }

    /// The place of a command over this host, where this text finds what is there.
    pub fn behind(
        alloc: Global,
        host: &mut MemoryHost,
        step: &Step,
        text: String,
    ) -> Result<Place, Fail> {
        let files = Files::of(alloc, host)?;
        let lefts = lefts_of(alloc, &files, step, beats_of(step), text.as_str())?;
        let wanted = Session {
            status: step.3,
            told: String::from_str(alloc, step.2)?,
            sent: Vec::new(alloc),
        };
        Ok(Place {
            words: step.0,
            input: step.1,
            heard: Vec::new(alloc),
            wanted,
            files,
            text,
            lefts,
        })
    }

    /// Runs the command.
    pub fn run(&self, alloc: Global, host: &mut MemoryHost) -> Result<Session, Fail> {
        let heard = self.heard.as_slice();
        talk_over(alloc, host, self.words, self.input.as_bytes(), heard)
    }

    /// Whether the command ended as it should.
    pub fn is_done(&self, end: &Session) -> bool {
        end.status == self.wanted.status
            && end.told.as_str() == self.wanted.told.as_str()
            && end.sent.as_slice() == self.wanted.sent.as_slice()
    }

    /// Whether so many beats may be there where a call was refused and some were told of. Where none is to be, what was
    /// to be told may be of a refusal.
    fn may_be(&self, status: Status, told: usize, there: usize) -> bool {
        let is_next = there == told.saturating_add(1);
        let is_same = there == told && told.saturating_add(1) < self.lefts.len();
        let has_none = self.lefts.len() == 1;
        match status {
            Status::TellFault => is_next || (has_none && !self.wanted.told.is_empty()),
            Status::DiskFault => is_next || is_same || has_none,
            _ => false,
        }
    }

    /// Whether so many beats may be there where a call was refused and it ended so. No more than an Ask is sent before
    /// all are.
    fn may_leave(&self, end: &Session, there: usize) -> bool {
        let is_all = there.saturating_add(1) == self.lefts.len();
        let is_sent = self.wanted.sent.starts_with(end.sent.as_slice());
        match told_among(self.lefts.as_slice(), end.told.as_str()) {
            Some(told) => {
                is_sent && (is_all || end.sent.len() <= ASK) && self.may_be(end.status, told, there)
            }
            None => false,
        }
    }

    /// Whether a crash leaves what was there before the command.
    pub fn is_as_before(&self, alloc: Global, host: MemoryHost, keep: Keep) -> Result<bool, Fail> {
        let mut host = host.stop(keep)?;
        let found = Found::by(alloc, &mut host, self.text.as_str())?;
        Ok(found_among(self.lefts.as_slice(), &found) == Some(0))
    }

    /// Whether a crash behind such an end leaves what it may.
    pub fn is_sound(
        &self,
        alloc: Global,
        end: &Session,
        host: MemoryHost,
        keep: Keep,
    ) -> Result<bool, Fail> {
        let mut host = host.stop(keep)?;
        let found = Found::by(alloc, &mut host, self.text.as_str())?;
        Ok(match found_among(self.lefts.as_slice(), &found) {
            Some(there) if self.is_done(end) => there.saturating_add(1) == self.lefts.len(),
            Some(there) => self.may_leave(end, there),
            None => false,
        })
    }
}
