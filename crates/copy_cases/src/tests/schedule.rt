//! A child that grows, and a parent that hears of it, by a link that may be cut.

use super::draws::Draws;
use super::ends::{NEW_PARENT, RECEIVE, SEND, enter, found, host_with, speak, talk};
use super::gaps::{gaps_of, number_at};
use super::quotas::Quotas;
use super::table::{CHARTS, Copied, EMPTY, MOMENTS, Row, moment_at, table};
use super::wire::HELLO;
use host_model::{MemoryHost, Status};
use std::alloc::{AllocError, Global};
use std::fmt::Write;
use std::test::Fail;

/// A child, a parent, and what is known of both.
#[derive(Drop)]
pub struct Schedule {
    alloc: Global,
    child: MemoryHost,
    parent: MemoryHost,
    quotas: Quotas,
    /// What the child was given, how many of the moments are behind it, and the last with a row.
    given: Vec<Row>,
    next: usize,
    last: u32,
    /// The floors that the child had at its sessions.
    floors: Vec<u32>,
}

/// How many beats parents have, how many of the child's they have not, and in how many gaps.
#[derive(Clone, Copy, Debug)]
pub struct Counts {
    pub has: u64,
    pub lacks: u64,
    pub gaps: u64,
}

/// A parent that makes checkpoints, and throws nothing away.
const SMALL_PARENT: &[&str] = &["new", "8", "9", "1000", "100", "1000", "100", "1000"];

/// A child whose segments have so many points, and of which so many are kept.
fn new_child(alloc: Global, points: u64, segments: usize) -> Result<MemoryHost, Fail> {
    let points = format!(in alloc; "{points}")?;
    let segments = format!(in alloc; "{segments}")?;
    let new = &[
        "new",
        "7",
        points.as_str(),
        segments.as_str(),
        "100",
        "1",
        "100",
        "1",
    ];
    found(host_with(alloc, &[], new, "")?)
}

/// A beat's values, of which each may be missing.
fn draw_row(draws: &mut Draws) -> Row {
    let mut row = EMPTY;
    for cell in &mut row {
        if !draws.is_rare(3) {
            *cell = u32::try_from(draws.below(1_000_000))
                .unwrap_or(0)
                .saturating_add(1);
        }
    }
    row
}

/// Writes the lines of a beat, and says how many points it has.
fn write_beat(text: &mut String, row: &Row, moment: u32) -> Result<u64, AllocError> {
    let mut points = 0u64;
    for (chart, value) in CHARTS.iter().zip(row) {
        if *value != 0 {
            writeln!(text, "CHART {chart} '' T u\nDIMENSION a")?;
            writeln!(text, "BEGIN {chart}\nSET a = {value}\nEND")?;
            points = points.saturating_add(1);
        }
    }
    writeln!(text, "MOMENT {moment}")?;
    Ok(points)
}

impl Schedule {
    pub fn draw(alloc: Global, draws: &mut Draws) -> Result<Schedule, Fail> {
        let points = draws.below(6).saturating_add(1);
        let segments = (draws.below(3) as usize).saturating_add(1);
        let new = if draws.is_rare(2) {
            NEW_PARENT
        } else {
            SMALL_PARENT
        };
        Ok(Schedule {
            alloc,
            child: new_child(alloc, points, segments)?,
            parent: found(host_with(alloc, &[], new, "")?)?,
            quotas: Quotas::new(alloc, points, segments),
            given: vec![in alloc; EMPTY; MOMENTS]?,
            next: 0,
            last: 0,
            floors: Vec::new(alloc),
        })
    }

    /// Draws a beat, one to three moments behind the last.
    fn draw_beat(&mut self, draws: &mut Draws, text: &mut String) -> Result<(), AllocError> {
        let place = self.next.saturating_add(draws.below(3) as usize);
        let Some(given) = self.given.get_mut(place) else {
            return Ok(());
        };
        let moment = moment_at(place);
        *given = draw_row(draws);
        let points = write_beat(text, given, moment)?;
        self.quotas.take(moment, points)?;
        self.next = place.saturating_add(1);
        if points > 0 {
            self.last = moment;
        }
        Ok(())
    }

    /// The child gets up to nine beats. Whether it takes them.
    pub fn grow(&mut self, draws: &mut Draws) -> Result<bool, Fail> {
        let mut text = String::new(self.alloc);
        for _ in 0..draws.below(10) {
            self.draw_beat(draws, &mut text)?;
        }
        let status = enter(self.alloc, &mut self.child, &["run"], text.as_str())?;
        Ok(status == Status::Ok)
    }

    /// Each end hears once what the other one said, of which now and then the end is lost. Whether
    /// both sessions end as they may.
    pub fn exchange(&mut self, draws: &mut Draws) -> Result<bool, Fail> {
        let asked = talk(self.alloc, &mut self.parent, RECEIVE, HELLO)?;
        self.floors.push(self.quotas.floor())?;
        let said = talk(self.alloc, &mut self.child, SEND, asked.sent.as_slice())?;
        let mut count = said.sent.len();
        if draws.is_rare(3) {
            count = draws.below(count as u64) as usize;
        }
        let heard = said.sent.as_slice().get(..count).unwrap_or(&[]);
        let end = talk(self.alloc, &mut self.parent, RECEIVE, heard)?;
        Ok(is_ending(said.status) && is_ending(end.status))
    }

    /// Both speak until nothing is left.
    pub fn finish(&mut self) -> Result<bool, Fail> {
        self.floors.push(self.quotas.floor())?;
        speak(self.alloc, &mut self.child, &mut self.parent)
    }

    /// The moment from which the parent asks: in an Ask it stands behind the length, the kind and
    /// the child.
    fn asked(&mut self) -> Result<u32, Fail> {
        let asked = talk(self.alloc, &mut self.parent, RECEIVE, HELLO)?;
        match number_at(asked.sent.as_slice(), 13) {
            Some(last) => Ok(last),
            None => Err(Fail::new("a parent that does not ask")),
        }
    }

    /// What the parent has otherwise than it should. Where nothing is left to say, it has come to
    /// the child's last beat.
    pub fn first_wrong(
        &mut self,
        is_whole: bool,
        counts: &mut Counts,
    ) -> Result<Option<&'static str>, Fail> {
        let last = self.asked()?;
        let gaps = gaps_of(self.alloc, &mut self.parent)?;
        let rows = table(self.alloc, &mut self.parent)?;
        let copied = Copied {
            last,
            gaps: gaps.as_slice(),
            rows: rows.as_slice(),
        };
        if is_whole {
            counts.add(&copied, self.given.as_slice());
        }
        Ok(self.wrong_in(&copied, is_whole))
    }

    fn wrong_in(&self, copied: &Copied, is_whole: bool) -> Option<&'static str> {
        if is_whole && copied.last != self.last {
            return Some("end");
        }
        if !copied.is_copy(self.given.as_slice()) {
            return Some("copy");
        }
        if !copied.has_honest_gaps(self.floors.as_slice()) {
            return Some("gaps");
        }
        None
    }
}

impl Counts {
    fn add(&mut self, copied: &Copied, given: &[Row]) {
        let (has, lacks) = copied.counts(given);
        self.has = self.has.saturating_add(has);
        self.lacks = self.lacks.saturating_add(lacks);
        self.gaps = self.gaps.saturating_add(copied.gaps.len() as u64);
    }
}

/// A session whose peer does what it should is done, or the peer has gone.
fn is_ending(status: Status) -> bool {
    matches!(status, Status::Ok | Status::LinkEnded)
}
