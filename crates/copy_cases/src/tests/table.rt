//! What a database answers for each moment of a history.

use super::ends::told;
use super::gaps::Gap;
use host_model::MemoryHost;
use std::alloc::Global;
use std::test::Fail;

/// The first moment of a history, and how many there are.
pub const FIRST: u32 = 1_000;

pub const MOMENTS: usize = 200;

/// The charts, each of which has one dimension.
pub static CHARTS: [&str; 2] = ["t.one", "t.two"];

/// The values of the charts at a moment. 0 where there is none.
pub type Row = [u32; 2];

pub const EMPTY: Row = [0; 2];

/// The moment of a row.
pub fn moment_at(place: usize) -> u32 {
    FIRST.saturating_add(u32::try_from(place).unwrap_or(0))
}

/// The row of a moment.
pub fn row_at(rows: &[Row], moment: u32) -> Row {
    let place = moment.saturating_sub(FIRST) as usize;
    if moment < FIRST {
        return EMPTY;
    }
    rows.get(place).copied().unwrap_or(EMPTY)
}

/// The value in a line of a reply, behind its moment.
fn value_in(line: &str) -> Result<u32, Fail> {
    match line.split(' ').nth(1) {
        Some("null") | None => Ok(0),
        Some(cell) => Ok(cell.parse::<u32>()?),
    }
}

/// Puts the values of a chart, by the lines behind the first.
fn put(rows: &mut [Row], place: usize, reply: &str) -> Result<(), Fail> {
    for (row, line) in rows.iter_mut().zip(reply.lines().skip(1)) {
        let value = value_in(line)?;
        if let Some(cell) = row.get_mut(place) {
            *cell = value;
        }
    }
    Ok(())
}

/// What a database answers for all moments. It may not know a chart yet.
pub fn table(alloc: Global, host: &mut MemoryHost) -> Result<Vec<Row>, Fail> {
    let mut rows = vec![in alloc; EMPTY; MOMENTS]?;
    for (place, chart) in CHARTS.iter().enumerate() {
        let words = &["query", *chart, "1000", "1200", "1", "sum"];
        let reply = told(alloc, host, words, "")?;
        if reply.as_str() != "ERROR 3\n" && !reply.as_str().starts_with("ROWS 200 ") {
            return Err(Fail::new("no reply to a question"));
        }
        put(rows.as_mut_slice(), place, reply.as_str())?;
    }
    Ok(rows)
}

/// A parent as it answers: its last moment, its gaps and its rows.
#[derive(Clone, Copy)]
pub struct Copied<'a> {
    pub last: u32,
    pub gaps: &'a [Gap],
    pub rows: &'a [Row],
}

impl Copied<'_> {
    /// Whether a moment lies in a gap.
    fn is_lost(&self, moment: u32) -> bool {
        self.gaps
            .iter()
            .any(|gap| gap.above < moment && moment <= gap.upto)
    }

    /// Whether it has of a moment what it should: the row that the child was given, where it has
    /// come so far and the moment lies in no gap, and else nothing.
    fn is_right_at(&self, given: &[Row], moment: u32) -> bool {
        let held = row_at(self.rows, moment);
        if moment > self.last || self.is_lost(moment) {
            return held == EMPTY;
        }
        held == row_at(given, moment)
    }

    /// Whether it is a copy of a child that was given these rows.
    pub fn is_copy(&self, given: &[Row]) -> bool {
        for place in 0..MOMENTS {
            if !self.is_right_at(given, moment_at(place)) {
                return false;
            }
        }
        true
    }

    /// Whether each gap begins where the copy ended, and ends one below one of these floors.
    pub fn has_honest_gaps(&self, floors: &[u32]) -> bool {
        let mut end = 0;
        for gap in self.gaps {
            let is_end = gap.above == end || row_at(self.rows, gap.above) != EMPTY;
            let is_floor = floors.contains(&gap.upto.saturating_add(1));
            if gap.above < end || gap.upto <= gap.above || !is_end || !is_floor {
                return false;
            }
            end = gap.upto;
        }
        end <= self.last
    }

    /// How many beats it has, and how many of the child's it has not.
    pub fn counts(&self, given: &[Row]) -> (u64, u64) {
        let (mut has, mut lacks) = (0u64, 0u64);
        for (given, held) in given.iter().zip(self.rows) {
            if *held != EMPTY {
                has = has.saturating_add(1);
            } else if *given != EMPTY {
                lacks = lacks.saturating_add(1);
            }
        }
        (has, lacks)
    }
}
