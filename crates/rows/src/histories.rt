//! Five hundred random histories over databases of small quotas, each by several commands. After each opening and
//! behind beats questions are answered as a plain definition says, which goes through all beats.

use crate::random::{Point, Random, group_name, sum_up, write_cell};
use crate::run::{host_of, run_over};
use crate::steps::RUN;
use host_model::{MemoryHost, Status};
use std::alloc::{AllocError, Global};
use std::fmt::Write;
use std::test::Fail;

/// Some histories.
#[derive(Clone, Copy, Debug)]
struct Histories {
    seed: u64,
    count: u64,
    /// How many runs each has.
    runs: u64,
    /// A moment is at the most so many seconds above the one before.
    gap: u64,
    /// A tier keeps at the most so many segments.
    kept: u64,
}

/// A tier, by its quotas.
#[derive(Clone, Copy, Debug)]
struct Tier {
    width: u64,
    items: u64,
    kept: u64,
}

/// A question over one of the two charts, by the place of its group.
#[derive(Clone, Copy, Debug)]
struct Question {
    is_second: bool,
    after: u64,
    before: u64,
    window: u64,
    rows: u64,
    group: u64,
}

/// All beats of a database, and its tiers.
#[derive(Debug, Drop)]
struct History {
    tiers: [Tier; 3],
    /// The points of `a`, `b` and `c`. The first two are of the chart `t.c`, the last is of `t.d`.
    a: Vec<Point>,
    b: Vec<Point>,
    c: Vec<Point>,
    /// The moments of all beats that have one.
    moments: Vec<u64>,
    last: u64,
    /// How many beats there are, configurations too.
    count: u64,
    /// A moment is at the most so many seconds above the one before.
    gap: u64,
}

/// The text of a command, and what is to be told of it.
#[derive(Debug, Drop)]
struct Command {
    text: String,
    told: String,
}

impl Tier {
    fn random(random: &mut Random, width: u64, kept: u64) -> Tier {
        Tier {
            width,
            items: random.below(5).saturating_add(1),
            kept: random.below(kept).saturating_add(1),
        }
    }

    /// Where the bucket of a moment begins.
    fn start_of(&self, moment: u64) -> u64 {
        moment.saturating_sub(moment.checked_rem(self.width).unwrap_or(0))
    }

    /// Whether it may be read for such a question.
    fn may_answer(&self, asked: &Question) -> bool {
        self.start_of(asked.after) == asked.after && self.start_of(asked.window) == asked.window
    }

    /// The first moment that is kept where a segment that was sealed at this moment has gone.
    fn floor_behind(&self, sealed: u64) -> u64 {
        if self.width == 1 {
            sealed.saturating_add(1)
        } else {
            self.start_of(sealed)
        }
    }

    /// The floor, where segments were sealed at these moments.
    fn floor(&self, sealed: &[u64]) -> u64 {
        let kept = self.kept as usize;
        let Some(gone) = sealed.len().checked_sub(kept.saturating_add(1)) else {
            return 0;
        };
        match sealed.get(gone) {
            Some(moment) => self.floor_behind(*moment),
            None => 0,
        }
    }
}

impl Question {
    /// A question about moments near the last one, in windows of some units.
    fn in_units(random: &mut Random, last: u64, unit: u64) -> Question {
        let back = random.below(6).saturating_mul(unit);
        let near = last.saturating_sub(back);
        let after = near.saturating_sub(near.checked_rem(unit).unwrap_or(0));
        let window = random.below(3).saturating_add(1).saturating_mul(unit);
        let rows = random.below(4).saturating_add(1);
        let part = random.below(window).saturating_add(1);
        let before = after
            .saturating_add(rows.saturating_sub(1).saturating_mul(window))
            .saturating_add(part);
        Question {
            is_second: random.below(3) == 0,
            after,
            before,
            window,
            rows,
            group: random.below(6),
        }
    }

    fn random(random: &mut Random, last: u64) -> Question {
        let unit = match random.below(4) {
            0 => 1,
            1 => random.below(9).saturating_add(2),
            2 => 60,
            _ => 3_600,
        };
        Question::in_units(random, last, unit)
    }

    fn chart(&self) -> &'static str {
        if self.is_second { "t.d" } else { "t.c" }
    }

    /// Writes a cell of the window that starts here.
    fn write_cell(
        &self,
        out: &mut String,
        points: &[Point],
        floor: u64,
        start: u64,
    ) -> Result<(), AllocError> {
        let all = sum_up(points, start, start.saturating_add(self.window));
        if start < floor || all.count == 0 {
            out.push_str(" null")
        } else {
            write_cell(out, all.units(self.group))
        }
    }
}

fn has_between(points: &[Point], from: u64, to: u64) -> bool {
    sum_up(points, from, to).count > 0
}

impl History {
    /// How many series have a point from one moment to before another.
    fn series_between(&self, from: u64, to: u64) -> u64 {
        u64::from(has_between(self.a.as_slice(), from, to))
            .saturating_add(u64::from(has_between(self.b.as_slice(), from, to)))
            .saturating_add(u64::from(has_between(self.c.as_slice(), from, to)))
    }

    /// How many items a beat adds to a tier that comes behind one at `last`: its points, or the records of the bucket
    /// that it closes.
    fn added(&self, tier: &Tier, last: u64, moment: u64) -> u64 {
        let start = tier.start_of(last);
        if tier.width == 1 {
            self.series_between(moment, moment.saturating_add(1))
        } else if start < tier.start_of(moment) {
            self.series_between(start, start.saturating_add(tier.width))
        } else {
            0
        }
    }

    /// The moments at which a tier has sealed a segment.
    fn sealed(&self, alloc: Global, tier: &Tier) -> Result<Vec<u64>, AllocError> {
        let mut sealed = Vec::new(alloc);
        let (mut since, mut last) = (0u64, 0u64);
        for moment in &self.moments {
            since = since.saturating_add(self.added(tier, last, *moment));
            if since >= tier.items {
                sealed.push(*moment)?;
                since = 0;
            }
            last = *moment;
        }
        Ok(sealed)
    }

    /// The lowest floor of the tiers that may answer.
    fn floor_for(&self, alloc: Global, asked: &Question) -> Result<u64, AllocError> {
        let mut lowest = u64::MAX;
        for tier in &self.tiers {
            if tier.may_answer(asked) {
                let sealed = self.sealed(alloc, tier)?;
                lowest = lowest.min(tier.floor(sealed.as_slice()));
            }
        }
        Ok(lowest)
    }

    fn write_row(
        &self,
        out: &mut String,
        asked: &Question,
        floor: u64,
        start: u64,
    ) -> Result<(), AllocError> {
        write!(out, "{start}")?;
        if asked.is_second {
            asked.write_cell(out, self.c.as_slice(), floor, start)?;
        } else {
            asked.write_cell(out, self.a.as_slice(), floor, start)?;
            asked.write_cell(out, self.b.as_slice(), floor, start)?;
        }
        out.push_str("\n")
    }

    /// Writes the answer over the beats by now.
    fn write_answer(
        &self,
        alloc: Global,
        out: &mut String,
        asked: &Question,
    ) -> Result<(), AllocError> {
        let floor = self.floor_for(alloc, asked)?;
        let names = if asked.is_second { "c" } else { "a b" };
        writeln!(out, "ROWS {} {names}", asked.rows)?;
        let mut start = asked.after;
        for _ in 0..asked.rows {
            self.write_row(out, asked, floor, start)?;
            start = start.saturating_add(asked.window);
        }
        Ok(())
    }
}

/// Where histories begin.
const BEGINNINGS: [u64; 4] = [0, 3_540, 1_699_999_000, 4_294_000_000];

/// The quotas as words.
const DIGITS: [&str; 6] = ["0", "1", "2", "3", "4", "5"];

fn digit(number: u64) -> &'static str {
    DIGITS.get(number as usize).copied().unwrap_or("1")
}

fn beginning(number: u64) -> u64 {
    BEGINNINGS.get(number as usize).copied().unwrap_or(0)
}

const CHARTS: &str = "CHART t.c n t u\nDIMENSION a\nDIMENSION b\nCHART t.d n t u\nDIMENSION c\n";

impl Point {
    fn random(random: &mut Random, moment: u64) -> Point {
        Point {
            moment,
            value: random.below(1_000),
            is_anomalous: random.below(4) == 0,
        }
    }

    fn write_set(&self, text: &mut String, name: &str) -> Result<(), AllocError> {
        let flag = if self.is_anomalous { " A" } else { "" };
        writeln!(text, "SET {name} = {}{flag}", self.value)
    }
}

/// Adds a point to those of this name. Some beats have none.
fn add_point(
    text: &mut String,
    random: &mut Random,
    points: &mut Vec<Point>,
    name: &str,
    moment: u64,
) -> Result<(), AllocError> {
    let point = Point::random(random, moment);
    if points.is_empty() || random.below(4) != 0 {
        point.write_set(text, name)?;
        points.push(point)?;
    }
    Ok(())
}

impl Command {
    fn new(alloc: Global) -> Command {
        Command {
            text: String::new(alloc),
            told: String::new(alloc),
        }
    }

    /// Whether this is told of it by a command of these words.
    fn is_told(&self, alloc: Global, host: &mut MemoryHost, words: &[&str]) -> Result<bool, Fail> {
        let end = run_over(alloc, host, words, self.text.as_bytes(), &[])?;
        Ok(end.status == Status::Ok && end.told.as_str() == self.told.as_str())
    }
}

impl History {
    fn random(alloc: Global, random: &mut Random, all: &Histories) -> History {
        History {
            tiers: [
                Tier::random(random, 1, all.kept),
                Tier::random(random, 60, all.kept),
                Tier::random(random, 3_600, all.kept),
            ],
            a: Vec::new(alloc),
            b: Vec::new(alloc),
            c: Vec::new(alloc),
            moments: Vec::new(alloc),
            last: beginning(random.below(4)),
            count: 0,
            gap: all.gap,
        }
    }

    /// Adds the rows of a beat: in the first beat both, in others one, both or none.
    fn add_rows(
        &mut self,
        text: &mut String,
        random: &mut Random,
        moment: u64,
    ) -> Result<(), AllocError> {
        if self.a.is_empty() || random.below(5) != 0 {
            text.push_str("BEGIN t.c\n")?;
            add_point(text, random, &mut self.a, "a", moment)?;
            add_point(text, random, &mut self.b, "b", moment)?;
            text.push_str("END\n")?;
        }
        if self.c.is_empty() || random.below(3) != 0 {
            text.push_str("BEGIN t.d\n")?;
            add_point(text, random, &mut self.c, "c", moment)?;
            text.push_str("END\n")?;
        }
        Ok(())
    }

    fn add_beat(&mut self, command: &mut Command, random: &mut Random) -> Result<(), AllocError> {
        let moment = self
            .last
            .saturating_add(random.below(self.gap))
            .saturating_add(1);
        self.add_rows(&mut command.text, random, moment)?;
        writeln!(command.text, "MOMENT {moment}")?;
        self.moments.push(moment)?;
        self.last = moment;
        self.count = self.count.saturating_add(1);
        writeln!(command.told, "STORED {}", self.count)
    }

    fn add_question(
        &self,
        alloc: Global,
        command: &mut Command,
        random: &mut Random,
    ) -> Result<(), AllocError> {
        let asked = Question::random(random, self.last);
        writeln!(
            command.text,
            "QUERY {} {} {} {} {}",
            asked.chart(),
            asked.after,
            asked.before,
            asked.window,
            group_name(asked.group)
        )?;
        self.write_answer(alloc, &mut command.told, &asked)
    }

    /// Questions, and one or two beats with a question behind some of them.
    fn beats(&mut self, alloc: Global, random: &mut Random) -> Result<Command, AllocError> {
        let mut command = Command::new(alloc);
        if self.count == 0 || random.below(2) == 0 {
            command.text.push_str(CHARTS)?;
        }
        if self.count > 0 {
            self.add_questions(alloc, &mut command, random)?;
        }
        for _ in 0..random.below(2).saturating_add(1) {
            self.add_beat(&mut command, random)?;
            if random.below(2) == 0 {
                self.add_question(alloc, &mut command, random)?;
            }
        }
        Ok(command)
    }

    fn add_questions(
        &self,
        alloc: Global,
        command: &mut Command,
        random: &mut Random,
    ) -> Result<(), AllocError> {
        for _ in 0..3 {
            self.add_question(alloc, command, random)?;
        }
        Ok(())
    }

    /// Questions alone.
    fn questions(&self, alloc: Global, random: &mut Random) -> Result<Command, AllocError> {
        let mut command = Command::new(alloc);
        self.add_questions(alloc, &mut command, random)?;
        Ok(command)
    }

    /// A configuration of no alarms, which has no moment.
    fn configuration(&mut self, alloc: Global) -> Result<Command, AllocError> {
        let mut command = Command::new(alloc);
        self.count = self.count.saturating_add(1);
        writeln!(command.told, "STORED {}", self.count)?;
        Ok(command)
    }

    fn is_made(&self, alloc: Global, host: &mut MemoryHost) -> Result<bool, Fail> {
        let [first, second, third] = self.tiers;
        let words: [&str; 8] = [
            "new",
            "7",
            digit(first.items),
            digit(first.kept),
            digit(second.items),
            digit(second.kept),
            digit(third.items),
            digit(third.kept),
        ];
        Command::new(alloc).is_told(alloc, host, &words)
    }

    /// Whether questions of an opening, and then beats with more of them, are answered as they should.
    fn goes_on(
        &mut self,
        alloc: Global,
        host: &mut MemoryHost,
        random: &mut Random,
    ) -> Result<bool, Fail> {
        if self.count > 0 && random.below(4) == 0 {
            let command = self.configuration(alloc)?;
            if !command.is_told(alloc, host, &["health"])? {
                return Ok(false);
            }
        }
        let beats = self.beats(alloc, random)?;
        beats.is_told(alloc, host, RUN)
    }
}

/// Whether one of them is answered as it should.
fn is_answered(alloc: Global, random: &mut Random, all: &Histories) -> Result<bool, Fail> {
    let mut history = History::random(alloc, random, all);
    let mut host = host_of(alloc, &[])?;
    if !history.is_made(alloc, &mut host)? {
        return Ok(false);
    }
    for _ in 0..all.runs {
        if !history.goes_on(alloc, &mut host, random)? {
            return Ok(false);
        }
    }
    let questions = history.questions(alloc, random)?;
    questions.is_told(alloc, &mut host, RUN)
}

/// The first of them that is answered otherwise.
fn first_wrong(alloc: Global, all: Histories) -> Result<Option<u64>, Fail> {
    let mut random = Random { state: all.seed };
    for number in 0..all.count {
        if !is_answered(alloc, &mut random, &all)? {
            return Ok(Some(number));
        }
    }
    Ok(None)
}

#[test]
fn histories_of_seconds_are_answered(rt: HostRuntime) -> Result<(), Fail> {
    let all = Histories {
        seed: 1,
        count: 85,
        runs: 2,
        gap: 9,
        kept: 5,
    };
    assert_eq!(rt; first_wrong(rt.alloc(), all)?, None);
    Ok(())
}

#[test]
fn other_histories_of_seconds_are_answered(rt: HostRuntime) -> Result<(), Fail> {
    let all = Histories {
        seed: 2,
        count: 85,
        runs: 2,
        gap: 9,
        kept: 5,
    };
    assert_eq!(rt; first_wrong(rt.alloc(), all)?, None);
    Ok(())
}

#[test]
fn histories_of_a_minute_are_answered(rt: HostRuntime) -> Result<(), Fail> {
    let all = Histories {
        seed: 3,
        count: 85,
        runs: 2,
        gap: 30,
        kept: 5,
    };
    assert_eq!(rt; first_wrong(rt.alloc(), all)?, None);
    Ok(())
}

#[test]
fn other_histories_of_a_minute_are_answered(rt: HostRuntime) -> Result<(), Fail> {
    let all = Histories {
        seed: 4,
        count: 85,
        runs: 2,
        gap: 30,
        kept: 5,
    };
    assert_eq!(rt; first_wrong(rt.alloc(), all)?, None);
    Ok(())
}

#[test]
fn histories_of_some_minutes_are_answered(rt: HostRuntime) -> Result<(), Fail> {
    let all = Histories {
        seed: 5,
        count: 85,
        runs: 2,
        gap: 90,
        kept: 5,
    };
    assert_eq!(rt; first_wrong(rt.alloc(), all)?, None);
    Ok(())
}

#[test]
fn longer_histories_are_answered(rt: HostRuntime) -> Result<(), Fail> {
    let all = Histories {
        seed: 6,
        count: 18,
        runs: 5,
        gap: 9,
        kept: 5,
    };
    assert_eq!(rt; first_wrong(rt.alloc(), all)?, None);
    Ok(())
}

#[test]
fn other_longer_histories_are_answered(rt: HostRuntime) -> Result<(), Fail> {
    let all = Histories {
        seed: 7,
        count: 18,
        runs: 5,
        gap: 9,
        kept: 5,
    };
    assert_eq!(rt; first_wrong(rt.alloc(), all)?, None);
    Ok(())
}

#[test]
fn histories_of_minutes_are_answered(rt: HostRuntime) -> Result<(), Fail> {
    let all = Histories {
        seed: 8,
        count: 12,
        runs: 4,
        gap: 70,
        kept: 1,
    };
    assert_eq!(rt; first_wrong(rt.alloc(), all)?, None);
    Ok(())
}

#[test]
fn other_histories_of_minutes_are_answered(rt: HostRuntime) -> Result<(), Fail> {
    let all = Histories {
        seed: 9,
        count: 12,
        runs: 4,
        gap: 70,
        kept: 1,
    };
    assert_eq!(rt; first_wrong(rt.alloc(), all)?, None);
    Ok(())
}

#[test]
fn histories_of_hours_are_answered(rt: HostRuntime) -> Result<(), Fail> {
    let all = Histories {
        seed: 10,
        count: 8,
        runs: 5,
        gap: 2_000,
        kept: 1,
    };
    assert_eq!(rt; first_wrong(rt.alloc(), all)?, None);
    Ok(())
}

#[test]
fn other_histories_of_hours_are_answered(rt: HostRuntime) -> Result<(), Fail> {
    let all = Histories {
        seed: 11,
        count: 7,
        runs: 5,
        gap: 2_000,
        kept: 1,
    };
    assert_eq!(rt; first_wrong(rt.alloc(), all)?, None);
    Ok(())
}
