//! Random texts with questions between their beats, against an answer that is counted out here.

use crate::run::{host_of, run_over};
use host_model::Status;
use std::alloc::{AllocError, Global};
use std::fmt::Write;
use std::test::Fail;

/// A row of numbers without order.
#[derive(Clone, Copy)]
pub struct Random {
    pub state: u64,
}

impl Random {
    /// A number below `bound`, or 0 where that is 0.
    pub fn below(&mut self, bound: u64) -> u64 {
        self.state = self
            .state
            .wrapping_mul(6_364_136_223_846_793_005)
            .wrapping_add(1_442_695_040_888_963_407);
        (self.state >> 33).checked_rem(bound).unwrap_or(0)
    }
}

/// A point of the one dimension.
#[derive(Clone, Copy, Debug)]
pub struct Point {
    pub moment: u64,
    pub value: u64,
    pub is_anomalous: bool,
}

/// A question over the one chart, by the place of its group in `GROUPS`.
#[derive(Clone, Copy, Debug)]
struct Question {
    after: u64,
    before: u64,
    window: u64,
    group: u64,
}

const GROUPS: [&str; 6] = ["sum", "count", "min", "max", "average", "anomaly-rate"];

/// A text, and what is to be told of it.
#[derive(Debug, Drop)]
struct Case {
    text: String,
    told: String,
    points: Vec<Point>,
    moment: u64,
    count: u64,
}

/// What the points of a window come to.
#[derive(Clone, Copy, Debug)]
pub struct Summed {
    pub count: u64,
    sum: u64,
    least: u64,
    most: u64,
    anomalies: u64,
}

pub fn group_name(group: u64) -> &'static str {
    GROUPS.get(group as usize).copied().unwrap_or("sum")
}

/// The points from one moment to before another.
pub fn sum_up(points: &[Point], from: u64, to: u64) -> Summed {
    let mut all = Summed {
        count: 0,
        sum: 0,
        least: u64::MAX,
        most: 0,
        anomalies: 0,
    };
    for point in points {
        if point.moment >= from && point.moment < to {
            all = all.with(point);
        }
    }
    all
}

impl Summed {
    fn with(self, point: &Point) -> Summed {
        Summed {
            count: self.count.saturating_add(1),
            sum: self.sum.saturating_add(point.value),
            least: self.least.min(point.value),
            most: self.most.max(point.value),
            anomalies: self.anomalies.saturating_add(u64::from(point.is_anomalous)),
        }
    }

    /// The group's number in ten-millionths.
    pub fn units(&self, group: u64) -> u64 {
        const ONE: u64 = 10_000_000;
        match group_name(group) {
            "sum" => self.sum.saturating_mul(ONE),
            "count" => self.count.saturating_mul(ONE),
            "min" => self.least.saturating_mul(ONE),
            "max" => self.most.saturating_mul(ONE),
            "average" => nearest(self.sum.saturating_mul(ONE), self.count),
            _ => nearest(
                self.anomalies.saturating_mul(100).saturating_mul(ONE),
                self.count,
            ),
        }
    }
}

/// The quotient to the nearest whole number, ties to even.
fn nearest(number: u64, count: u64) -> u64 {
    let whole = number.checked_div(count).unwrap_or(0);
    let twice = number.checked_rem(count).unwrap_or(0).saturating_mul(2);
    if twice > count || (twice == count && whole % 2 == 1) {
        whole.saturating_add(1)
    } else {
        whole
    }
}

/// Writes the decimals of a number of ten-millionths below one, up to the last that is not 0.
fn write_decimals(out: &mut String, part: u64) -> Result<(), AllocError> {
    let mut rest = part;
    out.push_str(".")?;
    for _ in 0..7 {
        if rest == 0 {
            return Ok(());
        }
        let digit = rest / 1_000_000;
        write!(out, "{digit}")?;
        rest = (rest % 1_000_000).saturating_mul(10);
    }
    Ok(())
}

/// Writes a cell of ten-millionths.
pub fn write_cell(out: &mut String, units: u64) -> Result<(), AllocError> {
    let whole = units / 10_000_000;
    let part = units % 10_000_000;
    write!(out, " {whole}")?;
    if part == 0 {
        Ok(())
    } else {
        write_decimals(out, part)
    }
}

impl Question {
    fn random(random: &mut Random) -> Question {
        let after = random.below(40);
        let before = random.below(100);
        let window = random.below(20).saturating_add(1);
        let group = random.below(6);
        Question {
            after,
            before,
            window,
            group,
        }
    }

    /// How many windows start at or after `after` and before `before`.
    fn rows(&self) -> u64 {
        let mut rows = 0u64;
        for moment in self.after..self.before {
            if self.is_start(moment) {
                rows = rows.saturating_add(1);
            }
        }
        rows
    }

    /// Whether a window starts at a moment that is not below `after`.
    fn is_start(&self, moment: u64) -> bool {
        moment.saturating_sub(self.after).checked_rem(self.window) == Some(0)
    }

    /// Writes the line of the window that starts here.
    fn write_row(&self, out: &mut String, points: &[Point], start: u64) -> Result<(), AllocError> {
        let all = sum_up(points, start, start.saturating_add(self.window));
        write!(out, "{start}")?;
        if all.count == 0 {
            out.push_str(" null")?;
        } else {
            write_cell(out, all.units(self.group))?;
        }
        out.push_str("\n")
    }

    /// Writes the answer over these points.
    fn write_answer(&self, out: &mut String, points: &[Point]) -> Result<(), AllocError> {
        writeln!(out, "ROWS {} a", self.rows())?;
        for moment in self.after..self.before {
            if self.is_start(moment) {
                self.write_row(out, points, moment)?;
            }
        }
        Ok(())
    }
}

impl Case {
    fn new(alloc: Global) -> Result<Case, AllocError> {
        Ok(Case {
            text: String::from_str(alloc, "CHART t.c n t u\nDIMENSION a\n")?,
            told: String::new(alloc),
            points: Vec::new(alloc),
            moment: 0,
            count: 0,
        })
    }

    /// Adds the block of a point at this moment.
    fn add_point(&mut self, point: Point) -> Result<(), AllocError> {
        let value = point.value;
        let flag = if point.is_anomalous { " A" } else { "" };
        writeln!(self.text, "BEGIN t.c\nSET a={value}{flag}\nEND")?;
        self.points.push(point)?;
        Ok(())
    }

    /// Adds a beat, which may have no point.
    fn add_beat(&mut self, random: &mut Random) -> Result<(), AllocError> {
        self.moment = self
            .moment
            .saturating_add(1)
            .saturating_add(random.below(9));
        self.count = self.count.saturating_add(1);
        let point = Point {
            moment: self.moment,
            value: random.below(1_000),
            is_anomalous: random.below(3) == 0,
        };
        if self.points.is_empty() || random.below(5) != 0 {
            self.add_point(point)?;
        }
        writeln!(self.text, "MOMENT {}", self.moment)?;
        writeln!(self.told, "STORED {}", self.count)
    }

    /// Adds a question, and its answer over the points by now.
    fn add_question(&mut self, random: &mut Random) -> Result<(), AllocError> {
        let asked = Question::random(random);
        let group = group_name(asked.group);
        writeln!(
            self.text,
            "QUERY t.c {} {} {} {group}",
            asked.after, asked.before, asked.window
        )?;
        asked.write_answer(&mut self.told, self.points.as_slice())
    }

    /// A text of ten beats with a question behind each.
    fn random(alloc: Global, random: &mut Random) -> Result<Case, AllocError> {
        let mut case = Case::new(alloc)?;
        for _ in 0..10 {
            case.add_beat(random)?;
            case.add_question(random)?;
        }
        Ok(case)
    }
}

/// Whether a run of such a text tells what is to be told.
fn is_told(alloc: Global, random: &mut Random) -> Result<bool, Fail> {
    let case = Case::random(alloc, random)?;
    let mut host = host_of(alloc, &[])?;
    let made = run_over(alloc, &mut host, &["new", "7"], b"", &[])?;
    let end = run_over(alloc, &mut host, &["run"], case.text.as_bytes(), &[])?;
    let is_ended = made.status == Status::Ok && end.status == Status::Ok;
    Ok(is_ended && end.told.as_str() == case.told.as_str())
}

/// The first of a hundred texts of which something else is told.
fn first_untold(alloc: Global) -> Result<Option<u64>, Fail> {
    let mut random = Random { state: 1 };
    for case in 0..100 {
        if !is_told(alloc, &mut random)? {
            return Ok(Some(case));
        }
    }
    Ok(None)
}

#[test]
fn questions_of_random_texts_are_answered(rt: HostRuntime) -> Result<(), Fail> {
    assert_eq!(rt; first_untold(rt.alloc())?, None);
    Ok(())
}
