ghost use Rattle.std.specs.Prelude.{◌≡◌, ◌<◌};

use fixed_num::{ListOf, Text};
use history::Line;
use host_model::Clock;
use std::alloc::{AllocError, Global};

/// What is kept of the lines of a text so far.
#[derive(Drop)]
pub(crate) struct Follower {
    pub(crate) alloc: Global,
    /// Moments that are put are multiples of so many seconds.
    pub(crate) every: u32,
    /// The last moment.
    pub(crate) last: u32,
    /// Whether the open beat has a BEGIN line.
    pub(crate) begun: bool,
    /// The clock's last reading, or 0.
    pub(crate) reading: u64,
    /// The chart of the open block.
    pub(crate) block: Option<Text>,
    /// The charts that have a row in the open beat.
    pub(crate) rows: ListOf<Text>,
    ghost grid: { 0 < every },
}

impl Follower {
    ghost use Rattle.std.specs.Prelude.{ℕ, List, [], ◌∷◌, OnOk, OnErr};
    ghost use Rattle.history.specs.declared.line.Line.{Line as ALine};
    ghost use Rattle.history.specs.declared.line.Line.TheVariants as line;
    ghost use Rattle.plugin_runner.specs.Follower.{Follows, Notes};
    ghost use Rattle.plugin_runner.specs.Text.{Origin};

    /// The follower of a text from its first line on, behind a history with this last moment.
    pub(crate) fn new(alloc: Global, every: u32, last: u32) -> Follower
        requires { 0 < every }
        ensures { Follows result (record { every = every; last = last }) [] [] }
    {
        Follower {
            alloc,
            every,
            last,
            begun: false,
            reading: 0,
            block: None,
            rows: ListOf::new(alloc),
        }
    }

    /// Takes the next line. At the first BEGIN of a beat it reads the clock.
    pub(crate) fn note<C: Clock>(&mut self, clock: &mut C, line: Line) -> Result<(), AllocError>
        ensures ok { OnOk result
            (Notes line self.old self.new (C.readings clock.old) (C.readings clock.new)) }
        ensures err { OnErr result (C.readings clock.new ≡ C.readings clock.old) }
    {
        match line {
            Line::Begin(chart) => {
                self.begin(clock, chart);
                Ok(())
            }
            Line::End => self.end(),
            Line::Flush => {
                self.block = None;
                Ok(())
            }
            Line::Moment(moment) => {
                self.close_beat(moment);
                Ok(())
            }
            Line::Chart(_)
            | Line::Dimension(_)
            | Line::Set { .. }
            | Line::Disable
            | Line::Query(_)
            | Line::Skipped => Ok(()),
        }
    }

    fn begin<C: Clock>(&mut self, clock: &mut C, chart: Text)
        ensures { Notes (line.Begin chart) self.old self.new
            (C.readings clock.old) (C.readings clock.new) }
    {
        if !self.begun {
            self.reading = clock.moment();
            self.begun = true;
        }
        self.block = Some(chart);
    }

    fn end(&mut self) -> Result<(), AllocError>
        ensures { OnOk result ((origin : Origin) (readings : List ℕ) (past : List ALine)
            → Follows self.old origin readings past
            → Follows self.new origin readings (line.End ∷ past)) }
    {
        if let Some(chart) = self.block.take() {
            self.rows.push(chart)?;
        }
        Ok(())
    }

    fn close_beat(&mut self, moment: u32)
        ensures { (origin : Origin) (readings : List ℕ) (past : List ALine)
            → Follows self.old origin readings past
            → Follows self.new origin readings (line.Moment moment ∷ past) }
    {
        self.last = moment;
        self.begun = false;
        self.rows.clear();
    }
}
