//! The rules of collectors, written once more: what is put of the lines that children write.

use plugin_runner::{RunFault, Turn};
use std::alloc::{AllocError, Global};

/// No line has more bytes.
const LONGEST: usize = 8_192;

/// No moment is so late.
const TOO_LATE: u64 = 4_294_967_296;

/// What a line says to a collector.
#[derive(Clone, Copy, Debug)]
pub enum Said {
    /// It defines, sets a value, asks, is skipped or is refused.
    Other,
    Begin(&'static str),
    End,
    Flush,
    Moment(u64),
    Disable,
}

/// A collector, by the lines of its children so far.
#[derive(Drop)]
pub struct Plain {
    pub alloc: Global,
    pub every: u64,
    pub starts: u64,
    /// What the clock gives, of which the last one is repeated, and where it stands.
    pub readings: Vec<u64>,
    pub next: usize,
    /// How many children were started.
    pub started: u64,
    pub last: u64,
    /// Whether the open beat has a BEGIN, and what the clock read then.
    pub begun: bool,
    pub reading: u64,
    /// The chart of the open block, and those with a row in the open beat.
    pub block: Option<&'static str>,
    pub rows: Vec<&'static str>,
    /// All that is put.
    pub text: Vec<u8>,
    /// What the last turn answers, once that is known.
    pub outcome: Option<Result<Turn, RunFault>>,
}

impl Plain {
    /// The clock's next reading.
    pub fn read_clock(&mut self) -> u64 {
        let reading = self.readings.get(self.next).copied().unwrap_or(0);
        let later = self.next.saturating_add(1);
        if later < self.readings.len() {
            self.next = later;
        }
        reading
    }

    fn note(&mut self, said: Said) -> Result<(), AllocError> {
        match said {
            Said::Other => {}
            Said::Begin(chart) => {
                if !self.begun {
                    self.reading = self.read_clock();
                }
                self.begun = true;
                self.block = Some(chart);
            }
            Said::End => {
                if let Some(chart) = self.block.take() {
                    self.rows.push(chart)?;
                }
            }
            Said::Flush => self.block = None,
            Said::Moment(moment) => {
                self.last = moment;
                self.begun = false;
                self.rows.clear();
            }
            Said::Disable => self.outcome = Some(Err(RunFault::Disabled(None))),
        }
        Ok(())
    }

    fn put(&mut self, line: &[u8], said: Said) -> Result<(), AllocError> {
        self.text.extend_from_slice(line)?;
        self.text.push(b'\n')?;
        self.note(said)
    }

    /// The multiple of `every` up to the reading, or the first one above the last moment.
    fn moment(&self) -> u64 {
        let every = self.every.max(1);
        let at_clock = (self.reading / every).saturating_mul(every);
        let above = (self.last / every).saturating_add(1).saturating_mul(every);
        at_clock.max(above).min(TOO_LATE)
    }

    fn put_moment(&mut self) -> Result<(), AllocError> {
        let moment = self.moment();
        let line = format!(in self.alloc; "MOMENT {moment}")?;
        let said = if moment < TOO_LATE {
            Said::Moment(moment)
        } else {
            Said::Other
        };
        self.put(line.as_bytes(), said)
    }

    fn is_due(&self, said: Said) -> bool {
        match said {
            Said::Begin(chart) => self.rows.as_slice().contains(&chart),
            _ => false,
        }
    }

    /// A child is started, where another one still is.
    pub fn start(&mut self) {
        if self.outcome.is_none() {
            self.started = self.started.saturating_add(1);
        }
    }

    /// A child writes a line.
    pub fn line(&mut self, line: &[u8], said: Said) -> Result<(), AllocError> {
        if self.outcome.is_some() {
            return Ok(());
        }
        if line.len() > LONGEST {
            return self.rest(line);
        }
        if self.is_due(said) {
            self.put_moment()?;
        }
        self.put(line, said)
    }

    /// A child ends behind bytes without a line feed, which are dropped where a line may have so
    /// many.
    pub fn rest(&mut self, rest: &[u8]) -> Result<(), AllocError> {
        if self.outcome.is_none() && rest.len() > LONGEST {
            self.text.extend_from_slice(&rest[..LONGEST + 1])?;
            self.outcome = Some(Ok(Turn::Ended));
        }
        Ok(())
    }

    /// A child ends with this status.
    pub fn end(&mut self, status: i32) -> Result<(), AllocError> {
        if self.outcome.is_some() {
            return Ok(());
        }
        if self.block.is_some() {
            self.put(b"FLUSH", Said::Flush)?;
        }
        if !self.rows.is_empty() {
            self.put_moment()?;
        }
        if status != 0 {
            self.outcome = Some(Err(RunFault::Disabled(Some(status))));
        } else if self.started == self.starts {
            self.outcome = Some(Ok(Turn::Ended));
        }
        Ok(())
    }

    /// What the last turn answers: where a start is left, there is no child for it.
    pub fn answer(&self) -> Result<Turn, RunFault> {
        self.outcome.unwrap_or(Err(RunFault::SpawnFault))
    }
}
