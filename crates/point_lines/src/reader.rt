ghost use Rattle.std.specs.Prelude.{◌≡◌, ◌+◌, ◌^◌, ◌<◌, ◌≤◌, ◌++◌, ℕ, List, [], ◌∷◌, length, string_bytes, true, false, None, IfOk, IfErr, OnOk, MatchResult};
ghost use Rattle.history.specs.declared.line.Line.{Line as ALine};
ghost use Rattle.history.specs.declared.line.Line.TheVariants as line;
ghost use Rattle.history.specs.Limits.{is_one_line, keeps_limits};
ghost use Rattle.history.specs.Numbered.{numbered_beat, IsThere};
ghost use Rattle.history.specs.Registry.{same_chart, same_dimension};
ghost use Rattle.history.specs.Regular.{AreApart, IsRegular};
ghost use Rattle.beat_entries.specs.Rules.{beat_refusal, with_beat, IsOpenBeat};
ghost use Rattle.beat_entries.specs.Taking.{IsFaultOf};
ghost use Rattle.collect_block.specs.declared.step.Step.TheVariants as step;
ghost use Rattle.plugin_text.specs.Line.{line as line_of};
ghost use Rattle.point_lines.specs.declared.stop.Stop.TheVariants as stop;
ghost use Rattle.point_lines.specs.Reader.{IsReaderOf, HasRoom, ReadsOrStops, EndsOr};
ghost use Rattle.point_lines.specs.Steps.{one_if, skips, Stepped, StepsOr, TakesOr};
ghost use Rattle.point_lines.specs.Closing.{HasTaken, TellsOf};
ghost use Rattle.point_lines.specs.Told.{told_at_end};

use crate::stop::Stop;
use crate::telling::push_points;
use beat_entries::{BeatFault, define_beat, judge_beat};
use beat_points::LastRows;
use chart_registry::Registry;
use collect_block::{Feed, Step};
use history::{Line, NumberedBeat, OpenBeat};
use plugin_text::{Refusal, read_line};
use std::alloc::{AllocError, Global};
use std::fmt::Write;

/// The update_every of the charts whose line leaves it open, in seconds.
const EVERY: u32 = history::USUAL_UPDATE_EVERY;

/// What is kept of the lines of a text.
#[derive(Drop)]
pub struct Reader {
    pub(crate) alloc: Global,
    pub(crate) lines: u64,
    pub(crate) skipped: u64,
    pub(crate) feed: Feed,
    pub(crate) registry: Registry,
    pub(crate) last_rows: LastRows,
    pub(crate) last: u32,
}

/// Whether a line is skipped: it says nothing to the agent, or asks for points.
fn is_skipped(line: &Line) -> bool
    ensures { one_if result ≡ skips line.now }
{
    matches!(line, Line::Skipped | Line::Query(_))
}

/// What a registry makes of a beat at `moment`, where nothing was copied and `last` is the last moment: its refusal, or
/// the beat by number, whose definitions it has taken.
fn take_beat(
    alloc: Global,
    registry: &mut Registry,
    last: u32,
    moment: u32,
    beat: &OpenBeat,
) -> Result<NumberedBeat, BeatFault>
    requires is_open { IsOpenBeat beat.now }
    requires charts { AreApart same_chart registry.old.charts }
    requires dimensions { AreApart same_dimension registry.old.dimensions }
    ensures taken { OnOk result (registry.new ≡ with_beat registry.old beat.now) }
    ensures numbered { IfOk result
        (λ numbered. numbered ≡ numbered_beat registry.new moment beat.now) }
    ensures judged { let reason = beat_refusal registry.old false last moment beat.now in
        MatchResult result (λ _. reason ≡ None) (IsFaultOf reason) }
    ensures regular { OnOk result (IsRegular registry.new beat.now) }
    ensures there { IfOk result (IsThere registry.new) }
{
    let numbered = judge_beat(alloc, registry, false, last, moment, beat)?;
    define_beat(registry, &numbered)?;
    Ok(numbered)
}

impl Reader {
    /// The reader of a text from its first line on.
    pub fn new(alloc: Global) -> Reader
        ensures { IsReaderOf result [] }
    {
        Reader {
            alloc,
            lines: 0,
            skipped: 0,
            feed: Feed::new(alloc, EVERY),
            registry: Registry::new(alloc),
            last_rows: LastRows::new(alloc),
            last: 0,
        }
    }

    /// How many lines were read.
    pub fn lines(&self) -> u64
        ensures { (past : List ALine) → IsReaderOf self.now past → result ≡ length past }
    {
        self.lines
    }

    /// Reads the next line, which stands there without its line feed, and adds what it tells to `out`.
    ///
    /// Where the line is refused or says DISABLE nothing is added, and without memory a part may be. After
    /// `Disabled` the reader has read the line, and after another `Err` it is spent.
    pub fn take_line(&mut self, bytes: &[u8], out: &mut String) -> Result<(), Stop>
        requires room { HasRoom self.old }
        requires whole { is_one_line bytes.now ≡ true }
        ensures { ReadsOrStops self.old bytes.now result self.new (string_bytes out.old)
            (string_bytes out.new) }
    {
        let line = read_line(self.alloc, bytes)?;
        self.take(line, out)
    }

    /// Whether the text may end here, with these bytes behind its last line feed: `Unfinished` where the
    /// open beat has a definition, a row or an open block, or where there are such bytes.
    pub fn end(&self, rest: &[u8]) -> Result<(), Refusal>
        ensures { EndsOr self.now rest.now result }
    {
        match self.feed.end(rest) {
            Ok(()) => Ok(()),
            Err(fault) => Err(Refusal::Block(fault)),
        }
    }

    /// Adds what is told at the end of the text: how many lines were skipped, if any.
    pub fn push_skipped(&self, out: &mut String) -> Result<(), AllocError>
        ensures { OnOk result ((past : List ALine) → IsReaderOf self.now past
            → string_bytes out.new ≡ string_bytes out.old ++ told_at_end past) }
    {
        if self.skipped == 0 {
            return Ok(());
        }
        writeln!(out, "SKIPPED {}", self.skipped)
    }

    // Reads a line that says this.
    fn take(&mut self, line: Line, out: &mut String) -> Result<(), Stop>
        requires room { HasRoom self.old }
        requires limits { keeps_limits line ≡ true }
        ensures { TakesOr self.old line result self.new (string_bytes out.old)
            (string_bytes out.new) }
    {
        let skipped = is_skipped(&line);
        let step = self.feed.take_line(&self.registry, self.last, false, line)?;
        self.count(skipped);
        self.take_step(step, out)
    }

    // Counts a line, and whether it says nothing to the agent.
    fn count(&mut self, skipped: bool)
        requires lines { self.old.lines < 2 ^ 63 }
        requires skips { self.old.skipped < 2 ^ 63 }
        ensures { self.new ≡ record self.old {
          lines = self.old.lines + 1;
          skipped = self.old.skipped + one_if skipped;
        } }
    {
        self.lines += 1;
        if skipped {
            self.skipped += 1;
        }
    }

    // Takes what a line led to.
    fn take_step(&mut self, step: Step, out: &mut String) -> Result<(), Stop>
        requires { (past : List ALine) × (said : ALine) × Stepped self.old past said step }
        ensures { (said : ALine) → StepsOr self.old said step result self.new (string_bytes out.old)
            (string_bytes out.new) }
    {
        match step {
            Step::Nothing | Step::Query(_) => Ok(()),
            Step::Disabled => Err(Stop::Disabled),
            Step::Beat(beat, moment) => self.close(&beat, moment, out),
        }
    }

    // Takes a beat that a MOMENT closed, and tells its points.
    fn close(&mut self, beat: &OpenBeat, moment: u32, out: &mut String) -> Result<(), Stop>
        requires { (past : List ALine)
            × Stepped self.old past (line.Moment moment) (step.Beat beat.now moment) }
        ensures { StepsOr self.old (line.Moment moment) (step.Beat beat.now moment) result self.new
            (string_bytes out.old) (string_bytes out.new) }
    {
        let numbered = take_beat(self.alloc, &mut self.registry, self.last, moment, beat)?;
        self.take_numbered(&numbered, out)
    }

    // Takes a beat by number, whose definitions the registry has, and tells its points.
    fn take_numbered(&mut self, beat: &NumberedBeat, out: &mut String) -> Result<(), Stop>
        requires { IsThere self.old.registry beat.now }
        ensures told { OnOk result
            (TellsOf self.old.registry self.old.last_rows beat.now (string_bytes out.old)
            (string_bytes out.new)) }
        ensures taken { OnOk result
            (HasTaken self.old.registry self.old.last_rows self.new.last_rows beat.now) }
        ensures same { OnOk result
            (self.new
            ≡ record self.old { last_rows = self.new.last_rows; last = beat.now.moment }) }
        ensures memory { IfErr result (λ fault. fault ≡ stop.Memory) }
    {
        self.tell(beat, out)?;
        self.last_rows.apply(&self.registry, beat)?;
        self.last = beat.moment;
        Ok(())
    }

    // Tells the points of a beat by number, whose definitions the registry has.
    fn tell(&self, beat: &NumberedBeat, out: &mut String) -> Result<(), Stop>
        requires { IsThere self.now.registry beat.now }
        ensures told { OnOk result (TellsOf self.now.registry self.now.last_rows beat.now
            (string_bytes out.old) (string_bytes out.new)) }
        ensures memory { IfErr result (λ fault. fault ≡ stop.Memory) }
    {
        let points = self.last_rows.points(self.alloc, &self.registry, beat)?;
        push_points(
            self.alloc,
            out,
            &self.registry,
            beat.moment,
            points.as_slice(),
        )?;
        Ok(())
    }
}
