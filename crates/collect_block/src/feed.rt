ghost use Rattle.std.specs.Prelude.{◌≡◌, ◌<◌, ◌-◌, ◌^◌, ℕ, ℤ, Bool, Option, min, length, [], ◌∷◌, List, Some, None, true, false, is_some, MatchResult, IfSome, IfOk, OnOk, OnErr, IsErrOf};
ghost use Rattle.history.specs.Looking.{with_grid};
ghost use Rattle.history.specs.Refusal.{refusal, is_unfinished};
ghost use Rattle.history.specs.Registry.{Registry as Definitions};
ghost use Rattle.history.specs.declared.fault.BlockFault.TheVariants.{Unfinished};
ghost use Rattle.history.specs.declared.line.Line.{Line as ALine};
ghost use Rattle.history.specs.declared.line.Line.TheVariants as line;
ghost use Rattle.collect_block.specs.Feed.{IsFeedOf, IsPlaced, Becomes, ClosesNone, CountsAt, CountsFor, CountsPast, RefusedBy, step_of, skips};

use crate::beat_tables::BeatTables;
use crate::block::Block;
use crate::block_values::BlockValues;
use crate::step::Step;
use chart_registry::Registry;
use fixed_num::Text;
use history::{BlockFault, ChartDef, DimDef, Line, OpenDim};
use std::alloc::{AllocError, Global};

/// What is kept of the lines of a text: its open beat and block, and the chart of its last CHART line. The
/// open beat counts those of its definitions that the registry did not have.
#[derive(Drop)]
pub struct Feed {
    pub(crate) alloc: Global,
    pub(crate) every: u32,
    pub(crate) chart: Option<Text>,
    pub(crate) block: Option<Block>,
    // The number that the registry gave the chart of the last BEGIN: where a registry has that chart at
    // it, the chart is not looked up for each SET.
    pub(crate) number: Option<u32>,
    pub(crate) beat: BeatTables,
    pub(crate) skipped: u64,
}

impl Feed {
    /// The feed of a text from its first line on. `every` is the update_every of the charts whose line
    /// leaves it open, 1 to 86,400 seconds.
    pub fn new(alloc: Global, every: u32) -> Feed
        requires { 0 < every }
        ensures feed { IsFeedOf result every [] }
        ensures counts { (registry : Definitions) → CountsFor result registry }
    {
        Feed {
            alloc,
            every,
            chart: None,
            block: None,
            number: None,
            beat: BeatTables::new(alloc),
            skipped: 0,
        }
    }

    /// Takes the next line of the text. `registry`, `last` and `copies` are of the history so far: its
    /// charts and dimensions, its last moment, and whether it has copied beats or gaps. After an `Err`
    /// all is as before. Memory is never short at a MOMENT.
    ///
    /// The feed counts the definitions of its open beat that the registry did not have when they were made.
    /// Whether there is room for a chart or a dimension is told rightly where `registry` has all charts and
    /// dimensions of those that the feed was handed since its beat was opened; else a definition may be
    /// taken for which there is none.
    pub fn take_line(
        &mut self,
        registry: &Registry,
        last: u32,
        copies: bool,
        line: Line,
    ) -> Result<Step, BlockFault>
        ensures refused { (every : ℕ) (past : List ALine) → IsFeedOf self.old every past
            → CountsAt line self.old registry.now
            → let reason = refusal registry.now every past copies last line in
            MatchResult result (λ _. reason ≡ None) (RefusedBy reason) }
        ensures short { (every : ℕ) (past : List ALine) → IsFeedOf self.old every past
            → IsErrOf result BlockFault.Memory → ClosesNone line }
        ensures gives { IfOk result (λ step. (every : ℕ) (past : List ALine)
            → IsFeedOf self.old every past → step ≡ step_of every past line) }
        ensures taken { OnOk result (Becomes line self.old self.new) }
        ensures counts { OnOk result (CountsFor self.old registry.now
            → CountsPast line self.new registry.now) }
        ensures err { OnErr result (self.new ≡ self.old) }
    {
        match self.refusal(registry, last, copies, &line) {
            Some(fault) => Err(fault),
            None => {
                let step = self.take(registry, line)?;
                Ok(step)
            }
        }
    }

    /// Takes the next line of the text by `take_line`, and leaves it to the caller: what the feed keeps of
    /// it is a copy. A line that is refused is not copied, nor is a MOMENT.
    pub fn line(
        &mut self,
        registry: &Registry,
        last: u32,
        copies: bool,
        line: &Line,
    ) -> Result<Step, BlockFault>
        ensures refused { (every : ℕ) (past : List ALine) → IsFeedOf self.old every past
            → CountsAt line.now self.old registry.now →
            let reason = refusal registry.now every past copies last line.now in MatchResult result
            (λ _. reason ≡ None) (RefusedBy reason) }
        ensures short { (every : ℕ) (past : List ALine) → IsFeedOf self.old every past
            → IsErrOf result BlockFault.Memory → ClosesNone line.now }
        ensures gives { IfOk result
            (λ step. (every : ℕ) (past : List ALine) → IsFeedOf self.old every past
            → step ≡ step_of every past line.now) }
        ensures taken { OnOk result (Becomes line.now self.old self.new) }
        ensures counts { OnOk result
            (CountsFor self.old registry.now → CountsPast line.now self.new registry.now) }
        ensures err { OnErr result (self.new ≡ self.old) }
    {
        match self.refusal(registry, last, copies, line) {
            Some(fault) => Err(fault),
            None => {
                let step = self.take_copy(registry, line)?;
                Ok(step)
            }
        }
    }

    /// Whether the text may end here, with these bytes behind its last line feed: `Unfinished` where the
    /// open beat has a definition, a row or an open block, or where there are such bytes.
    pub fn end(&self, rest: &[u8]) -> Result<(), BlockFault>
        ensures { (every : ℕ) (past : List ALine) → IsFeedOf self.now every past
            → MatchResult result
            (λ _. is_unfinished every past rest.now ≡ false)
            (λ fault. (is_unfinished every past rest.now ≡ true) × (fault ≡ Unfinished)) }
    {
        if self.block.is_some() || !self.beat.is_empty() || !rest.is_empty() {
            Err(BlockFault::Unfinished)
        } else {
            Ok(())
        }
    }

    /// How many lines said nothing: at most 2^64 - 1.
    pub fn skipped(&self) -> u64
        ensures { (every : ℕ) (past : List ALine) → IsFeedOf self.now every past
            → result ≡ min (skips past) (2 ^ 64 - 1) }
    {
        self.skipped
    }

    // ---- why a line may not stand here

    fn refusal(
        &self,
        registry: &Registry,
        last: u32,
        copies: bool,
        line: &Line,
    ) -> Option<BlockFault>
        ensures reason { (every : ℕ) (past : List ALine) → IsFeedOf self.now every past
            → CountsAt line.now self.now registry.now
            → result ≡ refusal registry.now every past copies last line.now }
        ensures placed { result ≡ None → IsPlaced line.now self.now }
    {
        match line {
            Line::Chart(def) => self.chart_refusal(registry, def),
            Line::Dimension(def) => self.dimension_refusal(registry, def),
            Line::Begin(chart) => self.begin_refusal(registry, chart.as_str()),
            Line::Set { id, .. } => self.set_refusal(registry, id.as_str()),
            Line::End => self.end_refusal(),
            Line::Moment(moment) => self.moment_refusal(registry, last, copies, *moment),
            Line::Flush | Line::Disable | Line::Query(_) | Line::Skipped => None,
        }
    }

    fn chart_refusal(&self, registry: &Registry, def: &ChartDef) -> Option<BlockFault>
        ensures { (every : ℕ) (past : List ALine) (copies : Bool) (last : ℕ)
            → IsFeedOf self.now every past → CountsFor self.now registry.now
            → result ≡ refusal registry.now every past copies last (line.Chart def.now) }
    {
        if self.block.is_some() {
            return Some(BlockFault::OpenBlock);
        }
        let update_every = self.grid_of(def);
        self.beat
            .chart_refusal(registry, def.id.as_str(), update_every)
    }

    /// The update_every of a definition, or the feed's where the line leaves it open.
    fn grid_of(&self, def: &ChartDef) -> u32
        ensures { (every : ℕ) → self.now.every ≡ every
            → result ≡ (with_grid every def.now).update_every }
    {
        if def.update_every == 0 {
            self.every
        } else {
            def.update_every
        }
    }

    fn dimension_refusal(&self, registry: &Registry, def: &DimDef) -> Option<BlockFault>
        ensures reason { (every : ℕ) (past : List ALine) (copies : Bool) (last : ℕ)
            → IsFeedOf self.now every past → CountsFor self.now registry.now
            → result ≡ refusal registry.now every past copies last (line.Dimension def.now) }
        ensures placed { result ≡ None → is_some self.now.chart ≡ true }
    {
        if self.block.is_some() {
            return Some(BlockFault::OpenBlock);
        }
        match &self.chart {
            Some(chart) => self
                .beat
                .dimension_refusal(registry, chart.as_str(), def.id.as_str()),
            None => Some(BlockFault::NoChart),
        }
    }

    fn begin_refusal(&self, registry: &Registry, chart: &str) -> Option<BlockFault>
        ensures { (every : ℕ) (past : List ALine) (copies : Bool) (last : ℕ)
            → IsFeedOf self.now every past
            → result ≡ refusal registry.now every past copies last (line.Begin chart.now) }
    {
        if self.block.is_some() {
            Some(BlockFault::OpenBlock)
        } else if !self.beat.has_chart(registry, chart) {
            Some(BlockFault::NoChart)
        } else if self.beat.rows.has(chart) {
            Some(BlockFault::SecondBlock)
        } else {
            None
        }
    }

    fn set_refusal(&self, registry: &Registry, id: &str) -> Option<BlockFault>
        ensures reason { (every : ℕ) (past : List ALine) (copies : Bool) (last : ℕ)
            (value : Option ℤ) (anomalous : Bool) → IsFeedOf self.now every past
            → result ≡ refusal registry.now every past copies last
            (line.Set id.now value anomalous) }
        ensures placed { result ≡ None → is_some self.now.block ≡ true }
    {
        let Some(block) = &self.block else {
            return Some(BlockFault::NoBlock);
        };
        let chart = block.chart.as_str();
        if self.beat.has_dimension_at(registry, self.number, chart, id) {
            None
        } else {
            Some(BlockFault::NoDimension)
        }
    }

    fn end_refusal(&self) -> Option<BlockFault>
        ensures reason { (registry : Definitions) (every : ℕ) (past : List ALine) (copies : Bool)
            (last : ℕ) → IsFeedOf self.now every past
            → result ≡ refusal registry every past copies last line.End }
        ensures placed { result ≡ None → is_some self.now.block ≡ true }
    {
        match &self.block {
            Some(_) => None,
            None => Some(BlockFault::NoBlock),
        }
    }

    fn moment_refusal(
        &self,
        registry: &Registry,
        last: u32,
        copies: bool,
        moment: u32,
    ) -> Option<BlockFault>
        ensures { (every : ℕ) (past : List ALine) → IsFeedOf self.now every past
            → result ≡ refusal registry.now every past copies last (line.Moment moment) }
    {
        if self.block.is_some() {
            Some(BlockFault::OpenBlock)
        } else if copies {
            Some(BlockFault::MixedRoles)
        } else if moment <= last {
            Some(BlockFault::MomentOrder(last))
        } else if self.beat.is_off_grid(registry, moment) {
            Some(BlockFault::OffGrid)
        } else {
            None
        }
    }

    // ---- what a line leaves, where it may stand here

    // The same for a line that stays the caller's.
    fn take_copy(&mut self, registry: &Registry, line: &Line) -> Result<Step, AllocError>
        requires { IsPlaced line.now self.old }
        ensures gives { IfOk result (λ step. (every : ℕ) (past : List ALine)
            → IsFeedOf self.old every past → step ≡ step_of every past line.now) }
        ensures taken { OnOk result (Becomes line.now self.old self.new) }
        ensures counts { OnOk result (CountsFor self.old registry.now
            → CountsPast line.now self.new registry.now) }
        ensures err { OnErr result (self.new ≡ self.old) }
        ensures short { OnErr result (ClosesNone line.now) }
    {
        match line {
            Line::Moment(moment) => Ok(self.close(*moment)),
            _ => self.take(registry, line.clone()?),
        }
    }

    fn take(&mut self, registry: &Registry, line: Line) -> Result<Step, AllocError>
        requires { IsPlaced line self.old }
        ensures gives { IfOk result (λ step. (every : ℕ) (past : List ALine)
            → IsFeedOf self.old every past → step ≡ step_of every past line) }
        ensures taken { OnOk result (Becomes line self.old self.new) }
        ensures counts { OnOk result (CountsFor self.old registry.now
            → CountsPast line self.new registry.now) }
        ensures err { OnErr result (self.new ≡ self.old) }
        ensures short { OnErr result (ClosesNone line) }
    {
        match line {
            Line::Moment(moment) => return Ok(self.close(moment)),
            Line::Query(text) => return Ok(Step::Query(text)),
            Line::Disable => return Ok(Step::Disabled),
            Line::Chart(def) => self.define_chart(registry, def)?,
            Line::Dimension(def) => self.define_dimension(registry, def)?,
            Line::Begin(chart) => self.begin(registry, chart)?,
            Line::Set {
                id,
                value,
                anomalous,
            } => self.set(id, value, anomalous)?,
            Line::End => self.end_block()?,
            Line::Flush => self.block = None,
            Line::Skipped => self.skipped = self.skipped.saturating_add(1),
        }
        Ok(Step::Nothing)
    }

    fn close(&mut self, moment: u32) -> Step
        ensures gives { (every : ℕ) (past : List ALine) → IsFeedOf self.old every past
            → result ≡ step_of every past (line.Moment moment) }
        ensures taken { Becomes (line.Moment moment) self.old self.new }
        ensures counts { (registry : Definitions) → CountsFor self.new registry }
    {
        Step::Beat(self.beat.close(), moment)
    }

    fn define_chart(&mut self, registry: &Registry, mut def: ChartDef) -> Result<(), AllocError>
        ensures taken { OnOk result (Becomes (line.Chart def) self.old self.new) }
        ensures counts { OnOk result
            (CountsFor self.old registry.now → CountsFor self.new registry.now) }
        ensures err { OnErr result (self.new ≡ self.old) }
    {
        let id = def.id.clone()?;
        def.update_every = self.grid_of(&def);
        self.beat.define_chart(registry, def)?;
        self.chart = Some(id);
        Ok(())
    }

    fn define_dimension(&mut self, registry: &Registry, def: DimDef) -> Result<(), AllocError>
        requires { is_some self.old.chart ≡ true }
        ensures taken { OnOk result (Becomes (line.Dimension def) self.old self.new) }
        ensures counts { OnOk result
            (CountsFor self.old registry.now → CountsFor self.new registry.now) }
        ensures err { OnErr result (self.new ≡ self.old) }
    {
        let chart = self.chart.as_ref().unwrap().clone()?;
        self.beat.define_dimension(registry, OpenDim { chart, def })
    }

    fn begin(&mut self, registry: &Registry, chart: Text) -> Result<(), AllocError>
        ensures taken { OnOk result (Becomes (line.Begin chart) self.old self.new) }
        ensures counts { OnOk result ((registry : Definitions) → CountsFor self.old registry
            → CountsFor self.new registry) }
        ensures err { OnErr result (self.new ≡ self.old) }
    {
        let number = registry.chart_of(chart.as_str());
        let room = self.most_values(registry, number, chart.as_str());
        let values = BlockValues::with_room(self.alloc, room)?;
        self.block = Some(Block { chart, values });
        self.number = number;
        Ok(())
    }

    // How many dimensions of a chart a block may set, at most: room for so many is made at its BEGIN, so
    // that no SET has to. A dimension that the registry has and the beat defines anew counts twice.
    fn most_values(&self, registry: &Registry, number: Option<u32>, chart: &str) -> usize
        requires { IfSome number (λ number. number < length registry.now.charts) }
    {
        let known = match number {
            Some(number) => registry.dimensions_of(number) as usize,
            None => 0,
        };
        known.saturating_add(self.beat.dimensions.count_of(chart))
    }

    fn set(&mut self, id: Text, value: Option<i64>, anomalous: bool) -> Result<(), AllocError>
        requires { is_some self.old.block ≡ true }
        ensures taken { OnOk result (Becomes (line.Set id value anomalous) self.old self.new) }
        ensures counts { OnOk result ((registry : Definitions) → CountsFor self.old registry
            → CountsFor self.new registry) }
        ensures err { OnErr result (self.new ≡ self.old) }
    {
        let block = self.block.as_mut().unwrap();
        block.values.set(id, value, anomalous)
    }

    fn end_block(&mut self) -> Result<(), AllocError>
        requires { is_some self.old.block ≡ true }
        ensures taken { OnOk result (Becomes line.End self.old self.new) }
        ensures counts { OnOk result
            ((registry : Definitions) → CountsFor self.old registry → CountsFor self.new registry) }
        ensures err { OnErr result (self.new ≡ self.old) }
    {
        let block = self.block.take().unwrap();
        match self.beat.rows.add(block) {
            Ok(()) => Ok(()),
            Err(block) => {
                self.block = Some(block);
                Err(AllocError)
            }
        }
    }
}
