//! An alarm of an entity's lines.
ghost use Rattle.std.specs.Prelude.{◌≡◌, [], option_map, unwrap_or, Ok, IfOk, IfErr};
ghost use Rattle.std.specs.List.{list_any};
ghost use Rattle.words.specs.Words.{is_blank};
ghost use Rattle.health_config.specs.Fault.{IsFaultFor};
ghost use Rattle.health_config.specs.Draft.{draft_of};
ghost use Rattle.health_config.specs.Entity as spec;
ghost use Rattle.health_config.specs.Entity.{alarm_of};

use crate::delay::Delay;
use crate::draft::Draft;
use crate::fault::ValueFault;
use crate::key::{key_value, text_of};
use crate::lookup::{Lookup, LookupLine};
use fixed_num::{ListOf, Text, Units};
use health_expr::Expr;
use std::alloc::Global;
use words::is_blank;

/// An alarm of one chart, or a template of alarms of many.
#[derive(Debug, Drop)]
pub struct Entity {
    /// 1 to `NAME_LIMIT` bytes without a blank.
    pub name: Text,
    /// It is for each chart of a context, and not for one chart.
    pub template: bool,
    /// A chart's id or name, or the context of a template.
    pub on: Text,
    pub lookup: Option<Lookup>,
    /// What the alarm is worth.
    pub calc: Option<Expr>,
    /// When it warns.
    pub warn: Option<Expr>,
    /// When it is critical.
    pub crit: Option<Expr>,
    /// How many seconds lie between two computations: up to `LONGEST_EVERY`, or up to
    /// `LONGEST_DURATION` where its lookup says it.
    pub every: u32,
    pub green: Option<Units>,
    pub red: Option<Units>,
    pub units: Text,
    pub info: Text,
    pub to: Text,
    /// How many seconds a rise is delayed, up to `LONGEST_DURATION`.
    pub up: u32,
    /// How many seconds a fall is delayed, up to `LONGEST_DURATION`.
    pub down: u32,
    /// By what a delay grows, from `LEAST_MULTIPLIER` to `GREATEST_MULTIPLIER`, in ten-millionths.
    pub multiplier: Units,
    /// The most seconds that a delay grows to, up to `LONGEST_DURATION`.
    pub max: Option<u32>,
    /// A fall to normal is not told.
    pub no_clear: bool,
}

/// Alarms in the order of their text.
pub type AlarmList = ListOf<Entity>;

/// The most bytes of a name.
pub const NAME_LIMIT: usize = 200;

/// A multiplier that lets a delay be.
const ONE: Units = 10_000_000;

fn has_blank(text: &str) -> bool
    ensures { result ≡ list_any is_blank text.now }
{
    text.as_bytes().iter().any(|byte| is_blank(*byte))
}

/// A name: 1 to `NAME_LIMIT` bytes without a blank.
fn checked_name(alloc: Global, value: &str) -> Result<Text, ValueFault>
    ensures ok { IfOk result (λ name. spec.name_read value.now ≡ Ok name) }
    ensures fault { IfErr result (IsFaultFor (spec.name_read value.now)) }
{
    if value.is_empty() {
        return Err(ValueFault::NoName);
    }
    if value.len() > NAME_LIMIT || has_blank(value) {
        return Err(ValueFault::Bad);
    }
    Text::from_str(alloc, value).map_err(|_| ValueFault::Memory)
}

/// The name that the first line of an entity gives.
#[tactic(auto, unfolding(crate::specs::Entity::name))]
pub fn read_name(alloc: Global, line: &[u8]) -> Result<Text, ValueFault>
    ensures ok { IfOk result (λ name. spec.name line.now ≡ Ok name) }
    ensures fault { IfErr result (IsFaultFor (spec.name line.now)) }
{
    let text = text_of(line)?;
    let (_, value) = key_value(text)?;
    checked_name(alloc, value)
}

/// How many seconds lie between two computations: as `every` says, else as the lookup says, else as long
/// as the span that it looks up.
fn every_of(draft: &Draft) -> Option<u32>
    ensures { result ≡ spec.every (draft_of draft.now) }
{
    if draft.every.is_some() {
        return draft.every;
    }
    match &draft.lookup {
        Some(line) => Some(line.every.unwrap_or(line.lookup.after)),
        None => None,
    }
}

/// A text, or the empty one.
fn text_or_empty(alloc: Global, text: Option<Text>) -> Text
    ensures { result ≡ unwrap_or text [] }
{
    match text {
        Some(text) => text,
        None => Text::new(alloc),
    }
}

/// A lookup without its line's rest.
fn lookup_of(line: Option<LookupLine>) -> Option<Lookup>
    ensures { result ≡ option_map (λ line. line.lookup) line }
{
    match line {
        Some(LookupLine { lookup, every: _ }) => Some(lookup),
        None => None,
    }
}

/// The alarm of what is set. `None` where nothing says how often it is computed.
pub fn alarm(alloc: Global, name: Text, template: bool, draft: Draft) -> Option<Entity>
    ensures { option_map alarm_of result ≡ spec.alarm name template (draft_of draft) }
{
    let every = every_of(&draft)?;
    let delay = draft.delay.unwrap_or(Delay {
        up: None,
        down: None,
        multiplier: None,
        max: None,
    });
    Some(Entity {
        name,
        template,
        on: text_or_empty(alloc, draft.on),
        lookup: lookup_of(draft.lookup),
        calc: draft.calc,
        warn: draft.warn,
        crit: draft.crit,
        every,
        green: draft.green,
        red: draft.red,
        units: text_or_empty(alloc, draft.units),
        info: text_or_empty(alloc, draft.info),
        to: text_or_empty(alloc, draft.to),
        up: delay.up.unwrap_or(0),
        down: delay.down.unwrap_or(0),
        multiplier: delay.multiplier.unwrap_or(ONE),
        max: delay.max,
        no_clear: draft.no_clear.unwrap_or(false),
    })
}
