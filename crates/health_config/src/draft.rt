//! What the lines of an entity set together.
ghost use Rattle.std.specs.Prelude.{◌≡◌, ◌<◌, ◌≤◌, ◌+◌, ◌-◌, ◌^◌, [], length, Ok, IfOk, IfErr, OnOk};
ghost use Rattle.health_config.specs.Fault.{IsRefusalFor};
ghost use Rattle.health_config.specs.Setting.{setting_of, said_at};
ghost use Rattle.health_config.specs.Draft as spec;
ghost use Rattle.health_config.specs.Draft.{draft_of};

use crate::delay::Delay;
use crate::fault::ConfigFault;
use crate::lines::Line;
use crate::lookup::LookupLine;
use crate::setting::{Setting, read_line};
use fixed_num::{Text, Units};
use health_expr::Expr;
use std::alloc::Global;

/// What the lines so far set, for each key the last one.
#[derive(Debug, Drop)]
pub struct Draft {
    pub on: Option<Text>,
    pub lookup: Option<LookupLine>,
    pub calc: Option<Expr>,
    pub warn: Option<Expr>,
    pub crit: Option<Expr>,
    pub every: Option<u32>,
    pub green: Option<Units>,
    pub red: Option<Units>,
    pub units: Option<Text>,
    pub info: Option<Text>,
    pub to: Option<Text>,
    pub delay: Option<Delay>,
    pub no_clear: Option<bool>,
    /// How many keys were skipped.
    pub skipped: u64,
}

/// Nothing is set.
fn empty_draft() -> Draft
    ensures draft { draft_of result ≡ spec.drafted [] }
    ensures none { result.skipped ≡ 0 }
{
    Draft {
        on: None,
        lookup: None,
        calc: None,
        warn: None,
        crit: None,
        every: None,
        green: None,
        red: None,
        units: None,
        info: None,
        to: None,
        delay: None,
        no_clear: None,
        skipped: 0,
    }
}

/// One setting more, which takes the place of an earlier one of its key.
fn set(draft: &mut Draft, setting: Setting)
    requires { draft.old.skipped < 2 ^ 64 - 1 }
    ensures { draft_of draft.new ≡ spec.with (setting_of setting) (draft_of draft.old) }
{
    match setting {
        Setting::On(text) => draft.on = Some(text),
        Setting::Lookup(line) => draft.lookup = Some(line),
        Setting::Calc(expr) => draft.calc = Some(expr),
        Setting::Warn(expr) => draft.warn = Some(expr),
        Setting::Crit(expr) => draft.crit = Some(expr),
        Setting::Every(seconds) => draft.every = Some(seconds),
        Setting::Green(units) => draft.green = Some(units),
        Setting::Red(units) => draft.red = Some(units),
        Setting::Units(text) => draft.units = Some(text),
        Setting::Info(text) => draft.info = Some(text),
        Setting::To(text) => draft.to = Some(text),
        Setting::Delay(given) => draft.delay = Some(given),
        Setting::Options(no_clear) => draft.no_clear = Some(no_clear),
        Setting::Skipped => draft.skipped += 1,
        Setting::Nothing => {}
    }
}

/// Sets what a line says.
fn set_line(alloc: Global, inside: bool, line: &Line, draft: &mut Draft) -> Result<(), ConfigFault>
    requires { draft.old.skipped < 2 ^ 64 - 1 }
    ensures ok { OnOk result
        (spec.Sets (said_at inside line.now) (draft_of draft.old) (draft_of draft.new)) }
    ensures fault { IfErr result (IsRefusalFor (said_at inside line.now)) }
{
    match read_line(alloc, inside, line.text.as_slice()) {
        Ok(setting) => {
            set(draft, setting);
            Ok(())
        }
        Err(fault) => Err(fault.at(line.number)),
    }
}

/// What lines set in an entity, or before the first one. Of several refusals the first is told.
pub fn read_draft(alloc: Global, inside: bool, lines: &[Line]) -> Result<Draft, ConfigFault>
    requires { length lines.now < 2 ^ 63 }
    ensures ok { IfOk result (λ draft. spec.draft_read inside lines.now ≡ Ok (draft_of draft)) }
    ensures few { IfOk result (λ draft. draft.skipped ≤ length lines.now) }
    ensures fault { IfErr result (IsRefusalFor (spec.draft_read inside lines.now)) }
{
    let mut draft = empty_draft();
    let mut ahead = lines;
    while let Some((line, rest)) = ahead.split_first() {
        set_line(alloc, inside, line, &mut draft)?;
        ahead = rest;
    }
    Ok(draft)
}
