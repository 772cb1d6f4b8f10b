//! What a line of an entity sets.
ghost use Rattle.std.specs.Prelude.{◌≡◌, Ok, IfOk, IfErr};
ghost use Rattle.health_expr.specs.TreeOf.{tree_of};
ghost use Rattle.health_config.specs.Fault.{IsFaultFor};
ghost use Rattle.health_config.specs.Setting as spec;
ghost use Rattle.health_config.specs.Setting.{setting_of};

use crate::delay::{Delay, read_delay};
use crate::fault::ValueFault;
use crate::key::{is_ignored, key_value, text_of};
use crate::lookup::{LookupLine, read_lookup};
use crate::number::{duration, number};
use fixed_num::{Text, Units};
use health_expr::{Expr, ExprFault};
use std::alloc::Global;
use words::is_blank;

/// The most seconds between two computations of an alarm.
const LONGEST_EVERY: u32 = 86_400;

/// The keys that are read in an entity.
#[derive(Clone, Copy, Debug)]
pub enum Key {
    On,
    Lookup,
    Calc,
    Warn,
    Crit,
    Every,
    Green,
    Red,
    Units,
    Info,
    To,
    Delay,
    Options,
    /// Any other, which is skipped.
    Other,
}

/// What a line sets.
#[derive(Debug, Drop)]
pub enum Setting {
    On(Text),
    Lookup(LookupLine),
    Calc(Expr),
    Warn(Expr),
    Crit(Expr),
    Every(u32),
    Green(Units),
    Red(Units),
    Units(Text),
    Info(Text),
    To(Text),
    Delay(Delay),
    /// Whether `no-clear-notification` is given.
    Options(bool),
    /// A key that is skipped.
    Skipped,
    /// A line that says nothing.
    Nothing,
}

fn key_of(word: &str) -> Key
    ensures { result ≡ spec.key_of word.now }
{
    match word {
        "on" => Key::On,
        "lookup" => Key::Lookup,
        "calc" => Key::Calc,
        "warn" => Key::Warn,
        "crit" => Key::Crit,
        "every" => Key::Every,
        "green" => Key::Green,
        "red" => Key::Red,
        "units" => Key::Units,
        "info" => Key::Info,
        "to" => Key::To,
        "delay" => Key::Delay,
        "options" => Key::Options,
        _ => Key::Other,
    }
}

/// A copy of a value.
fn copied(alloc: Global, text: &str) -> Result<Text, ValueFault>
    ensures ok { IfOk result (λ copy. copy ≡ text.now) }
    ensures memory { IfErr result (λ fault. fault ≡ ValueFault.Memory) }
{
    Text::from_str(alloc, text).map_err(|_| ValueFault::Memory)
}

/// An expression.
fn expression(alloc: Global, text: &str) -> Result<Expr, ValueFault>
    ensures ok { IfOk result (λ expr. spec.expression text.now ≡ Ok (tree_of expr)) }
    ensures fault { IfErr result (IsFaultFor (spec.expression text.now)) }
{
    match Expr::read(alloc, text) {
        Ok(expr) => Ok(expr),
        Err(ExprFault::Memory) => Err(ValueFault::Memory),
        Err(_) => Err(ValueFault::Bad),
    }
}

/// Whether `no-clear-notification` is among the words of a text.
fn no_clear(text: &str) -> bool
    ensures { result ≡ spec.no_clear text.now }
{
    text.as_bytes()
        .split(|byte| is_blank(*byte))
        .any(|word| word == b"no-clear-notification".as_slice())
}

/// What a value says for its key.
fn read_value(alloc: Global, key: Key, text: &str) -> Result<Setting, ValueFault>
    ensures ok { IfOk result (λ setting. spec.value_read key text.now ≡ Ok (setting_of setting)) }
    ensures fault { IfErr result (IsFaultFor (spec.value_read key text.now)) }
{
    match key {
        Key::On => Ok(Setting::On(copied(alloc, text)?)),
        Key::Lookup => Ok(Setting::Lookup(read_lookup(alloc, text)?)),
        Key::Calc => Ok(Setting::Calc(expression(alloc, text)?)),
        Key::Warn => Ok(Setting::Warn(expression(alloc, text)?)),
        Key::Crit => Ok(Setting::Crit(expression(alloc, text)?)),
        Key::Every => Ok(Setting::Every(duration(text.as_bytes(), 1, LONGEST_EVERY)?)),
        Key::Green => Ok(Setting::Green(number(text.as_bytes())?)),
        Key::Red => Ok(Setting::Red(number(text.as_bytes())?)),
        Key::Units => Ok(Setting::Units(copied(alloc, text)?)),
        Key::Info => Ok(Setting::Info(copied(alloc, text)?)),
        Key::To => Ok(Setting::To(copied(alloc, text)?)),
        Key::Delay => Ok(Setting::Delay(read_delay(text)?)),
        Key::Options => Ok(Setting::Options(no_clear(text))),
        Key::Other => Ok(Setting::Skipped),
    }
}

/// What a line says in an entity, or before the first one, where keys are not read.
#[tactic(auto, unfolding(crate::specs::Setting::line_read))]
pub fn read_line(alloc: Global, inside: bool, line: &[u8]) -> Result<Setting, ValueFault>
    ensures ok { IfOk result (λ setting. spec.line_read inside line.now ≡ Ok (setting_of setting)) }
    ensures fault { IfErr result (IsFaultFor (spec.line_read inside line.now)) }
{
    let text = text_of(line)?;
    if is_ignored(line) {
        return Ok(Setting::Nothing);
    }
    let (key, value) = key_value(text)?;
    if inside {
        read_value(alloc, key_of(key), value)
    } else {
        Ok(Setting::Skipped)
    }
}
