//! The tests of `health_config`: the alarms that texts say, or why they are refused.

use fixed_num::{Text, Units};
use health_config::{Config, ConfigFault, Entity, Lookup, Method};
use simple_pattern::Pattern;
use std::alloc::Global;
use std::test::Fail;

mod examples;
mod texts;
mod values;

fn method_name(method: Method) -> &'static str {
    match method {
        Method::Average => " average ",
        Method::Min => " min ",
        Method::Max => " max ",
        Method::Sum => " sum ",
        Method::Count => " count ",
        Method::AnomalyRate => " anomaly-rate ",
    }
}

fn push(out: &mut Text, text: &str) -> Result<(), Fail> {
    out.push_str(text)?;
    Ok(())
}

/// Adds a name and a number.
fn push_number(alloc: Global, out: &mut Text, name: &str, number: Units) -> Result<(), Fail> {
    let digits = format!(in alloc; "{name}{number}")?;
    push(out, digits.as_str())
}

fn push_some(alloc: Global, out: &mut Text, name: &str, number: Option<Units>) -> Result<(), Fail> {
    match number {
        Some(number) => push_number(alloc, out, name, number),
        None => Ok(()),
    }
}

/// Adds a word where it is so.
fn push_if(out: &mut Text, is_so: bool, word: &str) -> Result<(), Fail> {
    if is_so { push(out, word) } else { Ok(()) }
}

/// Adds the name of a text and the text, where it is not empty.
fn push_text(out: &mut Text, name: &str, text: &Text) -> Result<(), Fail> {
    if text.is_empty() {
        return Ok(());
    }
    push(out, name)?;
    push(out, text.as_str())
}

fn push_dims(out: &mut Text, dims: &Pattern) -> Result<(), Fail> {
    push(out, " of")?;
    for word in dims.words() {
        push(out, " ")?;
        push(out, word.as_str())?;
    }
    Ok(())
}

fn push_lookup(alloc: Global, out: &mut Text, lookup: &Lookup) -> Result<(), Fail> {
    let method = method_name(lookup.method);
    push_number(alloc, out, method, Units::from(lookup.after))?;
    push_number(alloc, out, " ", Units::from(lookup.before))?;
    push_if(out, lookup.absolute, " absolute")?;
    push_if(out, lookup.percentage, " percentage")?;
    push_if(out, lookup.min2max, " min2max")?;
    match &lookup.dims {
        Some(dims) => push_dims(out, dims),
        None => Ok(()),
    }
}

fn push_delay(alloc: Global, out: &mut Text, alarm: &Entity) -> Result<(), Fail> {
    if alarm.up == 0 && alarm.down == 0 && alarm.multiplier == 10_000_000 {
        return Ok(());
    }
    push_number(alloc, out, " up ", Units::from(alarm.up))?;
    push_number(alloc, out, " down ", Units::from(alarm.down))?;
    push_number(alloc, out, " by ", alarm.multiplier)
}

/// Adds what an alarm is, where it looks, and how often it is computed.
fn push_head(alloc: Global, out: &mut Text, alarm: &Entity) -> Result<(), Fail> {
    push(out, alarm.name.as_str())?;
    push_if(out, alarm.template, " template")?;
    push_text(out, " on ", &alarm.on)?;
    push_number(alloc, out, " every ", Units::from(alarm.every))?;
    match &alarm.lookup {
        Some(lookup) => push_lookup(alloc, out, lookup),
        None => Ok(()),
    }
}

fn push_levels(alloc: Global, out: &mut Text, alarm: &Entity) -> Result<(), Fail> {
    push_if(out, alarm.calc.is_some(), " calc")?;
    push_if(out, alarm.warn.is_some(), " warn")?;
    push_if(out, alarm.crit.is_some(), " crit")?;
    push_some(alloc, out, " green ", alarm.green)?;
    push_some(alloc, out, " red ", alarm.red)
}

fn push_texts(out: &mut Text, alarm: &Entity) -> Result<(), Fail> {
    push_text(out, " units ", &alarm.units)?;
    push_text(out, " info ", &alarm.info)?;
    push_text(out, " to ", &alarm.to)
}

/// Adds an alarm, without the fields that are as they are where nothing says them.
fn push_alarm(alloc: Global, out: &mut Text, alarm: &Entity) -> Result<(), Fail> {
    push_head(alloc, out, alarm)?;
    push_levels(alloc, out, alarm)?;
    push_texts(out, alarm)?;
    push_delay(alloc, out, alarm)?;
    push_some(alloc, out, " max ", alarm.max.map(Units::from))?;
    push_if(out, alarm.no_clear, " no-clear")?;
    push(out, "; ")
}

fn push_config(alloc: Global, out: &mut Text, config: &Config) -> Result<(), Fail> {
    for alarm in config.alarms().as_slice() {
        push_alarm(alloc, out, alarm)?;
    }
    push_number(alloc, out, "", Units::from(config.skipped()))
}

fn push_fault(alloc: Global, out: &mut Text, fault: ConfigFault) -> Result<(), Fail> {
    let number = fault.number().unwrap_or(0);
    let line = fault.line().unwrap_or(0);
    push_number(alloc, out, "refused ", Units::from(line))?;
    push_number(alloc, out, " ", Units::from(number))
}

/// The alarms of a text and how many keys were skipped, or the first refusal.
fn shown(alloc: Global, text: &[u8]) -> Result<Text, Fail> {
    let mut out = Text::new(alloc);
    match Config::read(alloc, text) {
        Ok(config) => push_config(alloc, &mut out, &config)?,
        Err(fault) => push_fault(alloc, &mut out, fault)?,
    }
    Ok(out)
}
