ghost use Rattle.std.specs.Prelude.{◌<◌, IfOk};

use alarm_core::{
    Alarms, Delay, EventList, Latest, Log, SeriesPointList, SeriesValueList, Status, write_event,
};
use alarm_events::{KeptAlarms, SHOWN};
use chart_registry::Registry;
use fixed_num::{Frac, Text, Units};
use health_config::Config;
use history::{Algorithm, ChartDef, ChartKind, DimDef, NumberedChart, NumberedDimension};
use query_engine::{ListPoints, MomentList, Point, PointList, SeriesPointsList};
use std::alloc::{AllocError, Global};
use std::process::Abort;
use std::test::Fail;
use storage_number::pack;

mod plain;
mod random;

fn chart_def(alloc: Global, id: &str, name: &str, context: &str) -> Result<ChartDef, AllocError>
    ensures { IfOk result (λ def. 0 < def.update_every) }
{
    Ok(ChartDef {
        id: Text::from_str(alloc, id)?,
        name: Text::from_str(alloc, name)?,
        title: Text::new(alloc),
        units: Text::new(alloc),
        family: Text::new(alloc),
        context: Text::from_str(alloc, context)?,
        kind: ChartKind::Line,
        priority: 1_000,
        update_every: 5,
        store_first: false,
    })
}

fn dim_def(alloc: Global, id: &str, name: &str, hidden: bool) -> Result<DimDef, AllocError> {
    Ok(DimDef {
        id: Text::from_str(alloc, id)?,
        name: Text::from_str(alloc, name)?,
        algorithm: Algorithm::Absolute,
        multiplier: 1,
        divisor: 1,
        hidden,
        noreset: false,
    })
}

/// The point of a value at a moment.
fn point(moment: u32, value: i32) -> Point {
    let word = pack(
        Frac {
            num: Units::from(value),
            den: 1,
        },
        false,
        false,
    );
    Point { moment, word }
}

// Each call stands in a function of its own that promises nothing, so that a test's proof carries little.

fn new_alarms(alloc: Global) -> Result<Alarms, Fail> {
    Ok(Alarms::new(alloc)?)
}

fn read_config(alloc: Global, text: &str) -> Result<Config, Fail> {
    Ok(Config::read(alloc, text.as_bytes())?)
}

fn configured(
    alarms: &mut Alarms,
    config: Config,
    registry: &Registry,
    moment: u32,
) -> Result<EventList, Fail> {
    Ok(alarms.configure(config, registry, moment)?)
}

fn stepped(
    alarms: &mut Alarms,
    moment: u32,
    registry: &Registry,
    latest: &Latest,
    points: &mut ListPoints,
) -> Result<EventList, Fail> {
    Ok(alarms.step(moment, registry, latest, points)?)
}

fn kept_of(alarms: &Alarms) -> Result<KeptAlarms, Fail> {
    Ok(alarms.keep()?)
}

fn alarms_of(alloc: Global, kept: &KeptAlarms, registry: &Registry) -> Result<Alarms, Fail> {
    if kept.events.len() > SHOWN {
        return Err(Fail::from("more events are kept than a log shows"));
    }
    Ok(Alarms::from_kept(alloc, kept, registry)?)
}

fn log_of(alarms: &Alarms) -> Result<Log, Fail> {
    Ok(alarms.log()?)
}

/// The lines of events.
fn lines(alloc: Global, events: &EventList) -> Result<String, Fail> {
    let mut text = String::new(alloc);
    for event in events.as_slice() {
        text.push_str(write_event(alloc, event)?.as_str())?;
    }
    Ok(text)
}
