//! The variables of expressions.
ghost use Rattle.std.specs.Prelude.{◌≡◌, Some, find, slice_index, option_map};
ghost use Rattle.alarm_core.specs.Series as of_series;
ghost use Rattle.alarm_core.specs.Seen.{seen};
ghost use Rattle.alarm_core.specs.Variables as spec;

use crate::latest::Latest;
use crate::number::{ONE, capped, moment_or_nan, or_nan, whole};
use crate::scene::Scene;
use alarm_events::Status;
use chart_registry::Registry;
use fixed_num::Units;
use health_expr::{Value, Vars};
use query_engine::Point;
use storage_number::unpack;

/// The variables of a scene, where `$this` is worth so much.
#[derive(Drop)]
pub struct Variables<'a> {
    pub scene: &'a Scene<'a>,
    pub this: Value,
}

impl<'a> Vars for Variables<'a> {
    ghost use Rattle.alarm_core.specs.Seen.{seen};
    ghost use Rattle.alarm_core.specs.Variables.{variable};
    ghost use Rattle.alarm_core.specs.Within.{variable_within};

    ghost worth = { λ vars name. variable (seen vars.scene.now) vars.this name };

    fn value(&self, name: &str) -> Value {
        capped(named(self.scene, self.this, name))
    }

    ghost within = { λ vars name. variable_within (seen vars.scene.now) vars.this name };
}

/// What a status is worth.
fn status_worth(status: Status) -> Value
    ensures { result ≡ spec.status_worth status }
{
    Value::Fixed((Units::from(status.number()) - 2) * ONE)
}

fn status_named(name: &str) -> Option<Status>
    ensures { result ≡ spec.status_named name.now }
{
    match name {
        "REMOVED" => Some(Status::Removed),
        "UNDEFINED" => Some(Status::Undefined),
        "UNINITIALIZED" => Some(Status::Uninitialized),
        "CLEAR" => Some(Status::Clear),
        "WARNING" => Some(Status::Warning),
        "CRITICAL" => Some(Status::Critical),
        _ => None,
    }
}

/// What a point is worth.
fn point_worth(point: Point) -> Value
    ensures { result ≡ spec.point_worth (Some point) }
{
    match unpack(point.word) {
        Some(read) => Value::Fixed(read.units),
        None => Value::Nan,
    }
}

/// The value of a series' last point.
fn last_value(latest: &Latest, series: u32) -> Value
    ensures { result ≡ spec.last_value latest.now series }
{
    match latest.points.as_slice().get(series as usize) {
        Some(Some(point)) => point_worth(*point),
        _ => Value::Nan,
    }
}

/// A series' last collected value.
fn last_raw(latest: &Latest, series: u32) -> Value
    ensures { result ≡ spec.last_raw latest.now series }
{
    match latest.raws.as_slice().get(series as usize) {
        Some(Some(value)) => Value::Fixed(Units::from(*value) * ONE),
        _ => Value::Nan,
    }
}

/// The last moment of a chart.
fn last_moment(latest: &Latest, chart: u32) -> u32
    ensures { result ≡ slice_index latest.now.charts chart }
{
    match latest.charts.as_slice().get(chart as usize) {
        Some(moment) => *moment,
        None => 0,
    }
}

fn has_name(registry: &Registry, name: &str, series: u32) -> bool
    ensures { result ≡ of_series.has_name registry.now name.now series }
{
    series < registry.dimensions() && registry.dimension(series).name.as_str() == name
}

/// The first of some series with this name.
fn first_named(registry: &Registry, series: &[u32], name: &str) -> Option<u32>
    ensures { result ≡ find (of_series.has_name registry.now name.now) series.now }
{
    for one in series {
        if has_name(registry, name, *one) {
            return Some(*one);
        }
    }
    None
}

/// The series of the chart that a name means.
fn meant(scene: &Scene, name: &str) -> Option<u32>
    ensures { result ≡ of_series.meant scene.now.registry.now scene.now.chart name.now }
{
    match scene.registry.series_of(scene.chart, name) {
        Some(series) => Some(series),
        None => first_named(scene.registry, scene.series, name),
    }
}

/// What stands before `_raw` at the end of a name.
fn before_raw(name: &str) -> Option<&str>
    ensures { option_map (λ prefix. prefix.now) result ≡ of_series.before_raw name.now }
{
    name.strip_suffix("_raw")
}

/// What a name with `_raw` at its end is worth.
fn raw_named(scene: &Scene, name: &str) -> Value
    ensures { result
        ≡ spec.raw_named scene.now.registry.now scene.now.latest.now scene.now.chart name.now }
{
    let Some(prefix) = before_raw(name) else {
        return Value::Nan;
    };
    match meant(scene, prefix) {
        Some(series) => last_raw(scene.latest, series),
        None => Value::Nan,
    }
}

/// What the name of a dimension is worth.
fn dimension_worth(scene: &Scene, name: &str) -> Value
    ensures { result
        ≡ spec.dimension_worth scene.now.registry.now scene.now.latest.now scene.now.chart
        name.now }
{
    match meant(scene, name) {
        Some(series) => last_value(scene.latest, series),
        None => raw_named(scene, name),
    }
}

/// What the names are worth that stand for no status and no dimension.
fn word_worth(scene: &Scene, this: Value, name: &str) -> Option<Value>
    ensures { result ≡ spec.word_worth (seen scene.now) this name.now }
{
    match name {
        "this" => Some(this),
        "status" => Some(status_worth(scene.status)),
        "now" => Some(whole(scene.moment)),
        "update_every" => Some(whole(scene.registry.chart(scene.chart).update_every)),
        "last_collected_t" => Some(moment_or_nan(last_moment(scene.latest, scene.chart))),
        "green" => Some(or_nan(scene.alarm.green)),
        "red" => Some(or_nan(scene.alarm.red)),
        _ => None,
    }
}

/// What a name is worth.
fn named(scene: &Scene, this: Value, name: &str) -> Value
    ensures { result ≡ spec.named (seen scene.now) this name.now }
{
    if let Some(value) = word_worth(scene, this, name) {
        return value;
    }
    match status_named(name) {
        Some(status) => status_worth(status),
        None => dimension_worth(scene, name),
    }
}
