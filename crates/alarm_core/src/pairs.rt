//! Which alarms are computed for which charts.
ghost use Rattle.std.specs.Prelude.{◌≡◌, ◌≤◌, ◌&&◌, [], ◌∷◌, ◌++◌, length, map, slice_get, option_map, if◌then◌else◌, IfOk, OnOk};
ghost use Rattle.std.specs.List.{before_first, list_any, range_with_len};
ghost use Rattle.fixed_num.specs.UnitsText.{is_dot};
ghost use Rattle.health_config.specs.Entity.{alarm_of};
ghost use Rattle.alarm_core.specs.Pairs as spec;

use crate::by_chart::OnChart;
use alarm_events::MOST_STATES;
use chart_registry::Registry;
use fixed_num::ListOf;
use health_config::Entity;
use history::ChartDef;
use std::alloc::{AllocError, Global};

/// The most alarms of charts that are computed: each has a state.
pub const MOST_PAIRS: usize = MOST_STATES;

/// An alarm and a chart that it is computed for.
#[derive(Clone, Copy, Debug, PartialEq, Eq)]
pub struct Pair {
    /// The place of the alarm in its configuration.
    pub alarm: usize,
    /// The number of the chart.
    pub chart: u32,
}

impl OnChart for Pair {
    ghost chart_of = { λ pair. pair.chart };

    fn chart_number(&self) -> u32 {
        self.chart
    }
}

/// Alarms with the charts that they are computed for.
pub type PairList = ListOf<Pair>;

/// The type of a chart: its id up to the first dot.
fn type_of(id: &str) -> &str
    ensures { result.now ≡ before_first is_dot id.now }
{
    match id.split_once('.') {
        Some((kind, _)) => kind,
        None => id,
    }
}

/// Whether a text is the type of a chart, a dot and its name.
fn is_type_and_name(text: &str, def: &ChartDef) -> bool
    ensures { result ≡ spec.is_type_and_name text.now def.now }
{
    match text.split_once('.') {
        Some((kind, name)) => kind == type_of(def.id.as_str()) && name == def.name.as_str(),
        None => false,
    }
}

/// Whether an alarm says a chart.
fn says(entity: &Entity, def: &ChartDef) -> bool
    ensures { result ≡ spec.says (alarm_of entity.now) def.now }
{
    let on = entity.on.as_str();
    if entity.template {
        on == def.context.as_str()
    } else {
        on == def.id.as_str() || is_type_and_name(on, def)
    }
}

/// Whether an alarm is on a chart.
fn is_on(entity: &Entity, def: &ChartDef) -> bool
    ensures { result ≡ spec.is_on (alarm_of entity.now) def.now }
{
    entity.on.len() > 0 && says(entity, def)
}

/// The alarm at a place.
pub fn alarm_in(entities: &[Entity], place: usize) -> Option<&Entity>
    ensures { option_map (λ entity. alarm_of entity.now) result
        ≡ slice_get (map alarm_of entities.now) place }
{
    entities.get(place)
}

/// The same by the place of the alarm.
fn is_on_at(entities: &[Entity], def: &ChartDef, e: usize) -> bool
    ensures { result ≡ spec.is_on_at (map alarm_of entities.now) def.now e }
{
    match alarm_in(entities, e) {
        Some(entity) => is_on(entity, def),
        None => false,
    }
}

/// Whether an alarm goes before another of its name.
fn goes_before(f: usize, other: &Entity, e: usize, entity: &Entity) -> bool
    ensures { result ≡ spec.goes_before f (alarm_of other.now) e
        (alarm_of entity.now) }
{
    if other.name.as_str() != entity.name.as_str() {
        return false;
    }
    if other.template == entity.template {
        f < e
    } else {
        entity.template
    }
}

/// The same by their places.
fn goes_before_at(entities: &[Entity], f: usize, e: usize) -> bool
    ensures { result ≡ spec.goes_before_at (map alarm_of entities.now) f e }
{
    match (alarm_in(entities, e), alarm_in(entities, f)) {
        (Some(entity), Some(other)) => goes_before(f, other, e, entity),
        _ => false,
    }
}

/// Whether an alarm counts on a chart in place of another.
fn counts_before(entities: &[Entity], def: &ChartDef, f: usize, e: usize) -> bool
    ensures { result
        ≡ (spec.goes_before_at (map alarm_of entities.now) f e
        && spec.is_on_at (map alarm_of entities.now) def.now f) }
{
    goes_before_at(entities, f, e) && is_on_at(entities, def, f)
}

/// Whether some alarm counts on a chart in place of this one.
fn is_replaced(entities: &[Entity], def: &ChartDef, e: usize) -> bool
    ensures { result ≡ list_any
        (λ f. spec.goes_before_at (map alarm_of entities.now) f e
        && spec.is_on_at (map alarm_of entities.now) def.now f)
        (range_with_len 0 (length (map alarm_of entities.now))) }
{
    for f in 0..entities.len() {
        if counts_before(entities, def, f, e) {
            return true;
        }
    }
    false
}

/// Whether an alarm is computed for a chart.
fn is_computed(entities: &[Entity], def: &ChartDef, e: usize) -> bool
    ensures { result ≡ spec.is_computed (map alarm_of entities.now) def.now e }
{
    is_on_at(entities, def, e) && !is_replaced(entities, def, e)
}

fn push(pairs: &mut PairList, pair: Pair) -> Result<(), AllocError>
    ensures { OnOk result (pairs.new ≡ pairs.old ++ pair ∷ []) }
{
    pairs.push(pair).map_err(|_| AllocError)
}

/// Adds a pair that is wanted, while there is room.
fn keep(pairs: &mut PairList, wanted: bool, pair: Pair) -> Result<(), AllocError>
    requires { length pairs.old ≤ MOST_PAIRS }
    ensures { OnOk result (pairs.new
        ≡ spec.first_pairs (pairs.old ++ (if wanted then pair ∷ [] else []))) }
{
    if !wanted {
        return Ok(());
    }
    if pairs.len() >= MOST_PAIRS {
        return Ok(());
    }
    push(pairs, pair)?;
    Ok(())
}

/// Adds the charts of an alarm.
fn push_pairs(
    pairs: &mut PairList,
    entities: &[Entity],
    registry: &Registry,
    alarm: usize,
) -> Result<(), AllocError>
    requires { length pairs.old ≤ MOST_PAIRS }
    ensures { OnOk result (pairs.new
        ≡ spec.first_pairs (pairs.old
        ++ spec.pairs_of (map alarm_of entities.now) registry.now.charts alarm)) }
{
    for chart in 0..registry.charts() {
        let wanted = is_computed(entities, registry.chart(chart), alarm);
        keep(pairs, wanted, Pair { alarm, chart })?;
    }
    Ok(())
}

/// The alarms that are computed, each with its charts: the first 65,536 in the order of the alarms, and of
/// one alarm in the order of the charts. It compares each alarm with each chart, and where an alarm is on a
/// chart, its name with those of the others.
pub fn wanted_pairs(
    alloc: Global,
    entities: &[Entity],
    registry: &Registry,
) -> Result<PairList, AllocError>
    ensures { IfOk result (λ pairs. pairs
        ≡ spec.wanted (map alarm_of entities.now) registry.now.charts) }
{
    let mut pairs = PairList::new(alloc);
    for alarm in 0..entities.len() {
        push_pairs(&mut pairs, entities, registry, alarm)?;
    }
    Ok(pairs)
}
