//! What alarms say of charts: where that stays, the pairs stay.
ghost use Rattle.std.specs.Prelude.{◌≡◌, ◌⊎◌, ◌↔◌, [], ◌∷◌, ◌++◌, false, map, IsTrue, IfOk, OnOk};
ghost use Rattle.health_config.specs.Entity.{alarm_of};
ghost use Rattle.alarm_core.specs.Charts.{words_of, wanted_on, owner, owner_of};
ghost use Rattle.alarm_core.specs.Pairs.{wanted};
ghost use Rattle.alarm_core.specs.Runs.{AreRunsOf};
ghost use Rattle.alarm_core.specs.Series.{series_of_all};

use crate::pairs::{Pair, PairList, wanted_pairs};
use crate::runs::{RunList, runs_of};
use crate::series::all_series;
use crate::state::{Holder, State};
use chart_registry::Registry;
use fixed_num::{ListOf, Text};
use health_config::Entity;
use history::ChartDef;
use query_engine::SeriesList;
use std::alloc::{AllocError, Global};

/// What alarms say of a chart.
#[derive(Debug, Drop)]
pub struct ChartWords {
    pub id: Text,
    pub name: Text,
    pub context: Text,
}

/// The same of each chart, in the order of the charts.
pub type ChartWordsList = ListOf<ChartWords>;

/// The alarms that are computed for charts, and what these were when that was worked out.
#[derive(Debug, Drop)]
pub struct Pairing {
    pub charts: ChartWordsList,
    pub pairs: PairList,
    /// Where the pairs of each alarm are.
    pub runs: RunList,
    /// Whether the states are those of the pairs.
    pub taken: bool,
    /// The series of each chart, in the order of the charts.
    pub series: Vec<SeriesList>,
    ghost in_runs: { AreRunsOf pairs runs },
}

fn chart_words(def: &ChartDef) -> Result<ChartWords, AllocError>
    ensures { IfOk result (λ words. words ≡ words_of def.now) }
{
    Ok(ChartWords {
        id: def.id.clone()?,
        name: def.name.clone()?,
        context: def.context.clone()?,
    })
}

fn push(list: &mut ChartWordsList, words: ChartWords) -> Result<(), AllocError>
    ensures { OnOk result (list.new ≡ list.old ++ words ∷ []) }
{
    list.push(words).map_err(|_| AllocError)
}

/// What alarms say of each chart.
fn all_words(alloc: Global, registry: &Registry) -> Result<ChartWordsList, AllocError>
    ensures { IfOk result (λ words. words ≡ map words_of registry.now.charts) }
{
    let mut words = ChartWordsList::new(alloc);
    for chart in 0..registry.charts() {
        let one = chart_words(registry.chart(chart))?;
        push(&mut words, one)?;
    }
    Ok(words)
}

/// Whether alarms say the same of a chart.
fn has_words(def: &ChartDef, words: &ChartWords) -> bool
    ensures { IsTrue result ↔ (words_of def.now ≡ words.now) }
{
    def.id == words.id && def.name == words.name && def.context == words.context
}

/// Whether alarms say the same of each chart. It compares three texts for each.
fn have_words(registry: &Registry, words: &[ChartWords]) -> bool
    ensures { IsTrue result ↔ (map words_of registry.now.charts ≡ words.now) }
{
    if words.len() != registry.charts() as usize {
        return false;
    }
    for chart in 0..registry.charts() {
        if !has_words(registry.chart(chart), &words[chart as usize]) {
            return false;
        }
    }
    true
}

/// Takes the charts and dimensions as they are now. The pairs are worked out anew only where alarms say
/// something else of the charts than before, and without alarms nothing is.
pub fn renew(
    alloc: Global,
    pairing: &mut Pairing,
    alarms: &[Entity],
    registry: &Registry,
) -> Result<(), AllocError>
    requires { pairing.old.pairs ≡ wanted_on (map alarm_of alarms.now) pairing.old.charts }
    ensures wanted { OnOk result
        (pairing.new.pairs ≡ wanted (map alarm_of alarms.now) registry.now.charts) }
    ensures series { OnOk result ((alarms.now ≡ [])
        ⊎ (pairing.new.series.items ≡ series_of_all registry.now)) }
    ensures paired { pairing.new.pairs ≡ wanted_on (map alarm_of alarms.now) pairing.new.charts }
    ensures taken { IsTrue pairing.new.taken → IsTrue pairing.old.taken }
    ensures stay { IsTrue pairing.new.taken → pairing.new.pairs ≡ pairing.old.pairs }
{
    if alarms.is_empty() {
        return Ok(());
    }
    if have_words(registry, pairing.charts.as_slice()) {
        pairing.series = all_series(alloc, registry)?;
        return Ok(());
    }
    *pairing = pairing_of(alloc, alarms, registry)?;
    Ok(())
}

/// The alarms that are computed for the charts of a registry.
pub fn pairing_of(
    alloc: Global,
    alarms: &[Entity],
    registry: &Registry,
) -> Result<Pairing, AllocError>
    ensures wanted { IfOk result
        (λ pairing. pairing.pairs ≡ wanted (map alarm_of alarms.now) registry.now.charts) }
    ensures series { IfOk result (λ pairing. pairing.series.items ≡ series_of_all registry.now) }
    ensures paired { IfOk result
        (λ pairing. pairing.pairs ≡ wanted_on (map alarm_of alarms.now) pairing.charts) }
    ensures new { IfOk result (λ pairing. pairing.taken ≡ false) }
{
    let charts = all_words(alloc, registry)?;
    let pairs = wanted_pairs(alloc, alarms, registry)?;
    let runs = runs_of(alloc, pairs.as_slice())?;
    let series = all_series(alloc, registry)?;
    Ok(Pairing {
        charts,
        pairs,
        runs,
        taken: false,
        series,
    })
}

/// Whether a state is that of a pair.
fn is_state_of(state: State, pair: Pair) -> bool
    ensures { IsTrue result ↔ (owner state ≡ owner_of pair) }
{
    state.alarm == Holder::Alarm(pair.alarm) && state.chart == pair.chart
}

/// Whether there is a state for each pair, in their order, and no other.
pub fn are_states_of(states: &[State], pairs: &[Pair]) -> bool
    ensures { IsTrue result ↔ (map owner states.now ≡ map owner_of pairs.now) }
{
    if states.len() != pairs.len() {
        return false;
    }
    for place in 0..states.len() {
        if !is_state_of(states[place], pairs[place]) {
            return false;
        }
    }
    true
}
