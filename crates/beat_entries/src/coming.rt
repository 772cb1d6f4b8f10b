//! The numbers of a beat's charts and dimensions before they are defined.

ghost use Rattle.std.specs.Prelude.{◌≡◌, ◌<◌, ◌≤◌, ◌+◌, false, None, length, count_by, find, is_some, IfSome};
ghost use Rattle.std.specs.List.{list_any};
ghost use Rattle.std.specs.Option.{option_and_then, option_map, ForSome};
ghost use Rattle.chart_registry.specs.Defining.{chart_id};
ghost use Rattle.history.specs.Refusal.{chart_now, has_chart, has_dimension, is_new_dimension, is_new_of};
ghost use Rattle.history.specs.Registry.{chart_of, is_chart, is_dimension, same_chart, same_dimension, series_of};
ghost use Rattle.beat_entries.specs.Fresh.{IsFreshOf, IsKnownAs};
ghost use Rattle.history.specs.Regular.{AreApart};
ghost use Rattle.beat_entries.specs.Rules.{changes_grid, with_beat};

use crate::fresh::Fresh;
use crate::near::series_near;
use chart_registry::Registry;
use history::{ChartDef, MOST_DIMENSIONS, OpenBeat, OpenDim};
use std::alloc::Global;

/// A beat, and the registry that is to take its definitions.
#[derive(Drop)]
pub(crate) struct Coming<'a> {
    pub(crate) registry: &'a Registry,
    pub(crate) beat: &'a OpenBeat,
    /// What the beat defines anew, if there was memory. Without it the lists of the beat tell what it has, but give
    /// no numbers.
    fresh: Option<Fresh>,
    ghost found: { ForSome fresh (IsFreshOf registry.now beat.now) },
}

/// A chart that the registry or the beat has.
#[derive(Clone, Copy)]
pub(crate) struct ChartPlace {
    /// Its number in the registry, if that has it.
    pub(crate) known: Option<u32>,
    /// The number that it has with the beat.
    pub(crate) number: u32,
    /// In seconds.
    pub(crate) update_every: u32,
}

fn defined_update_every(charts: &[ChartDef], id: &str) -> Option<u32>
    ensures { result ≡ option_map (λ def. def.update_every) (find (is_chart id.now) charts.now) }
{
    charts
        .iter()
        .find(|def| id == def.id.as_str())
        .map(|def| def.update_every)
}

fn is_defined_dimension(dimensions: &[OpenDim], chart: &str, id: &str) -> bool
    ensures { result ≡ list_any (is_dimension chart.now id.now) dimensions.now }
{
    dimensions.iter().any(|dimension| chart == dimension.chart.as_str()
        && id == dimension.def.id.as_str())
}

/// The number behind so many numbers at a place.
fn number_behind(count: u32, place: usize) -> u32
    ensures { count + place ≤ MOST_DIMENSIONS → result ≡ count + place }
{
    if place <= MOST_DIMENSIONS as usize {
        count.saturating_add(place as u32)
    } else {
        count
    }
}

impl<'a> Coming<'a> {
    ghost use Rattle.beat_entries.specs.Coming.{CanNumber};

    pub(crate) fn new(alloc: Global, registry: &'a Registry, beat: &'a OpenBeat) -> Coming<'a>
        requires charts { AreApart same_chart beat.now.charts }
        requires dimensions { AreApart same_dimension beat.now.dimensions }
        ensures registry { result.registry.now ≡ registry.now }
        ensures beat { result.beat.now ≡ beat.now }
    {
        let fresh = Fresh::new(alloc, registry, beat).ok();
        Coming {
            registry,
            beat,
            fresh,
        }
    }

    /// Whether there was memory to find what the beat defines anew.
    pub(crate) fn has_memory(&self) -> bool
        ensures { result ≡ is_some self.now.fresh }
    {
        self.fresh.is_some()
    }

    /// A chart that the registry or the beat has.
    pub(crate) fn chart(&self, id: &str) -> Option<ChartPlace>
        ensures found { is_some result ≡ has_chart self.now.registry.now self.now.beat.now id.now }
        ensures known { IfSome result
            (λ place. IsKnownAs self.now.registry.now id.now place.known) }
        ensures number { CanNumber self.now
            → option_map (λ place. place.number) result
            ≡ chart_of (with_beat self.now.registry.now self.now.beat.now) id.now }

        // As the beat defines it too, where it changes no update_every.
        ensures grid { changes_grid self.now.registry.now self.now.beat.now ≡ false
            → option_map (λ place. place.update_every) result
            ≡ option_map (λ def. def.update_every)
            (chart_now self.now.registry.now self.now.beat.now id.now) }
    {
        match self.registry.chart_of(id) {
            Some(number) => Some(ChartPlace {
                known: Some(number),
                number,
                update_every: self.registry.chart(number).update_every,
            }),
            None => self.fresh_chart(id),
        }
    }

    /// A chart that only the beat has.
    fn fresh_chart(&self, id: &str) -> Option<ChartPlace>
        requires { chart_of self.now.registry.now id.now ≡ None }
        ensures found { is_some result ≡ list_any (is_chart id.now) self.now.beat.now.charts }
        ensures known { IfSome result (λ place. place.known ≡ None) }
        ensures number { CanNumber self.now
            → option_map (λ place. place.number) result
            ≡ chart_of (with_beat self.now.registry.now self.now.beat.now) id.now }
        ensures grid { option_map (λ place. place.update_every) result
            ≡ option_map (λ def. def.update_every)
            (find (is_chart id.now) self.now.beat.now.charts) }
    {
        match &self.fresh {
            Some(fresh) => match fresh.charts.place_of(id) {
                Some(place) => Some(ChartPlace {
                    known: None,
                    number: number_behind(self.registry.charts(), place),
                    update_every: fresh.charts.as_slice()[place].update_every,
                }),
                None => None,
            },
            None => match defined_update_every(self.beat.charts.as_slice(), id) {
                Some(update_every) => Some(ChartPlace {
                    known: None,
                    number: 0,
                    update_every,
                }),
                None => None,
            },
        }
    }

    /// The series of a dimension that the registry or the beat has, of the chart that the registry has as `known`.
    /// Where it is `near` it is not looked for.
    pub(crate) fn series(&self, known: Option<u32>, near: u32, chart: &str, id: &str) -> Option<u32>
        requires { IsKnownAs self.now.registry.now chart.now known }
        ensures found { is_some result
            ≡ has_dimension self.now.registry.now self.now.beat.now chart.now id.now }
        ensures series { CanNumber self.now
            → result
            ≡ series_of (with_beat self.now.registry.now self.now.beat.now) chart.now id.now }
    {
        match known_series(self.registry, known, near, id) {
            Some(series) => Some(series),
            None => self.fresh_series(chart, id),
        }
    }

    /// The series of a dimension that only the beat has.
    fn fresh_series(&self, chart: &str, id: &str) -> Option<u32>
        requires { series_of self.now.registry.now chart.now id.now ≡ None }
        ensures found { is_some result
            ≡ list_any (is_dimension chart.now id.now) self.now.beat.now.dimensions }
        ensures series { CanNumber self.now
            → result
            ≡ series_of (with_beat self.now.registry.now self.now.beat.now) chart.now id.now }
    {
        match &self.fresh {
            Some(fresh) => match fresh.dimensions.place_of(chart, id) {
                Some(place) => Some(number_behind(self.registry.dimensions(), place)),
                None => None,
            },
            None => {
                if is_defined_dimension(self.beat.dimensions.as_slice(), chart, id) {
                    Some(0)
                } else {
                    None
                }
            }
        }
    }

    /// How many dimensions of the beat the registry does not have.
    pub(crate) fn new_dimensions(&self) -> usize
        ensures { result ≡ count_by
            (is_new_dimension self.now.registry.now) self.now.beat.now.dimensions }
    {
        match &self.fresh {
            Some(fresh) => fresh.dimensions.as_slice().len(),
            None => chart_registry::new_dimensions(self.registry, self.beat.dimensions.as_slice()),
        }
    }

    /// The same, of one chart.
    pub(crate) fn new_dimensions_of(&self, chart: &str) -> usize
        ensures { result ≡ count_by
            (is_new_of self.now.registry.now chart.now) self.now.beat.now.dimensions }
    {
        match &self.fresh {
            Some(fresh) => fresh.dimensions.count_of(chart),
            None => chart_registry::new_dimensions_of(
                self.registry,
                self.beat.dimensions.as_slice(),
                chart,
            ),
        }
    }
}

/// The series of a dimension of the chart with this number.
fn known_series(registry: &Registry, known: Option<u32>, near: u32, id: &str) -> Option<u32>
    requires { IfSome known (λ number. number < length registry.now.charts) }
    ensures { result ≡ option_and_then
        (λ number. series_of registry.now (chart_id registry.now number) id.now) known }
{
    match known {
        Some(number) => series_near(registry, number, near, id),
        None => None,
    }
}
