//! The numbers of a chart's dimensions in a lookup.
ghost use Rattle.std.specs.Prelude.{◌≡◌, ℕ, ◌≤◌, List, IfOk, IsErrOf};
ghost use Rattle.host_model.specs.Cause.{HasCause};
ghost use Rattle.tier_rollup.specs.declared.point.Point.{Point as APoint};
ghost use Rattle.query_engine.specs.Joining.{joined, HaveRoom};
ghost use Rattle.alarm_core.specs.Gathering.{one_of, HasRoomFor, Adds, IsGathered};
ghost use Rattle.alarm_core.specs.Lookups.{accepts, is_accepted, is_taken, number};

use crate::dimension::read_number;
use crate::record::with_value;
use crate::scene::Scene;
use crate::window::Window;
use chart_registry::Registry;
use fixed_num::{Record, Units};
use health_config::Lookup;
use history::DimDef;
use query_engine::{PointFault, Points};
use simple_pattern::Pattern;
use std::alloc::Global;

/// What the numbers of dimensions come to, where there is one.
#[derive(Clone, Copy, Debug)]
pub struct Gathered {
    /// Of the dimensions that are taken.
    pub taken: Option<Record>,
    /// Of all dimensions of the chart, where the lookup is a percentage.
    pub all: Option<Record>,
}

/// Whether a pattern accepts a name. Where it says nothing it does not.
fn accepts(pattern: &Pattern, name: &str) -> bool
    ensures { result ≡ accepts pattern.now name.now }
{
    pattern.decides(name).unwrap_or(false)
}

/// Whether a lookup takes a dimension.
fn is_accepted(dims: &Option<Pattern>, def: &DimDef) -> bool
    ensures { result ≡ is_accepted dims.now def.now }
{
    match dims {
        Some(pattern) => accepts(pattern, def.id.as_str()) || accepts(pattern, def.name.as_str()),
        None => !def.hidden,
    }
}

/// Whether a lookup takes the dimension of a series.
fn is_taken(registry: &Registry, lookup: &Lookup, series: u32) -> bool
    ensures { result ≡ is_taken registry.now lookup.now series }
{
    series < registry.dimensions() && is_accepted(&lookup.dims, registry.dimension(series))
}

/// A record with one more number, where there is one.
fn with_number(before: Option<Record>, number: Option<Units>) -> Option<Record>
    ensures { HaveRoom before (one_of number) → result ≡ joined before (one_of number) }
{
    match number {
        Some(number) => with_value(before, number, false),
        None => before,
    }
}

/// What was gathered, with the number of one more dimension.
fn added(before: Gathered, taken: bool, percentage: bool, number: Option<Units>) -> Gathered
    ensures { HasRoomFor percentage number before → Adds taken percentage number before result }
{
    Gathered {
        taken: if taken {
            with_number(before.taken, number)
        } else {
            before.taken
        },
        all: if percentage {
            with_number(before.all, number)
        } else {
            before.all
        },
    }
}

/// Adds the number of one dimension, which is read only where it counts.
fn gather_one<P: Points>(
    alloc: Global,
    points: &mut P,
    registry: &Registry,
    lookup: &Lookup,
    window: Window,
    before: Gathered,
    series: u32,
) -> Result<Gathered, PointFault>
    ensures adds { IfOk result (λ after. (told : ℕ → List APoint) → P.tells points.old told
        → (P.tiers points.old).floor 0 ≤ window.start
        → let number = number lookup.now window.start window.stop (told series) in
        HasRoomFor lookup.now.percentage number before
        → Adds (is_taken registry.now lookup.now series) lookup.now.percentage number before
        after) }
    ensures tiers { P.tiers points.new ≡ P.tiers points.old }
    ensures held { P.held points.new ≡ P.held points.old }
    ensures told { (told : ℕ → List APoint) → P.tells points.old told → P.tells points.new told }
    ensures cause { HasCause (P.faults points.old) (P.faults points.new)
        (IsErrOf result PointFault.Disk) }
{
    let taken = is_taken(registry, lookup, series);
    if !taken && !lookup.percentage {
        return Ok(before);
    }
    let number = read_number(alloc, points, lookup, window, series)?;
    Ok(added(before, taken, lookup.percentage, number))
}

/// The numbers of a chart's dimensions in a window that starts at or above the floor.
pub fn gather<P: Points>(
    alloc: Global,
    points: &mut P,
    scene: &Scene,
    lookup: &Lookup,
    window: Window,
) -> Result<Gathered, PointFault>
    ensures gathered { IfOk result (λ gathered. (told : ℕ → List APoint) → P.tells points.old told
        → (P.tiers points.old).floor 0 ≤ window.start
        → IsGathered scene.now.registry.now lookup.now window.start window.stop told
        scene.now.series.now gathered) }
    ensures tiers { P.tiers points.new ≡ P.tiers points.old }
    ensures held { P.held points.new ≡ P.held points.old }
    ensures told { (told : ℕ → List APoint) → P.tells points.old told → P.tells points.new told }
    ensures cause { HasCause (P.faults points.old) (P.faults points.new)
        (IsErrOf result PointFault.Disk) }
{
    let mut gathered = Gathered {
        taken: None,
        all: None,
    };
    for series in scene.series {
        gathered = gather_one(
            alloc,
            points,
            scene.registry,
            lookup,
            window,
            gathered,
            *series,
        )?;
    }
    Ok(gathered)
}
