//! The side of a checkpoint: what beats left, as bytes and back.

ghost use Rattle.std.specs.Prelude.{◌≡◌, ◌⊎◌, ◌<◌, ◌≤◌, ◌^◌, List, None, Some, true, false, length, map, slice_get, IfErr, IfOk, IfSome, OnOk};
ghost use Rattle.std.specs.Option.{option_map};
ghost use Rattle.history.specs.History.{Beat as HistoryBeat};
ghost use Rattle.history.specs.Registry.{empty};
ghost use Rattle.tier_settings.specs.declared.settings.Settings.{Settings as ASettings};
ghost use Rattle.alarm_core.specs.Course.{held};
ghost use Rattle.alarm_core.specs.Kept.{kept, of_kept};
ghost use Rattle.alarm_core.specs.UpTo.{IsUpTo};
ghost use Rattle.alarm_events.specs.declared.log.TheConstants.{SHOWN};
ghost use Rattle.beat_entries.specs.Next.{goes_on, with_numbered};
ghost use Rattle.store_core.specs.declared.beats.beat.Beat.{Beat as StoreBeat};
ghost use Rattle.side_codec.specs.Sides.{read_side, HasSpelling};
ghost use Rattle.side_codec.specs.Size.{side_limit, KeepLimits};
ghost use Rattle.agent_core.specs.Answers.{floor_of_history};
ghost use Rattle.agent_core.specs.Gaps.{gaps_above};
ghost use Rattle.agent_core.specs.Kept.{AreBeatsOf};
ghost use Rattle.agent_core.specs.Left.{IsFit, IsLeftBy};
ghost use Rattle.agent_core.specs.Notes.{is_good, noted_in, noted_in_side, role_in};
ghost use Rattle.agent_core.specs.Sides.{all_charts, all_dimensions, dimension_at, filled, point_back, raw_of, side_by, side_role, stored_point, IsReadFrom, IsSideOf};
ghost use Rattle.agent_core.specs.Storing.{defining};

use crate::fault::OpenFault;
use crate::gaps::Gaps;
use crate::left::{Left, Role};
use alarm_core::{Alarms, Latest, SeriesPointList, SeriesValueList};
use alarm_events::KeptAlarms;
use algorithms::Last;
use beat_entries::{define_charts, define_dimensions};
use beat_points::LastRows;
use chart_registry::Registry;
use fixed_num::{ByteList, ListOf};
use history::{ChartList, DimensionList, NumberedChart, NumberedDimension};
use query_engine::Point;
use side_codec::{LastPoint, LastPointList, Side, SideRole, is_short, read_side, write_side};
use std::alloc::{AllocError, Global};
use storage_number::is_word;

/// The most bytes of a side.
const MOST_BYTES: usize = 4_294_967_295;

// ---- to a side

/// The role, as a side has it.
fn side_role(role: Role) -> SideRole
    ensures { result ≡ side_role role }
{
    match role {
        Role::Undecided => SideRole::Undecided,
        Role::Collects => SideRole::Collects,
        Role::Copies(child) => SideRole::Copies(child),
    }
}

/// All charts, by number.
fn all_charts(alloc: Global, registry: &Registry) -> Result<ChartList, AllocError>
    ensures { IfOk result (λ charts. charts ≡ all_charts registry.now) }
{
    let mut charts = ChartList::new(alloc);
    for number in 0..registry.charts() {
        let def = registry.chart(number).clone()?;
        charts.push(NumberedChart { number, def })?;
    }
    Ok(charts)
}

/// The dimension with this number.
fn dimension_at(registry: &Registry, series: u32) -> Result<NumberedDimension, AllocError>
    requires { series < length registry.now.dimensions }
    ensures { IfOk result (λ made. IfSome (slice_get registry.now.dimensions series)
        (λ dimension. made ≡ dimension_at registry.now (series, dimension))) }
{
    let chart = registry.owner(series);
    let def = registry.dimension(series).clone()?;
    Ok(NumberedDimension { series, chart, def })
}

/// All dimensions, by number.
fn all_dimensions(alloc: Global, registry: &Registry) -> Result<DimensionList, AllocError>
    ensures { IfOk result (λ dimensions. dimensions ≡ all_dimensions registry.now) }
{
    let mut dimensions = DimensionList::new(alloc);
    for series in 0..registry.dimensions() {
        let dimension = dimension_at(registry, series)?;
        dimensions.push(dimension)?;
    }
    Ok(dimensions)
}

/// A list by number, of just as many things.
fn filled<T: Copy + Drop>(
    alloc: Global,
    list: &[T],
    count: usize,
    none: T,
) -> Result<ListOf<T>, AllocError>
    ensures { IfOk result (λ whole. whole ≡ filled none count list.now) }
{
    let mut items = Vec::from_slice(alloc, list)?;
    items.resize(count, none)?;
    Ok(ListOf::from_vec(items))
}

/// A last point, if its word is a storage number.
fn stored_point(point: Option<Point>) -> Option<LastPoint>
    ensures { result ≡ stored_point point }
{
    match point {
        Some(point) if is_word(point.word) => Some(LastPoint {
            moment: point.moment,
            word: point.word,
        }),
        Some(_) | None => None,
    }
}

/// The last points whose words are storage numbers.
fn stored_points(alloc: Global, points: &[Option<Point>]) -> Result<LastPointList, AllocError>
    ensures { IfOk result (λ stored. stored ≡ map stored_point points.now) }
{
    let mut stored = LastPointList::new(alloc);
    for point in points {
        stored.push(stored_point(*point))?;
    }
    Ok(stored)
}

/// The side of what beats left, where this is the floor of tier 0.
#[tactic(auto, unfolding(crate::specs::Sides::side_by))]
fn side_of(alloc: Global, left: &Left, floor: u32) -> Result<Side, AllocError>
    ensures { IfOk result (λ side. side ≡ side_by floor left.now) }
{
    let registry = &left.registry;
    let charts = registry.charts() as usize;
    let series = registry.dimensions() as usize;
    let points = filled(alloc, left.latest.points.as_slice(), series, None)?;
    let Ok(alarms) = left.alarms.keep() else {
        return Err(AllocError);
    };
    Ok(Side {
        role: side_role(left.role),
        charts: all_charts(alloc, registry)?,
        dimensions: all_dimensions(alloc, registry)?,
        chart_moments: filled(alloc, left.latest.charts.as_slice(), charts, 0)?,
        last_rows: filled(alloc, left.last_rows.as_slice(), series, None)?,
        last_points: stored_points(alloc, points.as_slice())?,
        alarms,
        gaps: left.gaps.above(alloc, floor)?,
    })
}

/// The side of what beats left, where this is the floor of tier 0. It fails also where it would have 2^32 bytes or no
/// spelling.
pub(crate) fn write_left(alloc: Global, left: &Left, floor: u32) -> Result<ByteList, AllocError>
    ensures side { IfOk result (λ bytes. (set : ASettings) (h : List HistoryBeat)
        (beats : List StoreBeat) → AreBeatsOf h beats → IsLeftBy set h left.now
        → floor ≡ floor_of_history set h 0 → IsSideOf set h bytes) }
    ensures short { IfOk result (λ bytes. length bytes < 2 ^ 32) }
    ensures size { IfOk result (λ bytes. KeepLimits (kept (held left.now.alarms))
        → length bytes ≤ side_limit (length (gaps_above floor left.now.gaps))) }
{
    let side = side_of(alloc, left, floor)?;
    if !is_short(&side) {
        return Err(AllocError);
    }
    let bytes = write_side(alloc, &side)?;
    if bytes.len() > MOST_BYTES {
        return Err(AllocError);
    }
    Ok(bytes)
}

// ---- and back

/// The role that a side has.
fn role_of(role: SideRole) -> Role
    ensures { result ≡ role_in role }
{
    match role {
        SideRole::Undecided => Role::Undecided,
        SideRole::Collects => Role::Collects,
        SideRole::Copies(child) => Role::Copies(child),
    }
}

/// A last point of a side as what was last seen.
fn seen_point(point: Option<LastPoint>) -> Option<Point>
    ensures { result ≡ option_map point_back point }
{
    match point {
        Some(point) => Some(Point {
            moment: point.moment,
            word: point.word,
        }),
        None => None,
    }
}

/// The last points of a side as what was last seen.
fn seen_points(alloc: Global, points: &[Option<LastPoint>]) -> Result<SeriesPointList, AllocError>
    ensures { IfOk result (λ seen. seen ≡ map (option_map point_back) points.now) }
{
    let mut seen = SeriesPointList::new(alloc);
    for point in points {
        seen.push(seen_point(*point))?;
    }
    Ok(seen)
}

/// The value of a last row.
fn seen_value(row: Option<Last>) -> Option<i64>
    ensures { result ≡ option_map raw_of row }
{
    match row {
        Some(row) => Some(row.value),
        None => None,
    }
}

/// The values of last rows.
fn seen_values(alloc: Global, rows: &[Option<Last>]) -> Result<SeriesValueList, AllocError>
    ensures { IfOk result (λ seen. seen ≡ map (option_map raw_of) rows.now) }
{
    let mut seen = SeriesValueList::new(alloc);
    for row in rows {
        seen.push(seen_value(*row))?;
    }
    Ok(seen)
}

/// The registry of these charts and dimensions, or the database is damaged.
fn defined(
    alloc: Global,
    charts: ChartList,
    dimensions: DimensionList,
) -> Result<Registry, OpenFault>
    ensures defined { IfOk result
        (λ registry. registry ≡ with_numbered empty (defining charts dimensions)) }
    ensures next { OnOk result (goes_on empty (defining charts dimensions) ≡ true) }
    ensures broken { IfErr result
        (λ fault. fault ≡ OpenFault.Damaged 5
        → goes_on empty (defining charts dimensions) ≡ false) }
    ensures faults { IfErr result
        (λ fault. (fault ≡ OpenFault.Memory) ⊎ (fault ≡ OpenFault.Damaged 5)) }
{
    let mut registry = Registry::new(alloc);
    define_charts(&mut registry, charts.as_slice())?;
    define_dimensions(&mut registry, dimensions.as_slice())?;
    Ok(registry)
}

/// The alarms that were kept so, or the database is damaged.
fn alarms_of(alloc: Global, kept: &KeptAlarms, registry: &Registry) -> Result<Alarms, OpenFault>
    requires { length kept.now.events ≤ SHOWN }
    ensures held { IfOk result (λ alarms. of_kept registry.now kept.now ≡ Some (held alarms)) }
    ensures up_to { IfOk result (λ alarms. IsUpTo alarms registry.now) }
    ensures broken { IfErr result
        (λ fault. fault ≡ OpenFault.Damaged 5 → of_kept registry.now kept.now ≡ None) }
    ensures faults { IfErr result
        (λ fault. (fault ≡ OpenFault.Memory) ⊎ (fault ≡ OpenFault.Damaged 5)) }
{
    Ok(Alarms::from_kept(alloc, kept, registry)?)
}

/// What was last seen, from a side.
fn latest_of(
    alloc: Global,
    charts: ListOf<u32>,
    rows: &[Option<Last>],
    points: &[Option<LastPoint>],
) -> Result<Latest, AllocError>
    ensures charts { IfOk result (λ latest. latest.charts ≡ charts) }
    ensures points { IfOk result (λ latest.
        latest.points ≡ map (option_map point_back) points.now) }
    ensures raws { IfOk result (λ latest. latest.raws ≡ map (option_map raw_of) rows.now) }
{
    Ok(Latest {
        before: 0,
        charts,
        points: seen_points(alloc, points)?,
        raws: seen_values(alloc, rows)?,
    })
}

/// What a side says, or the database is damaged.
fn left_of(alloc: Global, side: Side) -> Result<Left, OpenFault>
    requires { HasSpelling side }
    ensures read { IfOk result (IsReadFrom side) }
    ensures broken { IfErr result
        (λ fault. fault ≡ OpenFault.Damaged 5 → is_good side ≡ false) }
    ensures faults { IfErr result
        (λ fault. (fault ≡ OpenFault.Memory) ⊎ (fault ≡ OpenFault.Damaged 5)) }
{
    let Side {
        role,
        charts,
        dimensions,
        chart_moments,
        last_rows,
        last_points,
        alarms,
        gaps,
    } = side;
    let registry = defined(alloc, charts, dimensions)?;
    let alarms = alarms_of(alloc, &alarms, &registry)?;
    let latest = latest_of(
        alloc,
        chart_moments,
        last_rows.as_slice(),
        last_points.as_slice(),
    )?;
    Ok(Left {
        registry,
        role: role_of(role),
        last_rows: LastRows::from_list(last_rows),
        latest,
        gaps: Gaps::from_list(gaps),
        alarms,
    })
}

/// The side whose bytes these are, or the database is damaged.
fn side_in(alloc: Global, bytes: &[u8]) -> Result<Side, OpenFault>
    ensures found { IfOk result (λ side. read_side bytes.now ≡ Some side) }
    ensures spelt { IfOk result HasSpelling }
    ensures broken { IfErr result
        (λ fault. fault ≡ OpenFault.Damaged 5 → read_side bytes.now ≡ None) }
    ensures faults { IfErr result
        (λ fault. (fault ≡ OpenFault.Memory) ⊎ (fault ≡ OpenFault.Damaged 5)) }
{
    Ok(read_side(alloc, bytes)?)
}

/// What beats left, from the side of it, or the database is damaged.
pub(crate) fn read_left(alloc: Global, bytes: &[u8]) -> Result<Left, OpenFault>
    ensures left { IfOk result (λ left. (set : ASettings) (h : List HistoryBeat)
        (beats : List StoreBeat) → AreBeatsOf h beats → IsSideOf set h bytes.now
        → IsLeftBy set h left) }
    ensures stands { IfErr result (λ fault. (set : ASettings) (h : List HistoryBeat)
        (beats : List StoreBeat) → AreBeatsOf h beats → IsSideOf set h bytes.now
        → fault ≡ OpenFault.Memory) }

    // Whatever side it is: it is good, or the database is damaged.
    ensures noted { IfOk result (λ left. noted_in_side bytes.now ≡ Some (noted_in left)) }
    ensures broken { IfErr result
        (λ fault. fault ≡ OpenFault.Damaged 5 → noted_in_side bytes.now ≡ None) }
    ensures fit { IfOk result IsFit }
    ensures faults { IfErr result
        (λ fault. (fault ≡ OpenFault.Memory) ⊎ (fault ≡ OpenFault.Damaged 5)) }
{
    let side = side_in(alloc, bytes)?;
    left_of(alloc, side)
}
