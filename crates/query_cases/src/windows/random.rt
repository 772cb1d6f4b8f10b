//! Random requests. Each answer is compared with the one of the definitions, which is computed here by
//! going over all points of a series for each cell.
ghost use Rattle.std.specs.Prelude.{◌≡◌, ◌+◌, ◌^◌, ◌&&◌, nat_le, nat_lt};
ghost use Rattle.query_engine.specs.Points.{are_rising_from};

use fixed_num::Units;
use query_engine::{
    CellList, Group, ListPoints, MomentList, Point, PointList, Request, SeriesList,
    SeriesPointsList, Table, TableRow, TableRowList, answer,
};
use std::alloc::{AllocError, Global};
use std::process::Abort;
use std::test::Fail;

/// The widths of the tiers, as `source_of` writes them too.
const WIDTHS: [u32; 5] = [1, 6, 24, 6_000, 48_000];

/// Numbers that follow from a seed.
#[derive(Clone, Copy, Debug)]
struct Draws {
    state: u64,
}

impl Draws {
    /// A number below a count, which is not 0.
    fn below(&mut self, count: u32) -> u32 {
        self.state = self
            .state
            .wrapping_mul(6_364_136_223_846_793_005)
            .wrapping_add(1_442_695_040_888_963_407);
        (self.state >> 33) as u32 % count.max(1)
    }
}

/// A point, and what its word says: a value or none, and whether it is anomalous.
#[derive(Clone, Copy, Debug)]
struct Sample {
    point: Point,
    value: Option<Units>,
    anomalous: bool,
}

type SampleList = Vec<Sample>;

/// A number of ten-millionths that a word says by its size: of 24 bits, and taken ten times where `tens`
/// says so.
fn units_of(negative: bool, tens: bool, size: u32) -> Units {
    let units = i128::from(size) * if tens { 10 } else { 1 };
    if negative { -units } else { units }
}

/// The word of such a number, by the layout of storage numbers.
fn word_of(negative: bool, tens: bool, size: u32, anomalous: bool) -> u32 {
    let sign = if negative { 0x8000_0000 } else { 0 };
    let step = if tens { 0x3000_0000 } else { 0x3800_0000 };
    let calm = if anomalous { 0 } else { 0x0100_0000 };
    sign | step | calm | size
}

/// A point with such a number.
fn sample_of(draws: &mut Draws, moment: u32, tens: bool, size: u32) -> Sample {
    let negative = draws.below(2) == 0;
    let anomalous = draws.below(4) == 0;
    let word = word_of(negative, tens, size, anomalous);
    Sample {
        point: Point { moment, word },
        value: Some(units_of(negative, tens, size)),
        anomalous,
    }
}

/// A point of a moment: with no value, with 0, with 1 to 4 ten-millionths, or with a larger number.
fn draw_sample(draws: &mut Draws, moment: u32) -> Sample {
    match draws.below(8) {
        0 => Sample {
            point: Point { moment, word: 0 },
            value: None,
            anomalous: false,
        },
        1 => Sample {
            point: Point {
                moment,
                word: 0x0100_0000,
            },
            value: Some(0),
            anomalous: false,
        },
        2..=4 => {
            let size = draws.below(4).saturating_add(1);
            sample_of(draws, moment, false, size)
        }
        _ => {
            let size = draws.below(15_000_000).saturating_add(1_677_722);
            sample_of(draws, moment, true, size)
        }
    }
}

/// So many points, each at least one second after the one before and at most a gap after it.
fn draw_samples(
    alloc: Global,
    draws: &mut Draws,
    count: u32,
    gap: u32,
) -> Result<SampleList, AllocError> {
    let mut samples = Vec::new(alloc);
    let mut moment = draws.below(gap);
    for _ in 0..count {
        samples.push(draw_sample(draws, moment))?;
        moment = moment.saturating_add(1).saturating_add(draws.below(gap));
    }
    Ok(samples)
}

/// The points of the samples.
fn points_of(alloc: Global, samples: &[Sample]) -> Result<PointList, AllocError> {
    let mut points = Vec::new(alloc);
    for sample in samples {
        points.push(sample.point)?;
    }
    Ok(PointList::from_vec(points))
}

/// Whether a moment is at or after one.
fn is_from(least: u64, moment: u32) -> bool
    ensures { result ≡ (nat_le least moment && nat_lt moment (2 ^ 32)) }
{
    least <= u64::from(moment)
}

/// The next moment, also after the last.
fn after(moment: u32) -> u64
    ensures { result ≡ moment + 1 }
{
    u64::from(moment) + 1
}

/// Whether the moments of points rise from one on.
fn are_rising_from(least: u64, points: &[Point]) -> bool
    ensures { result ≡ are_rising_from least points.now }
{
    let [point, others @ ..] = points else {
        return true;
    };
    is_from(least, point.moment) && are_rising_from(after(point.moment), others)
}

/// The floors of the tiers, and the points of three series.
#[derive(Drop)]
struct World {
    /// The points of a world are about so many times further apart.
    scale: u32,
    floors: [u32; 5],
    first: SampleList,
    second: SampleList,
    third: SampleList,
}

/// A floor of tier 0, which is above 0, so that windows cross it.
fn draw_first_floor(draws: &mut Draws, scale: u32) -> u32 {
    let floor = draws.below(scale.saturating_mul(72));
    floor.saturating_add(scale.saturating_mul(24))
}

/// A floor of another tier: 0, or one of a few that tiers share, or any.
fn draw_floor(draws: &mut Draws, scale: u32) -> u32 {
    match draws.below(3) {
        0 => 0,
        1 => draws.below(3).saturating_mul(24).saturating_mul(scale),
        _ => draws.below(scale.saturating_mul(100)),
    }
}

fn draw_world(
    alloc: Global,
    draws: &mut Draws,
    scale: u32,
    count: u32,
) -> Result<World, AllocError> {
    Ok(World {
        scale,
        floors: [
            draw_first_floor(draws, scale),
            draw_floor(draws, scale),
            draw_floor(draws, scale),
            draw_floor(draws, scale),
            draw_floor(draws, scale),
        ],
        first: draw_samples(alloc, draws, count, scale.saturating_mul(3))?,
        second: draw_samples(alloc, draws, count, scale.saturating_mul(9))?,
        third: draw_samples(alloc, draws, 5, scale.saturating_mul(40))?,
    })
}

/// The points of a world in an object that is asked.
fn source_of(rt: &impl Abort, alloc: Global, world: &World) -> Result<ListPoints, Fail> {
    let first = points_of(alloc, world.first.as_slice())?;
    let second = points_of(alloc, world.second.as_slice())?;
    let third = points_of(alloc, world.third.as_slice())?;
    assert!(rt; are_rising_from(0, first.as_slice()));
    assert!(rt; are_rising_from(0, second.as_slice()));
    assert!(rt; are_rising_from(0, third.as_slice()));
    let [a, b, c, d, e] = world.floors;
    Ok(ListPoints::new(
        MomentList::from_vec(vec![in alloc; 1, 6, 24, 6_000, 48_000]?),
        MomentList::from_vec(vec![in alloc; a, b, c, d, e]?),
        SeriesPointsList::from_vec(vec![in alloc; first, second, third]?),
    ))
}

fn draw_group(draws: &mut Draws) -> Group {
    match draws.below(6) {
        0 => Group::Average,
        1 => Group::Min,
        2 => Group::Max,
        3 => Group::Sum,
        4 => Group::Count,
        _ => Group::AnomalyRate,
    }
}

/// A length or a moment: of any number of seconds, or a multiple of a tier's width.
fn draw_seconds(draws: &mut Draws, scale: u32, most: u32) -> u32 {
    match draws.below(4) {
        0 => draws.below(most.saturating_mul(scale)),
        1 => draws
            .below(most / 6)
            .saturating_mul(6)
            .saturating_mul(scale),
        _ => draws
            .below(most / 24)
            .saturating_mul(24)
            .saturating_mul(scale),
    }
}

/// Where the first window starts: now and then close to the last moment.
fn draw_after(draws: &mut Draws, scale: u32) -> u32 {
    if draws.below(12) == 0 {
        u32::MAX - draws.below(100)
    } else {
        draw_seconds(draws, scale, 144)
    }
}

/// A request for two series, of which there may be none.
fn draw_request(alloc: Global, draws: &mut Draws, scale: u32) -> Result<Request, AllocError> {
    Ok(Request {
        series: SeriesList::from_vec(vec![in alloc; draws.below(4), draws.below(3)]?),
        after: draw_after(draws, scale),
        window: draw_seconds(draws, scale, 96).max(1),
        rows: draws.below(8),
        group: draw_group(draws),
    })
}

/// The samples of a series, of which there are none past the last series.
fn samples_of(world: &World, series: u32) -> &[Sample] {
    match series {
        0 => world.first.as_slice(),
        1 => world.second.as_slice(),
        2 => world.third.as_slice(),
        _ => &[],
    }
}

/// Whether a tier of this width may be read.
fn may_read(width: u32, after: u32, window: u32) -> bool {
    after.is_multiple_of(width) && window.is_multiple_of(width)
}

/// The floor of the tier that is read, the lowest of those that may be read. Of two tiers with this floor
/// either gives the same answer, so their numbers are not asked for.
fn floor_for(floors: &[u32], after: u32, window: u32) -> u32 {
    let mut lowest = u32::MAX;
    for (width, floor) in WIDTHS.iter().zip(floors) {
        if may_read(*width, after, window) {
            lowest = lowest.min(*floor);
        }
    }
    lowest
}

/// The samples with values of a window.
fn members(
    alloc: Global,
    samples: &[Sample],
    start: u64,
    window: u32,
) -> Result<SampleList, AllocError> {
    let mut found = Vec::new(alloc);
    for sample in samples {
        let moment = u64::from(sample.point.moment);
        if moment >= start && moment - start < u64::from(window) && sample.value.is_some() {
            found.push(*sample)?;
        }
    }
    Ok(found)
}

fn least(samples: &[Sample]) -> Units {
    let mut least = i128::MAX;
    for sample in samples {
        least = least.min(sample.value.unwrap_or(0));
    }
    least
}

fn greatest(samples: &[Sample]) -> Units {
    let mut greatest = i128::MIN;
    for sample in samples {
        greatest = greatest.max(sample.value.unwrap_or(0));
    }
    greatest
}

fn sum(samples: &[Sample]) -> Units {
    let mut sum: i128 = 0;
    for sample in samples {
        sum = sum.saturating_add(sample.value.unwrap_or(0));
    }
    sum
}

fn anomalies(samples: &[Sample]) -> usize {
    let mut count: usize = 0;
    for sample in samples {
        if sample.anomalous {
            count = count.saturating_add(1);
        }
    }
    count
}

/// The nearest whole number to a total over a count that is not 0, on a tie the even one.
fn nearest(total: i128, count: usize) -> i128 {
    let count = count as i128;
    let whole = total.checked_div_euclid(count).unwrap_or(0);
    let rest = total.checked_rem_euclid(count).unwrap_or(0);
    let twice = rest.saturating_mul(2);
    if twice > count || (twice == count && whole.checked_rem_euclid(2) == Some(1)) {
        whole.saturating_add(1)
    } else {
        whole
    }
}

/// What the members of a window come to, where there are some.
fn group_of(group: Group, members: &[Sample]) -> Option<Units> {
    if members.is_empty() {
        return None;
    }
    Some(match group {
        Group::Average => nearest(sum(members), members.len()),
        Group::Min => least(members),
        Group::Max => greatest(members),
        Group::Sum => sum(members),
        Group::Count => (members.len() as i128).saturating_mul(10_000_000),
        Group::AnomalyRate => nearest(
            (anomalies(members) as i128).saturating_mul(1_000_000_000),
            members.len(),
        ),
    })
}

/// The cell of a window: null where it starts below the floor or has no member.
fn plain_cell(
    alloc: Global,
    samples: &[Sample],
    group: Group,
    floor: u32,
    start: u64,
    window: u32,
) -> Result<Option<Units>, AllocError> {
    if start < u64::from(floor) {
        return Ok(None);
    }
    let members = members(alloc, samples, start, window)?;
    Ok(group_of(group, members.as_slice()))
}

fn plain_row(
    alloc: Global,
    world: &World,
    request: &Request,
    start: u64,
) -> Result<TableRow, AllocError> {
    let floor = floor_for(&world.floors, request.after, request.window);
    let mut cells = Vec::new(alloc);
    for series in request.series.as_slice() {
        let samples = samples_of(world, *series);
        let cell = plain_cell(alloc, samples, request.group, floor, start, request.window)?;
        cells.push(cell)?;
    }
    Ok(TableRow {
        start,
        cells: CellList::from_vec(cells),
    })
}

/// The answer of the definitions.
fn plain_table(alloc: Global, world: &World, request: &Request) -> Result<Table, AllocError> {
    let mut rows = Vec::new(alloc);
    let mut start = u64::from(request.after);
    for _ in 0..request.rows {
        rows.push(plain_row(alloc, world, request, start)?)?;
        start = start.saturating_add(u64::from(request.window));
    }
    Ok(Table {
        rows: TableRowList::from_vec(rows),
    })
}

fn are_same_rows(some: &[TableRow], others: &[TableRow]) -> bool {
    for (one, other) in some.iter().zip(others) {
        if one.start != other.start || one.cells.as_slice() != other.cells.as_slice() {
            return false;
        }
    }
    some.len() == others.len()
}

/// How many cells of a table have numbers.
fn told(table: &Table) -> u32 {
    let mut count: u32 = 0;
    for row in table.rows.as_slice() {
        for cell in row.cells.as_slice() {
            if cell.is_some() {
                count = count.saturating_add(1);
            }
        }
    }
    count
}

/// Asks a world, compares the answer, and tells how many cells had numbers.
fn ask(
    rt: &impl Abort,
    alloc: Global,
    source: &mut ListPoints,
    world: &World,
    request: &Request,
) -> Result<u32, Fail> {
    let table = answer(alloc, source, request)?;
    let want = plain_table(alloc, world, request)?;
    assert!(rt;
        are_same_rows(table.rows.as_slice(), want.rows.as_slice()),
        "{:?} {} {} {:?}",
        request.series.as_slice(),
        request.after,
        request.window,
        request.group
    );
    Ok(told(&table))
}

/// Asks a world 25 times, and tells how many cells had numbers.
fn ask_world(
    rt: &impl Abort,
    alloc: Global,
    draws: &mut Draws,
    world: &World,
) -> Result<u32, Fail> {
    let mut source = source_of(rt, alloc, world)?;
    let mut count: u32 = 0;
    for _ in 0..25 {
        let request = draw_request(alloc, draws, world.scale)?;
        count = count.saturating_add(ask(rt, alloc, &mut source, world, &request)?);
    }
    Ok(count)
}

/// How far apart the points of a world are, and how many its first two series have.
const WORLDS: [(u32, u32); 8] = [
    (1, 60),
    (1, 30),
    (1, 60),
    (1, 20),
    (40, 60),
    (40, 30),
    (1_000, 60),
    (1_000, 60),
];

#[test]
fn random_requests_get_the_plain_answer(rt: HostRuntime) -> Result<(), Fail> {
    let mut draws = Draws { state: 2_024 };
    let mut numbers: u32 = 0;
    for (scale, count) in WORLDS {
        let world = draw_world(rt.alloc(), &mut draws, scale, count)?;
        numbers = numbers.saturating_add(ask_world(&rt, rt.alloc(), &mut draws, &world)?);
    }
    assert!(rt; numbers > 200, "{numbers}");
    Ok(())
}
