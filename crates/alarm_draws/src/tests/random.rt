//! Random configurations, charts and beats. What each call tells and how the alarms stand behind it is
//! compared with the rules written once more, and the alarms are taken again from what is kept of them.
ghost use Rattle.std.specs.Prelude.{◌≡◌, ◌+◌, ◌^◌, ◌&&◌, nat_le, nat_lt};
ghost use Rattle.query_engine.specs.Points.{are_rising_from};

use super::plain::{
    Check, PlainChart, PlainPoint, PlainSeries, Rule, World, Worth, last_moment, pair, plain_lines,
    state_line, take_beat,
};
use super::*;
use alarm_events::{KeptState, value_text};

/// Numbers that follow from a seed.
#[derive(Drop)]
struct Draws {
    state: u64,
}

impl Draws {
    /// A number below a count, which is not 0.
    fn below(&mut self, count: u32) -> u32 {
        self.state = self
            .state
            .wrapping_mul(6_364_136_223_846_793_005)
            .wrapping_add(1_442_695_040_888_963_407);
        (self.state >> 33) as u32 % count.max(1)
    }
}

/// An alarm without checks and delays.
const BARE: Rule = Rule {
    number: 0,
    texts: ("", ""),
    name: "",
    template: false,
    on: "",
    every: 1,
    worth: Worth::Steps,
    warn: None,
    crit: None,
    up: 0,
    down: 0,
    tenths: 10,
    most: 0,
    silent: false,
};

static RULES: [Rule; 11] = [
    Rule {
        number: 0,
        texts: (
            "alarm: load\non: test.c0\ncalc: $a\nevery: 1s\nwarn: $this > (($status >= $WARNING) ? (5) : (10))\ncrit: $this > 15\ndelay: up 3s down 6s multiplier 1.5 max 20s\n",
            "alarm: load\non: test.c0\ncrit: ($this>15)\nwarn: $this>($status>=$WARNING ? 5 : 10)\ncalc: ($a)\nevery: 1\ndelay: max 20s multiplier 1.5 down 6 up 3\n",
        ),
        name: "load",
        on: "test.c0",
        worth: Worth::Last("a"),
        warn: Some(Check::Sticky(5, 10)),
        crit: Some(Check::Above(15)),
        up: 3,
        down: 6,
        tenths: 15,
        most: 20,
        ..BARE
    },
    Rule {
        number: 1,
        texts: (
            "template: load\non: even\nlookup: sum 6s of a\nevery: 2s\nwarn: $this > 0\ncrit: $this > 12\ndelay: down 4s multiplier 2\n",
            "template: load\non: even\nlookup: sum -6 of a\nevery: 2\nwarn: ($this) > 0\ncrit: ($this > (12))\ndelay: down 4s multiplier 2.0\n",
        ),
        name: "load",
        template: true,
        on: "even",
        every: 2,
        worth: Worth::Sum("a", 6, 0),
        warn: Some(Check::Above(0)),
        crit: Some(Check::Above(12)),
        down: 4,
        tenths: 20,
        most: 8,
        ..BARE
    },
    Rule {
        number: 2,
        texts: (
            "template: sum\non: odd\nlookup: sum 5s at 3s of b\nwarn: $this > 4\n",
            "template: sum\non: odd\nlookup: sum 5 at -3 every 5 unaligned of b\nwarn: $this > 4.0\n",
        ),
        name: "sum",
        template: true,
        on: "odd",
        every: 5,
        worth: Worth::Sum("b", 5, 3),
        warn: Some(Check::Above(4)),
        ..BARE
    },
    Rule {
        number: 3,
        texts: (
            "alarm: peak\non: disk.one\nlookup: max 4s\ncalc: $this + 1\nevery: 3s\nwarn: $this > 8\ncrit: $b\noptions: no-clear-notification\n",
            "alarm: peak\non: disk.one\noptions: no-clear-notification\ncalc: ($this) + (1)\nlookup: max 4\nevery: 3\nwarn: $this > 8\ncrit: ${b}\n",
        ),
        name: "peak",
        on: "disk.one",
        every: 3,
        worth: Worth::Greatest(4),
        warn: Some(Check::Above(8)),
        crit: Some(Check::Last("b")),
        silent: true,
        ..BARE
    },
    Rule {
        number: 4,
        texts: (
            "template: peak\non: even\nlookup: max 9s\ncalc: $this + 1\nevery: 1s\ncrit: $this > 15\n",
            "template: peak\non: even\nlookup: max 9s unaligned\ncalc: $this+1\nevery: 1s\ncrit: $this > 15\n",
        ),
        name: "peak",
        template: true,
        on: "even",
        worth: Worth::Greatest(9),
        crit: Some(Check::Above(15)),
        ..BARE
    },
    Rule {
        number: 5,
        texts: (
            "alarm: steps\non: test.c1\ncalc: ($this == nan) ? (0) : ($this + 1)\nevery: 2s\nwarn: $this > 4\n",
            "alarm: steps\non: test.c1\ncalc: $this == nan ? 0 : $this + 1\nevery: 2s\nwarn: $this > 4\n",
        ),
        name: "steps",
        on: "test.c1",
        every: 2,
        worth: Worth::Steps,
        warn: Some(Check::Above(4)),
        ..BARE
    },
    Rule {
        number: 6,
        texts: (
            "template: steps\non: odd\ncalc: ($this == nan) ? (0) : ($this + 1)\nevery: 1s\n",
            "template: steps\non: odd\ncalc: $this == nan ? 0 : $this + 1\nevery: 1s\n",
        ),
        name: "steps",
        template: true,
        on: "odd",
        worth: Worth::Steps,
        ..BARE
    },
    Rule {
        number: 7,
        texts: (
            "template: ratio\non: even\ncalc: $a / 0\nevery: 1s\nwarn: 1\n",
            "template: ratio\non: even\ncalc: ${a} / (0)\nevery: 1s\nwarn: 1\n",
        ),
        name: "ratio",
        template: true,
        on: "even",
        worth: Worth::OverZero("a"),
        ..BARE
    },
    Rule {
        number: 8,
        texts: (
            "alarm: age\non: test.two\ncalc: $now - $last_collected_t\nevery: 1s\nwarn: $this > 2\ncrit: $this > 5\ndelay: up 1m multiplier 3 max 100s\n",
            "alarm: age\non: test.two\nevery: 1\ncalc: $now - $last_collected_t\nwarn: $this > 2\ncrit: $this > 5\ndelay: max 100 up 60s multiplier 3\n",
        ),
        name: "age",
        on: "test.two",
        worth: Worth::Age,
        warn: Some(Check::Above(2)),
        crit: Some(Check::Above(5)),
        up: 60,
        tenths: 30,
        most: 100,
        ..BARE
    },
    Rule {
        number: 9,
        texts: (
            "alarm: raw\non: test.c0\ncalc: $used_raw\nevery: 4s\nwarn: $free\n",
            "alarm: raw\non: test.c0\ncalc: ${used_raw}\nevery: 4s\nwarn: ($free)\n",
        ),
        name: "raw",
        on: "test.c0",
        every: 4,
        worth: Worth::Raw("a"),
        warn: Some(Check::Last("b")),
        ..BARE
    },
    Rule {
        number: 10,
        texts: (
            "alarm: load\non: test.zero\ncalc: $b\nevery: 1s\nwarn: $this > 0\n",
            "alarm: load\non: test.zero\ncalc: $b\nevery: 1s\nwarn: ($this > (0))\n",
        ),
        name: "load",
        on: "test.zero",
        worth: Worth::Last("b"),
        warn: Some(Check::Above(0)),
        ..BARE
    },
];

/// Charts by their ids, their names, and what their types and names say.
static CHARTS: [(&str, &str, &str); 3] = [
    ("test.c0", "zero", "test.zero"),
    ("test.c1", "two", "test.two"),
    ("disk.c2", "one", "disk.one"),
];

/// Whether a moment is at or after one.
fn is_from(least: u64, moment: u32) -> bool
    ensures { result ≡ (nat_le least moment && nat_lt moment (2 ^ 32)) }
{
    least <= u64::from(moment)
}

/// The next moment, also after the last.
fn after(moment: u32) -> u64
    ensures { result ≡ moment + 1 }
{
    u64::from(moment) + 1
}

/// Whether the moments of points rise from one on.
fn are_rising_from(least: u64, points: &[Point]) -> bool
    ensures { result ≡ are_rising_from least points.now }
{
    let [point, others @ ..] = points else {
        return true;
    };
    is_from(least, point.moment) && are_rising_from(after(point.moment), others)
}

/// The points of a series.
fn points_of(alloc: Global, points: &[PlainPoint], series: u32) -> Result<PointList, Fail> {
    let mut found = PointList::new(alloc);
    for one in points {
        if one.series == series {
            found.push(point(one.moment, one.value))?;
        }
    }
    Ok(found)
}

/// The points of the world, of which there are at most six series.
fn source(rt: &impl Abort, world: &World) -> Result<ListPoints, Fail> {
    let alloc = world.alloc;
    let all = world.points.as_slice();
    let a = points_of(alloc, all, 0)?;
    let b = points_of(alloc, all, 1)?;
    let c = points_of(alloc, all, 2)?;
    let d = points_of(alloc, all, 3)?;
    let e = points_of(alloc, all, 4)?;
    let f = points_of(alloc, all, 5)?;
    assert!(rt; are_rising_from(0, a.as_slice()));
    assert!(rt; are_rising_from(0, b.as_slice()));
    assert!(rt; are_rising_from(0, c.as_slice()));
    assert!(rt; are_rising_from(0, d.as_slice()));
    assert!(rt; are_rising_from(0, e.as_slice()));
    assert!(rt; are_rising_from(0, f.as_slice()));
    Ok(ListPoints::new(
        MomentList::from_vec(vec![in alloc; 1]?),
        MomentList::from_vec(vec![in alloc; world.floor]?),
        SeriesPointsList::from_vec(vec![in alloc; a, b, c, d, e, f]?),
    ))
}

/// The last point of a series.
fn last_point(points: &[PlainPoint], series: u32) -> Option<PlainPoint> {
    let mut last = None;
    for one in points {
        if one.series == series {
            last = Some(*one);
        }
    }
    last
}

/// The last moments of the charts.
fn moments_of(world: &World) -> Result<MomentList, Fail> {
    let mut moments = MomentList::new(world.alloc);
    let mut number: u32 = 0;
    for _ in world.charts.as_slice() {
        moments.push(last_moment(world.points.as_slice(), number))?;
        number = number.saturating_add(1);
    }
    Ok(moments)
}

/// What was last seen. A collected value is one more than that of its point.
fn latest_of(world: &World) -> Result<Latest, Fail> {
    let mut points = SeriesPointList::new(world.alloc);
    let mut raws = SeriesValueList::new(world.alloc);
    let mut number: u32 = 0;
    for _ in world.series.as_slice() {
        let last = last_point(world.points.as_slice(), number);
        points.push(last.map(|last| point(last.moment, last.value)))?;
        raws.push(last.map(|last| i64::from(last.value).saturating_add(1)))?;
        number = number.saturating_add(1);
    }
    Ok(Latest {
        before: world.before,
        charts: moments_of(world)?,
        points,
        raws,
    })
}

/// The kept states as lines.
fn kept_lines(alloc: Global, states: &[KeptState]) -> Result<String, Fail> {
    let mut text = String::new(alloc);
    for state in states {
        let value = value_text(alloc, state.value)?;
        let name = state.alarm.as_str();
        let (status, delay) = (state.status, state.delay);
        let line = state_line(alloc, name, state.chart, value.as_str(), status, delay)?;
        text.push_str(line.as_str())?;
    }
    Ok(text)
}

/// Compares how the alarms stand, by what is kept of them, and gives the alarms of that: they stand the same.
fn compare_states(
    rt: &impl Abort,
    alarms: &Alarms,
    registry: &Registry,
    world: &World,
) -> Result<Alarms, Fail> {
    let alloc = world.alloc;
    let kept = kept_of(alarms)?;
    let states = kept_lines(alloc, kept.states.as_slice())?;
    assert_eq!(rt;
        states.as_str(),
        plain_lines(world)?.as_str(),
        "{}",
        world.moment
    );
    let restored = alarms_of(alloc, &kept, registry)?;
    let again = kept_of(&restored)?;
    let states_again = kept_lines(alloc, again.states.as_slice())?;
    assert_eq!(rt; states_again.as_str(), states.as_str());
    Ok(restored)
}

/// Compares what a call told and how the alarms stand. It gives the alarms of what is kept of them.
fn compare(
    rt: &impl Abort,
    alarms: &Alarms,
    registry: &Registry,
    world: &World,
    events: &EventList,
) -> Result<Alarms, Fail> {
    let told = lines(world.alloc, events)?;
    assert_eq!(rt; told.as_str(), world.told.as_str(), "{}", world.moment);
    compare_states(rt, alarms, registry, world)
}

/// One of the two texts of an alarm.
fn text_of(draws: &mut Draws, rule: &Rule) -> &'static str {
    if draws.below(2) == 0 {
        rule.texts.0
    } else {
        rule.texts.1
    }
}

/// Draws 4 to 9 of the alarms, each once, and gives their text.
fn draw_rules(draws: &mut Draws, world: &mut World) -> Result<String, Fail> {
    let mut text = String::new(world.alloc);
    world.rules.clear();
    let mut place = draws.below(11);
    for _ in 0..draws.below(6).saturating_add(4) {
        place = place.saturating_add(4) % 11;
        if let Some(rule) = RULES.get(place as usize) {
            world.rules.push(*rule)?;
            text.push_str(text_of(draws, rule))?;
        }
    }
    Ok(text)
}

/// Another configuration.
fn configure(
    rt: &impl Abort,
    draws: &mut Draws,
    alarms: &mut Alarms,
    registry: &Registry,
    world: &mut World,
) -> Result<Alarms, Fail> {
    let text = draw_rules(draws, world)?;
    pair(world, world.moment)?;
    let config = read_config(world.alloc, text.as_str())?;
    let events = configured(alarms, config, registry, world.moment)?;
    compare(rt, alarms, registry, world, &events)
}

/// Takes a chart by the number that its id has or gets, which is given; a chart that may not be taken fails.
fn define_chart(registry: &mut Registry, def: ChartDef) -> Result<u32, Fail> {
    let number = registry
        .chart_of(def.id.as_str())
        .unwrap_or(registry.charts());
    let chart = NumberedChart { number, def };
    if !registry.takes_chart(&chart) {
        return Err(Fail::from("a chart may not be taken"));
    }
    registry.take_chart(&chart)?;
    Ok(number)
}

/// The same of a dimension.
fn define_dimension(registry: &mut Registry, chart: u32, def: DimDef) -> Result<(), Fail> {
    if chart >= registry.charts() {
        return Err(Fail::from("no such chart"));
    }
    let series = registry
        .series_of(chart, def.id.as_str())
        .unwrap_or(registry.dimensions());
    let dimension = NumberedDimension { series, chart, def };
    if !registry.takes_dimension(&dimension) {
        return Err(Fail::from("a dimension may not be taken"));
    }
    registry.take_dimension(&dimension)?;
    Ok(())
}

/// Defines a chart: the next one, or one that is there with the other context.
fn grow_chart(
    registry: &mut Registry,
    world: &mut World,
    place: usize,
    even: bool,
) -> Result<(), Fail> {
    let Some((id, name, said)) = CHARTS.get(place) else {
        return Ok(());
    };
    let context = if even { "even" } else { "odd" };
    define_chart(registry, chart_def(world.alloc, id, name, context)?)?;
    match world.charts.get_mut(place) {
        Some(chart) => chart.even = even,
        None => world.charts.push(PlainChart { id, said, even })?,
    }
    Ok(())
}

/// Draws which chart is defined, and how.
fn draw_chart(draws: &mut Draws, registry: &mut Registry, world: &mut World) -> Result<(), Fail> {
    let place = (draws.below(3) as usize).min(world.charts.len());
    let even = draws.below(2) == 0;
    grow_chart(registry, world, place, even)
}

fn has_series(world: &World, chart: u32, id: &str) -> bool {
    world
        .series
        .iter()
        .any(|series| series.chart == chart && series.id == id)
}

/// Draws a dimension, and defines it where it is not there yet. The second of the third chart is hidden.
fn draw_dimension(
    draws: &mut Draws,
    registry: &mut Registry,
    world: &mut World,
) -> Result<(), Fail> {
    let chart = draws.below(3);
    let (id, name) = if draws.below(2) == 0 {
        ("a", "used")
    } else {
        ("b", "free")
    };
    let hidden = chart == 2 && id == "b";
    if chart < registry.charts() && !has_series(world, chart, id) {
        define_dimension(registry, chart, dim_def(world.alloc, id, name, hidden)?)?;
        world.series.push(PlainSeries { chart, id, hidden })?;
    }
    Ok(())
}

/// Charts change, or there are more.
fn grow(draws: &mut Draws, registry: &mut Registry, world: &mut World) -> Result<(), Fail> {
    if draws.below(3) == 0 {
        draw_chart(draws, registry, world)
    } else {
        draw_dimension(draws, registry, world)
    }
}

/// From -20 to 20.
fn draw_value(draws: &mut Draws) -> i32 {
    i32::try_from(draws.below(41))
        .unwrap_or(0)
        .saturating_sub(20)
}

/// The points of a beat: a fourth of the series has none.
fn draw_points(draws: &mut Draws, world: &mut World) -> Result<(), Fail> {
    let mut number: u32 = 0;
    for series in world.series.as_slice() {
        if draws.below(4) > 0 {
            world.points.push(PlainPoint {
                series: number,
                of: *series,
                moment: world.moment,
                value: draw_value(draws),
            })?;
        }
        number = number.saturating_add(1);
    }
    Ok(())
}

/// The next moment, now and then after a gap, and at times another floor.
fn draw_moment(draws: &mut Draws, world: &mut World) {
    world.before = world.moment;
    let later = if draws.below(10) == 0 {
        30
    } else {
        draws.below(3).saturating_add(1)
    };
    world.moment = world.moment.saturating_add(later);
    if draws.below(8) == 0 {
        let floor = world.moment.saturating_sub(draws.below(12));
        world.floor = world.floor.max(floor);
    }
}

/// A beat. Its points below the floor are still the last ones of their series.
fn beat(
    rt: &impl Abort,
    draws: &mut Draws,
    alarms: &mut Alarms,
    registry: &Registry,
    world: &mut World,
) -> Result<Alarms, Fail> {
    draw_moment(draws, world);
    draw_points(draws, world)?;
    take_beat(world)?;
    let latest = latest_of(world)?;
    let mut points = source(rt, world)?;
    let events = stepped(alarms, world.moment, registry, &latest, &mut points)?;
    compare(rt, alarms, registry, world, &events)
}

/// A random step. The alarms behind it are those of what is kept of them.
fn step(
    rt: &impl Abort,
    draws: &mut Draws,
    alarms: &mut Alarms,
    registry: &mut Registry,
    world: &mut World,
) -> Result<(), Fail> {
    match draws.below(16) {
        0 => *alarms = configure(rt, draws, alarms, registry, world)?,
        1 | 2 => grow(draws, registry, world)?,
        _ => *alarms = beat(rt, draws, alarms, registry, world)?,
    }
    Ok(())
}

fn new_world(alloc: Global) -> World {
    World {
        alloc,
        charts: Vec::new(alloc),
        series: Vec::new(alloc),
        points: Vec::new(alloc),
        rules: Vec::new(alloc),
        states: Vec::new(alloc),
        floor: 0,
        before: 0,
        moment: 0,
        events: 0,
        told: String::new(alloc),
        all: String::new(alloc),
    }
}

/// Draws the first charts and dimensions.
fn begin(draws: &mut Draws, registry: &mut Registry, world: &mut World) -> Result<(), Fail> {
    for _ in 0..8 {
        grow(draws, registry, world)?;
    }
    Ok(())
}

/// Takes random steps from a seed on, and compares the log.
fn run(rt: &impl Abort, alloc: Global, seed: u64, steps: u32) -> Result<(), Fail> {
    let mut draws = Draws { state: seed };
    let mut alarms = new_alarms(alloc)?;
    let mut registry = Registry::new(alloc);
    let mut world = new_world(alloc);
    begin(&mut draws, &mut registry, &mut world)?;
    alarms = configure(rt, &mut draws, &mut alarms, &registry, &mut world)?;
    for _ in 0..steps {
        step(rt, &mut draws, &mut alarms, &mut registry, &mut world)?;
    }
    let log = log_of(&alarms)?;
    assert_eq!(rt; log.dropped, 0);
    assert_eq!(rt; lines(alloc, &log.events)?.as_str(), world.all.as_str());
    assert!(rt; world.events > 30, "{}", world.events);
    Ok(())
}

#[test]
fn two_hundred_random_steps(rt: HostRuntime) -> Result<(), Fail> {
    let alloc = rt.alloc();
    run(&rt, alloc, 7, 100)?;
    run(&rt, alloc, 2_026, 100)
}
