//! The rules of alarms once more, for alarms of a few kinds. What one is worth is found by going over all
//! points, and what is told is written as lines.
use super::*;
use std::mem::replace;

/// What an alarm is worth.
#[derive(Clone, Copy)]
pub enum Plain {
    Nan,
    /// An infinity, which may be negative.
    Inf(bool),
    Whole(i64),
}

/// How an alarm finds what it is worth.
#[derive(Clone, Copy)]
pub enum Worth {
    /// The last value of a dimension.
    Last(&'static str),
    /// The last collected value of a dimension.
    Raw(&'static str),
    /// The sum of a dimension over so many seconds that end so many seconds ago.
    Sum(&'static str, u32, u32),
    /// The greatest of each dimension over so many seconds, all together and one more.
    Greatest(u32),
    /// How many steps came behind the first.
    Steps,
    /// The last value of a dimension over 0.
    OverZero(&'static str),
    /// How long ago the chart had a point.
    Age,
}

/// What makes a status.
#[derive(Clone, Copy)]
pub enum Check {
    /// The alarm is worth more than a number.
    Above(i64),
    /// It is worth more than the first number where it was raised, else more than the second.
    Sticky(i64, i64),
    /// The last value of a dimension is not 0.
    Last(&'static str),
}

/// An alarm: its text, that in other words, and what both say.
#[derive(Clone, Copy)]
pub struct Rule {
    /// Which of the alarms it is.
    pub number: u32,
    pub texts: (&'static str, &'static str),
    pub name: &'static str,
    pub template: bool,
    pub on: &'static str,
    pub every: u32,
    pub worth: Worth,
    pub warn: Option<Check>,
    pub crit: Option<Check>,
    pub up: u32,
    pub down: u32,
    /// The multiplier of delays, in tenths.
    pub tenths: u32,
    /// The longest delay.
    pub most: u32,
    /// Whether a change to clear is not told.
    pub silent: bool,
}

/// A chart: its id, what its type and its name say, and whether its context is `even` or `odd`.
#[derive(Clone, Copy)]
pub struct PlainChart {
    pub id: &'static str,
    pub said: &'static str,
    pub even: bool,
}

/// A dimension of a chart.
#[derive(Clone, Copy)]
pub struct PlainSeries {
    pub chart: u32,
    pub id: &'static str,
    pub hidden: bool,
}

/// A point, and its series by number and by what it is.
#[derive(Clone, Copy)]
pub struct PlainPoint {
    pub series: u32,
    pub of: PlainSeries,
    pub moment: u32,
    pub value: i32,
}

/// How an alarm of a chart stands.
#[derive(Clone, Copy)]
pub struct PlainState {
    pub rule: Rule,
    pub chart: u32,
    pub value: Plain,
    pub status: Status,
    pub delay: Option<Delay>,
}

/// All that there was, and how the alarms stand.
#[derive(Drop)]
pub struct World {
    pub alloc: Global,
    pub charts: Vec<PlainChart>,
    pub series: Vec<PlainSeries>,
    pub points: Vec<PlainPoint>,
    pub rules: Vec<Rule>,
    pub states: Vec<PlainState>,
    /// The moment below which points are gone.
    pub floor: u32,
    /// The moments of the last beat but one and of the last beat.
    pub before: u32,
    pub moment: u32,
    pub events: u64,
    /// The lines of the events of the last call, and of all.
    pub told: String,
    pub all: String,
}

// ---- what points say

fn is_of(point: &PlainPoint, chart: u32, id: &str) -> bool {
    point.of.chart == chart && point.of.id == id
}

/// The last value of a dimension.
fn last_of(points: &[PlainPoint], chart: u32, id: &str) -> Option<i64> {
    let mut last = None;
    for point in points {
        if is_of(point, chart, id) {
            last = Some(i64::from(point.value));
        }
    }
    last
}

/// The last moment of a chart, and 0 where it has none.
pub fn last_moment(points: &[PlainPoint], chart: u32) -> u32 {
    let mut last = 0;
    for point in points {
        if point.of.chart == chart {
            last = point.moment;
        }
    }
    last
}

/// So many seconds up to a moment and with it: the first moment, and the one behind the last.
fn window_of(moment: u32, after: u32, before: u32) -> (u32, u32) {
    let stop = moment.saturating_add(1).saturating_sub(before);
    (stop.saturating_sub(after), stop)
}

fn is_in(point: &PlainPoint, window: (u32, u32)) -> bool {
    window.0 <= point.moment && point.moment < window.1
}

fn sum_in(points: &[PlainPoint], chart: u32, id: &str, window: (u32, u32)) -> Option<i64> {
    let mut sum: Option<i64> = None;
    for point in points {
        if is_of(point, chart, id) && is_in(point, window) {
            sum = Some(sum.unwrap_or(0).saturating_add(i64::from(point.value)));
        }
    }
    sum
}

/// The greatest value of a dimension that is not hidden.
fn greatest_in(points: &[PlainPoint], chart: u32, id: &str, window: (u32, u32)) -> Option<i64> {
    let mut greatest: Option<i64> = None;
    for point in points {
        if is_of(point, chart, id) && is_in(point, window) && !point.of.hidden {
            let value = i64::from(point.value);
            greatest = Some(greatest.unwrap_or(value).max(value));
        }
    }
    greatest
}

// ---- the value

fn whole_or_nan(value: Option<i64>) -> Plain {
    match value {
        Some(value) => Plain::Whole(value),
        None => Plain::Nan,
    }
}

fn one_more(value: Option<i64>) -> Plain {
    match value {
        Some(value) => Plain::Whole(value.saturating_add(1)),
        None => Plain::Nan,
    }
}

/// The sum of two numbers, of which either may be missing.
fn together(one: Option<i64>, other: Option<i64>) -> Option<i64> {
    match (one, other) {
        (Some(one), Some(other)) => Some(one.saturating_add(other)),
        (Some(one), None) => Some(one),
        (None, other) => other,
    }
}

fn sum_found(world: &World, chart: u32, id: &str, after: u32, before: u32) -> Plain {
    let window = window_of(world.moment, after, before);
    if window.0 < world.floor {
        return Plain::Nan;
    }
    whole_or_nan(sum_in(world.points.as_slice(), chart, id, window))
}

fn greatest_found(world: &World, chart: u32, after: u32) -> Plain {
    let window = window_of(world.moment, after, 0);
    if window.0 < world.floor {
        return Plain::Nan;
    }
    let points = world.points.as_slice();
    let a = greatest_in(points, chart, "a", window);
    let b = greatest_in(points, chart, "b", window);
    one_more(together(a, b))
}

fn next_of(value: Plain) -> Plain {
    match value {
        Plain::Whole(steps) => Plain::Whole(steps.saturating_add(1)),
        _ => Plain::Whole(0),
    }
}

fn over_zero(value: Option<i64>) -> Plain {
    match value {
        Some(0) | None => Plain::Nan,
        Some(value) => Plain::Inf(value < 0),
    }
}

fn age_of(world: &World, chart: u32) -> Plain {
    match last_moment(world.points.as_slice(), chart) {
        0 => Plain::Nan,
        last => Plain::Whole(i64::from(world.moment.saturating_sub(last))),
    }
}

fn value_of(world: &World, state: &PlainState) -> Plain {
    let points = world.points.as_slice();
    let chart = state.chart;
    match state.rule.worth {
        Worth::Last(id) => whole_or_nan(last_of(points, chart, id)),
        Worth::Raw(id) => one_more(last_of(points, chart, id)),
        Worth::Sum(id, after, before) => sum_found(world, chart, id, after, before),
        Worth::Greatest(after) => greatest_found(world, chart, after),
        Worth::Steps => next_of(state.value),
        Worth::OverZero(id) => over_zero(last_of(points, chart, id)),
        Worth::Age => age_of(world, chart),
    }
}

// ---- the status

/// 1 where a number is above another, and 0 where it is not.
fn above(number: i64, other: i64) -> i64 {
    if number > other { 1 } else { 0 }
}

/// What a check is worth for an alarm that is worth a number: none is nan.
fn worth_of(world: &World, state: &PlainState, number: i64, check: Check) -> Option<i64> {
    match check {
        Check::Above(limit) => Some(above(number, limit)),
        Check::Sticky(low, _) if state.status.is_raised() => Some(above(number, low)),
        Check::Sticky(_, high) => Some(above(number, high)),
        Check::Last(id) => last_of(world.points.as_slice(), state.chart, id),
    }
}

/// The same of a check that may be missing.
fn worth_of_some(
    world: &World,
    state: &PlainState,
    number: i64,
    check: Option<Check>,
) -> Option<i64> {
    worth_of(world, state, number, check?)
}

fn is_true(worth: Option<i64>) -> bool {
    worth.unwrap_or(0) != 0
}

fn status_of(world: &World, state: &PlainState, value: Plain) -> Status {
    let Plain::Whole(number) = value else {
        return Status::Undefined;
    };
    let warn = worth_of_some(world, state, number, state.rule.warn);
    let crit = worth_of_some(world, state, number, state.rule.crit);
    if is_true(crit) {
        Status::Critical
    } else if is_true(warn) {
        Status::Warning
    } else if warn.is_some() || crit.is_some() {
        Status::Clear
    } else {
        Status::Undefined
    }
}

// ---- the delay

/// The place of a status in their order.
fn place_of(status: Status) -> u32 {
    match status {
        Status::Removed => 0,
        Status::Undefined => 1,
        Status::Uninitialized => 2,
        Status::Clear => 3,
        Status::Warning => 4,
        Status::Critical => 5,
    }
}

fn is_told(rule: &Rule, old: Status, new: Status) -> bool {
    match new {
        Status::Warning | Status::Critical => true,
        Status::Clear => old.is_raised() && !rule.silent,
        _ => false,
    }
}

fn times(rule: &Rule, seconds: u32) -> u32 {
    let tenths = u64::from(seconds).saturating_mul(u64::from(rule.tenths));
    u32::try_from(tenths / 10).unwrap_or(u32::MAX)
}

/// How long a rise and a fall wait.
fn waits_of(rule: &Rule, before: Option<Delay>, moment: u32) -> (u32, u32) {
    let (up, down) = match before {
        Some(delay) if moment <= delay.due => (times(rule, delay.up), times(rule, delay.down)),
        _ => (rule.up, rule.down),
    };
    (up.min(rule.most), down.min(rule.most))
}

/// The delay of a change that is told.
fn delay_of(rule: &Rule, state: &PlainState, moment: u32, new: Status) -> Option<Delay> {
    let old = state.status;
    if place_of(old) == place_of(new) || !is_told(rule, old, new) {
        return None;
    }
    let (up, down) = waits_of(rule, state.delay, moment);
    let wait = if place_of(old) < place_of(new) {
        up
    } else {
        down
    };
    let due = moment.saturating_add(wait);
    Some(Delay { up, down, due })
}

fn due_of(delay: Option<Delay>) -> Option<u32> {
    Some(delay?.due)
}

// ---- lines

/// The text of a value.
fn plain_text(alloc: Global, value: Plain) -> Result<String, AllocError> {
    match value {
        Plain::Nan => String::from_str(alloc, "nan"),
        Plain::Inf(false) => String::from_str(alloc, "inf"),
        Plain::Inf(true) => String::from_str(alloc, "-inf"),
        Plain::Whole(number) => format!(in alloc; "{number}"),
    }
}

fn due_text(alloc: Global, due: Option<u32>) -> Result<String, AllocError> {
    match due {
        Some(due) => format!(in alloc; "{due}"),
        None => String::from_str(alloc, "-"),
    }
}

/// The id of a chart.
fn id_of(charts: &[PlainChart], chart: u32) -> &'static str {
    match charts.get(chart as usize) {
        Some(chart) => chart.id,
        None => "",
    }
}

/// The words of an event behind its number and its moment.
fn event_words(
    world: &World,
    state: &PlainState,
    new: Status,
    value: Plain,
    due: Option<u32>,
) -> Result<String, AllocError> {
    let id = id_of(world.charts.as_slice(), state.chart);
    let name = state.rule.name;
    let old = state.status.name();
    let new = new.name();
    let value = plain_text(world.alloc, value)?;
    let due = due_text(world.alloc, due)?;
    format!(in world.alloc; "{id} {name} {old} {new} {value} {due}")
}

/// Tells an event.
fn tell(world: &mut World, moment: u32, words: &str) -> Result<(), AllocError> {
    world.events = world.events.saturating_add(1);
    let line = format!(in world.alloc; "EVENT {} {moment} {words}\n", world.events)?;
    world.told.push_str(line.as_str())?;
    world.all.push_str(line.as_str())
}

/// A state as a line.
pub fn state_line(
    alloc: Global,
    name: &str,
    chart: u32,
    value: &str,
    status: Status,
    delay: Option<Delay>,
) -> Result<String, AllocError> {
    let status = status.name();
    match delay {
        Some(Delay { up, down, due }) => {
            format!(in alloc; "{name} {chart} {value} {status} {up} {down} {due}\n")
        }
        None => format!(in alloc; "{name} {chart} {value} {status}\n"),
    }
}

fn plain_line(alloc: Global, state: &PlainState) -> Result<String, AllocError> {
    let value = plain_text(alloc, state.value)?;
    let name = state.rule.name;
    state_line(
        alloc,
        name,
        state.chart,
        value.as_str(),
        state.status,
        state.delay,
    )
}

/// The states as lines.
pub fn plain_lines(world: &World) -> Result<String, AllocError> {
    let mut text = String::new(world.alloc);
    for state in world.states.as_slice() {
        let line = plain_line(world.alloc, state)?;
        text.push_str(line.as_str())?;
    }
    Ok(text)
}

// ---- which states there are

fn is_on(rule: &Rule, chart: &PlainChart) -> bool {
    if rule.template {
        rule.on == if chart.even { "even" } else { "odd" }
    } else {
        rule.on == chart.id || rule.on == chart.said
    }
}

/// Whether an alarm goes before another of its name.
fn goes_before(other: &Rule, is_earlier: bool, rule: &Rule) -> bool {
    if other.template == rule.template {
        is_earlier
    } else {
        rule.template
    }
}

/// Whether the alarm at a place is the one of its name that counts on a chart.
fn counts(rules: &[Rule], place: usize, rule: &Rule, chart: &PlainChart) -> bool {
    for (other_place, other) in rules.iter().enumerate() {
        let is_rival = other.name == rule.name && is_on(other, chart);
        if is_rival && goes_before(other, other_place < place, rule) {
            return false;
        }
    }
    is_on(rule, chart)
}

/// Adds new states of the charts on which an alarm counts.
fn push_fresh(
    states: &mut Vec<PlainState>,
    rules: &[Rule],
    place: usize,
    rule: &Rule,
    charts: &[PlainChart],
) -> Result<(), AllocError> {
    let mut number: u32 = 0;
    for chart in charts {
        if counts(rules, place, rule, chart) {
            states.push(fresh(rule, number))?;
        }
        number = number.saturating_add(1);
    }
    Ok(())
}

fn fresh(rule: &Rule, chart: u32) -> PlainState {
    PlainState {
        rule: *rule,
        chart,
        value: Plain::Nan,
        status: Status::Uninitialized,
        delay: None,
    }
}

/// A new state for each alarm and each chart on which it counts.
fn all_fresh(world: &World) -> Result<Vec<PlainState>, AllocError> {
    let mut states = Vec::new(world.alloc);
    let rules = world.rules.as_slice();
    for (place, rule) in rules.iter().enumerate() {
        push_fresh(&mut states, rules, place, rule, world.charts.as_slice())?;
    }
    Ok(states)
}

/// The state of the same alarm and chart.
fn found(states: &[PlainState], like: &PlainState) -> Option<PlainState> {
    for state in states {
        if state.rule.number == like.rule.number && state.chart == like.chart {
            return Some(*state);
        }
    }
    None
}

/// Tells which states go.
fn tell_removals(
    world: &mut World,
    moment: u32,
    before: &[PlainState],
    wanted: &[PlainState],
) -> Result<(), AllocError> {
    for state in before {
        if found(wanted, state).is_none() {
            let words = event_words(world, state, Status::Removed, Plain::Nan, None)?;
            tell(world, moment, words.as_str())?;
        }
    }
    Ok(())
}

/// Takes the alarms and the charts as they are now.
pub fn pair(world: &mut World, moment: u32) -> Result<(), AllocError> {
    world.told.clear();
    let wanted = all_fresh(world)?;
    let before = replace(&mut world.states, Vec::new(world.alloc));
    tell_removals(world, moment, before.as_slice(), wanted.as_slice())?;
    for state in wanted.as_slice() {
        let state = found(before.as_slice(), state).unwrap_or(*state);
        world.states.push(state)?;
    }
    Ok(())
}

// ---- steps

fn is_due(world: &World, every: u32) -> bool {
    world.moment / every.max(1) != world.before / every.max(1)
}

/// The state after a beat, and what is told of it.
fn stepped(world: &mut World, state: &PlainState) -> Result<PlainState, AllocError> {
    if !is_due(world, state.rule.every) {
        return Ok(*state);
    }
    let value = value_of(world, state);
    let status = status_of(world, state, value);
    let delay = delay_of(&state.rule, state, world.moment, status);
    if place_of(state.status) != place_of(status) {
        let words = event_words(world, state, status, value, due_of(delay))?;
        tell(world, world.moment, words.as_str())?;
    }
    Ok(PlainState {
        value,
        status,
        delay: delay.or(state.delay),
        ..*state
    })
}

/// Takes the last beat.
pub fn take_beat(world: &mut World) -> Result<(), AllocError> {
    pair(world, world.moment)?;
    let states = replace(&mut world.states, Vec::new(world.alloc));
    for state in states.as_slice() {
        let state = stepped(world, state)?;
        world.states.push(state)?;
    }
    Ok(())
}
