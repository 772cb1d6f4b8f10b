//! Collectors whose children are drawn, told twice: by a runner and by the top call.

ghost use Rattle.std.specs.Prelude.{◌<◌};

use children::{draw_child, draw_readings};
use cut::Cut;
use draws::Draws;
use fixed_num::{ByteList, Text, WordsList};
use host_model::{CallList, Clock, MemoryClock, MemorySpawner};
use plain::Plain;
use plugin_runner::{RunFault, Runner, Turn};
use std::alloc::{AllocError, Global};
use std::test::Fail;
use told::first_untold;

mod children;
mod cut;
mod draws;
mod plain;
mod told;

/// The seconds between beats.
static EVERY: [u64; 8] = [1, 1, 1, 1, 2, 5, 7, 86_400];

/// A collector of which nothing was drawn but its numbers.
fn draw_plain(alloc: Global, draws: &mut Draws) -> Result<Plain, AllocError> {
    let place = draws.below(8) as usize;
    let mut readings = Vec::new(alloc);
    draw_readings(draws, &mut readings)?;
    Ok(Plain {
        alloc,
        every: EVERY.get(place).copied().unwrap_or(1),
        starts: draws.below(4).saturating_add(1),
        readings,
        next: 0,
        started: 0,
        last: draws.below(1_010).max(1),
        begun: false,
        reading: 0,
        block: None,
        rows: Vec::new(alloc),
        text: Vec::new(alloc),
        outcome: None,
    })
}

/// A spawner with no child, whose cuts are those of a seed.
fn new_cut(alloc: Global, seed: u64) -> Cut {
    Cut {
        inner: MemorySpawner::new(alloc, CallList::new(alloc)),
        draws: Draws::new(seed),
    }
}

/// A child is drawn, and put behind those to come of both spawners.
fn add_child(
    draws: &mut Draws,
    plain: &mut Plain,
    first: &mut Cut,
    second: &mut Cut,
) -> Result<(), Fail> {
    let mut bytes = Vec::new(plain.alloc);
    let status = draw_child(draws, &mut bytes, plain)?;
    first.inner.add(bytes.as_slice(), status)?;
    second.inner.add(bytes.as_slice(), status)?;
    Ok(())
}

/// As many children as may be started. Now and then one is missing.
fn add_children(
    draws: &mut Draws,
    plain: &mut Plain,
    first: &mut Cut,
    second: &mut Cut,
) -> Result<(), Fail> {
    let missing = u64::from(draws.is_rare(16));
    for _ in missing..plain.starts {
        add_child(draws, plain, first, second)?;
    }
    Ok(())
}

fn words_of(alloc: Global, words: &[&str]) -> Result<WordsList, AllocError> {
    let mut list = WordsList::new(alloc);
    for word in words {
        list.push(Text::from_str(alloc, word)?)?;
    }
    Ok(list)
}

/// A small number that is not 0.
fn small(number: u64) -> u32
    ensures { 0 < result }
{
    u32::try_from(number).unwrap_or(1).max(1)
}

/// The runner of a collector of which nothing is told yet.
fn runner_of(plain: &Plain, last: u64) -> Result<Option<Runner>, AllocError> {
    let words = words_of(plain.alloc, &["p", "x"])?;
    if words.is_empty() {
        return Ok(None);
    }
    let every = small(plain.every);
    let starts = small(plain.starts);
    Ok(Some(Runner::new(plain.alloc, words, every, starts, small(last))))
}

/// Takes turns until one answers something else than `More`.
fn take_turns(
    runner: &mut Runner,
    spawner: &mut Cut,
    clock: &mut MemoryClock,
    out: &mut ByteList,
) -> Result<Turn, RunFault> {
    for _ in 0..1_000_000 {
        match runner.turn(spawner, clock, out) {
            Ok(Turn::More) => {}
            outcome => return outcome,
        }
    }
    Ok(Turn::More)
}

/// Whether a start was made with these words.
fn is_start(start: &WordsList, wanted: &[&str]) -> bool {
    let mut are_equal = start.len() == wanted.len();
    for (word, want) in start.as_slice().iter().zip(wanted) {
        are_equal = are_equal && word.as_str() == *want;
    }
    are_equal
}

/// Whether each start was made with the words of the collector, and there were as many as there are
/// to be.
fn are_starts(plain: &Plain, starts: &[WordsList]) -> Result<bool, AllocError> {
    let every = format!(in plain.alloc; "{}", plain.every)?;
    let mut are_equal = starts.len() as u64 == plain.started;
    for start in starts {
        are_equal = are_equal && is_start(start, &["p", every.as_str(), "x"]);
    }
    Ok(are_equal)
}

/// What a runner does otherwise than the rules say.
fn first_difference(
    plain: &mut Plain,
    last: u64,
    spawner: &mut Cut,
) -> Result<Option<&'static str>, Fail> {
    let Some(mut runner) = runner_of(plain, last)? else {
        return Ok(Some("words"));
    };
    let mut clock = MemoryClock::new(plain.alloc, plain.readings.as_slice())?;
    let mut out = ByteList::new(plain.alloc);
    if take_turns(&mut runner, spawner, &mut clock, &mut out) != plain.answer() {
        return Ok(Some("answer"));
    }
    if out.as_slice() != plain.text.as_slice() {
        return Ok(Some("text"));
    }
    if !are_starts(plain, spawner.inner.starts())? {
        return Ok(Some("starts"));
    }
    if clock.moment() != plain.read_clock() {
        return Ok(Some("clock"));
    }
    Ok(None)
}

/// What is otherwise than it should be with the collector of a seed, and how many children were
/// started.
fn try_seed(alloc: Global, seed: u64) -> Result<(Option<&'static str>, u64), Fail> {
    let mut draws = Draws::new(seed);
    let mut plain = draw_plain(alloc, &mut draws)?;
    let last = plain.last;
    let mut first = new_cut(alloc, seed.saturating_add(1));
    let mut second = new_cut(alloc, seed.saturating_add(2));
    add_children(&mut draws, &mut plain, &mut first, &mut second)?;
    let wrong = match first_untold(&plain, last, &mut second)? {
        None => first_difference(&mut plain, last, &mut first)?,
        wrong => wrong,
    };
    Ok((wrong, plain.started))
}

#[test]
fn random_children_are_taken_as_the_rules_say(rt: HostRuntime) -> Result<(), Fail> {
    let mut started = 0u64;
    for seed in 0..200 {
        let (wrong, children) = try_seed(rt.alloc(), seed)?;
        assert_eq!(rt; wrong, None, "at {seed}");
        started = started.saturating_add(children);
    }
    assert!(rt; started >= 300, "{started}");
    Ok(())
}
