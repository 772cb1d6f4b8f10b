//! Random histories of a child whose floor rises, of which a parent hears by and by.

use super::draws::Draws;
use super::schedule::{Counts, Schedule};
use std::alloc::Global;
use std::test::Fail;

/// What is wrong where the child grows, and where both speak.
fn step(
    schedule: &mut Schedule,
    draws: &mut Draws,
    counts: &mut Counts,
) -> Result<Option<&'static str>, Fail> {
    if !schedule.grow(draws)? {
        return Ok(Some("run"));
    }
    if draws.is_rare(2) {
        return Ok(None);
    }
    if !schedule.exchange(draws)? {
        return Ok(Some("status"));
    }
    schedule.first_wrong(false, counts)
}

/// What is wrong once nothing is left to say.
fn last_step(schedule: &mut Schedule, counts: &mut Counts) -> Result<Option<&'static str>, Fail> {
    if !schedule.finish()? {
        return Ok(Some("no end"));
    }
    schedule.first_wrong(true, counts)
}

/// What is wrong with the history of a seed.
fn wrong_at(alloc: Global, seed: u64, counts: &mut Counts) -> Result<Option<&'static str>, Fail> {
    let mut draws = Draws::new(seed);
    let mut schedule = Schedule::draw(alloc, &mut draws)?;
    for _ in 0..8 {
        let wrong = step(&mut schedule, &mut draws, counts)?;
        if wrong.is_some() {
            return Ok(wrong);
        }
    }
    last_step(&mut schedule, counts)
}

/// The first of fifty seeds with which something is wrong, and what, and the counts of all.
fn try_fifty(alloc: Global, from: u64) -> Result<(Option<(u64, &'static str)>, Counts), Fail> {
    let mut counts = Counts {
        has: 0,
        lacks: 0,
        gaps: 0,
    };
    for seed in from..from.saturating_add(50) {
        if let Some(wrong) = wrong_at(alloc, seed, &mut counts)? {
            return Ok((Some((seed, wrong)), counts));
        }
    }
    Ok((None, counts))
}

/// Whether there is something to see in the histories.
fn are_many(counts: Counts) -> bool {
    counts.has >= 500 && counts.lacks >= 100 && counts.gaps >= 50
}

#[test]
fn the_first_fifty_histories(rt: HostRuntime) -> Result<(), Fail> {
    let (wrong, counts) = try_fifty(rt.alloc(), 0)?;
    assert_eq!(rt; wrong, None);
    assert!(rt; are_many(counts), "{counts:?}");
    Ok(())
}

#[test]
fn the_second_fifty_histories(rt: HostRuntime) -> Result<(), Fail> {
    let (wrong, counts) = try_fifty(rt.alloc(), 50)?;
    assert_eq!(rt; wrong, None);
    assert!(rt; are_many(counts), "{counts:?}");
    Ok(())
}

#[test]
fn the_third_fifty_histories(rt: HostRuntime) -> Result<(), Fail> {
    let (wrong, counts) = try_fifty(rt.alloc(), 100)?;
    assert_eq!(rt; wrong, None);
    assert!(rt; are_many(counts), "{counts:?}");
    Ok(())
}

#[test]
fn the_last_fifty_histories(rt: HostRuntime) -> Result<(), Fail> {
    let (wrong, counts) = try_fifty(rt.alloc(), 150)?;
    assert_eq!(rt; wrong, None);
    assert!(rt; are_many(counts), "{counts:?}");
    Ok(())
}
