ghost use Rattle.std.specs.Prelude.{◌<◌, ◌^◌, ◌≡◌, IsTrue};
ghost use Rattle.replication.specs.World.{step_points, points_in};

use fixed_num::Text;
use replication::laws::schedule;
use replication::{NamedPoint, NamedPointList, Step, StepList, World};
use std::alloc::Global;
use std::test::Fail;

fn points_of(step: &Step) -> usize
    ensures { result ≡ step_points step.now }
{
    match step {
        Step::ChildBeat { points, .. } => points.len(),
        Step::Ask => 0,
        Step::Answer { .. } => 0,
        Step::Deliver { .. } => 0,
    }
}

/// Whether the steps have few points, as `schedule` asks.
fn are_few(steps: &StepList) -> bool
    ensures { IsTrue result → points_in steps.now < 2 ^ 32 }
{
    let mut total = 0usize;
    for step in steps.as_slice() {
        let count = points_of(step);
        if count > 1_000_000 || total > 1_000_000 {
            return false;
        }
        total += count;
    }
    true
}

fn run(alloc: Global, steps: &StepList) -> Result<World, Fail> {
    if !are_few(steps) {
        return Err(Fail::from("too many points"));
    }
    Ok(schedule(alloc, steps)?)
}

fn point(alloc: Global, chart: &str, dimension: &str, word: u32) -> Result<NamedPoint, Fail> {
    Ok(NamedPoint {
        chart: Text::from_str(alloc, chart)?,
        dimension: Text::from_str(alloc, dimension)?,
        word,
    })
}

/// A beat of one point that is kept.
fn beat(alloc: Global, moment: u32, floor: u32) -> Result<Step, Fail> {
    let mut points = NamedPointList::new(alloc);
    points.push(point(alloc, "test.one", "a", 0x0100_0000)?)?;
    Ok(Step::ChildBeat {
        moment,
        floor,
        points,
        kept: true,
    })
}

/// The parent asks, and the child's answer comes to it.
fn copy(steps: &mut StepList, ask: u64) -> Result<(), Fail> {
    steps.push(Step::Ask)?;
    steps.push(Step::Answer { ask })?;
    steps.push(Step::Deliver {
        message: ask,
        keep: None,
    })?;
    Ok(())
}

/// A child that lost what came before 9 while the parent had 3.
fn lossy(alloc: Global) -> Result<StepList, Fail> {
    let mut steps = StepList::new(alloc);
    steps.push(beat(alloc, 1, 0)?)?;
    steps.push(beat(alloc, 3, 0)?)?;
    copy(&mut steps, 0)?;
    steps.push(beat(alloc, 7, 0)?)?;
    steps.push(beat(alloc, 10, 9)?)?;
    copy(&mut steps, 1)?;
    Ok(steps)
}

/// Whether the parent has the gap (3, 8] alone.
fn has_gap(world: &World) -> bool {
    match world.gaps.as_slice() {
        [gap] => gap.from == 3 && gap.to == 8,
        _ => false,
    }
}

/// Whether the parent holds the beats at 1, 3 and 10.
fn holds_beats(world: &World) -> bool {
    match world.held.as_slice() {
        [first, second, third] => (first.moment, second.moment, third.moment) == (1, 3, 10),
        _ => false,
    }
}

#[test]
fn a_parent_has_a_gap_for_what_a_child_lost(rt: HostRuntime) -> Result<(), Fail> {
    let world = run(rt.alloc(), &lossy(rt.alloc())?)?;
    assert!(rt; has_gap(&world));
    assert!(rt; holds_beats(&world));
    assert_eq!(rt; world.last, 10);
    Ok(())
}
