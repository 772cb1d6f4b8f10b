//! The steps of a world, by the calls of both ends.
ghost use Rattle.std.specs.Prelude.{◌≡◌, ℕ, ◌-◌, ◌<◌, ◌^◌, true, false, ◌++◌, length, take, slice_get, IfOk, OnOk, Some};
ghost use Rattle.std.specs.Option.{option_copied};
ghost use Rattle.replication.specs.Copies.{gap_between, latest};
ghost use Rattle.replication.specs.Names.{named_moment, named_beats};
ghost use Rattle.replication.specs.Points.{points_of};
ghost use Rattle.replication.specs.Sound.{Sound, IsEndOf};
ghost use Rattle.replication.specs.Verdict.{is_stored, verdict_by};
ghost use Rattle.replication.specs.World.{start, floor_now, may_follow, answer_in, with_stored, with_gaps, happens};

use crate::ask::Ask;
use crate::child::Child;
use crate::fault::CopyFault;
use crate::gap::{Gap, GapList};
use crate::latest::last_moment;
use crate::meaning::named_beats;
use crate::message::Data;
use crate::named::{NamedBeat, NamedBeatList, NamedPointList};
use crate::parent::Parent;
use crate::points::{in_order, names_in, names_of, numbered_beats};
use crate::step::{AskList, DataList, FloorList, Step, World};
use crate::verdict::Verdict;
use std::alloc::Global;

/// The world before any step.
pub(crate) fn start(alloc: Global) -> World
    ensures { result ≡ start }
{
    World {
        beats: NamedBeatList::new(alloc),
        floors: FloorList::new(alloc),
        held: NamedBeatList::new(alloc),
        gaps: GapList::new(alloc),
        last: 0,
        asks: AskList::new(alloc),
        messages: DataList::new(alloc),
    }
}

/// Whether the child may have a beat of these points next.
fn may_follow(world: &World, moment: u32, floor: u32, points: &NamedPointList) -> bool
    ensures { result ≡ may_follow world.now moment floor points.now }
{
    last_moment(0, world.beats.as_slice()) < moment
        && !points.is_empty()
        && last_moment(0, world.floors.as_slice()) <= floor
        && floor.saturating_sub(1) <= moment
}

/// The child gets a beat, or loses it.
fn child_beat(
    alloc: Global,
    world: &mut World,
    moment: u32,
    floor: u32,
    points: &NamedPointList,
    kept: bool,
) -> Result<(), CopyFault>
    ensures { OnOk result (world.new
        ≡ happens world.old (Step.ChildBeat moment floor points.now kept)) }
{
    if !kept || !may_follow(world, moment, floor, points) {
        return Ok(());
    }
    let points = in_order(alloc, points.as_slice())?;
    world.beats.push(NamedBeat { moment, points })?;
    world.floors.push(floor)?;
    Ok(())
}

/// The parent asks for what comes next.
fn ask(world: &mut World, parent: &Parent) -> Result<(), CopyFault>
    requires { IsEndOf world.old parent.now }
    ensures { OnOk result (world.new ≡ happens world.old Step.Ask) }
{
    world.asks.push(parent.ask(1))?;
    Ok(())
}

/// What the child of a world says to an ask.
fn answer_of(alloc: Global, world: &World, ask: &Ask) -> Result<Option<Data>, CopyFault>
    requires sound { Sound world.now }
    requires few { length (points_of world.now.beats) < 2 ^ 32 }
    ensures { IfOk result (λ answer. answer ≡ answer_in world.now ask.now) }
{
    let child = world.beats.as_slice();
    let floors = world.floors.as_slice();
    let points = names_in(alloc, child)?;
    let all = points.as_slice();
    let names = names_of(alloc, all)?;
    let beats = numbered_beats(alloc, all, child)?;
    let floor = last_moment(0, floors);
    Child::answer(alloc, 1, floor, &names, &beats, ask)
}

/// The child answers the ask at a place.
fn answer(alloc: Global, world: &mut World, place: u64) -> Result<(), CopyFault>
    requires sound { Sound world.old }
    requires few { length (points_of world.old.beats) < 2 ^ 32 }
    ensures { OnOk result (world.new ≡ happens world.old (Step.Answer place)) }
{
    let Some(ask) = world.asks.as_slice().get(place as usize).copied() else {
        return Ok(());
    };
    if let Some(message) = answer_of(alloc, world, &ask)? {
        world.messages.push(message)?;
    }
    Ok(())
}

/// Adds beats to a copy that ends at `last`.
fn hold(held: &mut NamedBeatList, last: &mut u32, beats: Vec<NamedBeat>) -> Result<(), CopyFault>
    ensures held { OnOk result (held.new ≡ held.old ++ beats.items) }
    ensures last { OnOk result (last.new ≡ latest named_moment last.old beats.items) }
{
    *last = last_moment(*last, beats.as_slice());
    for beat in beats {
        held.push(beat)?;
    }
    Ok(())
}

/// Stores the gap from `prev` to `from`, if there is one and anything is to be stored, and tells how much more
/// is to be stored then.
fn store_gap(world: &mut World, most: usize, prev: u32, from: u32) -> Result<usize, CopyFault>
    ensures gap { OnOk result (world.new
        ≡ with_gaps world.old (take most (gap_between prev from))) }
    ensures rest { IfOk result (λ rest. rest ≡ most - length (gap_between prev from)) }
{
    if from <= prev {
        return Ok(most);
    }
    if most == 0 {
        return Ok(0);
    }
    world.gaps.push(Gap {
        from: prev,
        to: from,
    })?;
    world.last = from;
    Ok(most - 1)
}

/// Stores the first `most` things of a message: its gap, and then its beats.
fn store(
    world: &mut World,
    most: usize,
    prev: u32,
    from: u32,
    mut beats: Vec<NamedBeat>,
) -> Result<(), CopyFault>
    ensures { OnOk result (world.new ≡ with_stored world.old (take most (gap_between prev from))
        (take (most - length (gap_between prev from)) beats.items)) }
{
    let rest = store_gap(world, most, prev, from)?;
    beats.truncate(rest);
    hold(&mut world.held, &mut world.last, beats)
}

/// Whether the parent stores a message.
fn stores(parent: &mut Parent, message: &Data) -> bool
    ensures stored { result ≡ is_stored
        (verdict_by parent.old.child parent.old.last message.now.child message.now.prev) }
    ensures taken { result ≡ true
        → parent.new ≡ record { child = Some message.now.child; last = message.now.upto } }
    ensures left { result ≡ false → parent.new ≡ parent.old }
{
    match parent.take(message) {
        Verdict::Stored => true,
        Verdict::Old => false,
        Verdict::Ahead => false,
        Verdict::WrongChild { .. } => false,
    }
}

/// The parent that begins again after a crash, with what it has kept.
fn begin_again(world: &World) -> Parent
    ensures { IsEndOf world.now result }
{
    if world.last == 0 {
        return Parent::new(None, 0);
    }
    Parent::new(Some(1), world.last)
}

/// The message at a place.
fn message_at(messages: &DataList, place: u64) -> Option<&Data>
    ensures { option_copied result ≡ slice_get messages.now place }
{
    messages.as_slice().get(place as usize)
}

/// A message comes to the parent.
fn deliver(
    alloc: Global,
    world: &mut World,
    parent: &mut Parent,
    place: u64,
    keep: Option<u64>,
) -> Result<(), CopyFault>
    requires sound { Sound world.old }
    requires end { IsEndOf world.old parent.old }
    ensures step { OnOk result (world.new ≡ happens world.old (Step.Deliver place keep)) }
    ensures end { OnOk result (IsEndOf world.new parent.new) }
{
    let Some(message) = message_at(&world.messages, place) else {
        return Ok(());
    };
    let stored = stores(parent, message);
    if !stored {
        return Ok(());
    }
    let (prev, from) = (message.prev, message.from);
    let numbered = message.beats.as_slice();
    let beats = named_beats(alloc, &message.names, numbered)?;
    match keep {
        None => {
            let list = beats.as_slice();
            let all = list.len() + 1;
            store(world, all, prev, from, beats)?;
            Ok(())
        }
        Some(most) => {
            store(world, most as usize, prev, from, beats)?;
            *parent = begin_again(world);
            Ok(())
        }
    }
}

/// One step of a world, and of its parent.
pub(crate) fn take_step(
    alloc: Global,
    world: &mut World,
    parent: &mut Parent,
    step: &Step,
) -> Result<(), CopyFault>
    requires sound { Sound world.old }
    requires end { IsEndOf world.old parent.old }
    requires few { length (points_of world.old.beats) < 2 ^ 32 }
    ensures step { OnOk result (world.new ≡ happens world.old step.now) }
    ensures end { OnOk result (IsEndOf world.new parent.new) }
{
    match step {
        Step::ChildBeat {
            moment,
            floor,
            points,
            kept,
        } => child_beat(alloc, world, *moment, *floor, points, *kept),
        Step::Ask => ask(world, parent),
        Step::Answer { ask } => answer(alloc, world, *ask),
        Step::Deliver { message, keep } => deliver(alloc, world, parent, *message, *keep),
    }
}
