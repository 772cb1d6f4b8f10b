//! The law of copies over every schedule, and the laws of single answers.
ghost use Rattle.std.specs.Prelude.{◌≡◌, ℕ, ◌<◌, ◌≤◌, ◌^◌, true, List, ◌++◌, length, reverse, take, Option, Some, IfOk};
ghost use Rattle.std.specs.List.{AllByRecursion, find};
ghost use Rattle.std.specs.List.Sorted.{IsStrictlySortedBy};
ghost use Rattle.replication.specs.declared.answer.TheConstants.{BEAT_LIMIT};
ghost use Rattle.replication.specs.declared.ask.Ask.{Ask as AnAsk};
ghost use Rattle.replication.specs.declared.beats.Beat.{Beat};
ghost use Rattle.replication.specs.declared.message.Data.{Data};
ghost use Rattle.replication.specs.declared.names.Names.{Names};
ghost use Rattle.replication.specs.Answer.{AreNames, AreBeatsOf, HaveWords, IsWhole, from_of, data_of};
ghost use Rattle.replication.specs.Bytes.{data_bytes, data_size};
ghost use Rattle.replication.specs.declared.gap.Gap.{Gap};
ghost use Rattle.replication.specs.declared.named.NamedBeat.{NamedBeat};
ghost use Rattle.replication.specs.declared.named.NamedPoint.{NamedPoint};
ghost use Rattle.replication.specs.Copies.{had_floor, Message, first_beats, first_gaps, EndsBy, RisesFrom, above, last_with, IsCopy, IsTrueOf};
ghost use Rattle.replication.specs.Names.{beat_moment, named_moment, named_beats, message_of};
ghost use Rattle.replication.specs.Points.{name_cmp, has_name_of, in_order};
ghost use Rattle.replication.specs.Sound.{IsTrueData};
ghost use Rattle.replication.specs.World.{points_in, run};

use crate::fault::CopyFault;
use crate::parent::Parent;
use crate::schedule::{start, take_step};
use crate::step::{StepList, World};
use std::alloc::Global;

/// Runs a schedule by the calls of both ends, from a child and a parent that have nothing. Whatever is lost,
/// comes again or comes in another order, and wherever either end crashes, the parent is a copy of the child,
/// and each message that was ever sent is true of the child and begins where the parent ends or below. The steps have fewer than 2^32 points in all, those
/// of beats that are lost or not allowed counted too. `Memory` where none is left.
pub fn schedule(alloc: Global, steps: &StepList) -> Result<World, CopyFault>
    requires few { points_in steps.now < 2 ^ 32 }
    ensures ran { IfOk result (λ world. world ≡ run steps.now) }
    ensures copy { IfOk result (λ world.
        IsCopy named_moment world.floors world.beats world.held world.gaps world.last) }
    ensures told { IfOk result (λ world.
        AllByRecursion (IsTrueData world.floors world.beats) world.messages) }
    ensures begun { IfOk result (λ world.
        AllByRecursion (λ (sent : Data). sent.prev ≤ world.last) world.messages) }
{
    let mut world = start(alloc);
    let mut parent = Parent::new(None, 0);
    for step in steps.as_slice() {
        take_step(alloc, &mut world, &mut parent, step)?;
    }
    Ok(world)
}

/// What a child answers is true of it, for every child, and is from it. Where the child has all names that its
/// beats use, and these have points, the answer has all names that its own use, and they have points too. The
/// call does nothing.
pub fn answers_are_true()
    ensures truth { (child floor : ℕ) (names : Names) (beats : List Beat) (ask : AnAsk)
        (floors : List ℕ) (message : Data)
        → RisesFrom beat_moment 0 beats → had_floor floors floor ≡ true
        → data_of child floor names beats ask ≡ Some message
        → IsTrueOf named_moment floors (named_beats names beats) (message_of message) }
    ensures whole { (child floor : ℕ) (names : Names) (beats : List Beat) (ask : AnAsk)
        (message : Data)
        → AreNames names → AreBeatsOf (length names.dimensions) beats → HaveWords beats
        → data_of child floor names beats ask ≡ Some message → IsWhole message }
    ensures sender { (child floor : ℕ) (names : Names) (beats : List Beat) (ask : AnAsk)
        (message : Data)
        → data_of child floor names beats ask ≡ Some message → message.child ≡ child }
{}

/// A copy that takes on the first things of a true message which begins where it ends is a copy still, and its
/// gaps end where it ends: for every child, and however many of these things a crash leaves. The call does
/// nothing.
pub fn deliveries_keep_copies()
    ensures copy { (low : ℕ) (floors : List ℕ) (child held : List NamedBeat) (gaps : List Gap)
        (last : ℕ) (message : Message NamedBeat) (most : ℕ)
        → RisesFrom named_moment low child → AllByRecursion (EndsBy last) gaps
        → IsCopy named_moment floors child held gaps last
        → IsTrueOf named_moment floors child message → message.prev ≡ last
        → IsCopy named_moment floors child
        (held ++ first_beats most message) (gaps ++ first_gaps most message)
        (last_with named_moment last (first_gaps most message) (first_beats most message)) }
    ensures ends { (low : ℕ) (floors : List ℕ) (child : List NamedBeat) (gaps : List Gap)
        (last : ℕ) (message : Message NamedBeat) (most : ℕ)
        → RisesFrom named_moment low child → AllByRecursion (EndsBy last) gaps
        → IsTrueOf named_moment floors child message → message.prev ≡ last
        → AllByRecursion
        (EndsBy (last_with named_moment last (first_gaps most message) (first_beats most message)))
        (gaps ++ first_gaps most message) }
{}

/// A child's first 64 beats above where an answer begins give the same answer as all of them. The call does
/// nothing.
pub fn first_beats_answer_as_all()
    ensures { (child floor : ℕ) (names : Names) (beats : List Beat) (ask : AnAsk)
        → RisesFrom beat_moment 0 beats
        → data_of child floor names
        (take BEAT_LIMIT (above beat_moment (from_of floor ask.last) beats)) ask
        ≡ data_of child floor names beats ask }
{}

/// Points in order rise strictly by the bytes of their chart's id and then of their dimension's, and a name is
/// found in them with the last point of this name among the points given. The call does nothing.
pub fn points_in_order_rise()
    ensures rises { (points : List NamedPoint) → IsStrictlySortedBy name_cmp (in_order points) }
    ensures last { (points : List NamedPoint) (point : NamedPoint)
        → find (has_name_of point) (in_order points) ≡ find (has_name_of point) (reverse points) }
{}

/// How long the body of a `Data`'s frame is, for every `Data`. The call does nothing.
pub fn data_size_is_the_length()
    ensures { (message : Data) → length (data_bytes message) ≡ data_size message }
{}
