//! A collector that is run to its end, and whose lines are handed over.
ghost use Rattle.std.specs.Prelude.{◌≡◌, ℕ, ◌+◌, ◌*◌, ◌<◌, ◌≤◌, List, length, Option, IfOk, IfErr, OnOk};
ghost use Rattle.host_model.specs.Cause.{Rose};
ghost use Rattle.host_model.specs.Spawner.{Children};
ghost use Rattle.line_stream.specs.Run.{input_limit};
ghost use Rattle.line_stream.specs.Stream.{HasTaken, next_number};
ghost use Rattle.plugin_runner.specs.Collected.{Collected, FailsBySpawner};
ghost use Rattle.plugin_runner.specs.Collecting.{GoesOn, HasPut};
ghost use Rattle.plugin_runner.specs.Course.{Course, IsRunnerOf, new_course};
ghost use Rattle.plugin_runner.specs.Patience.{patience};

use crate::fault::{RunFault, Turn};
use crate::runner::Runner;
use fixed_num::ByteList;
use host_model::{Clock, Host, Spawner, Status};
use line_stream::{INPUT_LIMIT, Stream, Taker};
use std::alloc::Global;

/// How a collector's text ended the run.
#[derive(Clone, Copy, Debug, PartialEq, Eq)]
pub enum Halt {
    /// All starts were made, each child ended with 0, and all of the text was taken: this is how the taker ended.
    AtEnd(Status),
    /// A line of the text ended the run so, or as many bytes were taken as may be, or there was no memory.
    Within(Status),
    /// The runner answered this, and all of the text before was taken.
    Failed(RunFault),
}

/// Takes a turn of the runner and hands over what it puts, up to `budget` bytes. `out` is room for that.
/// Says how many bytes were taken where the run goes on, and `Err` how it ended.
fn take_turn<P: Spawner, C: Clock, H: Host, T: Taker<H>>(
    runner: &mut Runner,
    out: &mut ByteList,
    stream: &mut Stream,
    budget: usize,
    taker: &mut T,
    spawner: &mut P,
    clock: &mut C,
    host: &mut H,
) -> Result<usize, Halt>
    requires ready { T.ready taker.old host.old (next_number stream.old) }
    requires room { (start : T) × (begin : H) × (text : List ℕ)
        × HasTaken T.acts stream.old start begin text taker.old host.old
        × (length text + budget ≡ input_limit) }
    ensures goes_on { IfOk result
        (λ taken. (start : T) (begin : H) (text : List ℕ)
        → HasTaken T.acts stream.old start begin text taker.old host.old
        → GoesOn T.acts taken text runner.old runner.new
        stream.new start begin taker.new host.new (P.children spawner.old) (P.children spawner.new)
        (C.readings clock.old) (C.readings clock.new)) }
    ensures stops { IfErr result
        (λ halt. (start : T) (begin : H) (text : List ℕ)
        → HasTaken T.acts stream.old start begin text taker.old host.old
        → length text + budget ≡ input_limit
        → (course : Course) (before : Option Children) (first : Option (List ℕ))
        → HasPut
        course runner.old text before (P.children spawner.old) first (C.readings clock.old)
        → Collected T.acts halt course start begin
        taker.new host.new before (P.children spawner.new) first (C.readings clock.new)) }
    ensures ready { OnOk result (T.ready taker.new host.new (next_number stream.new)) }
    ensures within { IfOk result (λ taken. taken < budget) }
    ensures patience { IfOk result
        (λ taken. patience runner.new < patience runner.old + 8194 * taken) }
    ensures faults { P.faults spawner.old ≤ P.faults spawner.new }
    ensures cause { IfErr result
        (λ halt. FailsBySpawner halt → Rose (P.faults spawner.old) (P.faults spawner.new)) }
{
    out.clear();
    let answer = runner.turn(spawner, clock, out);
    let taken = budget.min(out.len());
    if let Err(status) = stream.take_piece(taker, host, &out.as_slice()[..taken]) {
        return Err(Halt::Within(status));
    }
    if taken == budget {
        return Err(Halt::Within(Status::InputLimit));
    }
    match answer {
        Ok(Turn::More) => Ok(taken),
        Ok(Turn::Ended) => Err(Halt::AtEnd(stream.end(taker, host))),
        Err(fault) => Err(Halt::Failed(fault)),
    }
}

/// Takes turns of a new runner and hands the lines of its text to the taker, until the text ends, a line ends
/// the run, or the runner fails.
///
/// What a turn put is handed over whatever the turn answered, and a line that ends the run comes before that
/// answer. No more than `INPUT_LIMIT` bytes of the text are taken: where just so many were and none of them
/// ended the run, the answer is `Halt::Within(Status::InputLimit)`, also where the runner has failed. Each turn
/// may wait for the child, as long as it takes. Only a line, a piece and what one turn put are held.
pub fn take_collected<P: Spawner, C: Clock, H: Host, T: Taker<H>>(
    alloc: Global,
    runner: &mut Runner,
    taker: &mut T,
    spawner: &mut P,
    clock: &mut C,
    host: &mut H,
) -> Halt
    requires ready { T.ready taker.old host.old 1 }
    ensures collected { (words : List (List ℕ)) (every starts last : ℕ)
        → IsRunnerOf runner.old (new_course words every starts last)
        → Collected T.acts result
        (new_course words every starts last) taker.old host.old taker.new host.new
        (P.children spawner.old) (P.children spawner.new)
        (C.readings clock.old) (C.readings clock.new) }
    ensures faults { P.faults spawner.old ≤ P.faults spawner.new }
    // `Failed(SpawnFault)` and `Failed(PipeFault)` are faults of the spawner, in this call.
    ensures cause { FailsBySpawner result → Rose (P.faults spawner.old) (P.faults spawner.new) }
{
    let mut stream = Stream::new(alloc);
    let mut out = ByteList::new(alloc);
    let mut budget = INPUT_LIMIT;
    loop {
        match take_turn(
            runner,
            &mut out,
            &mut stream,
            budget,
            taker,
            spawner,
            clock,
            host,
        ) {
            Ok(taken) => budget -= taken,
            Err(halt) => return halt,
        }
    }
}
