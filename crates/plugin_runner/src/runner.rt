ghost use Rattle.std.specs.Prelude.{◌≡◌, ◌≢◌, ◌+◌, ◌<◌, ◌≤◌, ℕ, Ok, List, [], ◌++◌, length, Option, Some, None, IfSome, IfOk, OnErr, MatchBool};
ghost use Rattle.plugin_runner.specs.declared.fault.Turn.TheVariants as turn;
ghost use Rattle.plugin_runner.specs.declared.runner.Phase.TheVariants as phase;
ghost use Rattle.plugin_runner.specs.Course.{Course, Bytes, End, IsRunnerOf, Listens, new_course};
ghost use Rattle.plugin_runner.specs.Patience.{Spends, patience, room};
ghost use Rattle.plugin_runner.specs.Goes.{Advances, Goes, IsLeft, Lands, IsSilent, ending_of};
ghost use Rattle.plugin_runner.specs.Steps.{PutsAll, PutsSome, PutsUpTo};
ghost use Rattle.plugin_runner.specs.Runner.{Extends, IsFault, Turned, answer_of, if_lasting, lasting_answer};

use crate::command::start_words;
use crate::fault::{RunFault, Turn};
use crate::follower::Follower;
use crate::writing::append_both;
use fixed_num::{ByteList, WordsList};
use host_model::{Clock, Spawner};
use plugin_text::{LINE_LIMIT, LineFault, LineList, Splitter};
use std::alloc::{AllocError, Global};

/// No line has so many bytes: a piece that fills what is open of them has a line feed, or its line is too
/// long.
const ROOM: usize = LINE_LIMIT + 1;

/// How a text has ended.
#[derive(Clone, Copy)]
enum Ending {
    Ended,
    Disabled(Option<i32>),
    Memory,
}

/// What the next turn does.
#[derive(Clone, Copy)]
enum Phase {
    /// It starts a child.
    Ready,
    /// It takes what the child writes, or waits for its end.
    Runs,
    /// It answers what the last one did.
    Over(Ending),
}

/// A collector: a program that is started, again and again while it ends with 0, and what is kept of its text.
#[derive(Drop)]
pub struct Runner {
    alloc: Global,
    /// The program and its arguments.
    words: WordsList,
    /// How often a child may still be started again, once this one has ended with 0.
    restarts: u32,
    follower: Follower,
    /// What the child wrote behind its last line feed.
    splitter: Splitter,
    phase: Phase,
}

impl Ending {
    fn answer(self) -> Result<Turn, RunFault>
        ensures { result ≡ answer_of self }
    {
        match self {
            Ending::Ended => Ok(Turn::Ended),
            Ending::Disabled(status) => Err(RunFault::Disabled(status)),
            Ending::Memory => Err(RunFault::Memory),
        }
    }
}

impl Runner {
    /// A runner of `words`, a program and its arguments, which makes `starts` starts at most, 1 to 1,000.
    /// `every` is how many seconds lie between beats, 1 to 86,400, and `last` the last moment of the history.
    pub fn new(alloc: Global, words: WordsList, every: u32, starts: u32, last: u32) -> Runner
        requires some { words ≢ [] }
        requires every { 0 < every }
        requires starts { 0 < starts }
        ensures open { lasting_answer result ≡ None }
        ensures course { IsRunnerOf result (new_course words every starts last) }
    {
        Runner {
            alloc,
            words,
            restarts: starts - 1,
            follower: Follower::new(alloc, every, last),
            splitter: Splitter::new(alloc),
            phase: Phase::Ready,
        }
    }

    /// Starts a child, takes what it writes, or waits for its end, and puts the text that comes of it
    /// behind `out`. A turn may wait for the child, as long as it takes.
    ///
    /// After `Ended`, `Disabled` and `Memory` each later turn answers the same, and touches neither
    /// the spawner nor the clock nor `out`. After `SpawnFault` and `PipeFault` the runner is as before,
    /// and the next turn tries again. A child after whose bytes nothing counts is stopped, or the
    /// spawner counted that it could not be.
    pub fn turn<P: Spawner, C: Clock>(
        &mut self,
        spawner: &mut P,
        clock: &mut C,
        out: &mut ByteList,
    ) -> Result<Turn, RunFault>
        // Each fault is the spawner's, in this call.
        ensures turned { Turned result self.old self.new
            (P.faults spawner.old) (P.faults spawner.new) }
        ensures out { Extends result out.old out.new }

        // What was put so far is the text of what was heard, and each answer is the one that it asks for.
        ensures goes { (course : Course) → IsRunnerOf self.old course
            → Goes result course self.old self.new (P.children spawner.old) (P.children spawner.new)
            (P.faults spawner.old) (P.faults spawner.new)
            (C.readings clock.old) (C.readings clock.new) out.old out.new }

        // Some answers are those of each later turn.
        ensures repeated { IfSome (lasting_answer self.old) (λ answer. (result ≡ answer)
            × (self.new ≡ self.old) × (spawner.new ≡ spawner.old)
            × (clock.new ≡ clock.old) × (out.new ≡ out.old)) }

        // Turns that answer More come to an end, unless bytes are put without end.
        ensures patience { result ≡ Ok turn.More
            → Spends (patience self.old) (patience self.new) out.old out.new }
    {
        match self.phase {
            Phase::Over(ending) => ending.answer(),
            Phase::Ready => self.start(spawner),
            Phase::Runs => self.pull(spawner, clock, out),
        }
    }

    /// The last turn: each later one answers the same.
    fn end(&mut self, ending: Ending) -> Result<Turn, RunFault>
        ensures answer { result ≡ answer_of ending }
        ensures lasting { lasting_answer self.new ≡ Some (answer_of ending) }
        ensures phase { self.new.phase ≡ phase.Over ending }
    {
        self.phase = Phase::Over(ending);
        ending.answer()
    }

    fn start<P: Spawner>(&mut self, spawner: &mut P) -> Result<Turn, RunFault>
        requires { self.old.phase ≡ phase.Ready }
        ensures turned { Turned result self.old self.new
            (P.faults spawner.old) (P.faults spawner.new) }
        ensures goes { (course : Course) (ahead : Option (List ℕ)) (out : List ℕ)
            → IsRunnerOf self.old course
            → Goes result course self.old self.new (P.children spawner.old) (P.children spawner.new)
            (P.faults spawner.old) (P.faults spawner.new) ahead ahead out out }
        ensures patience { result ≡ Ok turn.More → patience self.new < patience self.old }
    {
        let Ok(words) = start_words(self.alloc, &self.words, self.follower.every) else {
            return self.end(Ending::Memory);
        };
        match spawner.start(&words) {
            Err(_) => Err(RunFault::SpawnFault),
            Ok(()) => {
                self.phase = Phase::Runs;
                Ok(Turn::More)
            }
        }
    }

    /// Takes what the child writes.
    fn pull<P: Spawner, C: Clock>(
        &mut self,
        spawner: &mut P,
        clock: &mut C,
        out: &mut ByteList,
    ) -> Result<Turn, RunFault>
        requires { self.old.phase ≡ phase.Runs }
        ensures turned { Turned result self.old self.new
            (P.faults spawner.old) (P.faults spawner.new) }
        ensures out { Extends result out.old out.new }
        ensures goes { (course : Course) → IsRunnerOf self.old course
            → Goes result course self.old self.new (P.children spawner.old) (P.children spawner.new)
            (P.faults spawner.old) (P.faults spawner.new)
            (C.readings clock.old) (C.readings clock.new) out.old out.new }
        ensures patience { result ≡ Ok turn.More
            → Spends (patience self.old) (patience self.new) out.old out.new }
    {
        let mut piece = [0; ROOM];
        let room = ROOM - self.splitter.rest().len();
        let Ok(taken) = spawner.pull(&mut piece[..room]) else {
            return Err(RunFault::PipeFault);
        };
        if taken == 0 {
            return self.finish(spawner, clock, out);
        }
        self.take_piece(spawner, clock, &piece[..taken], out)
    }

    /// Waits for the child's end, and closes what is open then.
    fn finish<P: Spawner, C: Clock>(
        &mut self,
        spawner: &mut P,
        clock: &mut C,
        out: &mut ByteList,
    ) -> Result<Turn, RunFault>
        requires phase { self.old.phase ≡ phase.Runs }
        requires silent { IsSilent (P.children spawner.old) }
        ensures turned { Turned result self.old self.new
            (P.faults spawner.old) (P.faults spawner.new) }
        ensures out { Extends result out.old out.new }
        ensures goes { (course : Course) → IsRunnerOf self.old course
            → Goes result course self.old self.new (P.children spawner.old) (P.children spawner.new)
            (P.faults spawner.old) (P.faults spawner.new)
            (C.readings clock.old) (C.readings clock.new) out.old out.new }
        ensures patience { result ≡ Ok turn.More
            → Spends (patience self.old) (patience self.new) out.old out.new }
    {
        match spawner.finish() {
            Err(_) => Err(RunFault::PipeFault),
            Ok(status) => self.close(clock, out, status),
        }
    }

    /// Puts what the end of a child with this status asks for.
    fn close<C: Clock>(
        &mut self,
        clock: &mut C,
        out: &mut ByteList,
        status: i32,
    ) -> Result<Turn, RunFault>
        ensures lasting { lasting_answer self.new ≡ if_lasting result }
        ensures no_fault { IsFault result → ⊥ }
        ensures out { (added : List ℕ) × (out.new ≡ out.old ++ added) }
        ensures goes { (course : Course) → Listens self.old course
            → Advances (Some (End status)) course self.new
            (C.readings clock.old) (C.readings clock.new) out.old out.new }
        ensures again { result ≡ Ok turn.More → (self.new.phase ≡ phase.Ready)
            × (self.new.restarts + 1 ≡ self.old.restarts) }
    {
        if self.follower.close(clock, out).is_err() {
            return self.end(Ending::Memory);
        }
        if status != 0 {
            return self.end(Ending::Disabled(Some(status)));
        }
        self.splitter = Splitter::new(self.alloc);
        match self.restarts.checked_sub(1) {
            None => self.end(Ending::Ended),
            Some(restarts) => {
                self.restarts = restarts;
                self.phase = Phase::Ready;
                Ok(Turn::More)
            }
        }
    }

    /// Takes bytes of the child, and stops it where nothing counts that follows them.
    fn take_piece<P: Spawner, C: Clock>(
        &mut self,
        spawner: &mut P,
        clock: &mut C,
        piece: &[u8],
        out: &mut ByteList,
    ) -> Result<Turn, RunFault>
        requires phase { self.old.phase ≡ phase.Runs }
        requires room { length self.old.splitter.rest + length piece.now ≤ ROOM }
        requires some { 0 < length piece.now }
        ensures turned { Turned result self.old self.new
            (P.faults spawner.old) (P.faults spawner.new) }
        ensures out { Extends result out.old out.new }
        ensures no_fault { IsFault result → ⊥ }
        ensures left { IsLeft (if_lasting result) (P.children spawner.old) (P.children spawner.new)
            (P.faults spawner.old) (P.faults spawner.new) }
        ensures goes { (course : Course) → Listens self.old course
            → Advances (Some (Bytes piece.now)) course self.new
            (C.readings clock.old) (C.readings clock.new) out.old out.new }
        ensures patience { result ≡ Ok turn.More
            → Spends (patience self.old) (patience self.new) out.old out.new }
    {
        match ending_of(self.put_piece(clock, piece, out)) {
            None => Ok(Turn::More),
            Some(ending) => {
                let _ = spawner.stop();
                self.end(ending)
            }
        }
    }

    /// Puts what a piece asks for, and gives the ending where nothing counts that follows it.
    fn put_piece<C: Clock>(
        &mut self,
        clock: &mut C,
        piece: &[u8],
        out: &mut ByteList,
    ) -> Result<Option<Ending>, AllocError>
        requires room { length self.old.splitter.rest + length piece.now ≤ ROOM }
        requires some { 0 < length piece.now }
        ensures phase { self.new.phase ≡ self.old.phase }
        ensures restarts { self.new.restarts ≡ self.old.restarts }
        ensures patience { IfOk result (λ ending. ending ≡ None
            → Spends (room self.old.splitter.rest) (room self.new.splitter.rest) out.old out.new) }
        ensures out { (added : List ℕ) × (out.new ≡ out.old ++ added) }
        ensures goes { (course : Course) → Listens self.old course
            → Lands (ending_of result) piece.now course self.new
            (C.readings clock.old) (C.readings clock.new) out.old out.new }
    {
        let held = ByteList::from_slice(self.alloc, self.splitter.rest())?;
        let mut lines = LineList::new(self.alloc);
        match self.splitter.feed(piece, &mut lines) {
            Ok(()) => {
                if take_lines(&mut self.follower, clock, &lines, out)? {
                    Ok(Some(Ending::Disabled(None)))
                } else {
                    Ok(None)
                }
            }
            Err(LineFault::LineTooLong) => {
                append_both(out, held.as_slice(), piece)?;
                Ok(Some(Ending::Ended))
            }
            // Of the other refusals a splitter has out of memory alone.
            Err(_) => Err(AllocError),
        }
    }
}

/// The ending, where there was memory to tell it.
fn ending_of(put: Result<Option<Ending>, AllocError>) -> Option<Ending>
    ensures { result ≡ ending_of put }
{
    match put {
        Ok(ending) => ending,
        Err(_) => Some(Ending::Memory),
    }
}

/// Takes lines of a child, up to the first that is a DISABLE, and says whether there is one.
fn take_lines<C: Clock>(
    follower: &mut Follower,
    clock: &mut C,
    lines: &LineList,
    out: &mut ByteList,
) -> Result<bool, AllocError>
    ensures ok { IfOk result (λ last. MatchBool last
        (PutsUpTo lines.now follower.old follower.new
        (C.readings clock.old) (C.readings clock.new) out.old out.new)
        (PutsAll lines.now follower.old follower.new
        (C.readings clock.old) (C.readings clock.new) out.old out.new)) }
    ensures err { OnErr result (PutsSome lines.now follower.old
        (C.readings clock.old) (C.readings clock.new) out.old out.new) }
    ensures grows { IfOk result (λ last. MatchBool last (Unit {0})
        (length out.old + length lines.now ≤ length out.new)) }
    ensures out { (added : List ℕ) × (out.new ≡ out.old ++ added) }
{
    for at in 0..lines.len() {
        if follower.take_line(clock, lines.line(at), out)? {
            return Ok(true);
        }
    }
    Ok(false)
}
