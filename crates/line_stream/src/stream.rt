ghost use Rattle.std.specs.Prelude.{◌≡◌, ℕ, ◌+◌, ◌<◌, ◌≤◌, ◌++◌, true, List, [], length, Option, None, IsErrOf, IsOk, OnOk, IfOk, IfErr};
ghost use Rattle.std.specs.List.{AllPass};
ghost use Rattle.history.specs.Limits.{is_one_line};
ghost use Rattle.host_model.specs.Cause.{Rose};
ghost use Rattle.plugin_text.specs.Lines.{fits, lines, rest};
ghost use Rattle.line_stream.specs.Chain.{Chain};
ghost use Rattle.line_stream.specs.declared.stream.TheConstants.{INPUT_LIMIT};
ghost use Rattle.line_stream.specs.Run.{input_limit, Ended, Ran, Steps, Stops};
ghost use Rattle.line_stream.specs.Stream.{HandsOver, HasTaken, IsFresh, next_number};

use crate::taker::Taker;
use host_model::{Host, Source, Status};
use plugin_text::{LineFault, LineList, Splitter};
use std::alloc::Global;

/// The most bytes that are taken of an input.
pub const INPUT_LIMIT: usize = 1 << 40;

/// How many bytes are asked of the source at once.
const PIECE_SIZE: usize = 1 << 16;

/// A text that comes in pieces, whose lines are handed to a taker: what is kept of the part that was taken.
#[derive(Drop)]
pub struct Stream {
    splitter: Splitter,
    /// The lines of the last piece.
    lines: LineList,
    /// How many lines were handed over.
    count: u64,
}

/// Hands over the next line.
fn hand_line<H: Host, T: Taker<H>>(
    taker: &mut T,
    host: &mut H,
    count: &mut u64,
    line: &[u8],
) -> Result<(), Status>
    requires ready { T.ready taker.old host.old (count.old + 1) }
    requires few { count.old < INPUT_LIMIT }
    requires short { fits line.now ≡ true }
    requires whole { is_one_line line.now ≡ true }
    ensures takes { T.acts.takes
        taker.old host.old (count.old + 1) line.now result taker.new host.new }
    ensures count { OnOk result (count.new ≡ count.old + 1) }
    ensures ready { OnOk result (T.ready taker.new host.new (count.new + 1)) }
{
    let number = *count + 1;
    taker.take_line(host, number, line)?;
    *count = number;
    Ok(())
}

/// Hands over lines behind those that `count` counts.
fn hand_over<H: Host, T: Taker<H>>(
    taker: &mut T,
    host: &mut H,
    count: &mut u64,
    lines: &LineList,
) -> Result<(), Status>
    requires ready { T.ready taker.old host.old (count.old + 1) }
    requires few { count.old + length lines.now ≤ INPUT_LIMIT }
    requires short { AllPass fits lines.now }
    requires whole { AllPass is_one_line lines.now }
    ensures handed { (start : T) (begin : H) (prefix : List (List ℕ)) → length prefix ≡ count.old
        → Chain T.acts start begin prefix taker.old host.old
        → HandsOver T.acts start begin prefix lines.now result taker.new host.new }
    ensures count { OnOk result (count.new ≡ count.old + length lines.now) }
    ensures ready { OnOk result (T.ready taker.new host.new (count.new + 1)) }
{
    for at in 0..lines.len() {
        hand_line(taker, host, count, lines.line(at))?;
    }
    Ok(())
}

impl Stream {
    /// A stream of which nothing was taken yet. It takes no memory.
    pub fn new(alloc: Global) -> Stream
        ensures fresh { IsFresh result }
        ensures first { next_number result ≡ 1 }
    {
        Stream {
            splitter: Splitter::new(alloc),
            lines: LineList::new(alloc),
            count: 0,
        }
    }

    /// Takes the next piece of the text, and hands over the lines that end in it. Of an empty piece nothing is
    /// taken. `Err` is how the run ends: at a line, between two pieces, at a line that is too long, or with
    /// `Status::Memory`. No more than `INPUT_LIMIT` bytes may be taken in all.
    pub fn take_piece<H: Host, T: Taker<H>>(
        &mut self,
        taker: &mut T,
        host: &mut H,
        piece: &[u8],
    ) -> Result<(), Status>
        requires ready { T.ready taker.old host.old (next_number self.old) }
        requires room { (start : T) × (begin : H) × (text : List ℕ)
            × HasTaken T.acts self.old start begin text taker.old host.old
            × (length text + length piece.now ≤ input_limit) }
        ensures goes_on { OnOk result
            ((start : T) (begin : H) (text : List ℕ)
            → HasTaken T.acts self.old start begin text taker.old host.old
            → HasTaken T.acts self.new start begin (text ++ piece.now) taker.new host.new) }
        ensures stops { IfErr result
            (λ status. (start : T) (begin : H) (text : List ℕ)
            → HasTaken T.acts self.old start begin text taker.old host.old
            → (left : Option (List ℕ))
            → Ended T.acts status start begin (text ++ piece.now) taker.new host.new left ⊥) }
        ensures ready { OnOk result (T.ready taker.new host.new (next_number self.new)) }
        ensures empty { piece.now ≡ [] → IsOk result
            × (self.new ≡ self.old) × (taker.new ≡ taker.old) × (host.new ≡ host.old) }
    {
        if piece.is_empty() {
            return Ok(());
        }
        self.lines.clear();
        match self.splitter.feed(piece, &mut self.lines) {
            Ok(()) => {
                hand_over(taker, host, &mut self.count, &self.lines)?;
                taker.pause(host)
            }
            Err(LineFault::LineTooLong) => {
                hand_over(taker, host, &mut self.count, &self.lines)?;
                Err(taker.overflow(host, self.count + 1))
            }
            // Of the other refusals a splitter has out of memory alone.
            Err(_) => Err(Status::Memory),
        }
    }

    /// Tells the taker that the text has ended, with the number of its lines and the bytes behind the last line
    /// feed, and gives how the run ends.
    pub fn end<H: Host, T: Taker<H>>(&self, taker: &mut T, host: &mut H) -> Status
        requires ready { T.ready taker.old host.old (next_number self.now) }
        requires room { (start : T) × (begin : H) × (text : List ℕ)
            × HasTaken T.acts self.now start begin text taker.old host.old
            × (length text ≤ input_limit) }
        ensures ends { (start : T) (begin : H) (text : List ℕ)
            → HasTaken T.acts self.now start begin text taker.old host.old
            → T.acts.ends taker.old host.old (length (lines text)) (rest text)
            result taker.new host.new }
    {
        taker.end(host, self.count, self.splitter.rest())
    }
}

/// Takes more of the input. `Err` is how the run ends.
fn take_next<S: Source, H: Host, T: Taker<H>>(
    stream: &mut Stream,
    piece: &mut [u8],
    taker: &mut T,
    source: &mut S,
    host: &mut H,
) -> Result<usize, Status>
    requires ready { T.ready taker.old host.old (next_number stream.old) }
    requires room { (start : T) × (begin : H) × (text : List ℕ)
        × HasTaken T.acts stream.old start begin text taker.old host.old
        × (length text + length piece.old ≤ input_limit) }
    requires some { 0 < length piece.old }
    ensures goes_on { IfOk result
        (λ n. (start : T) (begin : H) (text : List ℕ)
        → HasTaken T.acts stream.old start begin text taker.old host.old
        → Steps (λ all. HasTaken T.acts stream.new start begin all taker.new host.new)
        n text (S.left source.old) (S.left source.new)) }
    ensures within { IfOk result (λ n. (0 < n) × (n ≤ length piece.old)) }
    ensures stops { IfErr result
        (λ status. (start : T) (begin : H) (text : List ℕ)
        → HasTaken T.acts stream.old start begin text taker.old host.old
        → length text + length piece.old ≤ input_limit
        → Stops T.acts status start begin text
        taker.new host.new (S.left source.old) (S.left source.new)
        (Rose (S.faults source.old) (S.faults source.new))) }
    ensures ready { OnOk result (T.ready taker.new host.new (next_number stream.new)) }
    ensures count { S.faults source.old ≤ S.faults source.new }
    ensures stays { (IsErrOf result Status.ReadFault → ⊥)
        → S.faults source.new ≡ S.faults source.old }
{
    match source.pull(piece) {
        Err(_) => Err(Status::ReadFault),
        Ok(0) => Err(stream.end(taker, host)),
        Ok(taken) => match stream.take_piece(taker, host, &piece[..taken]) {
            Ok(()) => Ok(taken),
            Err(status) => Err(status),
        },
    }
}

/// Takes the input piece by piece, each into `piece`.
fn take_pieces<S: Source, H: Host, T: Taker<H>>(
    stream: &mut Stream,
    piece: &mut [u8],
    taker: &mut T,
    source: &mut S,
    host: &mut H,
) -> Status
    requires ready { T.ready taker.old host.old 1 }
    requires start { IsFresh stream.old }
    requires some { 0 < length piece.old }
    ensures ran { Ran T.acts result
        taker.old host.old taker.new host.new (S.left source.old) (S.left source.new)
        (Rose (S.faults source.old) (S.faults source.new)) }
    ensures count { S.faults source.old ≤ S.faults source.new }
    ensures stays { (result ≡ Status.ReadFault → ⊥) → S.faults source.new ≡ S.faults source.old }
{
    let mut budget = INPUT_LIMIT;
    while budget > 0 {
        let room = budget.min(piece.len());
        match take_next(stream, &mut piece[..room], taker, source, host) {
            Ok(taken) => budget -= taken,
            Err(status) => return status,
        }
    }
    Status::InputLimit
}

/// Takes a text from the source, hands its lines to the taker, and says how the run ended.
///
/// No more than `INPUT_LIMIT` bytes are taken. Where just so many were and none of them ended the run, the answer is
/// `Status::InputLimit`, also where the source would fail next. Where a line is too long nothing behind it is
/// handed over. The run may run out of memory at any place, and ends with `Status::Memory` then.
pub fn take_text<S: Source, H: Host, T: Taker<H>>(
    alloc: Global,
    taker: &mut T,
    source: &mut S,
    host: &mut H,
) -> Status
    requires { T.ready taker.old host.old 1 }
    ensures ran { Ran T.acts result
        taker.old host.old taker.new host.new (S.left source.old) (S.left source.new)
        (Rose (S.faults source.old) (S.faults source.new)) }
    ensures count { S.faults source.old ≤ S.faults source.new }
    ensures stays { (result ≡ Status.ReadFault → ⊥) → S.faults source.new ≡ S.faults source.old }
{
    let Ok(mut piece) = vec![in alloc; 0; PIECE_SIZE] else {
        return Status::Memory;
    };
    let mut stream = Stream::new(alloc);
    take_pieces(&mut stream, &mut piece, taker, source, host)
}
