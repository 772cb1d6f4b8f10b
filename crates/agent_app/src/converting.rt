//! A text whose points are told, line by line.
ghost use Rattle.std.specs.Prelude.{◌≡◌, ◌+◌, ◌++◌, List, [], ℕ, false, length, string_bytes, IsErr, IsOk, OnOk, OnErr};
ghost use Rattle.host_model.specs.Cause.{HasCause};
ghost use Rattle.host_model.specs.Past.{told, TellsPrefix};
ghost use Rattle.history.specs.declared.line.Line.{Line};
ghost use Rattle.point_lines.specs.Reader.{IsReaderOf};
ghost use Rattle.point_lines.specs.Told.{told_at_end};
ghost use Rattle.agent_app.specs.Convert.{ending_line, LeavesDisk};
ghost use Rattle.agent_app.specs.Converting.{converting_acts, AddsEnding, IsAt};
ghost use Rattle.agent_app.specs.Reading.{Ends as IsOver, RefusedAt};

use crate::refusals::{push_refusal, refusal_status};
use host_model::{Failed, Host, Status};
use line_stream::Taker;
use plugin_text::{LineFault, Refusal};
use point_lines::{Reader, Stop};
use std::alloc::Global;

/// What is kept of a text whose points are told.
///
/// What its lines tell waits in `out` for the next pause. What ends the run is added there too, and left for
/// `convert` to tell.
#[derive(Drop)]
pub(crate) struct Converting {
    pub(crate) reader: Reader,
    /// What waits to be told.
    pub(crate) out: String,
}

/// Tells what waits in `out`, if anything does, and leaves nothing waiting.
pub(crate) fn tell_waiting<H: Host>(host: &mut H, out: &mut String) -> Result<(), Failed>
    ensures told { OnOk result (H.honest →
        told (H.seen host.new).past ≡ told (H.seen host.old).past ++ string_bytes out.old) }
    ensures emptied { OnOk result (string_bytes out.new ≡ []) }
    ensures torn { OnErr result (H.honest →
        TellsPrefix false (string_bytes out.old) (H.seen host.old).past (H.seen host.new).past) }
    ensures cause { HasCause (H.seen host.old).tell_faults (H.seen host.new).tell_faults
        (IsErr result) }
    ensures silent { string_bytes out.old ≡ [] → IsOk result × (host.new ≡ host.old) }
    ensures disk { LeavesDisk H.honest (H.seen host.old) (H.seen host.new) }
{
    if !out.is_empty() {
        host.tell(out.as_bytes())?;
    }
    out.clear();
    Ok(())
}

impl Converting {
    pub(crate) fn new(alloc: Global) -> Converting
        ensures reader { IsReaderOf result.reader [] }
        ensures out { string_bytes result.out ≡ [] }
    {
        Converting {
            reader: Reader::new(alloc),
            out: String::new(alloc),
        }
    }

    /// Adds a refusal, as the last that is told. Says how the run ends.
    fn refuse(&mut self, line: u64, refusal: Refusal) -> Status
        ensures { AddsEnding result (RefusedAt line refusal) (string_bytes self.old.out)
            (ending_line (RefusedAt line refusal)) (string_bytes self.new.out) }
    {
        match push_refusal(&mut self.out, line, refusal) {
            Ok(()) => refusal_status(line, refusal),
            Err(_) => Status::Memory,
        }
    }

    /// Adds what is told at the end of a text. Says how the run ends.
    fn close(&mut self) -> Status
        ensures { (past : List Line) → IsReaderOf self.old.reader past
            → AddsEnding result IsOver (string_bytes self.old.out) (told_at_end past)
            (string_bytes self.new.out) }
    {
        match self.reader.push_skipped(&mut self.out) {
            Ok(()) => Status::Ok,
            Err(_) => Status::Memory,
        }
    }
}

impl<H: Host> Taker<H> for Converting {
    ghost ready = { λ converting host number. IsAt converting number };

    ghost acts = { converting_acts H.honest H.seen };

    fn take_line(&mut self, _host: &mut H, number: u64, line: &[u8]) -> Result<(), Status> {
        match self.reader.take_line(line, &mut self.out) {
            Ok(()) => Ok(()),
            Err(Stop::Refused(refusal)) => Err(self.refuse(number, refusal)),
            Err(Stop::Disabled) => Err(self.close()),
            Err(Stop::Memory) => Err(Status::Memory),
        }
    }

    fn pause(&mut self, host: &mut H) -> Result<(), Status> {
        match tell_waiting(host, &mut self.out) {
            Ok(()) => Ok(()),
            Err(_) => Err(Status::TellFault),
        }
    }

    fn end(&mut self, _host: &mut H, lines: u64, rest: &[u8]) -> Status {
        match self.reader.end(rest) {
            Ok(()) => self.close(),
            Err(refusal) => self.refuse(lines, refusal),
        }
    }

    fn overflow(&mut self, _host: &mut H, number: u64) -> Status {
        self.refuse(number, Refusal::Line(LineFault::LineTooLong))
    }
}
