//! Lines that are read, and put behind a text.
ghost use Rattle.std.specs.Prelude.{◌≡◌, ℕ, List, ◌∷◌, [], ◌++◌, ◌<◌, length, IfOk, OnOk, OnErr, false};
ghost use Rattle.std.specs.Option.{option_map_or};
ghost use Rattle.history.specs.Read.{is_disable};
ghost use Rattle.history.specs.declared.line.Line.{Line as ALine};
ghost use Rattle.plugin_runner.specs.Text.{Origin, begins_again, close, disables, is_due, meaning, put, with_due_moment, with_flush, with_last_moment, with_line_put, with_moment};
ghost use Rattle.plugin_runner.specs.Bytes.{IsPrefix};
ghost use Rattle.plugin_runner.specs.Follower.{Follows};
ghost use Rattle.plugin_runner.specs.Steps.{Puts, PutsPrefix};

use crate::follower::Follower;
use crate::moment::{moment, moment_line};
use fixed_num::ByteList;
use history::Line;
use host_model::Clock;
use plugin_text::{LineFault, read_line};
use std::alloc::{AllocError, Global};

/// What a line says, or `None` where it is refused.
pub(crate) fn meaning_of(alloc: Global, bytes: &[u8]) -> Result<Option<Line>, AllocError>
    ensures { IfOk result (λ said. said ≡ meaning bytes.now) }
{
    match read_line(alloc, bytes) {
        Ok(line) => Ok(Some(line)),
        Err(LineFault::Memory) => Err(AllocError),
        Err(
            LineFault::LineTooLong
            | LineFault::NotText
            | LineFault::OpenQuote
            | LineFault::MissingWord
            | LineFault::LongId
            | LineFault::BadNumber,
        ) => Ok(None),
    }
}

/// Puts two pieces behind `out`, one after the other.
pub(crate) fn append_both(out: &mut ByteList, first: &[u8], second: &[u8]) -> Result<(), AllocError>
    ensures ok { OnOk result (out.new ≡ out.old ++ (first.now ++ second.now)) }
    ensures err { OnErr result ((added : List ℕ) × (out.new ≡ out.old ++ added)
        × IsPrefix added (first.now ++ second.now)) }
{
    out.extend(first)?;
    out.extend(second)?;
    Ok(())
}

/// Puts a line and its line feed behind `out`.
fn append_line(out: &mut ByteList, line: &[u8]) -> Result<(), AllocError>
    ensures ok { OnOk result (out.new ≡ out.old ++ (line.now ++ 10 ∷ [])) }
    ensures err { OnErr result ((added : List ℕ) × (out.new ≡ out.old ++ added)
        × IsPrefix added (line.now ++ 10 ∷ [])) }
{
    out.extend(line)?;
    out.push(b'\n')?;
    Ok(())
}

// After an `Err` of a call that puts lines a prefix of them was put, and what the follower knows is left
// open.
impl Follower {
    /// Puts a line behind the text.
    fn put<C: Clock>(
        &mut self,
        clock: &mut C,
        bytes: &[u8],
        said: Option<Line>,
        out: &mut ByteList,
    ) -> Result<(), AllocError>
        requires { said ≡ meaning bytes.now }
        ensures ok { OnOk result (Puts (with_line_put bytes.now) self.old self.new
            (C.readings clock.old) (C.readings clock.new) out.old out.new) }
        ensures err { OnErr result (PutsPrefix (with_line_put bytes.now) self.old
            (C.readings clock.old) (C.readings clock.new) out.old out.new) }
        ensures grows { OnOk result (length out.old < length out.new) }
    {
        append_line(out, bytes)?;
        match said {
            Some(line) => self.note(clock, line),
            None => Ok(()),
        }
    }

    /// Puts the line that closes the open beat.
    fn put_moment<C: Clock>(&mut self, clock: &mut C, out: &mut ByteList) -> Result<(), AllocError>
        ensures ok { OnOk result (Puts with_moment self.old self.new
            (C.readings clock.old) (C.readings clock.new) out.old out.new) }
        ensures err { OnErr result (PutsPrefix with_moment self.old
            (C.readings clock.old) (C.readings clock.new) out.old out.new) }
    {
        let line = moment_line(self.alloc, moment(self.every, self.last, self.reading))?;
        let said = meaning_of(self.alloc, line.as_slice())?;
        self.put(clock, line.as_slice(), said, out)
    }

    /// Whether a line begins a block of a chart that has a row in the open beat.
    fn begins_again(&self, line: &Line) -> bool
        ensures { (origin : Origin) (readings : List ℕ) (past : List ALine)
            → Follows self.now origin readings past → result ≡ begins_again line.now past }
    {
        if let Line::Begin(chart) = line {
            self.rows.as_slice().contains(chart)
        } else {
            false
        }
    }

    /// Whether a MOMENT is due before a line.
    fn is_due(&self, next: &Option<Line>) -> bool
        ensures { (origin : Origin) (readings : List ℕ) (past : List ALine)
            → Follows self.now origin readings past → result ≡ is_due next.now past }
    {
        match next {
            Some(line) => self.begins_again(line),
            None => false,
        }
    }

    fn put_due_moment<C: Clock>(
        &mut self,
        clock: &mut C,
        next: &Option<Line>,
        out: &mut ByteList,
    ) -> Result<(), AllocError>
        ensures ok { OnOk result (Puts (with_due_moment next.now) self.old self.new
            (C.readings clock.old) (C.readings clock.new) out.old out.new) }
        ensures err { OnErr result (PutsPrefix (with_due_moment next.now) self.old
            (C.readings clock.old) (C.readings clock.new) out.old out.new) }
    {
        if self.is_due(next) {
            self.put_moment(clock, out)
        } else {
            Ok(())
        }
    }

    /// Takes a line of a child, and says whether it is a DISABLE.
    pub(crate) fn take_line<C: Clock>(
        &mut self,
        clock: &mut C,
        bytes: &[u8],
        out: &mut ByteList,
    ) -> Result<bool, AllocError>
        ensures disables { IfOk result (λ last. last ≡ disables bytes.now) }
        ensures ok { OnOk result (Puts (put bytes.now) self.old self.new
            (C.readings clock.old) (C.readings clock.new) out.old out.new) }
        ensures err { OnErr result (PutsPrefix (put bytes.now) self.old
            (C.readings clock.old) (C.readings clock.new) out.old out.new) }
        ensures grows { OnOk result (length out.old < length out.new) }
    {
        let said = meaning_of(self.alloc, bytes)?;
        let disables = is_disable(&said);
        self.put_due_moment(clock, &said, out)?;
        self.put(clock, bytes, said, out)?;
        Ok(disables)
    }

    fn put_flush<C: Clock>(&mut self, clock: &mut C, out: &mut ByteList) -> Result<(), AllocError>
        ensures ok { OnOk result (Puts with_flush self.old self.new
            (C.readings clock.old) (C.readings clock.new) out.old out.new) }
        ensures err { OnErr result (PutsPrefix with_flush self.old
            (C.readings clock.old) (C.readings clock.new) out.old out.new) }
    {
        if self.block.is_none() {
            return Ok(());
        }
        let said = meaning_of(self.alloc, b"FLUSH")?;
        self.put(clock, b"FLUSH", said, out)
    }

    fn put_last_moment<C: Clock>(
        &mut self,
        clock: &mut C,
        out: &mut ByteList,
    ) -> Result<(), AllocError>
        ensures ok { OnOk result (Puts with_last_moment self.old self.new
            (C.readings clock.old) (C.readings clock.new) out.old out.new) }
        ensures err { OnErr result (PutsPrefix with_last_moment self.old
            (C.readings clock.old) (C.readings clock.new) out.old out.new) }
    {
        if self.rows.as_slice().is_empty() {
            Ok(())
        } else {
            self.put_moment(clock, out)
        }
    }

    /// Closes what is open at a child's end.
    pub(crate) fn close<C: Clock>(
        &mut self,
        clock: &mut C,
        out: &mut ByteList,
    ) -> Result<(), AllocError>
        ensures ok { OnOk result (Puts close self.old self.new
            (C.readings clock.old) (C.readings clock.new) out.old out.new) }
        ensures err { OnErr result (PutsPrefix close self.old
            (C.readings clock.old) (C.readings clock.new) out.old out.new) }
    {
        self.put_flush(clock, out)?;
        self.put_last_moment(clock, out)
    }
}

fn is_disable(said: &Option<Line>) -> bool
    ensures { result ≡ option_map_or is_disable said.now false }
{
    matches!(said, Some(Line::Disable))
}
