//! The tests of `line_stream`: the lines of a text that comes in pieces.

use host_model::{CallList, Host, MemoryHost, MemorySource, Status};
use line_stream::{Taker, take_text};
use std::alloc::{AllocError, Global};
use std::fmt::Write;
use std::test::Fail;

/// Notes what it is handed: a line by its number and its length, a pause by a dot, an end by its number of lines
/// and its rest, and a line that is too long by its number. The line `stop` ends the run.
#[derive(Drop)]
struct Notes {
    text: String,
}

impl Notes {
    fn note(&mut self, kind: &str, number: u64, size: usize) -> Result<(), AllocError> {
        write!(self.text, "{kind}{number}:{size} ")
    }
}

impl<H: Host> Taker<H> for Notes {
    ghost ready = { λ notes host number. Unit {0} };

    ghost acts = { record {
      takes = λ old host number line result new host'. Unit {0};
      pauses = λ old host result new host'. Unit {0};
      ends = λ old host lines rest status new host'. Unit {0};
      overflows = λ old host number status new host'. Unit {0};
    } };

    fn take_line(&mut self, _host: &mut H, number: u64, line: &[u8]) -> Result<(), Status> {
        if self.note("line ", number, line.len()).is_err() {
            return Err(Status::Memory);
        }
        if line == b"stop".as_slice() {
            Err(Status::Disabled)
        } else {
            Ok(())
        }
    }

    fn pause(&mut self, _host: &mut H) -> Result<(), Status> {
        match self.text.push_str(". ") {
            Ok(()) => Ok(()),
            Err(_) => Err(Status::Memory),
        }
    }

    fn end(&mut self, _host: &mut H, lines: u64, rest: &[u8]) -> Status {
        match self.note("end ", lines, rest.len()) {
            Ok(()) => Status::Ok,
            Err(_) => Status::Memory,
        }
    }

    fn overflow(&mut self, _host: &mut H, number: u64) -> Status {
        match self.note("long ", number, 0) {
            Ok(()) => Status::Refused(number, 11),
            Err(_) => Status::Memory,
        }
    }
}

/// What is noted of a text whose source fails at these calls, and how the run ends.
fn noted(alloc: Global, text: &[u8], fails: &[u64]) -> Result<(String, Status), Fail> {
    let fails = CallList::from_vec(fails.to_vec(alloc)?);
    let mut source = MemorySource::new(alloc, text, fails)?;
    let mut host = MemoryHost::new(alloc, CallList::new(alloc))?;
    let mut notes = Notes {
        text: String::new(alloc),
    };
    let status = take_text(alloc, &mut notes, &mut source, &mut host);
    Ok((notes.text, status))
}

#[test]
fn hands_over_each_line_in_order(rt: HostRuntime) -> Result<(), Fail> {
    let (text, status) = noted(rt.alloc(), b"a\n\nbcd\nef", &[])?;
    assert_eq!(rt; text.as_str(), "line 1:1 line 2:0 line 3:3 . end 3:2 ");
    assert_eq!(rt; status, Status::Ok);
    let (text, status) = noted(rt.alloc(), b"", &[])?;
    assert_eq!(rt; text.as_str(), "end 0:0 ");
    assert_eq!(rt; status, Status::Ok);
    Ok(())
}

#[test]
fn a_line_may_cross_two_pieces(rt: HostRuntime) -> Result<(), Fail> {
    let alloc = rt.alloc();
    let mut input = Vec::new(alloc);
    for _ in 0..8 {
        input.extend_from_slice(&[b'x'; 8191])?;
        input.push(b'\n')?;
    }
    // 65,536 bytes so far.
    input.extend_from_slice(b"ab\ncd")?;
    input.insert(0, b'y')?;
    let (text, status) = noted(alloc, &input, &[])?;
    assert!(rt;
        text.as_str()
            .ends_with("line 7:8191 . line 8:8191 line 9:2 . end 9:2 ")
    );
    assert_eq!(rt; status, Status::Ok);
    Ok(())
}

#[test]
fn a_run_stops_where_it_must(rt: HostRuntime) -> Result<(), Fail> {
    let alloc = rt.alloc();
    let (text, status) = noted(alloc, b"a\nstop\nb\n", &[])?;
    assert_eq!(rt; text.as_str(), "line 1:1 line 2:4 ");
    assert_eq!(rt; status, Status::Disabled);
    let (text, status) = noted(alloc, b"a\n", &[1])?;
    assert_eq!(rt; text.as_str(), "line 1:1 . ");
    assert_eq!(rt; status, Status::ReadFault);
    let mut input = Vec::from_slice(alloc, b"a\n")?;
    input.extend_from_slice(&[b'x'; 8193])?;
    input.extend_from_slice(b"\nb\n")?;
    let (text, status) = noted(alloc, &input, &[])?;
    assert_eq!(rt; text.as_str(), "line 1:1 long 2:0 ");
    assert_eq!(rt; status, Status::Refused(2, 11));
    Ok(())
}
