//! The tests of `plugin_runner` on whole runs: the lines that are handed over, and why a run halts.

use fixed_num::{Text, WordsList};
use host_model::{CallList, Host, MemoryClock, MemoryHost, MemorySpawner, Status};
use line_stream::Taker;
use plugin_runner::{Halt, RunFault, Runner, take_collected};
use std::alloc::Global;
use std::fmt::Write;
use std::process::Abort;
use std::test::Fail;

/// Notes each line and a bar, and the end by its number of lines. The line `stop` ends the run.
#[derive(Drop)]
struct Notes {
    text: String,
}

impl<H: Host> Taker<H> for Notes {
    ghost ready = { λ notes host number. Unit {0} };

    ghost acts = { record {
      takes = λ old host number line result new host'. Unit {0};
      pauses = λ old host result new host'. Unit {0};
      ends = λ old host lines rest status new host'. Unit {0};
      overflows = λ old host number status new host'. Unit {0};
    } };

    fn take_line(&mut self, _host: &mut H, _number: u64, line: &[u8]) -> Result<(), Status> {
        let Ok(line) = std::str::from_utf8(line) else {
            return Err(Status::Memory);
        };
        if line == "stop" {
            return Err(Status::Disabled);
        }
        match write!(self.text, "{line}|") {
            Ok(()) => Ok(()),
            Err(_) => Err(Status::Memory),
        }
    }

    fn pause(&mut self, _host: &mut H) -> Result<(), Status> {
        Ok(())
    }

    fn end(&mut self, _host: &mut H, lines: u64, rest: &[u8]) -> Status {
        match write!(self.text, "end {lines}:{}", rest.len()) {
            Ok(()) => Status::Ok,
            Err(_) => Status::Memory,
        }
    }

    fn overflow(&mut self, _host: &mut H, number: u64) -> Status {
        Status::Refused(number, 11)
    }
}

/// What is noted of children that write these bytes and end so, over a spawner that fails at these calls.
fn check(
    rt: &impl Abort,
    alloc: Global,
    children: &[&[u8]],
    statuses: &[i32],
    fails: &[u64],
    want: &str,
    halt: Halt,
) -> Result<(), Fail> {
    let mut spawner = MemorySpawner::new(alloc, CallList::from_vec(fails.to_vec(alloc)?));
    for (bytes, status) in children.iter().zip(statuses) {
        spawner.add(bytes, *status)?;
    }
    let mut clock = MemoryClock::new(alloc, &[100, 200])?;
    let mut host = MemoryHost::new(alloc, CallList::new(alloc))?;
    let mut notes = Notes {
        text: String::new(alloc),
    };
    let mut words = WordsList::new(alloc);
    words.push(Text::from_str(alloc, "p")?)?;
    let mut runner = Runner::new(alloc, words, 1, 2, 0);
    assert_eq!(rt;
        take_collected(
            alloc,
            &mut runner,
            &mut notes,
            &mut spawner,
            &mut clock,
            &mut host
        ),
        halt
    );
    assert_eq!(rt; notes.text.as_str(), want);
    Ok(())
}

#[test]
fn hands_over_the_lines_of_both_children(rt: HostRuntime) -> Result<(), Fail> {
    let alloc = rt.alloc();
    let first = b"BEGIN a.b\nEND\n".as_slice();
    check(
        &rt,
        alloc,
        &[first, b"x\nyz"],
        &[0, 0],
        &[],
        "BEGIN a.b|END|MOMENT 100|x|end 4:0",
        Halt::AtEnd(Status::Ok),
    )
}

#[test]
fn halts_where_it_must(rt: HostRuntime) -> Result<(), Fail> {
    let alloc = rt.alloc();
    check(
        &rt,
        alloc,
        &[b"x\n"],
        &[3],
        &[],
        "x|",
        Halt::Failed(RunFault::Disabled(Some(3))),
    )?;
    check(
        &rt,
        alloc,
        &[b"x\n"],
        &[0],
        &[0],
        "",
        Halt::Failed(RunFault::SpawnFault),
    )?;
    // The refusal of a line comes before the answer of the turn that put it.
    check(
        &rt,
        alloc,
        &[b"x\nstop\nDISABLE\n"],
        &[0],
        &[],
        "x|",
        Halt::Within(Status::Disabled),
    )
}
