ghost use Rattle.std.specs.Prelude.{◌≡◌, ◌<◌, ◌≤◌, ◌↔◌, length, IfOk, IsSome, None};

use crate::faults::Faults;
use crate::stdin_source::read_on;
use fixed_num::WordsList;
use host_model::{Failed, Spawner};
use std::alloc::Global;
use std::io;
use std::io::{Error, ErrorKind};
use std::process::{Child, Command, OpenProcess, Processes, Stdio};

/// A child that is killed, and waited for, where it is dropped.
struct Running<P: OpenProcess + Drop> {
    child: Child<P>,
}

impl<P: OpenProcess + Drop> Drop for Running<P> {
    fn drop(self) {
        let Running { mut child } = self;
        // A child that was waited for is neither killed nor waited for again.
        let _ = child.kill();
        let _ = child.wait();
    }
}

impl<P: OpenProcess + Drop> Running<P> {
    fn pull(&mut self, into: &mut [u8]) -> io::Result<usize>
        ensures { IfOk result (λ n. n ≤ length into.new) }
    {
        match &mut self.child.stdout {
            Some(output) => read_on(output, into),
            None => Err(no_child()),
        }
    }

    /// Waits for the end, and gives the status, or -1 where a signal ended the child.
    fn finish(&mut self) -> io::Result<i32> {
        let status = self.child.wait()?;
        Ok(status.code().unwrap_or(-1))
    }

    fn stop(&mut self) -> io::Result<()> {
        self.child.kill()?;
        self.child.wait()?;
        Ok(())
    }
}

/// Programs of the system as children. It tells nothing.
///
/// A child's standard input is a pipe on which nothing comes and which is open until the child is waited
/// for: many collectors end when theirs is closed. Its standard error is that of this program, and what it
/// writes is taken as it comes. A child that runs is killed and waited for where another one is started,
/// where it is stopped, and where the spawner is dropped. A child that is silent is waited for, as long as
/// it takes.
#[derive(Drop)]
pub struct ChildSpawner<R: Processes + Drop> {
    alloc: Global,
    system: R,
    running: Option<Running<R::Started>>,
    faults: Faults<io::Error>,
}

impl<R: Processes + Drop> ChildSpawner<R> {
    /// A spawner with no child, of which no call has failed.
    pub fn new(alloc: Global, system: R) -> ChildSpawner<R>
        ensures { ⟦<ChildSpawner<R> as Spawner>⟧.faults result ≡ 0 }
    {
        ChildSpawner {
            alloc,
            system,
            running: None,
            faults: Faults::new(),
        }
    }

    /// Why the first call that failed did.
    pub fn error(&self) -> Option<io::Error>
        ensures { IsSome result ↔ (0 < ⟦<ChildSpawner<R> as Spawner>⟧.faults self.now) }
    {
        self.faults.first()
    }
}

/// Starts a program with its arguments.
fn spawn<R: Processes>(
    alloc: Global,
    system: &R,
    words: &WordsList,
) -> io::Result<Child<R::Started>> {
    let Some((program, arguments)) = words.as_slice().split_first() else {
        return Err(Error::from(ErrorKind::InvalidInput));
    };
    let mut command = Command::new(alloc, program.as_str())?;
    for argument in arguments {
        command.arg(argument.as_str())?;
    }
    command.stdin(Stdio::piped());
    command.stdout(Stdio::piped());
    command.spawn(system)
}

fn no_child() -> Error {
    Error::from(ErrorKind::NotFound)
}

impl<R: Processes + Drop> Spawner for ChildSpawner<R> {
    ghost children = { λ _. None };

    ghost faults = { λ spawner. spawner.faults.count };

    fn start(&mut self, words: &WordsList) -> Result<(), Failed> {
        self.running = None;
        match spawn(self.alloc, &self.system, words) {
            Ok(child) => {
                self.running = Some(Running { child });
                Ok(())
            }
            Err(reason) => {
                self.faults.add(reason);
                Err(Failed)
            }
        }
    }

    fn pull(&mut self, into: &mut [u8]) -> Result<usize, Failed> {
        let pulled = match &mut self.running {
            Some(running) => running.pull(into),
            None => Err(no_child()),
        };
        match pulled {
            Ok(taken) => Ok(taken),
            Err(reason) => {
                self.faults.add(reason);
                Err(Failed)
            }
        }
    }

    fn finish(&mut self) -> Result<i32, Failed> {
        let finished = match &mut self.running {
            Some(running) => running.finish(),
            None => Err(no_child()),
        };
        match finished {
            Ok(status) => {
                self.running = None;
                Ok(status)
            }
            Err(reason) => {
                self.faults.add(reason);
                Err(Failed)
            }
        }
    }

    fn stop(&mut self) -> Result<(), Failed> {
        let stopped = match &mut self.running {
            Some(running) => running.stop(),
            None => Ok(()),
        };
        match stopped {
            Ok(()) => {
                self.running = None;
                Ok(())
            }
            Err(reason) => {
                self.faults.add(reason);
                Err(Failed)
            }
        }
    }
}

#[cfg(test)]
mod tests;
