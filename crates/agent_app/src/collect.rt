//! The command `collect`: a program is run as a collector, and its beats are stored behind those of a database.
ghost use Rattle.std.specs.Prelude.{◌≡◌, ◌≢◌, ◌<◌, ◌≤◌, [], length, IfOk};
ghost use Rattle.history.specs.declared.limits.TheConstants.{UPDATE_EVERY_LIMIT};
ghost use Rattle.agent_app.specs.Collect.{collector_of, halt_status, outside_of, program_of, CollectsAll};
ghost use Rattle.agent_app.specs.Command.{IsCollector};

use crate::running::Running;
use crate::statuses::opening_status;
use agent_core::Agent;
use fixed_num::WordsList;
use host_model::{Clock, Host, Spawner, Status};
use plugin_runner::{Halt, RunFault, Runner, take_collected};
use std::alloc::{AllocError, Global};

/// A program that is to be run as a collector.
#[derive(Drop)]
pub struct Collector {
    /// How many seconds lie between its beats, 1 to `UPDATE_EVERY_LIMIT`.
    pub every: u32,
    /// How often it is started at most, 1 to `STARTS_LIMIT`.
    pub starts: u32,
    /// The program and its arguments.
    pub words: WordsList,
}

/// The words of the program that a command line runs: those behind the first three.
fn program(alloc: Global, words: &WordsList) -> Result<WordsList, AllocError>
    requires { 3 < length words.now }
    ensures { IfOk result (λ program. program ≡ program_of words.now) }
{
    let program = words.as_slice()[3..].to_vec(alloc)?;
    Ok(WordsList::from_vec(program))
}

/// The status of a run whose collector halted so. A line that ends the text, a DISABLE, disables the program.
fn halt_status(halt: Halt) -> Status
    ensures { result ≡ halt_status halt }
{
    match halt {
        Halt::AtEnd(status) => status,
        Halt::Within(Status::Ok) => Status::Disabled,
        Halt::Within(status) => status,
        Halt::Failed(RunFault::SpawnFault | RunFault::PipeFault) => Status::SpawnFault,
        Halt::Failed(RunFault::Disabled(_)) => Status::Disabled,
        Halt::Failed(RunFault::Memory) => Status::Memory,
    }
}

/// Opens the database, runs a program as its collector, and stores the beats of its text behind those that the
/// database has. Tells each once it is stored.
///
/// `SpawnFault` where the program cannot be started or read, and `Disabled` where it ends with another status
/// than 0 or prints DISABLE. The beats that were closed before are stored then. `Ok` where all starts were made and
/// each ended with 0.
pub fn collect<P: Spawner, C: Clock, H: Host>(
    alloc: Global,
    asked: Collector,
    spawner: &mut P,
    clock: &mut C,
    host: &mut H,
) -> Status
    requires words { asked.words ≢ [] }
    requires every { 0 < asked.every }
    requires limit { asked.every ≤ UPDATE_EVERY_LIMIT }
    requires starts { 0 < asked.starts }
    ensures { CollectsAll H.honest asked result
        (outside_of (P.children spawner.old) (P.faults spawner.old) (C.readings clock.old))
        (outside_of (P.children spawner.new) (P.faults spawner.new) (C.readings clock.new))
        (H.seen host.old) (H.seen host.new) }
{
    match Agent::open(alloc, host) {
        Ok(agent) => {
            let last = agent.last();
            let mut runner = Runner::new(alloc, asked.words, asked.every, asked.starts, last);
            let mut running = Running::new(alloc, agent, asked.every);
            let halt = take_collected(alloc, &mut runner, &mut running, spawner, clock, host);
            halt_status(halt)
        }
        Err(fault) => opening_status(fault),
    }
}

/// The same of the collector that the words of a command line give.
pub fn collect_words<P: Spawner, C: Clock, H: Host>(
    alloc: Global,
    every: u32,
    starts: u32,
    words: &WordsList,
    spawner: &mut P,
    clock: &mut C,
    host: &mut H,
) -> Status
    requires { IsCollector every starts words.now }
    ensures { CollectsAll H.honest (collector_of every starts words.now) result
        (outside_of (P.children spawner.old) (P.faults spawner.old) (C.readings clock.old))
        (outside_of (P.children spawner.new) (P.faults spawner.new) (C.readings clock.new))
        (H.seen host.old) (H.seen host.new) }
{
    let Ok(program) = program(alloc, words) else {
        return Status::Memory;
    };
    let asked = Collector {
        every,
        starts,
        words: program,
    };
    collect(alloc, asked, spawner, clock, host)
}
