//! The program `nda`: the commands of the agent over the process's own words, input and output.
//!
//! It makes the list of words, and hands it with standard input, standard output, the files of the
//! current folder, a link to another agent, what starts programs and the clock to `agent_main`, whose contract says the
//! rest. The status that comes back is the exit status; where it is not 0, a line on standard error says what happened
//! and what is to be done.
#![tactic(auto)]

mod arguments;
mod ending;
mod forms;
mod refusals;

use agent_app::agent_main;
use arguments::{Notice, Peer, address_of, lock_of, notice_of, peer_of, read_words, text_kind_of};
use ending::Ending;
use fixed_num::WordsList;
use forms::{FORMS, VERSION};
use host_files::{ChildSpawner, FileHost, StandIns, StdinSource, SystemClock, TcpLink};
use host_model::Status;
use std::alloc::AllocError;
use std::io;
use std::process::ExitCode;

/// The link to the other agent with whom the command speaks. That of `receive` listens from now on, and that
/// of another command connects to nobody before its first call.
fn link_of(rt: &HostRuntime, words: &WordsList) -> Result<TcpLink<HostRuntime>, AllocError> {
    let address = address_of(words);
    match peer_of(words) {
        Peer::Child => Ok(TcpLink::listening(*rt, address)),
        Peer::Nobody | Peer::Parent => TcpLink::connecting(rt.alloc(), *rt, address),
    }
}

/// Runs the command over standard input and output, the files of the current folder, the link to another
/// agent, and the programs that it starts. One that still runs at its end is killed and waited for.
fn run_command(rt: &HostRuntime, words: &WordsList) -> Ending {
    let alloc = rt.alloc();
    let mut source = StdinSource::new(rt.reader());
    let Ok(mut host) = FileHost::new(alloc, *rt, lock_of(words), io::writer(rt)) else {
        return Ending::of(Status::Memory);
    };
    let Ok(mut link) = link_of(rt, words) else {
        return Ending::of(Status::Memory);
    };
    let mut spawner = ChildSpawner::new(alloc, *rt);
    let mut clock = SystemClock::new(*rt);
    let status = agent_main(
        alloc,
        words,
        &mut source,
        &mut host,
        &mut link,
        &mut spawner,
        &mut clock,
    );
    Ending {
        status,
        text: text_kind_of(words),
        input: source.error(),
        output: host.tell_error(),
        disk: host.disk_error(),
        link: link.error(),
        program: spawner.error(),
    }
}

/// Prints what `--help` or `--version` asks for on standard output.
fn inform(rt: &HostRuntime, wanted: Notice) -> Ending {
    let text = match wanted {
        Notice::Help => FORMS,
        Notice::Version => VERSION,
    };
    match rt.println(text) {
        Ok(()) => Ending::of(Status::Ok),
        Err(error) => Ending {
            output: Some(error),
            ..Ending::of(Status::TellFault)
        },
    }
}

fn run(rt: &HostRuntime) -> Ending {
    let words = match read_words(rt) {
        Ok(words) => words,
        Err(status) => return Ending::of(status),
    };
    match notice_of(&words) {
        Some(wanted) => inform(rt, wanted),
        None => run_command(rt, &words),
    }
}

/// Says on standard error how a run ended that did not do all. Where even that fails, the exit status
/// still tells.
fn complain(rt: &HostRuntime, ending: &Ending) {
    let _ = eprintln!(rt; "nda: {ending}");
    if ending.status == Status::Usage {
        let _ = rt.eprintln(FORMS);
    }
}

fn main(rt: HostRuntime) -> ExitCode {
    // First, so that no file of the database is opened in the place of a standard stream.
    let _stand_ins = StandIns::open(&rt);
    let ending = run(&rt);
    if ending.status != Status::Ok {
        complain(&rt, &ending);
    }
    ExitCode::from(ending.status.number())
}

#[cfg(test)]
mod tests;
