//! The words of the command line.
ghost use Rattle.std.specs.Prelude.{◌≡◌};
ghost use Rattle.nda.specs.Lock.{lock_of};
ghost use Rattle.nda.specs.Notice.{notice_of};
ghost use Rattle.nda.specs.Peer.{address_of, peer_of};
ghost use Rattle.nda.specs.TextKind.{text_kind_of};

use fixed_num::{Text, WordsList};
use host_files::LockKind;
use host_model::Status;
use std::env;
use std::io::ErrorKind;

/// What a command line that names no command may ask for.
#[derive(Clone, Copy, Debug, PartialEq, Eq)]
pub enum Notice {
    Help,
    Version,
}

/// With whom a command speaks.
#[derive(Clone, Copy, Debug, PartialEq, Eq)]
pub enum Peer {
    Nobody,
    /// The child that connects to its address.
    Child,
    /// The parent that is at its address.
    Parent,
}

/// What a command reads.
#[derive(Clone, Copy, Debug, PartialEq, Eq)]
pub enum TextKind {
    /// Alarms, on standard input.
    Alarms,
    /// Beats, on standard input.
    Beats,
    /// Beats, as a program writes them that is run as a collector.
    Collected,
    /// What another agent sends.
    Frames,
}

/// What the words ask the program to say of itself, where they do: a sole `--help` or `--version`.
pub fn notice_of(words: &WordsList) -> Option<Notice>
    ensures { result ≡ notice_of words.now }
{
    let [word] = words.as_slice() else {
        return None;
    };
    match word.as_str() {
        "--help" => Some(Notice::Help),
        "--version" => Some(Notice::Version),
        _ => None,
    }
}

/// Beside whom the command of these words may use the files of its folder. One that is not named here
/// has them alone.
pub fn lock_of(words: &WordsList) -> LockKind
    ensures { result ≡ lock_of words.now }
{
    let [command, ..] = words.as_slice() else {
        return LockKind::Alone;
    };
    match command.as_str() {
        "convert" => LockKind::None,
        "log" | "query" | "send" => LockKind::Shared,
        _ => LockKind::Alone,
    }
}

/// With whom the command of these words speaks.
pub fn peer_of(words: &WordsList) -> Peer
    ensures { result ≡ peer_of words.now }
{
    let [command, _address] = words.as_slice() else {
        return Peer::Nobody;
    };
    match command.as_str() {
        "receive" => Peer::Child,
        "send" => Peer::Parent,
        _ => Peer::Nobody,
    }
}

/// The word behind the command, where it is the only one.
pub fn address_of(words: &WordsList) -> &str
    ensures { result.now ≡ address_of words.now }
{
    match words.as_slice() {
        [_, address] => address.as_str(),
        _ => "",
    }
}

/// What the command of these words reads, where it reads something.
pub fn text_kind_of(words: &WordsList) -> TextKind
    ensures { result ≡ text_kind_of words.now }
{
    let [command, ..] = words.as_slice() else {
        return TextKind::Beats;
    };
    match command.as_str() {
        "collect" => TextKind::Collected,
        "health" => TextKind::Alarms,
        "receive" | "send" => TextKind::Frames,
        _ => TextKind::Beats,
    }
}

/// The words after the program's name. A word that is not UTF-8 is in no form.
pub fn read_words(rt: &HostRuntime) -> Result<WordsList, Status> {
    let mut args = match env::args(rt) {
        Ok(args) => args,
        Err(error) if error.kind() == ErrorKind::OutOfMemory => return Err(Status::Memory),
        Err(_) => return Err(Status::Usage),
    };
    let mut words = WordsList::new(rt.alloc());
    let _name = args.next();
    for word in args {
        if words.push(Text::from_string(word)).is_err() {
            return Err(Status::Memory);
        }
    }
    Ok(words)
}
