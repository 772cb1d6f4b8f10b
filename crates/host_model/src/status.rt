ghost use Rattle.std.specs.Prelude.{◌≡◌};
ghost use Rattle.host_model.specs.Status.{number_of};

/// How a run of the program ended.
#[derive(Clone, Copy, Debug, PartialEq, Eq)]
pub enum Status {
    /// The input was read to its end, and all of the output was told.
    Ok,
    /// The words of the command line are in no form.
    Usage,
    /// The input has a first refusal: its line, and the refusal's number.
    Refused(u64, u32),
    /// The input could not be read.
    ReadFault,
    /// The output could not be written.
    TellFault,
    /// The disk failed.
    DiskFault,
    /// The link to another agent failed.
    LinkFault,
    /// There is no database here.
    NotADatabase,
    /// There is a database here already.
    Exists,
    /// The files are no database: the number of the part that is not in form.
    Damaged(u32),
    /// The other agent sent what cannot be taken: the kind of refusal.
    PeerRefused(u32),
    /// The link ended before the other agent said that it was done.
    LinkEnded,
    /// A child process could not be started, read or waited for.
    SpawnFault,
    /// A child process ended with a failure, or asked not to be started again.
    Disabled,
    /// 2^40 bytes of input were taken, and no end had come.
    InputLimit,
    /// The input asks for more than the agent keeps: its line, and the refusal's number.
    Limit(u64, u32),
    /// There was no memory.
    Memory,
}

impl Status {
    /// The exit status of the program.
    pub fn number(&self) -> u8
        ensures { result ≡ number_of self.now }
    {
        match self {
            Status::Ok => 0,
            Status::Usage => 1,
            Status::Refused(..) => 2,
            Status::ReadFault => 3,
            Status::TellFault => 4,
            Status::DiskFault => 5,
            Status::LinkFault => 6,
            Status::NotADatabase | Status::Exists => 7,
            Status::Damaged(_) => 8,
            Status::PeerRefused(_) => 9,
            Status::LinkEnded => 10,
            Status::SpawnFault => 11,
            Status::Disabled => 12,
            Status::InputLimit => 13,
            Status::Limit(..) => 14,
            Status::Memory => 15,
        }
    }
}
