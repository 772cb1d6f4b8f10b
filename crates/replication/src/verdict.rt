/// What a parent makes of a `Data`.
#[derive(Clone, Copy, Debug, PartialEq, Eq)]
pub enum Verdict {
    /// It begins where the parent ends, and is stored.
    Stored,
    /// It begins below the parent's last moment, up to which the parent has beats or gaps already. The parent
    /// asks from there, whatever the message has.
    Old,
    /// It begins above the parent's last moment: one before it has not come.
    Ahead,
    /// The parent keeps a copy of another child.
    WrongChild {
        /// The id of the child that the parent has a copy of.
        kept: u64,
        /// The id of the child that sent the message.
        came: u64,
    },
}
