//! What the agent asks of the world outside: its input, its files, its output, its links, the programs
//! that it starts and the time.
//!
//! Every object of the outside may fail at any call, and counts its failures, so that a caller can be
//! held to the truth about whose fault a refusal was. An object may tell what it holds, as those in
//! memory do, or keep silent, as a real file must: each fact about bytes is stated for those that tell.
//! A host's past says what its files read as, what was told, and, for every moment, what a crash may
//! leave of the files and what may have been told by then. The objects in memory say exactly which of
//! their calls fail, and what a crash leaves of them.
#![tactic(auto)]

mod calls;
mod clock;
mod contents;
mod entry;
mod file;
mod host;
mod keep;
mod link;
mod memory_clock;
mod memory_host;
mod memory_link;
mod memory_source;
mod memory_spawner;
mod replay;
mod source;
mod spawner;
mod status;

pub use calls::{CallList, ModelFault};
pub use clock::Clock;
pub use file::File;
pub use host::{Failed, Host};
pub use keep::Keep;
pub use link::Link;
pub use memory_clock::MemoryClock;
pub use memory_host::MemoryHost;
pub use memory_link::MemoryLink;
pub use memory_source::MemorySource;
pub use memory_spawner::MemorySpawner;
pub use source::Source;
pub use spawner::Spawner;
pub use status::Status;
