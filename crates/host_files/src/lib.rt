//! The real outside, as the agent sees it: files, standard output, standard input, connections, the
//! programs that it starts and the time.
//!
//! Each object passes a call on to the operating system and counts the calls that fail; nothing is
//! answered `Failed` that was not counted, and the first reason is kept for people to read. None tells
//! what it holds: what a real file keeps and what a real output takes is no matter of proof. A folder's
//! files are used under its lock alone, and none of them under a standard stream's descriptor. They
//! stand on std's files, streams, sockets, processes and clock.
#![tactic(auto)]

mod child_spawner;
mod connection;
mod disk;
mod disk_error;
mod faults;
mod file_host;
mod folder_lock;
mod handles;
mod regular;
mod standard;
mod stdin_source;
mod system_clock;
mod tcp_link;

pub use child_spawner::ChildSpawner;
pub use disk_error::DiskError;
pub use file_host::FileHost;
pub use folder_lock::LockKind;
pub use standard::StandIns;
pub use stdin_source::StdinSource;
pub use system_clock::SystemClock;
pub use tcp_link::TcpLink;
