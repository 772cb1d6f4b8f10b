//! A session each way over a link: a child sends its history, and a parent receives it.
//!
//! What an end does with each frame that comes is a definition (`specs/Child.antt` and `specs/Parent.antt`), and a
//! session is the fold of it over the frames in the bytes of the link (`specs/Exchange.antt`). `send` and `receive`
//! are proved to do just that over every link and host, also silent ones: what was sent is a prefix of what the
//! exchange says, and all of it but where something failed; why a session ended is how the exchange ends, or where
//! the bytes end, break or are too many. What they take of the link, at most 2^40 bytes, and what that says of why a
//! session ended, is proved over every host (`specs/Taking.antt`). `send` writes and tells nothing. Whatever a crash
//! leaves during `receive`, the disk has every beat whose `STORED` line was told, and a history that was a copy of a
//! child still is one where each Data that came is true of it. What a parent says answers only frames of which all
//! was stored and told: it says Have only once the beats are on the disk and told. And it is said in turn: where a
//! frame was looked at, each one before it had been stored, told and answered. The disk and the output fail only for a
//! Data that is to be stored, and where no beat is added nothing is written.
//!
//! What both ends do are steps of two histories and the Data between them, and after any such steps the parent is a
//! copy of the child: `sessions_are_steps`.
//!
//! It stands on the agent of `agent_core`, on the frames of `link_frames`, and on the limit of input of `line_stream`.
#![tactic(auto)]

mod child;
mod fault;
mod flow;
mod incoming;
mod law;
mod parent;
mod saying;

pub use child::send;
pub use fault::{PeerFault, SessionFault};
pub use law::sessions_are_steps;
pub use parent::receive;
