//! The database of an agent on a disk: a base, and the beats since.
//!
//! A base is what the last checkpoint has of the beats up to it: how many there were, what the
//! tiers keep of them, and a side, which is bytes of the layer above. The beats since are the
//! records of a journal. `checkpoint` moves the base on by them, with a new side, and so bounds the
//! journal. A disk holds one database at most.
//!
//! Over an honest host a crash leaves at every moment of `commit` what was stored, with the new
//! beat or without it, and at `Ok` with it; of `checkpoint` what was stored, with the old base or
//! with the new one, and at `Ok` with the new, where there can be a later checkpoint; of `create`
//! what it might have left before, no database, or the new one. `open` gives just what is on the
//! disk where beats leave that, and else what is left of a disk in form; or it says that there is
//! no database, or which part is not in its form. `replay` then gives the beats since. Where no
//! beats leave what was opened, or one stands behind a beat that sealed a segment, no later
//! checkpoint is made. No other file is touched, and each file stays within its share while there
//! can be a later checkpoint. Once `commit`, `checkpoint` or `replay` had `DiskFault` or `Memory`,
//! these, `kept` and `kept_above` give the first cause. Until then `floor`, `kept`, `kept_above`
//! and a `StoreView` of a database of beats answer by the definition over all of them, those of the
//! base too.
//!
//! Below the store are four modules, each on those before it: `beats` has the records of beats,
//! `disk` the files, `pages` the items of a tier as pages, and `bodies` the tiers of a checkpoint.
//! The crate stands on `checkpoint`, `checkpoint_body`, `journal_core` and `extent_file` for the
//! files' bytes, on `beat_tiers`, on `query_engine` for the trait of a view, and on `host_model`
//! for crashes.
#![tactic(auto)]

mod answering;
pub mod beats;
pub mod bodies;
mod checkpointing;
mod committing;
mod creating;
pub mod disk;
mod fault;
mod law;
mod opening;
pub mod pages;
mod replaying;
mod store;
mod tiers;
mod view;

pub use beat_tiers::{Kept, KeptBeat, KeptBeatList, KeptPoint, KeptPointList};
pub use beats::{Beat, BeatPoint, BeatPointList, ByteList};
pub use fault::{CreateFault, OpenFault, StoreFault, Why};
pub use law::{base_has_what_beats_leave, one_disk_holds_one_database};
pub use store::Store;
pub use tier_settings::{Settings, Tier, is_in_limits};
pub use view::{StoreView, answer_by};
