//! What the tiers of a database keep of its beats.
//!
//! Tier 0 has the points, each other tier a record for each bucket of its width. A tier's items are cut into
//! segments, of which so many are kept: what is older has expired, and lies below the floor. `Tiers` takes beats
//! and answers for points, records, floors and kept beats. Where each beat follows those before it (`Follows`),
//! each answer is that of its definition over all beats, and no floor falls. `reserve` takes all memory that a beat
//! needs, so that `take` cannot fail. `Tiers::restore` makes tiers of their parts, or `None` where these have not
//! the form of tiers. `are_kept` and `is_record_tier` say which tier has not, and `Tiers::of_parts` takes parts in
//! form.
//!
//! A beat costs by its points and the records that close at it, and an answer finds its items by halves. Each item
//! is sorted once, when its segment is sealed.
//!
//! Tiers are sound where they are in form and each item that they keep is one that a beat may have given. The
//! tiers of no beats are sound, and stay so with each later beat. By a beat each tier seals at most one segment.
//!
//! It stands on `tier_settings`, `tier_rollup`, `storage_number` and `fixed_num`. It knows no disk and no history.
#![tactic(auto)]

mod above;
mod form;
mod item;
mod kept;
mod kept_law;
mod law;
mod more_law;
mod parts;
mod record_tier;
mod restored_law;
mod sealed;
mod searching;
mod segments;
mod sound_law;
mod tiers;

pub use form::{are_kept, is_record_tier};
pub use item::{BeatPoint, BeatPointList, Item, Stepped};
pub use kept::{Kept, KeptBeat, KeptBeatList, KeptPoint, KeptPointList};
pub use kept_law::kept_beats_reach_the_floor;
pub use law::tiers_follow_the_beats;
pub use more_law::floors_never_fall;
pub use parts::{KeptItems, KeptRecords, KeptRecordsList, OpenRecordList, Segment, SegmentList};
pub use record_tier::RecordTier;
pub use restored_law::restored_tiers_are_the_same;
pub use sealed::Sealed;
pub use segments::{Segments, places_in};
pub use sound_law::{sound_tiers_go_on, sound_tiers_stay_sound};
pub use tier_settings::Tier;
pub use tiers::Tiers;
