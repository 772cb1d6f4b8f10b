ghost use Rattle.std.specs.Prelude.{◌≡◌};
ghost use Rattle.std.specs.Option.{is_some};
ghost use Rattle.beat_tiers.specs.Room.{tiers_held};
ghost use Rattle.store_core.specs.bodies.Next.{sealed_after};

use crate::beats::Waiting;
use crate::bodies::sealed_after;
use crate::disk::Files;
use crate::fault::Why;
use beat_tiers::{Segments, Tiers};
use checkpoint_body::Body;
use std::alloc::Global;
use std::marker::Model;
use tier_settings::Settings;

/// The bytes of a journal from which a checkpoint is due.
const LONG_JOURNAL: u64 = 1 << 24;

/// A database that has been made or opened, with the host that it is on. Each call on it is handed
/// that host, which since then only its calls, and `tell`, have touched.
#[derive(Debug, Drop)]
pub struct Store {
    pub(crate) alloc: Global,
    pub(crate) files: Files,
    /// The body of the open checkpoint.
    pub(crate) body: Body,
    /// How many beats were applied.
    pub(crate) count: u64,
    /// The first cause for which the database must be opened again.
    pub(crate) fault: Option<Why>,
    /// Whether the disk holds what beats leave.
    pub(crate) whole: bool,
    pub(crate) waiting: Waiting,
    /// What the tiers keep of the beats that were applied.
    pub(crate) tiers: Tiers,
}

impl Model for Store {
    ghost use Rattle.beat_tiers.specs.Room.{tiers_held};
    ghost use Rattle.store_core.specs.Store.{StoreState};

    ghost Value = { StoreState };

    ghost view = { λ store. record {
      files = store.files;
      body = store.body;
      count = store.count;
      fault = store.fault;
      whole = store.whole;
      waiting = store.waiting;
      tiers = tiers_held store.tiers;
    } };
}

/// Whether a tier has sealed a segment after a moment.
fn has_new<T: Copy + Drop>(segments: &Segments<T>, moment: u32) -> bool
    ensures { result ≡ is_some (sealed_after moment segments.now.kept.sealed) }
{
    sealed_after(segments, moment).is_some()
}

impl Store {
    ghost use Rattle.store_core.specs.Store.{can_advance, is_due, stays_whole};
    ghost use Rattle.store_core.specs.Stored.{has_sealed};

    /// The settings with which the database was made.
    pub fn settings(&self) -> &Settings
        ensures { result.now ≡ self.now.body.settings }
    {
        &self.body.settings
    }

    /// How many beats were applied. The count stands still at 2^64 - 1.
    pub fn count(&self) -> u64
        ensures { result ≡ self.now.count }
    {
        self.count
    }

    /// The last moment of a beat that was applied, in seconds, or 0.
    pub fn last(&self) -> u32
        ensures { result ≡ self.now.tiers.last }
    {
        self.tiers.last()
    }

    /// What the layer above keeps in the open checkpoint.
    pub fn side(&self) -> &[u8]
        ensures { result.now ≡ self.now.body.side }
    {
        self.body.side.as_slice()
    }

    /// What the tiers keep of the beats that were applied.
    pub(crate) fn tiers(&self) -> &Tiers
        ensures { tiers_held result.now ≡ self.now.tiers }
    {
        &self.tiers
    }

    /// Whether a checkpoint is due: a segment was sealed since the last one, or the journal has
    /// `LONG_JOURNAL` bytes, and there can be a later one.
    pub fn due(&self) -> bool
        ensures { result ≡ is_due self.now }
    {
        self.can_advance() && (self.has_sealed() || self.files.journal_bytes() >= LONG_JOURNAL)
    }

    /// Whether there can be a later checkpoint: the disk holds what beats leave, and a number is
    /// left.
    pub(crate) fn can_advance(&self) -> bool
        ensures { result ≡ can_advance self.now }
    {
        self.whole && self.files.number() < u64::MAX
    }

    /// Whether the disk still holds what beats leave once the next of those that wait is applied:
    /// beats leave none behind one that sealed a segment.
    pub(crate) fn stays_whole(&self) -> bool
        ensures { result ≡ stays_whole self.now }
    {
        self.whole && (self.waiting.is_empty() || !(self.can_advance() && self.has_sealed()))
    }

    /// Whether a tier has sealed a segment since the last checkpoint.
    pub(crate) fn has_sealed(&self) -> bool
        ensures { result ≡ has_sealed self.now.body.last self.now.tiers }
    {
        let moment = self.body.last;
        if has_new(self.tiers.kept_points(), moment) {
            return true;
        }
        let mut records = self.tiers.kept_records().iter();
        records.any(|one| has_new(one.segments(), moment))
    }
}
