ghost use Rattle.std.specs.Prelude.{◌↔◌, IsTrue};
ghost use Rattle.store_core.specs.beats.Beats.{FitsARecord, InForm};

use crate::beats::form;
pub use beat_tiers::{BeatPoint, BeatPointList};
use fixed_num::ByteList;
use journal_core::RECORD_LIMIT;

/// What one beat adds to a database.
#[derive(Debug, Drop)]
pub struct Beat {
    /// The second at which it was, from 1 to 2^32 - 1. A beat without a moment has no points.
    pub moment: Option<u32>,
    /// The points, by their series, each series once.
    pub points: BeatPointList,
    /// What the layer above keeps of the beat, of any form.
    pub note: ByteList,
}

impl Beat {
    /// Whether a database may keep the beat: a moment is not 0, the points are in the order of
    /// their series, each series once and below `MOST_SERIES`, a step is 1 to `LONGEST_STEP`
    /// seconds, a word is a storage number, and a beat without a moment has no points.
    pub fn is_in_form(&self) -> bool
        ensures { IsTrue result ↔ InForm self.now }
    {
        form::has_form(self) && form::is_short(self)
    }

    /// Whether the record of a journal can hold the beat: it has at most `RECORD_LIMIT` bytes, 12 for
    /// each point, the bytes of the note, and 12 more.
    #[tactic(auto, using(crate::proofs::BeatProofs::BeatLaw::beat_size))]
    pub fn fits_a_record(&self) -> bool
        ensures { IsTrue result ↔ FitsARecord self.now }
    {
        let (points, note) = (self.points.len(), self.note.len());
        points <= RECORD_LIMIT && note <= RECORD_LIMIT && 12 + 12 * points + note <= RECORD_LIMIT
    }
}
