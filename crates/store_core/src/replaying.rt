//! The beats since the checkpoint are applied.

ghost use Rattle.std.specs.Prelude.{◌≡◌, List, ◌∷◌, IfOk, OnErr, OnOk};
ghost use Rattle.host_model.specs.Past.{Event};
ghost use Rattle.beat_tiers.specs.Room.{tiers_held, HasRoomFor};
ghost use Rattle.store_core.specs.declared.beats.beat.Beat.{Beat as ABeat};
ghost use Rattle.store_core.specs.beats.Records.{TakesFirst};
ghost use Rattle.store_core.specs.Store.{tiers_after};
ghost use Rattle.store_core.specs.Store.{count_after, stays_whole, IsStoreAt, Replays};
ghost use Rattle.store_core.specs.Stored.{Stored as AStored};

use crate::beats::{Beat, Waiting};
use crate::store::Store;
use beat_tiers::Tiers;
use std::alloc::AllocError;

/// Takes the memory for the first of the beats that wait, if there is one.
fn reserve_first(tiers: &mut Tiers, waiting: &Waiting) -> Result<(), AllocError>
    ensures kept { tiers_held tiers.new ≡ tiers_held tiers.old }
    ensures room { OnOk result ((beat : ABeat) (rest : List ABeat) → waiting.now ≡ beat ∷ rest
        → HasRoomFor beat.moment beat.points tiers.new) }
{
    match waiting.first() {
        Some(beat) => tiers.reserve(beat.moment, beat.points.as_slice()),
        None => Ok(()),
    }
}

impl Store {
    /// Gives the next beat that was there at the opening, and applies it: `None` where all are
    /// applied.
    ///
    /// Where it stands behind a beat that sealed a segment, as beats leave none, no later checkpoint
    /// is made. After an `Err` nothing has changed.
    pub fn replay(&mut self) -> Result<Option<Beat>, AllocError>
        ensures next { (past : List Event) (stored : AStored) (rest : List ABeat)
            → IsStoreAt past self.old stored rest
            → IfOk result (Replays past self.new stored rest) }

        // The same, of a store of which it is not known what it has stored.
        ensures takes { IfOk result (λ next. TakesFirst self.old.waiting next self.new.waiting) }
        ensures tiers { IfOk result (λ next. self.new.tiers ≡ tiers_after next self.old.tiers) }
        ensures count { IfOk result (λ next. self.new.count ≡ count_after next self.old.count) }
        ensures whole { OnOk result (self.new.whole ≡ stays_whole self.old) }
        ensures files { self.new.files ≡ self.old.files }
        ensures body { self.new.body ≡ self.old.body }
        ensures fault { self.new.fault ≡ self.old.fault }
        ensures leaves { OnErr result (self.new ≡ self.old) }
    {
        let stays_whole = self.stays_whole();
        let next = self.apply_next()?;
        self.whole = stays_whole;
        Ok(next)
    }

    /// Gives the next beat that waits, and applies it.
    fn apply_next(&mut self) -> Result<Option<Beat>, AllocError>
        ensures takes { IfOk result (λ next. TakesFirst self.old.waiting next self.new.waiting) }
        ensures tiers { IfOk result (λ next. self.new.tiers ≡ tiers_after next self.old.tiers) }
        ensures count { IfOk result (λ next. self.new.count ≡ count_after next self.old.count) }
        ensures leaves { OnErr result (self.new ≡ self.old) }
        ensures files { self.new.files ≡ self.old.files }
        ensures body { self.new.body ≡ self.old.body }
        ensures fault { self.new.fault ≡ self.old.fault }
        ensures whole { self.new.whole ≡ self.old.whole }
    {
        reserve_first(&mut self.tiers, &self.waiting)?;
        match self.waiting.take_first() {
            None => Ok(None),
            Some(beat) => {
                self.tiers.take(beat.moment, beat.points.as_slice());
                self.count = self.count.saturating_add(1);
                Ok(Some(beat))
            }
        }
    }
}
