//! A beat is added.

ghost use Rattle.std.specs.Prelude.{◌≡◌, ◌↔◌, ◌+◌, ◌≤◌, ℕ, None, false, true, IfErr, IsErrOf, IsSomeAnd, OnErr, OnOk};
ghost use Rattle.host_model.specs.Cause.{HasCause};
ghost use Rattle.host_model.specs.Disks.{EveryDisk};
ghost use Rattle.host_model.specs.Moments.{Throughout};
ghost use Rattle.beat_tiers.specs.State.{after_beat};
ghost use Rattle.store_core.specs.disk.Holds.{OnlyOwn};
ghost use Rattle.store_core.specs.disk.Shares.{share, IsWithin};
ghost use Rattle.store_core.specs.beats.Beats.{FitsARecord, InForm};
ghost use Rattle.store_core.specs.Faults.{fault_after, IsCommitFault, IsStepFault, LeavesAll, Reopens};
ghost use Rattle.store_core.specs.beats.Records.{is_later};
ghost use Rattle.store_core.specs.Counts.{raised};
ghost use Rattle.store_core.specs.Stands.{StandsAround};
ghost use Rattle.store_core.specs.Store.{can_advance, is_due, IsReady, IsReplayed, IsStoreOf};
ghost use Rattle.store_core.specs.Stored.{stored_with, Stored as AStored};

use crate::beats::{Beat, is_later, write_beat};
use crate::fault::StoreFault;
use crate::store::Store;
use host_model::Host;
use journal_core::JOURNAL_LIMIT;

impl Store {
    /// Adds a beat. At `Ok` it is stored, so that it is there after every later crash; at every
    /// moment a crash leaves what was stored with the new beat or without it.
    ///
    /// `MomentOrder` with the last moment exactly where the moment is at most that, and then nothing
    /// has changed. After `DiskFault` or `Memory` the database must be opened again. `Memory` comes
    /// before anything is written. Where there can be no later checkpoint, the answer past
    /// `JOURNAL_LIMIT` bytes of the journal is `Memory`.
    pub fn commit<H: Host>(&mut self, host: &mut H, beat: &Beat) -> Result<(), StoreFault>
        requires ready { IsReady H.honest (H.seen host.old).past self.old }
        requires replayed { IsReplayed self.old }
        requires not_due { is_due self.old ≡ false }
        requires form { InForm beat.now }
        requires size { FitsARecord beat.now }
        ensures any_moment { H.honest → (stored : AStored)
            → IsStoreOf (H.seen host.old).past self.old stored
            → Throughout (EveryDisk (StandsAround stored beat.now)) (H.seen host.old).past
            (H.seen host.new).past }
        ensures stored { OnOk result (H.honest → (stored : AStored)
            → IsStoreOf (H.seen host.old).past self.old stored
            → IsStoreOf (H.seen host.new).past self.new (stored_with stored beat.now)) }

        // Nothing has changed where the moment is not above the last one, or an earlier call was
        // refused.
        ensures order { IsErrOf result (StoreFault.MomentOrder self.old.tiers.last)
            ↔ ((self.old.fault ≡ None)
            × IsSomeAnd beat.now.moment (λ moment. moment ≤ self.old.tiers.last)) }
        ensures unchanged { IfErr result
            (λ fault. LeavesAll fault → (self.new ≡ self.old) × (host.new ≡ host.old)) }
        ensures same_host { IsErrOf result StoreFault.Memory → host.new ≡ host.old }

        // After a refusal all but the fault is as before, and each call answers Reopen with its
        // cause.
        ensures leaves { OnErr result (self.new ≡ record self.old { fault = self.new.fault }) }
        ensures fault { self.new.fault ≡ fault_after self.old.fault result }
        ensures reopens { Reopens self.old.fault result }
        ensures faults { IfErr result (IsCommitFault self.old.tiers.last) }

        // What a later call requires and answers.
        ensures ready { IsReady H.honest (H.seen host.new).past self.new }
        ensures replayed { IsReplayed self.new }
        ensures tiers { OnOk result (self.new.tiers
            ≡ after_beat beat.now.moment beat.now.points self.old.tiers) }
        ensures count { OnOk result (self.new.count ≡ raised self.old.count) }
        ensures body { self.new.body ≡ self.old.body }
        ensures whole { self.new.whole ≡ self.old.whole }

        // The journal stays within its share, where there can be a later checkpoint.
        ensures bound { (side : ℕ) → can_advance self.old ≡ true → H.honest
            → IsWithin (share self.old.body.settings side) (H.seen host.old).past
            → Throughout (IsWithin (share self.old.body.settings side)) (H.seen host.old).past
            (H.seen host.new).past }
        ensures only_here { H.honest → OnlyOwn (H.seen host.old).past (H.seen host.new).past }
        ensures cause { HasCause (H.seen host.old).disk_faults (H.seen host.new).disk_faults
            (IsErrOf result StoreFault.DiskFault) }
        ensures output { (H.seen host.new).tell_faults ≡ (H.seen host.old).tell_faults }
        ensures reads { (H.seen host.new).reads ≡ (H.seen host.old).reads }
    {
        if let Some(why) = self.fault {
            return Err(StoreFault::Reopen(why));
        }
        let last = self.tiers.last();
        if !is_later(last, beat.moment) {
            return Err(StoreFault::MomentOrder(last));
        }
        match self.add(host, beat) {
            Ok(()) => Ok(()),
            Err(fault) => {
                self.fault = fault.cause();
                Err(fault)
            }
        }
    }

    /// Adds a beat that may follow the others.
    fn add<H: Host>(&mut self, host: &mut H, beat: &Beat) -> Result<(), StoreFault>
        requires ready { IsReady H.honest (H.seen host.old).past self.old }
        requires going { self.old.fault ≡ None }
        requires replayed { IsReplayed self.old }
        requires not_due { is_due self.old ≡ false }
        requires form { InForm beat.now }
        requires size { FitsARecord beat.now }
        requires later { is_later self.old.tiers.last beat.now.moment ≡ true }
        ensures any_moment { H.honest → (stored : AStored)
            → IsStoreOf (H.seen host.old).past self.old stored
            → Throughout (EveryDisk (StandsAround stored beat.now)) (H.seen host.old).past
            (H.seen host.new).past }
        ensures stored { OnOk result (H.honest → (stored : AStored)
            → IsStoreOf (H.seen host.old).past self.old stored
            → IsStoreOf (H.seen host.new).past self.new (stored_with stored beat.now)) }
        ensures ready { OnOk result (IsReady H.honest (H.seen host.new).past self.new) }
        ensures applied { OnOk result (self.new ≡ record self.old {
          count = raised self.old.count;
          tiers = after_beat beat.now.moment beat.now.points self.old.tiers;
          files = self.new.files;
        }) }
        ensures stays { OnErr result (self.new ≡ self.old) }
        ensures bound { (side : ℕ) → can_advance self.old ≡ true → H.honest
            → IsWithin (share self.old.body.settings side) (H.seen host.old).past
            → Throughout (IsWithin (share self.old.body.settings side)) (H.seen host.old).past
            (H.seen host.new).past }
        ensures only_here { H.honest → OnlyOwn (H.seen host.old).past (H.seen host.new).past }
        ensures faults { IfErr result IsStepFault }
        ensures untouched { IsErrOf result StoreFault.Memory → host.new ≡ host.old }
        ensures cause { HasCause (H.seen host.old).disk_faults (H.seen host.new).disk_faults
            (IsErrOf result StoreFault.DiskFault) }
        ensures output { (H.seen host.new).tell_faults ≡ (H.seen host.old).tell_faults }
        ensures reads { (H.seen host.new).reads ≡ (H.seen host.old).reads }
    {
        let body = write_beat(self.alloc, beat)?;
        let points = beat.points.as_slice();
        self.tiers.reserve(beat.moment, points)?;
        if self.files.journal_bytes() > JOURNAL_LIMIT {
            return Err(StoreFault::Memory);
        }
        self.files.append(host, body.as_slice())?;
        self.tiers.take(beat.moment, points);
        self.count = self.count.saturating_add(1);
        Ok(())
    }
}
