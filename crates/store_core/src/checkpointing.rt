//! The base is moved on by the beats since.

ghost use Rattle.std.specs.Prelude.{◌≡◌, ◌<◌, ◌≤◌, ◌^◌, ℕ, None, true, false, length, IfErr, IsErrOf, OnErr, OnOk};
ghost use Rattle.host_model.specs.Cause.{HasCause};
ghost use Rattle.host_model.specs.Disks.{EveryDisk};
ghost use Rattle.host_model.specs.Moments.{Throughout};
ghost use Rattle.journal_core.specs.declared.journal.TheConstants.{EMPTY_SIZE};
ghost use Rattle.store_core.specs.disk.Holds.{OnlyOwn};
ghost use Rattle.store_core.specs.disk.Shares.{share, IsWithin};
ghost use Rattle.store_core.specs.Faults.{fault_after, IsStepFault, LeavesAll, Reopens};
ghost use Rattle.store_core.specs.Faults.{IsCheckpointFault};
ghost use Rattle.store_core.specs.Stands.{StandsEither};
ghost use Rattle.store_core.specs.Store.{can_advance, is_due, IsReady, IsReplayed, IsStoreOf};
ghost use Rattle.store_core.specs.Stored.{advanced, Stored as AStored};

use crate::bodies::next_body;
use crate::fault::StoreFault;
use crate::store::Store;
use fixed_num::ByteList;
use host_model::Host;

impl Store {
    /// Makes a checkpoint of all beats, with this side, and begins the journal anew. At every
    /// moment a crash leaves what was stored, with the old base or with the new one; at `Ok` with
    /// the new.
    /// What is stored is the same beats either way.
    ///
    /// After `DiskFault` or `Memory` the database must be opened again. Where there can be no later
    /// checkpoint, it does nothing.
    pub fn checkpoint<H: Host>(&mut self, host: &mut H, side: ByteList) -> Result<(), StoreFault>
        requires ready { IsReady H.honest (H.seen host.old).past self.old }
        requires replayed { IsReplayed self.old }
        requires short { length side < 2 ^ 32 }
        ensures any_moment { H.honest → (stored : AStored)
            → IsStoreOf (H.seen host.old).past self.old stored
            → Throughout (EveryDisk (StandsEither stored (advanced stored side)))
            (H.seen host.old).past (H.seen host.new).past }
        ensures advanced { OnOk result (H.honest → (stored : AStored)
            → IsStoreOf (H.seen host.old).past self.old stored
            → IsStoreOf (H.seen host.new).past self.new (advanced stored side)) }

        // What is applied stays, and no other checkpoint is due.
        ensures tiers { self.new.tiers ≡ self.old.tiers }
        ensures count { self.new.count ≡ self.old.count }
        ensures waiting { self.new.waiting ≡ self.old.waiting }
        ensures settings { self.new.body.settings ≡ self.old.body.settings }
        ensures whole { self.new.whole ≡ self.old.whole }
        ensures side { OnOk result (can_advance self.old ≡ true
            → self.new.body.side ≡ side) }
        ensures not_due { OnOk result (is_due self.new ≡ false) }
        ensures ready { IsReady H.honest (H.seen host.new).past self.new }

        // After a refusal all but the fault is as before, and each call answers Reopen with its
        // cause.
        ensures leaves { OnErr result (self.new ≡ record self.old { fault = self.new.fault }) }
        ensures fault { self.new.fault ≡ fault_after self.old.fault result }
        ensures reopens { Reopens self.old.fault result }
        ensures unchanged { IfErr result
            (λ fault. LeavesAll fault → (self.new ≡ self.old) × (host.new ≡ host.old)) }
        ensures last_number { can_advance self.old ≡ false
            → (self.new ≡ self.old) × (host.new ≡ host.old) }
        ensures faults { IfErr result IsCheckpointFault }

        // Each file stays within its share.
        ensures bound { (most : ℕ) → length side ≤ most → H.honest
            → IsWithin (share self.old.body.settings most) (H.seen host.old).past
            → Throughout (IsWithin (share self.old.body.settings most)) (H.seen host.old).past
            (H.seen host.new).past }
        ensures only_here { H.honest → OnlyOwn (H.seen host.old).past (H.seen host.new).past }
        ensures cause { HasCause (H.seen host.old).disk_faults (H.seen host.new).disk_faults
            (IsErrOf result StoreFault.DiskFault) }
        ensures output { (H.seen host.new).tell_faults ≡ (H.seen host.old).tell_faults }
    {
        if let Some(why) = self.fault {
            return Err(StoreFault::Reopen(why));
        }
        if !self.can_advance() {
            return Ok(());
        }
        match self.advance(host, side) {
            Ok(()) => Ok(()),
            Err(fault) => {
                self.fault = fault.cause();
                Err(fault)
            }
        }
    }

    /// Makes a later checkpoint of all beats.
    fn advance<H: Host>(&mut self, host: &mut H, side: ByteList) -> Result<(), StoreFault>
        requires ready { IsReady H.honest (H.seen host.old).past self.old }
        requires going { self.old.fault ≡ None }
        requires replayed { IsReplayed self.old }
        requires going_on { can_advance self.old ≡ true }
        requires short { length side < 2 ^ 32 }
        ensures any_moment { H.honest → (stored : AStored)
            → IsStoreOf (H.seen host.old).past self.old stored
            → Throughout (EveryDisk (StandsEither stored (advanced stored side)))
            (H.seen host.old).past (H.seen host.new).past }
        ensures advanced { OnOk result (H.honest → (stored : AStored)
            → IsStoreOf (H.seen host.old).past self.old stored
            → IsStoreOf (H.seen host.new).past self.new (advanced stored side)) }
        ensures moved { OnOk result (self.new ≡ record self.old {
          files = self.new.files;
          body = self.new.body;
        }) }
        ensures body { OnOk result ((self.new.body.settings ≡ self.old.body.settings)
            × (self.new.body.last ≡ self.old.tiers.last) × (self.new.body.side ≡ side)) }
        ensures journal { OnOk result (self.new.files.journal.bytes ≡ EMPTY_SIZE) }
        ensures ready { OnOk result (IsReady H.honest (H.seen host.new).past self.new) }
        ensures stays { OnErr result (self.new ≡ self.old) }
        ensures bound { (most : ℕ) → length side ≤ most → H.honest
            → IsWithin (share self.old.body.settings most) (H.seen host.old).past
            → Throughout (IsWithin (share self.old.body.settings most)) (H.seen host.old).past
            (H.seen host.new).past }
        ensures only_here { H.honest → OnlyOwn (H.seen host.old).past (H.seen host.new).past }
        ensures faults { IfErr result IsStepFault }
        ensures cause { HasCause (H.seen host.old).disk_faults (H.seen host.new).disk_faults
            (IsErrOf result StoreFault.DiskFault) }
        ensures output { (H.seen host.new).tell_faults ≡ (H.seen host.old).tell_faults }
    {
        let made = next_body(self.alloc, &self.body, &self.tiers, self.count, side);
        let Ok((body, sealed)) = made else {
            return Err(StoreFault::Memory);
        };
        self.files.checkpoint(self.alloc, host, &body, &sealed)?;
        self.body = body;
        Ok(())
    }
}
