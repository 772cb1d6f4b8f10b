//! A database is made where there is none.

ghost use Rattle.std.specs.Prelude.{◌≡◌, ◌⊎◌, ℕ, ◌<◌, ◌≤◌, ◌^◌, true, false, None, length, IfErr, IfOk, IsErrOf, OnOk};
ghost use Rattle.host_model.specs.declared.file.File.{File as AFile};
ghost use Rattle.host_model.specs.Cause.{HasCause};
ghost use Rattle.host_model.specs.Disks.{reads_as, EveryDisk};
ghost use Rattle.host_model.specs.Moments.{Throughout};
ghost use Rattle.host_model.specs.Past.{IsDisk};
ghost use Rattle.store_core.specs.disk.Holds.{OnlyOwn};
ghost use Rattle.store_core.specs.disk.Shares.{share, IsWithin};
ghost use Rattle.tier_settings.specs.Limits.{InLimits};
ghost use Rattle.store_core.specs.Stands.{is_made, StandsIfMade};
ghost use Rattle.store_core.specs.Store.{IsReady, IsReplayed, IsStoreOf};
ghost use Rattle.store_core.specs.Stored.{new_database};

use crate::beats::Waiting;
use crate::bodies::first_body;
use crate::fault::CreateFault;
use crate::store::Store;
use crate::tiers::new_tiers;
use fixed_num::ByteList;
use host_model::Host;
use std::alloc::Global;
use tier_settings::Settings;

impl Store {
    /// Makes a database with these settings and this side, where there is none.
    ///
    /// `Exists` only where there is one, and then nothing has changed. At every moment a crash
    /// leaves what it might have left before the call, no database, or the new one, which has no
    /// beats; at `Ok` the last.
    pub fn create<H: Host>(
        alloc: Global,
        host: &mut H,
        settings: &Settings,
        side: ByteList,
    ) -> Result<Store, CreateFault>
        requires settings { InLimits settings.now }
        requires short { length side < 2 ^ 32 }
        ensures created { IfOk result (λ store. H.honest
            → IsStoreOf (H.seen host.new).past store (new_database settings.now side)) }
        ensures ready { IfOk result (IsReady H.honest (H.seen host.new).past) }
        ensures replayed { IfOk result IsReplayed }
        ensures going { IfOk result (λ store. store.fault ≡ None) }
        ensures count { IfOk result (λ store. store.count ≡ 0) }
        ensures last { IfOk result (λ store. store.tiers.last ≡ 0) }
        ensures settings { IfOk result (λ store. store.body.settings ≡ settings.now) }
        ensures side { IfOk result (λ store. store.body.side ≡ side) }

        ensures any_moment { H.honest → Throughout (EveryDisk
            (λ disk. IsDisk (H.seen host.old).past disk ⊎ StandsIfMade settings.now side disk))
            (H.seen host.old).past (H.seen host.new).past }

        // Where there is a database, it is refused, or the disk or memory failed, and nothing is
        // written.
        ensures exists { IsErrOf result CreateFault.Exists → H.honest
            → is_made (reads_as (H.seen host.old).past) ≡ true }
        ensures none { OnOk result (H.honest → is_made (reads_as (H.seen host.old).past) ≡ false) }
        ensures made { H.honest → is_made (reads_as (H.seen host.old).past) ≡ true
            → (IsErrOf result CreateFault.Exists ⊎ IsErrOf result CreateFault.DiskFault
            ⊎ IsErrOf result CreateFault.Memory)
            × ((file : AFile)
            → reads_as (H.seen host.new).past file ≡ reads_as (H.seen host.old).past file) }
        ensures made_moment { H.honest → is_made (reads_as (H.seen host.old).past) ≡ true
            → Throughout (EveryDisk (IsDisk (H.seen host.old).past)) (H.seen host.old).past
            (H.seen host.new).past }

        // Without memory nothing is written either.
        ensures memory { IsErrOf result CreateFault.Memory → H.honest → (file : AFile)
            → reads_as (H.seen host.new).past file ≡ reads_as (H.seen host.old).past file }
        ensures memory_moment { IsErrOf result CreateFault.Memory → H.honest
            → Throughout (EveryDisk (IsDisk (H.seen host.old).past)) (H.seen host.old).past
            (H.seen host.new).past }

        // Each file stays within its share.
        ensures bound { (most : ℕ) → length side ≤ most → H.honest
            → IsWithin (share settings.now most) (H.seen host.old).past
            → Throughout (IsWithin (share settings.now most)) (H.seen host.old).past
            (H.seen host.new).past }
        ensures only_here { H.honest → OnlyOwn (H.seen host.old).past (H.seen host.new).past }
        ensures cause { HasCause (H.seen host.old).disk_faults (H.seen host.new).disk_faults
            (IsErrOf result CreateFault.DiskFault) }
        ensures output { (H.seen host.new).tell_faults ≡ (H.seen host.old).tell_faults }
    {
        let Ok(body) = first_body(alloc, settings, side) else {
            return Err(CreateFault::Memory);
        };
        let Ok(tiers) = new_tiers(alloc, settings) else {
            return Err(CreateFault::Memory);
        };
        let files = crate::disk::create(alloc, host, &body)?;
        Ok(Store {
            alloc,
            files,
            body,
            count: 0,
            fault: None,
            whole: true,
            waiting: Waiting::new(alloc),
            tiers,
        })
    }
}
