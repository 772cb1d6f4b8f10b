//! A database is made where there is none.

ghost use Rattle.std.specs.Prelude.{◌≡◌, ◌⊎◌, ℕ, None, IsSome, IfErr, IfOk, IsErrOf, OnOk};
ghost use Rattle.host_model.specs.declared.file.File.{File};
ghost use Rattle.host_model.specs.Past.{IsDisk};
ghost use Rattle.host_model.specs.Disks.{reads_as, EveryDisk};
ghost use Rattle.host_model.specs.Cause.{HasCause};
ghost use Rattle.host_model.specs.Moments.{Throughout};
ghost use Rattle.checkpoint.specs.Files.{checkpoint_in};
ghost use Rattle.checkpoint_body.specs.Body.{body_bytes, HasSpelling};
ghost use Rattle.store_core.specs.disk.Advancing.{NamesNone};
ghost use Rattle.store_core.specs.disk.Beginning.{empty_journal};
ghost use Rattle.store_core.specs.disk.Contents.{new_contents};
ghost use Rattle.store_core.specs.disk.Files.{IsOpenOf, IsReady};
ghost use Rattle.store_core.specs.disk.Holds.{HoldsIfMade, OnlyOwn};
ghost use Rattle.store_core.specs.disk.Shares.{HasRoom, IsWithin};

use crate::disk::beginning::{begin, begun_journal};
use crate::disk::files::Files;
use crate::fault::CreateFault;
use checkpoint::{CheckFault, load};
use checkpoint_body::{Body, write_body};
use host_model::Host;
use std::alloc::Global;

/// `Exists` where there is a checkpoint. The disk is only read and synced.
fn expect_none<H: Host>(alloc: Global, host: &mut H) -> Result<(), CreateFault>
    ensures none { OnOk result
        (H.honest → checkpoint_in (reads_as (H.seen host.old).past) ≡ None) }
    ensures every_disk { OnOk result
        (H.honest → EveryDisk (λ disk. checkpoint_in disk ≡ None) (H.seen host.new).past) }
    ensures exists { IsErrOf result CreateFault.Exists → H.honest
        → IsSome (checkpoint_in (reads_as (H.seen host.old).past)) }
    ensures same_bytes { H.honest → (file : File)
        → reads_as (H.seen host.new).past file ≡ reads_as (H.seen host.old).past file }
    ensures any_moment { H.honest → Throughout (EveryDisk (IsDisk (H.seen host.old).past))
        (H.seen host.old).past (H.seen host.new).past }
    ensures only_here { H.honest → OnlyOwn (H.seen host.old).past (H.seen host.new).past }
    ensures faults { IfErr result
        (λ fault. (fault ≡ CreateFault.DiskFault) ⊎ (fault ≡ CreateFault.Exists)) }
    ensures cause { HasCause (H.seen host.old).disk_faults (H.seen host.new).disk_faults
        (IsErrOf result CreateFault.DiskFault) }
    ensures output { (H.seen host.new).tell_faults ≡ (H.seen host.old).tell_faults }
{
    match load(alloc, host) {
        Ok(_found) => Err(CreateFault::Exists),
        Err(CheckFault::NoneOpen) => Ok(()),
        Err(CheckFault::BadSlot(_place)) => Err(CreateFault::Exists),
        Err(CheckFault::Memory) => Err(CreateFault::Exists),
        Err(CheckFault::DiskFault) => Err(CreateFault::DiskFault),
    }
}

/// Makes a database whose first checkpoint has this body, which names no extent.
///
/// `Exists` exactly where there is one, and `Memory` where there is none for the bytes of the body:
/// each file then reads as before. At every moment a crash leaves what it might have left before
/// the call, no database, or the new one.
pub fn create<H: Host>(alloc: Global, host: &mut H, body: &Body) -> Result<Files, CreateFault>
    requires spelt { HasSpelling body.now }
    requires empty { NamesNone body.now }
    ensures created { IfOk result (λ files. H.honest
        → IsOpenOf (H.seen host.new).past files (new_contents body.now)) }
    ensures files { IfOk result
        (λ files. files ≡ record { number = 0; journal = empty_journal 0 }) }
    ensures ready { IfOk result (IsReady H.honest (H.seen host.new).past) }
    ensures any_moment { H.honest → Throughout (EveryDisk
        (λ disk. IsDisk (H.seen host.old).past disk ⊎ HoldsIfMade body.now disk))
        (H.seen host.old).past (H.seen host.new).past }
    ensures exists { IsErrOf result CreateFault.Exists → H.honest
        → IsSome (checkpoint_in (reads_as (H.seen host.old).past)) }
    ensures none { OnOk result
        (H.honest → checkpoint_in (reads_as (H.seen host.old).past) ≡ None) }

    // Where there is one, nothing is written.
    ensures made { H.honest → IsSome (checkpoint_in (reads_as (H.seen host.old).past))
        → (IsErrOf result CreateFault.Exists ⊎ IsErrOf result CreateFault.DiskFault)
        × ((file : File)
        → reads_as (H.seen host.new).past file ≡ reads_as (H.seen host.old).past file) }
    ensures made_moment { H.honest → IsSome (checkpoint_in (reads_as (H.seen host.old).past))
        → Throughout (EveryDisk (IsDisk (H.seen host.old).past)) (H.seen host.old).past
        (H.seen host.new).past }

    // Without memory nothing is written either.
    ensures memory { IsErrOf result CreateFault.Memory → H.honest → (file : File)
        → reads_as (H.seen host.new).past file ≡ reads_as (H.seen host.old).past file }
    ensures memory_moment { IsErrOf result CreateFault.Memory → H.honest
        → Throughout (EveryDisk (IsDisk (H.seen host.old).past)) (H.seen host.old).past
        (H.seen host.new).past }

    // No file has more than its share at any moment, where the checkpoint and a journal fit theirs.
    ensures bound { (shares : File → ℕ) → HasRoom shares 0 (body_bytes body.now)
        → H.honest → IsWithin shares (H.seen host.old).past
        → Throughout (IsWithin shares) (H.seen host.old).past (H.seen host.new).past }

    // Nothing happens to a file that is not the database's own, and nothing is told.
    ensures only_here { H.honest → OnlyOwn (H.seen host.old).past (H.seen host.new).past }
    ensures cause { HasCause (H.seen host.old).disk_faults (H.seen host.new).disk_faults
        (IsErrOf result CreateFault.DiskFault) }
    ensures output { (H.seen host.new).tell_faults ≡ (H.seen host.old).tell_faults }
{
    expect_none(alloc, host)?;
    let bytes = write_body(alloc, body)?;
    begin(host, 0, bytes.as_slice())?;
    Ok(Files::new(0, begun_journal(0)))
}
