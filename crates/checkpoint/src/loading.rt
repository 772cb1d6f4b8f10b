ghost use Rattle.std.specs.Prelude.{◌≡◌, ℕ, ◌∷◌, ◌⊎◌, List, length, drop, Some, None, IfOk, IsErr, IsErrOf, OnOk};
ghost use Rattle.host_model.specs.Images.{Synced, contents};
ghost use Rattle.host_model.specs.Past.{On, of, told, IsDisk, IsOther};
ghost use Rattle.host_model.specs.Disks.{EveryDisk, reads_as};
ghost use Rattle.host_model.specs.Cause.{HasCause};
ghost use Rattle.host_model.specs.Moments.{Throughout};
ghost use Rattle.checkpoint.specs.Form.{head_in, body_in};
ghost use Rattle.checkpoint.specs.Files.{new_slot, checkpoint_in, EndsEarly};
ghost use Rattle.checkpoint.specs.Loading.{IsFound, AreBoth};

use crate::fault::CheckFault;
use crate::head::{HEAD, Head, head_of, later, slot_file_of};
use fixed_num::ByteList;
use host_model::{Failed, File, Host};
use std::alloc::Global;

/// The number and the body of the checkpoint that counts. It syncs both files first, and then only reads.
/// `NoneOpen` where neither file is open, `BadSlot` where the open file that counts is shorter than it
/// says, `Memory` where there is none for the body, and `DiskFault` where a call on the disk failed.
pub fn load<H: Host>(alloc: Global, host: &mut H) -> Result<(u64, ByteList), CheckFault>
    ensures loaded { IfOk result
        (λ found. H.honest → checkpoint_in (reads_as (H.seen host.old).past)
        ≡ new_slot found.0 found.1) }
    ensures none_open { IsErrOf result CheckFault.NoneOpen → H.honest
        → checkpoint_in (reads_as (H.seen host.old).past) ≡ None }

    // The open file that counts is shorter than it says, and that is its length.
    ensures bad_slot { (place : ℕ) → IsErrOf result (CheckFault.BadSlot place) → H.honest
        → EndsEarly place (reads_as (H.seen host.old).past) }

    // There is a checkpoint to hold.
    ensures memory { IsErrOf result CheckFault.Memory → H.honest
        → (number : ℕ) × (body : List ℕ)
        × (checkpoint_in (reads_as (H.seen host.old).past) ≡ new_slot number body) }

    // It begins with the two syncs, and nothing else happens to the disk.
    ensures begins { H.honest → IsErrOf result CheckFault.DiskFault
        ⊎ ((H.seen host.new).past ≡ On File.CheckB Synced ∷
        (On File.CheckA Synced ∷ (H.seen host.old).past)) }
    ensures every_disk { H.honest → IsErrOf result CheckFault.DiskFault
        ⊎ EveryDisk (λ disk. checkpoint_in disk ≡ checkpoint_in (reads_as (H.seen host.old).past))
        (H.seen host.new).past }
    ensures same_bytes { H.honest → (file : File)
        → reads_as (H.seen host.new).past file ≡ reads_as (H.seen host.old).past file }
    ensures any_moment { H.honest
        → Throughout (EveryDisk (IsDisk (H.seen host.old).past)) (H.seen host.old).past
        (H.seen host.new).past }

    // Nothing happens to any other file, and nothing is told.
    ensures only_here { H.honest → (other : File) → IsOther other File.CheckA
        → IsOther other File.CheckB
        → of other (H.seen host.new).past ≡ of other (H.seen host.old).past }
    ensures untold { H.honest → told (H.seen host.new).past ≡ told (H.seen host.old).past }
    ensures cause { HasCause (H.seen host.old).disk_faults (H.seen host.new).disk_faults
        (IsErrOf result CheckFault.DiskFault) }
    ensures output { (H.seen host.new).tell_faults ≡ (H.seen host.old).tell_faults }
{
    if sync_both(host).is_err() {
        return Err(CheckFault::DiskFault);
    }
    let Ok(found) = find(host) else {
        return Err(CheckFault::DiskFault);
    };
    let Some(head) = found else {
        return Err(CheckFault::NoneOpen);
    };
    let body = read_body(alloc, host, slot_file_of(head.number), head.size)?;
    Ok((head.number, body))
}

/// Syncs both files.
fn sync_both<H: Host>(host: &mut H) -> Result<(), Failed>
    ensures begins { OnOk result
        (H.honest → (H.seen host.new).past
        ≡ On File.CheckB Synced ∷ (On File.CheckA Synced ∷ (H.seen host.old).past)) }
    ensures every_disk { OnOk result
        (H.honest → EveryDisk (AreBoth (reads_as (H.seen host.old).past)) (H.seen host.new).past) }
    ensures same_bytes { H.honest → (file : File)
        → reads_as (H.seen host.new).past file ≡ reads_as (H.seen host.old).past file }
    ensures any_moment { H.honest
        → Throughout (EveryDisk (IsDisk (H.seen host.old).past)) (H.seen host.old).past
        (H.seen host.new).past }
    ensures only_here { H.honest → (other : File) → IsOther other File.CheckA
        → IsOther other File.CheckB
        → of other (H.seen host.new).past ≡ of other (H.seen host.old).past }
    ensures untold { H.honest → told (H.seen host.new).past ≡ told (H.seen host.old).past }
    ensures cause { HasCause (H.seen host.old).disk_faults (H.seen host.new).disk_faults
        (IsErr result) }
    ensures output { (H.seen host.new).tell_faults ≡ (H.seen host.old).tell_faults }
    ensures reads { (H.seen host.new).reads ≡ (H.seen host.old).reads }
{
    host.sync(File::CheckA)?;
    host.sync(File::CheckB)
}

/// What the head of a file says, where it is open. The numbers of the file are odd, or even.
fn read_head<H: Host>(host: &mut H, file: File, odd: u64) -> Result<Option<Head>, Failed>
    ensures head { IfOk result
        (λ head. H.honest → head ≡ head_in odd (contents (of file (H.seen host.old).past))) }
    ensures past { H.honest → (H.seen host.new).past ≡ (H.seen host.old).past }
    ensures cause { HasCause (H.seen host.old).disk_faults (H.seen host.new).disk_faults
        (IsErr result) }
    ensures output { (H.seen host.new).tell_faults ≡ (H.seen host.old).tell_faults }
{
    let mut seen = [0u8; HEAD];
    if host.read(file, 0, &mut seen)? < HEAD {
        return Ok(None);
    }
    Ok(head_of(&seen, odd))
}

/// The head of the checkpoint that counts, where a file is open.
fn find<H: Host>(host: &mut H) -> Result<Option<Head>, Failed>
    ensures found { IfOk result
        (λ found. H.honest → IsFound found (reads_as (H.seen host.old).past)) }
    ensures past { H.honest → (H.seen host.new).past ≡ (H.seen host.old).past }
    ensures cause { HasCause (H.seen host.old).disk_faults (H.seen host.new).disk_faults
        (IsErr result) }
    ensures output { (H.seen host.new).tell_faults ≡ (H.seen host.old).tell_faults }
{
    let first = read_head(host, File::CheckA, 0)?;
    let second = read_head(host, File::CheckB, 1)?;
    Ok(later(first, second))
}

/// The body of this length behind the head of a file.
fn read_body<H: Host>(
    alloc: Global,
    host: &mut H,
    file: File,
    size: u64,
) -> Result<ByteList, CheckFault>
    ensures body { IfOk result
        (λ body. H.honest → body_in size (drop HEAD (contents (of file (H.seen host.old).past)))
        ≡ Some body) }
    ensures bad_slot { (place : ℕ) → IsErrOf result (CheckFault.BadSlot place) → H.honest
        → (place ≡ length (contents (of file (H.seen host.old).past)))
        × (body_in size (drop HEAD (contents (of file (H.seen host.old).past))) ≡ None) }
    ensures memory { IsErrOf result CheckFault.Memory → H.honest
        → (body : List ℕ) × (body_in size (drop HEAD (contents (of file (H.seen host.old).past)))
        ≡ Some body) }
    ensures not_none_open { IsErrOf result CheckFault.NoneOpen → ⊥ }
    ensures past { H.honest → (H.seen host.new).past ≡ (H.seen host.old).past }
    ensures cause { HasCause (H.seen host.old).disk_faults (H.seen host.new).disk_faults
        (IsErrOf result CheckFault.DiskFault) }
    ensures output { (H.seen host.new).tell_faults ≡ (H.seen host.old).tell_faults }
{
    let Ok(len) = host.len(file) else {
        return Err(CheckFault::DiskFault);
    };
    if len.saturating_sub(HEAD as u64) < size {
        return Err(CheckFault::BadSlot(len));
    }
    let Ok(mut body) = vec![in alloc; 0u8; size as usize] else {
        return Err(CheckFault::Memory);
    };
    let Ok(read) = host.read(file, HEAD as u64, &mut body) else {
        return Err(CheckFault::DiskFault);
    };
    if read < body.len() {
        return Err(CheckFault::BadSlot(len));
    }
    Ok(ByteList::from_vec(body))
}
