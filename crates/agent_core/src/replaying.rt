//! What the beats of a history leave, from what a store kept of them.

ghost use Rattle.std.specs.Prelude.{◌≡◌, ◌⊎◌, ◌<◌, ℕ, List, [], true, false, length, IfOk, IfErr, IsErrOf, OnOk};
ghost use Rattle.host_model.specs.declared.file.File.{File as AFile};
ghost use Rattle.host_model.specs.Past.{Event, IsDisk};
ghost use Rattle.host_model.specs.Disks.{EveryDisk, reads_as};
ghost use Rattle.host_model.specs.Cause.{HasCause};
ghost use Rattle.host_model.specs.Moments.{Throughout};
ghost use Rattle.history.specs.History.{Beat as HistoryBeat};
ghost use Rattle.tier_settings.specs.declared.settings.Settings.{Settings as ASettings};
ghost use Rattle.store_core.specs.declared.beats.beat.Beat.{Beat as StoreBeat};
ghost use Rattle.store_core.specs.disk.Holds.{OnlyOwn};
ghost use Rattle.store_core.specs.disk.Shares.{IsWithin};
ghost use Rattle.store_core.specs.beats.Records.{with_all};
ghost use Rattle.store_core.specs.Damaged.{HasForm, IsDamagedIn};
ghost use Rattle.store_core.specs.Stands.{is_made, Stands};
ghost use Rattle.store_core.specs.Store.{IsReady, IsReplayed, OpensAt};
ghost use Rattle.store_core.specs.Stored.{Stored as AStored};
ghost use Rattle.agent_core.specs.Faults.{IsUnopened, IsUnreplayed};
ghost use Rattle.agent_core.specs.Stands.{HoldsHistory};
ghost use Rattle.agent_core.specs.Left.{IsFit, IsLeftBy};
ghost use Rattle.agent_core.specs.Notes.{beats_go_on, left_after, noted_in, Noted};
ghost use Rattle.agent_core.specs.Replay.{HasTaken, IsAtPrefix, IsReplaying};

use crate::alarming::follow;
use crate::fault::OpenFault;
use crate::left::Left;
use crate::notes::replay_beat;
use host_model::Host;
use std::alloc::Global;
use store_core::Store;

/// Opens the store of an agent, none of whose beats since the checkpoint is replayed yet.
pub(crate) fn open_store<H: Host>(alloc: Global, host: &mut H) -> Result<Store, OpenFault>
    ensures opened { IfOk result (λ store. H.honest → (stored : AStored)
        → Stands stored (reads_as (H.seen host.old).past)
        → OpensAt (H.seen host.new).past store stored) }
    ensures ready { IfOk result (IsReady H.honest (H.seen host.new).past) }
    ensures going { IfOk result (λ store. store.fault ≡ None) }
    ensures any_moment { H.honest
        → Throughout (EveryDisk (IsDisk (H.seen host.old).past)) (H.seen host.old).past
        (H.seen host.new).past }
    ensures same { H.honest → (file : AFile)
        → reads_as (H.seen host.new).past file ≡ reads_as (H.seen host.old).past file }
    ensures images { OnOk result (H.honest → (stored : AStored)
        → Stands stored (reads_as (H.seen host.old).past)
        → EveryDisk (Stands stored) (H.seen host.new).past) }
    ensures stands { H.honest → (stored : AStored)
        → Stands stored (reads_as (H.seen host.old).past)
        → IfErr result (λ fault. (fault ≡ OpenFault.DiskFault) ⊎ (fault ≡ OpenFault.Memory)) }
    ensures none { IsErrOf result OpenFault.NotADatabase → H.honest
        → is_made (reads_as (H.seen host.old).past) ≡ false }
    ensures some { OnOk result (H.honest → is_made (reads_as (H.seen host.old).past) ≡ true) }
    ensures form { IfOk result (λ store. H.honest
        → HasForm store.body store.waiting (reads_as (H.seen host.old).past)) }
    ensures damaged { (part : ℕ) → IsErrOf result (OpenFault.Damaged part) → H.honest
        → IsDamagedIn part (reads_as (H.seen host.old).past) }
    ensures whole { OnOk result (H.honest → (part : ℕ)
        → IsDamagedIn part (reads_as (H.seen host.old).past) → ⊥) }
    ensures faults { IfErr result IsUnopened }
    ensures cause { HasCause (H.seen host.old).disk_faults (H.seen host.new).disk_faults
        (IsErrOf result OpenFault.DiskFault) }
    ensures bound { (shares : AFile → ℕ) → H.honest → IsWithin shares (H.seen host.old).past
        → Throughout (IsWithin shares) (H.seen host.old).past (H.seen host.new).past }
    ensures only_here { H.honest → OnlyOwn (H.seen host.old).past (H.seen host.new).past }
    ensures tells { (H.seen host.new).tell_faults ≡ (H.seen host.old).tell_faults }
{
    Ok(Store::open(alloc, host)?)
}

/// Replays the next beat, and whether there was one.
fn replay_next<H: Host>(
    alloc: Global,
    store: &mut Store,
    host: &mut H,
    left: &mut Left,
) -> Result<bool, OpenFault>
    requires going { store.old.fault ≡ None }
    requires fit { IsFit left.old }
    ensures replaying { OnOk result
        ((past : List Event) (set : ASettings) (h : List HistoryBeat)
        → IsReplaying past store.old left.old set h → IsReplaying past store.new left.new set h) }

    // Where the store is that of a history, only memory can be short.
    ensures stands { IfErr result
        (λ fault. (past : List Event) (set : ASettings) (h : List HistoryBeat)
        → IsReplaying past store.old left.old set h → fault ≡ OpenFault.Memory) }

    // Whatever beats the store keeps: they go on so far, and where one does not, it is damaged.
    ensures notes { OnOk result ((start : Noted) (beats : List StoreBeat)
        → HasTaken start beats store.old left.old
        → HasTaken start beats store.new left.new) }
    ensures broken { IfErr result
        (λ fault. fault ≡ OpenFault.Damaged 5 → (start : Noted) (beats : List StoreBeat)
        → HasTaken start beats store.old left.old
        → beats_go_on start (with_all [] beats) ≡ false) }

    // The beats that wait become fewer, until there are none.
    ensures smaller { IfOk result
        (λ went. went ≡ true → length store.new.waiting < length store.old.waiting) }
    ensures done { IfOk result (λ went. went ≡ false → IsReplayed store.new) }
    ensures ready { (past : List Event) → IsReady H.honest past store.old
        → OnOk result (IsReady H.honest past store.new) }
    ensures going { OnOk result (store.new.fault ≡ None) }
    ensures files { store.new.files ≡ store.old.files }
    ensures body { store.new.body ≡ store.old.body }
    ensures fit { OnOk result (IsFit left.new) }
    ensures host { H.seen host.new ≡ H.seen host.old }
    ensures faults { IfErr result IsUnreplayed }
{
    let before = store.last();
    match store.replay()? {
        Some(kept) => {
            let does = replay_beat(alloc, left, &kept, before)?;
            follow(alloc, left, store, host, does)?;
            Ok(true)
        }
        None => Ok(false),
    }
}

/// Replays all beats that a store still has to replay, on top of what those before them left.
pub(crate) fn replay_all<H: Host>(
    alloc: Global,
    store: &mut Store,
    host: &mut H,
    left: &mut Left,
) -> Result<(), OpenFault>
    requires going { store.old.fault ≡ None }
    requires fit { IsFit left.old }

    // After any history g, where those that wait are the beats of h after it.
    ensures holds { OnOk result ((past : List Event) (set : ASettings) (g h : List HistoryBeat)
        → IsAtPrefix past store.old set g h → IsLeftBy set g left.old
        → HoldsHistory past store.new set h) }
    ensures left_by { OnOk result ((past : List Event) (set : ASettings) (g h : List HistoryBeat)
        → IsAtPrefix past store.old set g h → IsLeftBy set g left.old
        → IsLeftBy set h left.new) }
    ensures stands { IfErr result (λ fault. (past : List Event) (set : ASettings)
        (g h : List HistoryBeat) → IsAtPrefix past store.old set g h → IsLeftBy set g left.old
        → fault ≡ OpenFault.Memory) }

    // Whatever beats wait: their notes go on, or it is damaged.
    ensures notes { OnOk result
        (beats_go_on (noted_in left.old) (with_all [] store.old.waiting) ≡ true) }
    ensures noted { OnOk result (noted_in left.new
        ≡ left_after (noted_in left.old) (with_all [] store.old.waiting)) }
    ensures broken { IfErr result (λ fault. fault ≡ OpenFault.Damaged 5
        → beats_go_on (noted_in left.old) (with_all [] store.old.waiting) ≡ false) }

    // What holds of any store.
    ensures done { OnOk result (IsReplayed store.new) }
    ensures ready { (past : List Event) → IsReady H.honest past store.old
        → OnOk result (IsReady H.honest past store.new) }
    ensures going { OnOk result (store.new.fault ≡ None) }
    ensures files { store.new.files ≡ store.old.files }
    ensures body { store.new.body ≡ store.old.body }
    ensures fit { OnOk result (IsFit left.new) }
    ensures host { H.seen host.new ≡ H.seen host.old }
    ensures faults { IfErr result IsUnreplayed }
{
    while replay_next(alloc, store, host, left)? {}
    Ok(())
}
