ghost use Rattle.std.specs.Prelude.{◌≡◌, ◌+◌, ◌-◌, ◌^◌, ◌<◌, ◌≤◌, ◌⊎◌, ◌↔◌, [], ◌∷◌, ◌++◌, if◌then◌else◌, length, min, take, drop, slice_set, IsErr, IsTrue, IfOk, OnOk, OnErr, Some, None};
ghost use Rattle.host_model.specs.Images.{Synced, contents, written, IsSynced};
ghost use Rattle.host_model.specs.Past.{On, Told, of, told, IsDisk};
ghost use Rattle.host_model.specs.Cause.{HasCause, Rose};
ghost use Rattle.host_model.specs.Calls.{raised};
ghost use Rattle.host_model.specs.HostState.{new_host, FailsNext, after_call, after_disk_fault, after_disk_refusal, after_tell_fault, after_tell_refusal, after_read, write_event, failed_write_event, cut_event, failed_cut_event};
ghost use Rattle.host_model.specs.Entry.{event_of, past_of, IsQuiet, file_in, KeepsDisk};

use crate::calls::{CallList, ModelFault, fails_at};
use crate::contents::{Contents, copy_prefix, rest_from};
use crate::entry::Entry;
use crate::file::File;
use crate::host::{Failed, Host};
use crate::keep::Keep;
use crate::replay::replayed;
use fixed_num::ByteList;
use std::alloc::{AllocError, Global};

/// A host in memory that records its calls. The listed calls fail, and so do all calls from the fuse
/// on.
#[derive(Debug, Drop)]
pub struct MemoryHost {
    alloc: Global,
    /// The calls that left something, the oldest first.
    entries: Vec<Entry>,
    /// What each file reads as, in the order of their numbers.
    disk: [Contents; 9],
    /// All that was told.
    output: Vec<u8>,
    calls: u64,
    fails: CallList,
    fuse: Option<u64>,
    disk_faults: u64,
    tell_faults: u64,
    reads: u64,
    refusals: u64,
    ghost disk_kept: { KeepsDisk disk (past_of entries.items) },
    ghost output_kept: { output.items ≡ told (past_of entries.items) },
}

impl MemoryHost {
    ghost use Rattle.host_model.specs.declared.file.File.{File as AFile};
    ghost use Rattle.host_model.specs.Keep.{IsLeftBy, IsStopped};
    ghost use Rattle.host_model.specs.MemoryHost.{state_of};

    /// A host with empty files that has told nothing, no call of which was made yet. Of its calls the
    /// listed ones are to fail.
    pub fn new(alloc: Global, fails: CallList) -> Result<MemoryHost, ModelFault>
        ensures { IfOk result (λ host. state_of host ≡ new_host fails None) }
    {
        Ok(MemoryHost::fresh(alloc, fails, None))
    }

    /// A host as `new` gives it, of which all calls past the first `calls` are to fail.
    pub fn fused(alloc: Global, calls: u64) -> Result<MemoryHost, ModelFault>
        ensures { IfOk result (λ host. state_of host ≡ new_host [] (Some calls)) }
    {
        Ok(MemoryHost::fresh(alloc, CallList::new(alloc), Some(calls)))
    }

    fn fresh(alloc: Global, fails: CallList, fuse: Option<u64>) -> MemoryHost
        ensures { state_of result ≡ new_host fails fuse }
    {
        MemoryHost {
            alloc,
            entries: Vec::new(alloc),
            disk: empty_disk(alloc),
            output: Vec::new(alloc),
            calls: 0,
            fails,
            fuse,
            disk_faults: 0,
            tell_faults: 0,
            reads: 0,
            refusals: 0,
        }
    }

    /// The host that a crash now leaves, with nothing told. What was synced is there, and of what was
    /// not, as much as `keep` says. No call of it was made yet, and none is to fail.
    pub fn stop(self, keep: Keep) -> Result<MemoryHost, ModelFault>
        ensures files { IfOk result (λ host. (file : AFile)
            → IsLeftBy keep (of file (state_of self).past)
            (contents (of file (state_of host).past))) }
        ensures image { IfOk result (λ host.
            IsDisk (state_of self).past (λ file. contents (of file (state_of host).past))) }
        ensures synced { IfOk result (λ host. (file : AFile)
            → IsSynced (of file (state_of host).past)) }
        ensures told { IfOk result (λ host. told (state_of host).past ≡ []) }
        ensures fresh { IfOk result (λ host.
            state_of host ≡ record (new_host [] None) { past = (state_of host).past }) }
    {
        let alloc = self.alloc;
        let mut host = MemoryHost::fresh(alloc, CallList::new(alloc), None);
        match self.settle_all(keep, &mut host) {
            Ok(()) => Ok(host),
            Err(_) => Err(ModelFault::Memory),
        }
    }

    /// All that was told.
    pub fn told(&self) -> &[u8]
        ensures { result.now ≡ told (state_of self.now).past }
    {
        self.output.as_slice()
    }
}

fn empty_disk(alloc: Global) -> [Contents; 9]
    ensures { KeepsDisk result [] }
{
    [
        Contents::new(alloc),
        Contents::new(alloc),
        Contents::new(alloc),
        Contents::new(alloc),
        Contents::new(alloc),
        Contents::new(alloc),
        Contents::new(alloc),
        Contents::new(alloc),
        Contents::new(alloc),
    ]
}

/// Records a write and does it. Where memory is refused, both are as before.
fn record_write(
    alloc: Global,
    entries: &mut Vec<Entry>,
    kept: &mut Contents,
    file: File,
    at: usize,
    bytes: &[u8],
) -> Result<(), AllocError>
    ensures entry { OnOk result (entries.new.items
        ≡ entries.old.items ++ Entry.Write file at bytes.now ∷ []) }
    ensures done { OnOk result (kept.new ≡ written kept.old at bytes.now) }
    ensures same_entries { OnErr result (entries.new.items ≡ entries.old.items) }
    ensures same_file { OnErr result (kept.new ≡ kept.old) }
{
    let copy = ByteList::from_slice(alloc, bytes)?;
    entries.push(Entry::Write(file, at as u64, copy))?;
    if kept.write(at, bytes).is_err() {
        let _ = entries.pop();
        return Err(AllocError);
    }
    Ok(())
}

/// Records a cut and does it. Where memory is refused, both are as before.
fn record_cut(
    entries: &mut Vec<Entry>,
    kept: &mut Contents,
    file: File,
    len: usize,
) -> Result<(), AllocError>
    ensures entry { OnOk result (entries.new.items
        ≡ entries.old.items ++ Entry.CutTo file len ∷ []) }
    ensures done { OnOk result (kept.new ≡ take len kept.old) }
    ensures same_entries { OnErr result (entries.new.items ≡ entries.old.items) }
    ensures same_file { OnErr result (kept.new ≡ kept.old) }
{
    entries.push(Entry::CutTo(file, len as u64))?;
    kept.cut(len);
    Ok(())
}

/// Records that `bytes` were sent, and keeps them. Where memory is refused, both are as before.
fn record_tell(
    alloc: Global,
    entries: &mut Vec<Entry>,
    output: &mut Vec<u8>,
    bytes: &[u8],
) -> Result<(), AllocError>
    ensures entry { OnOk result (entries.new.items
        ≡ entries.old.items ++ Entry.Tell bytes.now ∷ []) }
    ensures output { OnOk result (output.new.items ≡ output.old.items ++ bytes.now) }
    ensures same_entries { OnErr result (entries.new.items ≡ entries.old.items) }
    ensures same_output { OnErr result (output.new.items ≡ output.old.items) }
{
    let copy = ByteList::from_slice(alloc, bytes)?;
    entries.push(Entry::Tell(copy))?;
    if output.extend_from_slice(bytes).is_err() {
        let _ = entries.pop();
        return Err(AllocError);
    }
    Ok(())
}

impl MemoryHost {
    ghost use Rattle.host_model.specs.Keep.{IsLeftBy, IsStopped};
    ghost use Rattle.host_model.specs.MemoryHost.{state_of};

    /// Counts a call, and says whether it is to fail.
    fn begin(&mut self) -> bool
        ensures fails { IsTrue result ↔ FailsNext (state_of self.old) }
        ensures counted { state_of self.new
            ≡ after_call (state_of self.old) (state_of self.old).past }
        ensures disk_faults { self.new.disk_faults ≡ self.old.disk_faults }
        ensures tell_faults { self.new.tell_faults ≡ self.old.tell_faults }
    {
        let call = self.calls;
        self.calls = call.saturating_add(1);
        fails_at(self.fails.as_slice(), self.fuse, call)
    }

    /// Records what changes neither the contents of a file nor the output. Where memory is refused,
    /// the host is as before.
    fn note(&mut self, entry: Entry) -> Result<(), AllocError>
        requires { IsQuiet entry }
        ensures ok { OnOk result (state_of self.new ≡ record (state_of self.old) {
          past = event_of (state_of self.old).past entry ∷ (state_of self.old).past;
        }) }
        ensures err { OnErr result (state_of self.new ≡ state_of self.old) }
        ensures disk_faults { self.new.disk_faults ≡ self.old.disk_faults }
    {
        self.entries.push(entry)?;
        Ok(())
    }

    /// Counts a failed call on the disk, and where memory was refused to it, that too.
    fn fail_disk(&mut self, refused: bool) -> Failed
        ensures count { self.new.disk_faults ≡ raised self.old.disk_faults }
        ensures range { self.old.disk_faults ≤ 2 ^ 64 - 1 }
        ensures counted { state_of self.new ≡ record (state_of self.old) {
          disk_faults = raised (state_of self.old).disk_faults;
          refusals = (if refused
              then raised (state_of self.old).refusals
              else (state_of self.old).refusals);
        } }
    {
        self.disk_faults = self.disk_faults.saturating_add(1);
        if refused {
            self.refusals = self.refusals.saturating_add(1);
        }
        Failed
    }

    fn write(&mut self, file: File, at: usize, bytes: &[u8]) -> Result<(), AllocError>
        ensures ok { OnOk result (state_of self.new ≡ record (state_of self.old) {
          past = write_event file at bytes.now (state_of self.old).past ∷ (state_of self.old).past;
        }) }
        ensures err { OnErr result (state_of self.new ≡ state_of self.old) }
        ensures disk_faults { self.new.disk_faults ≡ self.old.disk_faults }
    {
        let alloc = self.alloc;
        let place = file.number();
        let kept = &mut self.disk[place];
        record_write(alloc, &mut self.entries, kept, file, at, bytes)?;
        Ok(())
    }

    fn shorten(&mut self, file: File, len: usize) -> Result<(), AllocError>
        ensures ok { OnOk result (state_of self.new ≡ record (state_of self.old) {
          past = cut_event file len (state_of self.old).past ∷ (state_of self.old).past;
        }) }
        ensures err { OnErr result (state_of self.new ≡ state_of self.old) }
        ensures disk_faults { self.new.disk_faults ≡ self.old.disk_faults }
    {
        let place = file.number();
        let kept = &mut self.disk[place];
        record_cut(&mut self.entries, kept, file, len)?;
        Ok(())
    }

    fn send(&mut self, bytes: &[u8]) -> Result<(), AllocError>
        ensures ok { OnOk result (state_of self.new ≡ record (state_of self.old) {
          past = Told bytes.now ∷ (state_of self.old).past;
        }) }
        ensures err { OnErr result (state_of self.new ≡ state_of self.old) }
        ensures tell_faults { self.new.tell_faults ≡ self.old.tell_faults }
    {
        record_tell(self.alloc, &mut self.entries, &mut self.output, bytes)?;
        Ok(())
    }

    /// Counts a failed call of `tell`, and where memory was refused to it, that too.
    fn fail_tell(&mut self, refused: bool) -> Failed
        ensures count { self.new.tell_faults ≡ raised self.old.tell_faults }
        ensures range { self.old.tell_faults ≤ 2 ^ 64 - 1 }
        ensures counted { state_of self.new ≡ record (state_of self.old) {
          tell_faults = raised (state_of self.old).tell_faults;
          refusals = (if refused
              then raised (state_of self.old).refusals
              else (state_of self.old).refusals);
        } }
    {
        self.tell_faults = self.tell_faults.saturating_add(1);
        if refused {
            self.refusals = self.refusals.saturating_add(1);
        }
        Failed
    }

    /// What a crash leaves of a file.
    fn left_of(&self, file: File, keep: Keep) -> Result<Contents, AllocError>
        ensures { IfOk result (λ left. IsLeftBy keep (of file (state_of self.now).past) left) }
    {
        match keep {
            Keep::All => Contents::from_slice(self.alloc, self.contents(file)),
            Keep::None => replayed(self.alloc, self.entries.as_slice(), file, None),
            Keep::Fill(byte) => replayed(self.alloc, self.entries.as_slice(), file, Some(byte)),
        }
    }

    /// Puts down what a file holds at the start, and makes it hold.
    fn settle(&mut self, file: File, bytes: &[u8]) -> Result<(), AllocError>
        ensures { OnOk result (state_of self.new ≡ record (state_of self.old) {
          past = On file Synced ∷ write_event file 0 bytes.now (state_of self.old).past
              ∷ (state_of self.old).past;
        }) }
    {
        self.write(file, 0, bytes)?;
        self.note(Entry::Sync(file))
    }

    /// Puts down in a new host what a crash leaves of each file of this one.
    fn settle_all(&self, keep: Keep, host: &mut MemoryHost) -> Result<(), AllocError>
        requires { state_of host.old ≡ new_host [] None }
        ensures { OnOk result (IsStopped keep (state_of self.now) (state_of host.new)) }
    {
        for number in 0..9 {
            let file = File::at(number);
            let left = self.left_of(file, keep)?;
            host.settle(file, left.as_slice())?;
        }
        Ok(())
    }

    /// What a file reads as.
    fn contents(&self, file: File) -> &[u8]
        ensures { result.now ≡ contents (of file (state_of self.now).past) }
    {
        let place = file.number();
        self.disk[place].as_slice()
    }
}

impl Host for MemoryHost {
    ghost use Rattle.host_model.specs.MemoryHost.{state_of};
    ghost use Rattle.host_model.specs.DiskLaw.{reads_an_image_of_record};
    ghost use Rattle.host_model.specs.HostState.{seen_of};

    ghost honest = { Unit {0} };

    ghost seen = { λ host. seen_of (state_of host) };

    fn len(&mut self, file: File) -> Result<u64, Failed>
        ensures cause { HasCause self.old.disk_faults self.new.disk_faults (IsErr result) }

        // Exactly the calls that are to fail fail.
        ensures fails { IsErr result ↔ FailsNext (state_of self.old) }
        ensures len { IfOk result (λ n. n ≡ length (contents (of file (state_of self.old).past))) }
        ensures done { OnOk result (state_of self.new
            ≡ after_call (state_of self.old) (state_of self.old).past) }
        ensures failed { OnErr result (state_of self.new
            ≡ after_disk_fault (state_of self.old) (state_of self.old).past) }
    {
        if self.begin() {
            return Err(self.fail_disk(false));
        }
        Ok(self.contents(file).len() as u64)
    }

    fn read(&mut self, file: File, at: u64, into: &mut [u8]) -> Result<usize, Failed>
        ensures cause { HasCause self.old.disk_faults self.new.disk_faults (IsErr result) }

        ensures reads { Rose self.old.reads self.new.reads }

        // Exactly the calls that are to fail fail.
        ensures fails { IsErr result ↔ FailsNext (state_of self.old) }
        ensures end { IfOk result (λ n.
            n ≡ min (length into.old) (length (contents (of file (state_of self.old).past)) - at)) }
        ensures bytes { IfOk result (λ n. into.new
            ≡ take n (drop at (contents (of file (state_of self.old).past))) ++ drop n into.old) }
        ensures untouched { OnErr result (into.new ≡ into.old) }
        ensures done { OnOk result (state_of self.new
            ≡ after_read (after_call (state_of self.old) (state_of self.old).past)) }
        ensures failed { OnErr result (state_of self.new
            ≡ after_read (after_disk_fault (state_of self.old) (state_of self.old).past)) }
    {
        self.reads = self.reads.saturating_add(1);
        if self.begin() {
            return Err(self.fail_disk(false));
        }
        Ok(copy_prefix(rest_from(self.contents(file), at as usize), into))
    }

    fn write_at(&mut self, file: File, at: u64, bytes: &[u8]) -> Result<(), Failed>
        requires { at ≤ length (contents (of file (state_of self.old).past)) }
        ensures cause { HasCause self.old.disk_faults self.new.disk_faults (IsErr result) }

        // A call that is to fail fails, and leaves that its range may hold anything after a crash.
        // Another fails only where memory is refused to it, and then leaves all as it was.
        ensures fails { FailsNext (state_of self.old) → IsErr result }
        ensures done { OnOk result (state_of self.new ≡ after_call (state_of self.old)
            (write_event file at bytes.now (state_of self.old).past ∷ (state_of self.old).past)) }
        ensures failed { OnErr result ((FailsNext (state_of self.old)
            × (state_of self.new ≡ after_disk_fault (state_of self.old)
            (failed_write_event file at (length bytes.now) (state_of self.old).past
            ∷ (state_of self.old).past)))
            ⊎ (state_of self.new ≡ after_disk_refusal (state_of self.old))) }
    {
        if self.begin() {
            let entry = Entry::FailedWrite(file, at, bytes.len() as u64);
            let refused = self.note(entry).is_err();
            return Err(self.fail_disk(refused));
        }
        if self.write(file, at as usize, bytes).is_err() {
            return Err(self.fail_disk(true));
        }
        Ok(())
    }

    fn cut(&mut self, file: File, len: u64) -> Result<(), Failed>
        requires { len ≤ length (contents (of file (state_of self.old).past)) }
        ensures cause { HasCause self.old.disk_faults self.new.disk_faults (IsErr result) }

        // A call that is to fail fails, and leaves that what it was to take away may hold anything
        // after a crash. Another fails only where memory is refused to it, and then leaves all as it
        // was.
        ensures fails { FailsNext (state_of self.old) → IsErr result }
        ensures done { OnOk result (state_of self.new ≡ after_call (state_of self.old)
            (cut_event file len (state_of self.old).past ∷ (state_of self.old).past)) }
        ensures failed { OnErr result ((FailsNext (state_of self.old)
            × (state_of self.new ≡ after_disk_fault (state_of self.old)
            (failed_cut_event file len (state_of self.old).past ∷ (state_of self.old).past)))
            ⊎ (state_of self.new ≡ after_disk_refusal (state_of self.old))) }
    {
        if self.begin() {
            let entry = Entry::FailedCutTo(file, len);
            let unrecorded = self.note(entry).is_err();
            return Err(self.fail_disk(unrecorded));
        }
        if self.shorten(file, len as usize).is_err() {
            return Err(self.fail_disk(true));
        }
        Ok(())
    }

    fn sync(&mut self, file: File) -> Result<(), Failed>
        ensures cause { HasCause self.old.disk_faults self.new.disk_faults (IsErr result) }

        // A call that is to fail fails, and another only where memory is refused to it. A call that
        // fails makes nothing hold.
        ensures fails { FailsNext (state_of self.old) → IsErr result }
        ensures done { OnOk result (state_of self.new ≡ after_call (state_of self.old)
            (On file Synced ∷ (state_of self.old).past)) }
        ensures failed { OnErr result ((FailsNext (state_of self.old)
            × (state_of self.new ≡ after_disk_fault (state_of self.old) (state_of self.old).past))
            ⊎ (state_of self.new ≡ after_disk_refusal (state_of self.old))) }
    {
        if self.begin() {
            return Err(self.fail_disk(false));
        }
        if self.note(Entry::Sync(file)).is_err() {
            return Err(self.fail_disk(true));
        }
        Ok(())
    }

    fn tell(&mut self, bytes: &[u8]) -> Result<(), Failed>
        ensures cause { HasCause self.old.tell_faults self.new.tell_faults (IsErr result) }

        // A call that is to fail fails, and another only where memory is refused to it. A call that
        // fails sends nothing.
        ensures fails { FailsNext (state_of self.old) → IsErr result }
        ensures done { OnOk result (state_of self.new ≡ after_call (state_of self.old)
            (Told bytes.now ∷ (state_of self.old).past)) }
        ensures failed { OnErr result ((FailsNext (state_of self.old)
            × (state_of self.new ≡ after_tell_fault (state_of self.old)))
            ⊎ (state_of self.new ≡ after_tell_refusal (state_of self.old))) }
    {
        if self.begin() {
            return Err(self.fail_tell(false));
        }
        if self.send(bytes).is_err() {
            return Err(self.fail_tell(true));
        }
        Ok(())
    }

    ghost reads_an_image = { λ host file _. reads_an_image_of_record host.entries.items file };
}
