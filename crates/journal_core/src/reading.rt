ghost use Rattle.std.specs.Prelude.{◌≡◌, ◌≢◌, ℕ, ◌+◌, ◌-◌, ◌^◌, ◌<◌, ◌≤◌, List, [], ◌∷◌, ◌++◌, length, min, take, drop, slice_index, IfOk, IfErr, IsErrOf, OnOk};
ghost use Rattle.host_model.specs.Images.{contents};
ghost use Rattle.host_model.specs.Past.{of};
ghost use Rattle.host_model.specs.Cause.{HasCause};
ghost use Rattle.journal_core.specs.Form.{header, opened, StandsFor, FailsAt};
ghost use Rattle.journal_core.specs.Piece.{ReadsAhead};
ghost use Rattle.journal_core.specs.Reading.{IfNotAJournal, BeginsWith, SeenWithin, BeginsWithRecord, EndsWithin, FailsFrom, Holds};

use crate::fault::JournalFault;
use crate::form::header_of;
use crate::journal::RECORD_LIMIT;
use crate::piece::{AHEAD, Piece};
use fixed_num::{ByteList, ListOf};
use host_model::{File, Host};
use std::alloc::Global;

/// The records of a journal, the oldest first.
pub type RecordList = ListOf<ByteList>;

/// What stands at the place of a gate.
#[derive(Clone, Copy, Debug)]
pub(crate) enum Next {
    /// A closed gate.
    Closed,
    /// An open gate, and behind it the length of a record.
    Record(u32),
    /// Nothing that a journal has there: so many bytes from the gate on, none goes on.
    Broken(usize),
}

/// Reads the bytes of a file of this size from a place on, as many as there are and fit. What fits a
/// piece is read ahead.
fn fill<H: Host>(
    host: &mut H,
    piece: &mut Piece,
    file: File,
    place: u64,
    size: u64,
    into: &mut [u8],
) -> Result<usize, JournalFault>
    requires inside { place ≤ size }
    requires size { H.honest → size ≡ length (contents (of file (H.seen host.old).past)) }
    requires ahead { H.honest → ReadsAhead (contents (of file (H.seen host.old).past)) piece.old }
    ensures count { IfOk result (λ count. count ≤ length into.old) }
    ensures within { IfOk result (λ count. place + count ≤ size) }
    ensures end { IfOk result (λ count. H.honest → count ≡ min (length into.old) (size - place)) }
    ensures bytes { IfOk result (λ count. H.honest
        → take count into.new ≡ take count
        (drop place (contents (of file (H.seen host.old).past)))) }
    ensures ahead { OnOk result
        (H.honest → ReadsAhead (contents (of file (H.seen host.old).past)) piece.new) }
    ensures past { H.honest → (H.seen host.new).past ≡ (H.seen host.old).past }
    ensures faults { IfErr result (λ fault. fault ≡ JournalFault.DiskFault) }
    ensures cause { HasCause (H.seen host.old).disk_faults (H.seen host.new).disk_faults
        (IsErrOf result JournalFault.DiskFault) }
    ensures output { (H.seen host.new).tell_faults ≡ (H.seen host.old).tell_faults }
{
    let want = into.len().min((size - place) as usize);
    if want > AHEAD {
        let Ok(count) = host.read(file, place, into) else {
            return Err(JournalFault::DiskFault);
        };
        return Ok(count.min(want));
    }
    if !piece.covers(place, want) {
        piece.read(host, file, place)?;
    }
    Ok(piece.copy(place, want, into))
}

/// The length of the longest common prefix of two texts.
fn same_prefix(bytes: &[u8], other: &[u8]) -> usize
    ensures within { (result ≤ length bytes.now) × (result ≤ length other.now) }
    ensures same { take result bytes.now ≡ take result other.now }
    ensures differs { result < length bytes.now → result < length other.now
        → slice_index bytes.now result ≢ slice_index other.now result }
{
    let end = bytes.len().min(other.len());
    for place in 0..end {
        if bytes[place] != other[place] {
            return place;
        }
    }
    end
}

/// Reads the header of a journal of this generation.
fn check_header<H: Host>(
    host: &mut H,
    piece: &mut Piece,
    file: File,
    size: u64,
    generation: u64,
) -> Result<(), JournalFault>
    requires size { H.honest → size ≡ length (contents (of file (H.seen host.old).past)) }
    requires ahead { H.honest → ReadsAhead (contents (of file (H.seen host.old).past)) piece.old }
    ensures header { OnOk result (H.honest → contents (of file (H.seen host.old).past)
        ≡ header generation ++ drop 16 (contents (of file (H.seen host.old).past))) }
    ensures sized { OnOk result (16 ≤ size) }
    ensures broken { IfErr result (λ fault. IfNotAJournal fault (λ place. H.honest
        → FailsAt generation (contents (of file (H.seen host.old).past)) place)) }
    ensures ahead { OnOk result
        (H.honest → ReadsAhead (contents (of file (H.seen host.old).past)) piece.new) }
    ensures past { H.honest → (H.seen host.new).past ≡ (H.seen host.old).past }
    ensures cause { HasCause (H.seen host.old).disk_faults (H.seen host.new).disk_faults
        (IsErrOf result JournalFault.DiskFault) }
    ensures output { (H.seen host.new).tell_faults ≡ (H.seen host.old).tell_faults }
{
    let mut seen = [0u8; 16];
    let count = fill(host, piece, file, 0, size, &mut seen)?;
    let same = same_prefix(&seen[..count], &header_of(generation));
    if same < 16 {
        return Err(JournalFault::NotAJournal(same as u64));
    }
    Ok(())
}

/// What the first bytes from a gate on say, of which there are five or all that the file has.
fn next_of(seen: &[u8]) -> Next
    requires { length seen.now ≤ 5 }
    ensures begins { (bytes : List ℕ) → seen.now ≡ take 5 bytes → BeginsWith bytes result }
    ensures within { SeenWithin (length seen.now) result }
{
    let count = seen.len();
    if count == 0 {
        return Next::Broken(0);
    }
    if seen[0] != 1 {
        return Next::Closed;
    }
    if count < 5 {
        return Next::Broken(count);
    }
    let size = u32::from_le_bytes([seen[1], seen[2], seen[3], seen[4]]);
    if size as usize > RECORD_LIMIT {
        return Next::Broken(4);
    }
    Next::Record(size)
}

/// Reads what stands at the place of a gate.
fn gate_at<H: Host>(
    host: &mut H,
    piece: &mut Piece,
    file: File,
    place: u64,
    size: u64,
) -> Result<Next, JournalFault>
    requires inside { place ≤ size }
    requires size { H.honest → size ≡ length (contents (of file (H.seen host.old).past)) }
    requires ahead { H.honest → ReadsAhead (contents (of file (H.seen host.old).past)) piece.old }
    ensures begins { IfOk result
        (λ next. H.honest → BeginsWith
        (drop place (contents (of file (H.seen host.old).past))) next) }
    ensures within { IfOk result (λ next. SeenWithin (size - place) next) }
    ensures ahead { OnOk result
        (H.honest → ReadsAhead (contents (of file (H.seen host.old).past)) piece.new) }
    ensures past { H.honest → (H.seen host.new).past ≡ (H.seen host.old).past }
    ensures faults { IfErr result (λ fault. fault ≡ JournalFault.DiskFault) }
    ensures cause { HasCause (H.seen host.old).disk_faults (H.seen host.new).disk_faults
        (IsErrOf result JournalFault.DiskFault) }
    ensures output { (H.seen host.new).tell_faults ≡ (H.seen host.old).tell_faults }
{
    let mut seen = [0u8; 5];
    let count = fill(host, piece, file, place, size, &mut seen)?;
    Ok(next_of(&seen[..count]))
}

/// Reads the record of this length that stands at a place.
fn body_at<H: Host>(
    alloc: Global,
    host: &mut H,
    piece: &mut Piece,
    file: File,
    place: u64,
    size: u64,
    count: u32,
) -> Result<ByteList, JournalFault>
    requires inside { place ≤ size }
    requires size { H.honest → size ≡ length (contents (of file (H.seen host.old).past)) }
    requires ahead { H.honest → ReadsAhead (contents (of file (H.seen host.old).past)) piece.old }
    ensures body { IfOk result (λ body. H.honest
        → body ≡ take count (drop place (contents (of file (H.seen host.old).past)))) }
    ensures whole { IfOk result (λ body. (length body ≡ count) × (place + count ≤ size)) }
    ensures cut { IfErr result
        (λ fault. IfNotAJournal fault (λ end. H.honest → (end ≡ size) × (size - place < count))) }
    ensures ahead { OnOk result
        (H.honest → ReadsAhead (contents (of file (H.seen host.old).past)) piece.new) }
    ensures past { H.honest → (H.seen host.new).past ≡ (H.seen host.old).past }
    ensures cause { HasCause (H.seen host.old).disk_faults (H.seen host.new).disk_faults
        (IsErrOf result JournalFault.DiskFault) }
    ensures output { (H.seen host.new).tell_faults ≡ (H.seen host.old).tell_faults }
{
    if count as u64 > size - place {
        return Err(JournalFault::NotAJournal(size));
    }
    let Ok(mut body) = vec![in alloc; 0u8; count as usize] else {
        return Err(JournalFault::Memory);
    };
    let read = fill(host, piece, file, place, size, &mut body)?;
    if read < count as usize {
        return Err(JournalFault::NotAJournal(place + read as u64));
    }
    Ok(ByteList::from_vec(body))
}

/// Reads the record behind the gate at a place, if the gate is open.
fn read_next<H: Host>(
    alloc: Global,
    host: &mut H,
    piece: &mut Piece,
    file: File,
    place: u64,
    size: u64,
) -> Result<Option<ByteList>, JournalFault>
    requires inside { place ≤ size }
    requires size { H.honest → size ≡ length (contents (of file (H.seen host.old).past)) }
    requires ahead { H.honest → ReadsAhead (contents (of file (H.seen host.old).past)) piece.old }
    ensures begins { IfOk result
        (λ next. H.honest → BeginsWithRecord
        (drop place (contents (of file (H.seen host.old).past))) next) }
    ensures within { IfOk result (λ next. EndsWithin place size next) }
    ensures broken { IfErr result (λ fault. IfNotAJournal fault (λ end. H.honest
        → FailsFrom place (contents (of file (H.seen host.old).past)) end)) }
    ensures ahead { OnOk result
        (H.honest → ReadsAhead (contents (of file (H.seen host.old).past)) piece.new) }
    ensures past { H.honest → (H.seen host.new).past ≡ (H.seen host.old).past }
    ensures cause { HasCause (H.seen host.old).disk_faults (H.seen host.new).disk_faults
        (IsErrOf result JournalFault.DiskFault) }
    ensures output { (H.seen host.new).tell_faults ≡ (H.seen host.old).tell_faults }
{
    match gate_at(host, piece, file, place, size)? {
        Next::Closed => Ok(None),
        Next::Broken(more) => Err(JournalFault::NotAJournal(place + more as u64)),
        Next::Record(count) => {
            let body = body_at(alloc, host, piece, file, place + 5, size, count)?;
            Ok(Some(body))
        }
    }
}

/// Keeps a record that was read.
fn keep(records: &mut RecordList, body: ByteList) -> Result<(), JournalFault>
    ensures kept { OnOk result (records.new ≡ records.old ++ body ∷ []) }
    ensures faults { IfErr result (λ fault. fault ≡ JournalFault.Memory) }
{
    if records.push(body).is_err() {
        return Err(JournalFault::Memory);
    }
    Ok(())
}

/// Reads the records behind a header. It gives the place of the gate that ends them, too.
pub(crate) fn read_records<H: Host>(
    alloc: Global,
    host: &mut H,
    piece: &mut Piece,
    file: File,
    size: u64,
) -> Result<(u64, RecordList), JournalFault>
    requires inside { 16 ≤ size }
    requires size { H.honest → size ≡ length (contents (of file (H.seen host.old).past)) }
    requires ahead { H.honest → ReadsAhead (contents (of file (H.seen host.old).past)) piece.old }
    ensures records { IfOk result
        (λ read. H.honest → Holds (contents (of file (H.seen host.old).past)) read.0 read.1) }
    ensures within { IfOk result (λ read. (16 ≤ read.0) × (read.0 < size)) }
    ensures broken { IfErr result (λ fault. IfNotAJournal fault (λ end. H.honest
        → FailsFrom 16 (contents (of file (H.seen host.old).past)) end)) }
    ensures past { H.honest → (H.seen host.new).past ≡ (H.seen host.old).past }
    ensures cause { HasCause (H.seen host.old).disk_faults (H.seen host.new).disk_faults
        (IsErrOf result JournalFault.DiskFault) }
    ensures output { (H.seen host.new).tell_faults ≡ (H.seen host.old).tell_faults }
{
    let mut records = RecordList::new(alloc);
    let mut place = 16;
    while let Some(body) = read_next(alloc, host, piece, file, place, size)? {
        place += 5 + body.len() as u64;
        keep(&mut records, body)?;
    }
    Ok((place, records))
}

/// Reads a journal of this generation: the place of its last gate, and its records.
pub(crate) fn read_journal<H: Host>(
    alloc: Global,
    host: &mut H,
    file: File,
    generation: u64,
) -> Result<(u64, RecordList), JournalFault>
    ensures stands { IfOk result
        (λ read. H.honest → StandsFor generation
        (contents (of file (H.seen host.old).past)) read.1) }
    ensures at_gate { IfOk result (λ read. H.honest → read.0 ≡ 16 + length (opened read.1)) }
    ensures within { IfOk result (λ read. (16 ≤ read.0) × (read.0 < 2 ^ 64 - 1)) }
    ensures broken { IfErr result (λ fault. IfNotAJournal fault (λ place. H.honest
        → FailsAt generation (contents (of file (H.seen host.old).past)) place)) }
    ensures past { H.honest → (H.seen host.new).past ≡ (H.seen host.old).past }
    ensures cause { HasCause (H.seen host.old).disk_faults (H.seen host.new).disk_faults
        (IsErrOf result JournalFault.DiskFault) }
    ensures output { (H.seen host.new).tell_faults ≡ (H.seen host.old).tell_faults }
{
    let Ok(size) = host.len(file) else {
        return Err(JournalFault::DiskFault);
    };
    let mut piece = Piece::new();
    check_header(host, &mut piece, file, size, generation)?;
    read_records(alloc, host, &mut piece, file, size)
}
