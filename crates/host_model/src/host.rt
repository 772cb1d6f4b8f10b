ghost use Rattle.std.specs.Prelude.{◌≡◌, ℕ, ◌+◌, ◌-◌, ◌≤◌, List, ◌∷◌, ◌++◌, length, min, take, drop, IsErr, IfOk, OnOk, OnErr};
ghost use Rattle.host_model.specs.declared.file.File.{File as AFile};
ghost use Rattle.host_model.specs.Images.{Wrote, Cut, Synced, contents, written, IsImage};
ghost use Rattle.host_model.specs.Past.{On, Told, of, MayAdd};
ghost use Rattle.host_model.specs.Seen.{Seen};
ghost use Rattle.host_model.specs.Cause.{HasCause, Rose};

use crate::file::File;
use thiserror::Error;

/// A call on the outside did not do what it was asked to do. Its object counted it.
#[derive(Clone, Copy, Debug, PartialEq, Eq, Error)]
#[error("the outside failed")]
pub struct Failed;

/// The machine that the agent runs on: its disk and its output.
///
/// What a host has been through is its *past*, a list of events with the newest first. It is known of
/// an honest host alone; whether a host is honest is a fact of its type. Each call says which event
/// joins the past, and the past says what a read gives, what was told, and what a crash at any moment
/// may leave of each file.
pub trait Host {
    /// Whether what the clauses say of the past is true of these hosts.
    ghost honest: { Type 0 };

    /// What contracts see of a host.
    ghost seen: { Self → Seen };

    /// The length of a file in bytes.
    fn len(&mut self, file: File) -> Result<u64, Failed>
        ensures len { IfOk result (λ n. honest
            → n ≡ length (contents (of file (seen self.old).past))) }
        ensures past { honest → (seen self.new).past ≡ (seen self.old).past }
        ensures cause { HasCause (seen self.old).disk_faults (seen self.new).disk_faults
            (IsErr result) }
        ensures output { (seen self.new).tell_faults ≡ (seen self.old).tell_faults }
        ensures reads { (seen self.new).reads ≡ (seen self.old).reads };

    /// Reads from the place `at` on into the start of `into`, and says how many bytes. It gives fewer
    /// than fit only at the file's end.
    fn read(&mut self, file: File, at: u64, into: &mut [u8]) -> Result<usize, Failed>
        ensures size { IfOk result (λ n. n ≤ length into.old) }
        ensures end { IfOk result (λ n. honest
            → n ≡ min (length into.old) (length (contents (of file (seen self.old).past)) - at)) }
        ensures bytes { IfOk result (λ n. honest
            → into.new ≡ take n (drop at (contents (of file (seen self.old).past)))
            ++ drop n into.old) }
        ensures past { honest → (seen self.new).past ≡ (seen self.old).past }
        ensures cause { HasCause (seen self.old).disk_faults (seen self.new).disk_faults
            (IsErr result) }
        ensures output { (seen self.new).tell_faults ≡ (seen self.old).tell_faults }
        ensures reads { Rose (seen self.old).reads (seen self.new).reads };

    /// Writes `bytes` from the place `at` on, which is within the file or at its end. After `Failed`
    /// any bytes may stand where they were to go.
    fn write_at(&mut self, file: File, at: u64, bytes: &[u8]) -> Result<(), Failed>
        requires { honest → at ≤ length (contents (of file (seen self.old).past)) }
        ensures done { OnOk result (honest → (seen self.new).past
            ≡ On file (Wrote at (length bytes.now)
            (written (contents (of file (seen self.old).past)) at bytes.now))
            ∷ (seen self.old).past) }
        ensures torn { OnErr result (honest
            → MayAdd (λ now. On file (Wrote at (length bytes.now) now))
            (seen self.old).past (seen self.new).past) }
        ensures cause { HasCause (seen self.old).disk_faults (seen self.new).disk_faults
            (IsErr result) }
        ensures output { (seen self.new).tell_faults ≡ (seen self.old).tell_faults }
        ensures reads { (seen self.new).reads ≡ (seen self.old).reads };

    /// Cuts a file to `len` bytes, which it has. After `Failed` it may have been cut.
    fn cut(&mut self, file: File, len: u64) -> Result<(), Failed>
        requires { honest → len ≤ length (contents (of file (seen self.old).past)) }
        ensures done { OnOk result (honest → (seen self.new).past
            ≡ On file (Cut len (take len (contents (of file (seen self.old).past))))
            ∷ (seen self.old).past) }
        ensures torn { OnErr result (honest
            → MayAdd (λ now. On file (Cut len now)) (seen self.old).past (seen self.new).past) }
        ensures cause { HasCause (seen self.old).disk_faults (seen self.new).disk_faults
            (IsErr result) }
        ensures output { (seen self.new).tell_faults ≡ (seen self.old).tell_faults }
        ensures reads { (seen self.new).reads ≡ (seen self.old).reads };

    /// Makes a file hold what it reads as, whatever happens then. After `Failed` nothing is known to
    /// have been made to hold.
    fn sync(&mut self, file: File) -> Result<(), Failed>
        ensures done { OnOk result (honest
            → (seen self.new).past ≡ On file Synced ∷ (seen self.old).past) }
        ensures torn { OnErr result (honest → (seen self.new).past ≡ (seen self.old).past) }
        ensures cause { HasCause (seen self.old).disk_faults (seen self.new).disk_faults
            (IsErr result) }
        ensures output { (seen self.new).tell_faults ≡ (seen self.old).tell_faults }
        ensures reads { (seen self.new).reads ≡ (seen self.old).reads };

    /// Sends `bytes` to the output. After `Failed` a prefix of them may have been sent.
    fn tell(&mut self, bytes: &[u8]) -> Result<(), Failed>
        ensures done { OnOk result (honest
            → (seen self.new).past ≡ Told bytes.now ∷ (seen self.old).past) }
        ensures torn { OnErr result (honest
            → MayAdd (λ n. Told (take n bytes.now)) (seen self.old).past (seen self.new).past) }
        ensures cause { HasCause (seen self.old).tell_faults (seen self.new).tell_faults
            (IsErr result) }
        ensures disk { (seen self.new).disk_faults ≡ (seen self.old).disk_faults }
        ensures reads { (seen self.new).reads ≡ (seen self.old).reads };

    /// A file as it reads is one of its images.
    ghost reads_an_image: { (host : Self) (file : AFile) → honest
        → IsImage (of file (seen host).past) (contents (of file (seen host).past)) };
}
