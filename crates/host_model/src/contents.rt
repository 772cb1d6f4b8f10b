ghost use Rattle.std.specs.Prelude.{◌≡◌, ℕ, ◌<◌, ◌≤◌, ◌⊎◌, [], ◌++◌, slice_index, length, min, take, drop, IfOk, OnOk, OnErr};
ghost use Rattle.host_model.specs.Images.{written};
ghost use Rattle.host_model.specs.Replay.{FillsIn};

use std::alloc::{AllocError, Global};
use std::marker::Model;

/// What a file in memory reads as, which contracts see as the list of its bytes.
#[derive(Debug, Drop)]
pub(crate) struct Contents {
    bytes: Vec<u8>,
}

impl Model for Contents {
    ghost use Rattle.std.specs.Prelude.{List, ℕ};

    ghost Value = { List ℕ };

    ghost view = { λ c. c.bytes.items };
}

/// Copies as many bytes as fit from the start of `from` to the start of `into`, and says how many.
pub(crate) fn copy_prefix(from: &[u8], into: &mut [u8]) -> usize
    ensures size { result ≡ min (length from.now) (length into.old) }
    ensures bytes { into.new ≡ take result from.now ++ drop result into.old }
    ensures prefix { take result into.new ≡ take result from.now }
{
    let size = from.len().min(into.len());
    into[..size].copy_from_slice(&from[..size]);
    size
}

/// The bytes from the place `at` on, none where there are fewer.
pub(crate) fn rest_from(bytes: &[u8], at: usize) -> &[u8]
    ensures { result.now ≡ drop at bytes.now }
{
    let start = at.min(bytes.len());
    &bytes[start..]
}

/// Puts `byte` at the places from `at` up to `end`.
fn fill_range(kept: &mut [u8], at: usize, end: usize, byte: u8)
    requires in_order { at ≤ end }
    requires within { end ≤ length kept.old }
    ensures kept { (place : ℕ) → ((place < at) ⊎ (end ≤ place))
        → slice_index kept.new place ≡ slice_index kept.old place }
    ensures filled { (place : ℕ) → at ≤ place → place < end → slice_index kept.new place ≡ byte }
{
    for place in at..end {
        kept[place] = byte;
    }
}

impl Contents {
    /// A file of no bytes.
    pub(crate) fn new(alloc: Global) -> Contents
        ensures { result ≡ [] }
    {
        Contents {
            bytes: Vec::new(alloc),
        }
    }

    pub(crate) fn len(&self) -> usize
        ensures { result ≡ length self.now }
    {
        self.bytes.len()
    }

    pub(crate) fn as_slice(&self) -> &[u8]
        ensures { result.now ≡ self.now }
    {
        self.bytes.as_slice()
    }

    /// A file of these bytes.
    pub(crate) fn from_slice(alloc: Global, bytes: &[u8]) -> Result<Contents, AllocError>
        ensures { IfOk result (λ copy. copy ≡ bytes.now) }
    {
        Ok(Contents {
            bytes: Vec::from_slice(alloc, bytes)?,
        })
    }

    /// Puts `bytes` from the place `at` on, at the end where the file is shorter. After an `Err` the
    /// file is as before.
    pub(crate) fn write(&mut self, at: usize, bytes: &[u8]) -> Result<(), AllocError>
        ensures ok { OnOk result (self.new ≡ written self.old at bytes.now) }
        ensures err { OnErr result (self.new ≡ self.old) }
    {
        let start = at.min(self.bytes.len());
        let over = bytes.len().min(self.bytes.len() - start);
        self.bytes.extend_from_slice(&bytes[over..])?;
        let kept = self.bytes.as_mut_slice();
        kept[start..start + over].copy_from_slice(&bytes[..over]);
        Ok(())
    }

    /// Puts `byte` at the places from `at` up to `end`, and where the file is shorter than `end`, from
    /// its end on.
    pub(crate) fn fill(&mut self, at: usize, end: usize, byte: u8) -> Result<(), AllocError>
        requires { at ≤ end }
        ensures { OnOk result (FillsIn byte at end self.old self.new) }
    {
        let size = self.bytes.len().max(end);
        self.bytes.resize(size, byte)?;
        let kept = self.bytes.as_mut_slice();
        fill_range(kept, at, end, byte);
        Ok(())
    }

    /// Leaves the first `len` bytes.
    pub(crate) fn cut(&mut self, len: usize)
        ensures { self.new ≡ take len self.old }
    {
        self.bytes.truncate(len);
    }
}
