ghost use Rattle.std.specs.Prelude.{◌≡◌, ◌+◌, ◌*◌, ◌<◌, ◌≤◌, ℕ, length, take, drop, slice_get, Some, IfOk, IsErrOf};
ghost use Rattle.host_model.specs.Images.{contents};
ghost use Rattle.host_model.specs.Past.{of};
ghost use Rattle.host_model.specs.Cause.{HasCause};
ghost use Rattle.std.specs.List.{position};
ghost use Rattle.extent_file.specs.declared.entry.Entry.{Entry as AnEntry};
ghost use Rattle.extent_file.specs.Directory.{IsDirectory, bytes_of};
ghost use Rattle.extent_file.specs.Find.{is_wanted};
ghost use Rattle.extent_file.specs.Slot.{tier_of};
ghost use Rattle.page_pool.specs.declared.node.TheConstants.{PAGE_SIZE};
ghost use Rattle.extent_file.specs.declared.sizes.TheConstants.{PLACE_LIMIT};

use crate::entry::Entry;
use crate::fault::ExtentFault;
use crate::finding::first_wanted;
use crate::reading::read_into;
use crate::sizes::tier_of;
use fixed_num::ListOf;
use host_model::{File, Host};
use page_pool::RawPage;
use std::marker::Model;

/// A sealed extent: its place, and the directory of its pages.
#[derive(Debug, Drop)]
pub struct Extent {
    file: File,
    start: u64,
    entries: ListOf<Entry>,
}

impl Model for Extent {
    ghost use Rattle.extent_file.specs.Directory.{Directory, IsDirectory};

    ghost Value = { Directory };

    ghost view = { λ extent.
        record { file = extent.file; start = extent.start; entries = extent.entries } };

    ghost invariant = { λ extent. IsDirectory extent.file extent.start extent.entries };
}

impl Extent {
    /// The extent with this directory, which begins at a place of a file.
    pub(crate) fn of(file: File, start: u64, entries: ListOf<Entry>) -> Extent
        requires { IsDirectory file start entries }
        ensures { result ≡ record { file = file; start = start; entries = entries } }
    {
        Extent {
            file,
            start,
            entries,
        }
    }

    /// How many pages there are.
    pub fn entries(&self) -> u32
        ensures { result ≡ length self.now.entries }
    {
        self.entries.len() as u32
    }

    /// What the directory says of a page.
    fn entry(&self, index: u32) -> Entry
        requires { index < length self.now.entries }
        ensures entry { slice_get self.now.entries index ≡ Some result }
        ensures some { 0 < bytes_of (tier_of self.now.file) result }
        ensures most { bytes_of (tier_of self.now.file) result ≤ PAGE_SIZE }
        ensures place { self.now.start + result.place < 2 * PLACE_LIMIT }
        ensures step { 0 < result.step }
        ensures count { 0 < result.count }
    {
        self.entries.as_slice()[index as usize]
    }

    /// Series, first moment, step and count of items of a page. The step and the count are 1 at least.
    pub fn head(&self, index: u32) -> (u32, u32, u32, u32)
        requires { index < length self.now.entries }
        ensures entry { (entry : AnEntry) × (slice_get self.now.entries index ≡ Some entry)
            × (result ≡ (entry.series, entry.first, entry.step, entry.count)) }
        ensures step { 0 < result.2 }
        ensures count { 0 < result.3 }
    {
        let entry = self.entry(index);
        (entry.series, entry.first, entry.step, entry.count)
    }

    /// The first page of the series whose last item is at or after the moment, if there is one.
    pub fn find(&self, series: u32, moment: u32) -> Option<u32>
        ensures { result ≡ position (is_wanted series moment) self.now.entries }
    {
        let index = first_wanted(self.entries.as_slice(), series, moment)?;
        Some(index as u32)
    }

    /// The bytes of the items of a page, in the raw page, which may have held anything. `BadExtent` exactly
    /// where the file ends before they do, with its length. Then, and at `DiskFault`, the raw page is freed.
    pub fn read_page<H: Host>(
        &self,
        host: &mut H,
        index: u32,
        page: RawPage,
    ) -> Result<RawPage, ExtentFault>
        requires { index < length self.now.entries }
        ensures read { IfOk result (λ read. H.honest → (entry : AnEntry)
            → slice_get self.now.entries index ≡ Some entry
            → (read ≡ take (bytes_of (tier_of self.now.file) entry)
            (drop (self.now.start + entry.place)
            (contents (of self.now.file (H.seen host.old).past))))
            × (self.now.start + entry.place + bytes_of (tier_of self.now.file) entry
            ≤ length (contents (of self.now.file (H.seen host.old).past)))) }
        ensures bad { (place : ℕ) → IsErrOf result (ExtentFault.BadExtent place) → H.honest
            → (entry : AnEntry) → slice_get self.now.entries index ≡ Some entry
            → (place ≡ length (contents (of self.now.file (H.seen host.old).past)))
            × (place < self.now.start + entry.place + bytes_of (tier_of self.now.file) entry) }
        ensures no_memory { IsErrOf result ExtentFault.Memory → ⊥ }
        ensures past { H.honest → (H.seen host.new).past ≡ (H.seen host.old).past }
        ensures cause { HasCause (H.seen host.old).disk_faults (H.seen host.new).disk_faults
            (IsErrOf result ExtentFault.DiskFault) }
        ensures output { (H.seen host.new).tell_faults ≡ (H.seen host.old).tell_faults }
    {
        let entry = self.entry(index);
        let size = entry.bytes(tier_of(self.file)) as usize;
        read_into(host, self.file, self.start + entry.place, size, page)
    }
}
