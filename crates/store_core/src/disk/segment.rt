ghost use Rattle.std.specs.Prelude.{◌≡◌, All, IfOk, IsOkUnless};
ghost use Rattle.store_core.specs.disk.Next.{written_records, written_slots, IsFormed, Written};

use crate::disk::fault::FilesFault;
use crate::disk::pages::{record_pages, slot_pages};
use crate::disk::sealed::{RecordExtent, SlotExtent};
use extent_file::PageList;
use std::alloc::Global;

/// A sealed segment that is to be written.
pub(crate) trait Segment {
    /// Its slot and its pages.
    ghost written: { Self → Written };

    fn slot(&self) -> u32
        ensures { result ≡ (written self.now).slot };

    /// Its pages, as they are written.
    fn pages(&self, alloc: Global) -> Result<PageList, FilesFault>
        requires { All IsFormed (written self.now).pages }
        ensures pages { IfOk result (λ pages. pages ≡ (written self.now).pages) }
        ensures memory { IsOkUnless result FilesFault.Memory };
}

impl Segment for SlotExtent {
    ghost written = { written_slots };

    fn slot(&self) -> u32 {
        self.slot
    }

    fn pages(&self, alloc: Global) -> Result<PageList, FilesFault> {
        slot_pages(alloc, self.pages.as_slice())
    }
}

impl Segment for RecordExtent {
    ghost written = { written_records };

    fn slot(&self) -> u32 {
        self.slot
    }

    fn pages(&self, alloc: Global) -> Result<PageList, FilesFault> {
        record_pages(alloc, self.pages.as_slice())
    }
}
