ghost use Rattle.std.specs.Prelude.{◌≡◌, ℕ, ◌++◌, List, OnOk};
ghost use Rattle.extent_file.specs.Pages.{entry_of};
ghost use Rattle.extent_file.specs.Writing.{IsEncoded};

use fixed_num::{ByteList, ListOf};
use page_buffer::{PageFault, RecordPage, SlotPage};

/// A page of an extent.
#[derive(Drop)]
pub enum Page {
    /// The points of a series, in tier 0.
    Slots(SlotPage),
    /// The records of a series, in another tier.
    Records(RecordPage),
}

/// Pages in the order of an extent.
pub type PageList = ListOf<Page>;

impl Page {
    /// Series, first moment, step and count of items.
    pub(crate) fn head(&self) -> (u32, u32, u32, u32)
        ensures { result ≡ (
          (entry_of 0 self.now).series,
          (entry_of 0 self.now).first,
          (entry_of 0 self.now).step,
          (entry_of 0 self.now).count,
        ) }
    {
        match self {
            Page::Slots(page) => page.head(),
            Page::Records(page) => page.head(),
        }
    }

    /// Adds the bytes of the items.
    pub(crate) fn encode(&self, out: &mut ByteList) -> Result<(), PageFault>
        ensures { OnOk result ((bytes : List ℕ) × (out.new ≡ out.old ++ bytes)
            × IsEncoded self.now bytes) }
    {
        // Read, so that they are known to have 4 bytes.
        let (_series, _, _step, _) = self.head();
        match self {
            Page::Slots(page) => page.encode(out),
            Page::Records(page) => page.encode(out),
        }
    }
}
