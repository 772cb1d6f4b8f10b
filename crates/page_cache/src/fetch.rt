ghost use Rattle.std.specs.Prelude.{◌≡◌, ℕ, ◌+◌, ◌≤◌, List, Option, IsErr, IfOk, IfSome};
ghost use Rattle.host_model.specs.Cause.{HasCause, Rose};
ghost use Rattle.page_cache.specs.declared.key.PageKey.{PageKey as TheKey};

use crate::key::PageKey;
use host_model::Failed;
use page_pool::RawPage;

/// Where the pages come from that are not in the cache.
pub trait Fetch {
    /// The bytes of each key's page, where they are told.
    ghost bytes: { Self → TheKey → Option (List ℕ) };

    /// How many fetches have failed. The count stands still at 2^64 - 1.
    ghost faults: { Self → ℕ };

    /// How many reads of pages were made, at most one in a fetch. The count stands still at 2^64 - 1.
    ghost reads: { Self → ℕ };

    /// Reads the page of a key into `page`, whatever that held.
    fn fetch(&mut self, key: PageKey, page: RawPage) -> Result<RawPage, Failed>
        ensures bytes { IfOk result (λ read. IfSome (bytes self.old key) (λ told. read ≡ told)) }
        ensures same { (other : TheKey) → bytes self.new other ≡ bytes self.old other }
        ensures cause { HasCause (faults self.old) (faults self.new) (IsErr result) }
        ensures reads { reads self.old ≤ reads self.new }
        ensures once { reads self.new ≤ reads self.old + 1 }
        ensures read { IfOk result (λ _. Rose (reads self.old) (reads self.new)) };
}
