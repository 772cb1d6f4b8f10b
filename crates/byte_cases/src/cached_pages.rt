//! The tests of `page_cache`: pages that are fetched by key.
ghost use Rattle.std.specs.Prelude.{Some, [], ◌∷◌};

use host_model::Failed;
use page_cache::{Fetch, PageCache, PageKey};
use page_pool::RawPage;
use std::test::Fail;

/// Gives pages of one byte, the key's tier, until it is told to fail.
#[derive(Drop)]
struct Tiers {
    fails: bool,
    faults: u64,
    reads: u64,
}

impl Fetch for Tiers {
    ghost bytes = { λ _ key. Some (key.tier ∷ []) };

    ghost faults = { λ tiers. tiers.faults };

    ghost reads = { λ tiers. tiers.reads };

    fn fetch(&mut self, key: PageKey, mut page: RawPage) -> Result<RawPage, Failed> {
        self.reads = self.reads.saturating_add(1);
        if self.fails {
            self.faults = self.faults.saturating_add(1);
            return Err(Failed);
        }
        page.clear();
        page.push(key.tier);
        Ok(page)
    }
}

/// Whether a value may go to another thread shows in that it may be passed here.
fn crossed<T: Send>(value: T) -> T {
    value
}

/// Whether the page of a key of tier 1 is given, as the byte 1.
fn is_given(cache: &mut PageCache, tiers: &mut Tiers) -> Result<bool, Fail> {
    let key = PageKey {
        tier: 1,
        extent: 1 << 40,
        index: 7,
    };
    Ok(cache.page(key, tiers)?.as_slice() == b"\x01".as_slice())
}

// The cache goes to another thread in between.
#[test]
fn a_page_that_is_there_is_not_read_again(rt: HostRuntime) -> Result<(), Fail> {
    let mut tiers = Tiers {
        fails: false,
        faults: 0,
        reads: 0,
    };
    let mut cache = PageCache::new(rt.alloc(), 2)?;
    assert!(rt; is_given(&mut cache, &mut tiers)?);
    tiers.fails = true;
    let mut cache = crossed(cache);
    assert!(rt; is_given(&mut cache, &mut tiers)?);
    assert_eq!(rt; tiers.reads, 1);
    Ok(())
}
