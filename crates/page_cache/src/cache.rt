ghost use Rattle.std.specs.Prelude.{◌≡◌, ℕ, ◌+◌, ◌<◌, ◌≤◌, List, [], None, Some, true, false, IsOk, IsOkAnd, IsErrOf, IfOk, IfErr, IfSome, OnOk, OnErr};
ghost use Rattle.std.specs.Borrow.{sem};
ghost use Rattle.std.specs.Map.{lookup};
ghost use Rattle.host_model.specs.Cause.{HasCause, Rose};
ghost use Rattle.lru.specs.LruCache.{lru_cache};
ghost use Rattle.page_cache.specs.declared.fault.CacheFault.TheVariants.{FetchFault, Memory};
ghost use Rattle.page_cache.specs.declared.key.PageKey.{PageKey as TheKey};
ghost use Rattle.page_cache.specs.Cached.{same_key, with_given, with_room};

use crate::fault::CacheFault;
use crate::fetch::Fetch;
use crate::key::PageKey;
use lru::LruCache;
use page_pool::{PagePool, RawPage};
use std::alloc::Global;
use std::marker::Model;
use std::num::NonZeroUsize;

/// Pages by key, the most recently used first. Contracts see it as the bytes of the pages by key.
#[derive(Drop)]
pub struct PageCache {
    pages: LruCache<PageKey, RawPage>,
    pool: PagePool,
}

impl Model for PageCache {
    ghost use Rattle.page_cache.specs.Cached.{Cached, cached_code};

    ghost Value = { Cached };

    ghost coded = { cached_code };

    ghost view = { λ cache. cache.pages };
}

impl PageCache {
    ghost use Rattle.page_cache.specs.Given.{ends_given};

    /// A cache with no page, and room for `capacity` pages.
    pub fn new(alloc: Global, capacity: usize) -> Result<PageCache, CacheFault>
        requires { 0 < capacity }
        ensures ok { IfOk result (λ cache. cache ≡ lru_cache [] capacity) }
        ensures refused { IfErr result (λ fault. fault ≡ Memory) }
    {
        let Some(capacity) = NonZeroUsize::new(capacity) else {
            unreachable!()
        };
        Ok(PageCache {
            pages: LruCache::new(alloc, capacity)?,
            pool: PagePool::new(alloc),
        })
    }

    /// Lets the least recently used page of a full cache go back to the pool.
    #[tactic(auto, using(crate::proofs::CachedLemmas::room_left, crate::proofs::CachedLemmas::room_full))]
    fn make_room(&mut self)
        ensures { self.new ≡ with_room self.old }
    {
        if self.pages.len() < self.pages.cap().get() {
            return;
        }
        if let Some((_, page)) = self.pages.pop_lru() {
            self.pool.give(page);
        }
    }

    /// An empty page of the pool, which takes memory where it has none.
    fn empty_page(&mut self) -> Result<RawPage, CacheFault>
        ensures entries { self.new ≡ self.old }
        ensures ok { IfOk result (λ page. page ≡ []) }
        ensures refused { IfErr result (λ fault. fault ≡ Memory) }
    {
        self.pool.reserve(1)?;
        match self.pool.take() {
            Some(page) => Ok(page),
            None => unreachable!(),
        }
    }

    /// Keeps a page under its key. Where there is no memory for it, it goes back to the pool.
    fn keep(&mut self, key: PageKey, page: RawPage) -> Result<(), CacheFault>
        ensures ok { OnOk result (self.new ≡ with_given self.old key page) }
        ensures err { OnErr result (self.new ≡ self.old) }
        ensures refused { IfErr result (λ fault. fault ≡ Memory) }
    {
        match self.pages.put(key, page) {
            Ok(_) => Ok(()),
            Err(failed) => {
                let (_, page) = failed.value;
                self.pool.give(page);
                Err(CacheFault::Memory)
            }
        }
    }

    /// Fetches a page that is not there, and keeps it.
    #[tactic(auto, using(crate::proofs::CachedLemmas::given_room))]
    fn fetched<F: Fetch>(&mut self, key: PageKey, fetch: &mut F) -> Result<(), CacheFault>
        requires { lookup (same_key key) self.old.entries ≡ None }
        ensures ok { OnOk result ((page : List ℕ) × (self.new ≡ with_given self.old key page)
            × IfSome (F.bytes fetch.old key) (λ told. page ≡ told)) }
        ensures err { OnErr result (self.new ≡ with_room self.old) }
        ensures same { (other : TheKey) → F.bytes fetch.new other ≡ F.bytes fetch.old other }
        ensures cause { HasCause (F.faults fetch.old) (F.faults fetch.new)
            (IsErrOf result FetchFault) }
        ensures reads { F.reads fetch.old ≤ F.reads fetch.new }
        ensures once { F.reads fetch.new ≤ F.reads fetch.old + 1 }
        ensures read { OnOk result (Rose (F.reads fetch.old) (F.reads fetch.new)) }
    {
        self.make_room();
        let page = self.empty_page()?;
        let page = fetch.fetch(key, page)?;
        self.keep(key, page)?;
        Ok(())
    }

    /// Makes the page of a key the most recently used one, and says whether it is there.
    fn promote(&mut self, key: PageKey) -> bool
        ensures there { result ≡ true → (page : List ℕ)
            → lookup (same_key key) self.old.entries ≡ Some page
            → self.new ≡ with_given self.old key page }
        ensures found { result ≡ true → lookup (same_key key) self.old.entries ≡ None → ⊥ }
        ensures missing { result ≡ false
            → (lookup (same_key key) self.old.entries ≡ None) × (self.new ≡ self.old) }
    {
        self.pages.promote(&key)
    }

    /// Sees that the page of a key is there, as the most recently used one.
    fn load<F: Fetch>(&mut self, key: PageKey, fetch: &mut F) -> Result<(), CacheFault>
        ensures hit { (page : List ℕ) → lookup (same_key key) self.old.entries ≡ Some page
            → IsOk result × (fetch.new ≡ fetch.old) × (self.new ≡ with_given self.old key page) }
        ensures missed { lookup (same_key key) self.old.entries ≡ None
            → OnOk result ((page : List ℕ)
            × (self.new ≡ with_given self.old key page)
            × IfSome (F.bytes fetch.old key) (λ told. page ≡ told)) }
        ensures err { OnErr result (self.new ≡ with_room self.old) }
        ensures same { (other : TheKey) → F.bytes fetch.new other ≡ F.bytes fetch.old other }
        ensures cause { HasCause (F.faults fetch.old) (F.faults fetch.new)
            (IsErrOf result FetchFault) }
        ensures reads { F.reads fetch.old ≤ F.reads fetch.new }
        ensures once { F.reads fetch.new ≤ F.reads fetch.old + 1 }
        ensures fetched { lookup (same_key key) self.old.entries ≡ None
            → OnOk result (Rose (F.reads fetch.old) (F.reads fetch.new)) }
    {
        if self.promote(key) {
            return Ok(());
        }
        self.fetched(key, fetch)?;
        Ok(())
    }

    /// The page of a key, which becomes the most recently used one. One that is there is given as its fetch
    /// gave it, without a fetch, and nothing is refused. One that is not there is fetched, with at most one
    /// read. The least recently used one of a full cache goes for it, also where the fetch fails or there is
    /// no memory.
    pub fn page<F: Fetch>(&mut self, key: PageKey, fetch: &mut F) -> Result<&RawPage, CacheFault>
        ensures* ends { sem 𝓛 (ends_given self.entry key result) }
        ensures hit { (page : List ℕ) → lookup (same_key key) self.old.entries ≡ Some page
            → IsOkAnd result (λ given. given.now ≡ page) × (fetch.new ≡ fetch.old) }
        ensures missed { lookup (same_key key) self.old.entries ≡ None
            → IfOk result (λ given. IfSome (F.bytes fetch.old key) (λ told. given.now ≡ told)) }
        ensures same { (other : TheKey) → F.bytes fetch.new other ≡ F.bytes fetch.old other }
        ensures cause { HasCause (F.faults fetch.old) (F.faults fetch.new)
            (IsErrOf result FetchFault) }
        ensures reads { F.reads fetch.old ≤ F.reads fetch.new }
        ensures once { F.reads fetch.new ≤ F.reads fetch.old + 1 }
        ensures fetched { lookup (same_key key) self.old.entries ≡ None
            → IfOk result (λ _. Rose (F.reads fetch.old) (F.reads fetch.new)) }
    {
        self.load(key, fetch)?;
        match self.pages.peek(&key) {
            Some(page) => Ok(page),
            None => unreachable!(),
        }
    }
}
