//! A cache of pages that are fetched by key.
//!
//! A `PageCache` holds up to a number of pages, the most recently used first. A page that is asked for and
//! not there is fetched, and the least recently used one of a full cache goes first. A page that is there
//! is given as its fetch gave it, with no fetch, and nothing is refused.
//!
//! It stands on `page_pool` for the pages, on `host_model` for what a failed fetch is, and on the kit's
//! `lru` for the order of use.
#![tactic(auto)]

mod cache;
mod fault;
mod fetch;
mod key;

pub use cache::PageCache;
pub use fault::CacheFault;
pub use fetch::Fetch;
pub use key::PageKey;
