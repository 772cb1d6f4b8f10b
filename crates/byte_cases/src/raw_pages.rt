//! The tests of `page_pool`: a pool, and the page that it gives.

use page_pool::{PAGE_SIZE, PagePool, RawPage};
use std::test::Fail;

fn taken(pool: &mut PagePool) -> Result<RawPage, Fail> {
    Ok(pool.take().ok_or("no page is spare")?)
}

fn push(page: &mut RawPage, byte: u8) {
    if page.len() < PAGE_SIZE {
        page.push(byte);
    }
}

#[test]
fn a_page_that_is_taken_again_is_empty(rt: HostRuntime) -> Result<(), Fail> {
    let mut pool = PagePool::new(rt.alloc());
    assert!(rt; pool.take().is_none());
    pool.reserve(1)?;
    let mut page = taken(&mut pool)?;
    push(&mut page, 7);
    pool.give(page);
    let mut page = taken(&mut pool)?;
    push(&mut page, 9);
    assert_eq!(rt; page.as_slice(), [9].as_slice());
    Ok(())
}
