ghost use Rattle.std.specs.Prelude.{◌≡◌, ◌+◌, ◌≤◌, ◌++◌, length};
ghost use Rattle.page_pool.specs.declared.node.TheConstants.{PAGE_SIZE};

use page_pool::RawPage;

/// Adds bytes at the end of a page that has room for them.
pub fn append(page: &mut RawPage, bytes: &[u8])
    requires { length page.old + length bytes.now ≤ PAGE_SIZE }
    ensures { page.new ≡ page.old ++ bytes.now }
{
    for byte in bytes {
        page.push(*byte);
    }
}

/// Puts bytes that a page has room for in place of what it holds.
pub fn fill(page: &mut RawPage, bytes: &[u8])
    requires { length bytes.now ≤ PAGE_SIZE }
    ensures { page.new ≡ bytes.now }
{
    page.clear();
    append(page, bytes);
}
