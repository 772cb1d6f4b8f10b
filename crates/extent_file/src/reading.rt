ghost use Rattle.std.specs.Prelude.{◌≡◌, ◌+◌, ◌<◌, ◌≤◌, ℕ, length, take, drop, IfOk, IsErrOf};
ghost use Rattle.host_model.specs.Images.{contents};
ghost use Rattle.host_model.specs.Past.{of};
ghost use Rattle.host_model.specs.Cause.{HasCause};

use crate::fault::ExtentFault;
use crate::opening::read_prefix;
use host_model::{File, Host};
use page_pool::{PAGE_SIZE, RawPage};

/// Puts bytes that a page has room for in place of what it holds.
fn fill(page: &mut RawPage, bytes: &[u8])
    requires { length bytes.now ≤ PAGE_SIZE }
    ensures { page.new ≡ bytes.now }
{
    page.clear();
    for byte in bytes {
        page.push(*byte);
    }
}

/// The bytes of a file from a place on, which a page has room for, in that page. `BadExtent` where the
/// file ends before them, with its length. Then, and at `DiskFault`, the page is freed.
pub(crate) fn read_into<H: Host>(
    host: &mut H,
    file: File,
    at: u64,
    size: usize,
    page: RawPage,
) -> Result<RawPage, ExtentFault>
    requires some { 0 < size }
    requires most { size ≤ PAGE_SIZE }
    ensures read { IfOk result (λ read. H.honest
        → (read ≡ take size (drop at (contents (of file (H.seen host.old).past))))
        × (at + size ≤ length (contents (of file (H.seen host.old).past)))) }
    ensures bad { (place : ℕ) → IsErrOf result (ExtentFault.BadExtent place) → H.honest
        → (place ≡ length (contents (of file (H.seen host.old).past))) × (place < at + size) }
    ensures no_memory { IsErrOf result ExtentFault.Memory → ⊥ }
    ensures past { H.honest → (H.seen host.new).past ≡ (H.seen host.old).past }
    ensures cause { HasCause (H.seen host.old).disk_faults (H.seen host.new).disk_faults
        (IsErrOf result ExtentFault.DiskFault) }
    ensures output { (H.seen host.new).tell_faults ≡ (H.seen host.old).tell_faults }
{
    let mut page = page;
    let Ok(len) = host.len(file) else {
        return Err(ExtentFault::DiskFault);
    };
    if len.saturating_sub(at) < size as u64 {
        return Err(ExtentFault::BadExtent(len));
    }
    let mut bytes = [0_u8; PAGE_SIZE];
    let Ok(read) = read_prefix(host, file, at, &mut bytes[..size]) else {
        return Err(ExtentFault::DiskFault);
    };
    fill(&mut page, &bytes[..read]);
    Ok(page)
}
