ghost use Rattle.std.specs.Prelude.{◌≡◌, ◌≤◌, ◌↔◌, ◌⊎◌, IsTrue, IsSomeAnd, Contains};

use fixed_num::ListOf;
use thiserror::Error;

/// The numbers of the calls of an object in memory that fail. Its first call has the number 0.
pub type CallList = ListOf<u64>;

/// An object in memory could not be made.
#[derive(Clone, Copy, Debug, PartialEq, Eq, Error)]
pub enum ModelFault {
    #[error("no memory")]
    Memory,
}

/// Whether the call with this number is listed.
pub(crate) fn is_listed(fails: &[u64], call: u64) -> bool
    ensures { IsTrue result ↔ Contains fails.now call }
{
    fails.contains(&call)
}

/// Whether the call with this number is to fail: it is listed, or the fuse says that all calls from
/// an earlier one on fail.
pub(crate) fn fails_at(fails: &[u64], fuse: Option<u64>, call: u64) -> bool
    ensures { IsTrue result ↔ (Contains fails.now call ⊎ IsSomeAnd fuse (λ first. first ≤ call)) }
{
    if let Some(first) = fuse
        && first <= call
    {
        return true;
    }
    is_listed(fails, call)
}
