//! The moment of what stands last in a list.
ghost use Rattle.std.specs.Prelude.{◌≡◌, ℕ};
ghost use Rattle.replication.specs.Copies.{latest};

use crate::beats::Beat;
use crate::named::NamedBeat;

/// What has a moment.
pub(crate) trait Timed {
    ghost moment_of: { Self → ℕ };

    /// Its moment, in seconds.
    fn moment(&self) -> u32
        ensures { result ≡ moment_of self.now };
}

impl Timed for Beat {
    ghost use Rattle.replication.specs.Names.{beat_moment};

    ghost moment_of = { beat_moment };

    fn moment(&self) -> u32 {
        self.moment
    }
}

impl Timed for NamedBeat {
    ghost use Rattle.replication.specs.Names.{named_moment};

    ghost moment_of = { named_moment };

    fn moment(&self) -> u32 {
        self.moment
    }
}

/// A floor is a moment.
impl Timed for u32 {
    ghost moment_of = { λ floor. floor };

    fn moment(&self) -> u32 {
        *self
    }
}

/// The moment of the last item, or `before`.
pub(crate) fn last_moment<T: Timed>(before: u32, items: &[T]) -> u32
    ensures { result ≡ latest T.moment_of before items.now }
{
    match items.last() {
        Some(item) => item.moment(),
        None => before,
    }
}
