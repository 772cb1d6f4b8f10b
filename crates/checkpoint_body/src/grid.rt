ghost use Rattle.std.specs.Prelude.{◌≡◌, ◌+◌, ◌*◌};

/// The last moment that a page may have.
pub(crate) const LAST_MOMENT: u32 = u32::MAX;

/// The moment of a place of a page, which is counted in steps from the first.
pub(crate) fn moment_of(first: u32, step: u32, place: usize) -> u128
    ensures { result ≡ first + place * step }
{
    u128::from(first) + place as u128 * u128::from(step)
}
