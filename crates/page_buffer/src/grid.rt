ghost use Rattle.std.specs.Prelude.{◌≡◌, ◌≢◌, ℕ, ◌+◌, ◌*◌, ◌<◌, ◌≤◌, IfSome, IfNone};

/// The moment of a place of a page, which is counted in steps from the first.
pub fn moment_of(first: u32, step: u32, place: usize) -> u64
    requires { place ≤ 2048 }
    ensures { result ≡ first + place * step }
{
    u64::from(first) + place as u64 * u64::from(step)
}

/// Which of the first `len` places of a page has the moment.
#[tactic(auto, using(crate::proofs::GridLemmas::before_first, crate::proofs::GridLemmas::between, crate::proofs::GridLemmas::past_end, crate::proofs::GridLemmas::at_place))]
pub fn place_of(first: u32, step: u32, len: usize, moment: u32) -> Option<usize>
    requires { 0 < step }
    ensures found { IfSome result (λ place. (place < len) × (moment ≡ first + place * step)) }
    ensures none { IfNone result ((place : ℕ) → place < len → moment ≢ first + place * step) }
{
    if moment < first || (moment - first) % step != 0 {
        return None;
    }
    let place = ((moment - first) / step) as usize;
    if place < len { Some(place) } else { None }
}
