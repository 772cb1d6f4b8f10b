ghost use Rattle.std.specs.Prelude.{◌≡◌, ◌≤◌, ◌^◌, slice_get};
ghost use Rattle.storage_number.specs.Step.{steps, units_of, IsStep};

/// The step between two neighbouring mantissas, `num / den`, and how a word shows it.
#[derive(Clone, Copy, Debug)]
pub struct Step {
    pub num: u64,
    pub den: u64,
    pub multiplies: bool,
    pub hundreds: bool,
    pub exponent: u32,
    /// The least mantissa of a word with this step.
    pub least: u32,
}

impl Step {
    /// The step in ten-millionths.
    pub fn units(self) -> u128
        requires { IsStep self }
        ensures value { result ≡ units_of self }
        ensures bound { result ≤ 10 ^ 21 }
    {
        u128::from(10_000_000 / self.den) * u128::from(self.num)
    }
}

macro_rules! step {
    ($num:expr, $den:expr, $multiplies:expr, $hundreds:expr, $exponent:expr, $least:expr) => {
        Step {
            num: $num,
            den: $den,
            multiplies: $multiplies,
            hundreds: $hundreds,
            exponent: $exponent,
            least: $least,
        }
    };
}

/// The steps, from the smallest.
static STEPS: [Step; 19] = [
    step!(1, 10_000_000, false, false, 7, 1),
    step!(1, 1_000_000, false, false, 6, 1_677_722),
    step!(1, 100_000, false, false, 5, 1_677_722),
    step!(1, 10_000, false, false, 4, 1_677_722),
    step!(1, 1_000, false, false, 3, 1_677_722),
    step!(1, 100, false, false, 2, 1_677_722),
    step!(1, 10, false, false, 1, 1_677_722),
    step!(1, 1, false, false, 0, 1_677_722),
    step!(10, 1, true, false, 1, 1_677_722),
    step!(100, 1, true, false, 2, 1_677_722),
    step!(1_000, 1, true, false, 3, 1_677_722),
    step!(10_000, 1, true, false, 4, 1_677_722),
    step!(100_000, 1, true, false, 5, 1_677_722),
    step!(1_000_000, 1, true, false, 6, 1_677_722),
    step!(10_000_000, 1, true, false, 7, 1_677_722),
    step!(100_000_000, 1, true, true, 4, 1_677_722),
    step!(10_000_000_000, 1, true, true, 5, 167_772),
    step!(1_000_000_000_000, 1, true, true, 6, 167_772),
    step!(100_000_000_000_000, 1, true, true, 7, 167_772),
];

/// The largest step.
pub const LAST: Step = step!(100_000_000_000_000, 1, true, true, 7, 167_772);

/// The step at a place, if there is one.
#[tactic(auto, unfolding(crate::specs::Step::steps))]
pub fn step_at(place: usize) -> Option<Step>
    ensures { result ≡ slice_get steps place }
{
    STEPS.get(place).copied()
}
