ghost use Rattle.std.specs.Prelude.{◌≡◌, ℕ, ◌+◌, ◌-◌, ◌*◌, ◌/◌, ◌%◌, ◌^◌, ◌<◌, ◌≤◌, ℤ, pos, ◌*ℤ◌, ◌≤ℤ◌, ◌<ℤ◌, unsigned_abs, if◌then◌else◌};
ghost use Rattle.fixed_num.specs.Rounding.{half_even, nearest, round_rest, signed, IsNearest};

/// An exact fraction. Calls that take one ask for a denominator above 0.
#[derive(Clone, Copy, Debug, PartialEq, Eq)]
pub struct Frac {
    pub num: i128,
    pub den: i128,
}

/// `n / d`, by the shorter division where both numbers are short.
fn quotient(n: u128, d: u128) -> u128
    requires { 0 < d }
    ensures { result ≡ n / d }
{
    match (u64::try_from(n), u64::try_from(d)) {
        (Ok(short), Ok(divisor)) => u128::from(short / divisor),
        _ => n / d,
    }
}

/// The quotient `whole` with a rest over `d`, rounded to the nearest whole number, ties to even.
pub(crate) fn round_rest(whole: u128, rest: u128, d: u128) -> u128
    requires below { rest < d }
    requires fits { whole + 1 < 2 ^ 128 }
    ensures { result ≡ round_rest whole rest d }
{
    let to_next = d - rest;
    if rest > to_next || (rest == to_next && whole % 2 == 1) {
        whole + 1
    } else {
        whole
    }
}

/// `n / d` to the nearest whole number, ties to even.
pub(crate) fn half_even(n: u128, d: u128) -> u128
    requires positive { 0 < d }
    requires fits { n < 2 ^ 128 - 1 }
    ensures value { result ≡ half_even n d }
    ensures bound { result ≤ n }
{
    let whole = quotient(n, d);
    round_rest(whole, n - whole * d, d)
}

/// The number of this size, below 0 where `negative` says so.
pub(crate) fn signed(negative: bool, size: u128) -> i128
    requires { size < (if negative then 2 ^ 127 + 1 else 2 ^ 127) }
    ensures { result ≡ signed negative size }
{
    if negative && size > 0 {
        -1 - (size - 1) as i128
    } else {
        size as i128
    }
}

/// The nearest whole number to a fraction, on a tie the even one. `f.den` is above 0.
pub fn round_half_even(f: Frac) -> i128
    requires { pos 0 <ℤ f.den }
    ensures value { result ≡ nearest f.num f.den }
    ensures near { IsNearest (unsigned_abs f.num) (unsigned_abs f.den) (unsigned_abs result) }
    ensures unique { (m : ℕ) → IsNearest (unsigned_abs f.num) (unsigned_abs f.den) m
        → unsigned_abs result ≡ m }
    ensures monotone { (n d : ℤ) → pos 0 <ℤ d → (f.num *ℤ d) ≤ℤ (n *ℤ f.den)
        → result ≤ℤ nearest n d }
{
    let size = half_even(f.num.unsigned_abs(), f.den.unsigned_abs());
    signed(f.num.is_negative(), size)
}
