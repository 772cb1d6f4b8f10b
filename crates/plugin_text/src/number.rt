ghost use Rattle.std.specs.Prelude.{◌≡◌, ◌≤ℤ◌, IfOk};
ghost use Rattle.plugin_text.specs.Number.{is_digits, number_within, number, value};

use crate::fault::LineFault;

/// Whether a word has one digit or more, and nothing else.
fn is_digits(word: &str) -> bool
    ensures { result ≡ is_digits word.now }
{
    !word.is_empty() && word.as_bytes().iter().all(|byte| byte.is_ascii_digit())
}

/// The number that a word says by a sign or none and digits, where it is in the limits.
pub fn number_within(word: &str, low: i64, high: i64) -> Result<i64, LineFault>
    ensures value { result ≡ number_within low high word.now }
    ensures low { IfOk result (λ n. low ≤ℤ n) }
    ensures high { IfOk result (λ n. n ≤ℤ high) }
{
    match word.parse::<i64>() {
        Ok(number) if low <= number && number <= high => Ok(number),
        _ => Err(LineFault::BadNumber),
    }
}

/// The number that a word says by a sign or none and digits, where it fits 64 bits.
pub fn number(word: &str) -> Result<i64, LineFault>
    ensures { result ≡ number word.now }
{
    number_within(word, i64::MIN, i64::MAX)
}

/// The value that a word says. A dot and digits behind a number are dropped.
pub fn value(word: &str) -> Result<i64, LineFault>
    ensures { result ≡ value word.now }
{
    match word.split_once('.') {
        Some((whole, digits)) if is_digits(digits) => number(whole),
        Some(_) => Err(LineFault::BadNumber),
        None => number(word),
    }
}
