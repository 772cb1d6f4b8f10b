ghost use Rattle.std.specs.Prelude.{◌≡◌, ◌≤◌, IfOk};
ghost use Rattle.query_text.specs.Asked.{in_limits, number_read};

use crate::fault::QueryFault;

/// A number that is at least so large and fits 32 bits.
fn in_limits(least: u32, number: i64) -> Result<u32, QueryFault>
    ensures value { result ≡ in_limits least number }
    ensures least { IfOk result (λ number. least ≤ number) }
{
    if number < i64::from(least) || number > i64::from(u32::MAX) {
        return Err(QueryFault::BadNumber);
    }
    Ok(number as u32)
}

/// The number that a word says by a sign or none and digits, where it is at least so large and fits 32
/// bits.
pub fn read_number(least: u32, word: &str) -> Result<u32, QueryFault>
    ensures value { result ≡ number_read least word.now }
    ensures least { IfOk result (λ number. least ≤ number) }
{
    match word.parse::<i64>() {
        Ok(number) => in_limits(least, number),
        Err(_) => Err(QueryFault::BadNumber),
    }
}
