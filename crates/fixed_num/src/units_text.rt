ghost use Rattle.std.specs.Prelude.{◌≡◌, ℕ, ◌+◌, ◌-◌, ◌*◌, ◌/◌, ◌%◌, ◌^◌, ◌<◌, ◌≤◌, [], ◌∷◌, ◌++◌, length, min, true, false, Some, None, Ok, if◌then◌else◌, OnOk, OnErr, IfOk, IsOkUnless, unsigned_abs, position};
ghost use Rattle.std.specs.Str.Parse.{digits_value, starts_with_minus, without_leading_sign};
ghost use Rattle.arrayvec.specs.ArrayString.{array_string_len};
ghost use Rattle.fixed_num.specs.Units.{one, limit, IsWithinLimit};
ghost use Rattle.fixed_num.specs.UnitsText.{decimals, fraction_text, size_text, units_text, is_dot, is_numeral, size_by, size_within, size_read, units_read};

use crate::rounding;
use crate::text::Text;
use crate::units::{LIMIT, NumberFault, ONE, Units};
use arrayvec::ArrayString;

/// The most bytes that the text of a number has: a sign, 39 digits, a dot and seven decimals.
const TEXT_SIZE: usize = 48;

/// The most decimals of a number.
const PLACES: u32 = 7;

fn push_digit(text: &mut ArrayString<TEXT_SIZE>, digit: u32)
    requires below { digit < 10 }
    requires room { array_string_len text.old < 48 }
    ensures { text.new.bytes ≡ text.old.bytes ++ (48 + digit) ∷ [] }
{
    text.push(char::from(b'0' + digit as u8));
}

/// Adds the decimals of a number of ten-millionths below one, up to the last that is not 0.
fn push_decimals(text: &mut ArrayString<TEXT_SIZE>, part: u32)
    requires below { part < one }
    requires room { array_string_len text.old + 7 ≤ 48 }
    ensures { text.new.bytes ≡ text.old.bytes ++ decimals 7 part }
{
    let mut rest = part;
    let mut places = PLACES;
    while rest > 0 {
        places -= 1;
        let place = 10u32.pow(places);
        push_digit(text, rest / place);
        rest %= place;
    }
}

/// Adds the digits of a size and its decimals.
fn push_size(text: &mut ArrayString<TEXT_SIZE>, size: u128)
    requires { array_string_len text.old ≤ 1 }
    ensures { text.new.bytes ≡ text.old.bytes ++ size_text size }
{
    text.push_str(itoa::Buffer::new().format(size / ONE));
    let part = (size % ONE) as u32;
    if part > 0 {
        text.push('.');
        push_decimals(text, part);
    }
}

/// Adds the exact text of a number of ten-millionths: its sign, its digits, and after a dot up to
/// seven decimals, the last of which is not 0. After an `Err` the text is as before.
#[tactic(auto, using(crate::proofs::ReadsBack::reads_back))]
pub fn write_units(out: &mut Text, u: Units) -> Result<(), NumberFault>
    ensures ok { OnOk result (out.new ≡ out.old ++ units_text u) }
    ensures err { OnErr result (out.new ≡ out.old) }
    ensures memory { IsOkUnless result NumberFault.Memory }

    // What is written of a number within the limit is read as that number.
    ensures reads_back { IsWithinLimit u → units_read (units_text u) ≡ Ok u }
{
    let mut text = ArrayString::<TEXT_SIZE>::new();
    if u < 0 {
        text.push('-');
    }
    push_size(&mut text, u.unsigned_abs());
    out.push_str(text.as_str()).map_err(|_| NumberFault::Memory)
}

/// Whether a text begins with a minus, and what follows its sign.
fn split_sign(text: &[u8]) -> (bool, &[u8])
    ensures minus { result.0 ≡ starts_with_minus text.now }
    ensures body { result.1.now ≡ without_leading_sign text.now }
{
    match text {
        [b'-', body @ ..] => (true, body),
        [b'+', body @ ..] => (false, body),
        _ => (false, text),
    }
}

/// The number that digits are, or the largest of 128 bits where it is above that. `None` where a byte
/// is no digit, or none is there.
pub fn read_digits(bytes: &[u8]) -> Option<u128>
    ensures { result ≡ (if is_numeral bytes.now
        then Some (min (digits_value 10 bytes.now) (2 ^ 128 - 1)) else None) }
{
    if bytes.is_empty() {
        return None;
    }
    let mut value = 0u128;
    for byte in bytes {
        if !byte.is_ascii_digit() {
            return None;
        }
        value = value
            .saturating_mul(10)
            .saturating_add(u128::from(*byte - b'0'));
    }
    Some(value)
}

fn dot_place(body: &[u8]) -> Option<usize>
    ensures { result ≡ position is_dot body.now }
{
    body.iter().position(|byte| *byte == b'.')
}

/// The number of ten-millionths of a whole number and of so many decimals.
fn size_within(whole: u128, part: u128, places: usize) -> Result<u128, NumberFault>
    requires { places ≤ 7 → part < 10 ^ places }
    ensures { result ≡ size_within whole part places }
{
    if places > PLACES as usize {
        return Err(NumberFault::TooWide);
    }
    let part = part * 10u128.pow(PLACES - places as u32);
    let size = whole.saturating_mul(ONE).saturating_add(part);
    if size > LIMIT.unsigned_abs() {
        Err(NumberFault::TooWide)
    } else {
        Ok(size)
    }
}

/// The size by the digits of its whole part and of its decimals.
fn read_parts(whole: &[u8], part: &[u8]) -> Result<u128, NumberFault>
    ensures { result ≡ size_by true whole.now part.now }
{
    match (read_digits(whole), read_digits(part)) {
        (Some(number), Some(decimals)) => size_within(number, decimals, part.len()),
        _ => Err(NumberFault::NotANumber),
    }
}

/// The size by its digits alone.
fn read_whole(whole: &[u8]) -> Result<u128, NumberFault>
    ensures { result ≡ size_by false whole.now [] }
{
    match read_digits(whole) {
        Some(number) => size_within(number, 0, 0),
        None => Err(NumberFault::NotANumber),
    }
}

/// The number of ten-millionths that a text without a sign is.
fn read_size(body: &[u8]) -> Result<u128, NumberFault>
    ensures { result ≡ size_read body.now }
{
    match dot_place(body) {
        Some(dot) => read_parts(&body[..dot], &body[dot + 1..]),
        None => read_whole(body),
    }
}

/// The number of ten-millionths that a text is: an optional sign, digits, and an optional dot with at
/// most seven digits. `NotANumber` where it has another form, else `TooWide` where it has more
/// decimals or is beyond the limit.
pub fn read_units(text: &[u8]) -> Result<Units, NumberFault>
    ensures value { result ≡ units_read text.now }
    ensures within { IfOk result IsWithinLimit }
{
    let (negative, body) = split_sign(text);
    let size = read_size(body)?;
    Ok(rounding::signed(negative, size))
}
