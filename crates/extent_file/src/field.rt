ghost use Rattle.std.specs.Prelude.{◌↔◌, ℕ, ◌+◌, ◌*◌, ◌^◌, ◌<◌, ◌≤◌, length, IsTrue, IfOk, IfErr};
ghost use Rattle.byteorder.specs.Endian.{little_number};
ghost use Rattle.extent_file.specs.Fields.{IsField, IsAllowed, IsValue, IsFirstWrong};
ghost use Rattle.extent_file.specs.Form.{Form, Next, GoesTo};

use byteorder::{ByteOrder, LittleEndian};

/// A field of a form: its width in bytes, from 1 to 8, and the least and the greatest of its values.
#[derive(Clone, Copy, Debug)]
pub(crate) struct Field {
    pub(crate) width: usize,
    pub(crate) low: u64,
    pub(crate) high: u64,
}

/// Whether some allowed value is a number and a multiple of this unit.
fn has_multiple(field: Field, number: u64, unit: u128) -> bool
    requires low { 0 < unit }
    requires high { unit ≤ 2 ^ 64 }
    ensures { IsTrue result ↔ ((more : ℕ) × IsAllowed field (number + unit * more)) }
{
    let missing = u128::from(field.low.saturating_sub(number));
    let more = (missing + (unit - 1)) / unit;
    u128::from(number) + unit * more <= u128::from(field.high)
}

/// The first byte at which no allowed value of the field goes on. The bytes have none, or end too early.
fn first_wrong(bytes: &[u8], field: Field) -> usize
    requires form { IsField field }
    requires wrong { field.width ≤ length bytes.now
        → ¬ IsAllowed field (little_number field.width bytes.now) }
    ensures { IsFirstWrong field bytes.now result }
{
    let mut unit = 1_u128;
    for place in 0..field.width.min(bytes.len()) {
        unit *= 256;
        let number = LittleEndian::read_uint(bytes, place + 1);
        if !has_multiple(field, number, unit) {
            return place;
        }
    }
    bytes.len()
}

/// The value of a field at the start of some bytes, or the first byte at which the field does not go on.
pub(crate) fn read_field(bytes: &[u8], field: Field) -> Result<u64, usize>
    requires { IsField field }
    ensures value { IfOk result (IsValue field bytes.now) }
    ensures wrong { IfErr result (IsFirstWrong field bytes.now) }
{
    if field.width <= bytes.len() {
        let value = LittleEndian::read_uint(bytes, field.width);
        if field.low <= value && value <= field.high {
            return Ok(value);
        }
    }
    Err(first_wrong(bytes, field))
}

/// The value of a field at a place of what was seen of a form, or the place at which the form does not go
/// on.
pub(crate) fn read_at(seen: &[u8], at: usize, field: Field) -> Result<u64, usize>
    requires form { IsField field }
    requires inside { at ≤ length seen.now }
    ensures value { IfOk result
        (λ value. IsAllowed field value × (at + field.width ≤ length seen.now)) }
    ensures reaches { IfErr result (λ place. place ≤ length seen.now) }
    ensures leads { (after : ℕ → Form)
        → GoesTo seen.now at (at + field.width) (Next field after) after result }
{
    match read_field(&seen[at..], field) {
        Ok(value) => Ok(value),
        Err(place) => Err(at + place),
    }
}
