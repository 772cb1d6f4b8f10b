//! A value as its kind, and its number where it has one.
ghost use Rattle.std.specs.Prelude.{◌≡◌, ◌++◌, ◌↔◌, Ok, Err, IsTrue, IfOk, IfErr, OnOk, IsOkUnless};
ghost use Rattle.field_codec.specs.Lists.{IsRefusal};
ghost use Rattle.health_expr.specs.Value.{IsWithin};
ghost use Rattle.alarm_events.specs.Values.{value_bytes, read_value, read_fixed, is_within, IsSpelledValue};

use field_codec::{FieldFault, Reader, Writer};
use fixed_num::{LIMIT, Units};
use health_expr::Value;

#[tactic(auto, unfolding(crate::specs::Values::value_bytes))]
pub(crate) fn put(value: Value, writer: &mut Writer) -> Result<(), FieldFault>
    requires { IsWithin value }
    ensures put { OnOk result (writer.new ≡ writer.old ++ value_bytes value) }
    ensures value { OnOk result (IsSpelledValue value) }
    ensures memory { IsOkUnless result FieldFault.Memory }
{
    match value {
        Value::Nan => writer.put_u8(0),
        Value::Inf(false) => writer.put_u8(1),
        Value::Inf(true) => writer.put_u8(2),
        Value::Fixed(units) => {
            writer.put_u8(3)?;
            writer.put_i128(units)
        }
    }
}

/// Whether a number is within the limit.
fn is_within(units: Units) -> bool
    ensures { result ≡ is_within units }
{
    units.unsigned_abs() <= LIMIT.unsigned_abs()
}

/// Whether a value is within the limit of expressions.
pub(crate) fn is_short(value: Value) -> bool
    ensures short { IsTrue result ↔ IsWithin value }
    ensures value { IsTrue result ↔ IsSpelledValue value }
{
    match value {
        Value::Nan | Value::Inf(_) => true,
        Value::Fixed(units) => is_within(units),
    }
}

#[tactic(auto, unfolding(crate::specs::Values::read_fixed))]
fn take_fixed(reader: &mut Reader<'_>) -> Result<Value, FieldFault>
    ensures taken { IfOk result (λ value. read_fixed reader.old ≡ Ok (value, reader.new)) }
    ensures fault { IfErr result (IsRefusal (read_fixed reader.old)) }
{
    let units = reader.take_i128()?;
    if !is_within(units) {
        return Err(FieldFault::Range);
    }
    Ok(Value::Fixed(units))
}

#[tactic(auto, unfolding(crate::specs::Values::read_value))]
pub(crate) fn take(reader: &mut Reader<'_>) -> Result<Value, FieldFault>
    ensures taken { IfOk result (λ value. read_value reader.old ≡ Ok (value, reader.new)) }
    ensures fault { IfErr result (IsRefusal (read_value reader.old)) }
{
    match reader.take_u8()? {
        0 => Ok(Value::Nan),
        1 => Ok(Value::Inf(false)),
        2 => Ok(Value::Inf(true)),
        3 => take_fixed(reader),
        _ => Err(FieldFault::Range),
    }
}
