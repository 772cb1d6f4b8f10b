//! A due moment that may be missing, as bytes.
ghost use Rattle.std.specs.Prelude.{◌≡◌, ◌++◌, IsTrue, Ok, Err, IfOk, IfErr, OnOk, IsOkUnless};
ghost use Rattle.field_codec.specs.Lists.{IsRefusal};
ghost use Rattle.alarm_events.specs.Dues.{due_bytes, read_due, IsSpelledDue};

use field_codec::{FieldFault, Reader, Writer};

#[tactic(auto, unfolding(crate::specs::Dues::due_bytes))]
pub(crate) fn put(due: Option<u32>, writer: &mut Writer) -> Result<(), FieldFault>
    ensures put { OnOk result (writer.new ≡ writer.old ++ due_bytes due) }
    ensures due { OnOk result (IsSpelledDue due) }
    ensures memory { IsOkUnless result FieldFault.Memory }
{
    match due {
        Some(moment) => {
            writer.put_flag(true)?;
            writer.put_u32(moment)
        }
        None => {
            writer.put_flag(false)?;
            writer.put_u32(0)
        }
    }
}

/// A due moment has a spelling: a number that is read is in the range of its type.
pub(crate) fn is_short(due: Option<u32>) -> bool
    ensures always { IsTrue result }
    ensures due { IsSpelledDue due }
{
    if let Some(moment) = due {
        let _moment = moment;
    }
    true
}

#[tactic(auto, unfolding(crate::specs::Dues::read_due))]
pub(crate) fn take(reader: &mut Reader<'_>) -> Result<Option<u32>, FieldFault>
    ensures taken { IfOk result (λ due. read_due reader.old ≡ Ok (due, reader.new)) }
    ensures fault { IfErr result (IsRefusal (read_due reader.old)) }
{
    let there = reader.take_flag()?;
    let moment = reader.take_u32()?;
    match (there, moment) {
        (true, _) => Ok(Some(moment)),
        (false, 0) => Ok(None),
        (false, _) => Err(FieldFault::Range),
    }
}
