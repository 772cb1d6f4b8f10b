//! A status as a byte.
ghost use Rattle.std.specs.Prelude.{◌≡◌, ◌++◌, Ok, Err, IfOk, IfErr, OnOk, IsOkUnless};
ghost use Rattle.field_codec.specs.Lists.{IsRefusal};
ghost use Rattle.alarm_events.specs.Statuses.{status_bytes, read_status};

use crate::status::Status;
use field_codec::{FieldFault, Reader, Writer};

#[tactic(auto, unfolding(crate::specs::Statuses::status_bytes))]
pub(crate) fn put(status: Status, writer: &mut Writer) -> Result<(), FieldFault>
    ensures put { OnOk result (writer.new ≡ writer.old ++ status_bytes status) }
    ensures memory { IsOkUnless result FieldFault.Memory }
{
    writer.put_u8(status.number())
}

#[tactic(auto, unfolding(crate::specs::Statuses::read_status))]
pub(crate) fn take(reader: &mut Reader<'_>) -> Result<Status, FieldFault>
    ensures taken { IfOk result (λ status. read_status reader.old ≡ Ok (status, reader.new)) }
    ensures fault { IfErr result (IsRefusal (read_status reader.old)) }
{
    let number = reader.take_u8()?;
    match Status::of(number) {
        Some(status) => Ok(status),
        None => Err(FieldFault::Range),
    }
}
