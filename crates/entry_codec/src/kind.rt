//! How a chart is drawn, as a byte.

ghost use Rattle.std.specs.Prelude.{◌≡◌, ◌++◌, Ok, Err, IfOk, IfErr, OnOk, IsOkUnless};
ghost use Rattle.field_codec.specs.Lists.{IsRefusal};
ghost use Rattle.entry_codec.specs.Charts.{kind_bytes, read_kind};

use field_codec::{FieldFault, Reader, Writer};
use history::ChartKind;

#[tactic(auto, unfolding(crate::specs::Charts::kind_bytes))]
pub(crate) fn put(kind: ChartKind, writer: &mut Writer) -> Result<(), FieldFault>
    ensures put { OnOk result (writer.new ≡ writer.old ++ kind_bytes kind) }
    ensures memory { IsOkUnless result FieldFault.Memory }
{
    let number = match kind {
        ChartKind::Line => 0,
        ChartKind::Area => 1,
        ChartKind::Stacked => 2,
    };
    writer.put_u8(number)
}

#[tactic(auto, unfolding(crate::specs::Charts::read_kind))]
pub(crate) fn take(reader: &mut Reader<'_>) -> Result<ChartKind, FieldFault>
    ensures taken { IfOk result (λ kind. read_kind reader.old ≡ Ok (kind, reader.new)) }
    ensures fault { IfErr result (IsRefusal (read_kind reader.old)) }
{
    match reader.take_u8()? {
        0 => Ok(ChartKind::Line),
        1 => Ok(ChartKind::Area),
        2 => Ok(ChartKind::Stacked),
        _ => Err(FieldFault::Range),
    }
}
