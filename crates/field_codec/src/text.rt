//! Texts as fields.
ghost use Rattle.std.specs.Prelude.{◌≡◌, ◌<◌, ◌^◌, ◌++◌, ◌↔◌, length, Ok, Err, IsTrue, IfOk, IfErr, OnOk, IsOkUnless};
ghost use Rattle.field_codec.specs.Lists.{IsRefusal, IsText};
ghost use Rattle.field_codec.specs.Reading.{read_text};
ghost use Rattle.field_codec.specs.Spelling.{text_bytes};

use crate::fault::FieldFault;
use crate::reader::Reader;
use crate::writer::Writer;
use fixed_num::Text;
use std::alloc::Global;

/// Whether a text has a spelling: it has at most 65,535 bytes.
pub fn is_short(text: &Text) -> bool
    ensures short { IsTrue result ↔ (length text.now < 2 ^ 16) }
    ensures text { IsTrue result ↔ IsText text.now }
{
    let text = text.as_str();
    text.len() <= usize::from(u16::MAX)
}

/// Writes the spelling of a text behind what is there. `Memory` where none is left.
pub fn put(text: &Text, writer: &mut Writer) -> Result<(), FieldFault>
    requires { length text.now < 2 ^ 16 }
    ensures put { OnOk result (writer.new ≡ writer.old ++ text_bytes text.now) }
    ensures text { OnOk result (IsText text.now) }
    ensures memory { IsOkUnless result FieldFault.Memory }
{
    writer.put_text(text.as_str())
}

/// Reads a text of the bytes ahead. `Short` or `NotText` where none stands there, `Memory` where none is left.
pub fn take(alloc: Global, reader: &mut Reader<'_>) -> Result<Text, FieldFault>
    ensures taken { IfOk result (λ text. read_text reader.old ≡ Ok (text, reader.new)) }
    ensures fault { IfErr result (IsRefusal (read_text reader.old)) }
{
    match reader.take_text() {
        Ok(text) => Ok(Text::from_str(alloc, text)?),
        Err(fault) => Err(fault),
    }
}
