//! How long the changes of an alarm wait, and that as bytes.
ghost use Rattle.std.specs.Prelude.{◌≡◌, ◌++◌, IsTrue, Ok, Err, IfOk, IfErr, OnOk, IsOkUnless};
ghost use Rattle.field_codec.specs.Lists.{IsRefusal};
ghost use Rattle.alarm_events.specs.Delays.{delay_bytes, parts_bytes, read_delay, IsSpelledDelay};

use field_codec::{FieldFault, Reader, Writer};

/// How long the changes of an alarm wait until they are told, as they grew so far.
#[derive(Clone, Copy, Debug, PartialEq, Eq)]
pub struct Delay {
    /// How many seconds a rise waits.
    pub up: u32,
    /// How many seconds a fall waits.
    pub down: u32,
    /// Until when the last change waits. A change up to this moment waits longer than the one before.
    pub due: u32,
}

fn put_parts(
    there: bool,
    up: u32,
    down: u32,
    due: u32,
    writer: &mut Writer,
) -> Result<(), FieldFault>
    ensures put { OnOk result (writer.new ≡ writer.old ++ parts_bytes (((there, up), down), due)) }
    ensures memory { IsOkUnless result FieldFault.Memory }
{
    writer.put_flag(there)?;
    writer.put_u32(up)?;
    writer.put_u32(down)?;
    writer.put_u32(due)
}

#[tactic(auto, unfolding(crate::specs::Delays::delay_bytes))]
pub(crate) fn put(delay: Option<Delay>, writer: &mut Writer) -> Result<(), FieldFault>
    ensures put { OnOk result (writer.new ≡ writer.old ++ delay_bytes delay) }
    ensures delay { OnOk result (IsSpelledDelay delay) }
    ensures memory { IsOkUnless result FieldFault.Memory }
{
    match delay {
        Some(delay) => put_parts(true, delay.up, delay.down, delay.due, writer),
        None => put_parts(false, 0, 0, 0, writer),
    }
}

/// A delay has a spelling: a number that is read is in the range of its type.
pub(crate) fn is_short(delay: Option<Delay>) -> bool
    ensures always { IsTrue result }
    ensures delay { IsSpelledDelay delay }
{
    if let Some(delay) = delay {
        let (_up, _down, _due) = (delay.up, delay.down, delay.due);
    }
    true
}

#[tactic(auto, unfolding(crate::specs::Delays::read_delay))]
pub(crate) fn take(reader: &mut Reader<'_>) -> Result<Option<Delay>, FieldFault>
    ensures taken { IfOk result (λ delay. read_delay reader.old ≡ Ok (delay, reader.new)) }
    ensures fault { IfErr result (IsRefusal (read_delay reader.old)) }
{
    let there = reader.take_flag()?;
    let up = reader.take_u32()?;
    let down = reader.take_u32()?;
    let due = reader.take_u32()?;
    match (there, up, down, due) {
        (true, _, _, _) => Ok(Some(Delay { up, down, due })),
        (false, 0, 0, 0) => Ok(None),
        (false, _, _, _) => Err(FieldFault::Range),
    }
}
