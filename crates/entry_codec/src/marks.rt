//! The algorithm and the marks of a dimension, each as a byte.

ghost use Rattle.std.specs.Prelude.{◌≡◌, ◌++◌, Ok, Err, IfOk, IfErr, OnOk, IsOkUnless};
ghost use Rattle.field_codec.specs.Lists.{IsRefusal};
ghost use Rattle.entry_codec.specs.Dimensions.{algorithm_bytes, read_algorithm, marks_bytes, read_marks};

use field_codec::{FieldFault, Reader, Writer};
use history::Algorithm;

#[tactic(auto, unfolding(crate::specs::Dimensions::algorithm_bytes))]
pub(crate) fn put_algorithm(algorithm: Algorithm, writer: &mut Writer) -> Result<(), FieldFault>
    ensures put { OnOk result (writer.new ≡ writer.old ++ algorithm_bytes algorithm) }
    ensures memory { IsOkUnless result FieldFault.Memory }
{
    let number = match algorithm {
        Algorithm::Absolute => 0,
        Algorithm::Incremental => 1,
        Algorithm::PercentageOfAbsoluteRow => 2,
        Algorithm::PercentageOfIncrementalRow => 3,
    };
    writer.put_u8(number)
}

#[tactic(auto, unfolding(crate::specs::Dimensions::read_algorithm))]
pub(crate) fn take_algorithm(reader: &mut Reader<'_>) -> Result<Algorithm, FieldFault>
    ensures taken { IfOk result
        (λ algorithm. read_algorithm reader.old ≡ Ok (algorithm, reader.new)) }
    ensures fault { IfErr result (IsRefusal (read_algorithm reader.old)) }
{
    match reader.take_u8()? {
        0 => Ok(Algorithm::Absolute),
        1 => Ok(Algorithm::Incremental),
        2 => Ok(Algorithm::PercentageOfAbsoluteRow),
        3 => Ok(Algorithm::PercentageOfIncrementalRow),
        _ => Err(FieldFault::Range),
    }
}

/// Puts whether a dimension is hidden, and whether it has no resets.
#[tactic(auto, unfolding(crate::specs::Dimensions::marks_bytes))]
pub(crate) fn put(hidden: bool, noreset: bool, writer: &mut Writer) -> Result<(), FieldFault>
    ensures put { OnOk result (writer.new ≡ writer.old ++ marks_bytes (hidden, noreset)) }
    ensures memory { IsOkUnless result FieldFault.Memory }
{
    let number = match (hidden, noreset) {
        (false, false) => 0,
        (true, false) => 1,
        (false, true) => 2,
        (true, true) => 3,
    };
    writer.put_u8(number)
}

#[tactic(auto, unfolding(crate::specs::Dimensions::read_marks))]
pub(crate) fn take(reader: &mut Reader<'_>) -> Result<(bool, bool), FieldFault>
    ensures taken { IfOk result
        (λ marks. read_marks reader.old ≡ Ok ((marks.0, marks.1), reader.new)) }
    ensures fault { IfErr result (IsRefusal (read_marks reader.old)) }
{
    match reader.take_u8()? {
        0 => Ok((false, false)),
        1 => Ok((true, false)),
        2 => Ok((false, true)),
        3 => Ok((true, true)),
        _ => Err(FieldFault::Range),
    }
}
