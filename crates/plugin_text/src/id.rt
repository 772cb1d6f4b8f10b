ghost use Rattle.std.specs.Prelude.{◌≡◌, Ok, Err, IfOk, IfErr, OnOk};
ghost use Rattle.std.specs.List.{after_first};
ghost use Rattle.history.specs.Limits.{is_dot};
ghost use Rattle.plugin_text.specs.Id.{short_id, chart_id, dimension_id};

use crate::fault::LineFault;
use history::ID_LIMIT;

fn check_length(id: &str) -> Result<(), LineFault>
    ensures id { OnOk result (short_id id.now ≡ Ok id.now) }
    ensures fault { IfErr result (λ fault. short_id id.now ≡ Err fault) }
{
    if id.len() > ID_LIMIT {
        return Err(LineFault::LongId);
    }
    Ok(())
}

/// The part of a chart's id behind its first dot, or why the word is no such id.
pub fn chart_part(id: &str) -> Result<&str, LineFault>
    ensures id { OnOk result (chart_id id.now ≡ Ok id.now) }
    ensures part { IfOk result (λ part. part.now ≡ after_first is_dot id.now) }
    ensures fault { IfErr result (λ fault. chart_id id.now ≡ Err fault) }
{
    let Some((before, part)) = id.split_once('.') else {
        return Err(LineFault::MissingWord);
    };
    if before.is_empty() || part.is_empty() {
        return Err(LineFault::MissingWord);
    }
    check_length(id)?;
    Ok(part)
}

/// Tells why a word is no id of a dimension, if it is none.
pub fn check_dimension_id(id: &str) -> Result<(), LineFault>
    ensures id { OnOk result (dimension_id id.now ≡ Ok id.now) }
    ensures fault { IfErr result (λ fault. dimension_id id.now ≡ Err fault) }
{
    if id.is_empty() {
        return Err(LineFault::MissingWord);
    }
    check_length(id)
}
