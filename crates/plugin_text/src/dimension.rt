ghost use Rattle.std.specs.Prelude.{◌≡◌, Ok, IfOk, IfErr};
ghost use Rattle.plugin_text.specs.Answer.{IsFaultFor};
ghost use Rattle.plugin_text.specs.Dimension.{dimension, dimension_def, algorithm_of, factor, is_noreset};
ghost use Rattle.plugin_text.specs.Fields.{field, texts};

use crate::fault::LineFault;
use crate::fields::{Fields, field, keep_field_or};
use crate::id::check_dimension_id;
use crate::number::number_within;
use crate::text::has_option;
use fixed_num::Text;
use history::{Algorithm, DimDef, FACTOR_LIMIT, Line};
use std::alloc::{AllocError, Global};

/// Reads the words of a DIMENSION line.
pub fn read_dimension(alloc: Global, fields: &Fields) -> Result<Line, LineFault>
    ensures line { IfOk result (λ line. dimension (texts fields.now.items) ≡ Ok line) }
    ensures fault { IfErr result (IsFaultFor (dimension (texts fields.now.items))) }
{
    check_dimension_id(field(fields, 0))?;
    let multiplier = factor(field(fields, 3))?;
    let divisor = factor(field(fields, 4))?;
    let dimension = keep_dimension(alloc, fields, multiplier, divisor)?;
    Ok(Line::Dimension(dimension))
}

fn keep_dimension(
    alloc: Global,
    fields: &Fields,
    multiplier: i32,
    divisor: i32,
) -> Result<DimDef, AllocError>
    ensures { IfOk result (λ dimension. dimension
        ≡ dimension_def (texts fields.now.items) multiplier divisor) }
{
    let id = field(fields, 0);
    let options = field(fields, 5);
    Ok(DimDef {
        id: Text::from_str(alloc, id)?,
        name: keep_field_or(alloc, id, fields, 1)?,
        algorithm: algorithm_of(field(fields, 2)),
        multiplier,
        divisor,
        hidden: has_option("hidden", options),
        noreset: is_noreset(options),
    })
}

fn is_noreset(options: &str) -> bool
    ensures { result ≡ is_noreset options.now }
{
    has_option("noreset", options) || has_option("nooverflow", options)
}

fn algorithm_of(word: &str) -> Algorithm
    ensures { result ≡ algorithm_of word.now }
{
    match word {
        "incremental" => Algorithm::Incremental,
        "percentage-of-absolute-row" => Algorithm::PercentageOfAbsoluteRow,
        "percentage-of-incremental-row" => Algorithm::PercentageOfIncrementalRow,
        _ => Algorithm::Absolute,
    }
}

/// A multiplier or a divisor.
fn factor(word: &str) -> Result<i32, LineFault>
    ensures { result ≡ factor word.now }
{
    if word.is_empty() {
        return Ok(1);
    }
    let limit = i64::from(FACTOR_LIMIT);
    let factor = number_within(word, -limit, limit)?;
    Ok(if factor == 0 { 1 } else { factor as i32 })
}
