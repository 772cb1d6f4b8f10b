ghost use Rattle.std.specs.Prelude.{◌≡◌, Ok, IfOk, IfErr};
ghost use Rattle.plugin_text.specs.Answer.{IsFaultFor};
ghost use Rattle.plugin_text.specs.Block.{begin, set, set_value, moment};
ghost use Rattle.plugin_text.specs.Fields.{field, texts};

use crate::fault::LineFault;
use crate::fields::{Fields, field};
use crate::id::{chart_part, check_dimension_id};
use crate::number::{number_within, value};
use fixed_num::Text;
use history::Line;
use std::alloc::Global;

/// The latest moment, in seconds.
pub const MOMENT_LIMIT: i64 = 4_294_967_295;

/// Reads the words of a BEGIN line. The word behind the id is not read.
pub fn read_begin(alloc: Global, fields: &Fields) -> Result<Line, LineFault>
    ensures line { IfOk result (λ line. begin (texts fields.now.items) ≡ Ok line) }
    ensures fault { IfErr result (IsFaultFor (begin (texts fields.now.items))) }
{
    let id = field(fields, 0);
    chart_part(id)?;
    let chart = Text::from_str(alloc, id)?;
    Ok(Line::Begin(chart))
}

/// Reads the words of a SET line.
pub fn read_set(alloc: Global, fields: &Fields) -> Result<Line, LineFault>
    ensures line { IfOk result (λ line. set (texts fields.now.items) ≡ Ok line) }
    ensures fault { IfErr result (IsFaultFor (set (texts fields.now.items))) }
{
    let id = field(fields, 0);
    check_dimension_id(id)?;
    let value = set_value(field(fields, 1))?;
    let anomalous = field(fields, 2) == "A";
    let id = Text::from_str(alloc, id)?;
    Ok(Line::Set {
        id,
        value,
        anomalous,
    })
}

/// The value of a dimension, or `None` where the word is missing or empty.
fn set_value(word: &str) -> Result<Option<i64>, LineFault>
    ensures { result ≡ set_value word.now }
{
    if word.is_empty() {
        return Ok(None);
    }
    let value = value(word)?;
    Ok(Some(value))
}

/// Reads the words of a MOMENT line.
pub fn read_moment(fields: &Fields) -> Result<Line, LineFault>
    ensures { result ≡ moment (texts fields.now.items) }
{
    let word = field(fields, 0);
    if word.is_empty() {
        return Err(LineFault::MissingWord);
    }
    let moment = number_within(word, 1, MOMENT_LIMIT)?;
    Ok(Line::Moment(moment as u32))
}
