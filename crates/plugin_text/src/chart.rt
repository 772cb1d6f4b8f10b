ghost use Rattle.std.specs.Prelude.{◌≡◌, pos, Ok, Err, IfOk, IfErr};
ghost use Rattle.std.specs.List.{after_first};
ghost use Rattle.history.specs.Limits.{is_dot};
ghost use Rattle.plugin_text.specs.Answer.{IsFaultFor};
ghost use Rattle.plugin_text.specs.Chart.{chart, chart_def, chart_kind, priority, update_every};
ghost use Rattle.plugin_text.specs.Fields.{field, texts};

use crate::fault::LineFault;
use crate::fields::{Fields, field, keep_field, keep_field_or};
use crate::id::chart_part;
use crate::number::{number, number_within};
use crate::text::has_option;
use fixed_num::Text;
use history::{ChartDef, ChartKind, Line, UPDATE_EVERY_LIMIT, USUAL_PRIORITY};
use std::alloc::{AllocError, Global};

/// Those parts of a chart's definition that may be refused.
#[derive(Debug, Drop)]
pub struct ChartHead<'a> {
    /// The part of the id behind its first dot.
    part: &'a str,
    priority: i64,
    update_every: u32,
}

/// Reads the words of a CHART line.
pub fn read_chart(alloc: Global, fields: &Fields) -> Result<Line, LineFault>
    ensures line { IfOk result (λ line. chart (texts fields.now.items) ≡ Ok line) }
    ensures fault { IfErr result (IsFaultFor (chart (texts fields.now.items))) }
{
    let head = chart_head(fields)?;
    let chart = keep_chart(alloc, fields, &head)?;
    Ok(Line::Chart(chart))
}

fn chart_head<'a>(fields: &Fields<'a>) -> Result<ChartHead<'a>, LineFault>
    ensures head { IfOk result (λ head. chart (texts fields.now.items) ≡ Ok (Line.Chart
        (chart_def (texts fields.now.items) head.priority (pos head.update_every)))) }
    ensures part { IfOk result (λ head. head.part.now
        ≡ after_first is_dot (field 0 (texts fields.now.items))) }
    ensures fault { IfErr result (λ fault. chart (texts fields.now.items) ≡ Err fault) }
{
    if fields.len() < 4 {
        return Err(LineFault::MissingWord);
    }
    let part = chart_part(field(fields, 0))?;
    let priority = priority(field(fields, 7))?;
    let update_every = update_every(field(fields, 8))?;
    Ok(ChartHead {
        part,
        priority,
        update_every,
    })
}

fn keep_chart(alloc: Global, fields: &Fields, head: &ChartHead) -> Result<ChartDef, AllocError>
    requires { head.now.part.now ≡ after_first is_dot (field 0 (texts fields.now.items)) }
    ensures { IfOk result (λ chart. chart
        ≡ chart_def (texts fields.now.items) head.now.priority (pos head.now.update_every)) }
{
    let id = field(fields, 0);
    Ok(ChartDef {
        id: Text::from_str(alloc, id)?,
        name: keep_field_or(alloc, head.part, fields, 1)?,
        title: keep_field(alloc, fields, 2)?,
        units: keep_field(alloc, fields, 3)?,
        family: keep_field_or(alloc, head.part, fields, 4)?,
        context: keep_field_or(alloc, id, fields, 5)?,
        kind: chart_kind(field(fields, 6)),
        priority: head.priority,
        update_every: head.update_every,
        store_first: has_option("store_first", field(fields, 9)),
    })
}

fn chart_kind(word: &str) -> ChartKind
    ensures { result ≡ chart_kind word.now }
{
    match word {
        "area" => ChartKind::Area,
        "stacked" => ChartKind::Stacked,
        _ => ChartKind::Line,
    }
}

fn priority(word: &str) -> Result<i64, LineFault>
    ensures { result ≡ priority word.now }
{
    if word.is_empty() {
        Ok(USUAL_PRIORITY)
    } else {
        number(word)
    }
}

fn update_every(word: &str) -> Result<u32, LineFault>
    ensures seconds { IfOk result (λ seconds. update_every word.now ≡ Ok (pos seconds)) }
    ensures fault { IfErr result (λ fault. update_every word.now ≡ Err fault) }
{
    if word.is_empty() {
        return Ok(0);
    }
    let seconds = number_within(word, 0, i64::from(UPDATE_EVERY_LIMIT))?;
    Ok(seconds as u32)
}
