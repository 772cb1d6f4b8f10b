//! The lines that points are told by.
ghost use Rattle.std.specs.Prelude.{◌≡◌, ◌<◌, ◌++◌, length, string_bytes, codes, IfOk, OnOk};
ghost use Rattle.std.specs.List.{flat_map};
ghost use Rattle.point_lines.specs.Told.{mark, value_text, word_text, point_line, series_line};

use beat_points::SeriesWord;
use chart_registry::Registry;
use fixed_num::{Text, write_units};
use std::alloc::{AllocError, Global};
use std::fmt::Write;
use storage_number::{Point, unpack};

/// Adds a mark, where it is set.
fn push_mark(text: &mut Text, set: bool, letter: &str) -> Result<(), AllocError>
    ensures { OnOk result (text.new ≡ text.old ++ mark set letter.now) }
{
    if set { text.push_str(letter) } else { Ok(()) }
}

/// The text of a value and its marks.
fn value_text(alloc: Global, point: &Point) -> Result<Text, AllocError>
    ensures { IfOk result (λ text. text ≡ value_text point.now) }
{
    let mut text = Text::new(alloc);
    write_units(&mut text, point.units).map_err(|_| AllocError)?;
    push_mark(&mut text, point.anomalous, " A")?;
    push_mark(&mut text, point.reset, " R")?;
    Ok(text)
}

/// The text of a word's value, or the empty text where it stands for none.
fn word_text(alloc: Global, word: u32) -> Result<Text, AllocError>
    ensures { IfOk result (λ text. text ≡ word_text word) }
{
    match unpack(word) {
        Some(point) => value_text(alloc, &point),
        None => Ok(Text::new(alloc)),
    }
}

/// Adds the line of a point of a dimension.
fn push_point(
    alloc: Global,
    out: &mut String,
    moment: u32,
    chart: &str,
    dimension: &str,
    word: u32,
) -> Result<(), AllocError>
    ensures { OnOk result (string_bytes out.new
        ≡ string_bytes out.old ++ point_line moment chart.now dimension.now word) }
{
    let value = word_text(alloc, word)?;
    writeln!(out, "{moment} {chart} {dimension} {}", value.as_str())
}

/// Adds the line of a series' point.
fn push_series(
    alloc: Global,
    out: &mut String,
    registry: &Registry,
    moment: u32,
    point: SeriesWord,
) -> Result<(), AllocError>
    ensures { OnOk result (string_bytes out.new
        ≡ string_bytes out.old ++ series_line registry.now moment point) }
{
    if point.series >= registry.dimensions() {
        return Ok(());
    }
    let chart = registry.chart(registry.owner(point.series));
    let dimension = registry.dimension(point.series);
    push_point(
        alloc,
        out,
        moment,
        chart.id.as_str(),
        dimension.id.as_str(),
        point.word,
    )
}

/// Adds the lines of the points of a beat, one each, in their order.
pub(crate) fn push_points(
    alloc: Global,
    out: &mut String,
    registry: &Registry,
    moment: u32,
    points: &[SeriesWord],
) -> Result<(), AllocError>
    ensures { OnOk result (string_bytes out.new
        ≡ string_bytes out.old ++ flat_map (series_line registry.now moment) points.now) }
{
    for point in points {
        push_series(alloc, out, registry, moment, *point)?;
    }
    Ok(())
}
