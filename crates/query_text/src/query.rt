ghost use Rattle.std.specs.Prelude.{◌≡◌, ◌<◌, ◌≤◌, length, ◌++◌, [], ◌∷◌, All, Ok, IfOk, IfErr, OnOk};
ghost use Rattle.chart_registry.specs.Defining.{chart_id};
ghost use Rattle.query_text.specs.Asked.{words_read, chart_read, request_read, query_read};
ghost use Rattle.query_text.specs.Fault.{IsFaultFor};

use crate::columns::read_columns;
use crate::fault::QueryFault;
use crate::group::read_group;
use crate::selection::read_pattern;
use crate::span::{MOST_WINDOWS, read_rows, read_span};
use chart_registry::Registry;
use fixed_num::{Text, WordsList};
use query_engine::Request;
use std::alloc::{AllocError, Global};
use words::Words;

/// Adds a copy of a word.
fn keep_word(alloc: Global, found: &mut WordsList, word: &str) -> Result<(), AllocError>
    ensures { OnOk result (found.new ≡ found.old ++ word.now ∷ []) }
{
    let word = Text::from_str(alloc, word)?;
    found.push(word)?;
    Ok(())
}

/// The words of a text.
fn read_words(alloc: Global, text: &str) -> Result<WordsList, QueryFault>
    ensures words { IfOk result (λ found. words_read text.now ≡ Ok found) }
    ensures fault { IfErr result (IsFaultFor (words_read text.now)) }
{
    let mut found = WordsList::new(alloc);
    let mut line = Words::new(text);
    while let Some(word) = line.next_word()? {
        keep_word(alloc, &mut found, word)?;
    }
    Ok(found)
}

/// The number of a chart.
fn read_chart(registry: &Registry, id: &str) -> Result<u32, QueryFault>
    ensures value { result ≡ chart_read registry.now id.now }
    ensures id { IfOk result (λ number. chart_id registry.now number ≡ id.now) }
    ensures within { IfOk result (λ number. number < length registry.now.charts) }
{
    registry.chart_of(id).ok_or(QueryFault::NoChart)
}

/// Reads what the words of a query ask.
fn read_request(alloc: Global, registry: &Registry, words: &[Text]) -> Result<Request, QueryFault>
    ensures request { IfOk result (λ request. request_read registry.now words.now ≡ Ok request) }
    ensures fault { IfErr result (IsFaultFor (request_read registry.now words.now)) }
    ensures within { IfOk result
        (λ request. All (λ series. series < length registry.now.dimensions) request.series) }
    ensures window { IfOk result (λ request. 0 < request.window) }
    ensures few { IfOk result (λ request. request.rows ≤ MOST_WINDOWS) }
{
    let [chart, after, before, window, group, given @ ..] = words else {
        return Err(QueryFault::BadWord);
    };
    let pattern = read_pattern(alloc, given)?;
    let span = read_span(after.as_str(), before.as_str(), window.as_str())?;
    let chart = read_chart(registry, chart.as_str())?;
    let group = read_group(group.as_str())?;
    let rows = read_rows(span)?;
    let series = read_columns(alloc, registry, chart, &pattern)?;
    Ok(Request {
        series,
        after: span.after,
        window: span.window,
        rows,
        group,
    })
}

/// Reads the text of a query, `chart after before window group` and the words of a pattern.
///
/// The words are cut at blanks and `=`, with quotes. `after` and `before` are moments, 0 to
/// 4,294,967,295, and `window` is a number of seconds, 1 to 4,294,967,295; a number has a sign or none.
/// A group is `average`, `min`, `max`, `sum`, `count` or `anomaly-rate`. The words of the pattern are
/// joined by blanks and then cut at them; where none are given it is `*`. It chooses from the chart's
/// dimensions that are not hidden, by id or name. There is a row for each window that starts below
/// `before`, and none where `before` is not above `after`.
pub fn read_query(alloc: Global, text: &str, registry: &Registry) -> Result<Request, QueryFault>
    ensures request { IfOk result (λ request. query_read registry.now text.now ≡ Ok request) }
    ensures fault { IfErr result (IsFaultFor (query_read registry.now text.now)) }

    // What the request asks of is there, and it asks for a table that can be given.
    ensures within { IfOk result
        (λ request. All (λ series. series < length registry.now.dimensions) request.series) }
    ensures window { IfOk result (λ request. 0 < request.window) }
    ensures few { IfOk result (λ request. request.rows ≤ MOST_WINDOWS) }
{
    let words = read_words(alloc, text)?;
    read_request(alloc, registry, words.as_slice())
}
