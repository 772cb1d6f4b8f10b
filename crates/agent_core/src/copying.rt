//! What the message of a child defines, and what a store keeps of its beats.

ghost use Rattle.std.specs.Prelude.{◌≡◌, [], ◌++◌, ◌<◌, ◌≤◌, true, length, map, filter_map, All, Some, IfOk, OnOk};
ghost use Rattle.std.specs.List.{cons_option, AllByRecursion};
ghost use Rattle.std.specs.List.Sorted.{IsNonDecreasingBy, IsPermutation};
ghost use Rattle.history.specs.Limits.{chart_keeps_limits, dimension_keeps_limits};
ghost use Rattle.history.specs.Registry.{Registry as ARegistry, same_dimension, series_of};
ghost use Rattle.history.specs.Regular.{AreApart};
ghost use Rattle.beat_points.specs.Points.{AreRising};
ghost use Rattle.storage_number.specs.Word.{is_word};
ghost use Rattle.entry_codec.specs.declared.entry.Entry.TheVariants as entry;
ghost use Rattle.entry_codec.specs.Charts.{IsCopiedChart};
ghost use Rattle.entry_codec.specs.Dimensions.{IsCopiedDimension};
ghost use Rattle.entry_codec.specs.Entries.{entry_bytes, is_collected_canonical, HasSpelling, IsWithinLimits};
ghost use Rattle.entry_codec.specs.Words.{IsCopiedWord};
ghost use Rattle.store_core.specs.beats.Beats.{FitsARecord, InForm};
ghost use Rattle.beat_entries.specs.Copied.{told_chart, told_dimension};
ghost use Rattle.replication.specs.Verdict.{is_stored};
ghost use Rattle.link_frames.specs.DataForm.{has_rising_places, has_storage_numbers};
ghost use Rattle.link_frames.specs.DataForm.{AreApart as AreNamesApart};
ghost use Rattle.agent_core.specs.Copying.{beats_of, defined_chart, defined_dimension, definitions_in};
ghost use Rattle.agent_core.specs.Kept.{gap_entry};
ghost use Rattle.agent_core.specs.Notes.{names_series};
ghost use Rattle.agent_core.specs.Rules.{HasLimits};
ghost use Rattle.agent_core.specs.Storing.{defining, entry_word, named_series, sent_entry, sent_kept, series_named, series_word};

use crate::points::stored_points;
use beat_entries::{usual_chart, usual_dimension};
use beat_points::SeriesWord;
use chart_registry::Registry;
use entry_codec::{
    Copied, CopiedChart, CopiedChartList, CopiedDimension, CopiedDimensionList, CopiedWord,
    CopiedWordList, Entry, Gap, write_entry,
};
use fixed_num::Text;
use history::{
    ChartDef, ChartDefList, MOST_DIMENSIONS, NumberedChart, NumberedDimension, OpenBeat, OpenDim,
    OpenDimList, OpenRowList,
};
use replication::{
    Beat as SentBeat, ChartName, Data, DimName, Names, SeriesWord as SentWord, Verdict,
};
use std::alloc::{AllocError, Global};
use store_core::{Beat, BeatPointList};

/// Whether a message with this verdict is stored.
pub(crate) fn is_stored(verdict: Verdict) -> bool
    ensures { result ≡ is_stored verdict }
{
    match verdict {
        Verdict::Stored => true,
        Verdict::Old | Verdict::Ahead | Verdict::WrongChild { kept: _, came: _ } => false,
    }
}

/// How many beats a message adds where it is stored: the gap, if there is one, and its beats.
pub(crate) fn beats_in(message: &Data) -> u64
    ensures { (registry : ARegistry) → result ≡ length (beats_of registry message.now) }
{
    let beats = message.beats.as_slice();
    let count = beats.len() as u64;
    if message.prev < message.from {
        count + 1
    } else {
        count
    }
}

// ---- what its names define

fn defined_chart(alloc: Global, chart: &ChartName) -> Result<ChartDef, AllocError>
    ensures { IfOk result (λ def. def ≡ defined_chart chart.now) }
{
    usual_chart(alloc, &chart.id, &chart.context, chart.update_every)
}

fn defined_charts(alloc: Global, charts: &[ChartName]) -> Result<ChartDefList, AllocError>
    ensures { IfOk result (λ defs. defs ≡ map defined_chart charts.now) }
{
    let mut defs = ChartDefList::new(alloc);
    for chart in charts {
        defs.push(defined_chart(alloc, chart)?)?;
    }
    Ok(defs)
}

/// A dimension by the id of its chart, if that has a name.
fn defined_dimension(names: &Names, dimension: &DimName) -> Result<Option<OpenDim>, AllocError>
    ensures { IfOk result (λ made. made ≡ defined_dimension names.now dimension.now) }
{
    match names.charts.as_slice().get(dimension.chart as usize) {
        Some(chart) => Ok(Some(OpenDim {
            chart: chart.id.clone()?,
            def: usual_dimension(&dimension.id, dimension.hidden)?,
        })),
        None => Ok(None),
    }
}

/// Adds a dimension, if its chart has a name.
fn push_dimension(
    dimensions: &mut Vec<OpenDim>,
    names: &Names,
    dimension: &DimName,
) -> Result<(), AllocError>
    ensures { OnOk result (dimensions.new.items ≡ dimensions.old.items
        ++ cons_option (defined_dimension names.now dimension.now) []) }
{
    if let Some(made) = defined_dimension(names, dimension)? {
        dimensions.push(made)?;
    }
    Ok(())
}

fn defined_dimensions(
    alloc: Global,
    names: &Names,
    dimensions: &[DimName],
) -> Result<OpenDimList, AllocError>
    ensures { IfOk result
        (λ made. made ≡ filter_map (defined_dimension names.now) dimensions.now) }
{
    let mut made = Vec::with_capacity(alloc, dimensions.len())?;
    for dimension in dimensions {
        push_dimension(&mut made, names, dimension)?;
    }
    Ok(OpenDimList::from_vec(made))
}

/// A beat without rows that defines what the names do.
pub(crate) fn definitions_in(alloc: Global, names: &Names) -> Result<OpenBeat, AllocError>
    ensures { IfOk result (λ beat. beat ≡ definitions_in names.now) }
{
    Ok(OpenBeat {
        charts: defined_charts(alloc, names.charts.as_slice())?,
        dimensions: defined_dimensions(alloc, names, names.dimensions.as_slice())?,
        rows: OpenRowList::new(alloc),
    })
}

// ---- its words by number

/// The number of the series of a dimension by its id and that of its chart.
fn known_series(registry: &Registry, chart: &str, id: &str) -> Option<u32>
    ensures { result ≡ series_of registry.now chart.now id.now }
{
    match registry.chart_of(chart) {
        Some(number) => registry.series_of(number, id),
        None => None,
    }
}

/// The series that the name of a dimension means, if its chart has a name and the registry has it.
fn series_named(registry: &Registry, names: &Names, dimension: &DimName) -> Option<u32>
    ensures { result ≡ series_named registry.now names.now dimension.now }
{
    let chart = names.charts.as_slice().get(dimension.chart as usize)?;
    known_series(registry, chart.id.as_str(), dimension.id.as_str())
}

/// The series of the names of dimensions, by place. Each name is looked up once.
pub(crate) fn named_series(
    alloc: Global,
    registry: &Registry,
    names: &Names,
) -> Result<Vec<Option<u32>>, AllocError>
    ensures { IfOk result (λ series. series.items ≡ named_series registry.now names.now) }
{
    let dimensions = names.dimensions.as_slice();
    let mut series = Vec::with_capacity(alloc, dimensions.len())?;
    for dimension in dimensions {
        series.push(series_named(registry, names, dimension))?;
    }
    Ok(series)
}

/// A word by the series of the name at its place, if that has one.
fn series_word(series: &[Option<u32>], word: &SentWord) -> Option<SeriesWord>
    ensures { result ≡ series_word series.now word.now }
{
    match series.get(word.series as usize) {
        Some(Some(number)) => Some(SeriesWord {
            series: *number,
            word: word.word,
        }),
        Some(None) | None => None,
    }
}

/// Adds a word, if it has a series.
fn push_word(
    words: &mut Vec<SeriesWord>,
    series: &[Option<u32>],
    word: &SentWord,
) -> Result<(), AllocError>
    ensures { OnOk result
        (words.new.items ≡ words.old.items ++ cons_option (series_word series.now word.now) []) }
{
    if let Some(numbered) = series_word(series, word) {
        words.push(numbered)?;
    }
    Ok(())
}

fn gather_words(
    alloc: Global,
    series: &[Option<u32>],
    words: &[SentWord],
) -> Result<Vec<SeriesWord>, AllocError>
    ensures { IfOk result
        (λ gathered. gathered.items ≡ filter_map (series_word series.now) words.now) }
{
    let mut gathered = Vec::with_capacity(alloc, words.len())?;
    for word in words {
        push_word(&mut gathered, series, word)?;
    }
    Ok(gathered)
}

fn sort_words(mut words: Vec<SeriesWord>) -> Result<Vec<SeriesWord>, AllocError>
    ensures same { IfOk result (λ sorted. IsPermutation words.items sorted.items) }
    ensures rises { IfOk result
        (λ sorted. IsNonDecreasingBy (λ word. word.series) sorted.items) }
{
    words.sort_by_key(|word| word.series)?;
    Ok(words)
}

/// The words of a beat by the series of the names of its message, in the order of their numbers.
fn numbered_words(
    alloc: Global,
    series: &[Option<u32>],
    beat: &SentBeat,
) -> Result<Vec<SeriesWord>, AllocError>
    ensures same { IfOk result (λ words.
        IsPermutation (filter_map (series_word series.now) beat.now.words) words.items) }
    ensures rises { IfOk result (λ words. IsNonDecreasingBy (λ word. word.series) words.items) }
{
    sort_words(gather_words(alloc, series, beat.words.as_slice())?)
}

// ---- its entry

/// What a copy tells of a chart.
fn told_chart(alloc: Global, chart: &NumberedChart) -> Result<CopiedChart, AllocError>
    requires { chart_keeps_limits chart.now.def ≡ true }
    ensures told { IfOk result (λ told. told ≡ told_chart chart.now) }
    ensures short { IfOk result IsCopiedChart }
{
    let id = Text::from_str(alloc, chart.def.id.as_str())?;
    let context = Text::from_str(alloc, chart.def.context.as_str())?;
    let (number, update_every) = (chart.number, chart.def.update_every);
    Ok(CopiedChart {
        number,
        id,
        context,
        update_every,
    })
}

fn told_charts(alloc: Global, charts: &[NumberedChart]) -> Result<CopiedChartList, AllocError>
    requires { All (λ chart. chart_keeps_limits chart.def ≡ true) charts.now }
    ensures told { IfOk result (λ told. told ≡ map told_chart charts.now) }
    ensures short { IfOk result (AllByRecursion IsCopiedChart) }
{
    let mut told = Vec::with_capacity(alloc, charts.len())?;
    for chart in charts {
        told.push(told_chart(alloc, chart)?)?;
    }
    Ok(CopiedChartList::from_vec(told))
}

/// What a copy tells of a dimension.
fn told_dimension(
    alloc: Global,
    dimension: &NumberedDimension,
) -> Result<CopiedDimension, AllocError>
    requires { dimension_keeps_limits dimension.now.def ≡ true }
    ensures told { IfOk result (λ told. told ≡ told_dimension dimension.now) }
    ensures short { IfOk result IsCopiedDimension }
{
    let id = Text::from_str(alloc, dimension.def.id.as_str())?;
    let (series, chart) = (dimension.series, dimension.chart);
    Ok(CopiedDimension {
        series,
        chart,
        id,
        hidden: dimension.def.hidden,
    })
}

fn told_dimensions(
    alloc: Global,
    dimensions: &[NumberedDimension],
) -> Result<CopiedDimensionList, AllocError>
    requires { All (λ dimension. dimension_keeps_limits dimension.def ≡ true) dimensions.now }
    ensures told { IfOk result (λ told. told ≡ map told_dimension dimensions.now) }
    ensures short { IfOk result (AllByRecursion IsCopiedDimension) }
{
    let mut told = Vec::with_capacity(alloc, dimensions.len())?;
    for dimension in dimensions {
        told.push(told_dimension(alloc, dimension)?)?;
    }
    Ok(CopiedDimensionList::from_vec(told))
}

fn entry_word(word: SeriesWord) -> CopiedWord
    ensures word { result ≡ entry_word word }
    ensures short { IsCopiedWord result }
{
    CopiedWord {
        series: word.series,
        word: word.word,
    }
}

fn entry_words(alloc: Global, words: &[SeriesWord]) -> Result<CopiedWordList, AllocError>
    ensures words { IfOk result (λ made. made ≡ map entry_word words.now) }
    ensures short { IfOk result (AllByRecursion IsCopiedWord) }
{
    let mut made = Vec::with_capacity(alloc, words.len())?;
    for word in words {
        made.push(entry_word(*word))?;
    }
    Ok(CopiedWordList::from_vec(made))
}

/// The entry of a copied beat of a child at this moment, that defines this and has these words.
fn copied_entry(
    alloc: Global,
    child: u64,
    moment: u32,
    charts: &[NumberedChart],
    dimensions: &[NumberedDimension],
    words: &[SeriesWord],
) -> Result<Entry, AllocError>
    requires within { IsWithinLimits (defining charts.now dimensions.now) }
    requires canonical { is_collected_canonical (defining charts.now dimensions.now) ≡ true }
    requires rising { AreRising words.now }
    requires stored { All (λ word. is_word word.word ≡ true) words.now }
    requires few { length words.now ≤ MOST_DIMENSIONS }
    ensures entry { IfOk result (λ made. made ≡ entry.Copied (record {
      child = child;
      moment = moment;
      charts = map told_chart charts.now;
      dimensions = map told_dimension dimensions.now;
      words = map entry_word words.now;
    })) }
    ensures spelt { IfOk result HasSpelling }
{
    Ok(Entry::Copied(Copied {
        child,
        moment,
        charts: told_charts(alloc, charts)?,
        dimensions: told_dimensions(alloc, dimensions)?,
        words: entry_words(alloc, words)?,
    }))
}

/// What a store keeps of a beat of a message that defines this, where the registry has the definitions of the
/// message, and these are the series of its names.
pub(crate) fn kept_copy(
    alloc: Global,
    registry: &Registry,
    message: &Data,
    series: &[Option<u32>],
    charts: &[NumberedChart],
    dimensions: &[NumberedDimension],
    beat: &SentBeat,
) -> Result<Beat, AllocError>
    requires own { AreApart same_dimension registry.now.dimensions }
    requires registry { HasLimits registry.now }
    requires names { AreNamesApart message.now.names }
    requires places { has_rising_places beat.now ≡ true }
    requires words { has_storage_numbers beat.now ≡ true }
    requires series { series.now ≡ named_series registry.now message.now.names }
    requires within { IsWithinLimits (defining charts.now dimensions.now) }
    requires canonical { is_collected_canonical (defining charts.now dimensions.now) ≡ true }
    requires later { 0 < beat.now.moment }
    ensures kept { IfOk result (λ kept.
        kept ≡ sent_kept registry.now message.now charts.now dimensions.now beat.now) }
    ensures spelt { OnOk result (HasSpelling (entry.Copied
        (sent_entry registry.now message.now charts.now dimensions.now beat.now))) }
    ensures moment { IfOk result (λ kept. kept.moment ≡ Some beat.now.moment) }
    ensures named { IfOk result (λ kept. names_series registry.now kept.points ≡ true) }
    ensures form { IfOk result InForm }
    ensures size { IfOk result FitsARecord }
{
    let words = numbered_words(alloc, series, beat)?;
    let points = stored_points(alloc, registry, words.as_slice())?;
    let entry = copied_entry(
        alloc,
        message.child,
        beat.moment,
        charts,
        dimensions,
        words.as_slice(),
    )?;
    let note = write_entry(alloc, &entry)?;
    Ok(Beat {
        moment: Some(beat.moment),
        points,
        note,
    })
}

/// What a store keeps of a gap of a child: the moments above `from`, up to `to`.
pub(crate) fn kept_gap(alloc: Global, child: u64, from: u32, to: u32) -> Result<Beat, AllocError>
    requires { 0 < to }
    ensures kept { IfOk result (λ kept. kept ≡ record {
      moment = Some to;
      points = [];
      note = entry_bytes (gap_entry (record { child = child; from = from; to = to }));
    }) }
    ensures spelt { OnOk result
        (HasSpelling (gap_entry (record { child = child; from = from; to = to }))) }
    ensures form { IfOk result InForm }
    ensures size { IfOk result FitsARecord }
{
    let note = write_entry(alloc, &Entry::Gap(Gap { child, from, to }))?;
    Ok(Beat {
        moment: Some(to),
        points: BeatPointList::new(alloc),
        note,
    })
}
