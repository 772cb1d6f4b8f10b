//! The limits of definitions, and whether one keeps them.
ghost use Rattle.std.specs.Prelude.{◌≡◌};
ghost use Rattle.std.specs.List.{list_any};
ghost use Rattle.history.specs.Limits.{chart_keeps_limits, dimension_keeps_limits, has_short_texts, has_two_parts, is_chart_id, is_factor, is_id, is_line_feed, is_short};

use crate::chart::ChartDef;
use crate::dimension::DimDef;

/// How many bytes an id may have.
pub const ID_LIMIT: usize = 200;

/// How many bytes a text of a definition, other than an id, may have.
pub const TEXT_LIMIT: usize = 200;

/// The most seconds that may lie between two values of a chart.
pub const UPDATE_EVERY_LIMIT: u32 = 86_400;

/// The most charts of a history.
pub const MOST_CHARTS: u32 = 4_096;

/// The most dimensions of one chart.
pub const MOST_DIMENSIONS_OF_CHART: u32 = 1_024;

/// The most dimensions of a history.
pub const MOST_DIMENSIONS: u32 = 65_536;

/// The largest size of a multiplier or a divisor.
pub const FACTOR_LIMIT: i32 = 2_147_483_647;

fn is_line_feed(byte: u8) -> bool
    ensures { result ≡ is_line_feed byte }
{
    byte == b'\n'
}

fn has_line_feed(text: &str) -> bool
    ensures { result ≡ list_any is_line_feed text.now }
{
    text.as_bytes().iter().any(|byte| is_line_feed(*byte))
}

fn has_two_parts(text: &str) -> bool
    ensures { result ≡ has_two_parts text.now }
{
    match text.split_once('.') {
        Some((before, after)) => !before.is_empty() && !after.is_empty(),
        None => false,
    }
}

/// Whether a text may be the id of a dimension: 1 to 200 bytes without a line feed.
pub fn is_id(text: &str) -> bool
    ensures { result ≡ is_id text.now }
{
    !text.is_empty() && text.len() <= ID_LIMIT && !has_line_feed(text)
}

/// Whether a text may be the id of a chart: that of a dimension, with a byte on each side of its first dot.
pub fn is_chart_id(text: &str) -> bool
    ensures { result ≡ is_chart_id text.now }
{
    is_id(text) && has_two_parts(text)
}

fn is_short(text: &str) -> bool
    ensures { result ≡ is_short text.now }
{
    text.len() <= TEXT_LIMIT
}

fn has_short_texts(def: &ChartDef) -> bool
    ensures { result ≡ has_short_texts def.now }
{
    is_short(def.name.as_str())
        && is_short(def.title.as_str())
        && is_short(def.units.as_str())
        && is_short(def.family.as_str())
        && is_short(def.context.as_str())
}

fn is_factor(n: i32) -> bool
    ensures { result ≡ is_factor n }
{
    -FACTOR_LIMIT <= n && n <= FACTOR_LIMIT
}

impl ChartDef {
    /// Whether the id may be that of a chart, the other texts have at most 200 bytes each, and the
    /// update_every is at most 86,400 seconds.
    pub fn keeps_limits(&self) -> bool
        ensures { result ≡ chart_keeps_limits self.now }
    {
        is_chart_id(self.id.as_str())
            && has_short_texts(self)
            && self.update_every <= UPDATE_EVERY_LIMIT
    }
}

impl DimDef {
    /// Whether the id may be that of a dimension, the name has at most 200 bytes, and the multiplier and the
    /// divisor lie between -2,147,483,647 and 2,147,483,647.
    pub fn keeps_limits(&self) -> bool
        ensures { result ≡ dimension_keeps_limits self.now }
    {
        is_id(self.id.as_str())
            && is_short(self.name.as_str())
            && is_factor(self.multiplier)
            && is_factor(self.divisor)
    }
}
