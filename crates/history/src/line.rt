ghost use Rattle.std.specs.Prelude.{◌≡◌};

use crate::chart::ChartDef;
use crate::dimension::DimDef;
use fixed_num::Text;
use std::alloc::AllocError;

/// What one line of a collector's text says.
#[derive(Debug, Drop, PartialEq, Eq)]
pub enum Line {
    /// Defines a chart.
    Chart(ChartDef),
    /// Defines a dimension of the chart that was defined last.
    Dimension(DimDef),
    /// Opens a block of values of the chart with this id.
    Begin(Text),
    /// Sets a dimension of the block's chart, or leaves it not set where there is no value.
    Set {
        id: Text,
        value: Option<i64>,
        anomalous: bool,
    },
    /// Closes the block as a row of its chart.
    End,
    /// Drops the open block.
    Flush,
    /// Ends the input for good.
    Disable,
    /// Closes the beat, in seconds from 1 to 4,294,967,295.
    Moment(u32),
    /// Asks for points; the text is what follows the first word of the line.
    Query(Text),
    /// Says nothing to the agent.
    Skipped,
}

impl Clone for Line {
    ghost is_clone = { λ line copy. copy ≡ line };

    fn clone(&self) -> Result<Line, AllocError> {
        Ok(match self {
            Line::Chart(chart) => Line::Chart(chart.clone()?),
            Line::Dimension(dimension) => Line::Dimension(dimension.clone()?),
            Line::Begin(chart) => Line::Begin(chart.clone()?),
            Line::Set {
                id,
                value,
                anomalous,
            } => Line::Set {
                id: id.clone()?,
                value: *value,
                anomalous: *anomalous,
            },
            Line::End => Line::End,
            Line::Flush => Line::Flush,
            Line::Disable => Line::Disable,
            Line::Moment(moment) => Line::Moment(*moment),
            Line::Query(text) => Line::Query(text.clone()?),
            Line::Skipped => Line::Skipped,
        })
    }
}
