//! What is told of a history, and its moments as bytes.
ghost use Rattle.std.specs.Prelude.{◌≡◌, ◌++◌, ◌↔◌, Ok, Err, IsTrue, IfOk, IfErr, OnOk, IsOkUnless};

use crate::format::SideFormat;
use crate::gap::GapSpanList;
use crate::last_point::LastPointList;
use crate::role::SideRole;
use alarm_events::KeptAlarms;
use algorithms::LastList;
use field_codec::list::ListItem;
use field_codec::{FieldFault, Reader, Writer};
use fixed_num::ListOf;
use history::{ChartList, DimensionList};
use std::alloc::Global;

/// Moments in seconds.
pub type MomentList = ListOf<u32>;

/// What is restored of a history when it is opened at a checkpoint, in place of replaying the beats
/// before.
#[derive(Debug, Drop)]
pub struct Side {
    pub role: SideRole,
    /// The charts, each at the place of its number: at most `MOST_CHARTS`, which keep the limits
    /// of definitions.
    pub charts: ChartList,
    /// The dimensions, each at the place of its series, of charts that are there: at most
    /// `MOST_DIMENSIONS`, which keep the limits of definitions.
    pub dimensions: DimensionList,
    /// The last moment of each chart at which it had a row or a copied point, in seconds, or 0.
    pub chart_moments: MomentList,
    /// The last row of each series in which it was set.
    pub last_rows: LastList,
    /// The last point of each series.
    pub last_points: LastPointList,
    pub alarms: KeptAlarms,
    /// The spans that were not copied: at most `MOST_GAPS`.
    pub gaps: GapSpanList,
}

impl ListItem<SideFormat> for u32 {
    ghost use Rattle.field_codec.specs.Reading.{read_u32};
    ghost use Rattle.field_codec.specs.Spelling.{u32_bytes};
    ghost use Rattle.side_codec.specs.Moments.{IsMoment, IsAnyMoment};

    ghost is_item = { IsMoment };

    ghost is_short_item = { IsAnyMoment };

    ghost item_bytes = { u32_bytes };

    ghost read_item = { read_u32 };

    fn is_short(&self) -> bool {
        let _moment = *self;
        true
    }

    fn put(&self, writer: &mut Writer) -> Result<(), FieldFault> {
        writer.put_u32(*self)
    }

    fn take(_alloc: Global, reader: &mut Reader<'_>) -> Result<u32, FieldFault> {
        reader.take_u32()
    }
}
