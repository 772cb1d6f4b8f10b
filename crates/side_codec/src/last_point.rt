//! The last point of a series, and that as bytes.
ghost use Rattle.std.specs.Prelude.{◌≡◌, ◌++◌, ◌↔◌, Ok, Err, IsTrue, IfOk, IfErr, OnOk, IsOkUnless};

use crate::format::SideFormat;
use field_codec::list::ListItem;
use field_codec::{FieldFault, Reader, Writer};
use fixed_num::ListOf;
use std::alloc::Global;
use storage_number::is_word;

/// The last point of a series.
#[derive(Clone, Copy, Debug, PartialEq, Eq)]
pub struct LastPoint {
    /// In seconds.
    pub moment: u32,
    /// A storage number.
    pub word: u32,
}

/// The last point of each series, where it has one.
pub type LastPointList = ListOf<Option<LastPoint>>;

impl ListItem<SideFormat> for Option<LastPoint> {
    ghost use Rattle.side_codec.specs.LastPoints.{last_point_bytes, read_last_point, IsLastPoint, HasStorageNumber};

    ghost is_item = { IsLastPoint };

    ghost is_short_item = { HasStorageNumber };

    ghost item_bytes = { last_point_bytes };

    ghost read_item = { read_last_point };

    fn is_short(&self) -> bool {
        match self {
            Some(point) => {
                let _moment = point.moment;
                is_word(point.word)
            }
            None => true,
        }
    }

    #[tactic(auto, unfolding(crate::specs::LastPoints::last_point_bytes))]
    fn put(&self, writer: &mut Writer) -> Result<(), FieldFault> {
        match self {
            Some(point) => {
                writer.put_flag(true)?;
                writer.put_u32(point.moment)?;
                writer.put_u32(point.word)
            }
            None => {
                writer.put_flag(false)?;
                writer.put_u32(0)?;
                writer.put_u32(0)
            }
        }
    }

    #[tactic(auto, unfolding(crate::specs::LastPoints::read_last_point))]
    fn take(_alloc: Global, reader: &mut Reader<'_>) -> Result<Option<LastPoint>, FieldFault> {
        let there = reader.take_flag()?;
        let moment = reader.take_u32()?;
        let word = reader.take_u32()?;
        match (there, moment, word) {
            (true, _, _) if is_word(word) => Ok(Some(LastPoint { moment, word })),
            (false, 0, 0) => Ok(None),
            (_, _, _) => Err(FieldFault::Range),
        }
    }
}
