//! The last row of a series, as bytes.
ghost use Rattle.std.specs.Prelude.{◌≡◌, ◌++◌, ◌↔◌, Ok, Err, IsTrue, IfOk, IfErr, OnOk, IsOkUnless};

use crate::format::SideFormat;
use algorithms::Last;
use field_codec::list::ListItem;
use field_codec::{FieldFault, Reader, Writer};
use std::alloc::Global;

impl ListItem<SideFormat> for Option<Last> {
    ghost use Rattle.side_codec.specs.LastRows.{last_row_bytes, read_last_row, IsLastRow, IsAnyRow};

    ghost is_item = { IsLastRow };

    ghost is_short_item = { IsAnyRow };

    ghost item_bytes = { last_row_bytes };

    ghost read_item = { read_last_row };

    fn is_short(&self) -> bool {
        if let Some(last) = self {
            let (_moment, _value) = (last.moment, last.value);
        }
        true
    }

    #[tactic(auto, unfolding(crate::specs::LastRows::last_row_bytes))]
    fn put(&self, writer: &mut Writer) -> Result<(), FieldFault> {
        match self {
            Some(last) => {
                writer.put_flag(true)?;
                writer.put_u32(last.moment)?;
                writer.put_i64(last.value)
            }
            None => {
                writer.put_flag(false)?;
                writer.put_u32(0)?;
                writer.put_i64(0)
            }
        }
    }

    #[tactic(auto, unfolding(crate::specs::LastRows::read_last_row))]
    fn take(_alloc: Global, reader: &mut Reader<'_>) -> Result<Option<Last>, FieldFault> {
        let there = reader.take_flag()?;
        let moment = reader.take_u32()?;
        let value = reader.take_i64()?;
        match (there, moment, value) {
            (true, _, _) => Ok(Some(Last { moment, value })),
            (false, 0, 0) => Ok(None),
            (false, _, _) => Err(FieldFault::Range),
        }
    }
}
