ghost use Rattle.std.specs.Prelude.{◌≡◌, ◌++◌, ◌↔◌, Ok, Err, IsTrue, IfOk, IfErr, OnOk, IsOkUnless};

use crate::format::EntryFormat;
use crate::order::Numbered;
use field_codec::list::{self, ListItem};
use field_codec::{FieldFault, Reader, Writer};
use history::{Row, Value};
use std::alloc::Global;

impl Numbered for Value {
    ghost item_number = { λ v. v.series };

    fn number(&self) -> u32 {
        self.series
    }
}

impl ListItem<EntryFormat> for Value {
    ghost use Rattle.entry_codec.specs.Rows.{IsValue, IsShortValue, value_bytes, read_value};

    ghost is_item = { IsValue };

    ghost is_short_item = { IsShortValue };

    ghost item_bytes = { value_bytes };

    ghost read_item = { read_value };

    fn is_short(&self) -> bool {
        let (_series, _value) = (self.series, self.value);
        true
    }

    #[tactic(auto, unfolding(crate::specs::Rows::value_bytes))]
    fn put(&self, writer: &mut Writer) -> Result<(), FieldFault> {
        writer.put_u32(self.series)?;
        writer.put_i64(self.value)?;
        writer.put_flag(self.anomalous)
    }

    #[tactic(auto, unfolding(crate::specs::Rows::read_value))]
    fn take(_alloc: Global, reader: &mut Reader<'_>) -> Result<Value, FieldFault> {
        let series = reader.take_u32()?;
        let value = reader.take_i64()?;
        let anomalous = reader.take_flag()?;
        Ok(Value {
            series,
            value,
            anomalous,
        })
    }
}

impl Numbered for Row {
    ghost item_number = { λ r. r.chart };

    fn number(&self) -> u32 {
        self.chart
    }
}

impl ListItem<EntryFormat> for Row {
    ghost use Rattle.entry_codec.specs.Rows.{IsRow, IsShortRow, row_bytes, read_row};

    ghost is_item = { IsRow };

    ghost is_short_item = { IsShortRow };

    ghost item_bytes = { row_bytes };

    ghost read_item = { read_row };

    fn is_short(&self) -> bool {
        let _chart = self.chart;
        list::is_short_list(&self.values)
    }

    #[tactic(auto, unfolding(crate::specs::Rows::row_bytes))]
    fn put(&self, writer: &mut Writer) -> Result<(), FieldFault> {
        writer.put_u32(self.chart)?;
        list::put_list(&self.values, writer)
    }

    #[tactic(auto, unfolding(crate::specs::Rows::read_row))]
    fn take(alloc: Global, reader: &mut Reader<'_>) -> Result<Row, FieldFault> {
        let chart = reader.take_u32()?;
        let values = list::take_list(alloc, reader)?;
        Ok(Row { chart, values })
    }
}
