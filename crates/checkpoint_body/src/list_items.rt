//! What a body has lists of, one after the other in bytes.
ghost use Rattle.std.specs.Prelude.{◌≡◌, ◌++◌, ◌↔◌, Ok, Err, IsTrue, IfOk, IfErr, OnOk, IsOkUnless};

use crate::body::{Extent, OpenRecord};
use crate::format::BodyFormat;
use crate::page::{RecordPage, SlotPage};
use field_codec::list::{self, ListItem};
use field_codec::{FieldFault, Reader, Writer};
use fixed_num::Record;
use std::alloc::Global;

// Below, a number that is read is known to be in the range of its type.

impl ListItem<BodyFormat> for u32 {
    ghost use Rattle.field_codec.specs.Reading.{read_u32};
    ghost use Rattle.field_codec.specs.Spelling.{u32_bytes};
    ghost use Rattle.checkpoint_body.specs.Fields.{FitsWord};

    ghost is_item = { FitsWord };

    ghost is_short_item = { FitsWord };

    ghost item_bytes = { u32_bytes };

    ghost read_item = { read_u32 };

    fn is_short(&self) -> bool {
        let _word = *self;
        true
    }

    fn put(&self, writer: &mut Writer) -> Result<(), FieldFault> {
        writer.put_u32(*self)
    }

    fn take(_alloc: Global, reader: &mut Reader<'_>) -> Result<u32, FieldFault> {
        reader.take_u32()
    }
}

impl ListItem<BodyFormat> for Record {
    ghost use Rattle.checkpoint_body.specs.Fields.{FitsRecord, read_record, record_bytes};

    ghost is_item = { FitsRecord };

    ghost is_short_item = { FitsRecord };

    ghost item_bytes = { record_bytes };

    ghost read_item = { read_record };

    fn is_short(&self) -> bool {
        let (_min, _max, _sum) = (self.min, self.max, self.sum);
        let (_count, _anomalies) = (self.count, self.anomalies);
        true
    }

    #[tactic(auto, unfolding(crate::specs::Fields::record_bytes))]
    fn put(&self, writer: &mut Writer) -> Result<(), FieldFault> {
        writer.put_i128(self.min)?;
        writer.put_i128(self.max)?;
        writer.put_i128(self.sum)?;
        writer.put_u32(self.count)?;
        writer.put_u32(self.anomalies)
    }

    #[tactic(auto, unfolding(crate::specs::Fields::read_record))]
    fn take(_alloc: Global, reader: &mut Reader<'_>) -> Result<Record, FieldFault> {
        let min = reader.take_i128()?;
        let max = reader.take_i128()?;
        let sum = reader.take_i128()?;
        let count = reader.take_u32()?;
        let anomalies = reader.take_u32()?;
        Ok(Record {
            min,
            max,
            sum,
            count,
            anomalies,
        })
    }
}

impl ListItem<BodyFormat> for Extent {
    ghost use Rattle.checkpoint_body.specs.Fields.{FitsExtent, extent_bytes, read_extent};

    ghost is_item = { FitsExtent };

    ghost is_short_item = { FitsExtent };

    ghost item_bytes = { extent_bytes };

    ghost read_item = { read_extent };

    fn is_short(&self) -> bool {
        let (_slot, _serial, _sealed_at) = (self.slot, self.serial, self.sealed_at);
        let (_size, _beats) = (self.size, self.beats);
        true
    }

    #[tactic(auto, unfolding(crate::specs::Fields::extent_bytes))]
    fn put(&self, writer: &mut Writer) -> Result<(), FieldFault> {
        writer.put_u32(self.slot)?;
        writer.put_u64(self.serial)?;
        writer.put_u32(self.sealed_at)?;
        writer.put_u64(self.size)?;
        writer.put_u64(self.beats)
    }

    #[tactic(auto, unfolding(crate::specs::Fields::read_extent))]
    fn take(_alloc: Global, reader: &mut Reader<'_>) -> Result<Extent, FieldFault> {
        let slot = reader.take_u32()?;
        let serial = reader.take_u64()?;
        let sealed_at = reader.take_u32()?;
        let size = reader.take_u64()?;
        let beats = reader.take_u64()?;
        Ok(Extent {
            slot,
            serial,
            sealed_at,
            size,
            beats,
        })
    }
}

impl ListItem<BodyFormat> for OpenRecord {
    ghost use Rattle.checkpoint_body.specs.Fields.{FitsOpenRecord, open_record_bytes, read_open_record};

    ghost is_item = { FitsOpenRecord };

    ghost is_short_item = { FitsOpenRecord };

    ghost item_bytes = { open_record_bytes };

    ghost read_item = { read_open_record };

    fn is_short(&self) -> bool {
        let (_series, _start) = (self.series, self.start);
        self.value.is_short()
    }

    #[tactic(auto, unfolding(crate::specs::Fields::open_record_bytes))]
    fn put(&self, writer: &mut Writer) -> Result<(), FieldFault> {
        writer.put_u32(self.series)?;
        writer.put_u32(self.start)?;
        self.value.put(writer)
    }

    #[tactic(auto, unfolding(crate::specs::Fields::read_open_record))]
    fn take(alloc: Global, reader: &mut Reader<'_>) -> Result<OpenRecord, FieldFault> {
        let series = reader.take_u32()?;
        let start = reader.take_u32()?;
        let value = Record::take(alloc, reader)?;
        Ok(OpenRecord {
            series,
            start,
            value,
        })
    }
}

impl ListItem<BodyFormat> for SlotPage {
    ghost use Rattle.checkpoint_body.specs.Fields.{FitsSlotPage, read_slot_page, slot_page_bytes};

    ghost is_item = { FitsSlotPage };

    ghost is_short_item = { FitsSlotPage };

    ghost item_bytes = { slot_page_bytes };

    ghost read_item = { read_slot_page };

    fn is_short(&self) -> bool {
        let (_series, _first, _step) = (self.series, self.first, self.step);
        list::is_short_list(&self.words)
    }

    #[tactic(auto, unfolding(crate::specs::Fields::slot_page_bytes))]
    fn put(&self, writer: &mut Writer) -> Result<(), FieldFault> {
        writer.put_u32(self.series)?;
        writer.put_u32(self.first)?;
        writer.put_u32(self.step)?;
        list::put_list(&self.words, writer)
    }

    #[tactic(auto, unfolding(crate::specs::Fields::read_slot_page))]
    fn take(alloc: Global, reader: &mut Reader<'_>) -> Result<SlotPage, FieldFault> {
        let series = reader.take_u32()?;
        let first = reader.take_u32()?;
        let step = reader.take_u32()?;
        let words = list::take_list(alloc, reader)?;
        Ok(SlotPage {
            series,
            first,
            step,
            words,
        })
    }
}

impl ListItem<BodyFormat> for RecordPage {
    ghost use Rattle.checkpoint_body.specs.Fields.{FitsRecordPage, read_record_page, record_page_bytes};

    ghost is_item = { FitsRecordPage };

    ghost is_short_item = { FitsRecordPage };

    ghost item_bytes = { record_page_bytes };

    ghost read_item = { read_record_page };

    fn is_short(&self) -> bool {
        let (_series, _first, _step) = (self.series, self.first, self.step);
        list::is_short_list(&self.records)
    }

    #[tactic(auto, unfolding(crate::specs::Fields::record_page_bytes))]
    fn put(&self, writer: &mut Writer) -> Result<(), FieldFault> {
        writer.put_u32(self.series)?;
        writer.put_u32(self.first)?;
        writer.put_u32(self.step)?;
        list::put_list(&self.records, writer)
    }

    #[tactic(auto, unfolding(crate::specs::Fields::read_record_page))]
    fn take(alloc: Global, reader: &mut Reader<'_>) -> Result<RecordPage, FieldFault> {
        let series = reader.take_u32()?;
        let first = reader.take_u32()?;
        let step = reader.take_u32()?;
        let records = list::take_list(alloc, reader)?;
        Ok(RecordPage {
            series,
            first,
            step,
            records,
        })
    }
}
