//! The charts, dimensions, words and beats of a `Data`, as items of its lists.
ghost use Rattle.std.specs.Prelude.{◌≡◌, ◌++◌, ◌↔◌, Ok, IsTrue, IfOk, IfErr, OnOk, IsOkUnless};

use crate::format::FrameFormat;
use field_codec::list::{self, ListItem};
use field_codec::{FieldFault, Reader, Writer, text};
use replication::{Beat, ChartName, DimName, SeriesWord};
use std::alloc::Global;

impl ListItem<FrameFormat> for ChartName {
    ghost use Rattle.replication.specs.Bytes.{chart_bytes};
    ghost use Rattle.link_frames.specs.Fields.{FitsChart};
    ghost use Rattle.link_frames.specs.Reading.{read_chart};

    ghost is_item = { FitsChart };

    ghost is_short_item = { FitsChart };

    ghost item_bytes = { chart_bytes };

    ghost read_item = { read_chart };

    fn is_short(&self) -> bool {
        let _update_every = self.update_every;
        text::is_short(&self.id) && text::is_short(&self.context)
    }

    #[tactic(auto, unfolding(replication::specs::Bytes::chart_bytes))]
    fn put(&self, writer: &mut Writer) -> Result<(), FieldFault> {
        text::put(&self.id, writer)?;
        text::put(&self.context, writer)?;
        writer.put_u32(self.update_every)
    }

    #[tactic(auto, unfolding(crate::specs::Reading::read_chart))]
    fn take(alloc: Global, reader: &mut Reader<'_>) -> Result<ChartName, FieldFault> {
        let id = text::take(alloc, reader)?;
        let context = text::take(alloc, reader)?;
        let update_every = reader.take_u32()?;
        Ok(ChartName {
            id,
            context,
            update_every,
        })
    }
}

impl ListItem<FrameFormat> for DimName {
    ghost use Rattle.replication.specs.Bytes.{dimension_bytes};
    ghost use Rattle.link_frames.specs.Fields.{FitsDimension};
    ghost use Rattle.link_frames.specs.Reading.{read_dimension};

    ghost is_item = { FitsDimension };

    ghost is_short_item = { FitsDimension };

    ghost item_bytes = { dimension_bytes };

    ghost read_item = { read_dimension };

    fn is_short(&self) -> bool {
        let _chart = self.chart;
        text::is_short(&self.id)
    }

    #[tactic(auto, unfolding(replication::specs::Bytes::dimension_bytes))]
    fn put(&self, writer: &mut Writer) -> Result<(), FieldFault> {
        writer.put_u32(self.chart)?;
        text::put(&self.id, writer)?;
        writer.put_flag(self.hidden)
    }

    #[tactic(auto, unfolding(crate::specs::Reading::read_dimension))]
    fn take(alloc: Global, reader: &mut Reader<'_>) -> Result<DimName, FieldFault> {
        let chart = reader.take_u32()?;
        let id = text::take(alloc, reader)?;
        let hidden = reader.take_flag()?;
        Ok(DimName { chart, id, hidden })
    }
}

impl ListItem<FrameFormat> for SeriesWord {
    ghost use Rattle.replication.specs.Bytes.{word_bytes};
    ghost use Rattle.link_frames.specs.Fields.{FitsWord};
    ghost use Rattle.link_frames.specs.Reading.{read_word};

    ghost is_item = { FitsWord };

    ghost is_short_item = { FitsWord };

    ghost item_bytes = { word_bytes };

    ghost read_item = { read_word };

    fn is_short(&self) -> bool {
        let (_series, _word) = (self.series, self.word);
        true
    }

    #[tactic(auto, unfolding(replication::specs::Bytes::word_bytes))]
    fn put(&self, writer: &mut Writer) -> Result<(), FieldFault> {
        writer.put_u32(self.series)?;
        writer.put_u32(self.word)
    }

    #[tactic(auto, unfolding(crate::specs::Reading::read_word))]
    fn take(_alloc: Global, reader: &mut Reader<'_>) -> Result<SeriesWord, FieldFault> {
        let series = reader.take_u32()?;
        let word = reader.take_u32()?;
        Ok(SeriesWord { series, word })
    }
}

impl ListItem<FrameFormat> for Beat {
    ghost use Rattle.replication.specs.Bytes.{beat_bytes};
    ghost use Rattle.link_frames.specs.Fields.{FitsBeat};
    ghost use Rattle.link_frames.specs.Reading.{read_beat};

    ghost is_item = { FitsBeat };

    ghost is_short_item = { FitsBeat };

    ghost item_bytes = { beat_bytes };

    ghost read_item = { read_beat };

    fn is_short(&self) -> bool {
        let _moment = self.moment;
        list::is_short_list(&self.words)
    }

    #[tactic(auto, unfolding(replication::specs::Bytes::beat_bytes))]
    fn put(&self, writer: &mut Writer) -> Result<(), FieldFault> {
        writer.put_u32(self.moment)?;
        list::put_list(&self.words, writer)
    }

    #[tactic(auto, unfolding(crate::specs::Reading::read_beat))]
    fn take(alloc: Global, reader: &mut Reader<'_>) -> Result<Beat, FieldFault> {
        let moment = reader.take_u32()?;
        let words = list::take_list(alloc, reader)?;
        Ok(Beat { moment, words })
    }
}
