ghost use Rattle.std.specs.Prelude.{◌≡◌, ◌++◌, ◌↔◌, Ok, Err, IsTrue, IfOk, IfErr, OnOk, IsOkUnless};

use crate::format::EntryFormat;
use crate::marks;
use crate::order::Numbered;
use field_codec::list::ListItem;
use field_codec::{FieldFault, Reader, Writer, text};
use fixed_num::{ListOf, Text};
use history::{DimDef, NumberedDimension};
use std::alloc::Global;

/// Dimensions of a copied beat.
pub type CopiedDimensionList = ListOf<CopiedDimension>;

/// What a copy tells of a dimension.
#[derive(Debug, Drop)]
pub struct CopiedDimension {
    pub series: u32,
    pub chart: u32,
    pub id: Text,
    pub hidden: bool,
}

impl Numbered for NumberedDimension {
    ghost item_number = { λ d. d.series };

    fn number(&self) -> u32 {
        self.series
    }
}

impl ListItem<EntryFormat> for NumberedDimension {
    ghost use Rattle.entry_codec.specs.Dimensions.{IsDimension, IsShortDimension, dimension_bytes, read_dimension};

    ghost is_item = { IsDimension };

    ghost is_short_item = { IsShortDimension };

    ghost item_bytes = { dimension_bytes };

    ghost read_item = { read_dimension };

    fn is_short(&self) -> bool {
        let def = &self.def;
        let (_series, _chart) = (self.series, self.chart);
        let (_multiplier, _divisor) = (def.multiplier, def.divisor);
        text::is_short(&def.id) && text::is_short(&def.name)
    }

    #[tactic(auto, unfolding(crate::specs::Dimensions::dimension_bytes))]
    fn put(&self, writer: &mut Writer) -> Result<(), FieldFault> {
        writer.put_u32(self.series)?;
        writer.put_u32(self.chart)?;
        text::put(&self.def.id, writer)?;
        text::put(&self.def.name, writer)?;
        marks::put_algorithm(self.def.algorithm, writer)?;
        writer.put_i32(self.def.multiplier)?;
        writer.put_i32(self.def.divisor)?;
        marks::put(self.def.hidden, self.def.noreset, writer)
    }

    #[tactic(auto, unfolding(crate::specs::Dimensions::read_dimension))]
    fn take(alloc: Global, reader: &mut Reader<'_>) -> Result<NumberedDimension, FieldFault> {
        let series = reader.take_u32()?;
        let chart = reader.take_u32()?;
        let id = text::take(alloc, reader)?;
        let name = text::take(alloc, reader)?;
        let algorithm = marks::take_algorithm(reader)?;
        let multiplier = reader.take_i32()?;
        let divisor = reader.take_i32()?;
        let (hidden, noreset) = marks::take(reader)?;
        let def = DimDef {
            id,
            name,
            algorithm,
            multiplier,
            divisor,
            hidden,
            noreset,
        };
        Ok(NumberedDimension { series, chart, def })
    }
}

impl Numbered for CopiedDimension {
    ghost item_number = { λ d. d.series };

    fn number(&self) -> u32 {
        self.series
    }
}

impl ListItem<EntryFormat> for CopiedDimension {
    ghost use Rattle.entry_codec.specs.Dimensions.{IsCopiedDimension, IsShortCopiedDimension, copied_dimension_bytes, read_copied_dimension};

    ghost is_item = { IsCopiedDimension };

    ghost is_short_item = { IsShortCopiedDimension };

    ghost item_bytes = { copied_dimension_bytes };

    ghost read_item = { read_copied_dimension };

    fn is_short(&self) -> bool {
        let (_series, _chart) = (self.series, self.chart);
        text::is_short(&self.id)
    }

    #[tactic(auto, unfolding(crate::specs::Dimensions::copied_dimension_bytes))]
    fn put(&self, writer: &mut Writer) -> Result<(), FieldFault> {
        writer.put_u32(self.series)?;
        writer.put_u32(self.chart)?;
        text::put(&self.id, writer)?;
        writer.put_flag(self.hidden)
    }

    #[tactic(auto, unfolding(crate::specs::Dimensions::read_copied_dimension))]
    fn take(alloc: Global, reader: &mut Reader<'_>) -> Result<CopiedDimension, FieldFault> {
        let series = reader.take_u32()?;
        let chart = reader.take_u32()?;
        let id = text::take(alloc, reader)?;
        let hidden = reader.take_flag()?;
        Ok(CopiedDimension {
            series,
            chart,
            id,
            hidden,
        })
    }
}
