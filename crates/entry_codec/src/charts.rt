ghost use Rattle.std.specs.Prelude.{◌≡◌, ◌++◌, ◌↔◌, Ok, Err, IsTrue, IfOk, IfErr, OnOk, IsOkUnless};

use crate::format::EntryFormat;
use crate::kind;
use crate::order::Numbered;
use field_codec::list::ListItem;
use field_codec::{FieldFault, Reader, Writer, text};
use fixed_num::{ListOf, Text};
use history::{ChartDef, NumberedChart};
use std::alloc::Global;

/// Charts of a copied beat.
pub type CopiedChartList = ListOf<CopiedChart>;

/// What a copy tells of a chart.
#[derive(Debug, Drop)]
pub struct CopiedChart {
    pub number: u32,
    pub id: Text,
    pub context: Text,
    pub update_every: u32,
}

impl Numbered for NumberedChart {
    ghost item_number = { λ c. c.number };

    fn number(&self) -> u32 {
        self.number
    }
}

impl ListItem<EntryFormat> for NumberedChart {
    ghost use Rattle.entry_codec.specs.Charts.{IsChart, IsShortChart, chart_bytes, read_chart};

    ghost is_item = { IsChart };

    ghost is_short_item = { IsShortChart };

    ghost item_bytes = { chart_bytes };

    ghost read_item = { read_chart };

    fn is_short(&self) -> bool {
        let def = &self.def;
        let (_number, _priority, _update_every) = (self.number, def.priority, def.update_every);
        text::is_short(&def.id)
            && text::is_short(&def.name)
            && text::is_short(&def.title)
            && text::is_short(&def.units)
            && text::is_short(&def.family)
            && text::is_short(&def.context)
    }

    #[tactic(auto, unfolding(crate::specs::Charts::chart_bytes))]
    fn put(&self, writer: &mut Writer) -> Result<(), FieldFault> {
        writer.put_u32(self.number)?;
        text::put(&self.def.id, writer)?;
        text::put(&self.def.name, writer)?;
        text::put(&self.def.title, writer)?;
        text::put(&self.def.units, writer)?;
        text::put(&self.def.family, writer)?;
        text::put(&self.def.context, writer)?;
        kind::put(self.def.kind, writer)?;
        writer.put_i64(self.def.priority)?;
        writer.put_u32(self.def.update_every)?;
        writer.put_flag(self.def.store_first)
    }

    #[tactic(auto, unfolding(crate::specs::Charts::read_chart))]
    fn take(alloc: Global, reader: &mut Reader<'_>) -> Result<NumberedChart, FieldFault> {
        let number = reader.take_u32()?;
        let id = text::take(alloc, reader)?;
        let name = text::take(alloc, reader)?;
        let title = text::take(alloc, reader)?;
        let units = text::take(alloc, reader)?;
        let family = text::take(alloc, reader)?;
        let context = text::take(alloc, reader)?;
        let kind = kind::take(reader)?;
        let priority = reader.take_i64()?;
        let update_every = reader.take_u32()?;
        let store_first = reader.take_flag()?;
        let def = ChartDef {
            id,
            name,
            title,
            units,
            family,
            context,
            kind,
            priority,
            update_every,
            store_first,
        };
        Ok(NumberedChart { number, def })
    }
}

impl Numbered for CopiedChart {
    ghost item_number = { λ c. c.number };

    fn number(&self) -> u32 {
        self.number
    }
}

impl ListItem<EntryFormat> for CopiedChart {
    ghost use Rattle.entry_codec.specs.Charts.{IsCopiedChart, IsShortCopiedChart, copied_chart_bytes, read_copied_chart};

    ghost is_item = { IsCopiedChart };

    ghost is_short_item = { IsShortCopiedChart };

    ghost item_bytes = { copied_chart_bytes };

    ghost read_item = { read_copied_chart };

    fn is_short(&self) -> bool {
        let (_number, _update_every) = (self.number, self.update_every);
        text::is_short(&self.id) && text::is_short(&self.context)
    }

    #[tactic(auto, unfolding(crate::specs::Charts::copied_chart_bytes))]
    fn put(&self, writer: &mut Writer) -> Result<(), FieldFault> {
        writer.put_u32(self.number)?;
        text::put(&self.id, writer)?;
        text::put(&self.context, writer)?;
        writer.put_u32(self.update_every)
    }

    #[tactic(auto, unfolding(crate::specs::Charts::read_copied_chart))]
    fn take(alloc: Global, reader: &mut Reader<'_>) -> Result<CopiedChart, FieldFault> {
        let number = reader.take_u32()?;
        let id = text::take(alloc, reader)?;
        let context = text::take(alloc, reader)?;
        let update_every = reader.take_u32()?;
        Ok(CopiedChart {
            number,
            id,
            context,
            update_every,
        })
    }
}
