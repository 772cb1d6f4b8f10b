//! Spans that were not copied, and those as bytes.
ghost use Rattle.std.specs.Prelude.{◌≡◌, ◌++◌, ◌↔◌, Ok, Err, IsTrue, IfOk, IfErr, OnOk, IsOkUnless};

use crate::format::SideFormat;
use field_codec::list::ListItem;
use field_codec::{FieldFault, Reader, Writer};
use fixed_num::ListOf;
use std::alloc::Global;

/// A span of moments in seconds that was not copied: those above `from`, up to `to`.
#[derive(Clone, Copy, Debug, PartialEq, Eq)]
pub struct GapSpan {
    pub from: u32,
    pub to: u32,
}

/// Spans that were not copied.
pub type GapSpanList = ListOf<GapSpan>;

impl ListItem<SideFormat> for GapSpan {
    ghost use Rattle.side_codec.specs.Gaps.{gap_bytes, read_gap, IsGap, IsAnyGap};

    ghost is_item = { IsGap };

    ghost is_short_item = { IsAnyGap };

    ghost item_bytes = { gap_bytes };

    ghost read_item = { read_gap };

    fn is_short(&self) -> bool {
        let (_from, _to) = (self.from, self.to);
        true
    }

    #[tactic(auto, unfolding(crate::specs::Gaps::gap_bytes))]
    fn put(&self, writer: &mut Writer) -> Result<(), FieldFault> {
        writer.put_u32(self.from)?;
        writer.put_u32(self.to)
    }

    #[tactic(auto, unfolding(crate::specs::Gaps::read_gap))]
    fn take(_alloc: Global, reader: &mut Reader<'_>) -> Result<GapSpan, FieldFault> {
        let from = reader.take_u32()?;
        let to = reader.take_u32()?;
        Ok(GapSpan { from, to })
    }
}
