ghost use Rattle.std.specs.Prelude.{◌≡◌, ◌++◌, ◌↔◌, Ok, Err, IsTrue, IfOk, IfErr, OnOk, IsOkUnless};

use crate::format::EntryFormat;
use crate::order::Numbered;
use field_codec::list::ListItem;
use field_codec::{FieldFault, Reader, Writer};
use fixed_num::ListOf;
use std::alloc::Global;

/// Words of a copied beat.
pub type CopiedWordList = ListOf<CopiedWord>;

/// The storage number of a series in a copied beat.
#[derive(Clone, Copy, Debug, PartialEq, Eq)]
pub struct CopiedWord {
    pub series: u32,
    pub word: u32,
}

impl Numbered for CopiedWord {
    ghost item_number = { λ w. w.series };

    fn number(&self) -> u32 {
        self.series
    }
}

impl ListItem<EntryFormat> for CopiedWord {
    ghost use Rattle.entry_codec.specs.Words.{IsCopiedWord, IsShortWord, word_bytes, read_word};

    ghost is_item = { IsCopiedWord };

    ghost is_short_item = { IsShortWord };

    ghost item_bytes = { word_bytes };

    ghost read_item = { read_word };

    fn is_short(&self) -> bool {
        let (_series, _word) = (self.series, self.word);
        true
    }

    #[tactic(auto, unfolding(crate::specs::Words::word_bytes))]
    fn put(&self, writer: &mut Writer) -> Result<(), FieldFault> {
        writer.put_u32(self.series)?;
        writer.put_u32(self.word)
    }

    #[tactic(auto, unfolding(crate::specs::Words::read_word))]
    fn take(_alloc: Global, reader: &mut Reader<'_>) -> Result<CopiedWord, FieldFault> {
        let series = reader.take_u32()?;
        let word = reader.take_u32()?;
        Ok(CopiedWord { series, word })
    }
}
