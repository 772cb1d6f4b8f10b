ghost use Rattle.std.specs.Prelude.{◌≡◌, IfOk, IfErr};

use crate::fault::OpenFault;
use checkpoint_body::{RecordList, WordList};
use page_buffer::{RecordPage, SlotPage};
use std::alloc::Global;

/// The words of a page.
pub(crate) fn words_in(alloc: Global, page: &SlotPage) -> Result<WordList, OpenFault>
    ensures words { IfOk result (λ words. words ≡ page.now.items) }
    ensures faults { IfErr result (λ fault. fault ≡ OpenFault.Memory) }
{
    let (_, _, _, count) = page.head();
    let mut words = WordList::new(alloc);
    for place in 0..count {
        words.push(page.word(place))?;
    }
    Ok(words)
}

/// The records of a page.
pub(crate) fn records_in(alloc: Global, page: &RecordPage) -> Result<RecordList, OpenFault>
    ensures records { IfOk result (λ records. records ≡ page.now.items) }
    ensures faults { IfErr result (λ fault. fault ≡ OpenFault.Memory) }
{
    let (_, _, _, count) = page.head();
    let mut records = RecordList::new(alloc);
    for place in 0..count {
        records.push(page.record(place))?;
    }
    Ok(records)
}
