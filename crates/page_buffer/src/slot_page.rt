ghost use Rattle.std.specs.Prelude.{◌≡◌, ◌↔◌, ℕ, ◌<◌, List, [], ◌∷◌, ◌++◌, length, slice_get, Some, IsTrue, IsOk, IfOk, IfSome, IfNone, IfErr, OnOk, OnErr, MatchResult, Err};
ghost use Rattle.page_buffer.specs.declared.fault.PageFault.TheVariants.{BadPage, Memory};
ghost use Rattle.page_buffer.specs.Items.{words_of, IsWords};
ghost use Rattle.page_buffer.specs.Page.{page_of, IsAt};
ghost use Rattle.page_buffer.specs.Slots.{spaced, reach, AreSlots, IsSlotPage, Skips, HasRoom, with_point, IsRefused};

use crate::fault::PageFault;
use crate::grid::{moment_of, place_of};
use crate::words::Words;
use fixed_num::ByteList;
use page_pool::RawPage;
use std::marker::Model;

/// The most slots of a page.
pub const MOST_SLOTS: usize = 1_024;

/// The most empty slots in a row.
pub const MOST_EMPTY: u32 = 6;

/// The points of a series, a word in the slot of each step, with 0 in a slot that is empty.
#[derive(Drop)]
pub struct SlotPage {
    words: Words,
    series: u32,
    first: u32,
    step: u32,
}

impl Model for SlotPage {
    ghost use Rattle.std.specs.Prelude.{ℕ, ◌<◌};
    ghost use Rattle.std.specs.Coded.{coded_ℕ};
    ghost use Rattle.page_buffer.specs.Page.{Page, page_code, page_of};
    ghost use Rattle.page_buffer.specs.Slots.{AreSlots};

    ghost Value = { Page ℕ };

    ghost coded = { page_code coded_ℕ };

    ghost view = { λ page. page_of page.series page.first page.step page.words };

    ghost invariant = { λ page. (0 < page.step) × AreSlots page.first page.step page.words };
}

/// Whether at most `MOST_EMPTY` slots in a row are empty, and the first and the last are not.
fn are_spaced(words: &Words) -> bool
    ensures { result ≡ spaced MOST_EMPTY words.now }
{
    let mut empty = MOST_EMPTY;
    for place in 0..words.len() {
        if words.get(place) != 0 {
            empty = 0;
        } else if empty < MOST_EMPTY {
            empty += 1;
        } else {
            return false;
        }
    }
    empty == 0
}

/// How many places may hold the next point of a page with so many slots.
fn reach(len: usize) -> usize
    ensures { result ≡ reach len }
{
    match len {
        0 => 1,
        _ => MOST_EMPTY as usize + 1,
    }
}

/// Whether the words are the slots of a page.
fn are_slots(words: &Words, first: u32, step: u32) -> bool
    ensures { IsTrue result ↔ AreSlots first step words.now }
{
    let len = words.len();
    len == 0 || are_spaced(words) && moment_of(first, step, len - 1) <= u64::from(u32::MAX)
}

impl SlotPage {
    /// The empty page in a raw page, whatever that held.
    pub fn new(page: RawPage, series: u32, first: u32, step: u32) -> SlotPage
        requires { 0 < step }
        ensures { result ≡ page_of series first step [] }
    {
        SlotPage {
            words: Words::new(page),
            series,
            first,
            step,
        }
    }

    /// How many slots stay empty before a point at `moment`, if it goes into this page.
    fn empty_before(&self, moment: u32) -> Option<usize>
        ensures found { IfSome result (Skips self.now moment) }
        ensures none { IfNone result ((empty : ℕ) → ¬ Skips self.now moment empty) }
    {
        let len = self.words.len();
        for empty in 0..reach(len) {
            if moment_of(self.first, self.step, len + empty) == u64::from(moment) {
                return Some(empty);
            }
        }
        None
    }

    /// Puts the word of a point, which is not 0, with empty slots before it. `PageFull` where there are
    /// 1,024 slots, or `moment` is right and more than 1,024 would result. Else `TooFar` where the page is
    /// empty and `moment` is not its first, or the page is not empty and `moment` is not 1 to 7 steps past
    /// its last. A refused point changes nothing.
    pub fn push(&mut self, moment: u32, word: u32) -> Result<(), PageFault>
        requires { 0 < word }
        ensures ok { OnOk result ((empty : ℕ) × Skips self.old moment empty × HasRoom self.old empty
            × (self.new ≡ with_point self.old empty word)) }
        ensures refused { IfErr result (IsRefused self.old moment) }
        ensures err { OnErr result (self.new ≡ self.old) }
        ensures succeeds { (empty : ℕ) → Skips self.old moment empty → HasRoom self.old empty
            → IsOk result }
    {
        let len = self.words.len();
        if len == MOST_SLOTS {
            return Err(PageFault::PageFull);
        }
        let empty = match self.empty_before(moment) {
            Some(empty) => empty,
            None => return Err(PageFault::TooFar),
        };
        if len + empty >= MOST_SLOTS {
            return Err(PageFault::PageFull);
        }
        self.words.push_after(empty, word);
        Ok(())
    }

    /// The word of the point at a moment. `None` where no point was pushed there.
    pub fn slot(&self, moment: u32) -> Option<u32>
        ensures some { IfSome result (λ word. (0 < word) × IsAt self.now moment word) }
        ensures none { IfNone result ((word : ℕ) → IsAt self.now moment word → word ≡ 0) }
    {
        let place = place_of(self.first, self.step, self.words.len(), moment)?;
        match self.words.get(place) {
            0 => None,
            word => Some(word),
        }
    }

    /// The word in the slot at a place, which is 0 where the slot is empty.
    pub fn word(&self, place: u32) -> u32
        requires { place < length self.now.items }
        ensures { slice_get self.now.items place ≡ Some result }
    {
        self.words.get(place as usize)
    }

    /// Series, first moment, step, and how many slots there are, the empty ones too.
    pub fn head(&self) -> (u32, u32, u32, u32)
        ensures { result ≡ (self.now.series, self.now.first, self.now.step, length self.now.items) }
    {
        let count = self.words.len() as u32;
        (self.series, self.first, self.step, count)
    }

    /// Adds the bytes of the slots. After `Memory` nothing was added.
    pub fn encode(&self, out: &mut ByteList) -> Result<(), PageFault>
        ensures ok { OnOk result ((bytes : List ℕ) × (out.new ≡ out.old ++ bytes)
            × IsSlotPage self.now.first self.now.step bytes × (words_of bytes ≡ self.now.items)) }
        ensures refused { IfErr result (λ fault. fault ≡ Memory) }
        ensures err { OnErr result (out.new ≡ out.old) }
    {
        out.extend(self.words.as_slice())?;
        Ok(())
    }

    /// The page whose slots some bytes are, in the raw page. `BadPage` exactly where they are no page's. At
    /// `BadPage` the raw page is freed.
    pub fn decode(
        bytes: &[u8],
        page: RawPage,
        series: u32,
        first: u32,
        step: u32,
    ) -> Result<SlotPage, PageFault>
        requires { 0 < step }
        ensures ok { IfOk result (λ read. IsSlotPage first step bytes.now
            × (read ≡ page_of series first step (words_of bytes.now))) }
        ensures refused { IfErr result
            (λ fault. (fault ≡ BadPage) × (¬ IsSlotPage first step bytes.now)) }
    {
        let Some(words) = Words::read(bytes, page) else {
            return Err(PageFault::BadPage);
        };
        if !are_slots(&words, first, step) {
            return Err(PageFault::BadPage);
        }
        Ok(SlotPage {
            words,
            series,
            first,
            step,
        })
    }

    /// The raw page, with the bytes of the slots, which `decode` takes.
    pub fn into_raw(self) -> RawPage
        ensures form { IsSlotPage self.first self.step result }
        ensures words { words_of result ≡ self.items }
    {
        let SlotPage {
            words,
            series: _,
            first: _,
            step: _,
        } = self;
        words.into_raw()
    }
}
