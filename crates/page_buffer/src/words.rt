ghost use Rattle.std.specs.Prelude.{◌≡◌, ◌+◌, ◌%◌, ◌<◌, ◌≤◌, [], ◌∷◌, ◌++◌, length, replicate, Some, slice_get, IfSome, IfNone};
ghost use Rattle.page_buffer.specs.Items.{words_of, IsWords};

use crate::raw::{append, fill};
use crate::slot_page::MOST_SLOTS;
use byteorder::{ByteOrder, LittleEndian};
use page_pool::{PAGE_SIZE, RawPage};
use std::marker::Model;

/// A page of up to 1,024 words of 4 bytes. Contracts see it as the list of the words.
#[derive(Drop)]
pub(crate) struct Words {
    page: RawPage,
}

impl Model for Words {
    ghost use Rattle.std.specs.Prelude.{ℕ, List};
    ghost use Rattle.page_buffer.specs.Items.{words_of, IsWords};

    ghost Value = { List ℕ };

    ghost view = { λ words. words_of words.page };

    ghost invariant = { λ words. IsWords words.page };
}

impl Words {
    /// No word, in a page that may have held anything.
    pub(crate) fn new(mut page: RawPage) -> Words
        ensures { result ≡ [] }
    {
        page.clear();
        Words { page }
    }

    /// The words that some bytes spell, if they are those of a page.
    pub(crate) fn read(bytes: &[u8], mut page: RawPage) -> Option<Words>
        ensures read { IfSome result (λ words. IsWords bytes.now × (words ≡ words_of bytes.now)) }
        ensures none { IfNone result (¬ IsWords bytes.now) }
    {
        if bytes.len() % 4 != 0 || bytes.len() > PAGE_SIZE {
            return None;
        }
        fill(&mut page, bytes);
        Some(Words { page })
    }

    pub(crate) fn push(&mut self, word: u32)
        requires { length self.old < MOST_SLOTS }
        ensures { self.new ≡ self.old ++ word ∷ [] }
    {
        append(&mut self.page, &word.to_le_bytes());
    }

    /// Adds so many zeros, and then the word.
    #[tactic(auto, using(crate::proofs::SlotLemmas::word_behind, crate::proofs::SlotLemmas::one_zero_more, crate::proofs::SlotLemmas::with_zeros_length))]
    pub(crate) fn push_after(&mut self, empty: usize, word: u32)
        requires { length self.old + empty < MOST_SLOTS }
        ensures { self.new ≡ self.old ++ (replicate empty 0 ++ word ∷ []) }
    {
        for _ in 0..empty {
            self.push(0);
        }
        self.push(word);
    }

    pub(crate) fn get(&self, place: usize) -> u32
        requires { place < length self.now }
        ensures { slice_get self.now place ≡ Some result }
    {
        LittleEndian::read_u32(&self.page.as_slice()[4 * place..])
    }

    pub(crate) fn len(&self) -> usize
        ensures value { result ≡ length self.now }
        ensures most { result ≤ MOST_SLOTS }
    {
        self.page.len() / 4
    }

    /// The bytes of the words.
    pub(crate) fn as_slice(&self) -> &[u8]
        ensures form { IsWords result.now }
        ensures words { words_of result.now ≡ self.now }
    {
        self.page.as_slice()
    }

    pub(crate) fn into_raw(self) -> RawPage
        ensures form { IsWords result }
        ensures words { words_of result ≡ self }
    {
        let Words { page } = self;
        page
    }
}
