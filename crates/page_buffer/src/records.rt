ghost use Rattle.std.specs.Prelude.{◌≡◌, ◌+◌, ◌%◌, ◌<◌, ◌≤◌, [], ◌∷◌, ◌++◌, length, Some, slice_get, IfSome, IfNone};
ghost use Rattle.page_buffer.specs.Items.{record_bytes, record_from, records_of, IsRecords};

use crate::raw::{append, fill};
use crate::record_page::MOST_RECORDS;
use byteorder::{ByteOrder, LittleEndian};
use fixed_num::Record;
use page_pool::{PAGE_SIZE, RawPage};
use std::marker::Model;

/// How many bytes a record has in a page.
pub const RECORD_SIZE: usize = 56;

/// A page of up to `MOST_RECORDS` records. Contracts see it as the list of the records.
#[derive(Drop)]
pub(crate) struct Records {
    page: RawPage,
}

impl Model for Records {
    ghost use Rattle.std.specs.Prelude.{List};
    ghost use Rattle.fixed_num.specs.declared.units.Record.{Record as TheRecord};
    ghost use Rattle.fixed_num.specs.contracts.units.Record.{the_row as record_row};
    ghost use Rattle.page_buffer.specs.Items.{records_of, IsRecords};

    ghost Value = { List TheRecord };

    ghost view = { λ records. records_of records.page };

    ghost invariant = { λ records. IsRecords records.page };
}

/// Adds the bytes of a record at the end of a page that has room for them.
fn append_record(page: &mut RawPage, item: Record)
    requires { length page.old + RECORD_SIZE ≤ PAGE_SIZE }
    ensures { page.new ≡ page.old ++ record_bytes item }
{
    append(page, &item.min.to_le_bytes());
    append(page, &item.max.to_le_bytes());
    append(page, &item.sum.to_le_bytes());
    append(page, &item.count.to_le_bytes());
    append(page, &item.anomalies.to_le_bytes());
}

/// The record that the first `RECORD_SIZE` bytes spell.
fn record_from(bytes: &[u8]) -> Record
    requires { RECORD_SIZE ≤ length bytes.now }
    ensures { result ≡ record_from bytes.now }
{
    Record {
        min: LittleEndian::read_i128(bytes),
        max: LittleEndian::read_i128(&bytes[16..]),
        sum: LittleEndian::read_i128(&bytes[32..]),
        count: LittleEndian::read_u32(&bytes[48..]),
        anomalies: LittleEndian::read_u32(&bytes[52..]),
    }
}

impl Records {
    /// No record, in a page that may have held anything.
    pub(crate) fn new(mut page: RawPage) -> Records
        ensures { result ≡ [] }
    {
        page.clear();
        Records { page }
    }

    /// The records that some bytes spell, if they are those of a page.
    pub(crate) fn read(bytes: &[u8], mut page: RawPage) -> Option<Records>
        ensures read { IfSome result
            (λ records. IsRecords bytes.now × (records ≡ records_of bytes.now)) }
        ensures none { IfNone result (¬ IsRecords bytes.now) }
    {
        if bytes.len() % RECORD_SIZE != 0 || bytes.len() > PAGE_SIZE {
            return None;
        }
        fill(&mut page, bytes);
        Some(Records { page })
    }

    pub(crate) fn push(&mut self, item: Record)
        requires { length self.old < MOST_RECORDS }
        ensures { self.new ≡ self.old ++ item ∷ [] }
    {
        append_record(&mut self.page, item);
    }

    pub(crate) fn get(&self, place: usize) -> Record
        requires { place < length self.now }
        ensures { slice_get self.now place ≡ Some result }
    {
        record_from(&self.page.as_slice()[RECORD_SIZE * place..])
    }

    pub(crate) fn len(&self) -> usize
        ensures value { result ≡ length self.now }
        ensures most { result ≤ MOST_RECORDS }
    {
        self.page.len() / RECORD_SIZE
    }

    /// The bytes of the records.
    pub(crate) fn as_slice(&self) -> &[u8]
        ensures form { IsRecords result.now }
        ensures records { records_of result.now ≡ self.now }
    {
        self.page.as_slice()
    }

    pub(crate) fn into_raw(self) -> RawPage
        ensures form { IsRecords result }
        ensures records { records_of result ≡ self }
    {
        let Records { page } = self;
        page
    }
}
