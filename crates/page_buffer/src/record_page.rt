ghost use Rattle.std.specs.Prelude.{◌≡◌, ◌↔◌, ℕ, ◌<◌, List, [], ◌∷◌, ◌++◌, length, slice_get, Some, IsTrue, IsOk, IfOk, IfSome, IfNone, IfErr, OnOk, OnErr};
ghost use Rattle.fixed_num.specs.declared.units.Record.{Record as TheRecord};
ghost use Rattle.page_buffer.specs.declared.fault.PageFault.TheVariants.{BadPage, Memory};
ghost use Rattle.page_buffer.specs.Items.{records_of, IsRecords};
ghost use Rattle.page_buffer.specs.Page.{page_of, with_more, IsAt, EndsInTime};
ghost use Rattle.page_buffer.specs.Records.{IsRecordPage, IsNext, IsRefused};

use crate::fault::PageFault;
use crate::grid::{moment_of, place_of};
use crate::records::Records;
use fixed_num::{ByteList, Record};
use page_pool::RawPage;
use std::marker::Model;

/// The most records of a page.
pub const MOST_RECORDS: usize = 73;

/// The records of a series, one for each step.
#[derive(Drop)]
pub struct RecordPage {
    records: Records,
    series: u32,
    first: u32,
    step: u32,
}

impl Model for RecordPage {
    ghost use Rattle.std.specs.Prelude.{◌<◌};
    ghost use Rattle.fixed_num.specs.declared.units.Record.{Record as TheRecord};
    ghost use Rattle.fixed_num.specs.contracts.units.Record.{the_row as record_row};
    ghost use Rattle.page_buffer.specs.Page.{Page, page_code, page_of, EndsInTime};

    ghost Value = { Page TheRecord };

    ghost coded = { page_code record_row.coded };

    ghost view = { λ page. page_of page.series page.first page.step page.records };

    ghost invariant = { λ page. (0 < page.step) × EndsInTime page.first page.step page.records };
}

/// Whether the last of the records is at a moment below 2^32.
fn ends_in_time(records: &Records, first: u32, step: u32) -> bool
    ensures { IsTrue result ↔ EndsInTime first step records.now }
{
    let len = records.len();
    len == 0 || moment_of(first, step, len - 1) <= u64::from(u32::MAX)
}

impl RecordPage {
    /// The empty page in a raw page, whatever that held.
    pub fn new(page: RawPage, series: u32, first: u32, step: u32) -> RecordPage
        requires { 0 < step }
        ensures { result ≡ page_of series first step [] }
    {
        RecordPage {
            records: Records::new(page),
            series,
            first,
            step,
        }
    }

    /// Puts a record. `PageFull` where there are 73 records. Else `TooFar` where the page is empty and
    /// `moment` is not its first, or the page is not empty and `moment` is not one step past its last. A
    /// refused record changes nothing.
    pub fn push(&mut self, moment: u32, item: Record) -> Result<(), PageFault>
        ensures ok { OnOk result (IsNext self.old moment × (length self.old.items < MOST_RECORDS)
            × (self.new ≡ with_more self.old (item ∷ []))) }
        ensures refused { IfErr result (IsRefused self.old moment) }
        ensures err { OnErr result (self.new ≡ self.old) }
        ensures succeeds { IsNext self.old moment → length self.old.items < MOST_RECORDS
            → IsOk result }
    {
        let len = self.records.len();
        if len == MOST_RECORDS {
            return Err(PageFault::PageFull);
        }
        if moment_of(self.first, self.step, len) != u64::from(moment) {
            return Err(PageFault::TooFar);
        }
        self.records.push(item);
        Ok(())
    }

    /// The record at a moment. `None` where no record was pushed there.
    pub fn slot(&self, moment: u32) -> Option<Record>
        ensures some { IfSome result (IsAt self.now moment) }
        ensures none { IfNone result ((item : TheRecord) → ¬ IsAt self.now moment item) }
    {
        let place = place_of(self.first, self.step, self.records.len(), moment)?;
        Some(self.records.get(place))
    }

    /// The record at a place.
    pub fn record(&self, place: u32) -> Record
        requires { place < length self.now.items }
        ensures { slice_get self.now.items place ≡ Some result }
    {
        self.records.get(place as usize)
    }

    /// Series, first moment, step, and how many records there are.
    pub fn head(&self) -> (u32, u32, u32, u32)
        ensures { result ≡ (self.now.series, self.now.first, self.now.step, length self.now.items) }
    {
        let count = self.records.len() as u32;
        (self.series, self.first, self.step, count)
    }

    /// Adds the bytes of the records. After `Memory` nothing was added.
    pub fn encode(&self, out: &mut ByteList) -> Result<(), PageFault>
        ensures ok { OnOk result ((bytes : List ℕ) × (out.new ≡ out.old ++ bytes)
            × IsRecordPage self.now.first self.now.step bytes
            × (records_of bytes ≡ self.now.items)) }
        ensures refused { IfErr result (λ fault. fault ≡ Memory) }
        ensures err { OnErr result (out.new ≡ out.old) }
    {
        out.extend(self.records.as_slice())?;
        Ok(())
    }

    /// The page whose records some bytes are, in the raw page. `BadPage` exactly where they are no page's.
    /// At `BadPage` the raw page is freed.
    pub fn decode(
        bytes: &[u8],
        page: RawPage,
        series: u32,
        first: u32,
        step: u32,
    ) -> Result<RecordPage, PageFault>
        requires { 0 < step }
        ensures ok { IfOk result (λ read. IsRecordPage first step bytes.now
            × (read ≡ page_of series first step (records_of bytes.now))) }
        ensures refused { IfErr result
            (λ fault. (fault ≡ BadPage) × (¬ IsRecordPage first step bytes.now)) }
    {
        let Some(records) = Records::read(bytes, page) else {
            return Err(PageFault::BadPage);
        };
        if !ends_in_time(&records, first, step) {
            return Err(PageFault::BadPage);
        }
        Ok(RecordPage {
            records,
            series,
            first,
            step,
        })
    }

    /// The raw page, with the bytes of the records, which `decode` takes.
    pub fn into_raw(self) -> RawPage
        ensures form { IsRecordPage self.first self.step result }
        ensures records { records_of result ≡ self.items }
    {
        let RecordPage {
            records,
            series: _,
            first: _,
            step: _,
        } = self;
        records.into_raw()
    }
}
