//! Whether a body is in the form in which it is written.
ghost use Rattle.std.specs.Prelude.{◌≡◌, ◌==◌, [], ◌∷◌, ◌++◌, nat_le, nat_lt, not, map, count_by};
ghost use Rattle.std.specs.Option.{option_to_list};
ghost use Rattle.checkpoint_body.specs.declared.body.OpenRecord.{OpenRecord as AnOpenRecord};
ghost use Rattle.tier_settings.specs.Limits.{HasWidths};
ghost use Rattle.std.specs.List.{list_all};
ghost use Rattle.checkpoint_body.specs.Body.{is_canonical};
ghost use Rattle.checkpoint_body.specs.Canonical.{are_few, are_in_order, are_open, is_ascending, is_before, is_point_tier, is_record_page, is_record_tier, is_series, is_slot_page, point_count, record_count, record_span, slot_span};
ghost use Rattle.page_buffer.specs.Slots.{spaced};

use crate::body::{Body, Extent, OpenRecord, PointTier, RecordTier};
use crate::grid::{LAST_MOMENT, moment_of};
use crate::page::{RecordPage, SlotPage};
use crate::span::Span;
use page_buffer::{MOST_EMPTY, MOST_RECORDS, MOST_SLOTS};
use tier_settings::{MOST_SERIES, Tier, are_tiers};

/// Whether these are at most as many extents as the tier keeps.
fn are_few(tier: &Tier, extents: &[Extent]) -> bool
    ensures { result ≡ are_few tier.now extents.now }
{
    extents.len() <= tier.extents as usize
}

/// Whether a number may follow the last one.
fn is_above(last: Option<u32>, number: u32) -> bool
    ensures { result ≡ is_ascending (option_to_list last ++ number ∷ []) }
{
    match last {
        None => true,
        Some(last) => last < number,
    }
}

/// Whether the records are by series, each series once.
fn are_ascending(records: &[OpenRecord]) -> bool
    ensures { result ≡ is_ascending (map (λ (one : AnOpenRecord). one.series) records.now) }
{
    let mut last = None;
    for record in records {
        if !is_above(last, record.series) {
            return false;
        }
        last = Some(record.series);
    }
    true
}

fn are_of_series(records: &[OpenRecord]) -> bool
    ensures { result ≡ list_all is_series records.now }
{
    records.iter().all(|record| record.series < MOST_SERIES)
}

fn are_open(records: &[OpenRecord]) -> bool
    ensures { result ≡ are_open records.now }
{
    are_of_series(records) && are_ascending(records)
}

fn slot_span(page: &SlotPage) -> Span
    ensures { result ≡ slot_span page.now }
{
    let places = page.words.len().saturating_sub(1);
    Span {
        series: page.series,
        first: page.first,
        end: moment_of(page.first, page.step, places),
    }
}

fn record_span(page: &RecordPage) -> Span
    ensures { result ≡ record_span page.now }
{
    let places = page.records.len().saturating_sub(1);
    Span {
        series: page.series,
        first: page.first,
        end: moment_of(page.first, page.step, places),
    }
}

fn is_before(one: Span, next: Span) -> bool
    ensures { result ≡ is_before one next }
{
    one.series < next.series || one.series == next.series && one.end < u128::from(next.first)
}

/// Whether a page may follow the last one.
fn may_follow(last: Option<Span>, next: Span) -> bool
    ensures { result ≡ are_in_order (option_to_list last ++ next ∷ []) }
{
    match last {
        None => true,
        Some(last) => is_before(last, next),
    }
}

fn are_slots_in_order(pages: &[SlotPage]) -> bool
    ensures { result ≡ are_in_order (map slot_span pages.now) }
{
    let mut last = None;
    for page in pages {
        let span = slot_span(page);
        if !may_follow(last, span) {
            return false;
        }
        last = Some(span);
    }
    true
}

fn are_records_in_order(pages: &[RecordPage]) -> bool
    ensures { result ≡ are_in_order (map record_span pages.now) }
{
    let mut last = None;
    for page in pages {
        let span = record_span(page);
        if !may_follow(last, span) {
            return false;
        }
        last = Some(span);
    }
    true
}

/// Whether at most `MOST_EMPTY` slots in a row are empty, and the first and the last are not.
fn are_spaced(words: &[u32]) -> bool
    ensures { result ≡ spaced MOST_EMPTY words.now }
{
    let mut empty = MOST_EMPTY;
    for word in words {
        if *word != 0 {
            empty = 0;
        } else if empty < MOST_EMPTY {
            empty += 1;
        } else {
            return false;
        }
    }
    empty == 0
}

fn is_slot_page(page: &SlotPage) -> bool
    ensures { result ≡ is_slot_page page.now }
{
    let words = page.words.as_slice();
    words.len() <= MOST_SLOTS
        && 0 < page.step
        && are_spaced(words)
        && slot_span(page).end <= u128::from(LAST_MOMENT)
}

fn is_record_page(width: u32, page: &RecordPage) -> bool
    ensures { result ≡ is_record_page width page.now }
{
    let count = page.records.len();
    0 < count
        && count <= MOST_RECORDS
        && page.step == width
        && 0 < page.step
        && page.first % page.step == 0
        && record_span(page).end <= u128::from(LAST_MOMENT)
}

/// How many slots are not empty.
fn filled(words: &[u32]) -> usize
    ensures { result ≡ count_by (λ word. not (word == 0)) words.now }
{
    words.iter().filter(|word| **word != 0).count()
}

fn has_fewer_points(pages: &[SlotPage], items: u32) -> bool
    ensures { result ≡ nat_lt (point_count pages.now) items }
{
    let mut left = items as usize;
    for page in pages {
        let count = filled(page.words.as_slice());
        if left <= count {
            return false;
        }
        left -= count;
    }
    0 < left
}

fn has_fewer_records(pages: &[RecordPage], items: u32) -> bool
    ensures { result ≡ nat_lt (record_count pages.now) items }
{
    let mut left = items as usize;
    for page in pages {
        let count = page.records.len();
        if left <= count {
            return false;
        }
        left -= count;
    }
    0 < left
}

/// Whether each page is in the form in which a body has it.
pub fn are_slot_pages(pages: &[SlotPage]) -> bool
    ensures { result ≡ list_all is_slot_page pages.now }
{
    pages.iter().all(is_slot_page)
}

/// Whether each page is in the form in which a body has it, with buckets of this width.
pub fn are_record_pages(width: u32, pages: &[RecordPage]) -> bool
    ensures { result ≡ list_all (is_record_page width) pages.now }
{
    pages.iter().all(|page| is_record_page(width, page))
}

fn is_point_tier(tier: &Tier, kept: &PointTier) -> bool
    ensures { result ≡ is_point_tier tier.now kept.now }
{
    let pages = kept.pages.as_slice();
    are_few(tier, kept.extents.as_slice())
        && are_slot_pages(pages)
        && are_slots_in_order(pages)
        && has_fewer_points(pages, tier.items)
}

fn is_record_tier(tier: &Tier, kept: &RecordTier) -> bool
    ensures { result ≡ is_record_tier tier.now kept.now }
{
    let pages = kept.pages.as_slice();
    are_few(tier, kept.extents.as_slice())
        && are_open(kept.open_records.as_slice())
        && are_record_pages(tier.width, pages)
        && are_records_in_order(pages)
        && has_fewer_records(pages, tier.items)
}

/// Whether the settings keep their limits, and each tier is in the form in which it is written.
#[tactic(auto, unfolding(crate::specs::Body::is_canonical))]
pub(crate) fn is_canonical(body: &Body) -> bool
    requires { HasWidths body.now.settings.tiers }
    ensures { result ≡ is_canonical body.now }
{
    let tiers = body.settings.tiers.as_slice();
    let [first, second, third] = tiers else {
        return false;
    };
    are_tiers(tiers)
        && is_point_tier(first, &body.points)
        && is_record_tier(second, &body.minutes)
        && is_record_tier(third, &body.hours)
}
