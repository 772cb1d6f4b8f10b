//! The tests of `store_core::pages`: segments by hand, their pages, and the items that come back from them.

ghost use Rattle.std.specs.Prelude.{◌≡◌, ◌+◌, ◌*◌, ◌<◌, ◌≤◌, ◌^◌};
ghost use Rattle.store_core.specs.pages.Items.{IsRecordItem};
ghost use Rattle.beat_tiers.specs.Sound.{IsPointItem};

use beat_tiers::{Item, Stepped};
use checkpoint_body::{RecordPage, SlotPage};
use fixed_num::{Frac, Record};
use std::alloc::{AllocError, Global};
use std::test::Fail;
use storage_number::pack;
use store_core::pages::{
    items_of_records, items_of_slots, pages_determine_their_items, record_pages_of, slot_pages_of,
};

/// The point of a series, for this many seconds, whose value is 1.
fn point(place: u32, series: u32, step: u32) -> Item<Stepped>
    requires series { series < 65536 }
    requires least { 1 ≤ step }
    requires most { step ≤ 86400 }
    ensures place { result.place ≡ place }
    ensures series { result.series ≡ series }
    ensures point { IsPointItem result }
{
    let word = pack(Frac { num: 1, den: 1 }, false, false);
    Item {
        place,
        series,
        value: Stepped { step, word },
    }
}

/// Series, first moment, step and count of slots of each page.
fn heads(alloc: Global, pages: &[SlotPage]) -> Result<Vec<(u32, u32, u32, usize)>, AllocError> {
    let mut heads = Vec::new(alloc);
    for page in pages {
        heads.push((page.series, page.first, page.step, page.words.len()))?;
    }
    Ok(heads)
}

#[test]
fn points_of_two_series(rt: HostRuntime) -> Result<(), Fail> {
    let items = [point(100, 3, 10), point(100, 7, 5), point(110, 3, 10)];
    let pages = slot_pages_of(rt.alloc(), items.as_slice())?;
    assert_eq!(rt;
        heads(rt.alloc(), pages.as_slice())?.as_slice(),
        [(3, 100, 10, 2), (7, 100, 5, 1)].as_slice()
    );
    pages_determine_their_items();
    let back = items_of_slots(rt.alloc(), pages.as_slice())?;
    assert_eq!(rt; back.as_slice(), items.as_slice());
    Ok(())
}

/// The record of a bucket of a minute, which is told by its count.
fn bucket(place: u32, series: u32, count: u32) -> Item<Record>
    requires place { place < 1000 }
    requires series { series < 65536 }
    ensures place { result.place ≡ place }
    ensures series { result.series ≡ series }
    ensures record { IsRecordItem 60 result }
{
    Item {
        place,
        series,
        value: Record {
            min: -1,
            max: 1,
            sum: 0,
            count,
            anomalies: 0,
        },
    }
}

/// Series, first moment, step and count of records of each page.
fn record_heads(
    alloc: Global,
    pages: &[RecordPage],
) -> Result<Vec<(u32, u32, u32, usize)>, AllocError> {
    let mut heads = Vec::new(alloc);
    for page in pages {
        heads.push((page.series, page.first, page.step, page.records.len()))?;
    }
    Ok(heads)
}

#[test]
fn records_of_two_series(rt: HostRuntime) -> Result<(), Fail> {
    let items = [bucket(5, 3, 1), bucket(5, 7, 2), bucket(6, 3, 3)];
    let pages = record_pages_of(rt.alloc(), 60, items.as_slice())?;
    assert_eq!(rt;
        record_heads(rt.alloc(), pages.as_slice())?.as_slice(),
        [(3, 300, 60, 2), (7, 300, 60, 1)].as_slice()
    );
    pages_determine_their_items();
    let back = items_of_records(rt.alloc(), pages.as_slice())?;
    assert_eq!(rt; back.as_slice(), items.as_slice());
    Ok(())
}
