use super::*;
use beat_tiers::{
    Item, KeptItems, KeptRecords, KeptRecordsList, OpenRecordList, Segment, SegmentList, Stepped,
};
use fixed_num::ListOf;

/// The last moment.
const LAST: u32 = 9;

/// Items of series 0, one at each of these places.
fn items_at<T: Copy + Drop>(
    alloc: Global,
    places: &[u32],
    value: T,
) -> Result<ListOf<Item<T>>, AllocError> {
    let mut items = ListOf::new(alloc);
    for place in places {
        items.push(Item {
            place: *place,
            series: 0,
            value,
        })?;
    }
    Ok(items)
}

/// Segments of one item each, by their moments of sealing and the places of their items.
fn segments_of<T: Copy + Drop>(
    alloc: Global,
    segments: &[(u32, u32)],
    value: T,
) -> Result<SegmentList<T>, AllocError> {
    let mut list = SegmentList::new(alloc);
    for (sealed_at, place) in segments {
        list.push(Segment {
            sealed_at: *sealed_at,
            items: items_at(alloc, [*place].as_slice(), value)?,
        })?;
    }
    Ok(list)
}

fn kept<T: Copy + Drop>(
    alloc: Global,
    segments: &[(u32, u32)],
    places: &[u32],
    value: T,
) -> Result<KeptItems<T>, AllocError> {
    Ok(KeptItems {
        floor: 0,
        before: 0,
        count: 2,
        sealed: segments_of(alloc, segments, value)?,
        unsealed: items_at(alloc, places, value)?,
    })
}

/// Whether tiers come back from points in these segments, and from those at these places since.
fn come_back(alloc: Global, segments: &[(u32, u32)], places: &[u32]) -> Result<bool, AllocError> {
    let points = kept(alloc, segments, places, Stepped { step: 1, word: 1 })?;
    let none = KeptRecordsList::new(alloc);
    let back = Tiers::restore(alloc, tier(1, 2, 2), [].as_slice(), LAST, points, none)?;
    Ok(back.is_some())
}

#[test]
fn points_in_form(rt: HostRuntime) -> Result<(), Fail> {
    let alloc = rt.alloc();
    assert!(rt; come_back(alloc, [(4, 3), (9, 6)].as_slice(), [9].as_slice())?);
    // more segments than are kept, and as many items as are cut off
    assert!(rt; !come_back(alloc, [(2, 1), (4, 3), (6, 5)].as_slice(), [].as_slice())?);
    assert!(rt; !come_back(alloc, [(4, 3)].as_slice(), [7, 8].as_slice())?);
    // moments of sealing that do not rise, or are behind the last
    assert!(rt; !come_back(alloc, [(4, 3), (4, 4)].as_slice(), [].as_slice())?);
    assert!(rt; !come_back(alloc, [(10, 3)].as_slice(), [].as_slice())?);
    // places that do not rise, or are behind the last moment
    assert!(rt; !come_back(alloc, [(4, 3), (6, 2)].as_slice(), [].as_slice())?);
    assert!(rt; !come_back(alloc, [(4, 3)].as_slice(), [3].as_slice())?);
    assert!(rt; !come_back(alloc, [(4, 3)].as_slice(), [10].as_slice())?);
    Ok(())
}

#[test]
fn a_segment_has_items(rt: HostRuntime) -> Result<(), Fail> {
    let alloc = rt.alloc();
    let mut points = kept(
        alloc,
        [].as_slice(),
        [].as_slice(),
        Stepped { step: 1, word: 1 },
    )?;
    points.sealed.push(Segment {
        sealed_at: 4,
        items: ListOf::new(alloc),
    })?;
    let none = KeptRecordsList::new(alloc);
    let back = Tiers::restore(alloc, tier(1, 2, 2), [].as_slice(), LAST, points, none)?;
    assert!(rt; back.is_none());
    Ok(())
}

fn open_at(alloc: Global, series: &[u32]) -> Result<OpenRecordList, AllocError> {
    let mut records = OpenRecordList::new(alloc);
    for number in series {
        records.push((*number, record(1, 1, 1, 1)))?;
    }
    Ok(records)
}

/// Whether tiers come back from records of these buckets, each sealed at 8, and from records of these series in the
/// bucket of the last moment. The tier's width is 4, so that this is bucket 2.
fn records_come_back(
    alloc: Global,
    before: u64,
    segments: &[(u32, u32)],
    series: &[u32],
) -> Result<bool, AllocError> {
    let points = kept(
        alloc,
        [].as_slice(),
        [].as_slice(),
        Stepped { step: 1, word: 1 },
    )?;
    let mut items = kept(alloc, segments, [].as_slice(), record(1, 1, 1, 1))?;
    items.before = before;
    let mut records = KeptRecordsList::new(alloc);
    records.push(KeptRecords {
        items,
        current: open_at(alloc, series)?,
    })?;
    let others = [tier(4, 2, 2)];
    let back = Tiers::restore(
        alloc,
        tier(1, 2, 2),
        others.as_slice(),
        LAST,
        points,
        records,
    )?;
    Ok(back.is_some())
}

#[test]
fn records_in_form(rt: HostRuntime) -> Result<(), Fail> {
    let alloc = rt.alloc();
    let two = [(4, 0), (8, 1)];
    assert!(rt; records_come_back(alloc, 0, two.as_slice(), [0, 7, 65_535].as_slice())?);
    assert!(rt; !records_come_back(alloc, 1, two.as_slice(), [].as_slice())?);
    // the bucket of the last moment is not over
    assert!(rt; !records_come_back(alloc, 0, [(8, 2)].as_slice(), [].as_slice())?);
    // series that do not rise, or are none
    assert!(rt; !records_come_back(alloc, 0, two.as_slice(), [7, 7].as_slice())?);
    assert!(rt; !records_come_back(alloc, 0, two.as_slice(), [65_536].as_slice())?);
    Ok(())
}

#[test]
fn records_of_each_tier(rt: HostRuntime) -> Result<(), Fail> {
    let alloc = rt.alloc();
    let points = kept(
        alloc,
        [].as_slice(),
        [].as_slice(),
        Stepped { step: 1, word: 1 },
    )?;
    let none = KeptRecordsList::new(alloc);
    let others = [tier(4, 2, 2)];
    let back = Tiers::restore(alloc, tier(1, 2, 2), others.as_slice(), LAST, points, none)?;
    assert!(rt; back.is_none());
    Ok(())
}
