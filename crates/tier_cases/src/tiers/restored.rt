ghost use Rattle.std.specs.Prelude.{◌≤◌};
ghost use Rattle.std.specs.List.{AllByRecursion};
ghost use Rattle.beat_tiers.specs.Tiers.{IsTier};

use super::*;
use beat_tiers::{
    Item, KeptItems, KeptRecords, KeptRecordsList, OpenRecordList, Sealed, Segment, SegmentList,
    Segments, Stepped,
};
use fixed_num::ListOf;

/// The settings of the tiers of records.
fn minutes() -> [Tier; 2]
    ensures { AllByRecursion IsTier result }
{
    [tier(4, 3, 2), tier(8, 1, 3)]
}

fn copied<T: Copy + Drop>(alloc: Global, items: &[Item<T>]) -> Result<ListOf<Item<T>>, AllocError> {
    Ok(ListOf::from_vec(Vec::from_slice(alloc, items)?))
}

fn add_copies<T: Copy + Drop>(
    alloc: Global,
    list: &mut SegmentList<T>,
    segments: &[Sealed<T>],
) -> Result<(), AllocError> {
    for segment in segments {
        list.push(Segment {
            sealed_at: segment.sealed_at(),
            items: copied(alloc, segment.items())?,
        })?;
    }
    Ok(())
}

/// What is kept of the items of a tier, read part by part.
fn kept_items<T: Copy + Drop>(
    alloc: Global,
    segments: &Segments<T>,
) -> Result<KeptItems<T>, AllocError> {
    let mut sealed = SegmentList::new(alloc);
    let (earlier, later) = segments.sealed();
    add_copies(alloc, &mut sealed, earlier)?;
    add_copies(alloc, &mut sealed, later)?;
    Ok(KeptItems {
        floor: segments.floor(),
        before: segments.before(),
        count: segments.count(),
        sealed,
        unsealed: copied(alloc, segments.unsealed())?,
    })
}

fn kept_records(alloc: Global, tiers: &Tiers) -> Result<KeptRecordsList, AllocError> {
    let mut list = KeptRecordsList::new(alloc);
    for tier in tiers.kept_records() {
        list.push(KeptRecords {
            items: kept_items(alloc, tier.segments())?,
            current: tier.open_records(alloc)?,
        })?;
    }
    Ok(list)
}

/// The tiers of what is kept of these.
fn again(
    alloc: Global,
    tiers: &Tiers,
    first: Tier,
    others: &[Tier],
) -> Result<Option<Tiers>, AllocError>
    requires first { IsTier first }
    requires others { AllByRecursion IsTier others.now }
{
    let points = kept_items(alloc, tiers.kept_points())?;
    let records = kept_records(alloc, tiers)?;
    Tiers::restore(alloc, first, others, tiers.last(), points, records)
}

/// Checks that tiers answer as others do.
fn check_same(rt: &impl Abort, tiers: &Tiers, others: &Tiers) -> Result<(), Fail> {
    assert_eq!(rt; tiers.last(), others.last());
    assert_eq!(rt; tiers.kept()?.before, others.kept()?.before);
    for number in 0..3 {
        assert_eq!(rt;
            tiers.tier(usize::from(number)),
            others.tier(usize::from(number))
        );
        assert_eq!(rt; tiers.floor(number), others.floor(number));
    }
    for series in 0..3 {
        let points = tiers.points(series, 0, u32::MAX)?;
        assert_eq!(rt;
            points.as_slice(),
            others.points(series, 0, u32::MAX)?.as_slice()
        );
        for bucket in 0..12 {
            assert_eq!(rt;
                tiers.record_of(1, series, bucket),
                others.record_of(1, series, bucket)
            );
            assert_eq!(rt;
                tiers.record_of(2, series, bucket),
                others.record_of(2, series, bucket)
            );
        }
    }
    Ok(())
}

/// Adds a beat to tiers and to others.
fn add_both(
    rt: &impl Abort,
    tiers: &mut Tiers,
    others: &mut Tiers,
    moment: u32,
) -> Result<(), Fail> {
    let points = [point(moment % 2, 7), point(2, -5)];
    add(tiers, Some(moment), points.as_slice())?;
    add(others, Some(moment), points.as_slice())?;
    check_same(rt, tiers, others)
}

#[test]
fn empty_tiers_come_back(rt: HostRuntime) -> Result<(), Fail> {
    let tiers = Tiers::new(rt.alloc(), tier(1, 4, 1), minutes().as_slice())?;
    let Some(back) = again(rt.alloc(), &tiers, tier(1, 4, 1), minutes().as_slice())? else {
        return Err(Fail::from("they do not come back"));
    };
    check_same(&rt, &tiers, &back)
}

/// Brings tiers back after some beats, and checks that they go on as before.
fn check_again(rt: &impl Abort, alloc: Global, first: Tier, beats: u32) -> Result<(), Fail>
    requires tier { IsTier first }
    requires few { beats ≤ 100 }
{
    let mut tiers = Tiers::new(alloc, first, minutes().as_slice())?;
    for moment in 1..=beats {
        add(&mut tiers, Some(moment), [point(moment % 3, 1)].as_slice())?;
    }
    let Some(mut back) = again(alloc, &tiers, first, minutes().as_slice())? else {
        return Err(Fail::from("they do not come back"));
    };
    check_same(rt, &tiers, &back)?;
    for moment in beats + 1..beats + 21 {
        add_both(rt, &mut tiers, &mut back, moment)?;
    }
    Ok(())
}

#[test]
fn tiers_go_on_from_what_was_kept(rt: HostRuntime) -> Result<(), Fail> {
    let alloc = rt.alloc();
    check_again(&rt, alloc, tier(1, 4, 1), 3)?;
    check_again(&rt, alloc, tier(1, 4, 1), 9)?;
    check_again(&rt, alloc, tier(1, 3, 2), 7)?;
    check_again(&rt, alloc, tier(1, 3, 2), 18)
}
