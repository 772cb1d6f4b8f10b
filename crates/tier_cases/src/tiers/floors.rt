use super::*;

/// The items of a segment, the segments kept, the beats of one point each at 1, 2, 3 .., and the floor.
const ROWS: [(u32, u32, u32, u32); 14] = [
    (1, 1, 1, 0),
    (1, 1, 2, 2),
    (1, 1, 3, 3),
    (1, 2, 2, 0),
    (1, 2, 3, 2),
    (1, 3, 4, 2),
    (2, 1, 3, 0),
    (2, 1, 4, 3),
    (2, 1, 5, 3),
    (2, 1, 6, 5),
    (2, 2, 6, 3),
    (3, 1, 6, 4),
    (3, 3, 11, 0),
    (3, 3, 12, 4),
];

#[test]
fn floors_of_points(rt: HostRuntime) -> Result<(), Fail> {
    for (items, extents, beats, floor) in ROWS {
        let mut tiers = Tiers::new(
            rt.alloc(),
            tier(1, items.max(1), extents.max(1)),
            [].as_slice(),
        )?;
        for moment in 1..=beats {
            add(&mut tiers, Some(moment), [point(0, 1)].as_slice())?;
        }
        assert_eq!(rt; tiers.floor(0), floor, "{items} {extents} {beats}");
    }
    Ok(())
}

#[test]
fn floors_of_four_points_a_segment(rt: HostRuntime) -> Result<(), Fail> {
    let others = [tier(60, 100, 1), tier(3600, 100, 1)];
    let mut tiers = Tiers::new(rt.alloc(), tier(1, 4, 1), others.as_slice())?;
    for moment in 1..=12 {
        add(&mut tiers, Some(moment), [point(0, 1)].as_slice())?;
        let floor = match moment {
            1..=7 => 0,
            8..=11 => 5,
            _ => 9,
        };
        assert_eq!(rt; tiers.floor(0), floor, "{moment}");
        assert_eq!(rt; tiers.floor(1), 0);
    }
    Ok(())
}

/// Takes beats of three series, and checks the points of each.
fn check_each_series(rt: &impl Abort, tiers: &mut Tiers) -> Result<(), Fail> {
    let points = [point(0, 1), point(7, 2), point(9, 3)];
    for moment in 1..=15 {
        add(tiers, Some(moment), points.as_slice())?;
    }
    check_moments(rt, tiers, 6, 9, [6, 7, 8, 9].as_slice())?;
    check_moments(rt, tiers, 14, 40, [14, 15].as_slice())?;
    assert_eq!(rt; tiers.points(7, 4, 15)?.len(), 12);
    assert_eq!(rt; tiers.points(9, 0, 3)?.len(), 3);
    assert_eq!(rt; tiers.points(8, 0, 40)?.len(), 0);
    Ok(())
}

#[test]
fn points_of_each_series(rt: HostRuntime) -> Result<(), Fail> {
    let mut tiers = Tiers::new(rt.alloc(), tier(1, 4, 9), [].as_slice())?;
    check_each_series(&rt, &mut tiers)
}

#[test]
fn a_segment_is_not_cut_within_a_beat(rt: HostRuntime) -> Result<(), Fail> {
    let mut tiers = Tiers::new(rt.alloc(), tier(1, 2, 1), [].as_slice())?;
    let three = [point(0, 1), point(1, 1), point(2, 1)];
    add(&mut tiers, Some(5), three.as_slice())?;
    assert_eq!(rt; tiers.floor(0), 0);
    add(&mut tiers, Some(6), three.as_slice())?;
    assert_eq!(rt; tiers.floor(0), 6);
    check_moments(&rt, &tiers, 0, 9, [6].as_slice())
}

/// Takes beats past two floors, and checks which points are answered after each.
fn check_floors_that_rise(rt: &impl Abort, tiers: &mut Tiers) -> Result<(), Fail> {
    take_each(tiers, [10, 11, 12].as_slice())?;
    check_moments(rt, tiers, 0, 100, [10, 11, 12].as_slice())?;
    take_each(tiers, [13].as_slice())?;
    assert_eq!(rt; tiers.floor(0), 12);
    check_moments(rt, tiers, 0, 100, [12, 13].as_slice())?;
    take_each(tiers, [14, 20].as_slice())?;
    assert_eq!(rt; tiers.floor(0), 14);
    check_moments(rt, tiers, 0, 100, [14, 20].as_slice())?;
    check_moments(rt, tiers, 14, 20, [14, 20].as_slice())?;
    check_moments(rt, tiers, 15, 20, [20].as_slice())?;
    check_moments(rt, tiers, 14, 19, [14].as_slice())?;
    check_moments(rt, tiers, 20, 14, [].as_slice())
}

#[test]
fn points_below_a_floor_are_not_answered(rt: HostRuntime) -> Result<(), Fail> {
    let mut tiers = Tiers::new(rt.alloc(), tier(1, 2, 1), [].as_slice())?;
    check_floors_that_rise(&rt, &mut tiers)
}

/// Takes beats past the floor of a record, and checks which records are answered.
fn check_records_below(rt: &impl Abort, tiers: &mut Tiers) -> Result<(), Fail> {
    take_each(tiers, [30, 70].as_slice())?;
    assert_eq!(rt; tiers.floor(1), 0);
    assert_eq!(rt; tiers.record_of(1, 0, 0), Some(record(1, 1, 1, 1)));
    take_each(tiers, [135].as_slice())?;
    // the record of bucket 0 was sealed at 70
    assert_eq!(rt; tiers.floor(1), 60);
    assert_eq!(rt; tiers.record_of(1, 0, 0), None);
    assert_eq!(rt; tiers.record_of(1, 0, 1), Some(record(1, 1, 1, 1)));
    assert_eq!(rt; tiers.record_of(1, 0, 2), Some(record(1, 1, 1, 1)));
    assert_eq!(rt; tiers.floor(0), 0);
    Ok(())
}

#[test]
fn records_below_a_floor_are_not_answered(rt: HostRuntime) -> Result<(), Fail> {
    let minute = tier(60, 1, 1);
    let mut tiers = Tiers::new(rt.alloc(), tier(1, 100, 1), [minute].as_slice())?;
    check_records_below(&rt, &mut tiers)
}

/// Takes beats with and without points, and checks the records that they close.
fn check_closed_records(rt: &impl Abort, tiers: &mut Tiers) -> Result<(), Fail> {
    take_each(tiers, [30].as_slice())?;
    add(tiers, Some(61), [].as_slice())?;
    take_each(tiers, [62].as_slice())?;
    assert_eq!(rt; tiers.floor(1), 0);
    add(tiers, Some(125), [].as_slice())?;
    assert_eq!(rt; tiers.floor(1), 60);
    assert_eq!(rt; tiers.record_of(1, 0, 0), None);
    assert_eq!(rt; tiers.record_of(1, 0, 1), Some(record(1, 1, 1, 1)));
    // a beat without a moment changes nothing
    add(tiers, None, [].as_slice())?;
    assert_eq!(rt; tiers.last(), 125);
    assert_eq!(rt; tiers.floor(1), 60);
    Ok(())
}

#[test]
fn a_beat_without_points_closes_records(rt: HostRuntime) -> Result<(), Fail> {
    let minute = tier(60, 1, 1);
    let mut tiers = Tiers::new(rt.alloc(), tier(1, 100, 1), [minute].as_slice())?;
    check_closed_records(&rt, &mut tiers)
}

#[test]
fn a_floor_at_the_last_moment_of_the_type(rt: HostRuntime) -> Result<(), Fail> {
    let mut tiers = Tiers::new(rt.alloc(), tier(1, 1, 1), [].as_slice())?;
    take_each(&mut tiers, [u32::MAX, u32::MAX].as_slice())?;
    assert_eq!(rt; tiers.floor(0), u32::MAX);
    check_moments(&rt, &tiers, 0, u32::MAX, [u32::MAX].as_slice())
}

/// Takes beats, of which the last alone is kept.
fn take_five(tiers: &mut Tiers) -> Result<(), AllocError> {
    add(tiers, Some(10), [point(0, 1), point(1, 2)].as_slice())?;
    add(tiers, Some(11), [].as_slice())?;
    take_each(tiers, [12, 13].as_slice())?;
    // the two segments behind the first are sealed at 13 and 14
    add(tiers, Some(14), [point(2, 3), point(5, 4)].as_slice())
}

fn check_kept_beat(rt: &impl Abort, beat: &KeptBeat) {
    assert_eq!(rt; beat.moment, 14);
    let points = [
        KeptPoint {
            series: 2,
            word: word(3),
        },
        KeptPoint {
            series: 5,
            word: word(4),
        },
    ];
    assert_eq!(rt; beat.points.as_slice(), points.as_slice());
}

fn check_kept(rt: &impl Abort, tiers: &Tiers) -> Result<(), Fail> {
    let kept = tiers.kept()?;
    assert_eq!(rt; kept.before, 3);
    assert_eq!(rt; kept.beats.len(), 1);
    for beat in kept.beats.as_slice() {
        check_kept_beat(rt, beat);
    }
    Ok(())
}

#[test]
fn kept_beats(rt: HostRuntime) -> Result<(), Fail> {
    let mut tiers = Tiers::new(rt.alloc(), tier(1, 2, 1), [].as_slice())?;
    take_five(&mut tiers)?;
    check_kept(&rt, &tiers)
}

/// Checks the moments of the kept beats above a moment.
fn check_above(
    rt: &impl Abort,
    tiers: &Tiers,
    from: u32,
    most: usize,
    moments: &[u32],
) -> Result<(), Fail> {
    let beats = tiers.kept_above(from, most)?;
    assert_eq!(rt; beats.len(), moments.len());
    for (beat, moment) in beats.as_slice().iter().zip(moments) {
        assert_eq!(rt; beat.moment, *moment);
        assert_eq!(rt; beat.points.len(), 1);
    }
    Ok(())
}

/// Takes beats past a floor, and checks which are kept above a moment.
fn check_kept_above(rt: &impl Abort, tiers: &mut Tiers) -> Result<(), Fail> {
    take_each(tiers, [10, 20, 30, 40, 50, 60, 70].as_slice())?;
    // the beats at 10 and 20 have expired
    check_above(rt, tiers, 0, 9, [30, 40, 50, 60, 70].as_slice())?;
    check_above(rt, tiers, 0, 2, [30, 40].as_slice())?;
    check_above(rt, tiers, 39, 3, [40, 50, 60].as_slice())?;
    check_above(rt, tiers, 40, 3, [50, 60, 70].as_slice())?;
    check_above(rt, tiers, 69, 1, [70].as_slice())?;
    check_above(rt, tiers, 70, 1, [].as_slice())?;
    check_above(rt, tiers, u32::MAX, 9, [].as_slice())?;
    check_above(rt, tiers, 0, 0, [].as_slice())
}

#[test]
fn kept_beats_above_a_moment(rt: HostRuntime) -> Result<(), Fail> {
    let mut tiers = Tiers::new(rt.alloc(), tier(1, 2, 2), [].as_slice())?;
    check_kept_above(&rt, &mut tiers)
}
