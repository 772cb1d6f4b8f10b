use super::*;

const WIDE: Tier = Tier {
    width: 1,
    items: 1_000,
    extents: 4,
};

const MINUTE: Tier = Tier {
    width: 60,
    items: 1_000,
    extents: 4,
};

/// Takes the beats of a minute and one behind it, and checks the records.
fn check_minute(rt: &impl Abort, tiers: &mut Tiers) -> Result<(), Fail> {
    add(tiers, Some(60), [point(3, 2), point(4, 3)].as_slice())?;
    add(tiers, Some(70), [point(4, -5)].as_slice())?;
    add(tiers, Some(119), [point(4, 7)].as_slice())?;
    // while the bucket is the last moment's
    assert_eq!(rt; tiers.record_of(1, 4, 1), Some(record(-5, 7, 5, 3)));
    add(tiers, Some(120), [point(4, 1)].as_slice())?;
    // and when it is over
    assert_eq!(rt; tiers.record_of(1, 4, 1), Some(record(-5, 7, 5, 3)));
    assert_eq!(rt; tiers.record_of(1, 3, 1), Some(record(2, 2, 2, 1)));
    assert_eq!(rt; tiers.record_of(1, 4, 2), Some(record(1, 1, 1, 1)));
    assert_eq!(rt; tiers.record_of(1, 3, 2), None);
    assert_eq!(rt; tiers.record_of(1, 4, 0), None);
    assert_eq!(rt; tiers.last(), 120);
    Ok(())
}

#[test]
fn a_minute(rt: HostRuntime) -> Result<(), Fail> {
    let mut tiers = Tiers::new(rt.alloc(), WIDE, [MINUTE].as_slice())?;
    check_minute(&rt, &mut tiers)
}

#[test]
fn a_word_that_is_none_is_no_value(rt: HostRuntime) -> Result<(), Fail> {
    let mut tiers = Tiers::new(rt.alloc(), WIDE, [MINUTE].as_slice())?;
    let none = BeatPoint {
        series: 0,
        step: 1,
        word: 0,
    };
    add(&mut tiers, Some(5), [none].as_slice())?;
    assert_eq!(rt; tiers.record_of(1, 0, 0), None);
    // it is a point
    let points = tiers.points(0, 5, 5)?;
    assert_eq!(rt;
        points.as_slice(),
        [Point { moment: 5, word: 0 }].as_slice()
    );
    Ok(())
}

/// Takes two beats hours apart, and checks the records of each bucket.
fn check_gap(rt: &impl Abort, tiers: &mut Tiers) -> Result<(), Fail> {
    add(tiers, Some(30), [point(0, 1)].as_slice())?;
    add(tiers, Some(20_000), [point(0, 2)].as_slice())?;
    assert_eq!(rt; tiers.record_of(1, 0, 0), Some(record(1, 1, 1, 1)));
    assert_eq!(rt; tiers.record_of(1, 0, 1), None);
    assert_eq!(rt; tiers.record_of(1, 0, 332), None);
    assert_eq!(rt; tiers.record_of(1, 0, 333), Some(record(2, 2, 2, 1)));
    assert_eq!(rt; tiers.record_of(2, 0, 0), Some(record(1, 1, 1, 1)));
    assert_eq!(rt; tiers.record_of(2, 0, 3), None);
    assert_eq!(rt; tiers.record_of(2, 0, 5), Some(record(2, 2, 2, 1)));
    Ok(())
}

#[test]
fn a_gap_of_hours(rt: HostRuntime) -> Result<(), Fail> {
    let mut tiers = Tiers::new(rt.alloc(), WIDE, [MINUTE, tier(3_600, 9, 9)].as_slice())?;
    check_gap(&rt, &mut tiers)
}

#[test]
fn tiers_that_are_not_there(rt: HostRuntime) -> Result<(), Fail> {
    let mut tiers = Tiers::new(rt.alloc(), WIDE, [MINUTE].as_slice())?;
    add(&mut tiers, Some(30), [point(0, 1)].as_slice())?;
    assert_eq!(rt; tiers.tiers(), 2);
    assert_eq!(rt; tiers.tier(0), Some(WIDE));
    assert_eq!(rt; tiers.tier(1), Some(MINUTE));
    assert_eq!(rt; tiers.tier(2), None);
    assert_eq!(rt; tiers.record_of(0, 0, 30), None);
    assert_eq!(rt; tiers.record_of(2, 0, 0), None);
    assert_eq!(rt; tiers.floor(2), 0);
    Ok(())
}
