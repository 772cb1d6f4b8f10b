//! The tests of `tier_rollup`: the records of buckets.

use fixed_num::{Record, Units};
use tier_rollup::Roller;

const TEN: Units = 100_000_000;

// Adds a point whose size is within the limit.
fn add(roller: &mut Roller, moment: u32, units: i32, anomalous: bool) -> Option<(u32, Record)> {
    roller.add(moment, Units::from(units), anomalous)
}

fn record(min: Units, max: Units, sum: Units, count: u32, anomalies: u32) -> Record {
    Record {
        min,
        max,
        sum,
        count,
        anomalies,
    }
}

#[test]
fn a_minute_is_closed_by_the_next(rt: HostRuntime) {
    let mut roller = Roller::new(60);
    assert_eq!(rt; add(&mut roller, 59, 100_000_000, false), None);
    let closed = add(&mut roller, 60, 200_000_000, false);
    assert_eq!(rt; closed, Some((0, record(TEN, TEN, TEN, 1, 0))));
    assert_eq!(rt;
        roller.open_record(),
        Some((1, record(2 * TEN, 2 * TEN, 2 * TEN, 1, 0)))
    );
}

#[test]
fn negative_values_and_anomalies(rt: HostRuntime) {
    let mut roller = Roller::new(60);
    assert_eq!(rt; add(&mut roller, 120, -5, true), None);
    assert_eq!(rt; add(&mut roller, 121, -7, false), None);
    assert_eq!(rt; add(&mut roller, 179, -6, true), None);
    assert_eq!(rt;
        roller.close_before(180),
        Some((2, record(-7, -5, -18, 3, 2)))
    );
}

#[test]
fn empty_buckets_hand_out_nothing(rt: HostRuntime) {
    let mut roller = Roller::new(60);
    assert_eq!(rt; add(&mut roller, 0, 3, false), None);
    assert_eq!(rt;
        add(&mut roller, 6_000, 4, false),
        Some((0, record(3, 3, 3, 1, 0)))
    );
    assert_eq!(rt; add(&mut roller, 6_001, 5, false), None);
    assert_eq!(rt;
        roller.close_before(u32::MAX),
        Some((100, record(4, 5, 9, 2, 0)))
    );
    assert_eq!(rt; roller.close_before(u32::MAX), None);
}

#[test]
fn a_second_is_a_bucket(rt: HostRuntime) {
    let mut roller = Roller::new(1);
    assert_eq!(rt; add(&mut roller, 4_294_967_294, 1, false), None);
    let closed = add(&mut roller, 4_294_967_295, 2, true);
    assert_eq!(rt; closed, Some((4_294_967_294, record(1, 1, 1, 1, 0))));
    assert_eq!(rt; roller.close_before(u32::MAX), None);
    assert_eq!(rt;
        roller.open_record(),
        Some((u32::MAX, record(2, 2, 2, 1, 1)))
    );
}

#[test]
fn an_hour_goes_on_after_a_restart(rt: HostRuntime) {
    let mut roller = Roller::resume(3_600, 2, record(-1, 4, 3, 2, 1));
    assert_eq!(rt; roller.close_before(10_799), None);
    assert_eq!(rt; add(&mut roller, 10_799, 9, true), None);
    assert_eq!(rt;
        add(&mut roller, 10_800, 1, false),
        Some((2, record(-1, 9, 12, 3, 2)))
    );
}

#[test]
fn what_is_closed_is_not_open(rt: HostRuntime) {
    let mut roller = Roller::new(60);
    assert_eq!(rt; roller.open_record(), None);
    assert_eq!(rt; add(&mut roller, 30, 1, false), None);
    assert_eq!(rt; roller.close_before(59), None);
    assert_eq!(rt; roller.close_before(60), Some((0, record(1, 1, 1, 1, 0))));
    assert_eq!(rt; roller.open_record(), None);
    assert_eq!(rt; add(&mut roller, 60, 2, false), None);
}
