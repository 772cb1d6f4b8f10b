//! Wide windows over few points: an answer costs by what is there.
use fixed_num::Record;
use query_engine::{
    Group, ListPoints, MomentList, Point, PointFault, PointList, Points, Request, SeriesList,
    SeriesPointsList, answer,
};
use std::alloc::Global;
use std::process::Abort;
use std::test::Fail;

/// Three points of one series, far apart.
macro_rules! three_points {
    ($rt:expr) => {
        SeriesPointsList::from_vec(vec![in $rt.alloc(); points![$rt;
            (59, 0x3198_9680), (2_000_000_000, 0x291e_8480), (4_294_967_295, 0x315b_8d80)
        ]]?)
    };
}

/// Points that count how often they are asked.
#[derive(Drop)]
struct Counting<P> {
    points: P,
    calls: u32,
}

impl<P: Points> Points for Counting<P> {
    ghost tiers = { λ source. P.tiers source.points };

    ghost tells = { λ source. P.tells source.points };

    ghost faults = { λ source. P.faults source.points };

    ghost Held = { P.Held };

    ghost held = { λ source. P.held source.points };

    fn widths(&self) -> &[u32] {
        self.points.widths()
    }

    fn floor(&self, tier: u8) -> u32 {
        self.points.floor(tier)
    }

    fn points(
        &mut self,
        alloc: Global,
        series: u32,
        from: u32,
        to: u32,
    ) -> Result<PointList, PointFault> {
        self.calls = self.calls.saturating_add(1);
        self.points.points(alloc, series, from, to)
    }

    fn record_of(
        &mut self,
        alloc: Global,
        tier: u8,
        series: u32,
        bucket: u32,
    ) -> Result<Option<Record>, PointFault> {
        self.calls = self.calls.saturating_add(1);
        self.points.record_of(alloc, tier, series, bucket)
    }

    fn next_record(
        &mut self,
        alloc: Global,
        tier: u8,
        series: u32,
        from: u32,
        to: u32,
    ) -> Result<Option<(u32, Record)>, PointFault> {
        self.calls = self.calls.saturating_add(1);
        self.points.next_record(alloc, tier, series, from, to)
    }

    ghost rising_widths = { λ source. P.rising_widths source.points };

    ghost rising_series = { λ source told tells series.
        P.rising_series source.points told tells series };
}

/// Asks for the sums of two windows, which together have every moment, and counts the calls.
fn calls_for(rt: &impl Abort, alloc: Global, points: ListPoints) -> Result<u32, Fail> {
    let mut source = Counting { points, calls: 0 };
    let request = Request {
        series: SeriesList::from_vec(vec![in alloc; 0]?),
        after: 0,
        window: 4_294_967_280,
        rows: 2,
        group: Group::Sum,
    };
    let table = answer(alloc, &mut source, &request)?;
    let [first, second] = table.rows.as_slice() else {
        return Err(Fail::from("two rows"));
    };
    assert_eq!(rt; first.cells.as_slice(), [Some(300_000_000)].as_slice());
    assert_eq!(rt; second.cells.as_slice(), [Some(60_000_000)].as_slice());
    Ok(source.calls)
}

#[test]
fn a_wide_window_of_points(rt: HostRuntime) -> Result<(), Fail> {
    let source = ListPoints::new(moments![rt; 1], moments![rt; 0], three_points!(rt));
    let calls = calls_for(&rt, rt.alloc(), source)?;
    assert!(rt; calls < 40, "{calls}");
    Ok(())
}

#[test]
fn a_wide_window_of_records(rt: HostRuntime) -> Result<(), Fail> {
    let source = ListPoints::new(
        moments![rt; 1, 20, 60],
        moments![rt; 0, 0, 0],
        three_points!(rt),
    );
    assert_eq!(rt; calls_for(&rt, rt.alloc(), source)?, 4);
    Ok(())
}

#[test]
fn the_first_record(rt: HostRuntime) -> Result<(), Fail> {
    let points =
        points![rt; (59, 0x3198_9680), (60, 0x291e_8480), (61, 0xb04c_4b40), (62, 0), (200, 0x312d_c6c0)];
    let mut source = ListPoints::new(
        moments![rt; 1, 60],
        moments![rt; 0, 60],
        SeriesPointsList::from_vec(vec![in rt.alloc(); points]?),
    );
    let both = Record {
        min: -50_000_000,
        max: 200_000_000,
        sum: 150_000_000,
        count: 2,
        anomalies: 1,
    };
    let last = Record {
        min: 30_000_000,
        max: 30_000_000,
        sum: 30_000_000,
        count: 1,
        anomalies: 0,
    };
    for (from, to, want) in [
        (0, 9, Some((1, both))),
        (1, 1, Some((1, both))),
        (2, u32::MAX, Some((3, last))),
        (2, 2, None),
        (4, 9, None),
        (0, 0, None),
        (3, 1, None),
    ] {
        assert!(rt; 1 < source.widths().len());
        assert!(rt;
            source.next_record(rt.alloc(), 1, 0, from, to)? == want,
            "{from} {to}"
        );
    }
    Ok(())
}
