//! The tests of `query_engine`: windows over points and records.

use fixed_num::{Record, Units};
use query_engine::{
    CellList, Group, ListPoints, MomentList, Point, PointFault, PointList, Points, Request,
    SeriesList, SeriesPointsList, answer,
};
use std::alloc::Global;
use std::test::Fail;

/// A point of each series has its word from the layout of storage numbers, as 10 is `0x3198_9680`.
macro_rules! points {
    ($rt:expr; $(($moment:expr, $word:expr)),*) => {
        PointList::from_vec(vec![in $rt.alloc(); $(Point { moment: $moment, word: $word }),*]?)
    };
}

macro_rules! moments {
    ($rt:expr; $($moment:expr),*) => {
        MomentList::from_vec(vec![in $rt.alloc(); $($moment),*]?)
    };
}

mod random;
mod wide;

#[test]
fn two_minutes(rt: HostRuntime) -> Result<(), Fail> {
    let points = points![rt; (59, 0x3198_9680), (60, 0x291e_8480)];
    let mut source = ListPoints::new(
        moments![rt; 1, 60, 3_600],
        moments![rt; 0, 0, 0],
        SeriesPointsList::from_vec(vec![in rt.alloc(); points]?),
    );
    let request = Request {
        series: SeriesList::from_vec(vec![in rt.alloc(); 0, 1]?),
        after: 0,
        window: 60,
        rows: 2,
        group: Group::Sum,
    };
    let table = answer(rt.alloc(), &mut source, &request)?;
    let rows = table.rows.as_slice();
    assert_eq!(rt; rows.len(), 2);
    assert_eq!(rt; rows[0].start, 0);
    assert_eq!(rt;
        rows[0].cells.as_slice(),
        [Some(100_000_000), None].as_slice()
    );
    assert_eq!(rt; rows[1].start, 60);
    assert_eq!(rt;
        rows[1].cells.as_slice(),
        [Some(200_000_000), None].as_slice()
    );
    Ok(())
}

/// Three windows of a series, by their length and where the first starts, and their cells.
type Case = (u32, u32, u32, Group, [Option<Units>; 3]);

// Over widths of 1, 60 and 3,600 seconds with floors of 100, 60 and 0. Series 0 has 10 at 59, 20 at 60, -5
// at 61, 3 at 119, 7.5 at 180, 1 at 3,599, -2.5 at 3,600, 4 at 7,200 and 6 at the last moment, of which
// those at 61 and 180 are anomalous. Series 1 has an anomalous -100 at 130, no value at 131, and from 300
// on 1, 2, 0 and 1 ten-millionths. Series 2 is empty, and there is no series 9.
const CASES: [Case; 40] = [
    (
        0,
        0,
        3_600,
        Group::Average,
        [Some(60_833_333), Some(-25_000_000), Some(40_000_000)],
    ),
    (
        0,
        0,
        3_600,
        Group::Min,
        [Some(-50_000_000), Some(-25_000_000), Some(40_000_000)],
    ),
    (
        0,
        0,
        3_600,
        Group::Max,
        [Some(200_000_000), Some(-25_000_000), Some(40_000_000)],
    ),
    (
        0,
        0,
        3_600,
        Group::Sum,
        [Some(365_000_000), Some(-25_000_000), Some(40_000_000)],
    ),
    (
        0,
        0,
        3_600,
        Group::Count,
        [Some(60_000_000), Some(10_000_000), Some(10_000_000)],
    ),
    (
        0,
        0,
        3_600,
        Group::AnomalyRate,
        [Some(333_333_333), Some(0), Some(0)],
    ),
    (
        0,
        60,
        3_600,
        Group::Average,
        [Some(40_000_000), Some(40_000_000), None],
    ),
    (
        0,
        60,
        3_600,
        Group::Min,
        [Some(-50_000_000), Some(40_000_000), None],
    ),
    (
        0,
        60,
        3_600,
        Group::Sum,
        [Some(240_000_000), Some(40_000_000), None],
    ),
    (
        0,
        60,
        3_600,
        Group::AnomalyRate,
        [Some(333_333_333), Some(0), None],
    ),
    (0, 0, 60, Group::Average, [None, Some(60_000_000), None]),
    (0, 0, 60, Group::Max, [None, Some(200_000_000), None]),
    (0, 0, 60, Group::Count, [None, Some(30_000_000), None]),
    (
        0,
        0,
        60,
        Group::AnomalyRate,
        [None, Some(333_333_333), None],
    ),
    (0, 0, 30, Group::Sum, [None, None, None]),
    (0, 90, 30, Group::Sum, [None, None, None]),
    (0, 90, 10, Group::Sum, [None, None, Some(30_000_000)]),
    (0, 105, 15, Group::Sum, [Some(30_000_000), None, None]),
    (0, 100, 100, Group::Sum, [Some(105_000_000), None, None]),
    (
        0,
        100,
        100,
        Group::AnomalyRate,
        [Some(500_000_000), None, None],
    ),
    (
        0,
        119,
        61,
        Group::Count,
        [Some(10_000_000), Some(10_000_000), None],
    ),
    (0, 119, 62, Group::Average, [Some(52_500_000), None, None]),
    (0, 61, 60, Group::Max, [None, Some(75_000_000), None]),
    (
        0,
        101,
        60,
        Group::Max,
        [Some(30_000_000), Some(75_000_000), None],
    ),
    (0, 120, 120, Group::Min, [Some(75_000_000), None, None]),
    (0, 1, 3_600, Group::Sum, [None, Some(40_000_000), None]),
    (
        0,
        3_599,
        1,
        Group::Sum,
        [Some(10_000_000), Some(-25_000_000), None],
    ),
    (
        0,
        3_600,
        3_600,
        Group::Average,
        [Some(-25_000_000), Some(40_000_000), None],
    ),
    (
        0,
        3_540,
        60,
        Group::Min,
        [Some(10_000_000), Some(-25_000_000), None],
    ),
    (0, 7_200, 7_200, Group::Max, [Some(40_000_000), None, None]),
    (
        0,
        4_294_967_280,
        60,
        Group::Sum,
        [Some(60_000_000), None, None],
    ),
    (
        0,
        4_294_967_295,
        1,
        Group::Sum,
        [Some(60_000_000), None, None],
    ),
    (
        0,
        0,
        4_294_967_295,
        Group::Count,
        [None, Some(10_000_000), None],
    ),
    (
        0,
        100,
        4_294_967_295,
        Group::Sum,
        [Some(190_000_000), None, None],
    ),
    (1, 0, 60, Group::Sum, [None, None, Some(-1_000_000_000)]),
    (1, 130, 1, Group::Count, [Some(10_000_000), None, None]),
    (
        1,
        60,
        120,
        Group::AnomalyRate,
        [Some(1_000_000_000), None, Some(0)],
    ),
    (1, 300, 2, Group::Average, [Some(2), Some(0), None]),
    (2, 0, 3_600, Group::Count, [None, None, None]),
    (9, 0, 60, Group::Sum, [None, None, None]),
];

/// The cells of three windows of a series.
fn three_cells<P: Points>(
    alloc: Global,
    source: &mut P,
    series: u32,
    after: u32,
    window: u32,
    group: Group,
) -> Result<CellList, PointFault> {
    let request = Request {
        series: SeriesList::from_vec(vec![in alloc; series]?),
        after,
        window,
        rows: 3,
        group,
    };
    let mut cells = CellList::new(alloc);
    for row in answer(alloc, source, &request)?.rows.as_slice() {
        for cell in row.cells.as_slice() {
            cells.push(*cell)?;
        }
    }
    Ok(cells)
}

#[test]
fn windows_by_hand(rt: HostRuntime) -> Result<(), Fail> {
    let first = points![rt;
        (59, 0x3198_9680), (60, 0x291e_8480), (61, 0xb04c_4b40), (119, 0x312d_c6c0), (180, 0x3072_70e0),
        (3_599, 0x3998_9680), (3_600, 0xb126_25a0), (7_200, 0x313d_0900), (4_294_967_295, 0x315b_8d80)
    ];
    let second = points![rt;
        (130, 0xa898_9680), (131, 0), (300, 0x3900_0001), (301, 0x3900_0002), (302, 0x0100_0000),
        (303, 0x3900_0001)
    ];
    let mut source = ListPoints::new(
        moments![rt; 1, 60, 3_600],
        moments![rt; 100, 60, 0],
        SeriesPointsList::from_vec(vec![in rt.alloc(); first, second, PointList::new(rt.alloc())]?),
    );
    for (series, after, window, group, want) in CASES {
        let cells = three_cells(rt.alloc(), &mut source, series, after, window, group)?;
        assert_eq!(rt;
            cells.as_slice(),
            want.as_slice(),
            "{series} {after} {window}"
        );
    }
    Ok(())
}

/// An object that keeps silent, and of which a read fails after so many good ones.
#[derive(Drop)]
struct Broken {
    good: u32,
    faults: u64,
}

impl Points for Broken {
    ghost use Rattle.std.specs.Prelude.{[], ◌∷◌, refl};

    ghost tiers = { λ _. record { widths = 1 ∷ 7 ∷ []; floor = λ _. 0 } };

    ghost tells = { λ _ told. ⊥ };

    ghost faults = { λ source. source.faults };

    ghost held = { λ _. tt };

    fn widths(&self) -> &[u32] {
        &[1, 7]
    }

    fn floor(&self, _tier: u8) -> u32 {
        0
    }

    fn points(
        &mut self,
        alloc: Global,
        _series: u32,
        _from: u32,
        _to: u32,
    ) -> Result<PointList, PointFault> {
        if self.good == 0 {
            self.faults = self.faults.saturating_add(1);
            return Err(PointFault::Disk);
        }
        self.good -= 1;
        Ok(PointList::new(alloc))
    }

    fn record_of(
        &mut self,
        _alloc: Global,
        _tier: u8,
        _series: u32,
        _bucket: u32,
    ) -> Result<Option<Record>, PointFault> {
        Ok(None)
    }

    fn next_record(
        &mut self,
        _alloc: Global,
        _tier: u8,
        _series: u32,
        _from: u32,
        _to: u32,
    ) -> Result<Option<(u32, Record)>, PointFault> {
        Ok(None)
    }

    ghost rising_widths = { λ source. refl };

    ghost rising_series = { λ source told tells series. absurd tells };
}

#[test]
fn a_read_that_fails(rt: HostRuntime) -> Result<(), Fail> {
    for (good, want) in [(0, false), (2, false), (3, true)] {
        let mut source = Broken { good, faults: 0 };
        let cells = three_cells(rt.alloc(), &mut source, 0, 0, 60, Group::Count);
        assert_eq!(rt; cells.is_ok(), want, "{good}");
        assert_eq!(rt; source.faults == 0, want, "{good}");
    }
    Ok(())
}
