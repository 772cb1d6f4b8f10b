//! The points that the tests share, and what was last seen at a beat.
ghost use Rattle.std.specs.Prelude.{IfOk, IsTrue};
ghost use Rattle.std.specs.List.{list_all};
ghost use Rattle.query_engine.specs.Points.{are_series};

use alarm_core::{Latest, SeriesPointList, SeriesValueList};
use fixed_num::{Frac, Units};
use query_engine::{ListPoints, MomentList, Point, PointList, SeriesPointsList};
use std::alloc::Global;
use std::test::Fail;
use storage_number::pack;

/// Points by their moments and words.
macro_rules! points {
    ($alloc:expr; $(($moment:expr, $word:expr)),*) => {
        PointList::from_vec(vec![in $alloc; $(Point { moment: $moment, word: $word }),*]?)
    };
}

/// 10 at 1, -20 at 2, 30 at 3, and an anomalous 4 at 5.
fn four_points(alloc: Global) -> Result<PointList, Fail>
    ensures { IfOk result (λ points. IsTrue (are_series points)) }
{
    Ok(points![alloc; (1, 0x3198_9680), (2, 0xa91e_8480), (3, 0x292d_c6c0), (5, 0x303d_0900)])
}

/// 5 at 2, and 7 at 4.
fn two_points(alloc: Global) -> Result<PointList, Fail>
    ensures { IfOk result (λ points. IsTrue (are_series points)) }
{
    Ok(points![alloc; (2, 0x314c_4b40), (4, 0x316a_cfc0)])
}

/// Series 0 has four points, and each other one the same two.
fn all_points(alloc: Global) -> Result<SeriesPointsList, Fail>
    ensures { IfOk result (λ all. IsTrue (list_all are_series all)) }
{
    let a = four_points(alloc)?;
    let b = two_points(alloc)?;
    let c = two_points(alloc)?;
    let x = two_points(alloc)?;
    Ok(SeriesPointsList::from_vec(vec![in alloc; a, b, c, x]?))
}

/// The points of all, where those before moment 1 are gone.
pub fn source(alloc: Global) -> Result<ListPoints, Fail> {
    let points = all_points(alloc)?;
    Ok(ListPoints::new(
        MomentList::from_vec(vec![in alloc; 1]?),
        MomentList::from_vec(vec![in alloc; 1]?),
        points,
    ))
}

/// The point of a value at a moment.
fn point(moment: u32, value: i32) -> Point {
    let word = pack(
        Frac {
            num: Units::from(value),
            den: 1,
        },
        false,
        false,
    );
    Point { moment, word }
}

/// What was last seen at a moment behind another: the values of the first series. What was collected is less by 1.
pub fn latest(alloc: Global, before: u32, moment: u32, values: &[i32]) -> Result<Latest, Fail> {
    let mut charts = MomentList::new(alloc);
    charts.push(moment)?;
    let mut points = SeriesPointList::new(alloc);
    let mut raws = SeriesValueList::new(alloc);
    for value in values {
        points.push(Some(point(moment, *value)))?;
        raws.push(Some(i64::from(*value) - 1))?;
    }
    Ok(Latest {
        before,
        charts,
        points,
        raws,
    })
}
