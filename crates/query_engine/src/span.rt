ghost use Rattle.std.specs.Prelude.{◌≡◌, ◌+◌, ◌<◌, ◌≤◌, ◌^◌, IsTrue};
ghost use Rattle.query_engine.specs.Points.{are_series};
ghost use Rattle.query_engine.specs.Joining.{joined, record_of_one, HaveRoom};
ghost use Rattle.query_engine.specs.Windows.{is_between, record_between};

use crate::joining;
use crate::point::Point;
use fixed_num::Record;

fn is_between(from: u64, to: u64, moment: u32) -> bool
    ensures { result ≡ is_between from to moment }
{
    from <= u64::from(moment) && u64::from(moment) < to
}

/// A record with a further point, where the point lies from one moment to before another.
fn with_point(before: Option<Record>, from: u64, to: u64, point: Point) -> Option<Record>
    ensures { let more = record_of_one from to point in HaveRoom before more
        → result ≡ joined before more }
{
    let more = if is_between(from, to, point.moment) {
        joining::record_of_point(point)
    } else {
        None
    };
    joining::joined(before, more)
}

/// What the points from one moment to before another come to.
pub(crate) fn record_between(points: &[Point], from: u64, to: u64) -> Option<Record>
    ensures { IsTrue (are_series points.now) → to < from + 2 ^ 32
        → result ≡ record_between from to points.now }
{
    let mut record = None;
    for point in points {
        record = with_point(record, from, to, *point);
    }
    record
}
