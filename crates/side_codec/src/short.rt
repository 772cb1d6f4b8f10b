//! Whether the parts of a side fit one another.
ghost use Rattle.std.specs.Prelude.{◌≡◌, ◌↔◌, IsTrue};
ghost use Rattle.side_codec.specs.Lasts.{AreLastsFor};
ghost use Rattle.side_codec.specs.Sides.{IsShort};

use crate::definitions;
use crate::format::SideFormat;
use crate::last_point::LastPoint;
use crate::limits::MOST_GAPS;
use crate::side::Side;
use field_codec::list::are_short;

fn are_lasts_for(side: &Side) -> bool
    ensures { IsTrue result ↔ AreLastsFor side.now }
{
    side.chart_moments.len() == side.charts.len()
        && side.last_rows.len() == side.dimensions.len()
        && side.last_points.len() == side.dimensions.len()
        && are_short::<SideFormat, Option<LastPoint>>(side.last_points.as_slice())
}

/// Whether a side has a spelling: its charts and dimensions are few, at the places of their numbers
/// and within their limits, and each dimension is of a chart that is there; there is a moment for
/// each chart, and a row and a point, or none, for each series; the words of points are storage
/// numbers; the alarms have a spelling, and there are at most `MOST_GAPS` gaps.
pub fn is_short(side: &Side) -> bool
    ensures { IsTrue result ↔ IsShort side.now }
{
    definitions::are_registered(side.charts.as_slice(), side.dimensions.as_slice())
        && are_lasts_for(side)
        && alarm_events::is_short(&side.alarms)
        && side.gaps.len() <= MOST_GAPS
}
