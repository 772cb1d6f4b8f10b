//! Windows over the points of series and the records of tiers.
//!
//! What is asked is some series, a row of windows of equal length, and a group. A cell of the answer is the group
//! of all points of a series in a window, and empty where there are none, or where the window starts below the
//! floor of the tier that is read. Proved is that the table is the definition's, which filters the list of all
//! points and knows no record, whatever tier was read. Of those that may be read it is the one with the lowest
//! floor, on a tie the highest. An average and a rate are rounded once. Points come from an object that is
//! `Points`, and an answer leaves it as it was.
//!
//! A window costs by the points and records that are there, not by its seconds.
//!
//! It stands on `storage_number`, on the records of `tier_rollup` and on the rounding of `fixed_num`.
#![tactic(auto)]

mod answers;
mod cell;
mod fault;
mod joining;
mod law;
mod list_points;
mod plan;
mod point;
mod points;
mod request;
mod span;
mod table;
mod window;

pub use answers::answer;
pub use fault::PointFault;
pub use law::{series_can_be_rolled, tiers_give_equal_cells};
pub use list_points::ListPoints;
pub use point::{MomentList, Point, PointList, SeriesPointsList};
pub use points::Points;
pub use request::{Group, Request, SeriesList};
pub use table::{CellList, Table, TableRow, TableRowList};
