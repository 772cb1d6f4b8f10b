//! The tests of `side_codec`: a side of a checkpoint, and its bytes.

use algorithms::Last;
use side_codec::{GapSpan, LastPoint, Side, SideRole, is_short, read_side, write_side};
use std::alloc::Global;
use std::test::Fail;

// A copy of child 7: the chart a.b with the dimensions x and y, of which x has a row and a point at
// 60, the alarm al with an event, and a gap from 60 to 120.
const SIDE: &[u8; 246] =
    b"\x02\x07\0\0\0\0\0\0\0\x01\0\0\0\0\0\0\0\x03\0a.b\0\0\0\0\0\0\0\0\x01\0c\0\xe8\x03\0\0\0\0\0\0\x0a\0\0\0\0\x02\0\0\0\0\0\0\0\0\0\0\0\x01\0x\0\0\0\x01\0\0\0\x01\0\0\0\0\x01\0\0\0\0\0\0\0\x01\0y\0\0\0\x01\0\0\0\x01\0\0\0\0\x3c\0\0\0\x01\x3c\0\0\0\xfb\xff\xff\xff\xff\xff\xff\xff\0\0\0\0\0\0\0\0\0\0\0\0\0\x01\x3c\0\0\0\0\0\0\x01\0\0\0\0\0\0\0\0\0\x01\0\0\0#\x01\0\0\0\x02\0al\0\0\0\0\x03\x03\xf6\xff\xff\xff\xff\xff\xff\xff\xff\xff\xff\xff\xff\xff\xff\xff\0\0\0\0\0\0\0\0\0\0\0\0\0\x05\0\0\0\0\0\0\0\x01\0\0\0\x06\0\0\0\0\0\0\0\x3c\0\0\0\x03\0a.b\x02\0al\x02\x03\0\x01x\0\0\0\x01\0\0\0\x3c\0\0\0x\0\0\0";

fn side_of(alloc: Global, bytes: &[u8]) -> Result<Side, Fail> {
    Ok(read_side(alloc, bytes)?)
}

/// Whether a side is written as these bytes.
fn is_written_as(alloc: Global, side: &Side, bytes: &[u8]) -> Result<bool, Fail> {
    if !is_short(side) {
        return Ok(false);
    }
    Ok(write_side(alloc, side)?.as_slice() == bytes)
}

#[test]
fn a_side_is_read_and_written_again(rt: HostRuntime) -> Result<(), Fail> {
    let side = side_of(rt.alloc(), SIDE)?;
    assert!(rt; is_written_as(rt.alloc(), &side, SIDE)?);
    Ok(())
}

#[test]
fn the_parts_of_a_side_are_read(rt: HostRuntime) -> Result<(), Fail> {
    let side = side_of(rt.alloc(), SIDE)?;
    assert_eq!(rt; side.role, SideRole::Copies(7));
    let row = Last {
        moment: 60,
        value: -5,
    };
    assert_eq!(rt; side.last_rows.as_slice(), [Some(row), None].as_slice());
    let point = LastPoint {
        moment: 60,
        word: 0x0100_0000,
    };
    assert_eq!(rt; side.last_points.as_slice(), [Some(point), None].as_slice());
    let gap = GapSpan { from: 60, to: 120 };
    assert_eq!(rt; side.gaps.as_slice(), [gap].as_slice());
    for event in side.alarms.events.as_slice() {
        assert_eq!(rt; (event.id, event.due), (6, Some(120)));
    }
    Ok(())
}
