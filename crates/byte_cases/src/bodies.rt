//! The tests of `checkpoint_body`: a body as bytes, and the pages that points are cut into.

use checkpoint_body::{Body, Extent, Point, read_body, slot_pages, write_body};
use std::alloc::{AllocError, Global};
use std::test::Fail;

// Of tier 0 one extent, and a page of three slots from 400 on; of the tier of minutes an open record at 480, and a
// page of one record at 420; and two bytes beside.
const BODY: &[u8; 323] =
    b"\x01\x07\0\0\0\0\0\0\0\x03\0\0\0\x02\0\0\0\x02\0\0\0\x02\0\0\0\x02\0\0\0\x01\0\0\0\x09\0\0\0\0\0\0\0\xf4\x01\0\0d\0\0\0<\0\0\0\0\0\0\0\x04\0\0\0\0\0\0\0\x01\0\0\0\0\0\0\0\0\0\0\0\0\0\0\0\0\0\0\0\0\0\0\0\x01\0\0\0\x02\0\0\0\x0b\0\0\0\0\0\0\0,\x01\0\0\0\x10\0\0\0\0\0\0\x06\0\0\0\0\0\0\0\0\0\0\0\0\0\0\0\x01\0\0\0\x03\0\0\0\xe0\x01\0\0\xfb\xff\xff\xff\xff\xff\xff\xff\xff\xff\xff\xff\xff\xff\xff\xff\x06\0\0\0\0\0\0\0\0\0\0\0\0\0\0\0\x01\0\0\0\0\0\0\0\0\0\0\0\0\0\0\0\x02\0\0\0\x01\0\0\0\0\0\0\0\x01\0\0\0\x03\0\0\0\x90\x01\0\0\x0a\0\0\0\x03\0\0\0\0\0\0\x01\0\0\0\0\0\0\0\x02\x01\0\0\0\x03\0\0\0\xa4\x01\0\0<\0\0\0\x01\0\0\0\xfb\xff\xff\xff\xff\xff\xff\xff\xff\xff\xff\xff\xff\xff\xff\xff\x06\0\0\0\0\0\0\0\0\0\0\0\0\0\0\0\x01\0\0\0\0\0\0\0\0\0\0\0\0\0\0\0\x02\0\0\0\x01\0\0\0\0\0\0\0\x02\0\0\0ab";

fn body_of(alloc: Global, bytes: &[u8]) -> Result<Body, Fail> {
    Ok(read_body(alloc, bytes)?)
}

/// Whether what the bytes read as is written as them again.
fn is_written_again(alloc: Global, bytes: &[u8]) -> Result<bool, Fail> {
    let body = read_body(alloc, bytes)?;
    Ok(write_body(alloc, &body)?.as_slice() == bytes)
}

#[test]
fn a_body_is_written_as_it_was_read(rt: HostRuntime) -> Result<(), Fail> {
    assert!(rt; is_written_again(rt.alloc(), BODY)?);
    Ok(())
}

#[test]
fn the_parts_of_a_body_are_read(rt: HostRuntime) -> Result<(), Fail> {
    let body = body_of(rt.alloc(), BODY)?;
    assert_eq!(rt; (body.settings.id, body.count, body.last), (7, 9, 500));
    let extent = Extent {
        slot: 2,
        serial: 11,
        sealed_at: 300,
        size: 4_096,
        beats: 6,
    };
    assert_eq!(rt; body.points.extents.as_slice(), [extent].as_slice());
    for page in body.points.pages.as_slice() {
        assert_eq!(rt;
            page.words.as_slice(),
            [0x0100_0000, 0, 0x0200_0000].as_slice()
        );
    }
    Ok(())
}

/// First moment and count of slots of the page of each point: points of one series at these moments, 10 apart.
fn cut(alloc: Global, moments: &[u32]) -> Result<Vec<(u32, usize)>, AllocError> {
    let mut points = Vec::new(alloc);
    for moment in moments {
        points.push(Point {
            series: 3,
            moment: *moment,
            step: 10,
            word: 5,
        })?;
    }
    let pages = slot_pages(alloc, points.as_slice())?;
    let mut heads = Vec::new(alloc);
    for page in pages.as_slice() {
        heads.push((page.first, page.words.len()))?;
    }
    Ok(heads)
}

// A gap of seven steps is no end of a page, and one of eight is.
#[test]
fn points_share_a_page(rt: HostRuntime) -> Result<(), Fail> {
    assert_eq!(rt;
        cut(rt.alloc(), &[100, 110, 180, 260])?.as_slice(),
        [(100, 9), (260, 1)].as_slice()
    );
    Ok(())
}
