//! The tests of `link_frames`: frames as bytes, and the bytes cut into frames.

use field_codec::ByteList;
use link_frames::{Frame, FrameFault, FrameList, FrameReader, write_frame};
use replication::Ask;
use std::alloc::Global;
use std::test::Fail;

/// An Ask of child 7 for what comes above 60.
const ASK: &[u8] = b"\x0d\0\0\0\x02\x07\0\0\0\0\0\0\0\x3c\0\0\0";

/// What a reader made of some bytes: how many frames, all of them written again, and its refusal.
#[derive(Drop)]
struct Reading {
    count: usize,
    again: ByteList,
    fault: Option<FrameFault>,
}

/// The frames written one after the other.
fn write_all(alloc: Global, frames: &FrameList) -> Result<ByteList, FrameFault> {
    let mut bytes = ByteList::new(alloc);
    for frame in frames.as_slice() {
        bytes.extend(write_frame(alloc, frame)?.as_slice())?;
    }
    Ok(bytes)
}

/// What a reader makes of bytes of which the first three come before the others.
fn read_in_two(alloc: Global, bytes: &[u8]) -> Result<Reading, FrameFault> {
    let mut reader = FrameReader::new(alloc);
    let mut frames = FrameList::new(alloc);
    let (first, second) = bytes.split_at(bytes.len().min(3));
    let _first = reader.feed(alloc, first, &mut frames);
    let fault = reader.feed(alloc, second, &mut frames).err();
    Ok(Reading {
        count: frames.len(),
        again: write_all(alloc, &frames)?,
        fault,
    })
}

#[test]
fn an_ask_is_written(rt: HostRuntime) -> Result<(), Fail> {
    let ask = Frame::Ask(Ask { child: 7, last: 60 });
    assert_eq!(rt; write_frame(rt.alloc(), &ask)?.as_slice(), ASK);
    Ok(())
}

/// Bytes, how many frames stand in them, and the refusal behind these.
const ROWS: [(&[u8], usize, Option<FrameFault>); 14] = [
    // One frame under way, and one of each kind but Data.
    (b"\x02\0\0\0\x05", 0, None),
    (b"\x09\0\0\0\x01\x07\0\0\0\0\0\0\0", 1, None),
    (ASK, 1, None),
    (b"\x05\0\0\0\x04\x3c\0\0\0", 1, None),
    (b"\x02\0\0\0\x05\x02", 1, None),
    // Bodies in no form: no kind, another kind, too few bytes, too many, another reason.
    (b"\0\0\0\0", 0, Some(FrameFault::BadFrame)),
    (b"\x01\0\0\0\x06", 0, Some(FrameFault::BadFrame)),
    (b"\x04\0\0\0\x04\x3c\0\0", 0, Some(FrameFault::BadFrame)),
    (b"\x03\0\0\0\x05\0\0", 0, Some(FrameFault::BadFrame)),
    (b"\x02\0\0\0\x05\x03", 0, Some(FrameFault::BadFrame)),
    // Lengths of 2^24, and of one more.
    (b"\0\0\0\x01", 0, None),
    (b"\x01\0\0\x01", 0, Some(FrameFault::FrameTooLong)),
    // The frames before a refusal count, and none after it.
    (
        b"\x02\0\0\0\x05\0\x01\0\0\0\x05\x02\0\0\0\x05\0",
        1,
        Some(FrameFault::BadFrame),
    ),
    (
        b"\x02\0\0\0\x05\0\x02\0\0\0\x05\x01\x01\0\0\x01\x05",
        2,
        Some(FrameFault::FrameTooLong),
    ),
];

#[test]
fn reads_the_frames_of_bytes(rt: HostRuntime) -> Result<(), Fail> {
    for (bytes, count, fault) in ROWS {
        let read = read_in_two(rt.alloc(), bytes)?;
        assert_eq!(rt; (read.count, read.fault), (count, fault), "{bytes:?}");
        assert!(rt; bytes.starts_with(read.again.as_slice()), "{bytes:?}");
    }
    Ok(())
}

/// A Data of two charts, two dimensions and two beats, behind its length.
const DATA: &[u8; 120] = b"\x74\0\0\0\
\x03\x07\0\0\0\0\0\0\0\x0a\0\0\0\x0a\0\0\0\x0c\0\0\0\0\0\0\0\
\x02\0\0\0\x03\0a.b\x01\0c\x01\0\0\0\x03\0a.y\0\0\x02\0\0\0\
\x02\0\0\0\0\0\0\0\x01\0d\0\x01\0\0\0\x01\0e\x01\
\x02\0\0\0\x0b\0\0\0\x02\0\0\0\0\0\0\0\0\0\0\x01\x01\0\0\0\0\0\0\x02\
\x0c\0\0\0\x01\0\0\0\0\0\0\0\0\0\0\x03";

#[test]
fn a_data_is_read_and_written(rt: HostRuntime) -> Result<(), Fail> {
    let read = read_in_two(rt.alloc(), DATA)?;
    assert_eq!(rt; read.again.as_slice(), DATA.as_slice());
    assert_eq!(rt; read.count, 1);
    Ok(())
}

/// A byte of the body of `DATA`, and another value for it with which no frame has the body.
const CHANGES: [(usize, u8); 20] = [
    // From is at least prev, the moments rise behind it, and the last is upto.
    (9, 11),
    (76, 10),
    (100, 11),
    (17, 13),
    // A chart's id has some bytes, one on each side of its first dot, and no line feed.
    (29, 0),
    (31, b'.'),
    (32, b'x'),
    (33, b'\n'),
    // The seconds between its values.
    (37, 0),
    (39, 2),
    // Each chart stands once and has a dimension, and each dimension has a chart and a word.
    (45, b'b'),
    (64, 0),
    (56, 2),
    (92, 0),
    // A dimension's id has no line feed, and its mark is 0 or 1.
    (62, b'\n'),
    (63, 2),
    // A beat has a point, places rise, and words are storage numbers.
    (104, 0),
    (84, 1),
    (92, 2),
    (91, 0),
];

#[test]
fn a_data_in_no_form_is_refused(rt: HostRuntime) -> Result<(), Fail> {
    for (at, byte) in CHANGES {
        let mut bytes = *DATA;
        if let Some(place) = bytes.get_mut(at.saturating_add(4)) {
            *place = byte;
        }
        let read = read_in_two(rt.alloc(), &bytes)?;
        let wanted = (0, Some(FrameFault::BadFrame));
        assert_eq!(rt; (read.count, read.fault), wanted, "{at} {byte}");
    }
    Ok(())
}
