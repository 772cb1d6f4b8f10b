//! The tests of `plugin_text`: a text in pieces, and its lines.
ghost use Rattle.std.specs.Prelude.{◌<◌};

use plugin_text::{LINE_LIMIT, LineFault, LineList, Splitter};
use std::alloc::Global;
use std::test::Fail;

const TEXT: &[u8] =
    b"CHART test.one '' 'One' 'units'\nDIMENSION a\nBEGIN test.one\nSET a = 42\nEND\nMOMENT 60\n";

/// The lines of a text that comes in pieces of one size, and how many bytes follow them.
fn lines_in_pieces(alloc: Global, text: &[u8], size: usize) -> Result<(LineList, usize), LineFault>
    requires { 0 < size }
{
    let mut splitter = Splitter::new(alloc);
    let mut lines = LineList::new(alloc);
    for piece in text.chunks(size) {
        splitter.feed(piece, &mut lines)?;
    }
    Ok((lines, splitter.rest().len()))
}

fn is_lines(lines: &LineList, wanted: &[&[u8]]) -> bool {
    if lines.len() != wanted.len() {
        return false;
    }
    for (at, want) in wanted.iter().enumerate() {
        if lines.line(at) != *want {
            return false;
        }
    }
    true
}

#[test]
fn gives_the_same_lines_for_every_cut(rt: HostRuntime) -> Result<(), Fail> {
    let wanted = [
        b"CHART test.one '' 'One' 'units'".as_slice(),
        b"DIMENSION a".as_slice(),
        b"BEGIN test.one".as_slice(),
        b"SET a = 42".as_slice(),
        b"END".as_slice(),
        b"MOMENT 60".as_slice(),
    ];
    for size in [1, 2, 13, 32, 100] {
        let (lines, left) = lines_in_pieces(rt.alloc(), TEXT, size)?;
        assert!(rt; is_lines(&lines, &wanted), "in pieces of {size}");
        assert_eq!(rt; left, 0, "in pieces of {size}");
    }
    Ok(())
}

#[test]
fn takes_every_byte_but_the_line_feed(rt: HostRuntime) -> Result<(), Fail> {
    let wanted = [
        b"a\r".as_slice(),
        b"".as_slice(),
        b"".as_slice(),
        b" b".as_slice(),
    ];
    let (lines, left) = lines_in_pieces(rt.alloc(), b"a\r\n\n\n b\ncde", 4)?;
    assert!(rt; is_lines(&lines, &wanted));
    assert_eq!(rt; left, 3);
    Ok(())
}

#[test]
fn stops_at_a_long_line(rt: HostRuntime) -> Result<(), Fail> {
    let longest = [b'x'; LINE_LIMIT];
    let mut splitter = Splitter::new(rt.alloc());
    let mut lines = LineList::new(rt.alloc());
    splitter.feed(&longest, &mut lines)?;
    assert_eq!(rt; splitter.rest().len(), 8192);
    splitter.feed(b"\n", &mut lines)?;
    assert!(rt; is_lines(&lines, &[longest.as_slice()]));
    splitter.feed(&longest, &mut lines)?;
    assert_eq!(rt;
        splitter.feed(b"x", &mut lines),
        Err(LineFault::LineTooLong)
    );
    assert_eq!(rt;
        splitter.feed(b"\n", &mut lines),
        Err(LineFault::LineTooLong)
    );
    assert_eq!(rt; lines.len(), 1);
    Ok(())
}

#[test]
fn hands_out_the_lines_before_a_long_one(rt: HostRuntime) -> Result<(), Fail> {
    let mut piece = Vec::from_slice(rt.alloc(), b"a\nb\n")?;
    piece.extend_from_slice(&[b'x'; 8193])?;
    piece.extend_from_slice(b"\nc\n")?;
    let mut splitter = Splitter::new(rt.alloc());
    let mut lines = LineList::new(rt.alloc());
    assert_eq!(rt;
        splitter.feed(&piece, &mut lines),
        Err(LineFault::LineTooLong)
    );
    assert!(rt; is_lines(&lines, &[b"a".as_slice(), b"b".as_slice()]));
    Ok(())
}
