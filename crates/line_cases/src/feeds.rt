//! The tests of `collect_block`: what lines lead to.

use chart_registry::Registry;
use collect_block::{BlockFault, Feed, Line, Step};
use std::test::Fail;

/// Reads lines that give nothing, a refusal and a beat: whether each does, and how many were skipped.
fn read(feed: &mut Feed, registry: &Registry) -> ([bool; 3], u64) {
    let skipped = feed.take_line(registry, 0, false, Line::Skipped);
    let refused = feed.take_line(registry, 0, false, Line::End);
    let closed = feed.line(registry, 0, false, &Line::Moment(60));
    let found = [
        matches!(skipped, Ok(Step::Nothing)),
        matches!(refused, Err(BlockFault::NoBlock)),
        matches!(closed, Ok(Step::Beat(_, 60))),
    ];
    (found, feed.skipped())
}

#[test]
fn takes_lines(rt: HostRuntime) {
    let registry = Registry::new(rt.alloc());
    let mut feed = Feed::new(rt.alloc(), 1);
    assert_eq!(rt; read(&mut feed, &registry), ([true, true, true], 1));
    assert!(rt; feed.end(b"").is_ok());
    assert!(rt; feed.end(b"BEG").is_err());
}
