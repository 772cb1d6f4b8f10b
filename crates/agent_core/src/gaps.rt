//! The gaps of a copy: the spans of its child that it did not copy.

ghost use Rattle.std.specs.Prelude.{◌≡◌, [], IfOk, OnOk};
ghost use Rattle.agent_core.specs.Gaps.{gaps_above, join_gap};

use side_codec::{GapSpan, GapSpanList};
use std::alloc::{AllocError, Global};
use std::marker::Model;

/// The gaps of a copy, the oldest first, which contracts see as a list.
#[derive(Drop)]
pub struct Gaps {
    spans: Vec<GapSpan>,
}

impl Model for Gaps {
    ghost use Rattle.std.specs.Prelude.{List};
    ghost use Rattle.side_codec.specs.declared.gap.GapSpan.{GapSpan as Span};

    ghost Value = { List Span };

    ghost view = { λ gaps. gaps.spans.items };
}

impl Gaps {
    /// None.
    pub(crate) fn new(alloc: Global) -> Gaps
        ensures { result ≡ [] }
    {
        Gaps {
            spans: Vec::new(alloc),
        }
    }

    /// The gaps of a list, without a copy.
    pub(crate) fn from_list(spans: GapSpanList) -> Gaps
        ensures { result ≡ spans }
    {
        Gaps {
            spans: spans.into_vec(),
        }
    }

    /// Adds a gap behind the others: where the last of them ends where it begins, the two are one. After an `Err`
    /// nothing is known of the gaps.
    pub(crate) fn join(&mut self, gap: GapSpan) -> Result<(), AllocError>
        ensures { OnOk result (self.new ≡ join_gap self.old gap) }
    {
        join(&mut self.spans, gap)
    }

    /// The gaps without the first ones, those that end below a floor.
    pub(crate) fn above(&self, alloc: Global, floor: u32) -> Result<GapSpanList, AllocError>
        ensures { IfOk result (λ above. above ≡ gaps_above floor self.now) }
    {
        let kept = kept_above(self.spans.as_slice(), floor);
        Ok(GapSpanList::from_vec(Vec::from_slice(alloc, kept)?))
    }
}

/// Adds a gap behind others: where the last of them ends where it begins, the two are one.
fn join(spans: &mut Vec<GapSpan>, gap: GapSpan) -> Result<(), AllocError>
    ensures { OnOk result (spans.new.items ≡ join_gap spans.old.items gap) }
{
    let Some(last) = spans.pop() else {
        spans.push(gap)?;
        return Ok(());
    };
    if last.to == gap.from {
        let (from, to) = (last.from, gap.to);
        spans.push(GapSpan { from, to })?;
        return Ok(());
    }
    spans.push(last)?;
    spans.push(gap)?;
    Ok(())
}

/// Without the first ones, those that end below a floor.
fn kept_above(spans: &[GapSpan], floor: u32) -> &[GapSpan]
    ensures { result.now ≡ gaps_above floor spans.now }
{
    let mut rest = spans;
    while let Some((first, others)) = rest.split_first() {
        if first.to >= floor {
            return rest;
        }
        rest = others;
    }
    rest
}
