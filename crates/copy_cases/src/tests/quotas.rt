//! What of a child's beats its quotas push out, by the rule of the format's page.

use std::alloc::{AllocError, Global};

/// Tier 0 of a child, each of whose beats has a point for each chart with a row.
#[derive(Debug, Drop)]
pub struct Quotas {
    /// How many points make a segment full, and how many segments are kept.
    points: u64,
    segments: usize,
    /// How many points the segment has that is not full.
    open: u64,
    /// The moments at which segments were sealed.
    sealed: Vec<u32>,
}

impl Quotas {
    pub fn new(alloc: Global, points: u64, segments: usize) -> Quotas {
        Quotas {
            points,
            segments,
            open: 0,
            sealed: Vec::new(alloc),
        }
    }

    /// The child gets a beat with so many points at this moment.
    pub fn take(&mut self, moment: u32, points: u64) -> Result<(), AllocError> {
        self.open = self.open.saturating_add(points);
        if points > 0 && self.open >= self.points {
            self.open = 0;
            self.sealed.push(moment)?;
        }
        Ok(())
    }

    /// A second above the moment at which the last segment that has gone was sealed.
    pub fn floor(&self) -> u32 {
        let kept = self.segments.saturating_add(1);
        match self.sealed.len().checked_sub(kept) {
            Some(last) => self
                .sealed
                .get(last)
                .copied()
                .unwrap_or(0)
                .saturating_add(1),
            None => 0,
        }
    }
}
