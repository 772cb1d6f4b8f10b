//! Children in memory whose bytes come in pieces of drawn sizes.
ghost use Rattle.std.specs.Prelude.{None};

use super::draws::Draws;
use fixed_num::WordsList;
use host_model::{Failed, MemorySpawner, Spawner};

/// A spawner in memory that hands over less than would fit. It tells nothing.
#[derive(Drop)]
pub struct Cut {
    pub inner: MemorySpawner,
    pub draws: Draws,
}

/// How many bytes are handed over at most: one, a few, or all.
fn draw_size(draws: &mut Draws) -> usize {
    let most = match draws.below(8) {
        0 => 1,
        1 => 9_000,
        2 | 3 => 300,
        _ => 20,
    };
    (draws.below(most) as usize).saturating_add(1)
}

impl Spawner for Cut {
    ghost children = { λ _. None };

    ghost faults = { λ cut. ⟦<MemorySpawner as Spawner>⟧.faults cut.inner };

    fn start(&mut self, words: &WordsList) -> Result<(), Failed> {
        self.inner.start(words)
    }

    fn pull(&mut self, into: &mut [u8]) -> Result<usize, Failed> {
        let size = draw_size(&mut self.draws).min(into.len());
        self.inner.pull(&mut into[..size])
    }

    fn finish(&mut self) -> Result<i32, Failed> {
        self.inner.finish()
    }

    fn stop(&mut self) -> Result<(), Failed> {
        self.inner.stop()
    }
}
