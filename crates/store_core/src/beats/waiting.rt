ghost use Rattle.std.specs.Prelude.{◌≡◌, ◌↔◌, [], ◌∷◌, ◌++◌, slice_get, option_copied, IsTrue, OnOk};
ghost use Rattle.store_core.specs.beats.Records.{TakesFirst};

use crate::beats::beat::Beat;
use std::alloc::{AllocError, Global};
use std::collections::VecDeque;
use std::marker::Model;

/// Beats that wait for their replay, the oldest first.
#[derive(Debug, Drop)]
pub struct Waiting {
    beats: VecDeque<Beat>,
}

impl Model for Waiting {
    ghost use Rattle.std.specs.Prelude.{List};
    ghost use Rattle.store_core.specs.declared.beats.beat.Beat.{Beat as ABeat};

    ghost Value = { List ABeat };

    ghost view = { λ waiting. waiting.beats.items };
}

impl Waiting {
    pub fn new(alloc: Global) -> Waiting
        ensures { result ≡ [] }
    {
        Waiting {
            beats: VecDeque::new(alloc),
        }
    }

    pub fn is_empty(&self) -> bool
        ensures { IsTrue result ↔ (self.now ≡ []) }
    {
        self.beats.is_empty()
    }

    /// Puts a beat behind the others.
    pub fn add(&mut self, beat: Beat) -> Result<(), AllocError>
        ensures { OnOk result (self.new ≡ self.old ++ beat ∷ []) }
    {
        self.beats.push_back(beat)?;
        Ok(())
    }

    /// The first beat.
    pub fn first(&self) -> Option<&Beat>
        ensures { option_copied result ≡ slice_get self.now 0 }
    {
        self.beats.front()
    }

    /// Takes the first beat.
    pub fn take_first(&mut self) -> Option<Beat>
        ensures { TakesFirst self.old result self.new }
    {
        self.beats.pop_front()
    }
}
