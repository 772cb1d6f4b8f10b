ghost use Rattle.std.specs.Prelude.{◌≡◌, Some, IfOk};
ghost use Rattle.host_model.specs.Clock.{next_reading, later_readings};

use crate::calls::ModelFault;
use crate::clock::Clock;
use std::alloc::Global;
use std::marker::Model;

/// A clock over readings in memory, the last of which is repeated. Without a reading it gives 0.
#[derive(Debug, Drop)]
pub struct MemoryClock {
    readings: Vec<u64>,
    /// Where the next reading stands.
    next: usize,
}

impl Model for MemoryClock {
    ghost use Rattle.std.specs.Prelude.{ℕ, ◌≤◌, List, drop, length};

    ghost Value = { List ℕ };

    ghost view = { λ clock. drop clock.next clock.readings.items };

    ghost invariant = { λ clock. clock.next ≤ length clock.readings.items };
}

impl MemoryClock {
    /// A clock that is to give these readings.
    pub fn new(alloc: Global, readings: &[u64]) -> Result<MemoryClock, ModelFault>
        ensures { IfOk result (λ clock. clock ≡ readings.now) }
    {
        Ok(MemoryClock {
            readings: Vec::from_slice(alloc, readings).map_err(|_| ModelFault::Memory)?,
            next: 0,
        })
    }
}

impl Clock for MemoryClock {
    ghost readings = { λ clock. Some clock };

    fn moment(&mut self) -> u64
        ensures reading { result ≡ next_reading self.old }
        ensures later { self.new ≡ later_readings self.old }
    {
        let ahead = &self.readings.as_slice()[self.next..];
        let reading = ahead.first().copied().unwrap_or(0);
        if ahead.len() > 1 {
            self.next += 1;
        }
        reading
    }
}
