ghost use Rattle.std.specs.Prelude.{None};

use host_model::Clock;
use std::rt;
use std::time::{SystemTime, UNIX_EPOCH};

/// The system's clock. It tells nothing of what it will give.
#[derive(Drop)]
pub struct SystemClock<R> {
    system: R,
}

impl<R: rt::Clock + Drop> SystemClock<R> {
    pub fn new(system: R) -> SystemClock<R> {
        SystemClock { system }
    }
}

impl<R: rt::Clock + Drop> Clock for SystemClock<R> {
    ghost readings = { λ _. None };

    /// A clock that cannot be read gives 0.
    fn moment(&mut self) -> u64 {
        let Ok(now) = SystemTime::now(&self.system) else {
            return 0;
        };
        match now.duration_since(UNIX_EPOCH) {
            Ok(since) => since.as_secs(),
            Err(_) => 0,
        }
    }
}

#[cfg(test)]
mod tests {
    use super::*;
    use std::test::Fail;

    #[test]
    fn gives_the_time(rt: HostRuntime) -> Result<(), Fail> {
        let mut clock = SystemClock::new(&rt);
        // After the year 2020 and before 2100.
        let now = clock.moment();
        assert!(rt; 1_577_836_800 < now && now < 4_102_444_800);
        Ok(())
    }
}
