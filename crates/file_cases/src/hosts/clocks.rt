//! A clock: its readings.

use host_model::{Clock, MemoryClock};
use std::test::Fail;

#[test]
fn repeats_its_last_reading(rt: HostRuntime) -> Result<(), Fail> {
    let mut clock = MemoryClock::new(rt.alloc(), &[60, 59])?;
    for want in [60, 59, 59] {
        assert_eq!(rt; clock.moment(), want);
    }
    Ok(())
}
