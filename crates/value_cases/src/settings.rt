//! The tests of `tier_settings`: which settings a database may have.

use std::alloc::{AllocError, Global};
use std::test::Fail;
use tier_settings::{Settings, Tier, TierList, WIDTHS, is_in_limits, widths};

#[test]
fn makes_the_settings_of_a_database(rt: HostRuntime) -> Result<(), Fail> {
    let settings = Settings::new(rt.alloc(), 7, [(1_000, 8), (900, 9), (800, 10)])?;
    assert_eq!(rt; settings.id, 7);
    assert_eq!(rt;
        settings.tiers.as_slice(),
        [
            Tier {
                width: 1,
                items: 1_000,
                extents: 8
            },
            Tier {
                width: 60,
                items: 900,
                extents: 9
            },
            Tier {
                width: 3_600,
                items: 800,
                extents: 10
            },
        ]
        .as_slice()
    );
    assert!(rt; is_in_limits(&settings));
    let copy = settings.copy(rt.alloc())?;
    assert_eq!(rt; copy.id, 7);
    assert_eq!(rt; copy.tiers.as_slice(), settings.tiers.as_slice());
    Ok(())
}

/// Whether a database may have tier 0 with these items and extents.
fn is_taken(alloc: Global, items: u32, extents: u32) -> Result<bool, AllocError> {
    let settings = Settings::new(alloc, 7, [(items, extents), (1, 1), (1, 1)])?;
    Ok(is_in_limits(&settings))
}

#[test]
fn takes_what_is_in_the_limits(rt: HostRuntime) -> Result<(), Fail> {
    assert!(rt; is_taken(rt.alloc(), 1, 1)?);
    assert!(rt; is_taken(rt.alloc(), 262_144, 1_024)?);
    assert!(rt; !is_taken(rt.alloc(), 0, 1)?);
    assert!(rt; !is_taken(rt.alloc(), 262_145, 1)?);
    assert!(rt; !is_taken(rt.alloc(), 1, 0)?);
    assert!(rt; !is_taken(rt.alloc(), 1, 1_025)?);
    Ok(())
}

#[test]
fn takes_only_tiers_of_the_widths(rt: HostRuntime) -> Result<(), Fail> {
    let mut settings = Settings::new(rt.alloc(), 7, [(1, 1), (1, 1), (1, 1)])?;
    settings.tiers.push(Tier {
        width: 86_400,
        items: 1,
        extents: 1,
    })?;
    assert!(rt; !is_in_limits(&settings));
    let none = Settings {
        id: 7,
        tiers: TierList::new(rt.alloc()),
    };
    assert!(rt; !is_in_limits(&none));
    assert_eq!(rt; widths(), WIDTHS.as_slice());
    Ok(())
}
