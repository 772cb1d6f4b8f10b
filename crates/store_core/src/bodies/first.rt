//! The body of a database that was just made.
ghost use Rattle.std.specs.Prelude.{◌≡◌, ◌<◌, ◌^◌, length, IfOk};
ghost use Rattle.beat_tiers.specs.State.{no_beats};
ghost use Rattle.checkpoint_body.specs.Body.{HasSpelling};
ghost use Rattle.store_core.specs.disk.Advancing.{NamesNone};
ghost use Rattle.store_core.specs.disk.Contents.{no_pages};
ghost use Rattle.tier_settings.specs.Limits.{InLimits};
ghost use Rattle.tier_settings.specs.Settings.{first_tier, other_tiers};
ghost use Rattle.store_core.specs.bodies.First.{first_body, no_points, no_records};
ghost use Rattle.store_core.specs.bodies.Tiers.{AreTiersOfBody};

use checkpoint_body::{
    Body, ExtentList, OpenRecordList, PointTier, RecordPageList, RecordTier, SlotPageList,
};
use fixed_num::ByteList;
use std::alloc::{AllocError, Global};
use tier_settings::Settings;

/// The tier of points of no beats.
fn no_points(alloc: Global) -> PointTier
    ensures { result ≡ no_points }
{
    PointTier {
        floor: 0,
        before: 0,
        sealed: 0,
        extents: ExtentList::new(alloc),
        pages: SlotPageList::new(alloc),
    }
}

/// A tier of records of no beats.
fn no_records(alloc: Global) -> RecordTier
    ensures { result ≡ no_records }
{
    RecordTier {
        floor: 0,
        sealed: 0,
        extents: ExtentList::new(alloc),
        open_records: OpenRecordList::new(alloc),
        pages: RecordPageList::new(alloc),
    }
}

/// The body of no beats, with these settings, and with this beside the tiers.
fn body_of(alloc: Global, settings: Settings, side: ByteList) -> Body
    ensures { result ≡ first_body settings side }
{
    Body {
        settings,
        count: 0,
        last: 0,
        points: no_points(alloc),
        minutes: no_records(alloc),
        hours: no_records(alloc),
        side,
    }
}

/// The body of a database of no beats, which names no extent.
pub fn first_body(alloc: Global, settings: &Settings, side: ByteList) -> Result<Body, AllocError>
    requires settings { InLimits settings.now }
    requires short { length side < 2 ^ 32 }
    ensures body { IfOk result (λ body. body ≡ first_body settings.now side) }
    ensures spelt { IfOk result HasSpelling }
    ensures empty { IfOk result NamesNone }
    ensures tiers { IfOk result (λ body. AreTiersOfBody body no_pages
        (no_beats (first_tier settings.now) (other_tiers settings.now))) }
{
    let copy = settings.copy(alloc)?;
    Ok(body_of(alloc, copy, side))
}
