//! The body of the next checkpoint.
ghost use Rattle.std.specs.Prelude.{◌≡◌, ◌<◌, ◌^◌, length, IfOk};
ghost use Rattle.beat_tiers.specs.Room.{tiers_held};
ghost use Rattle.beat_tiers.specs.State.{TiersState};
ghost use Rattle.checkpoint_body.specs.Body.{HasSpelling};
ghost use Rattle.store_core.specs.disk.Contents.{Contents, KeptPages};
ghost use Rattle.store_core.specs.disk.Kept.{HasPagesOfEach};
ghost use Rattle.store_core.specs.disk.Next.{AreWritable, IsNext};
ghost use Rattle.store_core.specs.disk.Shares.{HasOwnSlots};
ghost use Rattle.store_core.specs.bodies.Next.{next_pages, GoOnFrom, HaveCounted, IsNextBody};
ghost use Rattle.store_core.specs.bodies.Tiers.{AreTiersOfBody};

use crate::bodies::next_points::next_points;
use crate::bodies::next_records::next_records;
use crate::disk::Sealed;
use beat_tiers::Tiers;
use checkpoint_body::Body;
use fixed_num::ByteList;
use std::alloc::{AllocError, Global};

/// The body of the next checkpoint of a database, which has taken so many beats and has these tiers
/// and this side, and the segments that were sealed since the open checkpoint, of which this is the
/// body. The segments are to be written before it.
pub fn next_body(
    alloc: Global,
    body: &Body,
    tiers: &Tiers,
    count: u64,
    side: ByteList,
) -> Result<(Body, Sealed), AllocError>
    requires spelt { HasSpelling body.now }
    requires goes_on { (kept : KeptPages) × (was : TiersState)
        × GoOnFrom body.now kept was (tiers_held tiers.now) }
    requires short { length side < 2 ^ 32 }
    ensures is { IfOk result (λ next.
        IsNextBody body.now (tiers_held tiers.now) count side next.0 next.1) }
    ensures spelt { IfOk result (λ next. HasSpelling next.0) }
    ensures writable { IfOk result (λ next. AreWritable next.0 next.1) }
    ensures own_slots { IfOk result (λ next. HasOwnSlots next.0 next.1) }
    ensures follows { IfOk result (λ next. (contents : Contents) → contents.body ≡ body.now
        → HasPagesOfEach body.now contents.kept
        → IsNext contents next.1 next.0 (next_pages body.now next.0 next.1 contents.kept)) }
    ensures tiers { IfOk result (λ next. (kept : KeptPages) (was : TiersState)
        → GoOnFrom body.now kept was (tiers_held tiers.now)
        → AreTiersOfBody next.0 (next_pages body.now next.0 next.1 kept)
        (tiers_held tiers.now)) }
    ensures counted { IfOk result (λ _. HaveCounted (tiers_held tiers.now)) }
{
    let moment = body.last;
    let last = tiers.last();
    let settings = body.settings.copy(alloc)?;
    let records = tiers.kept_records();
    let of_minutes = &records[0];
    let of_hours = &records[1];
    let (points, new_points) = next_points(alloc, moment, &body.points, tiers.kept_points())?;
    let (minutes, new_minutes) = next_records(alloc, 1, moment, last, &body.minutes, of_minutes)?;
    let (hours, new_hours) = next_records(alloc, 2, moment, last, &body.hours, of_hours)?;
    let next = Body {
        settings,
        count,
        last,
        points,
        minutes,
        hours,
        side,
    };
    let sealed = Sealed {
        points: new_points,
        minutes: new_minutes,
        hours: new_hours,
    };
    Ok((next, sealed))
}
