ghost use Rattle.std.specs.Prelude.{◌≡◌, None, IfOk, IfSome};
ghost use Rattle.beat_tiers.specs.Room.{tiers_held};
ghost use Rattle.beat_tiers.specs.State.{TiersState};
ghost use Rattle.checkpoint_body.specs.declared.body.Body.{Body as ABody};
ghost use Rattle.checkpoint_body.specs.Body.{HasSpelling};
ghost use Rattle.store_core.specs.disk.Contents.{KeptPages};
ghost use Rattle.store_core.specs.disk.Kept.{HasPagesOfEach};
ghost use Rattle.store_core.specs.disk.Opened.{contents_of};
ghost use Rattle.store_core.specs.bodies.Tiers.{AreTiersOfBody};

use crate::bodies::kept_tiers::{kept_points, kept_records};
use crate::disk::Opened;
use beat_tiers::{KeptRecordsList, Tiers};
use std::alloc::{AllocError, Global};

/// The tiers that an opened database has at its checkpoint. `None` exactly where its body and the
/// pages of its extents are those of no tiers.
pub fn tiers_of(alloc: Global, opened: &Opened) -> Result<Option<Tiers>, AllocError>
    requires spelt { HasSpelling opened.now.body }
    requires counted { HasPagesOfEach opened.now.body (contents_of opened.now).kept }
    ensures found { IfOk result (λ found. IfSome found (λ tiers.
        AreTiersOfBody opened.now.body (contents_of opened.now).kept (tiers_held tiers))) }
    ensures none { IfOk result (λ found. found ≡ None → (tiers : TiersState)
        → AreTiersOfBody opened.now.body (contents_of opened.now).kept tiers → ⊥) }
{
    let body = &opened.body;
    let last = body.last;
    let [first, others @ ..] = body.settings.tiers.as_slice() else {
        return Ok(None);
    };
    let [of_minutes, of_hours] = others else {
        return Ok(None);
    };
    let Some(points) = kept_points(alloc, &body.points, opened.points.as_slice())? else {
        return Ok(None);
    };
    let kept = opened.minutes.as_slice();
    let Some(minutes) = kept_records(alloc, last, *of_minutes, &body.minutes, kept)? else {
        return Ok(None);
    };
    let kept = opened.hours.as_slice();
    let Some(hours) = kept_records(alloc, last, *of_hours, &body.hours, kept)? else {
        return Ok(None);
    };
    let mut records = KeptRecordsList::new(alloc);
    records.push(minutes)?;
    records.push(hours)?;
    Tiers::restore(alloc, *first, others, last, points, records)
}

/// The law of tiers of a body: it has one at most. It does nothing.
pub fn body_determines_its_tiers()
    ensures one { (body : ABody) (kept : KeptPages) (tiers others : TiersState)
        → AreTiersOfBody body kept tiers → AreTiersOfBody body kept others → tiers ≡ others }
{}
