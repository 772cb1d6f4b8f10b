//! What a history with a registry makes of a collected beat.

ghost use Rattle.std.specs.Prelude.{◌≡◌, ℕ, None, [], true, false, is_some, filter_map, IfOk, OnOk, OnErr, MatchResult};
ghost use Rattle.chart_registry.specs.Taking.{all_taken, takes_chart, takes_dimension, with_chart, with_charts, with_dimension, with_dimensions};
ghost use Rattle.entry_codec.specs.Entries.{is_collected_canonical, IsWithinLimits};
ghost use Rattle.history.specs.declared.beat.OpenBeat.{OpenBeat as AnOpenBeat};
ghost use Rattle.history.specs.Numbered.{numbered_beat, numbered_charts, numbered_dimensions, IsThere};
ghost use Rattle.history.specs.Registry.{same_chart, same_dimension};
ghost use Rattle.history.specs.Regular.{AreApart, IsRegular, same_row};
ghost use Rattle.beat_entries.specs.Coming.{CanNumber};
ghost use Rattle.beat_entries.specs.Defined.{IsDefinedIn};
ghost use Rattle.beat_entries.specs.Gathered.{row_at};
ghost use Rattle.beat_entries.specs.Rules.{beat_refusal, changes_grid, content_refusal, lacks_chart, too_many_charts, too_many_dimensions, with_beat, IsOpenBeat};
ghost use Rattle.beat_entries.specs.Taking.{without_rows, IsFaultOf, IsJudged};

use crate::beat_fault::BeatFault;
use crate::coming::Coming;
use crate::definitions::{NumberedDefinitions, definitions};
use crate::gathered::Gathered;
use crate::reasons::content_refusal;
use crate::rows;
use crate::rows::find_rows;
use chart_registry::Registry;
use history::{BlockFault, NumberedBeat, OpenBeat, Row};
use std::alloc::{AllocError, Global};

/// A beat by number, of which these rows were found.
fn number(
    alloc: Global,
    coming: &Coming,
    moment: u32,
    beat: &OpenBeat,
    found: Gathered<Row>,
) -> Result<NumberedBeat, AllocError>
    requires can { is_some coming.now.fresh ≡ true → CanNumber coming.now }
    requires defined { IsDefinedIn
        (with_beat coming.now.registry.now coming.now.beat.now) beat.now }
    requires apart { AreApart same_row beat.now.rows }
    requires rows { CanNumber coming.now → found.whole ≡ true → found.items.items
        ≡ filter_map
        (row_at (with_beat coming.now.registry.now coming.now.beat.now)) beat.now.rows }
    ensures { IfOk result (λ numbered. numbered
        ≡ numbered_beat (with_beat coming.now.registry.now coming.now.beat.now) moment beat.now) }
{
    let made = definitions(alloc, coming, beat)?;
    Ok(NumberedBeat {
        moment,
        charts: made.charts,
        dimensions: made.dimensions,
        rows: rows::sorted(found)?,
    })
}

/// A beat by the numbers that it has once the registry takes its definitions, or why the registry does not take it.
fn number_content<'a>(
    alloc: Global,
    registry: &'a Registry,
    moment: u32,
    beat: &'a OpenBeat,
) -> Result<NumberedBeat, BeatFault>
    requires is_open { IsOpenBeat beat.now }
    requires charts { AreApart same_chart registry.now.charts }
    requires dimensions { AreApart same_dimension registry.now.dimensions }
    ensures numbered { IfOk result (λ numbered. numbered
        ≡ numbered_beat (with_beat registry.now beat.now) moment beat.now) }
    ensures judged { let reason = content_refusal registry.now moment beat.now in
        MatchResult result (λ _. reason ≡ None) (IsFaultOf reason) }
{
    let coming = Coming::new(alloc, registry, beat);
    let Some(found) = find_rows(alloc, &coming, moment, beat.rows.as_slice()) else {
        return Err(BeatFault::Refused(BlockFault::NoChart));
    };
    if let Some(why) = content_refusal(&coming, moment, &found) {
        return Err(BeatFault::Refused(why));
    }
    let numbered = number(alloc, &coming, moment, beat, found.rows)?;
    Ok(numbered)
}

/// What a history with this registry makes of a beat that was collected at `moment`: its refusal, or the beat
/// by the numbers that it has once the registry takes its definitions. `copies` says that the history has
/// copied beats or gaps, and `last` is its last moment. Each chart of a row and each of its values is looked up
/// once.
pub fn judge_beat(
    alloc: Global,
    registry: &Registry,
    copies: bool,
    last: u32,
    moment: u32,
    beat: &OpenBeat,
) -> Result<NumberedBeat, BeatFault>
    requires is_open { IsOpenBeat beat.now }
    requires charts { AreApart same_chart registry.now.charts }
    requires dimensions { AreApart same_dimension registry.now.dimensions }
    ensures numbered { IfOk result (λ numbered. numbered
        ≡ numbered_beat (with_beat registry.now beat.now) moment beat.now) }
    ensures judged { let reason = beat_refusal registry.now copies last moment beat.now in
        MatchResult result (λ _. reason ≡ None) (IsFaultOf reason) }
    ensures content { OnOk result (content_refusal registry.now moment beat.now ≡ None) }
    ensures definable { IfOk result (IsJudged registry.now beat.now) }
{
    if copies {
        return Err(BeatFault::Refused(BlockFault::MixedRoles));
    }
    if moment <= last {
        return Err(BeatFault::Refused(BlockFault::MomentOrder(last)));
    }
    number_content(alloc, registry, moment, beat)
}

/// What a beat without rows defines, by the numbers that it has once the registry takes it: nothing stands
/// against that.
pub fn number_definitions(
    alloc: Global,
    registry: &Registry,
    defs: &OpenBeat,
) -> Result<NumberedDefinitions, AllocError>
    requires is_open { IsOpenBeat defs.now }
    requires no_rows { defs.now.rows ≡ [] }
    requires has_charts { lacks_chart registry.now defs.now ≡ false }
    requires grids { changes_grid registry.now defs.now ≡ false }
    requires few_charts { too_many_charts registry.now defs.now ≡ false }
    requires few_dimensions { too_many_dimensions registry.now defs.now ≡ false }
    requires charts { AreApart same_chart registry.now.charts }
    requires dimensions { AreApart same_dimension registry.now.dimensions }
    ensures charts { IfOk result (λ made. made.charts
        ≡ numbered_charts (with_beat registry.now defs.now) defs.now) }
    ensures dimensions { IfOk result (λ made. made.dimensions
        ≡ numbered_dimensions (with_beat registry.now defs.now) defs.now) }

    // The registry takes them.
    ensures takes_charts { IfOk result
        (λ made. all_taken takes_chart with_chart registry.now made.charts ≡ true) }
    ensures takes_dimensions { IfOk result (λ made. all_taken takes_dimension with_dimension
        (with_charts registry.now made.charts) made.dimensions ≡ true) }
    ensures taken { IfOk result (λ made. with_dimensions
        (with_charts registry.now made.charts) made.dimensions
        ≡ with_beat registry.now defs.now) }

    // A beat that defines no more is in form.
    ensures canonical { IfOk result
        (λ made. (moment : ℕ) → is_collected_canonical (without_rows moment made) ≡ true) }
    ensures limits { IfOk result
        (λ made. (moment : ℕ) → IsWithinLimits (without_rows moment made)) }
{
    let coming = Coming::new(alloc, registry, defs);
    definitions(alloc, &coming, defs)
}

/// The registry takes the definitions of a beat that it has nothing against, which is given by number. After an
/// `Err` it is as it was.
pub fn define_beat(registry: &mut Registry, numbered: &NumberedBeat) -> Result<(), AllocError>
    requires judged { (beat : AnOpenBeat) × IsJudged registry.old beat numbered.now }
    requires charts { AreApart same_chart registry.old.charts }
    requires dimensions { AreApart same_dimension registry.old.dimensions }
    ensures taken { OnOk result ((beat : AnOpenBeat) → IsJudged registry.old beat numbered.now
        → registry.new ≡ with_beat registry.old beat) }
    ensures unchanged { OnErr result (registry.new ≡ registry.old) }

    // What it leaves is in form.
    ensures charts { OnOk result (AreApart same_chart registry.new.charts) }
    ensures dimensions { OnOk result (AreApart same_dimension registry.new.dimensions) }
    ensures regular { OnOk result ((beat : AnOpenBeat) → IsJudged registry.old beat numbered.now
        → IsRegular registry.new beat) }
    ensures there { OnOk result (IsThere registry.new numbered.now) }
    ensures canonical { OnOk result (is_collected_canonical numbered.now ≡ true) }
    ensures limits { OnOk result (IsWithinLimits numbered.now) }
{
    registry.take_definitions(numbered.charts.as_slice(), numbered.dimensions.as_slice())?;
    Ok(())
}
