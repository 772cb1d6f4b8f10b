//! A numbered beat that is read again.

ghost use Rattle.std.specs.Prelude.{◌≡◌, true, false, IfErr, OnOk};
ghost use Rattle.history.specs.Numbered.{IsThere};
ghost use Rattle.beat_entries.specs.Next.{goes_on, with_numbered};
ghost use Rattle.beat_entries.specs.declared.refusal.EntryRefusal.TheVariants.{NotNext};

use crate::defining;
use crate::refusal::EntryRefusal;
use chart_registry::Registry;
use history::NumberedBeat;

/// Defines in the registry what a numbered beat defines. `NotNext` exactly where the beat does not go on from
/// what the registry has, and memory is there: a definition that does not keep its limits, or that the registry
/// refuses or numbers otherwise, a row or a value of nothing that is there, a value of another chart's dimension,
/// or a row of more than 1,024 values. After an `Err` the registry may have taken a part of the definitions. No
/// text is copied but those that the registry keeps.
pub fn define(registry: &mut Registry, beat: &NumberedBeat) -> Result<(), EntryRefusal>
    ensures defined { OnOk result (registry.new ≡ with_numbered registry.old beat.now) }
    ensures next { OnOk result (goes_on registry.old beat.now ≡ true) }
    ensures refused { IfErr result (λ refusal. refusal ≡ NotNext
        → goes_on registry.old beat.now ≡ false) }
    ensures there { OnOk result (IsThere registry.new beat.now) }
{
    defining::define_charts(registry, beat.charts.as_slice())?;
    defining::define_dimensions(registry, beat.dimensions.as_slice())?;
    if defining::takes_rows(registry, beat.rows.as_slice()) {
        Ok(())
    } else {
        Err(EntryRefusal::NotNext)
    }
}
