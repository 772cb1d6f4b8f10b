//! Copied beats.

ghost use Rattle.std.specs.Prelude.{◌≡◌, true, false, List, ◌∷◌, IfErr, OnOk};
ghost use Rattle.std.specs.List.{list_all};
ghost use Rattle.history.specs.History.{Beat, copied, registry_of, Copy};
ghost use Rattle.beat_entries.specs.Copied.{copied_entry_of, copied_goes_on, defined_by, names_word, MayCopy};
ghost use Rattle.beat_entries.specs.Next.{with_numbered};
ghost use Rattle.beat_entries.specs.declared.refusal.EntryRefusal.TheVariants.{NotNext};

use crate::defining::{define_copied_charts, define_copied_dimensions};
use crate::refusal::EntryRefusal;
use chart_registry::Registry;
use entry_codec::{Copied, CopiedWord};
use std::alloc::Global;

/// Whether each word is of a series that is there.
fn names_words(registry: &Registry, words: &[CopiedWord]) -> bool
    ensures { result ≡ list_all (names_word registry.now) words.now }
{
    let dimensions = registry.dimensions();
    words.iter().all(|word| word.series < dimensions)
}

/// Defines in the registry what the entry of a copied beat defines. A chart's name and family are the part of
/// its id behind the first dot, a dimension's name is its id, and what else a copy does not tell is as usual.
/// `NotNext` exactly where the entry does not go on from what the registry has, and memory is there: a
/// definition that does not keep its limits, or that the registry refuses or numbers otherwise, or a word of a
/// series that is not there. After an `Err` the registry may have taken a part of the definitions.
pub fn define_copied(
    alloc: Global,
    registry: &mut Registry,
    entry: &Copied,
) -> Result<(), EntryRefusal>
    ensures defined { OnOk result
        (registry.new ≡ with_numbered registry.old (defined_by entry.now)) }
    ensures next { OnOk result (copied_goes_on registry.old entry.now ≡ true) }
    ensures refused { IfErr result (λ refusal. refusal ≡ NotNext
        → copied_goes_on registry.old entry.now ≡ false) }
{
    define_copied_charts(alloc, registry, entry.charts.as_slice())?;
    define_copied_dimensions(registry, entry.dimensions.as_slice())?;
    if names_words(registry, entry.words.as_slice()) {
        Ok(())
    } else {
        Err(EntryRefusal::NotNext)
    }
}

/// The laws of a copied beat that may follow a history: its entry goes on from the history's registry, and
/// what the entry defines leaves the registry that the copied beat leaves. It does nothing.
pub fn copied_beat_goes_on()
    ensures next { (h : List Beat) (copy : Copy) → MayCopy h copy
        → copied_goes_on (registry_of h) (copied_entry_of (registry_of (copied copy ∷ h)) copy)
        ≡ true }
    ensures registry { (h : List Beat) (copy : Copy) → MayCopy h copy
        → with_numbered (registry_of h)
        (defined_by (copied_entry_of (registry_of (copied copy ∷ h)) copy))
        ≡ registry_of (copied copy ∷ h) }
{}
