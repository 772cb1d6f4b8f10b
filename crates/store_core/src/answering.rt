//! What is kept of the beats that were applied, and the floors below which it has expired.

ghost use Rattle.std.specs.Prelude.{◌≡◌, ◌<◌, ◌≤◌, ℕ, List, filter, length, take, IfErr, IfOk};
ghost use Rattle.beat_tiers.specs.Above.{is_above, RiseAbove};
ghost use Rattle.beat_tiers.specs.Beats.{TierBeat};
ghost use Rattle.beat_tiers.specs.Kept.{kept_in};
ghost use Rattle.beat_tiers.specs.State.{tier_floor};
ghost use Rattle.tier_settings.specs.declared.settings.Settings.{Settings as ASettings};
ghost use Rattle.store_core.specs.Faults.{IsKeptFault, Reopens};
ghost use Rattle.store_core.specs.Store.{HasApplied};
ghost use Rattle.store_core.specs.Tiers.{floor_at, kept_of};

use crate::fault::StoreFault;
use crate::store::Store;
use beat_tiers::{Kept, KeptBeatList};
use host_model::Host;

impl Store {
    /// The floor of tier 0, 1 or 2 of the beats that were applied: the first moment of which it has
    /// what they gave it, in seconds, or 0 where nothing has expired.
    pub fn floor(&self, tier: u8) -> u32
        requires { tier < 3 }
        ensures kept { result ≡ tier_floor self.now.tiers tier }
        ensures applied { (set : ASettings) (beats : List TierBeat)
            → HasApplied set beats self.now → result ≡ floor_at set beats tier }
    {
        self.tiers.floor(tier)
    }

    /// The beats with points that are kept of those that were applied, the earliest first, and how
    /// many came before them. Store and host are as before, whatever the answer.
    pub fn kept<H: Host>(&mut self, _host: &mut H) -> Result<Kept, StoreFault>
        ensures kept { (set : ASettings) (beats : List TierBeat) → HasApplied set beats self.old
            → IfOk result (λ kept. kept ≡ kept_of set beats) }
        ensures tiers { IfOk result (λ kept. kept ≡ kept_in self.old.tiers.points) }
        ensures reopens { Reopens self.old.fault result }
        ensures faults { IfErr result IsKeptFault }
        ensures same { self.new ≡ self.old }
        ensures same_host { _host.new ≡ _host.old }
    {
        if let Some(cause) = self.fault {
            return Err(StoreFault::Reopen(cause));
        }
        Ok(self.tiers.kept()?)
    }

    /// The beats with points above a moment that are kept of those that were applied, the earliest
    /// first, and at most so many of them. It costs by what it gives and by a search for the first
    /// of them. Store and host are as before, whatever the answer.
    pub fn kept_above<H: Host>(
        &mut self,
        _host: &mut H,
        from: u32,
        most: usize,
    ) -> Result<KeptBeatList, StoreFault>
        ensures kept { (set : ASettings) (beats : List TierBeat) → HasApplied set beats self.old
            → IfOk result (λ found.
            found ≡ take most (filter (is_above from) (kept_of set beats).beats)) }

        // The same, of a store of which it is not known what it has applied.
        ensures rises { IfOk result (RiseAbove from) }
        ensures few { IfOk result (λ found. length found ≤ most) }
        ensures reopens { Reopens self.old.fault result }
        ensures faults { IfErr result IsKeptFault }
        ensures same { self.new ≡ self.old }
        ensures same_host { _host.new ≡ _host.old }
    {
        if let Some(cause) = self.fault {
            return Err(StoreFault::Reopen(cause));
        }
        Ok(self.tiers.kept_above(from, most)?)
    }
}
