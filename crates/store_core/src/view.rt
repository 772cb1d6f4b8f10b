//! A view of a store that answers queries.

ghost use Rattle.std.specs.Prelude.{◌≡◌, List, None, refl, IfOk, IsErrOf};
ghost use Rattle.beat_tiers.specs.Beats.{TierBeat};
ghost use Rattle.query_engine.specs.Windows.{table_of};
ghost use Rattle.tier_settings.specs.declared.settings.Settings.{Settings as ASettings};
ghost use Rattle.store_core.specs.Store.{HasApplied};
ghost use Rattle.store_core.specs.Tiers.{floor_at};
ghost use Rattle.store_core.specs.View.{points_of};
ghost use Rattle.tier_settings.specs.Limits.{widths};

use crate::store::Store;
use fixed_num::Record;
use host_model::Host;
use query_engine::{PointFault, PointList, Points, Request, Table};
use std::alloc::Global;
use tier_settings::widths;

/// A store and its host: it answers by the points, records and floors of the beats that were
/// applied. All is in memory, so that no call touches the host, and a refused commit or replay
/// changes nothing of what it tells.
#[derive(Drop)]
pub struct StoreView<'a, 'b, H> {
    pub store: &'a mut Store,
    pub host: &'b mut H,
}

impl Store {
    /// A view of the store with its host.
    pub fn view<'a, 'b, H: Host>(&'a mut self, host: &'b mut H) -> StoreView<'a, 'b, H>
        ensures store { result.store ≡ self.entry }
        ensures host { result.host ≡ host.entry }
    {
        StoreView { store: self, host }
    }
}

/// The answer of a store to a request is that of the definition over the beats that were applied.
/// Whatever it is, store and host are as before, and the disk does not fail.
pub fn answer_by<H: Host>(
    alloc: Global,
    store: &mut Store,
    host: &mut H,
    request: &Request,
) -> Result<Table, PointFault>
    requires going { store.old.fault ≡ None }
    ensures answered { IfOk result (λ table. (set : ASettings) (beats : List TierBeat)
        → HasApplied set beats store.old
        → table ≡ table_of widths (floor_at set beats) (points_of beats) request.now) }
    ensures same_store { store.new ≡ store.old }
    ensures same_host { H.seen host.new ≡ H.seen host.old }
    ensures no_disk { IsErrOf result PointFault.Disk → ⊥ }
{
    let mut view = StoreView { store, host };
    query_engine::answer(alloc, &mut view, request)
}

impl<'a, 'b, H: Host> Points for StoreView<'a, 'b, H> {
    ghost use Rattle.store_core.specs.View.{Tells, ViewHeld, view_tiers};
    ghost use Rattle.store_core.specs.Told.{told_series};

    ghost tiers = { λ view. view_tiers view.store.now };

    ghost tells = { λ view told. Tells view.store.now told };

    // No call asks the disk, so that none fails for it.
    ghost faults = { λ _. 0 };

    ghost Held = { ViewHeld };

    ghost held = { λ view. record {
      store = view.store.now;
      store_name = view.store.ghost_name;
      host = H.seen view.host.now;
      host_name = view.host.ghost_name;
    } };

    fn widths(&self) -> &[u32] {
        widths()
    }

    fn floor(&self, tier: u8) -> u32 {
        self.store.tiers().floor(tier)
    }

    fn points(
        &mut self,
        _alloc: Global,
        series: u32,
        from: u32,
        to: u32,
    ) -> Result<PointList, PointFault> {
        Ok(self.store.tiers().points(series, from, to)?)
    }

    fn record_of(
        &mut self,
        _alloc: Global,
        tier: u8,
        series: u32,
        bucket: u32,
    ) -> Result<Option<Record>, PointFault> {
        Ok(self.store.tiers().record_of(tier, series, bucket))
    }

    fn next_record(
        &mut self,
        _alloc: Global,
        tier: u8,
        series: u32,
        from: u32,
        to: u32,
    ) -> Result<Option<(u32, Record)>, PointFault> {
        Ok(self.store.tiers().next_record(tier, series, from, to))
    }

    ghost rising_widths = { λ _. refl };

    ghost rising_series = { λ view told tells. told_series view.store.now told tells };
}
