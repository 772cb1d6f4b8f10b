//! Answers from the points that the store of an agent keeps.

ghost use Rattle.std.specs.Prelude.{◌≡◌, ◌<◌, List, length, All, None, Some, Ok, IfOk, IfErr};
ghost use Rattle.beat_tiers.specs.Beats.{TierBeat};
ghost use Rattle.history.specs.History.{Beat as HistoryBeat, registry_of};
ghost use Rattle.query_engine.specs.Windows.{table_of};
ghost use Rattle.query_text.specs.Told.{fault_text};
ghost use Rattle.tier_settings.specs.declared.settings.Settings.{Settings as ASettings};
ghost use Rattle.store_core.specs.Store.{HasApplied};
ghost use Rattle.store_core.specs.Tiers.{floor_at};
ghost use Rattle.store_core.specs.View.{points_of};
ghost use Rattle.tier_settings.specs.Limits.{widths};
ghost use Rattle.agent_core.specs.Answers.{kept_of_history, reply_of, reply_to, tier_beats};

use crate::fault::AgentFault;
use chart_registry::Registry;
use fixed_num::Text;
use host_model::Host;
use query_engine::{Request, Table};
use query_text::{QueryFault, read_query, write_fault, write_table};
use std::alloc::Global;
use store_core::{Kept, Store, answer_by};

/// The answer to a request.
fn table_of<H: Host>(
    alloc: Global,
    store: &mut Store,
    host: &mut H,
    request: &Request,
) -> Result<Table, AgentFault>
    requires { store.old.fault ≡ None }
    ensures answered { IfOk result (λ table. (set : ASettings) (beats : List TierBeat)
        → HasApplied set beats store.old
        → table ≡ table_of widths (floor_at set beats) (points_of beats) request.now) }
    ensures store { store.new ≡ store.old }
    ensures host { H.seen host.new ≡ H.seen host.old }
    ensures memory { IfErr result (λ fault. fault ≡ AgentFault.Memory) }
{
    Ok(answer_by(alloc, store, host, request)?)
}

/// The reply to a query, of which this was read.
fn reply_to<H: Host>(
    alloc: Global,
    store: &mut Store,
    registry: &Registry,
    host: &mut H,
    request: &Request,
) -> Result<Text, AgentFault>
    requires going { store.old.fault ≡ None }
    requires within { All (λ series. series < length registry.now.dimensions) request.now.series }
    ensures answered { IfOk result (λ reply. (set : ASettings) (h : List HistoryBeat)
        → HasApplied set (tier_beats h) store.old → registry.now ≡ registry_of h
        → reply ≡ reply_to set h (Ok request.now)) }
    ensures store { store.new ≡ store.old }
    ensures host { H.seen host.new ≡ H.seen host.old }
    ensures memory { IfErr result (λ fault. fault ≡ AgentFault.Memory) }
{
    let table = table_of(alloc, store, host, request)?;
    Ok(write_table(alloc, request, registry, &table)?)
}

/// The line of a refusal.
fn refusal_line(alloc: Global, fault: QueryFault) -> Result<Text, AgentFault>
    ensures text { IfOk result (λ text. fault_text fault ≡ Some text) }
    ensures memory { IfErr result (λ fault. fault ≡ AgentFault.Memory) }
{
    Ok(write_fault(alloc, fault)?)
}

/// The reply to a query.
pub(crate) fn reply<H: Host>(
    alloc: Global,
    store: &mut Store,
    registry: &Registry,
    host: &mut H,
    text: &str,
) -> Result<Text, AgentFault>
    requires { store.old.fault ≡ None }
    ensures answered { IfOk result (λ reply. (set : ASettings) (h : List HistoryBeat)
        → HasApplied set (tier_beats h) store.old → registry.now ≡ registry_of h
        → reply ≡ reply_of set h text.now) }
    ensures store { store.new ≡ store.old }
    ensures host { H.seen host.new ≡ H.seen host.old }
    ensures memory { IfErr result (λ fault. fault ≡ AgentFault.Memory) }
{
    match read_query(alloc, text, registry) {
        Ok(request) => reply_to(alloc, store, registry, host, &request),
        Err(fault) => refusal_line(alloc, fault),
    }
}

/// The kept beats of a store that was not refused.
pub(crate) fn kept<H: Host>(store: &mut Store, host: &mut H) -> Result<Kept, AgentFault>
    requires { store.old.fault ≡ None }
    ensures answered { IfOk result (λ kept. (set : ASettings) (h : List HistoryBeat)
        → HasApplied set (tier_beats h) store.old → kept ≡ kept_of_history set h) }
    ensures store { store.new ≡ store.old }
    ensures host { H.seen host.new ≡ H.seen host.old }
    ensures memory { IfErr result (λ fault. fault ≡ AgentFault.Memory) }
{
    Ok(store.kept(host)?)
}
