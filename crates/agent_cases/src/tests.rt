ghost use Rattle.std.specs.Prelude.{IfOk};
ghost use Rattle.tier_settings.specs.Limits.{InLimits};

use agent_core::{Agent, OpenFault, Settings};
use host_model::{CallList, File, Host, MemoryHost};
use std::alloc::{AllocError, Global};
use std::test::Fail;

mod opening;

/// The most items, and the most segments, that a tier may have.
const MOST: (u32, u32) = (262_144, 1_024);

/// The settings with the id 7, and as much in each tier as may be.
fn settings(alloc: Global) -> Result<Settings, AllocError>
    ensures { IfOk result InLimits }
{
    Settings::new(alloc, 7, [MOST, MOST, MOST])
}

/// What an agent tells of itself.
#[derive(Clone, Copy, Debug, PartialEq, Eq)]
struct Seen {
    id: u64,
    count: u64,
    last: u32,
    charts: u32,
    dimensions: u32,
}

fn view_of(agent: &Agent) -> Seen {
    Seen {
        id: agent.id(),
        count: agent.count(),
        last: agent.last(),
        charts: agent.registry().charts(),
        dimensions: agent.registry().dimensions(),
    }
}

/// What the agent that is opened tells of itself.
fn opened<H: Host>(alloc: Global, host: &mut H) -> Result<Seen, OpenFault> {
    let agent = Agent::open(alloc, host)?;
    Ok(view_of(&agent))
}

fn host_of(alloc: Global, fails: &[u64]) -> Result<MemoryHost, Fail> {
    let list = CallList::from_vec(fails.to_vec(alloc)?);
    Ok(MemoryHost::new(alloc, list)?)
}
