//! The command `new`: makes a database.
ghost use Rattle.tier_settings.specs.Limits.{InLimits};
ghost use Rattle.agent_app.specs.Command.{settings_for};
ghost use Rattle.agent_app.specs.New.{Makes};

use crate::command::Plan;
use agent_core::{Agent, CreateFault, Settings};
use host_model::{Host, Status};
use std::alloc::Global;

/// Makes a database with these settings and without beats, where there is none.
pub fn new<H: Host>(alloc: Global, plan: Plan, host: &mut H) -> Status
    requires { InLimits (settings_for plan) }
    ensures { Makes H.honest (settings_for plan) result (H.seen host.old) (H.seen host.new) }
{
    match Settings::new(alloc, plan.id, plan.quotas) {
        Ok(settings) => make(alloc, &settings, host),
        Err(_) => Status::Memory,
    }
}

fn make<H: Host>(alloc: Global, settings: &Settings, host: &mut H) -> Status
    requires { InLimits settings.now }
    ensures { Makes H.honest settings.now result (H.seen host.old) (H.seen host.new) }
{
    match Agent::create(alloc, host, settings) {
        Ok(_agent) => Status::Ok,
        Err(CreateFault::DiskFault) => Status::DiskFault,
        Err(CreateFault::Exists) => Status::Exists,
        Err(CreateFault::Memory) => Status::Memory,
    }
}
