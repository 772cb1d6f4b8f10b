//! The command `health`: a text is stored as the configuration of alarms.
ghost use Rattle.std.specs.Prelude.{◌≡◌, ◌++◌, [], string_bytes, None, Some, OnOk};
ghost use Rattle.host_model.specs.Cause.{HasCause, Rose};
ghost use Rattle.health_config.specs.Fault.{fault_line, fault_number};
ghost use Rattle.agent_core.specs.Agent.{AgentIsReady};
ghost use Rattle.agent_app.specs.Health.{fault_status, fault_text, is_limit, ConfiguresAll, Handled, StoresHealth, TellsFault};

use crate::health_text::{HealthEnd, read_health};
use crate::refusals::{push_words, refused_status};
use crate::running::{tell_stored, tell_text};
use crate::statuses::{agent_status, opening_status};
use agent_core::{Agent, AgentFault, ConfigFault};
use host_model::{Host, Source, Status};
use std::alloc::{AllocError, Global};

/// Whether the refusal is that of a limit on what a configuration has.
fn is_limit(fault: ConfigFault) -> bool
    ensures { result ≡ is_limit fault }
{
    matches!(
        fault,
        ConfigFault::TooManyAlarms(_) | ConfigFault::TextTooLong
    )
}

/// Adds the line of a refusal to `out`.
fn push_fault(
    out: &mut String,
    fault: ConfigFault,
    line: u64,
    number: u32,
) -> Result<(), AllocError>
    requires line { fault_line fault ≡ Some line }
    requires number { fault_number fault ≡ Some number }
    ensures { OnOk result (string_bytes out.new ≡ string_bytes out.old ++ fault_text fault) }
{
    push_words(out, is_limit(fault), line, number)?;
    out.push_str("\n")
}

/// The status of a text that is refused so. A fault of memory has no line and no number.
pub(crate) fn fault_status(fault: ConfigFault) -> Status
    ensures { result ≡ fault_status fault }
{
    match (fault.line(), fault.number()) {
        (Some(line), Some(number)) => refused_status(is_limit(fault), line, number),
        _ => Status::Memory,
    }
}

/// Tells why a text is refused, and says how the command ends.
fn tell_fault<H: Host>(alloc: Global, host: &mut H, fault: ConfigFault) -> Status
    ensures tells { TellsFault result H.honest fault (H.seen host.old).past (H.seen host.new).past
        (Rose (H.seen host.old).tell_faults (H.seen host.new).tell_faults) }
    ensures cause { HasCause (H.seen host.old).tell_faults (H.seen host.new).tell_faults
        (result ≡ Status.TellFault) }
    ensures disk { (H.seen host.new).disk_faults ≡ (H.seen host.old).disk_faults }
    ensures told_for { result ≡ Status.TellFault → fault_text fault ≡ [] → ⊥ }
{
    let (Some(line), Some(number)) = (fault.line(), fault.number()) else {
        return Status::Memory;
    };
    let mut out = String::new(alloc);
    if push_fault(&mut out, fault, line, number).is_err() {
        return Status::Memory;
    }
    match tell_text(host, out.as_str()) {
        Ok(()) => fault_status(fault),
        Err(_) => Status::TellFault,
    }
}

/// Stores a text that has ended, and tells that, or why it is refused.
fn store<H: Host>(alloc: Global, agent: &mut Agent, text: &[u8], host: &mut H) -> Status
    requires ready { AgentIsReady H.honest (H.seen host.old).past agent.old }
    requires going { agent.old.fault ≡ None }
    ensures { StoresHealth H.honest agent.old text.now result
        (H.seen host.old) (H.seen host.new) }
{
    match agent.set_health(host, text) {
        Ok(reply) => match tell_stored(alloc, host, &reply) {
            Ok(()) => Status::Ok,
            Err(status) => status,
        },
        Err(AgentFault::Health(fault)) => tell_fault(alloc, host, fault),
        Err(fault) => agent_status(fault),
    }
}

/// Stores the text of a source, and tells that, or why it is refused.
fn configure<S: Source, H: Host>(
    alloc: Global,
    agent: &mut Agent,
    source: &mut S,
    host: &mut H,
) -> Status
    requires ready { AgentIsReady H.honest (H.seen host.old).past agent.old }
    requires going { agent.old.fault ≡ None }
    ensures { Handled H.honest agent.old result (S.left source.old) (S.left source.new)
        (S.faults source.old) (S.faults source.new) (H.seen host.old) (H.seen host.new) }
{
    match read_health(alloc, source) {
        Ok(text) => store(alloc, agent, text.as_slice(), host),
        Err(HealthEnd::TooLong) => tell_fault(alloc, host, ConfigFault::TextTooLong),
        Err(HealthEnd::ReadFault) => Status::ReadFault,
        Err(HealthEnd::Memory) => Status::Memory,
    }
}

/// Opens the database, and stores the text of a source as the configuration of its alarms.
pub fn health<S: Source, H: Host>(alloc: Global, source: &mut S, host: &mut H) -> Status
    ensures { ConfiguresAll H.honest result (S.left source.old) (S.left source.new)
        (S.faults source.old) (S.faults source.new) (H.seen host.old) (H.seen host.new) }
{
    match Agent::open(alloc, host) {
        Ok(mut agent) => configure(alloc, &mut agent, source, host),
        Err(fault) => opening_status(fault),
    }
}
