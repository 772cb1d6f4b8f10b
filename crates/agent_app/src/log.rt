//! The command `log`: the log of alarms is told from a database, in which nothing changes.
ghost use Rattle.std.specs.Prelude.{◌≡◌, None, IfOk};
ghost use Rattle.agent_app.specs.Log.{log_as, log_for};
ghost use Rattle.agent_app.specs.LogText.{shown_by};
ghost use Rattle.agent_app.specs.Query.{Answering, Asks};

use crate::command::Form;
use crate::log_json::write_log_json;
use crate::log_text::write_log;
use crate::query::tell_reply;
use crate::statuses::{agent_status, opening_status};
use agent_core::{Agent, Log};
use fixed_num::Text;
use host_model::{Host, Status};
use std::alloc::{AllocError, Global};

/// A log in a form.
fn write_as(alloc: Global, form: Form, log: &Log) -> Result<Text, AllocError>
    ensures { IfOk result (λ text. text ≡ log_as form (shown_by log.now)) }
{
    match form {
        Form::Text => write_log(alloc, log),
        Form::Json => write_log_json(alloc, log),
    }
}

/// Tells the log of an agent.
fn tell_log<H: Host>(alloc: Global, agent: &Agent, form: Form, host: &mut H) -> Status
    requires { agent.now.fault ≡ None }
    ensures { Answering H.honest agent.now (log_for form) result
        (H.seen host.old) (H.seen host.new) }
{
    let log = match agent.log() {
        Ok(log) => log,
        Err(fault) => return agent_status(fault),
    };
    match write_as(alloc, form, &log) {
        Ok(text) => tell_reply(host, text.as_str()),
        Err(_) => Status::Memory,
    }
}

/// Opens the database, and tells the log of its alarms.
pub fn log<H: Host>(alloc: Global, form: Form, host: &mut H) -> Status
    ensures { Asks H.honest (log_for form) result (H.seen host.old) (H.seen host.new) }
{
    match Agent::open(alloc, host) {
        Ok(agent) => tell_log(alloc, &agent, form, host),
        Err(fault) => opening_status(fault),
    }
}
