//! The command `query`: a question is answered from a database, in which nothing changes.
ghost use Rattle.std.specs.Prelude.{◌≡◌, ◌<◌, ◌⊎◌, ◌∷◌, length, take, None, IfOk};
ghost use Rattle.host_model.specs.Cause.{HasCause};
ghost use Rattle.host_model.specs.Past.{Told, MayAdd};
ghost use Rattle.agent_core.specs.Agent.{AgentIsReady};
ghost use Rattle.agent_app.specs.Query.{question_of, reply_for, Answering, Asks};

use crate::running::tell_text;
use crate::statuses::{agent_status, opening_status};
use agent_core::Agent;
use fixed_num::{Text, WordsList};
use host_model::{Host, Status};
use query_text::join;
use std::alloc::{AllocError, Global};

/// The question that the words behind the first ask.
fn question(alloc: Global, words: &WordsList) -> Result<Text, AllocError>
    requires { 0 < length words.now }
    ensures { IfOk result (λ text. text ≡ question_of words.now) }
{
    join(alloc, &words.as_slice()[1..])
}

/// Tells a reply, and says how the command ends.
pub(crate) fn tell_reply<H: Host>(host: &mut H, text: &str) -> Status
    ensures told { ((result ≡ Status.Ok) × (H.honest →
        (H.seen host.new).past ≡ Told text.now ∷ (H.seen host.old).past))
        ⊎ ((result ≡ Status.TellFault) × (H.honest →
        MayAdd (λ n. Told (take n text.now)) (H.seen host.old).past (H.seen host.new).past)) }
    ensures cause { HasCause (H.seen host.old).tell_faults (H.seen host.new).tell_faults
        (result ≡ Status.TellFault) }
    ensures disk { (H.seen host.new).disk_faults ≡ (H.seen host.old).disk_faults }
{
    match tell_text(host, text) {
        Ok(()) => Status::Ok,
        Err(_) => Status::TellFault,
    }
}

/// Tells the reply of an agent to a question.
fn answer<H: Host>(agent: &mut Agent, text: &str, host: &mut H) -> Status
    requires ready { AgentIsReady H.honest (H.seen host.old).past agent.old }
    requires going { agent.old.fault ≡ None }
    ensures { Answering H.honest agent.old (reply_for text.now) result
        (H.seen host.old) (H.seen host.new) }
{
    match agent.query(host, text) {
        Ok(reply) => tell_reply(host, reply.as_str()),
        Err(fault) => agent_status(fault),
    }
}

/// Tells the reply of an agent to the question of these words.
fn ask<H: Host>(alloc: Global, agent: &mut Agent, words: &WordsList, host: &mut H) -> Status
    requires named { 0 < length words.now }
    requires ready { AgentIsReady H.honest (H.seen host.old).past agent.old }
    requires going { agent.old.fault ≡ None }
    ensures { Answering H.honest agent.old (reply_for (question_of words.now)) result
        (H.seen host.old) (H.seen host.new) }
{
    match question(alloc, words) {
        Ok(text) => answer(agent, text.as_str(), host),
        Err(_) => Status::Memory,
    }
}

/// Opens the database, and tells the reply to the question that the words behind the first ask.
pub fn query<H: Host>(alloc: Global, words: &WordsList, host: &mut H) -> Status
    requires { 0 < length words.now }
    ensures { Asks H.honest (reply_for (question_of words.now)) result
        (H.seen host.old) (H.seen host.new) }
{
    match Agent::open(alloc, host) {
        Ok(mut agent) => ask(alloc, &mut agent, words, host),
        Err(fault) => opening_status(fault),
    }
}
