//! The command `receive`: the copies that a child sends are stored behind those of a database.
ghost use Rattle.link_session.specs.Session.{link_seen};
ghost use Rattle.agent_app.specs.Receive.{Closes, ReceivesAll};

use crate::running::tell_refusal;
use crate::sessions::session_status;
use crate::statuses::opening_status;
use agent_core::{Agent, AgentFault};
use host_model::{Host, Link, Status};
use link_session::SessionFault;
use plugin_text::Refusal;
use std::alloc::Global;

/// The status of a session that ended so. Why the database did not take what came is told.
fn close<H: Host>(alloc: Global, host: &mut H, ended: Result<(), SessionFault>) -> Status
    ensures { Closes H.honest ended result (H.seen host.old) (H.seen host.new) }
{
    match ended {
        Err(SessionFault::Agent(AgentFault::Refused(why))) => {
            tell_refusal(alloc, host, 0, Refusal::Block(why))
        }
        ended => session_status(ended),
    }
}

/// Opens the database, stores the copies that the child at the other end of the link sends behind those that it has,
/// and tells each part once it is stored. Then the child is told that it is.
pub fn receive<H: Host, L: Link>(alloc: Global, host: &mut H, link: &mut L) -> Status
    ensures { ReceivesAll H.honest result
        (link_seen (L.sent link.old) (L.left link.old) (L.faults link.old))
        (link_seen (L.sent link.new) (L.left link.new) (L.faults link.new))
        (H.seen host.old) (H.seen host.new) }
{
    match Agent::open(alloc, host) {
        Ok(mut agent) => {
            let ended = link_session::receive(alloc, &mut agent, host, link);
            close(alloc, host, ended)
        }
        Err(fault) => opening_status(fault),
    }
}
