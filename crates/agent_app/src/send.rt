//! The command `send`: copies of the beats of a database go to a parent.
ghost use Rattle.link_session.specs.Session.{link_seen};
ghost use Rattle.agent_app.specs.Send.{SendsAll};

use crate::sessions::session_status;
use crate::statuses::opening_status;
use agent_core::Agent;
use host_model::{Host, Link, Status};
use std::alloc::Global;

/// Opens the database, and sends copies of its beats to the parent at the other end of the link, from where that asks,
/// until it has them all. Nothing changes in the database.
pub fn send<H: Host, L: Link>(alloc: Global, host: &mut H, link: &mut L) -> Status
    ensures { SendsAll H.honest result
        (link_seen (L.sent link.old) (L.left link.old) (L.faults link.old))
        (link_seen (L.sent link.new) (L.left link.new) (L.faults link.new))
        (H.seen host.old) (H.seen host.new) }
{
    match Agent::open(alloc, host) {
        Ok(mut agent) => session_status(link_session::send(alloc, &mut agent, host, link)),
        Err(fault) => opening_status(fault),
    }
}
