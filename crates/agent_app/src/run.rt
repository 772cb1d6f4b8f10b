//! The command `run`: a text is read in pieces, and its beats are stored behind those of a database.
ghost use Rattle.agent_app.specs.Run.{RunsAll};

use crate::running::Running;
use crate::statuses::opening_status;
use agent_core::Agent;
use history::USUAL_UPDATE_EVERY;
use host_model::{Host, Source, Status};
use line_stream::take_text;
use std::alloc::Global;

/// Opens the database, stores the beats of a text behind those that it has, and tells each once it
/// is stored.
pub fn run<S: Source, H: Host>(alloc: Global, source: &mut S, host: &mut H) -> Status
    ensures { RunsAll H.honest result (S.left source.old) (S.left source.new)
        (S.faults source.old) (S.faults source.new) (H.seen host.old) (H.seen host.new) }
{
    match Agent::open(alloc, host) {
        Ok(agent) => {
            let mut running = Running::new(alloc, agent, USUAL_UPDATE_EVERY);
            take_text(alloc, &mut running, source, host)
        }
        Err(fault) => opening_status(fault),
    }
}
