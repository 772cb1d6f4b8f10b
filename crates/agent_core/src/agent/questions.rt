//! What an agent answers from what its store keeps: the reply to a query, and the kept beats.

ghost use Rattle.agent_core.specs.Calls.{Keeps, Queries};

use super::Agent;
use crate::answering;
use crate::fault::AgentFault;
use fixed_num::Text;
use host_model::Host;
use store_core::Kept;

impl Agent {
    ghost use Rattle.agent_core.specs.Agent.{AgentIsReady};

    /// The reply to a query, whose text is what follows the first word of a QUERY line.
    ///
    /// It is a table over the points of the history, or the line `ERROR n` of the first of these refusals: 1 fewer
    /// than five words, an open quote or more than 256 words of a pattern, 2 a bad number, 3 no such chart, 4 no
    /// such group, 5 more than 10,000 windows. Nothing is stored, and the disk is not asked. After `Memory` the
    /// agent must be opened again.
    pub fn query<H: Host>(&mut self, host: &mut H, text: &str) -> Result<Text, AgentFault>
        requires { AgentIsReady H.honest (H.seen host.old).past self.old }
        ensures { Queries H.honest (H.seen host.old) self.old text.now
            result (H.seen host.new) self.new }
    {
        if let Some(cause) = self.fault {
            return Err(AgentFault::Reopen(cause));
        }
        match answering::reply(self.alloc, &mut self.store, &self.left.registry, host, text) {
            Ok(reply) => Ok(reply),
            Err(fault) => {
                self.fault = fault.cause();
                Err(fault)
            }
        }
    }

    /// The beats with points that are kept, the earliest first, with the number of those before them. The disk is
    /// not asked.
    ///
    /// After `Memory` the agent must be opened again.
    pub fn kept<H: Host>(&mut self, host: &mut H) -> Result<Kept, AgentFault>
        requires { AgentIsReady H.honest (H.seen host.old).past self.old }
        ensures { Keeps H.honest (H.seen host.old) self.old
            result (H.seen host.new) self.new }
    {
        if let Some(cause) = self.fault {
            return Err(AgentFault::Reopen(cause));
        }
        match answering::kept(&mut self.store, host) {
            Ok(kept) => Ok(kept),
            Err(fault) => {
                self.fault = fault.cause();
                Err(fault)
            }
        }
    }
}
