//! The command `convert`: a text is read in pieces, and its points are told.
ghost use Rattle.std.specs.Prelude.{string_bytes};
ghost use Rattle.agent_app.specs.Convert.{Converts, EndsAsText, LeavesDisk};
ghost use Rattle.agent_app.specs.Converting.{TellsLast};

use crate::converting::{Converting, tell_waiting};
use host_model::{Host, Source, Status};
use line_stream::take_text;
use std::alloc::Global;

/// Tells what waits in `out`, as the last of a run that ends with this status. Where telling has
/// failed before, or memory ran out, nothing more is told.
fn tell_last<H: Host>(host: &mut H, out: &mut String, status: Status) -> Status
    ensures tells { TellsLast result status H.honest (string_bytes out.old)
        (H.seen host.old).past (H.seen host.new).past
        (H.seen host.old).tell_faults (H.seen host.new).tell_faults }
    ensures disk { LeavesDisk H.honest (H.seen host.old) (H.seen host.new) }
{
    if let Status::TellFault | Status::Memory = status {
        return status;
    }
    match tell_waiting(host, out) {
        Ok(()) => status,
        Err(_) => Status::TellFault,
    }
}

/// Reads a text from the source, and tells its points.
pub fn convert<S: Source, H: Host>(alloc: Global, source: &mut S, host: &mut H) -> Status
    ensures converts { Converts result H.honest (S.left source.old) (S.left source.new)
        (H.seen host.old).past (H.seen host.new).past (S.faults source.old) (S.faults source.new)
        (H.seen host.old).tell_faults (H.seen host.new).tell_faults }
    ensures leaves_disk { LeavesDisk H.honest (H.seen host.old) (H.seen host.new) }
    ensures complete { EndsAsText result (S.left source.old)
        (S.faults source.old) (S.faults source.new)
        (H.seen host.old).tell_faults (H.seen host.new).tell_faults }
{
    let mut converting = Converting::new(alloc);
    let status = take_text(alloc, &mut converting, source, host);
    tell_last(host, &mut converting.out, status)
}
