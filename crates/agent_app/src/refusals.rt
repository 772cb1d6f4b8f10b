//! How a refusal of a text is told, and what a run answers that meets one.
ghost use Rattle.std.specs.Prelude.{◌≡◌, ◌++◌, string_bytes, OnOk};
ghost use Rattle.agent_app.specs.Convert.{is_limit, refusal_line, refusal_status, refused_status, refused_words};

use history::BlockFault;
use host_model::Status;
use plugin_text::Refusal;
use std::alloc::AllocError;
use std::fmt::Write;

/// Adds to `out` how the line of a refusal begins, that of a limit or another.
pub(crate) fn push_words(
    out: &mut String,
    limit: bool,
    line: u64,
    number: u32,
) -> Result<(), AllocError>
    ensures { OnOk result (string_bytes out.new
        ≡ string_bytes out.old ++ refused_words limit line number) }
{
    if limit {
        write!(out, "LIMIT {line} {number}")
    } else {
        write!(out, "REFUSED {line} {number}")
    }
}

/// Adds the line of a refusal to `out`.
pub(crate) fn push_refusal(out: &mut String, line: u64, refusal: Refusal) -> Result<(), AllocError>
    ensures { OnOk result (string_bytes out.new
        ≡ string_bytes out.old ++ refusal_line line refusal) }
{
    push_words(out, is_limit(refusal), line, refusal.number())?;
    match refusal {
        Refusal::Block(BlockFault::MomentOrder(last)) => writeln!(out, " {last}"),
        _ => out.push_str("\n"),
    }
}

/// Whether the refusal is that of a limit on what is kept.
fn is_limit(refusal: Refusal) -> bool
    ensures { result ≡ is_limit refusal }
{
    matches!(
        refusal,
        Refusal::Block(BlockFault::TooManyCharts | BlockFault::TooManyDimensions)
    )
}

/// The status of a refusal, of a limit or another.
pub(crate) fn refused_status(limit: bool, line: u64, number: u32) -> Status
    ensures { result ≡ refused_status limit line number }
{
    if limit {
        Status::Limit(line, number)
    } else {
        Status::Refused(line, number)
    }
}

/// The status of a run whose text is refused.
pub(crate) fn refusal_status(line: u64, refusal: Refusal) -> Status
    ensures { result ≡ refusal_status line refusal }
{
    refused_status(is_limit(refusal), line, refusal.number())
}
