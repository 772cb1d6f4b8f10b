ghost use Rattle.std.specs.Prelude.{◌≡◌, ◌<◌, ◌≤◌, IfOk};
ghost use Rattle.query_text.specs.Asked.{span_read, windows, rows_read};

use crate::fault::QueryFault;
use crate::number::read_number;

/// The most windows of a query.
pub const MOST_WINDOWS: u32 = 10_000;

/// From when to before when is asked, and how long a window is, in seconds.
#[derive(Clone, Copy, Debug)]
pub struct Span {
    pub after: u32,
    pub before: u32,
    pub window: u32,
}

/// Reads the three numbers of a query.
pub fn read_span(after: &str, before: &str, window: &str) -> Result<Span, QueryFault>
    ensures value { result ≡ span_read after.now before.now window.now }
    ensures window { IfOk result (λ span. 0 < span.window) }
{
    Ok(Span {
        after: read_number(0, after)?,
        before: read_number(0, before)?,
        window: read_number(1, window)?,
    })
}

/// How many windows start below the end.
fn windows(span: Span) -> u32
    requires { 0 < span.window }
    ensures { result ≡ windows span.after span.before span.window }
{
    span.before.saturating_sub(span.after).div_ceil(span.window)
}

/// The number of windows, where there are not too many.
pub fn read_rows(span: Span) -> Result<u32, QueryFault>
    requires { 0 < span.window }
    ensures value { result ≡ rows_read span }
    ensures few { IfOk result (λ rows. rows ≤ MOST_WINDOWS) }
{
    let rows = windows(span);
    if rows > MOST_WINDOWS {
        return Err(QueryFault::TooManyRows);
    }
    Ok(rows)
}
