//! The text of a configuration, taken from a source.
ghost use Rattle.std.specs.Prelude.{◌≡◌, ◌<◌, ◌≤◌, ◌++◌, [], length, take, IsErrOf, IfOk, IfErr, IfSome};
ghost use Rattle.host_model.specs.Cause.{HasCause};
ghost use Rattle.host_model.specs.Source.{Takes};
ghost use Rattle.agent_app.specs.declared.health_text.HealthEnd.TheVariants.{Memory, ReadFault};
ghost use Rattle.agent_app.specs.HealthText.{Stops, TakesText};

use fixed_num::ByteList;
use health_config::TEXT_LIMIT;
use host_model::{Failed, Source};
use std::alloc::{AllocError, Global};

/// How many bytes are asked of the source at once.
const PIECE_SIZE: usize = 1 << 16;

/// Why a source gave no text of a configuration.
#[derive(Clone, Copy, Debug, PartialEq, Eq)]
pub(crate) enum HealthEnd {
    /// The source failed.
    ReadFault,
    /// More than `TEXT_LIMIT` bytes came.
    TooLong,
    /// There was no memory.
    Memory,
}

impl From<Failed> for HealthEnd {
    ghost from_gives = { λ _ end. end ≡ ReadFault };

    fn from(_error: Failed) -> HealthEnd {
        HealthEnd::ReadFault
    }
}

impl From<AllocError> for HealthEnd {
    ghost from_gives = { λ _ end. end ≡ Memory };

    fn from(_error: AllocError) -> HealthEnd {
        HealthEnd::Memory
    }
}

/// Adds to the text what the source gives next, and says how many bytes that is: none at its end.
fn take_piece<S: Source>(
    text: &mut ByteList,
    piece: &mut [u8],
    source: &mut S,
) -> Result<usize, HealthEnd>
    ensures takes { IfOk result
        (λ n. Takes (S.left source.old) (take n piece.new) (S.left source.new)) }
    ensures added { IfOk result (λ n. text.new ≡ text.old ++ take n piece.new) }
    ensures within { IfOk result (λ n. n ≤ length piece.old) }
    ensures end { IfOk result (λ n. n ≡ 0 → 0 < length piece.old
        → IfSome (S.left source.new) (λ more. more ≡ [])) }
    ensures stops { IfErr result
        (λ end. Stops end (length piece.old) (S.left source.old) (S.left source.new)) }
    ensures cause { HasCause (S.faults source.old) (S.faults source.new)
        (IsErrOf result HealthEnd.ReadFault) }
{
    let taken = source.pull(piece)?;
    text.extend(&piece[..taken])?;
    Ok(taken)
}

/// Takes the text piece by piece, each into `piece`.
fn take_pieces<S: Source>(
    alloc: Global,
    piece: &mut [u8],
    source: &mut S,
) -> Result<ByteList, HealthEnd>
    requires { 0 < length piece.old }
    ensures takes { TakesText result (S.left source.old) (S.left source.new) }
    ensures cause { HasCause (S.faults source.old) (S.faults source.new)
        (IsErrOf result HealthEnd.ReadFault) }
{
    let mut text = ByteList::new(alloc);
    let mut room = TEXT_LIMIT + 1;
    while room > 0 {
        let size = room.min(piece.len());
        let taken = take_piece(&mut text, &mut piece[..size], source)?;
        if taken == 0 {
            return Ok(text);
        }
        room -= taken;
    }
    Err(HealthEnd::TooLong)
}

/// Takes the text of a configuration from a source, to its end.
///
/// No more than `TEXT_LIMIT` + 1 bytes are taken: where that many came, the answer is `TooLong`, also where the source
/// would fail next. `ReadFault` comes where the source failed before that. It may run out of memory at any place.
pub(crate) fn read_health<S: Source>(alloc: Global, source: &mut S) -> Result<ByteList, HealthEnd>
    ensures takes { TakesText result (S.left source.old) (S.left source.new) }
    ensures cause { HasCause (S.faults source.old) (S.faults source.new)
        (IsErrOf result HealthEnd.ReadFault) }
{
    let mut piece = vec![in alloc; 0; PIECE_SIZE]?;
    take_pieces(alloc, &mut piece, source)
}
