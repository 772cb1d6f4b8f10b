//! Lines of a text, kept in one buffer.
ghost use Rattle.std.specs.Prelude.{◌≡◌, ◌+◌, ◌<◌, ◌≤◌, ℕ, List, [], ◌∷◌, ◌++◌, length, drop, slice_index_or, IsErrOf, IfOk, IfErr, OnOk, OnErr, MatchOption};
ghost use Rattle.std.specs.List.{AllPass};
ghost use Rattle.plugin_text.specs.Fault.{EndsSplitting};
ghost use Rattle.plugin_text.specs.LineList.{line_at, lines_at, AreWithin};
ghost use Rattle.plugin_text.specs.Lines.{parts, lines, rest, fits, IsLongAfter, BeginsWithLines};

use crate::fault::LineFault;
use crate::splitter::LINE_LIMIT;
use memchr::memchr;
use std::alloc::{AllocError, Global};
use std::marker::Model;

/// Where a line stands in a buffer, without its line feed.
#[derive(Clone, Copy, Debug)]
struct Place {
    start: usize,
    end: usize,
}

/// Lines in their order, each without its line feed.
///
/// The bytes of all lines stand in one buffer, so a line takes no memory of its own. Contracts see
/// the list of the lines.
#[derive(Debug, Drop)]
pub struct LineList {
    bytes: Vec<u8>,
    /// Where each line stands in `bytes`.
    places: Vec<Place>,
}

impl Model for LineList {
    ghost use Rattle.std.specs.Prelude.{ℕ, List};
    ghost use Rattle.plugin_text.specs.LineList.{lines_at, AreWithin};

    ghost Value = { List (List ℕ) };

    ghost view = { λ list. lines_at list.bytes.items list.places.items };

    ghost invariant = { λ list. AreWithin list.bytes.items list.places.items };
}

/// Adds bytes in two parts. After an `Err` the first part may have been added.
fn add_bytes(bytes: &mut Vec<u8>, start: &[u8], end: &[u8]) -> Result<(), AllocError>
    ensures ok { OnOk result (bytes.new.items ≡ bytes.old.items ++ (start.now ++ end.now)) }
    ensures kept { (more : List ℕ) × (bytes.new.items ≡ bytes.old.items ++ more) }
{
    bytes.extend_from_slice(start)?;
    bytes.extend_from_slice(end)
}

/// Where the line that begins at `start` stands, if a line feed ends it.
fn line_place(bytes: &[u8], start: usize) -> Option<Place>
    requires { start ≤ length bytes.now }
    ensures place { MatchOption result (parts (drop start bytes.now) ≡ drop start bytes.now ∷ [])
        (λ place. parts (drop start bytes.now)
        ≡ line_at bytes.now place ∷ parts (drop (place.end + 1) bytes.now)) }
    ensures within { MatchOption result (Unit {0})
        (λ place. (start ≡ place.start) × (start ≤ place.end) × (place.end < length bytes.now)) }
{
    let len = memchr(b'\n', &bytes[start..])?;
    Some(Place {
        start,
        end: start + len,
    })
}

/// Adds the place of a line that is not too long. After an `Err` nothing has changed.
fn add_place(places: &mut Vec<Place>, place: Place) -> Result<(), LineFault>
    requires { place.start ≤ place.end }
    ensures ok { OnOk result (places.new.items ≡ places.old.items ++ place ∷ []) }
    ensures fits { OnOk result (place.end ≤ place.start + LINE_LIMIT) }
    ensures too_long { IsErrOf result LineFault.LineTooLong → place.start + LINE_LIMIT < place.end }
    ensures only { IfErr result EndsSplitting }
    ensures err { OnErr result (places.new.items ≡ places.old.items) }
{
    if place.end - place.start > LINE_LIMIT {
        return Err(LineFault::LineTooLong);
    }
    places.push(place)?;
    Ok(())
}

/// Adds the places of the lines from `start` on, and gives where their rest begins.
fn add_places(places: &mut Vec<Place>, bytes: &[u8], start: usize) -> Result<usize, LineFault>
    requires start { start ≤ length bytes.now }
    requires within { AreWithin bytes.now places.old.items }
    ensures within { AreWithin bytes.now places.new.items }
    ensures end { IfOk result (λ end. (start ≤ end) × (end ≤ length bytes.now)) }
    ensures lines { OnOk result (lines_at bytes.now places.new.items
        ≡ lines_at bytes.now places.old.items ++ lines (drop start bytes.now)) }
    ensures rest { IfOk result (λ end. drop end bytes.now ≡ rest (drop start bytes.now)) }
    ensures short { OnOk result (AllPass fits (lines (drop start bytes.now))) }
    ensures only { IfErr result EndsSplitting }
    ensures long { IsErrOf result LineFault.LineTooLong
        → (handed : List (List ℕ))
        × (lines_at bytes.now places.new.items ≡ lines_at bytes.now places.old.items ++ handed)
        × IsLongAfter (drop start bytes.now) handed }
    ensures memory { IsErrOf result LineFault.Memory
        → (handed : List (List ℕ))
        × (lines_at bytes.now places.new.items ≡ lines_at bytes.now places.old.items ++ handed)
        × BeginsWithLines (drop start bytes.now) handed }
{
    let mut next = start;
    while let Some(place) = line_place(bytes, next) {
        add_place(places, place)?;
        next = place.end + 1;
    }
    Ok(next)
}

impl LineList {
    /// The empty list. It takes no memory.
    pub fn new(alloc: Global) -> LineList
        ensures { result ≡ [] }
    {
        LineList {
            bytes: Vec::new(alloc),
            places: Vec::new(alloc),
        }
    }

    /// How many lines there are.
    pub fn len(&self) -> usize
        ensures { result ≡ length self.now }
    {
        self.places.len()
    }

    /// The line at a place, counted from 0.
    pub fn line(&self, at: usize) -> &[u8]
        requires { at < length self.now }
        ensures { result.now ≡ slice_index_or self.now at result.now }
    {
        let place = self.places[at];
        &self.bytes[place.start..place.end]
    }

    /// Adds the line that begins with `start` and ends with `end`. After an `Err` the list is as
    /// before.
    pub(crate) fn push_joined(&mut self, start: &[u8], end: &[u8]) -> Result<(), AllocError>
        ensures ok { OnOk result (self.new ≡ self.old ++ (start.now ++ end.now) ∷ []) }
        ensures err { OnErr result (self.new ≡ self.old) }
    {
        let from = self.bytes.len();
        add_bytes(&mut self.bytes, start, end)?;
        let place = Place {
            start: from,
            end: self.bytes.len(),
        };
        self.places.push(place)?;
        Ok(())
    }

    /// Adds the lines of a text, which is copied as a whole, and gives its rest. At `LineTooLong` the lines
    /// before the long one have been added, at `Memory` a prefix of the lines.
    pub(crate) fn push_lines<'a>(&mut self, text: &'a [u8]) -> Result<&'a [u8], LineFault>
        ensures lines { OnOk result (self.new ≡ self.old ++ lines text.now) }
        ensures rest { IfOk result (λ left. left.now ≡ rest text.now) }
        ensures short { OnOk result (AllPass fits (lines text.now)) }
        ensures only { IfErr result EndsSplitting }
        ensures long { IsErrOf result LineFault.LineTooLong
            → (handed : List (List ℕ)) × (self.new ≡ self.old ++ handed)
            × IsLongAfter text.now handed }
        ensures memory { IsErrOf result LineFault.Memory
            → (handed : List (List ℕ)) × (self.new ≡ self.old ++ handed)
            × BeginsWithLines text.now handed }
    {
        let start = self.bytes.len();
        self.bytes.extend_from_slice(text)?;
        let end = add_places(&mut self.places, &self.bytes, start)?;
        Ok(&text[end - start..])
    }

    /// Leaves the empty list, and keeps its memory for the next lines.
    pub fn clear(&mut self)
        ensures { self.new ≡ [] }
    {
        self.bytes.clear();
        self.places.clear();
    }
}
