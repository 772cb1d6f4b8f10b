//! Which databases open, by their side and their notes.

ghost use Rattle.std.specs.Prelude.{◌<◌, IfOk};
ghost use Rattle.agent_cases.specs.Ready.{IsReadyOn};
ghost use Rattle.store_core.specs.beats.Beats.{FitsARecord, InForm};
ghost use Rattle.store_core.specs.Store.{IsReplayed};

use super::*;
use store_core::{Beat, BeatPoint, BeatPointList, ByteList, Store, StoreFault};

/// A beat that was collected at 60 and says nothing.
const EMPTY: &[u8; 17] = b"\x01\x3c\0\0\0\0\0\0\0\0\0\0\0\0\0\0\0";

/// The point of a series with the word of 42.
fn point(series: u32) -> BeatPoint {
    BeatPoint {
        series,
        step: 1,
        word: 0x2940_1640,
    }
}

/// A beat of a store.
fn kept(alloc: Global, moment: Option<u32>, note: &[u8], points: &[BeatPoint]) -> Result<Beat, Fail>
    ensures form { IfOk result InForm }
    ensures size { IfOk result FitsARecord }
{
    let beat = Beat {
        moment,
        points: BeatPointList::from_vec(points.to_vec(alloc)?),
        note: ByteList::from_slice(alloc, note)?,
    };
    if beat.is_in_form() && beat.fits_a_record() {
        Ok(beat)
    } else {
        Err(Fail::from(StoreFault::Memory))
    }
}

/// The side of no history.
const NOTHING: &[u8; 41] = &[0; 41];

/// Makes a database without beats that has this side.
fn make_side(alloc: Global, host: &mut MemoryHost, side: &[u8]) -> Result<Store, Fail>
    ensures ready { IfOk result (IsReadyOn host.new) }
    ensures replayed { IfOk result IsReplayed }
{
    if side.len() > 100 {
        return Err(Fail::new("a long side"));
    }
    let bytes = ByteList::from_slice(alloc, side)?;
    let store = Store::create(alloc, host, &settings(alloc)?, bytes)?;
    Ok(store)
}

/// Stores a beat where no checkpoint is due.
fn add(store: &mut Store, host: &mut MemoryHost, beat: &Beat) -> Result<(), StoreFault>
    requires ready { IsReadyOn host.old store.old }
    requires replayed { IsReplayed store.old }
    requires form { InForm beat.now }
    requires size { FitsARecord beat.now }
    ensures ready { IsReadyOn host.new store.new }
    ensures replayed { IsReplayed store.new }
{
    if store.due() {
        return Err(StoreFault::Memory);
    }
    store.commit(host, beat)
}

/// Makes a database with one beat, which has this note and these points.
fn note(
    alloc: Global,
    host: &mut MemoryHost,
    bytes: &[u8],
    points: &[BeatPoint],
) -> Result<(), Fail> {
    let beat = kept(alloc, Some(60), bytes, points)?;
    let mut store = make_side(alloc, host, NOTHING.as_slice())?;
    add(&mut store, host, &beat)?;
    Ok(())
}

/// Makes a database with two beats.
fn two_notes(alloc: Global, host: &mut MemoryHost, first: &Beat, second: &Beat) -> Result<(), Fail>
    requires forms { InForm first.now × InForm second.now }
    requires sizes { FitsARecord first.now × FitsARecord second.now }
{
    let mut store = make_side(alloc, host, NOTHING.as_slice())?;
    add(&mut store, host, first)?;
    add(&mut store, host, second)?;
    Ok(())
}

/// What opening answers where the side is this.
fn sided(alloc: Global, side: &[u8]) -> Result<Option<OpenFault>, Fail> {
    let mut host = host_of(alloc, &[])?;
    make_side(alloc, &mut host, side)?;
    Ok(opened(alloc, &mut host).err())
}

#[test]
fn a_side_that_is_none_is_damage(rt: HostRuntime) -> Result<(), Fail> {
    let alloc = rt.alloc();
    assert_eq!(rt; sided(alloc, NOTHING.as_slice())?, None);
    let damaged = Some(OpenFault::Damaged(5));
    assert_eq!(rt; sided(alloc, b"")?, damaged);
    // A collector of no chart, and a child where nothing was copied.
    let collects =
        b"\x01\0\0\0\0\0\0\0\0\0\0\0\0\0\0\0\0\0\0\0\0\0\0\0\0\0\0\0\0\0\0\0\0\0\0\0\0\0\0\0\0";
    assert_eq!(rt; sided(alloc, collects)?, None);
    let copies =
        b"\0\x01\0\0\0\0\0\0\0\0\0\0\0\0\0\0\0\0\0\0\0\0\0\0\0\0\0\0\0\0\0\0\0\0\0\0\0\0\0\0\0";
    assert_eq!(rt; sided(alloc, copies)?, damaged);
    Ok(())
}

/// What opening answers where the one beat has this note and these points.
fn noted(alloc: Global, bytes: &[u8], points: &[BeatPoint]) -> Result<Option<OpenFault>, Fail> {
    let mut host = host_of(alloc, &[])?;
    note(alloc, &mut host, bytes, points)?;
    Ok(opened(alloc, &mut host).err())
}

#[test]
fn a_note_that_is_no_entry_is_damage(rt: HostRuntime) -> Result<(), Fail> {
    let alloc = rt.alloc();
    assert_eq!(rt; noted(alloc, EMPTY.as_slice(), &[])?, None);
    // The same at 61, with a byte behind it, and with a row of a chart that is not there.
    let damaged = Some(OpenFault::Damaged(5));
    let later = b"\x01\x3d\0\0\0\0\0\0\0\0\0\0\0\0\0\0\0";
    assert_eq!(rt; noted(alloc, later, &[])?, damaged);
    let longer = b"\x01\x3c\0\0\0\0\0\0\0\0\0\0\0\0\0\0\0\0";
    assert_eq!(rt; noted(alloc, longer, &[])?, damaged);
    let row = b"\x01\x3c\0\0\0\0\0\0\0\0\0\0\0\x01\0\0\0\0\0\0\0\0\0\0\0";
    assert_eq!(rt; noted(alloc, row, &[])?, damaged);
    // A point of a series that is not there.
    assert_eq!(rt; noted(alloc, EMPTY.as_slice(), &[point(0)])?, damaged);
    Ok(())
}

#[test]
fn a_journal_that_is_changed_is_damage(rt: HostRuntime) -> Result<(), Fail> {
    let alloc = rt.alloc();
    let mut host = host_of(alloc, &[])?;
    note(alloc, &mut host, EMPTY.as_slice(), &[])?;
    host.write_at(File::JournalA, 0, b"\xff")?;
    assert_eq!(rt; opened(alloc, &mut host).err(), Some(OpenFault::Damaged(4)));
    Ok(())
}

#[test]
fn a_chart_whose_id_has_no_dot_is_damage(rt: HostRuntime) -> Result<(), Fail> {
    let alloc = rt.alloc();
    // The entry of a beat at 60 that defines the chart a.b, and the same of a_b.
    let dot =
        b"\x01\x3c\0\0\0\x01\0\0\0\0\0\0\0\x03\0a.b\0\0\0\0\0\0\0\0\0\0\0\xe8\x03\0\0\0\0\0\0\x01\0\0\0\0\0\0\0\0\0\0\0\0";
    assert_eq!(rt; noted(alloc, dot, &[])?, None);
    let none =
        b"\x01\x3c\0\0\0\x01\0\0\0\0\0\0\0\x03\0a_b\0\0\0\0\0\0\0\0\0\0\0\xe8\x03\0\0\0\0\0\0\x01\0\0\0\0\0\0\0\0\0\0\0\0";
    assert_eq!(rt; noted(alloc, none, &[])?, Some(OpenFault::Damaged(5)));
    Ok(())
}

/// A gap of the child 7 up to 60.
const GAP: &[u8; 17] = b"\x04\x07\0\0\0\0\0\0\0\0\0\0\0\x3c\0\0\0";

/// A configuration of one byte.
const HEALTH: &[u8; 7] = b"\x03\x02\0\0\0x:";

/// A configuration whose text is refused: its line has no colon.
const REFUSED: &[u8; 6] = b"\x03\x01\0\0\0x";

/// A beat that was copied of the child 7 at 61: the chart a.b with a dimension d, and the word of 42.
const COPY: &[u8; 61] =
    b"\x02\x07\0\0\0\0\0\0\0\x3d\0\0\0\x01\0\0\0\0\0\0\0\x03\0a.b\x01\0c\x01\0\0\0\x01\0\0\0\0\0\0\0\0\0\0\0\x01\0d\0\x01\0\0\0\0\0\0\0\x40\x16\x40\x29";

/// The host of a database with a gap, and a copied beat behind it.
fn copying(alloc: Global, copy: &[u8], points: &[BeatPoint]) -> Result<MemoryHost, Fail> {
    let mut host = host_of(alloc, &[])?;
    let gap = kept(alloc, Some(60), GAP.as_slice(), &[])?;
    let copied = kept(alloc, Some(61), copy, points)?;
    two_notes(alloc, &mut host, &gap, &copied)?;
    Ok(host)
}

#[test]
fn a_database_of_copies_opens(rt: HostRuntime) -> Result<(), Fail> {
    let alloc = rt.alloc();
    let mut host = copying(alloc, COPY.as_slice(), &[point(0)])?;
    let two = Seen {
        id: 7,
        count: 2,
        last: 61,
        charts: 1,
        dimensions: 1,
    };
    assert_eq!(rt; opened(alloc, &mut host)?, two);
    Ok(())
}

/// What opening answers where the copied beat has another byte at this place.
fn changed_copy(alloc: Global, place: usize, byte: u8) -> Result<Option<OpenFault>, Fail>
    requires { place < 61 }
{
    let mut bytes = *COPY;
    bytes[place] = byte;
    let mut host = copying(alloc, bytes.as_slice(), &[])?;
    Ok(opened(alloc, &mut host).err())
}

#[test]
fn a_copied_beat_that_does_not_go_on_is_damage(rt: HostRuntime) -> Result<(), Fail> {
    let alloc = rt.alloc();
    let damaged = Some(OpenFault::Damaged(5));
    // The same moment, and another child than that of the gap.
    assert_eq!(rt; changed_copy(alloc, 9, 61)?, None);
    assert_eq!(rt; changed_copy(alloc, 1, 8)?, None);
    // Another moment, a chart's number that is not the next, and a word of no series.
    assert_eq!(rt; changed_copy(alloc, 9, 62)?, damaged);
    assert_eq!(rt; changed_copy(alloc, 17, 1)?, damaged);
    assert_eq!(rt; changed_copy(alloc, 53, 1)?, damaged);
    Ok(())
}

/// What opening answers where there are two beats with these notes.
fn opened_two(alloc: Global, first: &Beat, second: &Beat) -> Result<Option<OpenFault>, Fail>
    requires forms { InForm first.now × InForm second.now }
    requires sizes { FitsARecord first.now × FitsARecord second.now }
{
    let mut host = host_of(alloc, &[])?;
    two_notes(alloc, &mut host, first, second)?;
    Ok(opened(alloc, &mut host).err())
}

#[test]
fn a_configuration_has_no_moment(rt: HostRuntime) -> Result<(), Fail> {
    let alloc = rt.alloc();
    let health = kept(alloc, None, HEALTH.as_slice(), &[])?;
    let beat = kept(alloc, Some(60), EMPTY.as_slice(), &[])?;
    assert_eq!(rt; opened_two(alloc, &health, &beat)?, None);
    assert_eq!(rt; opened_two(alloc, &beat, &health)?, None);
    let refused = kept(alloc, None, REFUSED.as_slice(), &[])?;
    assert_eq!(rt;
        opened_two(alloc, &beat, &refused)?,
        Some(OpenFault::Damaged(5))
    );
    assert_eq!(rt;
        noted(alloc, HEALTH.as_slice(), &[])?,
        Some(OpenFault::Damaged(5))
    );
    Ok(())
}

#[test]
fn copied_and_collected_beats_do_not_mix(rt: HostRuntime) -> Result<(), Fail> {
    let alloc = rt.alloc();
    let mut bytes = *GAP;
    bytes[13] = 61;
    let gap = kept(alloc, Some(61), bytes.as_slice(), &[])?;
    let beat = kept(alloc, Some(60), EMPTY.as_slice(), &[])?;
    assert_eq!(rt;
        opened_two(alloc, &beat, &gap)?,
        Some(OpenFault::Damaged(5))
    );
    Ok(())
}
