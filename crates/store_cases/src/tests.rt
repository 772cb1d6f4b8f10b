ghost use Rattle.std.specs.Prelude.{◌≡◌, ◌<◌, ◌^◌, false, length, IfOk, OnOk};
ghost use Rattle.store_core.specs.Store.{is_due, IsReplayed};
ghost use Rattle.store_cases.specs.Ready.{IsReadyOn};

use fixed_num::{Frac, Units};
use host_model::{CallList, Keep, MemoryHost};
use std::alloc::{AllocError, Global};
use std::process::Abort;
use std::test::Fail;
use storage_number::pack;
use store_core::{
    Beat, BeatPoint, BeatPointList, ByteList, CreateFault, KeptPoint, OpenFault, Settings, Store,
    StoreFault, is_in_limits,
};

mod crash;
mod left;
mod plain;
mod random;
mod view;

/// The most items, and the most segments, that a tier may have.
const MOST: (u32, u32) = (262_144, 1_024);

/// Few points in a segment, of which one is kept.
const FEW: [(u32, u32); 3] = [(4, 1), MOST, MOST];

fn new_host(alloc: Global) -> Result<MemoryHost, Fail> {
    Ok(MemoryHost::new(alloc, CallList::new(alloc))?)
}

/// A side that says how many beats there are.
fn side_of(alloc: Global, count: u64) -> Result<ByteList, AllocError>
    ensures { IfOk result (λ side. length side < 2 ^ 32) }
{
    ByteList::from_slice(alloc, count.to_le_bytes().as_slice())
}

/// Makes a database with these items and segments of each tier, which are within the limits.
fn create_with(
    alloc: Global,
    host: &mut MemoryHost,
    quotas: [(u32, u32); 3],
) -> Result<Store, CreateFault>
    ensures ready { IfOk result (IsReadyOn host.new) }
    ensures replayed { IfOk result IsReplayed }
{
    let settings = Settings::new(alloc, 7, quotas)?;
    let side = side_of(alloc, 0)?;
    if !is_in_limits(&settings) {
        return Err(CreateFault::Memory);
    }
    Store::create(alloc, host, &settings, side)
}

/// Makes a database that keeps few points.
fn create(alloc: Global, host: &mut MemoryHost) -> Result<Store, CreateFault>
    ensures ready { IfOk result (IsReadyOn host.new) }
    ensures replayed { IfOk result IsReplayed }
{
    create_with(alloc, host, FEW)
}

/// Makes a checkpoint where one is due.
fn make_room(alloc: Global, store: &mut Store, host: &mut MemoryHost) -> Result<(), StoreFault>
    requires ready { IsReadyOn host.old store.old }
    requires replayed { IsReplayed store.old }
    ensures ready { IsReadyOn host.new store.new }
    ensures replayed { IsReplayed store.new }
    ensures room { OnOk result (is_due store.new ≡ false) }
{
    if !store.due() {
        return Ok(());
    }
    let Ok(side) = side_of(alloc, store.count()) else {
        return Err(StoreFault::Memory);
    };
    store.checkpoint(host, side)
}

/// Adds a beat in form, after a checkpoint where one is due.
fn add_beat(
    alloc: Global,
    store: &mut Store,
    host: &mut MemoryHost,
    beat: &Beat,
) -> Result<(), StoreFault>
    requires ready { IsReadyOn host.old store.old }
    requires replayed { IsReplayed store.old }
    ensures ready { IsReadyOn host.new store.new }
    ensures replayed { IsReplayed store.new }
{
    if !beat.is_in_form() || !beat.fits_a_record() {
        return Err(StoreFault::Memory);
    }
    make_room(alloc, store, host)?;
    store.commit(host, beat)
}

/// The storage number of a whole number.
fn word(value: i32) -> u32 {
    pack(
        Frac {
            num: Units::from(value),
            den: 1,
        },
        false,
        false,
    )
}

/// A beat at this moment with a point of series 0.
fn beat_at(alloc: Global, moment: u32, value: i32) -> Result<Beat, AllocError> {
    let mut points = BeatPointList::new(alloc);
    points.push(BeatPoint {
        series: 0,
        step: 1,
        word: word(value),
    })?;
    Ok(Beat {
        moment: Some(moment),
        points,
        note: ByteList::from_slice(alloc, b"note")?,
    })
}

/// Adds a beat for each of these moments and values.
fn add(
    alloc: Global,
    store: &mut Store,
    host: &mut MemoryHost,
    values: &[(u32, i32)],
) -> Result<(), StoreFault>
    requires ready { IsReadyOn host.old store.old }
    requires replayed { IsReplayed store.old }
    ensures ready { IsReadyOn host.new store.new }
    ensures replayed { IsReplayed store.new }
{
    for value in values {
        let Ok(beat) = beat_at(alloc, value.0, value.1) else {
            return Err(StoreFault::Memory);
        };
        add_beat(alloc, store, host, &beat)?;
    }
    Ok(())
}

/// Makes a database that keeps few points, and adds a beat for each of these moments and values.
fn made(alloc: Global, host: &mut MemoryHost, values: &[(u32, i32)]) -> Result<Store, Fail> {
    let mut store = create(alloc, host)?;
    add(alloc, &mut store, host, values)?;
    Ok(store)
}

/// Opens the database, of which nothing is promised here.
fn open(alloc: Global, host: &mut MemoryHost) -> Result<Store, OpenFault> {
    Store::open(alloc, host)
}

/// Makes a database of these beats, and opens it again.
fn made_again(alloc: Global, host: &mut MemoryHost, values: &[(u32, i32)]) -> Result<Store, Fail> {
    let _store = made(alloc, host, values)?;
    Ok(open(alloc, host)?)
}

/// Checks the kept beats, which have a 1 at each of these moments, and how many came before.
fn check_kept(
    rt: &impl Abort,
    store: &mut Store,
    host: &mut MemoryHost,
    before: u64,
    moments: &[u32],
) -> Result<(), Fail> {
    let kept = store.kept(host)?;
    assert_eq!(rt; kept.before, before);
    assert_eq!(rt; kept.beats.len(), moments.len());
    for (beat, moment) in kept.beats.as_slice().iter().zip(moments) {
        assert_eq!(rt; beat.moment, *moment);
        let points = [KeptPoint {
            series: 0,
            word: word(1),
        }];
        assert_eq!(rt; beat.points.as_slice(), points.as_slice());
    }
    Ok(())
}

/// A 1 at each of nine seconds.
const NINE: [(u32, i32); 9] = [
    (1, 1),
    (2, 1),
    (3, 1),
    (4, 1),
    (5, 1),
    (6, 1),
    (7, 1),
    (8, 1),
    (9, 1),
];

#[test]
fn there_is_one_database_on_a_disk(rt: HostRuntime) -> Result<(), Fail> {
    let mut host = new_host(rt.alloc())?;
    let found = open(rt.alloc(), &mut host).err();
    assert_eq!(rt; found, Some(OpenFault::NotADatabase));
    let first = create(rt.alloc(), &mut host).err();
    assert_eq!(rt; first, None);
    let again = create(rt.alloc(), &mut host).err();
    assert_eq!(rt; again, Some(CreateFault::Exists));
    Ok(())
}

#[test]
fn the_moments_of_beats_rise(rt: HostRuntime) -> Result<(), Fail> {
    let mut host = new_host(rt.alloc())?;
    let mut store = create(rt.alloc(), &mut host)?;
    let answer = add(rt.alloc(), &mut store, &mut host, &[(60, 1), (60, 1)]).err();
    assert_eq!(rt; answer, Some(StoreFault::MomentOrder(60)));
    Ok(())
}

/// Checks what is there of nine beats at the last checkpoint, of which one was due after each four.
fn check_base(rt: &impl Abort, store: &mut Store, host: &mut MemoryHost) -> Result<(), Fail> {
    assert_eq!(rt; store.settings().id, 7);
    assert_eq!(rt; store.side(), 8u64.to_le_bytes().as_slice());
    assert_eq!(rt; [store.count(), u64::from(store.last())], [8, 8]);
    assert_eq!(rt; store.floor(0), 5);
    check_kept(rt, store, host, 4, &[5, 6, 7, 8])
}

/// Checks that there is one beat since, at the moment 9.
fn check_since(rt: &impl Abort, store: &mut Store) -> Result<(), Fail> {
    let beat = store.replay()?;
    assert_eq!(rt; beat.and_then(|beat| beat.moment), Some(9));
    let none = store.replay()?;
    assert!(rt; none.is_none());
    assert_eq!(rt; store.count(), 9);
    Ok(())
}

/// Checks what is there of the nine beats, before the last one is replayed and after it.
fn check_nine(rt: &impl Abort, store: &mut Store, host: &mut MemoryHost) -> Result<(), Fail> {
    check_base(rt, store, host)?;
    check_since(rt, store)?;
    check_kept(rt, store, host, 4, &[5, 6, 7, 8, 9])
}

#[test]
fn a_checkpoint_keeps_what_beats_left(rt: HostRuntime) -> Result<(), Fail> {
    let mut host = new_host(rt.alloc())?;
    let mut store = made_again(rt.alloc(), &mut host, NINE.as_slice())?;
    check_nine(&rt, &mut store, &mut host)
}

/// Makes a database whose only beat has a 42 at the second 60, and a checkpoint of it.
fn one_in_a_checkpoint(alloc: Global, host: &mut MemoryHost) -> Result<(), Fail> {
    let mut store = create_with(alloc, host, [MOST, MOST, MOST])?;
    add(alloc, &mut store, host, &[(60, 42)])?;
    let side = side_of(alloc, store.count())?;
    Ok(store.checkpoint(host, side)?)
}

/// Checks that this beat is all that is kept.
fn check_one(rt: &impl Abort, store: &mut Store, host: &mut MemoryHost) -> Result<(), Fail> {
    let kept = store.kept(host)?;
    assert_eq!(rt; [kept.before, kept.beats.len() as u64], [0, 1]);
    for beat in kept.beats.as_slice() {
        let points = [KeptPoint {
            series: 0,
            word: 0x2940_1640,
        }];
        assert_eq!(rt; beat.moment, 60);
        assert_eq!(rt; beat.points.as_slice(), points.as_slice());
    }
    Ok(())
}

#[test]
fn a_beat_behind_which_a_checkpoint_was_made(rt: HostRuntime) -> Result<(), Fail> {
    let mut host = new_host(rt.alloc())?;
    one_in_a_checkpoint(rt.alloc(), &mut host)?;
    let mut store = open(rt.alloc(), &mut host)?;
    assert_eq!(rt; store.count(), 1);
    let next = store.replay()?;
    assert!(rt; next.is_none());
    check_one(&rt, &mut store, &mut host)
}
