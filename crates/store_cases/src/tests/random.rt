//! Random histories: after each beat a store answers as plain lists of all beats do.

ghost use Rattle.std.specs.Prelude.{◌≡◌, OnOk, IfOk, false};
ghost use Rattle.host_model.specs.MemoryHost.{state_of};
ghost use Rattle.store_core.specs.beats.Records.{TakesFirst};
ghost use Rattle.store_core.specs.Store.{IsReplayed};
ghost use Rattle.store_cases.specs.Ready.{IsGoingOn, IsReadyOn};

use super::plain::{
    Plain, SERIES, plain_floor, plain_next, plain_points, plain_record, points_in, value_in,
};
use super::*;
use fixed_num::Record;
use query_engine::{PointList, Points};
use store_core::{Kept, KeptBeat, StoreView};

/// The items and segments of each tier.
type Quotas = [(u32, u32); 3];

/// A store on a host, and how many beats it was given.
#[derive(Drop)]
struct Running {
    store: Store,
    host: MemoryHost,
    given: u64,
}

/// The next number of a linear congruential generator.
fn next(state: &mut u32) -> u32 {
    *state = state.wrapping_mul(1_664_525).wrapping_add(1_013_904_223);
    *state >> 16
}

/// One of a few values, or none.
fn random_value(state: &mut u32) -> Option<i32> {
    match next(state) % 4 {
        0 => None,
        1 => Some(5),
        2 => Some(-7),
        _ => Some(0),
    }
}

/// A beat behind a moment, mostly seconds later and at times hours.
fn random_beat(state: &mut u32, last: u32) -> Plain {
    let later = match next(state) % 8 {
        0 => 7_300,
        1 => 61,
        other => other,
    };
    let values = if next(state) % 4 == 0 {
        [None, None, None]
    } else {
        [
            random_value(state),
            random_value(state),
            random_value(state),
        ]
    };
    Plain {
        moment: last.saturating_add(later),
        values,
    }
}

/// The beat as a store takes it.
fn beat_of(alloc: Global, plain: &Plain) -> Result<Beat, AllocError> {
    let mut points = BeatPointList::new(alloc);
    for series in SERIES {
        if let Some(value) = value_in(plain, series) {
            points.push(BeatPoint {
                series,
                step: 1,
                word: word(value),
            })?;
        }
    }
    Ok(Beat {
        moment: Some(plain.moment),
        points,
        note: ByteList::new(alloc),
    })
}

/// Gives the store a beat, after a checkpoint where one is due.
fn give(alloc: Global, running: &mut Running, beat: &Beat) -> Result<(), StoreFault>
    requires going { IsGoingOn running.old.host running.old.store }
    ensures going { IsGoingOn running.new.host running.new.store }
{
    running.given = running.given.saturating_add(1);
    add_beat(alloc, &mut running.store, &mut running.host, beat)
}

/// Gives the store a beat without a moment.
fn give_untimed(alloc: Global, running: &mut Running) -> Result<(), StoreFault>
    requires going { IsGoingOn running.old.host running.old.store }
    ensures going { IsGoingOn running.new.host running.new.store }
{
    let beat = Beat {
        moment: None,
        points: BeatPointList::new(alloc),
        note: ByteList::new(alloc),
    };
    give(alloc, running, &beat)
}

/// Makes a checkpoint, due or not.
fn advance(alloc: Global, running: &mut Running) -> Result<(), StoreFault>
    requires going { IsGoingOn running.old.host running.old.store }
    ensures going { IsGoingOn running.new.host running.new.store }
{
    let Ok(side) = side_of(alloc, running.store.count()) else {
        return Err(StoreFault::Memory);
    };
    running.store.checkpoint(&mut running.host, side)
}

/// Replays the next beat, if there is one.
fn next_beat(store: &mut Store, host: &MemoryHost) -> Result<Option<Beat>, AllocError>
    requires ready { IsReadyOn host.now store.old }
    ensures ready { OnOk result (IsReadyOn host.now store.new) }
    ensures takes { IfOk result
        (λ next. TakesFirst store.old.waiting next store.new.waiting) }
{
    match store.replay() {
        Ok(next) => Ok(next),
        Err(fault) => Err(fault),
    }
}

/// Replays the next beat, and whether there was one.
fn replay_next(store: &mut Store, host: &MemoryHost) -> Result<bool, AllocError>
    requires ready { IsReadyOn host.now store.old }
    ensures ready { OnOk result (IsReadyOn host.now store.new) }
    ensures replayed { IfOk result (λ went. went ≡ false → IsReplayed store.new) }
{
    match next_beat(store, host)? {
        Some(_) => Ok(true),
        None => Ok(false),
    }
}

/// Opens the database, and replays the beats since its checkpoint.
pub fn open_whole(alloc: Global, host: &mut MemoryHost) -> Result<Store, Fail>
    ensures ready { IfOk result (IsReadyOn host.new) }
    ensures replayed { IfOk result IsReplayed }
{
    let mut store = Store::open(alloc, host)?;
    for _ in 0..99 {
        if !replay_next(&mut store, host)? {
            return Ok(store);
        }
    }
    Err(Fail::from("more than 99 beats wait"))
}

/// Opens the database again.
fn open_again(alloc: Global, running: &mut Running) -> Result<(), Fail>
    ensures going { OnOk result (IsGoingOn running.new.host running.new.store) }
{
    running.store = open_whole(alloc, &mut running.host)?;
    Ok(())
}

/// What may come between two beats: a beat without a moment, a checkpoint, or the database is opened
/// again.
fn turn(alloc: Global, running: &mut Running, choice: u32) -> Result<(), Fail>
    requires going { IsGoingOn running.old.host running.old.store }
    ensures going { OnOk result (IsGoingOn running.new.host running.new.store) }
{
    match choice {
        0 => Ok(give_untimed(alloc, running)?),
        1 => Ok(advance(alloc, running)?),
        2 | 3 => open_again(alloc, running),
        _ => Ok(()),
    }
}

/// Gives the store a random beat, which it adds to the others.
fn give_random(
    alloc: Global,
    running: &mut Running,
    beats: &mut Vec<Plain>,
    state: &mut u32,
) -> Result<(), Fail>
    requires going { IsGoingOn running.old.host running.old.store }
    ensures going { IsGoingOn running.new.host running.new.store }
{
    let plain = random_beat(state, running.store.last());
    let beat = beat_of(alloc, &plain)?;
    beats.push(plain)?;
    give(alloc, running, &beat)?;
    Ok(())
}

/// What a view answers of a series at a moment, and from it on.
#[derive(Drop)]
struct Told {
    points: PointList,
    minute: Option<Record>,
    minutes: Option<(u32, Record)>,
    hour: Option<Record>,
    hours: Option<(u32, Record)>,
}

/// What a view of the store answers.
fn ask(
    alloc: Global,
    store: &mut Store,
    host: &mut MemoryHost,
    series: u32,
    moment: u32,
) -> Result<Told, Fail>
    ensures same_store { store.new ≡ store.old }
    ensures same_host { (state_of host.new).past ≡ (state_of host.old).past }
{
    let (minute, hour) = (moment / 60, moment / 3_600);
    let mut view = StoreView { store, host };
    Ok(Told {
        points: view.points(alloc, series, moment, u32::MAX)?,
        minute: view.record_of(alloc, 1, series, minute)?,
        minutes: view.next_record(alloc, 1, series, minute, u32::MAX)?,
        hour: view.record_of(alloc, 2, series, hour)?,
        hours: view.next_record(alloc, 2, series, hour, u32::MAX)?,
    })
}

/// Compares what a view answers with what all beats say, above these floors.
fn check_told(
    rt: &impl Abort,
    alloc: Global,
    told: &Told,
    beats: &[Plain],
    floors: [u32; 3],
    series: u32,
    moment: u32,
) -> Result<(), Fail> {
    let [second, minute, hour] = floors;
    let points = plain_points(alloc, beats, second, series, moment)?;
    assert_eq!(rt; told.points.as_slice(), points.as_slice());
    let bucket = moment / 60;
    assert_eq!(rt;
        told.minute,
        plain_record(beats, 60, minute, series, bucket)
    );
    assert_eq!(rt; told.minutes, plain_next(beats, 60, minute, series, bucket));
    let bucket = moment / 3_600;
    assert_eq!(rt; told.hour, plain_record(beats, 3_600, hour, series, bucket));
    assert_eq!(rt; told.hours, plain_next(beats, 3_600, hour, series, bucket));
    Ok(())
}

/// The same of a store that goes on.
fn ask_running(alloc: Global, running: &mut Running, series: u32, moment: u32) -> Result<Told, Fail>
    requires going { IsGoingOn running.old.host running.old.store }
    ensures going { IsGoingOn running.new.host running.new.store }
{
    ask(alloc, &mut running.store, &mut running.host, series, moment)
}

/// The beats that the store keeps.
fn kept_of(running: &mut Running) -> Result<Kept, StoreFault>
    requires going { IsGoingOn running.old.host running.old.store }
    ensures going { IsGoingOn running.new.host running.new.store }
{
    running.store.kept(&mut running.host)
}

/// A series and a moment of each question.
type Questions = Vec<(u32, u32)>;

/// Each series at the moment of each beat, and a minute and an hour behind it.
fn questions(alloc: Global, beats: &[Plain]) -> Result<Questions, AllocError> {
    let mut questions = Vec::new(alloc);
    for series in SERIES {
        questions.push((series, 0))?;
        for beat in beats {
            for later in [0, 60, 3_600] {
                questions.push((series, beat.moment.saturating_add(later)))?;
            }
        }
    }
    Ok(questions)
}

/// Compares what a view answers to each question with what all beats say, above these floors.
fn check_questions(
    rt: &impl Abort,
    alloc: Global,
    running: &mut Running,
    beats: &[Plain],
    floors: [u32; 3],
    questions: &[(u32, u32)],
) -> Result<(), Fail>
    requires going { IsGoingOn running.old.host running.old.store }
    ensures going { OnOk result (IsGoingOn running.new.host running.new.store) }
{
    for question in questions {
        let (series, moment) = *question;
        let told = ask_running(alloc, running, series, moment)?;
        check_told(rt, alloc, &told, beats, floors, series, moment)?;
    }
    Ok(())
}

/// Checks a kept beat.
fn check_beat(rt: &impl Abort, alloc: Global, kept: &KeptBeat, plain: &Plain) -> Result<(), Fail> {
    let mut points = Vec::new(alloc);
    for series in SERIES {
        if let Some(value) = value_in(plain, series) {
            points.push(KeptPoint {
                series,
                word: word(value),
            })?;
        }
    }
    assert_eq!(rt; kept.moment, plain.moment);
    assert_eq!(rt; kept.points.as_slice(), points.as_slice());
    Ok(())
}

/// Checks the kept beats, and how many came before them.
fn check_all_kept(
    rt: &impl Abort,
    alloc: Global,
    kept: &Kept,
    beats: &[Plain],
    floor: u32,
) -> Result<(), Fail> {
    let mut before: u64 = 0;
    let mut found: usize = 0;
    for beat in beats {
        let count = points_in(beat);
        if count > 0 && beat.moment < floor {
            before = before.saturating_add(1);
        } else if count > 0 {
            let Some(one) = kept.beats.as_slice().get(found) else {
                return Err(Fail::from("a kept beat is left out"));
            };
            check_beat(rt, alloc, one, beat)?;
            found = found.saturating_add(1);
        }
    }
    assert_eq!(rt; kept.before, before);
    assert_eq!(rt; kept.beats.len(), found);
    Ok(())
}

/// Checks the floor of each tier, which it gives, and how many beats there are.
fn check_floors(
    rt: &impl Abort,
    alloc: Global,
    running: &Running,
    beats: &[Plain],
    quotas: Quotas,
) -> Result<[u32; 3], Fail> {
    let [second, minute, hour] = quotas;
    let store = &running.store;
    let floors = [store.floor(0), store.floor(1), store.floor(2)];
    let plain = [
        plain_floor(alloc, 1, second, beats)?,
        plain_floor(alloc, 60, minute, beats)?,
        plain_floor(alloc, 3_600, hour, beats)?,
    ];
    assert_eq!(rt; floors, plain);
    assert_eq!(rt; store.count(), running.given);
    Ok(floors)
}

/// Compares all that the store answers with what all beats say.
fn check(
    rt: &impl Abort,
    alloc: Global,
    running: &mut Running,
    beats: &[Plain],
    quotas: Quotas,
) -> Result<(), Fail>
    requires going { IsGoingOn running.old.host running.old.store }
    ensures going { OnOk result (IsGoingOn running.new.host running.new.store) }
{
    let floors = check_floors(rt, alloc, running, beats, quotas)?;
    let kept = kept_of(running)?;
    let [second, _, _] = floors;
    check_all_kept(rt, alloc, &kept, beats, second)?;
    let questions = questions(alloc, beats)?;
    check_questions(rt, alloc, running, beats, floors, questions.as_slice())
}

/// Makes a database with these quotas.
fn begin(alloc: Global, quotas: Quotas) -> Result<Running, Fail>
    ensures going { IfOk result (λ running. IsGoingOn running.host running.store) }
{
    let mut host = new_host(alloc)?;
    let store = create_with(alloc, &mut host, quotas)?;
    Ok(Running {
        store,
        host,
        given: 0,
    })
}

/// Gives the store one more random beat, and compares all that it answers then.
fn go_on(
    rt: &impl Abort,
    alloc: Global,
    running: &mut Running,
    beats: &mut Vec<Plain>,
    state: &mut u32,
    quotas: Quotas,
) -> Result<(), Fail>
    requires going { IsGoingOn running.old.host running.old.store }
    ensures going { OnOk result (IsGoingOn running.new.host running.new.store) }
{
    give_random(alloc, running, beats, state)?;
    turn(alloc, running, next(state) % 8)?;
    check(rt, alloc, running, beats.as_slice(), quotas)
}

/// Gives a database so many random beats, and compares all that it answers after each.
fn run(rt: &impl Abort, alloc: Global, seed: u32, count: u32, quotas: Quotas) -> Result<(), Fail> {
    let mut state = seed;
    let mut beats = Vec::new(alloc);
    let mut running = begin(alloc, quotas)?;
    for _ in 0..count {
        go_on(rt, alloc, &mut running, &mut beats, &mut state, quotas)?;
    }
    Ok(())
}

/// A quota of 1 to 5 items and of 1 to 5 segments.
fn quota(items: u32, extents: u32) -> (u32, u32) {
    (1 + items % 5, 1 + extents % 5)
}

/// Runs a hundred short histories, whose seeds are these hundred numbers.
fn run_hundred(rt: &impl Abort, alloc: Global, first: u32) -> Result<(), Fail> {
    for place in 0..100 {
        let seed = first.saturating_add(place);
        let quotas = [
            quota(seed, seed / 5),
            quota(seed / 25, seed / 2),
            quota(seed / 3, seed / 7),
        ];
        run(rt, alloc, seed.wrapping_mul(7_919), 14, quotas)?;
    }
    Ok(())
}

#[test]
fn the_first_hundred_short_histories(rt: HostRuntime) -> Result<(), Fail> {
    run_hundred(&rt, rt.alloc(), 0)
}

#[test]
fn the_second_hundred_short_histories(rt: HostRuntime) -> Result<(), Fail> {
    run_hundred(&rt, rt.alloc(), 100)
}

#[test]
fn the_third_hundred_short_histories(rt: HostRuntime) -> Result<(), Fail> {
    run_hundred(&rt, rt.alloc(), 200)
}
