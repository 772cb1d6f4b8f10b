//! The tests of `plugin_runner` on turns: the text that a runner makes of what its children write.

use fixed_num::{ByteList, Text, WordsList};
use host_model::{CallList, MemoryClock, MemorySpawner};
use plugin_runner::{RunFault, Runner, Turn};
use std::alloc::Global;
use std::process::Abort;
use std::test::Fail;

const T: &[u8] = b"CHART test.one '' 'One' 'units'\nDIMENSION a\nBEGIN test.one\nSET a = 42\nEND\n";

/// T up to its BEGIN.
const OPEN: &[u8] = b"CHART test.one '' 'One' 'units'\nDIMENSION a\nBEGIN test.one\n";

/// T up to its DIMENSION.
const DEFINITIONS: &[u8] = b"CHART test.one '' 'One' 'units'\nDIMENSION a\n";

const BLOCK: &[u8] = b"BEGIN test.one\nSET a = 42\nEND\n";

/// T up to END, and its block again.
const T_AND_BLOCK: &[u8] =
    b"CHART test.one '' 'One' 'units'\nDIMENSION a\nBEGIN test.one\nSET a = 42\nEND\nBEGIN test.one\nSET a = 42\nEND\n";

const WITH_MOMENT: &[u8] =
    b"CHART test.one '' 'One' 'units'\nDIMENSION a\nMOMENT 200\nBEGIN test.one\nSET a = 42\nEND\n";

const DISABLED: &[u8] =
    b"CHART test.one '' 'One' 'units'\nDIMENSION a\nBEGIN test.one\nSET a = 42\nEND\nDISABLE\nBEG\n";

fn words_of(alloc: Global, words: &[&str]) -> Result<WordsList, Fail> {
    let mut list = WordsList::new(alloc);
    for word in words {
        list.push(Text::from_str(alloc, word)?)?;
    }
    Ok(list)
}

/// Takes turns until one answers something else than `More`.
fn run(
    runner: &mut Runner,
    spawner: &mut MemorySpawner,
    clock: &mut MemoryClock,
    out: &mut ByteList,
) -> Result<Turn, RunFault> {
    for _ in 0..1_000_000 {
        match runner.turn(spawner, clock, out) {
            Ok(Turn::More) => {}
            outcome => return outcome,
        }
    }
    Ok(Turn::More)
}

fn text_of(parts: &[&[u8]], alloc: Global) -> Result<Vec<u8>, Fail> {
    let mut text = Vec::new(alloc);
    for part in parts {
        text.extend_from_slice(part)?;
    }
    Ok(text)
}

/// What children that write these bytes and end so make of a runner that starts them so often.
fn check(
    rt: &impl Abort,
    alloc: Global,
    starts: u32,
    children: &[&[u8]],
    statuses: &[i32],
    readings: &[u64],
    fails: &[u64],
    want: &[&[u8]],
    outcome: Result<Turn, RunFault>,
) -> Result<(), Fail> {
    let mut spawner = MemorySpawner::new(alloc, CallList::from_vec(Vec::from_slice(alloc, fails)?));
    for (bytes, status) in children.iter().zip(statuses) {
        spawner.add(bytes, *status)?;
    }
    let mut clock = MemoryClock::new(alloc, readings)?;
    assert!(rt; starts > 0);
    let words = words_of(alloc, &["p", "x"])?;
    assert!(rt; !words.is_empty());
    let mut runner = Runner::new(alloc, words, 1, starts, 0);
    let mut out = ByteList::new(alloc);
    assert_eq!(rt;
        run(&mut runner, &mut spawner, &mut clock, &mut out),
        outcome
    );
    assert_eq!(rt; out.as_slice(), text_of(want, alloc)?.as_slice());
    for start in spawner.starts() {
        assert_eq!(rt; start.len(), 3);
        for (word, want) in start.as_slice().iter().zip(["p", "1", "x"]) {
            assert_eq!(rt; word.as_str(), want);
        }
    }
    Ok(())
}

#[test]
fn a_child_that_ends_with_a_status(rt: HostRuntime) -> Result<(), Fail> {
    let bytes = text_of(&[T, b"BEG"], rt.alloc())?;
    check(
        &rt,
        rt.alloc(),
        1,
        &[bytes.as_slice()],
        &[3],
        &[100],
        &[],
        &[T, b"MOMENT 100\n"],
        Err(RunFault::Disabled(Some(3))),
    )
}

#[test]
fn the_longest_line(rt: HostRuntime) -> Result<(), Fail> {
    let longest = [b'x'; 8192];
    let bytes = text_of(&[b"a\n", &longest, b"\nb\n", &longest], rt.alloc())?;
    check(
        &rt,
        rt.alloc(),
        1,
        &[bytes.as_slice()],
        &[0],
        &[],
        &[],
        &[b"a\n", &longest, b"\nb\n"],
        Ok(Turn::Ended),
    )
}

#[test]
fn a_line_that_is_too_long(rt: HostRuntime) -> Result<(), Fail> {
    let longest = [b'x'; 8192];
    let bytes = text_of(&[b"a\n", &longest, b"y\nb\n"], rt.alloc())?;
    check(
        &rt,
        rt.alloc(),
        2,
        &[bytes.as_slice(), T],
        &[0, 0],
        &[],
        &[],
        &[b"a\n", &longest, b"y"],
        Ok(Turn::Ended),
    )
}

#[test]
fn starts_again_after_0(rt: HostRuntime) -> Result<(), Fail> {
    check(
        &rt,
        rt.alloc(),
        2,
        &[T, T],
        &[0, 0],
        &[100],
        &[],
        &[T, b"MOMENT 100\n", T, b"MOMENT 101\n"],
        Ok(Turn::Ended),
    )
}

#[test]
fn an_open_block_at_the_end(rt: HostRuntime) -> Result<(), Fail> {
    check(
        &rt,
        rt.alloc(),
        2,
        &[OPEN, OPEN],
        &[0, 0],
        &[100],
        &[],
        &[OPEN, b"FLUSH\n", OPEN, b"FLUSH\n"],
        Ok(Turn::Ended),
    )
}

#[test]
fn children_that_write_nothing(rt: HostRuntime) -> Result<(), Fail> {
    check(
        &rt,
        rt.alloc(),
        2,
        &[b"", b""],
        &[0, 0],
        &[],
        &[],
        &[],
        Ok(Turn::Ended),
    )
}

#[test]
fn a_child_that_cannot_be_started(rt: HostRuntime) -> Result<(), Fail> {
    check(
        &rt,
        rt.alloc(),
        1,
        &[T],
        &[0],
        &[100],
        &[0],
        &[],
        Err(RunFault::SpawnFault),
    )
}

#[test]
fn a_child_that_cannot_be_read(rt: HostRuntime) -> Result<(), Fail> {
    check(
        &rt,
        rt.alloc(),
        1,
        &[T],
        &[0],
        &[100],
        &[2],
        &[T],
        Err(RunFault::PipeFault),
    )
}

#[test]
fn an_end_that_cannot_be_waited_for(rt: HostRuntime) -> Result<(), Fail> {
    check(
        &rt,
        rt.alloc(),
        1,
        &[T],
        &[0],
        &[100],
        &[3],
        &[T],
        Err(RunFault::PipeFault),
    )
}

#[test]
fn a_chart_that_has_a_row(rt: HostRuntime) -> Result<(), Fail> {
    check(
        &rt,
        rt.alloc(),
        1,
        &[T_AND_BLOCK],
        &[0],
        &[100, 50],
        &[],
        &[T, b"MOMENT 100\n", BLOCK, b"MOMENT 101\n"],
        Ok(Turn::Ended),
    )
}

#[test]
fn a_moment_of_the_child(rt: HostRuntime) -> Result<(), Fail> {
    check(
        &rt,
        rt.alloc(),
        1,
        &[WITH_MOMENT],
        &[0],
        &[100],
        &[],
        &[WITH_MOMENT, b"MOMENT 201\n"],
        Ok(Turn::Ended),
    )
}

#[test]
fn a_child_that_is_disabled(rt: HostRuntime) -> Result<(), Fail> {
    check(
        &rt,
        rt.alloc(),
        2,
        &[DISABLED],
        &[0],
        &[100],
        &[],
        &[T, b"DISABLE\n"],
        Err(RunFault::Disabled(None)),
    )
}

#[test]
fn a_child_of_several_pieces(rt: HostRuntime) -> Result<(), Fail> {
    let mut child = text_of(&[DEFINITIONS], rt.alloc())?;
    let mut want = text_of(&[DEFINITIONS], rt.alloc())?;
    for at in 0..400 {
        child.extend_from_slice(BLOCK)?;
        want.extend_from_slice(BLOCK)?;
        let line = format!(in rt.alloc(); "MOMENT {}\n", 100 + at)?;
        want.extend_from_slice(line.as_bytes())?;
    }
    check(
        &rt,
        rt.alloc(),
        1,
        &[child.as_slice()],
        &[0],
        &[100],
        &[],
        &[want.as_slice()],
        Ok(Turn::Ended),
    )
}

/// Takes turns up to a fault, and then to the end.
fn check_turns(
    rt: &impl Abort,
    runner: &mut Runner,
    spawner: &mut MemorySpawner,
    clock: &mut MemoryClock,
    out: &mut ByteList,
    fault: RunFault,
) {
    assert_eq!(rt; run(runner, spawner, clock, out), Err(fault));
    assert_eq!(rt; run(runner, spawner, clock, out), Ok(Turn::Ended));
}

/// Takes turns of a runner of one program again after the failure of one call.
fn check_again(rt: &impl Abort, alloc: Global, fail: u64, fault: RunFault) -> Result<(), Fail> {
    let want = text_of(&[T, b"MOMENT 100\n"], alloc)?;
    let fails = CallList::from_vec(Vec::from_slice(alloc, &[fail])?);
    let mut spawner = MemorySpawner::new(alloc, fails);
    spawner.add(T, 0)?;
    let mut clock = MemoryClock::new(alloc, &[100])?;
    let words = words_of(alloc, &["p"])?;
    assert!(rt; !words.is_empty());
    let mut runner = Runner::new(alloc, words, 1, 1, 0);
    let mut out = ByteList::new(alloc);
    check_turns(rt, &mut runner, &mut spawner, &mut clock, &mut out, fault);
    assert_eq!(rt; out.as_slice(), want.as_slice());
    Ok(())
}

#[test]
fn goes_on_after_a_fault(rt: HostRuntime) -> Result<(), Fail> {
    check_again(&rt, rt.alloc(), 0, RunFault::SpawnFault)?;
    for fail in 1..4 {
        check_again(&rt, rt.alloc(), fail, RunFault::PipeFault)?;
    }
    Ok(())
}
