use super::*;
use fixed_num::Text;
use std::fs;
use std::test::Fail;

type OwnSpawner<'a> = ChildSpawner<&'a HostRuntime>;

const T: &[u8] = b"CHART test.one '' 'One' 'units'\nDIMENSION a\nBEGIN test.one\nSET a = 42\nEND\n";

fn words_of(alloc: Global, words: &[&str]) -> Result<WordsList, Fail> {
    let mut list = WordsList::new(alloc);
    for word in words {
        list.push(Text::from_str(alloc, word)?)?;
    }
    Ok(list)
}

fn start(alloc: Global, spawner: &mut OwnSpawner<'_>, words: &[&str]) -> Result<(), Fail> {
    Ok(spawner.start(&words_of(alloc, words)?)?)
}

fn finish(spawner: &mut OwnSpawner<'_>) -> Result<i32, Fail> {
    Ok(spawner.finish()?)
}

/// Adds what is taken of the child's text by one call.
fn pull(spawner: &mut OwnSpawner<'_>, text: &mut Vec<u8>) -> Result<(), Fail> {
    let mut piece = [b'-'; 32];
    let taken = spawner.pull(&mut piece)?;
    text.extend_from_slice(&piece[..taken])?;
    Ok(())
}

#[test]
fn cat_writes_the_file_that_it_is_given(rt: HostRuntime) -> Result<(), Fail> {
    fs::write(&rt, "1", T)?;
    let mut spawner = ChildSpawner::new(rt.alloc(), &rt);
    start(rt.alloc(), &mut spawner, &["cat", "1"])?;
    let mut text = Vec::new(rt.alloc());
    for _ in 0..100 {
        pull(&mut spawner, &mut text)?;
    }
    assert_eq!(rt; text.as_slice(), T);
    assert_eq!(rt; finish(&mut spawner)?, 0);
    Ok(())
}

#[test]
fn ends_are_told(rt: HostRuntime) -> Result<(), Fail> {
    let mut spawner = ChildSpawner::new(rt.alloc(), &rt);
    for (script, status) in [("exit 3", 3), ("kill -9 $$", -1)] {
        start(rt.alloc(), &mut spawner, &["sh", "-c", script])?;
        assert_eq!(rt; finish(&mut spawner)?, status);
    }
    Ok(())
}

#[test]
fn a_program_that_is_not_there_fails(rt: HostRuntime) -> Result<(), Fail> {
    let mut spawner = ChildSpawner::new(rt.alloc(), &rt);
    let words = words_of(rt.alloc(), &["no.such.program"])?;
    assert!(rt; spawner.start(&words).is_err());
    assert!(rt; spawner.error().is_some());
    Ok(())
}

/// Starts a child that tells its number and does not end by itself, and gives the number.
fn start_waiting(alloc: Global, spawner: &mut OwnSpawner<'_>) -> Result<String, Fail> {
    start(alloc, spawner, &["sh", "-c", "echo $$; exec cat"])?;
    let mut text = Vec::new(alloc);
    pull(spawner, &mut text)?;
    let number = std::str::from_utf8(text.as_slice())?;
    Ok(String::from_str(alloc, number.trim_end())?)
}

/// Whether there is a process of this number.
fn is_there(rt: &HostRuntime, number: &str) -> Result<bool, Fail> {
    let script = "kill -0 $0 2> /dev/null";
    let mut spawner = ChildSpawner::new(rt.alloc(), rt);
    start(rt.alloc(), &mut spawner, &["sh", "-c", script, number])?;
    Ok(finish(&mut spawner)? == 0)
}

/// The number of a child that ran where its spawner was dropped.
fn dropped(rt: &HostRuntime) -> Result<String, Fail> {
    let mut spawner = ChildSpawner::new(rt.alloc(), rt);
    start_waiting(rt.alloc(), &mut spawner)
}

#[test]
fn a_child_is_gone_where_it_is_left(rt: HostRuntime) -> Result<(), Fail> {
    let mut spawner = ChildSpawner::new(rt.alloc(), &rt);
    let first = start_waiting(rt.alloc(), &mut spawner)?;
    assert!(rt; is_there(&rt, first.as_str())?);
    let second = start_waiting(rt.alloc(), &mut spawner)?;
    assert!(rt; !is_there(&rt, first.as_str())?);
    spawner.stop()?;
    assert!(rt; !is_there(&rt, second.as_str())?);
    let third = dropped(&rt)?;
    assert!(rt; !is_there(&rt, third.as_str())?);
    Ok(())
}

/// Without an open input `cat` would end before its time is up.
#[test]
fn the_input_of_a_child_is_open_while_it_runs(rt: HostRuntime) -> Result<(), Fail> {
    let mut spawner = ChildSpawner::new(rt.alloc(), &rt);
    start(rt.alloc(), &mut spawner, &["timeout", "0.2", "cat"])?;
    let mut text = Vec::new(rt.alloc());
    pull(&mut spawner, &mut text)?;
    assert_eq!(rt; text.len(), 0);
    assert_eq!(rt; finish(&mut spawner)?, 124);
    Ok(())
}
