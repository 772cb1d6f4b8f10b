//! A spawner: its children in order.

use fixed_num::{Text, WordsList};
use host_model::{CallList, MemorySpawner, Spawner};
use std::alloc::Global;
use std::test::Fail;

/// The words of a start, of which there is one.
fn one_word(alloc: Global) -> Result<WordsList, Fail> {
    let mut list = WordsList::new(alloc);
    list.push(Text::from_str(alloc, "p")?)?;
    Ok(list)
}

/// A spawner with two children to come.
fn spawner_of_two(alloc: Global) -> Result<MemorySpawner, Fail> {
    let mut spawner = MemorySpawner::new(alloc, CallList::new(alloc));
    spawner.add(b"abc", 3)?;
    spawner.add(b"d", 0)?;
    Ok(spawner)
}

fn start(alloc: Global, spawner: &mut MemorySpawner) -> Result<(), Fail> {
    Ok(spawner.start(&one_word(alloc)?)?)
}

#[test]
fn a_child_is_started_and_ends(rt: HostRuntime) -> Result<(), Fail> {
    let mut spawner = spawner_of_two(rt.alloc())?;
    start(rt.alloc(), &mut spawner)?;
    let mut piece = [b'-'; 4];
    assert_eq!(rt; spawner.pull(&mut piece)?, 3);
    assert_eq!(rt; piece.as_slice(), b"abc-".as_slice());
    assert_eq!(rt; spawner.finish()?, 3);
    Ok(())
}

#[test]
fn a_child_is_stopped(rt: HostRuntime) -> Result<(), Fail> {
    let mut spawner = spawner_of_two(rt.alloc())?;
    start(rt.alloc(), &mut spawner)?;
    spawner.stop()?;
    start(rt.alloc(), &mut spawner)?;
    assert_eq!(rt; spawner.starts().len(), 2);
    Ok(())
}
