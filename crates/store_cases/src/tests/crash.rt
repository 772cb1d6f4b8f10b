use super::*;

/// Makes a database and adds six beats, while that goes well. It says how many are there then, or
/// that there is no database.
fn run(alloc: Global, host: &mut MemoryHost) -> Option<u64> {
    let Ok(mut store) = create(alloc, host) else {
        return None;
    };
    let (six, _) = NINE.as_slice().split_at(6);
    let _answer = add(alloc, &mut store, host, six);
    Some(store.count())
}

/// How many beats there are, or that there is no database.
fn found(alloc: Global, host: &mut MemoryHost) -> Result<Option<u64>, Fail> {
    let mut store = match Store::open(alloc, host) {
        Ok(store) => store,
        Err(OpenFault::NotADatabase) => return Ok(None),
        Err(fault) => return Err(Fail::from(fault)),
    };
    for _ in 0..6 {
        store.replay()?;
    }
    Ok(Some(store.count()))
}

/// Whether what was told may be there as this: the last beat, or the database, may be there too.
fn may_be(told: Option<u64>, found: Option<u64>) -> bool {
    let more = told.map_or(0, |told| told.saturating_add(1));
    found == told || found == Some(more)
}

/// Runs until a call fails, crashes, and opens. It gives how many beats were told, and how many there are.
fn survive(
    alloc: Global,
    mut host: MemoryHost,
    keep: Keep,
) -> Result<(Option<u64>, Option<u64>), Fail> {
    let told = run(alloc, &mut host);
    let mut host = host.stop(keep)?;
    let found = found(alloc, &mut host)?;
    Ok((told, found))
}

/// Checks each way in which a crash leaves what this call was to write, and gives how many beats were told.
fn check_call(rt: &impl Abort, alloc: Global, call: u64) -> Result<Option<u64>, Fail> {
    let mut told = None;
    for keep in [Keep::All, Keep::None, Keep::Fill(1), Keep::Fill(255)] {
        let host = MemoryHost::fused(alloc, call)?;
        let (here, found) = survive(alloc, host, keep)?;
        assert!(rt; may_be(here, found), "call {call}, {keep:?}");
        told = here;
    }
    Ok(told)
}

#[test]
fn a_crash_leaves_the_beats_with_or_without_the_last(rt: HostRuntime) -> Result<(), Fail> {
    let mut told = None;
    for call in 0..80u64 {
        told = check_call(&rt, rt.alloc(), call)?;
    }
    assert_eq!(rt; told, Some(6));
    Ok(())
}
