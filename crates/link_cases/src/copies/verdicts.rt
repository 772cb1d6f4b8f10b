use replication::{Ask, BeatList, ChartNameList, Data, DimNameList, Names, Parent, Verdict};
use std::alloc::Global;
use std::test::Fail;

fn message(alloc: Global, prev: u32, upto: u32) -> Data {
    Data {
        child: 7,
        prev,
        from: prev,
        upto,
        floor: 0,
        names: Names {
            charts: ChartNameList::new(alloc),
            dimensions: DimNameList::new(alloc),
        },
        beats: BeatList::new(alloc),
    }
}

#[test]
fn a_parent_judges_messages(rt: HostRuntime) -> Result<(), Fail> {
    let mut parent = Parent::new(None, 0);
    for (prev, upto, verdict) in [
        (0, 2, Verdict::Stored),
        (0, 2, Verdict::Old),
        (4, 6, Verdict::Ahead),
        (2, 4, Verdict::Stored),
    ] {
        let sent = message(rt.alloc(), prev, upto);
        assert_eq!(rt; parent.take(&sent), verdict);
    }
    assert_eq!(rt; parent.last, 4);
    assert_eq!(rt; parent.ask(7), Ask { child: 7, last: 4 });
    Ok(())
}
