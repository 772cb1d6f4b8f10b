use super::*;
use query_engine::{
    Group, ListPoints, MomentList, Point, PointList, Points, Request, SeriesList, SeriesPointsList,
    Table, answer,
};
use store_core::StoreView;

/// How many ten-millionths one has.
const ONE: Units = 10_000_000;

fn request(alloc: Global, window: u32, rows: u32, group: Group) -> Result<Request, Fail> {
    let mut series = SeriesList::new(alloc);
    series.push(0)?;
    Ok(Request {
        series,
        after: 0,
        window,
        rows,
        group,
    })
}

/// Checks that a table has one row, from 0 on, with this cell.
fn check_cell(rt: &impl Abort, table: &Table, cell: Option<Units>) {
    let rows = table.rows.as_slice();
    assert_eq!(rt; rows.len(), 1);
    assert_eq!(rt; rows[0].start, 0);
    assert_eq!(rt; rows[0].cells.as_slice(), [cell].as_slice());
}

/// The answer of a view of the store.
fn ask(
    alloc: Global,
    store: &mut Store,
    host: &mut MemoryHost,
    request: &Request,
) -> Result<Table, Fail> {
    let mut view = StoreView { store, host };
    Ok(answer(alloc, &mut view, request)?)
}

/// Checks the averages of the first minute and of its first half.
fn check_averages(
    rt: &impl Abort,
    alloc: Global,
    store: &mut Store,
    host: &mut MemoryHost,
    averages: [Option<Units>; 2],
) -> Result<(), Fail> {
    let [minute, half] = averages;
    let asked = request(alloc, 60, 1, Group::Average)?;
    check_cell(rt, &ask(alloc, store, host, &asked)?, minute);
    let asked = request(alloc, 30, 1, Group::Average)?;
    check_cell(rt, &ask(alloc, store, host, &asked)?, half);
    Ok(())
}

/// 1 to 8, one each ten seconds.
const EIGHT: [(u32, i32); 8] = [
    (10, 1),
    (20, 2),
    (30, 3),
    (40, 4),
    (50, 5),
    (60, 6),
    (70, 7),
    (80, 8),
];

#[test]
fn a_minute_and_a_half(rt: HostRuntime) -> Result<(), Fail> {
    let alloc = rt.alloc();
    let mut host = new_host(alloc)?;
    let (six, _) = EIGHT.as_slice().split_at(6);
    let mut store = made(alloc, &mut host, six)?;
    check_averages(
        &rt,
        alloc,
        &mut store,
        &mut host,
        [Some(3 * ONE), Some(15_000_000)],
    )
}

/// Checks that of eight beats the first four expired, which the record of their minute answers.
fn check_expired(
    rt: &impl Abort,
    alloc: Global,
    store: &mut Store,
    host: &mut MemoryHost,
) -> Result<(), Fail> {
    assert_eq!(rt;
        [store.floor(0), store.floor(1), store.floor(2)],
        [41, 0, 0]
    );
    check_averages(rt, alloc, store, host, [Some(3 * ONE), None])
}

#[test]
fn what_expired_is_answered_by_its_record(rt: HostRuntime) -> Result<(), Fail> {
    let alloc = rt.alloc();
    let mut host = new_host(alloc)?;
    let mut store = made(alloc, &mut host, EIGHT.as_slice())?;
    check_expired(&rt, alloc, &mut store, &mut host)
}

/// The floor of the first tier after so many of the nine beats.
fn floor_after(alloc: Global, count: usize) -> Result<u32, Fail> {
    let mut host = new_host(alloc)?;
    let some = NINE.as_slice().get(..count).unwrap_or(&[]);
    let store = made(alloc, &mut host, some)?;
    Ok(store.floor(0))
}

#[test]
fn floors_rise_where_segments_are_sealed(rt: HostRuntime) -> Result<(), Fail> {
    assert_eq!(rt; floor_after(rt.alloc(), 7)?, 0);
    assert_eq!(rt; floor_after(rt.alloc(), 8)?, 5);
    Ok(())
}

/// The rows of two tables are the same.
fn check_rows(rt: &impl Abort, table: &Table, plain: &Table) {
    assert_eq!(rt; table.rows.len(), plain.rows.len());
    for (row, other) in table.rows.as_slice().iter().zip(plain.rows.as_slice()) {
        assert_eq!(rt; row.start, other.start);
        assert_eq!(rt; row.cells.as_slice(), other.cells.as_slice());
    }
}

/// What lists of two points of series 0 answer.
fn plain_table(alloc: Global, request: &Request) -> Result<Table, Fail> {
    let points = PointList::from_vec(vec![in alloc;
        Point {
            moment: 59,
            word: word(10)
        },
        Point {
            moment: 60,
            word: word(20)
        },
    ]?);
    let mut list = ListPoints::new(
        MomentList::from_vec(vec![in alloc; 1, 60, 3_600]?),
        MomentList::from_vec(vec![in alloc; 0, 0, 0]?),
        SeriesPointsList::from_vec(vec![in alloc; points]?),
    );
    Ok(answer(alloc, &mut list, request)?)
}

/// Checks that a store of these points answers as lists of them.
fn check_as_lists(
    rt: &impl Abort,
    alloc: Global,
    store: &mut Store,
    host: &mut MemoryHost,
) -> Result<(), Fail> {
    let asked = request(alloc, 60, 2, Group::Sum)?;
    let table = ask(alloc, store, host, &asked)?;
    let plain = plain_table(alloc, &asked)?;
    check_rows(rt, &table, &plain);
    assert_eq!(rt; table.rows.len(), 2);
    let cells = table.rows.as_slice()[1].cells.as_slice();
    assert_eq!(rt; cells, [Some(20 * ONE)].as_slice());
    Ok(())
}

/// Checks the widths of a view, and that it finds the first record where it is.
fn check_view(
    rt: &impl Abort,
    alloc: Global,
    store: &mut Store,
    host: &mut MemoryHost,
) -> Result<(), Fail> {
    let mut view = StoreView { store, host };
    assert_eq!(rt; view.widths(), [1, 60, 3_600].as_slice());
    let first = view.record_of(alloc, 1, 0, 0)?;
    let next = view.next_record(alloc, 1, 0, 0, 9)?;
    assert_eq!(rt; next, first.map(|one| (0, one)));
    Ok(())
}

/// Checks what a view of this store answers.
fn check_answers(
    rt: &impl Abort,
    alloc: Global,
    store: &mut Store,
    host: &mut MemoryHost,
) -> Result<(), Fail> {
    check_as_lists(rt, alloc, store, host)?;
    check_view(rt, alloc, store, host)
}

#[test]
fn a_store_answers_as_a_list(rt: HostRuntime) -> Result<(), Fail> {
    let alloc = rt.alloc();
    let mut host = new_host(alloc)?;
    let mut store = made(alloc, &mut host, &[(59, 10), (60, 20)])?;
    check_answers(&rt, alloc, &mut store, &mut host)
}
