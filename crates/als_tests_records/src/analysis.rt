use crate::made::{Said, record, undo, update};
use als_analysis::TransTable;
use als_record::{Lsn, Record, TransId, TransactionRow, TransactionState};
use std::alloc::Global;
use std::process::Abort;

// The table of the empty log, made again where allocation fails once.
fn empty(rt: &impl Abort, alloc: Global) -> TransTable {
    for _ in 0..2 {
        if let Ok(table) = TransTable::new(alloc) {
            return table;
        }
    }
    panic!(rt; "memory is refused twice")
}

fn row(trans: u32, state: TransactionState, last: u64, undo_next: u64) -> TransactionRow {
    TransactionRow {
        trans: TransId(trans),
        state,
        last: Lsn(last),
        undo_next: Lsn(undo_next),
    }
}

// Notes a record that says this.
fn note(rt: &impl Abort, table: &mut TransTable, lsn: u64, prev: u64, trans: u32, said: Said) {
    note_record(rt, table, &record(lsn, prev, trans, said));
}

// Notes a record, which takes no memory. What a takeover would append then was told before.
fn note_record(rt: &impl Abort, table: &mut TransTable, logged: &Record) {
    let after = table.reserve_after(&logged.view());
    assert!(rt; table.note(&logged.view()).is_ok());
    assert!(rt; table.reserve_bytes() == after);
}

// What a takeover would append behind a record that says this.
fn reserve_after(table: &TransTable, lsn: u64, prev: u64, trans: u32, said: Said) -> u64 {
    let logged = record(lsn, prev, trans, said);
    table.reserve_after(&logged.view())
}

fn expect_row(rt: &impl Abort, table: &TransTable, place: usize, row: TransactionRow) {
    match table.rows().get(place) {
        None => panic!(rt; "no row at {place}"),
        Some(open) => {
            assert!(rt; open.row() == row);
            assert!(rt; table.undo_next_of(row.trans) == Some(row.undo_next));
            assert!(rt; table.place(row.trans) == Some(place));
        }
    }
}

// So many updates of a transaction survive; `None`: it has no row.
fn expect_left(rt: &impl Abort, table: &TransTable, trans: u32, left: Option<u64>) {
    match table.open_of(TransId(trans)) {
        None => assert!(rt; left.is_none(), "of {trans}"),
        Some(open) => assert!(rt; left == Some(open.left()), "of {trans}"),
    }
}

#[test]
fn a_committed_and_an_active_transaction(rt: HostRuntime) {
    let mut table = empty(&rt, rt.alloc());
    note(&rt, &mut table, 16, 0, 1, update(0, None, 1));
    assert!(rt; table.reserve_bytes() == 70);
    assert!(rt; reserve_after(&table, 52, 16, 1, Said::Commit) == 28);
    note(&rt, &mut table, 52, 16, 1, Said::Commit);
    assert!(rt; table.reserve_bytes() == 28);
    note(&rt, &mut table, 80, 0, 2, update(1, None, 1));
    note(&rt, &mut table, 116, 80, 2, update(0, Some(0xaa), 1));
    assert!(rt; table.rows().len() == 2);
    expect_row(&rt, &table, 0, row(1, TransactionState::Committed, 52, 16));
    expect_row(&rt, &table, 1, row(2, TransactionState::Active, 116, 116));
    expect_left(&rt, &table, 1, Some(1));
    expect_left(&rt, &table, 2, Some(2));
    assert!(rt; table.reserve_bytes() == 294 - 153);
    note(&rt, &mut table, 153, 52, 1, Said::End);
    assert!(rt; table.rows().len() == 1);
    assert!(rt; table.undo_next_of(TransId(1)) == None);
    expect_left(&rt, &table, 1, None);
    assert!(rt; table.reserve_bytes() == 294 - 181);
}

#[test]
fn a_transaction_rolled_back_to_its_start(rt: HostRuntime) {
    let mut table = empty(&rt, rt.alloc());
    note(&rt, &mut table, 16, 0, 1, update(0, None, 1));
    note(&rt, &mut table, 52, 16, 1, undo(0, None, 0));
    note(&rt, &mut table, 94, 0, 2, update(0, None, 1));
    note(&rt, &mut table, 130, 94, 2, Said::Commit);
    expect_row(&rt, &table, 0, row(1, TransactionState::Active, 52, 0));
    expect_row(&rt, &table, 1, row(2, TransactionState::Committed, 130, 94));
    expect_left(&rt, &table, 1, Some(0));
    assert!(rt; table.reserve_bytes() == 214 - 158);
}

#[test]
fn a_compensation_takes_its_own_bytes(rt: HostRuntime) {
    let mut table = empty(&rt, rt.alloc());
    note(&rt, &mut table, 16, 0, 1, update(0, None, 1));
    note(&rt, &mut table, 52, 16, 1, Said::Commit);
    note(&rt, &mut table, 80, 52, 1, Said::End);
    note(&rt, &mut table, 108, 0, 2, update(0, Some(1), 1));
    note(&rt, &mut table, 145, 108, 2, update(1, None, 1));
    assert!(rt; table.reserve_bytes() == 28 + 43 + 42);
    note(&rt, &mut table, 181, 145, 2, undo(1, None, 108));
    assert!(rt; table.reserve_bytes() == 28 + 43);
    note(&rt, &mut table, 223, 181, 2, undo(0, Some(1), 0));
    assert!(rt; table.reserve_bytes() == 28);
    expect_left(&rt, &table, 2, Some(0));
}

#[test]
fn a_partial_rollback(rt: HostRuntime) {
    let mut table = empty(&rt, rt.alloc());
    note(&rt, &mut table, 16, 0, 1, update(0, None, 1));
    note(&rt, &mut table, 52, 16, 1, update(1, None, 1));
    note(&rt, &mut table, 88, 52, 1, undo(1, None, 16));
    note(&rt, &mut table, 130, 88, 1, update(2, None, 1));
    expect_row(&rt, &table, 0, row(1, TransactionState::Active, 130, 130));
    expect_left(&rt, &table, 1, Some(2));
    assert!(rt; table.reserve_bytes() == 278 - 166);
    note(&rt, &mut table, 166, 130, 1, Said::Rollback);
    expect_row(
        &rt,
        &table,
        0,
        row(1, TransactionState::RollingBack, 166, 130),
    );
    note(&rt, &mut table, 194, 0, 0, Said::BeginCheckpoint);
    assert!(rt; table.rows().len() == 1);
}

#[test]
fn many_updates_take_no_memory(rt: HostRuntime) {
    let mut table = empty(&rt, rt.alloc());
    for k in 0..40u32 {
        let logged = record(16, 0, 1 + k % 4, update(0, None, 1));
        assert!(rt; table.note(&logged.view()).is_ok());
    }
    assert!(rt; table.rows().len() == 4);
    expect_left(&rt, &table, 4, Some(10));
    assert!(rt; table.reserve_bytes() == 4 * 28 + 40 * 42);
}

#[test]
fn a_transaction_in_doubt_keeps_room_for_its_decision(rt: HostRuntime) {
    let mut table = empty(&rt, rt.alloc());
    note(&rt, &mut table, 16, 0, 1, update(0, None, 1));
    assert!(rt; reserve_after(&table, 52, 16, 1, Said::Prepare) == 98);
    note(&rt, &mut table, 52, 16, 1, Said::Prepare);
    expect_row(&rt, &table, 0, row(1, TransactionState::Prepared, 52, 16));
    expect_left(&rt, &table, 1, Some(1));
    assert!(rt; table.reserve_bytes() == 56 + 42);
    note(&rt, &mut table, 80, 0, 2, update(1, None, 1));
    assert!(rt; table.reserve_bytes() == 168);
    assert!(rt; reserve_after(&table, 116, 52, 1, Said::Commit) == 168 - 70);
    assert!(rt; reserve_after(&table, 116, 52, 1, Said::Rollback) == 168 - 28);
    note(&rt, &mut table, 116, 52, 1, Said::Rollback);
    expect_row(
        &rt,
        &table,
        0,
        row(1, TransactionState::RollingBack, 116, 16),
    );
}
