use crate::made::{Said, image, record, undo, update};
use als_analysis::TransTable;
use als_disk::MemDisk;
use als_log::{LocalLog, NewLog};
use als_record::{Body, Key, Lsn, Record, TransId, decode, encode};
use als_takeover::{next_undo, survivors};
use std::alloc::{AllocError, Global};
use std::process::Abort;

// A log on a device, and its transaction table.
#[derive(Drop)]
struct Held {
    table: TransTable,
    log: LocalLog<MemDisk>,
}

// The memory of an empty log of a database of four pages, made again where allocation fails once.
fn new_log(rt: &impl Abort, alloc: Global) -> NewLog {
    for _ in 0..2 {
        if let Ok(new) = NewLog::new(alloc, 4) {
            return new;
        }
    }
    panic!(rt; "memory is refused twice")
}

// The table of the empty log, made again where allocation fails once.
fn new_table(rt: &impl Abort, alloc: Global) -> TransTable {
    for _ in 0..2 {
        if let Ok(table) = TransTable::new(alloc) {
            return table;
        }
    }
    panic!(rt; "memory is refused twice")
}

// An empty log on a device of eight blocks. A device in memory fails where an allocation fails,
// once at most.
fn empty(rt: &impl Abort, alloc: Global) -> Held {
    for _ in 0..2 {
        if let Ok(log) = LocalLog::lay_out(MemDisk::new(alloc, 8), new_log(rt, alloc)) {
            let table = new_table(rt, alloc);
            return Held { table, log };
        }
    }
    panic!(rt; "the device fails twice")
}

// The bytes of a record, spelled again where allocation fails once.
fn spelled(rt: &impl Abort, alloc: Global, logged: &Record) -> Vec<u8> {
    for _ in 0..2 {
        let mut bytes = Vec::new(alloc);
        if encode(logged, &mut bytes).is_ok() {
            return bytes;
        }
    }
    panic!(rt; "memory is refused twice")
}

// Appends a record and notes it, again where allocation fails once.
fn put(rt: &impl Abort, alloc: Global, held: &mut Held, made: &Record) {
    let bytes = spelled(rt, alloc, made);
    let end = held.log.end();
    assert!(rt; made.lsn == end);
    match decode(alloc, bytes.as_slice(), end, held.log.pages()) {
        Ok(Some((logged, _))) => {
            if held.log.append(&logged, 0).is_err() {
                assert!(rt; held.log.append(&logged, 0).is_ok());
            }
            assert!(rt; held.table.note(&logged.view()).is_ok());
        }
        _ => panic!(rt; "not a record"),
    }
}

// Appends a record of a transaction.
fn log(rt: &impl Abort, alloc: Global, held: &mut Held, prev: u64, trans: u32, said: Said) {
    let logged = record(held.log.end().0, prev, trans, said);
    put(rt, alloc, held, &logged);
}

// The next record of the tail stands here, follows that record, and undoes to there; an end undoes
// to nowhere. It is appended.
fn next(
    rt: &impl Abort,
    alloc: Global,
    held: &mut Held,
    lsn: u64,
    trans: u32,
    prev: u64,
    undo_next: Option<u64>,
) {
    match next_undo(&held.table, &mut held.log) {
        Ok(Some(made)) => {
            assert!(rt; made.lsn == Lsn(lsn));
            assert!(rt; made.trans == TransId(trans));
            assert!(rt; made.prev == Lsn(prev));
            match &made.body {
                Body::Compensation { undo_next: to, .. } => assert!(rt; Some(to.0) == undo_next),
                Body::End => assert!(rt; undo_next.is_none()),
                _ => panic!(rt; "another kind of record"),
            }
            put(rt, alloc, held, &made);
        }
        _ => panic!(rt; "no record"),
    }
}

// The tail is at its end, and the log ends here.
fn is_over(rt: &impl Abort, held: &mut Held, end: u64) {
    assert!(rt; held.log.end() == Lsn(end));
    match next_undo(&held.table, &mut held.log) {
        Ok(None) => {}
        _ => panic!(rt; "one more record"),
    }
}

// The key's image after the next compensation.
fn gives_back(rt: &impl Abort, held: &mut Held, slot: u8, value: Option<u8>) {
    match next_undo(&held.table, &mut held.log) {
        Ok(Some(made)) => match &made.body {
            Body::Compensation { key, after, .. } => {
                assert!(rt; *key == Key { page: 0, slot });
                assert!(rt; *after == image(value));
            }
            _ => panic!(rt; "another kind of record"),
        },
        _ => panic!(rt; "no record"),
    }
}

// The LSNs of a transaction's surviving updates, read again where allocation fails once.
fn surviving(rt: &impl Abort, alloc: Global, held: &mut Held, trans: u32) -> Vec<u64> {
    for _ in 0..2 {
        if let Ok(updates) = survivors(alloc, &held.table, &mut held.log, TransId(trans)) {
            return lsns(rt, alloc, updates.as_slice());
        }
    }
    panic!(rt; "memory is refused twice")
}

// The LSNs of records.
fn lsns(rt: &impl Abort, alloc: Global, records: &[Record]) -> Vec<u64> {
    for _ in 0..2 {
        let listed: Result<Vec<u64>, AllocError> = records.iter().map(|r| r.lsn.0).collect(alloc);
        if let Ok(listed) = listed {
            return listed;
        }
    }
    panic!(rt; "memory is refused twice")
}

#[test]
fn two_losers_are_undone_in_one_sweep(rt: HostRuntime) {
    let a = rt.alloc();
    let mut held = empty(&rt, a);
    is_over(&rt, &mut held, 16);
    log(&rt, a, &mut held, 0, 1, update(0, None, 0x11));
    log(&rt, a, &mut held, 0, 2, update(1, None, 0x22));
    log(&rt, a, &mut held, 16, 1, update(0, Some(0x11), 0x33));
    log(&rt, a, &mut held, 52, 2, update(3, None, 0x44));
    log(&rt, a, &mut held, 88, 1, update(2, None, 0x55));
    next(&rt, a, &mut held, 197, 1, 161, Some(88));
    next(&rt, a, &mut held, 239, 2, 125, Some(52));
    gives_back(&rt, &mut held, 0, Some(0x11));
    next(&rt, a, &mut held, 281, 1, 197, Some(16));
    next(&rt, a, &mut held, 324, 2, 239, Some(0));
    next(&rt, a, &mut held, 366, 2, 324, None);
    next(&rt, a, &mut held, 394, 1, 281, Some(0));
    next(&rt, a, &mut held, 436, 1, 394, None);
    is_over(&rt, &mut held, 464);
}

#[test]
fn three_losers_are_undone_in_one_sweep_behind_the_ends(rt: HostRuntime) {
    let a = rt.alloc();
    let mut held = empty(&rt, a);
    log(&rt, a, &mut held, 0, 1, update(0, None, 0x11));
    log(&rt, a, &mut held, 0, 2, update(1, None, 0x22));
    log(&rt, a, &mut held, 0, 3, update(2, None, 0x33));
    log(&rt, a, &mut held, 0, 4, Said::Commit);
    log(&rt, a, &mut held, 0, 5, Said::Rollback);
    log(&rt, a, &mut held, 52, 2, update(3, None, 0x44));
    log(&rt, a, &mut held, 16, 1, update(4, None, 0x55));
    next(&rt, a, &mut held, 252, 4, 124, None);
    next(&rt, a, &mut held, 280, 5, 152, None);
    next(&rt, a, &mut held, 308, 1, 216, Some(16));
    next(&rt, a, &mut held, 350, 2, 180, Some(52));
    next(&rt, a, &mut held, 392, 3, 88, Some(0));
    next(&rt, a, &mut held, 434, 3, 392, None);
    next(&rt, a, &mut held, 462, 2, 350, Some(0));
    next(&rt, a, &mut held, 504, 2, 462, None);
    next(&rt, a, &mut held, 532, 1, 308, Some(0));
    next(&rt, a, &mut held, 574, 1, 532, None);
    is_over(&rt, &mut held, 602);
}

#[test]
fn a_committed_transaction_ends_and_a_loser_is_undone(rt: HostRuntime) {
    let a = rt.alloc();
    let mut held = empty(&rt, a);
    log(&rt, a, &mut held, 0, 1, update(0, None, 0xaa));
    log(&rt, a, &mut held, 16, 1, Said::Commit);
    log(&rt, a, &mut held, 0, 2, update(1, None, 0xbb));
    log(&rt, a, &mut held, 80, 2, update(0, Some(0xaa), 0xcc));
    next(&rt, a, &mut held, 153, 1, 52, None);
    gives_back(&rt, &mut held, 0, Some(0xaa));
    next(&rt, a, &mut held, 181, 2, 116, Some(80));
    gives_back(&rt, &mut held, 1, None);
    next(&rt, a, &mut held, 224, 2, 181, Some(0));
    next(&rt, a, &mut held, 266, 2, 224, None);
    is_over(&rt, &mut held, 294);
}

#[test]
fn what_a_compensation_has_undone_is_passed_over(rt: HostRuntime) {
    let a = rt.alloc();
    let mut held = empty(&rt, a);
    log(&rt, a, &mut held, 0, 1, update(0, None, 0x11));
    log(&rt, a, &mut held, 16, 1, update(1, None, 0x22));
    log(&rt, a, &mut held, 52, 1, undo(1, None, 16));
    log(&rt, a, &mut held, 88, 1, update(2, None, 0x33));
    next(&rt, a, &mut held, 166, 1, 130, Some(88));
    next(&rt, a, &mut held, 208, 1, 166, Some(0));
    next(&rt, a, &mut held, 250, 1, 208, None);
    is_over(&rt, &mut held, 278);
}

#[test]
fn survivors_are_read_along_the_chain(rt: HostRuntime) {
    let a = rt.alloc();
    let mut held = empty(&rt, a);
    log(&rt, a, &mut held, 0, 1, update(0, None, 0x11));
    log(&rt, a, &mut held, 16, 1, update(1, None, 0x22));
    log(&rt, a, &mut held, 52, 1, undo(1, None, 16));
    log(&rt, a, &mut held, 88, 1, update(2, None, 0x33));
    log(&rt, a, &mut held, 130, 1, Said::Commit);
    assert!(rt; surviving(&rt, a, &mut held, 1).as_slice() == [16, 130].as_slice());
    assert!(rt; surviving(&rt, a, &mut held, 2).is_empty());
}

// Ten times an update and its compensation: undo passes over all of them.
#[test]
fn many_compensations_are_passed_over(rt: HostRuntime) {
    let a = rt.alloc();
    let mut held = empty(&rt, a);
    log(&rt, a, &mut held, 0, 1, update(0, None, 0x11));
    let mut last = 16;
    for _ in 0..10 {
        let made = held.log.end().0;
        log(&rt, a, &mut held, last, 1, update(1, None, 0x22));
        let undone = held.log.end().0;
        log(&rt, a, &mut held, made, 1, undo(1, None, last));
        last = undone;
    }
    next(&rt, a, &mut held, 832, 1, 790, Some(0));
    next(&rt, a, &mut held, 874, 1, 832, None);
    is_over(&rt, &mut held, 902);
}

// Behind its newest update the first goes on at a compensation, which leads below the update of the
// second: all are compared again.
#[test]
fn all_chains_are_compared_again_behind_a_compensation(rt: HostRuntime) {
    let a = rt.alloc();
    let mut held = empty(&rt, a);
    log(&rt, a, &mut held, 0, 1, update(0, None, 0x11));
    log(&rt, a, &mut held, 16, 1, update(2, None, 0x22));
    log(&rt, a, &mut held, 0, 2, update(1, None, 0x33));
    log(&rt, a, &mut held, 52, 1, undo(2, None, 16));
    log(&rt, a, &mut held, 124, 1, update(3, None, 0x44));
    next(&rt, a, &mut held, 202, 1, 166, Some(124));
    next(&rt, a, &mut held, 244, 2, 88, Some(0));
    next(&rt, a, &mut held, 286, 2, 244, None);
    next(&rt, a, &mut held, 314, 1, 202, Some(0));
    next(&rt, a, &mut held, 356, 1, 314, None);
    is_over(&rt, &mut held, 384);
}

// A transaction in doubt is neither undone nor ended, until it is decided.
#[test]
fn a_transaction_in_doubt_is_left_alone(rt: HostRuntime) {
    let a = rt.alloc();
    let mut held = empty(&rt, a);
    log(&rt, a, &mut held, 0, 1, update(0, None, 0xaa));
    log(&rt, a, &mut held, 16, 1, Said::Prepare);
    log(&rt, a, &mut held, 0, 2, update(1, None, 0xbb));
    next(&rt, a, &mut held, 116, 2, 80, Some(0));
    next(&rt, a, &mut held, 158, 2, 116, None);
    is_over(&rt, &mut held, 186);
    assert!(rt; surviving(&rt, a, &mut held, 1).as_slice() == [16].as_slice());
    log(&rt, a, &mut held, 52, 1, Said::Rollback);
    next(&rt, a, &mut held, 214, 1, 186, Some(0));
    next(&rt, a, &mut held, 256, 1, 214, None);
    is_over(&rt, &mut held, 284);
}

// With nothing written it is not ended either, and its commit opens its end.
#[test]
fn a_transaction_in_doubt_ends_behind_its_commit(rt: HostRuntime) {
    let a = rt.alloc();
    let mut held = empty(&rt, a);
    log(&rt, a, &mut held, 0, 1, Said::Prepare);
    is_over(&rt, &mut held, 44);
    log(&rt, a, &mut held, 16, 1, Said::Commit);
    next(&rt, a, &mut held, 72, 1, 44, None);
    is_over(&rt, &mut held, 100);
}
