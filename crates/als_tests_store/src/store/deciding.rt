ghost use Rattle.std.specs.Prelude.{◌≡◌, ℕ};
ghost use Rattle.als_record.specs.Spelling.{IsRecord};

use super::{devices, expect_phase, finish, offer, seals, spelled, undo};
use als_disk::MemDisk;
use als_record::{Body, Lsn, Record, TransId};
use als_store::{Decision, Fault, Phase, Store};
use std::alloc::Global;
use std::process::Abort;

/// A prepare record, the first record of transaction 1.
fn prepare_at(lsn: Lsn) -> Record
    ensures fits { (pages : ℕ) → IsRecord pages result }
    ensures lsn { result.lsn ≡ lsn }
{
    Record {
        lsn,
        prev: Lsn(0),
        trans: TransId(1),
        body: Body::Prepare,
    }
}

/// Prepares transaction 1, again where allocation fails once: then nothing has changed.
fn prepare(rt: &impl Abort, alloc: Global, store: &mut Store<MemDisk>) -> Result<(), Fault> {
    let logged = prepare_at(store.end());
    let bytes = spelled(rt, alloc, &logged);
    let answer = offer(rt, store, &logged, bytes.as_slice());
    if answer != Err(Fault::Memory) {
        return answer;
    }
    offer(rt, store, &logged, bytes.as_slice())
}

/// Syncs the control state.
fn sync_state(rt: &impl Abort, store: &mut Store<MemDisk>) -> bool {
    assert!(rt; !store.is_broken());
    store.ctl_sync().is_ok()
}

/// Seals a log of which a takeover undoes nothing, and ends the takeover. False: a call has failed.
fn takes_over(rt: &impl Abort, store: &mut Store<MemDisk>) -> bool {
    if !seals(rt, store) {
        return false;
    }
    assert!(rt; !store.has_tail());
    assert!(rt; matches!(undo(rt, store), Err(Fault::NothingToDo)));
    sync_state(rt, store) && finish(rt, store).is_ok()
}

/// Whether transaction 1 is in doubt after a takeover.
fn expect_doubt(rt: &impl Abort, store: &Store<MemDisk>, in_doubt: bool) {
    assert!(rt; store.is_in_doubt(TransId(1)) == in_doubt);
    expect_phase(rt, store, Phase::Primary);
}

/// Decides transaction 1, again where allocation fails once: then nothing has changed.
fn decide(rt: &impl Abort, store: &mut Store<MemDisk>, verdict: Decision) -> Result<Lsn, Fault> {
    assert!(rt; store.is_primary());
    assert!(rt; store.is_in_doubt(TransId(1)));
    let answer = store.resolve(TransId(1), verdict);
    if answer != Err(Fault::Memory) {
        return answer;
    }
    assert!(rt; store.is_primary());
    assert!(rt; store.is_in_doubt(TransId(1)));
    store.resolve(TransId(1), verdict)
}

/// The commit of transaction 1 would have its record at the log's end, and write nothing. It is
/// asked again where allocation fails once.
fn expect_commit(rt: &impl Abort, alloc: Global, store: &mut Store<MemDisk>, lsn: u64) {
    for _ in 0..2 {
        assert!(rt; store.is_in_doubt(TransId(1)));
        if let Ok(made) = store.commit_decided(alloc, TransId(1)) {
            assert!(rt; made.lsn.0 == lsn);
            assert!(rt; made.writes.is_empty());
            return;
        }
    }
    panic!(rt; "memory is refused twice")
}

/// A prepared transaction outlives a takeover, and is then decided. False: allocation failed, and
/// where that failed a write the store is broken.
fn decides(rt: &impl Abort, alloc: Global, verdict: Decision) -> bool {
    let Ok(mut store) = Store::format(alloc, devices(alloc), 4, 2) else {
        return false;
    };
    assert!(rt; prepare(rt, alloc, &mut store).is_ok());
    if !takes_over(rt, &mut store) {
        assert!(rt; store.is_broken());
        return false;
    }
    expect_doubt(rt, &store, true);
    expect_commit(rt, alloc, &mut store, 44);
    assert!(rt; matches!(decide(rt, &mut store, verdict), Ok(Lsn(44))));
    expect_doubt(rt, &store, false);
    assert!(rt; store.has_tail());
    assert!(rt; matches!(undo(rt, &mut store), Ok(Lsn(72))));
    assert!(rt; matches!(undo(rt, &mut store), Err(Fault::NothingToDo)));
    assert!(rt; store.end().0 == 100);
    true
}

#[test]
fn a_transaction_in_doubt_commits_after_a_takeover(rt: HostRuntime) {
    let alloc = rt.alloc();
    assert!(rt; decides(&rt, alloc, Decision::Commit) || decides(&rt, alloc, Decision::Commit));
}

#[test]
fn a_transaction_in_doubt_rolls_back_after_a_takeover(rt: HostRuntime) {
    let alloc = rt.alloc();
    assert!(rt; decides(&rt, alloc, Decision::Rollback) || decides(&rt, alloc, Decision::Rollback));
}
