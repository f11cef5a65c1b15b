ghost use Rattle.std.specs.Prelude.{◌≡◌, ℕ};
ghost use Rattle.als_record.specs.Spelling.{IsRecord, spelling};

// A transaction in doubt is decided.
mod deciding;
// The history of another node is adopted.
mod histories;
// Devices that were made before there were histories.
mod older;
// What refuses redo, a write and a sync, in order.
mod refusals;
// A store that was stopped is opened again.
mod restart;

use als_disk::{BlockDisk, MemDisk};
use als_record::{Body, Cause, Lsn, Record, TransId, encode};
use als_store::{Disks, Fault, Phase, Store};
use std::alloc::Global;
use std::process::Abort;

/// A commit of transaction 1.
fn commit_at(lsn: Lsn, prev: Lsn) -> Record
    ensures fits { (pages : ℕ) → IsRecord pages result }
    ensures lsn { result.lsn ≡ lsn }
{
    Record {
        lsn,
        prev,
        trans: TransId(1),
        body: Body::Commit,
    }
}

/// The bytes of a record, spelled again where allocation fails once.
fn spelled(rt: &impl Abort, alloc: Global, logged: &Record) -> Vec<u8>
    ensures { result.items ≡ spelling logged.now }
{
    for _ in 0..2 {
        let mut bytes = Vec::new(alloc);
        if encode(logged, &mut bytes).is_ok() {
            return bytes;
        }
    }
    panic!(rt; "memory is refused twice")
}

/// Admits a record that stands where the log ends.
fn offer(
    rt: &impl Abort,
    store: &mut Store<MemDisk>,
    logged: &Record,
    bytes: &[u8],
) -> Result<(), Fault>
    requires fits { (pages : ℕ) → IsRecord pages logged.now }
    requires spelled { bytes.now ≡ spelling logged.now }
{
    assert!(rt; store.end() == logged.lsn);
    assert!(rt; store.is_following());
    store.admit(&logged.view(), bytes)
}

/// Admits a commit that names this record before it, again where allocation fails once: then
/// nothing has changed.
fn admit(
    rt: &impl Abort,
    alloc: Global,
    store: &mut Store<MemDisk>,
    prev: Lsn,
) -> Result<(), Fault> {
    let logged = commit_at(store.end(), prev);
    let bytes = spelled(rt, alloc, &logged);
    let answer = offer(rt, store, &logged, bytes.as_slice());
    if answer != Err(Fault::Memory) {
        return answer;
    }
    offer(rt, store, &logged, bytes.as_slice())
}

/// Writes the log's block, and syncs it.
fn stored<D: BlockDisk + Drop>(rt: &impl Abort, store: &mut Store<D>) -> Result<(), Fault> {
    assert!(rt; !store.is_broken());
    store.log_write()?;
    assert!(rt; !store.is_broken());
    store.log_sync()
}

/// Writes the mark, and syncs it.
fn acknowledged<D: BlockDisk + Drop>(rt: &impl Abort, store: &mut Store<D>) -> Result<Lsn, Fault> {
    assert!(rt; !store.is_broken());
    store.mark_write()?;
    assert!(rt; !store.is_broken());
    store.ctl_sync()
}

/// Stores what is held and acknowledges it. False: a call has failed.
fn acknowledges_all<D: BlockDisk + Drop>(rt: &impl Abort, store: &mut Store<D>) -> bool {
    stored(rt, store).is_ok() && acknowledged(rt, store).is_ok()
}

/// New devices in memory, of which the log's has eight blocks.
fn devices(alloc: Global) -> Disks<MemDisk>
    ensures log { ⟦<MemDisk as BlockDisk>⟧.block_count result.log ≡ 8 }
    ensures control { ⟦<MemDisk as BlockDisk>⟧.block_count result.control ≡ 321 }
    ensures pages { ⟦<MemDisk as BlockDisk>⟧.block_count result.pages ≡ 4 }
{
    Disks {
        log: MemDisk::new(alloc, 8),
        control: MemDisk::new(alloc, 321),
        pages: MemDisk::new(alloc, 4),
    }
}

/// Admits a first commit.
fn hold_first(rt: &impl Abort, alloc: Global, store: &mut Store<MemDisk>) {
    assert!(rt; admit(rt, alloc, store, Lsn(0)).is_ok());
}

/// A commit that names a record before it is refused, and the first one is held.
fn holds_the_first(rt: &impl Abort, alloc: Global, store: &mut Store<MemDisk>) {
    assert!(rt; admit(rt, alloc, store, Lsn(16)) == Err(Fault::Invalid(Cause::BadPrev)));
    assert!(rt; store.len() == 0);
    hold_first(rt, alloc, store);
    assert!(rt; store.end().0 == 44);
}

/// One transaction is not ended, and the log is acknowledged up to here.
fn expect_one<D: BlockDisk + Drop>(rt: &impl Abort, store: &Store<D>, acknowledged: u64) {
    assert!(rt; store.table().len() == 1);
    assert!(rt; store.acknowledged().0 == acknowledged);
}

/// A record is held and acknowledged. False: allocation failed, and where that failed a write the
/// store is broken.
fn acknowledges(rt: &impl Abort, alloc: Global) -> bool {
    let Ok(mut store) = Store::format(alloc, devices(alloc), 4, 2) else {
        return false;
    };
    holds_the_first(rt, alloc, &mut store);
    expect_one(rt, &store, 16);
    if !acknowledges_all(rt, &mut store) {
        assert!(rt; store.is_broken());
        expect_one(rt, &store, 16);
        return false;
    }
    expect_one(rt, &store, 44);
    true
}

// An allocation fails once at most: the second try meets none.
#[test]
fn a_record_is_acknowledged_or_the_store_is_broken(rt: HostRuntime) {
    assert!(rt; acknowledges(&rt, rt.alloc()) || acknowledges(&rt, rt.alloc()));
}

/// A record is held in the room that was made for it. False: allocation failed where the devices
/// were formatted.
fn holds(rt: &impl Abort, alloc: Global) -> bool {
    let Ok(mut store) = Store::format(alloc, devices(alloc), 4, 2) else {
        return false;
    };
    let logged = commit_at(store.end(), Lsn(0));
    // A refused growth changes nothing that is held.
    if store.reserve(&logged).is_err() {
        assert!(rt; store.reserve(&logged).is_ok());
    }
    assert!(rt; store.len() == 0);
    let bytes = spelled(rt, alloc, &logged);
    assert!(rt; offer(rt, &mut store, &logged, bytes.as_slice()).is_ok());
    assert!(rt; store.len() == 1);
    true
}

#[test]
fn a_record_is_held_in_the_room_that_was_made(rt: HostRuntime) {
    assert!(rt; holds(&rt, rt.alloc()) || holds(&rt, rt.alloc()));
}

/// Seals the log.
fn seal<D: BlockDisk + Drop>(rt: &impl Abort, store: &mut Store<D>) -> Result<(), Fault> {
    assert!(rt; !store.is_broken());
    assert!(rt; store.is_following());
    assert!(rt; store.end().0 <= store.synced().0);
    let history = store.history();
    assert!(rt; history.takes(store.end()));
    store.seal()
}

/// Holds the next record of the tail, again where allocation fails once: then nothing has changed.
fn undo<D: BlockDisk + Drop>(rt: &impl Abort, store: &mut Store<D>) -> Result<Lsn, Fault> {
    let before = store.end();
    assert!(rt; !store.is_following());
    let answer = store.undo_one();
    if answer != Err(Fault::Memory) {
        return answer;
    }
    assert!(rt; store.end() == before);
    assert!(rt; !store.is_following());
    store.undo_one()
}

/// Ends the takeover.
fn finish<D: BlockDisk + Drop>(rt: &impl Abort, store: &mut Store<D>) -> Result<(), Fault> {
    assert!(rt; !store.is_broken());
    assert!(rt; !store.is_following());
    assert!(rt; !store.is_primary());
    assert!(rt; store.is_drained());
    store.finish()
}

/// Stores the log, and seals it. False: a call has failed.
fn seals<D: BlockDisk + Drop>(rt: &impl Abort, store: &mut Store<D>) -> bool {
    stored(rt, store).is_ok() && seal(rt, store).is_ok()
}

/// A transaction is not ended, or none is; and the tail is not stored.
fn expect_tail<D: BlockDisk + Drop>(rt: &impl Abort, store: &Store<D>, has_tail: bool) {
    assert!(rt; store.has_tail() == has_tail);
    assert!(rt; !store.is_drained());
}

/// The tail of a sealed log is one record, which is held.
fn holds_the_tail<D: BlockDisk + Drop>(rt: &impl Abort, store: &mut Store<D>) {
    expect_tail(rt, store, true);
    assert!(rt; matches!(undo(rt, store), Ok(Lsn(44))));
    assert!(rt; matches!(undo(rt, store), Err(Fault::NothingToDo)));
    assert!(rt; store.end().0 == 72);
    expect_tail(rt, store, false);
}

/// The store is in this phase.
fn expect_phase<D: BlockDisk + Drop>(rt: &impl Abort, store: &Store<D>, phase: Phase) {
    assert!(rt; store.phase() == phase);
}

/// Seals the log, holds its tail, and ends the takeover. False: a call has failed.
fn take_over<D: BlockDisk + Drop>(rt: &impl Abort, store: &mut Store<D>) -> bool {
    expect_phase(rt, store, Phase::Following);
    if !seals(rt, store) {
        return false;
    }
    expect_phase(rt, store, Phase::Sealed);
    holds_the_tail(rt, store);
    acknowledges_all(rt, store) && finish(rt, store).is_ok()
}

/// A log with a committed transaction is sealed, its tail is held, and the takeover ends. False:
/// allocation failed, and where that failed a write the store is broken.
fn takes_over(rt: &impl Abort, alloc: Global) -> bool {
    let Ok(mut store) = Store::format(alloc, devices(alloc), 4, 2) else {
        return false;
    };
    hold_first(rt, alloc, &mut store);
    if !take_over(rt, &mut store) {
        assert!(rt; store.is_broken());
        return false;
    }
    expect_phase(rt, &store, Phase::Primary);
    true
}

#[test]
fn a_takeover_holds_the_tail_and_ends(rt: HostRuntime) {
    assert!(rt; takes_over(&rt, rt.alloc()) || takes_over(&rt, rt.alloc()));
}
