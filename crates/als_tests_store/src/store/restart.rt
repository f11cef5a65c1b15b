// A store that was stopped is opened again.
ghost use Rattle.std.specs.Prelude.{◌≤◌, IfSome};

use super::*;
use als_store::OpenFault;

/// The devices of a store that was stopped after its record was acknowledged. None: memory was
/// refused on the way.
fn stopped(rt: &impl Abort, alloc: Global) -> Option<Disks<MemDisk>>
    ensures some { IfSome result (λ d. 1 ≤ ⟦<MemDisk as BlockDisk>⟧.block_count d.log) }
    ensures few { IfSome result (λ d. ⟦<MemDisk as BlockDisk>⟧.block_count d.log ≤ 4194304) }
    ensures control { IfSome result (λ d. 321 ≤ ⟦<MemDisk as BlockDisk>⟧.block_count d.control) }
    ensures pages { IfSome result (λ d. 4 ≤ ⟦<MemDisk as BlockDisk>⟧.block_count d.pages) }
{
    let Ok(mut store) = Store::format(alloc, devices(alloc), 4, 2) else {
        return None;
    };
    hold_first(rt, alloc, &mut store);
    if !acknowledges_all(rt, &mut store) {
        return None;
    }
    assert!(rt; store.pages() == 4);
    let (disks, used) = store.crash(&[]);
    assert!(rt; used == 0);
    Some(disks)
}

/// A store over such devices, of which the one commit waits.
fn reopened(
    rt: &impl Abort,
    alloc: Global,
    disks: Disks<MemDisk>,
) -> Result<Store<MemDisk>, OpenFault>
    requires log { 1 ≤ ⟦<MemDisk as BlockDisk>⟧.block_count disks.log }
    requires few { ⟦<MemDisk as BlockDisk>⟧.block_count disks.log ≤ 4194304 }
    requires control { 321 ≤ ⟦<MemDisk as BlockDisk>⟧.block_count disks.control }
    requires pages { 4 ≤ ⟦<MemDisk as BlockDisk>⟧.block_count disks.pages }
{
    match Store::open(alloc, disks, 4, 2) {
        Ok(opened) => {
            let (store, commits) = opened.into_parts();
            assert!(rt; commits.len() == 1);
            Ok(store)
        }
        Err(refused) => Err(refused.fault),
    }
}

/// What was acknowledged stands, no change of a page waits, and recovery can end.
fn recovers(rt: &impl Abort, store: &mut Store<MemDisk>) {
    assert!(rt; store.end().0 == 44);
    expect_one(rt, store, 44);
    assert!(rt; store.is_recovering());
    assert!(rt; store.pending() == 0);
    store.ready();
    assert!(rt; !store.is_recovering());
}

/// What was acknowledged stands after a crash. False: allocation failed.
fn restarts(rt: &impl Abort, alloc: Global) -> bool {
    let Some(disks) = stopped(rt, alloc) else {
        return false;
    };
    match reopened(rt, alloc, disks) {
        Ok(mut store) => {
            recovers(rt, &mut store);
            true
        }
        Err(fault) => {
            assert!(rt; fault == OpenFault::Memory);
            false
        }
    }
}

// An allocation fails once at most: the second try meets none.
#[test]
fn an_acknowledged_record_stands_after_a_crash(rt: HostRuntime) {
    assert!(rt; restarts(&rt, rt.alloc()) || restarts(&rt, rt.alloc()));
}
