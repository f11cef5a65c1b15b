ghost use Rattle.std.specs.Prelude.{◌≡◌, ◌<◌, ℕ, IfOk};
ghost use Rattle.als_record.specs.Spelling.{IsRecord};

use super::spelled;
use als_disk::{BlockDisk, FailingDisk, Fuse, MemDisk};
use als_lease::PageLease;
use als_record::{Body, Key, LoggedPage, Lsn, Record, TransId};
use als_store::{Disks, Fault, Store};
use std::alloc::{AllocError, Global};
use std::process::Abort;

/// An update of a page by transaction 1, which leaves no value.
fn update_at(lsn: Lsn, prev: Lsn, page: u32) -> Record
    requires { page < 4 }
    ensures fits { IsRecord 4 result }
    ensures lsn { result.lsn ≡ lsn }
{
    let key = Key { page, slot: 0 };
    let (before, after) = (None, None);
    Record {
        lsn,
        prev,
        trans: TransId(1),
        body: Body::Update { key, before, after },
    }
}

/// Devices in memory with one fuse for all.
fn failing(alloc: Global, fuse: &Fuse) -> Result<Disks<FailingDisk<MemDisk>>, AllocError>
    ensures log { IfOk result (λ d. ⟦<FailingDisk<MemDisk> as BlockDisk>⟧.block_count d.log ≡ 8) }
    ensures control { IfOk result (λ d. ⟦<FailingDisk<MemDisk> as BlockDisk>⟧.block_count d.control
        ≡ 321) }
    ensures pages { IfOk result (λ d. ⟦<FailingDisk<MemDisk> as BlockDisk>⟧.block_count d.pages
        ≡ 4) }
{
    let (log, control, pages) = (fuse.clone()?, fuse.clone()?, fuse.clone()?);
    Ok(Disks {
        log: FailingDisk::new(MemDisk::new(alloc, 8), log),
        control: FailingDisk::new(MemDisk::new(alloc, 321), control),
        pages: FailingDisk::new(MemDisk::new(alloc, 4), pages),
    })
}

/// Admits an update of a page, and tells where it stands. None: allocation failed.
fn update(
    rt: &impl Abort,
    alloc: Global,
    store: &mut Store<FailingDisk<MemDisk>>,
    prev: Lsn,
    page: u32,
) -> Option<Lsn>
    requires { page < 4 }
{
    assert!(rt; store.pages() == 4);
    let at = store.end();
    let logged = update_at(at, prev, page);
    let bytes = spelled(rt, alloc, &logged);
    assert!(rt; store.is_following());
    match store.admit(&logged.view(), bytes.as_slice()) {
        Ok(()) => Some(at),
        Err(_) => None,
    }
}

/// A store over failing devices that holds an update of page 0 and one of page 1. Its first lease
/// gets this number. None: allocation failed.
fn updated(
    rt: &impl Abort,
    alloc: Global,
    fuse: &Fuse,
    number: u64,
) -> Option<Store<FailingDisk<MemDisk>>> {
    let Ok(disks) = failing(alloc, fuse) else {
        return None;
    };
    let Ok(mut store) = Store::format_numbered(alloc, disks, 4, 1, number) else {
        return None;
    };
    let first = update(rt, alloc, &mut store, Lsn(0), 0)?;
    let _ = update(rt, alloc, &mut store, first, 1)?;
    Some(store)
}

/// A lend of a page is refused.
fn expect_no_lease<D: BlockDisk + Drop>(
    rt: &impl Abort,
    store: &mut Store<D>,
    page: u32,
    fault: Fault,
) {
    match store.lend(page) {
        Ok(_) => panic!(rt; "page {page} is lent"),
        Err(found) => assert!(rt; found == fault),
    }
}

/// Lends a page. None: allocation failed.
fn lent<D: BlockDisk + Drop>(
    rt: &impl Abort,
    store: &mut Store<D>,
    page: u32,
) -> Option<PageLease> {
    match store.lend(page) {
        Ok(lease) => Some(lease),
        Err(Fault::Memory) => None,
        Err(fault) => panic!(rt; "lend: {fault}"),
    }
}

/// Lends are refused in the order of their causes, though the device would fail. None: memory was
/// refused.
fn refuses_lends<D: BlockDisk + Drop>(
    rt: &impl Abort,
    fuse: &Fuse,
    store: &mut Store<D>,
) -> Option<()> {
    fuse.fail_at(1);
    expect_no_lease(rt, store, 2, Fault::NothingToDo);
    expect_no_lease(rt, store, 9, Fault::NothingToDo);
    expect_no_lease(rt, store, 0, Fault::Device);
    let lease = lent(rt, store, 0)?;
    fuse.fail_at(1);
    expect_no_lease(rt, store, 0, Fault::PageLent);
    expect_no_lease(rt, store, 1, Fault::PoolFull);
    expect_no_write(rt, store, 0, Fault::PageLent);
    give(rt, store, lease);
    Some(())
}

/// Redoes the one change of a lease of page 0 and gives it back, which leaves nothing to be lent.
fn give<D: BlockDisk + Drop>(rt: &impl Abort, store: &mut Store<D>, mut lease: PageLease) {
    assert!(rt; lease.redo_next());
    assert!(rt; !lease.redo_next());
    assert!(rt; store.leases() == 1);
    assert!(rt; store.give(lease).is_ok());
    assert!(rt; store.leases() == 0);
    expect_no_lease(rt, store, 1, Fault::PoolFull);
    expect_no_lease(rt, store, 0, Fault::NothingToDo);
}

/// A write of a page is refused, and the store was not broken before it.
fn expect_no_write<D: BlockDisk + Drop>(
    rt: &impl Abort,
    store: &mut Store<D>,
    page: u32,
    fault: Fault,
) {
    assert!(rt; !store.is_broken());
    assert!(rt; store.flush(page) == Err(fault));
}

/// A sync fails, which breaks the store; the first page still waits for its write.
fn fails_a_sync<D: BlockDisk + Drop>(rt: &impl Abort, store: &mut Store<D>) {
    assert!(rt; !store.is_broken());
    assert!(rt; store.sync_pages() == Err(Fault::Device));
    assert!(rt; store.is_broken());
    let (page, rec_lsn) = (0, Lsn(16));
    assert!(rt; store.next_row(0) == Some(LoggedPage { page, rec_lsn }));
}

/// Writes are refused in the order of their causes, though the device would fail, and then a sync
/// fails.
fn refuses_writes<D: BlockDisk + Drop>(rt: &impl Abort, store: &mut Store<D>) {
    expect_no_write(rt, store, 1, Fault::NothingToDo);
    expect_no_write(rt, store, 9, Fault::NothingToDo);
    expect_no_write(rt, store, 0, Fault::LogBehind);
    fails_a_sync(rt, store);
}

/// Lends, a write and a sync are refused in the order of their causes, though the device would fail.
/// None: allocation failed.
fn refuses(rt: &impl Abort, alloc: Global) -> Option<()> {
    let Ok(fuse) = Fuse::new(alloc) else {
        return None;
    };
    let mut store = updated(rt, alloc, &fuse, 1)?;
    refuses_lends(rt, &fuse, &mut store)?;
    refuses_writes(rt, &mut store);
    Some(())
}

#[test]
fn pages_are_refused_in_order(rt: HostRuntime) {
    assert!(rt; refuses(&rt, rt.alloc()).is_some() || refuses(&rt, rt.alloc()).is_some());
}

/// After the last lease number no page is lent, though one could be. The lease with that number was
/// recalled, and is not taken back.
fn spends_the_numbers<D: BlockDisk + Drop>(rt: &impl Abort, store: &mut Store<D>) -> Option<()> {
    let lease = lent(rt, store, 0)?;
    assert!(rt; lease.number() == u64::MAX);
    expect_no_lease(rt, store, 0, Fault::PageLent);
    expect_no_lease(rt, store, 1, Fault::NumbersSpent);
    expect_no_lease(rt, store, 2, Fault::NothingToDo);
    assert!(rt; store.recall(0).is_ok());
    assert!(rt; store.recall(0) == Err(Fault::NothingToDo));
    assert!(rt; store.give(lease).is_err());
    expect_no_lease(rt, store, 0, Fault::NumbersSpent);
    Some(())
}

/// The same of a store that has one lease number. None: allocation failed.
fn has_one_number(rt: &impl Abort, alloc: Global) -> Option<()> {
    let Ok(fuse) = Fuse::new(alloc) else {
        return None;
    };
    let mut store = updated(rt, alloc, &fuse, u64::MAX)?;
    spends_the_numbers(rt, &mut store)
}

#[test]
fn lease_numbers_are_spent(rt: HostRuntime) {
    assert!(rt;
        has_one_number(&rt, rt.alloc()).is_some() || has_one_number(&rt, rt.alloc()).is_some()
    );
}
