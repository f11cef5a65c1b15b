ghost use Rattle.std.specs.Prelude.{◌≡◌, ◌≢◌, ◌<◌, ◌≤◌, ℕ, [], None, length, IfOk, IfSome};
ghost use Rattle.als_pool.specs.Queues.{pending_of};
ghost use Rattle.als_frames.specs.Frames.{frame_of};
ghost use Rattle.als_pool.specs.Outcomes.{HasPlace};

use als_disk::{BlockDisk, FailingDisk, Fuse, MemDisk};
use als_lease::PageLease;
use als_page::Page;
use als_pool::{
    Fault, NewPool, Pool, a_log_is_taken_in, change_can_be_read, change_can_be_routed,
    change_can_follow, each_row_is_exact, each_row_is_sound, leases_wait, mark_changes_nothing,
    opened_pages_are_covered, other_records_pass, other_records_wait_nowhere, pool_ends_below,
    queues_join_images, rows_make_a_checkpoint, stopped_pages_hold_images,
    unread_rows_are_the_checkpoints,
};
use als_record::{Change, Image, ImageView, KeptImage, Key, LoggedPage, Lsn, PageRows, Value};
use std::alloc::{AllocError, Global};
use std::process::Abort;
use std::test::Fail;

// Two empty pages. A call that is refused once is made again.
fn formatted<D: BlockDisk + Drop>(rt: &impl Abort, alloc: Global, disk: D, frames: usize) -> Pool<D>
    ensures { (page : ℕ) → page < 2 → (pending_of result.pool.waits page ≡ [])
        × (frame_of result.pool.frames page ≡ None) }
{
    assert!(rt; 2 <= disk.blocks());
    match Pool::format(alloc, disk, 2, frames) {
        Ok(pool) => pool,
        Err(unformatted) => match Pool::format(alloc, unformatted.disk, 2, frames) {
            Ok(pool) => pool,
            Err(_) => panic!(rt; "not laid out"),
        },
    }
}

// A value of one byte.
fn one_byte(byte: u8) -> Image {
    let mut value = Value::new();
    match value.try_push(byte) {
        Ok(()) => Some(value),
        Err(_) => None,
    }
}

// Makes room for one more change of a page.
fn reserve<D: BlockDisk>(rt: &impl Abort, pool: &mut Pool<D>, page: u32)
    requires { page < length pool.old.pool.waits }
    ensures same { pool.new.pool ≡ pool.old.pool }
    ensures place { HasPlace pool.new.room page }
{
    if let Ok(()) = pool.reserve(page) {
        return;
    }
    match pool.reserve(page) {
        Ok(()) => {}
        Err(_) => panic!(rt; "no memory"),
    }
}

// A record at an offset changes slot 0 of a page that waits for nothing.
fn route<D: BlockDisk>(rt: &impl Abort, pool: &mut Pool<D>, page: u32, at: u64)
    requires absent { frame_of pool.old.pool.frames page ≡ None }
    requires first { 16 ≤ at }
    requires none { pending_of pool.old.pool.waits page ≡ [] }
    ensures others { (p : ℕ) → p ≢ page → (pending_of pool.new.pool.waits p
        ≡ pending_of pool.old.pool.waits p)
        × (frame_of pool.new.pool.frames p ≡ frame_of pool.old.pool.frames p) }
{
    assert!(rt; page < pool.pages() && pool.waiting() < 1000);
    reserve(rt, pool, page);
    pool.route(Change {
        lsn: Lsn(at),
        key: Key { page, slot: 0 },
        after: KeptImage::of(&ImageView::of(&one_byte(0xaa))),
    });
}

// Two pages, each with one change that waits for it: at 16 of page 0, at 52 of page 1.
fn two_changes<D: BlockDisk + Drop>(
    rt: &impl Abort,
    alloc: Global,
    disk: D,
    frames: usize,
) -> Pool<D> {
    let mut pool = formatted(rt, alloc, disk, frames);
    route(rt, &mut pool, 0, 16);
    route(rt, &mut pool, 1, 52);
    pool
}

// The same on a device in memory.
fn in_memory(rt: &impl Abort, alloc: Global, frames: usize) -> Pool<MemDisk> {
    two_changes(rt, alloc, MemDisk::new(alloc, 2), frames)
}

// Lends a page, again where allocation fails once.
fn lend<D: BlockDisk>(pool: &mut Pool<D>, page: u32) -> Result<PageLease, Fault> {
    match pool.lend(page, Lsn(116)) {
        Err(Fault::Memory) => pool.lend(page, Lsn(116)),
        answer => answer,
    }
}

// A page that can be lent.
fn lent<D: BlockDisk>(rt: &impl Abort, pool: &mut Pool<D>, page: u32) -> PageLease {
    match lend(pool, page) {
        Ok(lease) => lease,
        Err(_) => panic!(rt; "page {page} is not lent"),
    }
}

// Redoes all changes of a lease.
fn finish(rt: &impl Abort, lease: &mut PageLease) {
    for _ in 0..64 {
        if !lease.redo_next() {
            break;
        }
    }
    assert!(rt; lease.finished());
}

// Gives a lease back that is out.
fn give<D: BlockDisk>(rt: &impl Abort, pool: &mut Pool<D>, lease: PageLease) {
    assert!(rt; pool.give(lease).is_ok());
}

// Gives a lease back that is not out, and has it again.
fn expect_not_given<D: BlockDisk>(rt: &impl Abort, pool: &mut Pool<D>, lease: PageLease) {
    let number = lease.number();
    match pool.give(lease) {
        Ok(()) => panic!(rt; "a lease is taken that is not out"),
        Err(same) => assert!(rt; same.number() == number),
    }
}

// Writes a page, again where the device finds no memory once.
fn flush<D: BlockDisk>(pool: &mut Pool<D>, page: u32, acknowledged: u64) -> Result<(), Fault> {
    match pool.flush_one(page, Lsn(acknowledged)) {
        Err(Fault::Device) => pool.flush_one(page, Lsn(acknowledged)),
        answer => answer,
    }
}

// All rows, again where allocation fails once.
fn rows_of<D: BlockDisk>(pool: &Pool<D>, alloc: Global) -> Result<PageRows, AllocError> {
    match pool.rows(alloc) {
        Ok(rows) => Ok(rows),
        Err(_) => pool.rows(alloc),
    }
}

// A page is redone in a lease, up to the record at an offset.
fn expect_redone<D: BlockDisk>(rt: &impl Abort, pool: &mut Pool<D>, page: u32, at: u64) {
    let mut lease = lent(rt, pool, page);
    finish(rt, &mut lease);
    assert!(rt; lease.working().lsn() == Lsn(at));
    give(rt, pool, lease);
}

// A page is not lent.
fn expect_not_lent<D: BlockDisk>(rt: &impl Abort, pool: &mut Pool<D>, page: u32, fault: Fault) {
    match lend(pool, page) {
        Ok(_) => panic!(rt; "page {page} is lent"),
        Err(why) => assert!(rt; why == fault),
    }
}

// A page is written.
fn expect_flushed<D: BlockDisk>(rt: &impl Abort, pool: &mut Pool<D>, page: u32, acknowledged: u64) {
    assert!(rt; flush(pool, page, acknowledged) == Ok(()));
}

// A page is not written.
fn expect_not_flushed<D: BlockDisk>(
    rt: &impl Abort,
    pool: &mut Pool<D>,
    page: u32,
    acknowledged: u64,
    fault: Fault,
) {
    assert!(rt; flush(pool, page, acknowledged) == Err(fault));
}

// The first row is this one.
fn expect_first_row<D: BlockDisk>(rt: &impl Abort, pool: &Pool<D>, page: u32, lsn: u64) {
    assert!(rt; pool.next_row(0) == Some(row(page, lsn)));
}

// What waits for a page begins there.
fn expect_waits_from<D: BlockDisk>(rt: &impl Abort, pool: &Pool<D>, page: u32, lsn: u64) {
    assert!(rt; pool.waits_from(page) == Some(Lsn(lsn)));
}

// Nothing waits for a page.
fn expect_waits_for_nothing<D: BlockDisk>(rt: &impl Abort, pool: &Pool<D>, page: u32) {
    assert!(rt; pool.waits_from(page) == None);
}

fn row(page: u32, lsn: u64) -> LoggedPage {
    LoggedPage {
        page,
        rec_lsn: Lsn(lsn),
    }
}

#[test]
fn a_frame_is_free_for_another_page_after_the_sync(rt: HostRuntime) {
    let mut pool = in_memory(&rt, rt.alloc(), 1);
    expect_redone(&rt, &mut pool, 0, 16);
    expect_not_lent(&rt, &mut pool, 1, Fault::PoolFull);
    expect_flushed(&rt, &mut pool, 0, 116);
    expect_not_lent(&rt, &mut pool, 1, Fault::PoolFull);
    assert!(rt; pool.sync_pages().is_ok());
    expect_redone(&rt, &mut pool, 1, 52);
    assert!(rt; pool.waiting() == 0);
}

#[test]
fn a_page_is_flushed_when_its_record_is_acknowledged(rt: HostRuntime) {
    let mut pool = in_memory(&rt, rt.alloc(), 2);
    expect_not_flushed(&rt, &mut pool, 0, 116, Fault::NothingToDo);
    expect_redone(&rt, &mut pool, 0, 16);
    expect_not_flushed(&rt, &mut pool, 0, 16, Fault::LogBehind);
    expect_flushed(&rt, &mut pool, 0, 17);
    expect_not_flushed(&rt, &mut pool, 0, 17, Fault::NothingToDo);
    expect_not_flushed(&rt, &mut pool, 7, 17, Fault::NothingToDo);
}

// The rows of two pages that each wait for one change.
fn expect_rows_of_two_changes<D: BlockDisk>(
    rt: &impl Abort,
    pool: &Pool<D>,
    alloc: Global,
) -> Result<(), AllocError> {
    let rows = rows_of(pool, alloc)?;
    assert!(rt; rows.as_slice() == [row(0, 16), row(1, 52)].as_slice());
    Ok(())
}

#[test]
fn rows_move_at_the_sync(rt: HostRuntime) -> Result<(), Fail> {
    let mut pool = in_memory(&rt, rt.alloc(), 2);
    expect_rows_of_two_changes(&rt, &pool, rt.alloc())?;
    expect_redone(&rt, &mut pool, 0, 16);
    expect_flushed(&rt, &mut pool, 0, 116);
    expect_first_row(&rt, &pool, 0, 16);
    assert!(rt; pool.sync_pages().is_ok());
    expect_first_row(&rt, &pool, 1, 52);
    assert!(rt; 0 < pool.pages());
    assert!(rt; pool.rec_lsn(0).is_none());
    Ok(())
}

#[test]
fn a_page_past_the_end_is_refused(rt: HostRuntime) {
    let mut pool = in_memory(&rt, rt.alloc(), 2);
    match pool.lend(1, Lsn(0)) {
        Ok(_) => panic!(rt; "a page past the end is lent"),
        Err(why) => assert!(rt; why == Fault::BadPage { page: 1 }),
    }
    assert!(rt; pool.waiting() == 2);
    expect_redone(&rt, &mut pool, 1, 52);
}

#[test]
fn what_waits_is_redone_once(rt: HostRuntime) {
    let mut pool = in_memory(&rt, rt.alloc(), 2);
    assert!(rt; pool.waiting() == 2);
    assert!(rt; pool.next_pending(0) == Some(0));
    expect_redone(&rt, &mut pool, 0, 16);
    expect_not_lent(&rt, &mut pool, 0, Fault::NothingToDo);
    expect_not_lent(&rt, &mut pool, 2, Fault::NothingToDo);
    assert!(rt; pool.next_pending(0) == Some(1));
    assert!(rt; pool.waiting() == 1);
}

// While a page is lent, it keeps its frame, its content and what waits for it.
fn expect_kept<D: BlockDisk>(rt: &impl Abort, pool: &mut Pool<D>) {
    expect_not_lent(rt, pool, 0, Fault::PageLent);
    expect_not_flushed(rt, pool, 0, 116, Fault::PageLent);
    expect_not_lent(rt, pool, 1, Fault::PoolFull);
    assert!(rt; pool.waiting() == 2);
    assert!(rt; page_of(rt, pool, 0).lsn() == Lsn(0));
}

#[test]
fn a_lent_page_is_kept_until_it_is_given(rt: HostRuntime) {
    let mut pool = in_memory(&rt, rt.alloc(), 1);
    let mut lease = lent(&rt, &mut pool, 0);
    expect_kept(&rt, &mut pool);
    assert!(rt; pool.leases() == 1);
    assert!(rt; lease.batch().len() == 1);
    finish(&rt, &mut lease);
    expect_kept(&rt, &mut pool);
    give(&rt, &mut pool, lease);
    assert!(rt; pool.leases() == 0);
    assert!(rt; page_of(&rt, &mut pool, 0).lsn() == Lsn(16));
}

// A lease is recalled, and another one is out instead.
fn recalled<D: BlockDisk>(rt: &impl Abort, pool: &mut Pool<D>) -> PageLease {
    let first = lent(rt, pool, 0);
    assert!(rt; pool.recall(0) == Ok(()));
    assert!(rt; pool.recall(0) == Err(Fault::NothingToDo));
    first
}

#[test]
fn a_recalled_lease_is_refused(rt: HostRuntime) {
    let mut pool = in_memory(&rt, rt.alloc(), 2);
    let mut first = recalled(&rt, &mut pool);
    finish(&rt, &mut first);
    let second = lent(&rt, &mut pool, 0);
    assert!(rt; first.number() == 1 && second.number() == 2);
    expect_not_given(&rt, &mut pool, first);
    give(&rt, &mut pool, second);
    expect_redone(&rt, &mut pool, 0, 16);
}

// Two empty pages, whose first lease gets this number.
fn try_numbered(alloc: Global, first: u64) -> Option<Pool<MemDisk>>
    ensures { IfSome result (λ p. (page : ℕ) → page < 2 → (pending_of p.pool.waits page ≡ [])
        × (frame_of p.pool.frames page ≡ None)) }
{
    let Ok(new) = NewPool::numbered(alloc, 2, first) else {
        return None;
    };
    match Pool::lay_out(MemDisk::new(alloc, 2), new, 2) {
        Ok(pool) => Some(pool),
        Err(_) => None,
    }
}

// The same, again where allocation fails once.
fn numbered(rt: &impl Abort, alloc: Global, first: u64) -> Pool<MemDisk>
    ensures { (page : ℕ) → page < 2 → (pending_of result.pool.waits page ≡ [])
        × (frame_of result.pool.frames page ≡ None) }
{
    if let Some(pool) = try_numbered(alloc, first) {
        return pool;
    }
    match try_numbered(alloc, first) {
        Some(pool) => pool,
        None => panic!(rt; "not laid out"),
    }
}

#[test]
fn the_last_number_is_given_once(rt: HostRuntime) {
    let mut pool = numbered(&rt, rt.alloc(), u64::MAX);
    route(&rt, &mut pool, 0, 16);
    route(&rt, &mut pool, 1, 52);
    let lease = lent(&rt, &mut pool, 0);
    assert!(rt; lease.number() == u64::MAX);
    expect_not_lent(&rt, &mut pool, 1, Fault::NumbersSpent);
    give(&rt, &mut pool, lease);
    expect_not_lent(&rt, &mut pool, 0, Fault::NumbersSpent);
}

// A page as it is now.
fn page_of<D: BlockDisk>(rt: &impl Abort, pool: &mut Pool<D>, page: u32) -> Page {
    assert!(rt; page < pool.pages());
    match pool.page_now(page) {
        Ok(found) => found,
        Err(_) => panic!(rt; "page {page} is refused"),
    }
}

#[test]
fn a_page_is_shown_from_its_frame_or_its_block(rt: HostRuntime) {
    let mut pool = in_memory(&rt, rt.alloc(), 1);
    expect_redone(&rt, &mut pool, 0, 16);
    let framed = page_of(&rt, &mut pool, 0);
    assert!(rt; framed.lsn().0 == 16);
    assert!(rt; framed.image(0) == one_byte(0xaa));
    let stored = page_of(&rt, &mut pool, 1);
    assert!(rt; stored.lsn().0 == 0);
    assert!(rt; stored.id() == 1);
}

// What stands in a block.
fn block_of<D: BlockDisk + Drop>(rt: &impl Abort, mut disk: D, page: u64) -> [u8; 512] {
    assert!(rt; page < disk.blocks());
    let mut block = [0; 512];
    assert!(rt; disk.read(page, &mut block).is_ok());
    block
}

#[test]
fn a_page_is_written_to_its_block(rt: HostRuntime) {
    let mut pool = in_memory(&rt, rt.alloc(), 2);
    expect_redone(&rt, &mut pool, 1, 52);
    expect_flushed(&rt, &mut pool, 1, 116);
    let block = block_of(&rt, pool.into_disk(), 1);
    assert!(rt; (&block[..14]) == [0, 0, 0, 0, 0, 0, 0, 52, 0, 0, 0, 1, 0, 1].as_slice());
    assert!(rt; (&block[32..34]) == [2, 0xaa].as_slice());
}

// A fuse, again where allocation fails once.
fn fuse_of(alloc: Global) -> Result<Fuse, Fail> {
    match Fuse::new(alloc) {
        Ok(fuse) => Ok(fuse),
        Err(_) => Ok(Fuse::new(alloc)?),
    }
}

// Each kind of call of the device fails once.
fn expect_answers<D: BlockDisk>(rt: &impl Abort, pool: &mut Pool<D>, fuse: &Fuse) {
    fuse.fail_at(1);
    expect_not_lent(rt, pool, 0, Fault::Device);
    expect_redone(rt, pool, 0, 16);
    expect_first_row(rt, pool, 0, 16);
    fuse.fail_at(1);
    assert!(rt; pool.flush_one(0, Lsn(116)) == Err(Fault::Device));
    expect_flushed(rt, pool, 0, 116);
    fuse.fail_at(1);
    assert!(rt; pool.sync_pages() == Err(Fault::Device));
    expect_first_row(rt, pool, 0, 16);
}

#[test]
fn a_failing_device_is_answered(rt: HostRuntime) -> Result<(), Fail> {
    let fuse = fuse_of(rt.alloc())?;
    let disk = FailingDisk::new(MemDisk::new(rt.alloc(), 2), fuse.clone()?);
    let mut pool = two_changes(&rt, rt.alloc(), disk, 1);
    expect_answers(&rt, &mut pool, &fuse);
    Ok(())
}

#[test]
fn faults_have_names(rt: HostRuntime) {
    assert!(rt; Fault::LogBehind.number() == 22);
    assert!(rt; Fault::PageLent.number() == 25);
    assert!(rt; Fault::NumbersSpent.number() == 45);
    assert!(rt; Fault::BadPage { page: 1 }.number() == 33);
    assert!(rt; Fault::LogBehind.name() == "LogBehind");
}

#[test]
fn laws_take_nothing() {
    each_row_is_sound();
    leases_wait();
    each_row_is_exact();
    change_can_be_routed();
    other_records_pass();
    mark_changes_nothing();
    other_records_wait_nowhere();
    queues_join_images();
    change_can_be_read();
    a_log_is_taken_in();
    unread_rows_are_the_checkpoints();
    rows_make_a_checkpoint();
    change_can_follow();
    pool_ends_below();
    stopped_pages_hold_images();
    opened_pages_are_covered();
}

// Two pages of a database that was laid out before, after a restart. A call that is refused once is
// made again.
fn opened<D: BlockDisk + Drop>(
    rt: &impl Abort,
    alloc: Global,
    disk: D,
    position: u64,
    rows: &[LoggedPage],
) -> Pool<D>
    ensures { (page : ℕ) → page < 2 → (pending_of result.pool.waits page ≡ [])
        × (frame_of result.pool.frames page ≡ None) }
{
    assert!(rt; 2 <= disk.blocks());
    match Pool::open(alloc, disk, 2, 2, Lsn(position), rows) {
        Ok(pool) => pool,
        Err(disk) => match Pool::open(alloc, disk, 2, 2, Lsn(position), rows) {
            Ok(pool) => pool,
            Err(_) => panic!(rt; "not opened"),
        },
    }
}

// A device on which page 1 was stored with its change at 52.
fn stored(rt: &impl Abort, alloc: Global) -> MemDisk {
    let mut pool = in_memory(rt, alloc, 2);
    expect_redone(rt, &mut pool, 1, 52);
    expect_flushed(rt, &mut pool, 1, 116);
    assert!(rt; pool.sync_pages().is_ok());
    pool.into_disk()
}

#[test]
fn what_waits_begins_at_the_row_or_the_position(rt: HostRuntime) {
    let rows = [row(1, 30), row(1, 52), row(7, 40)];
    let pool = opened(&rt, rt.alloc(), stored(&rt, rt.alloc()), 60, &rows);
    expect_waits_from(&rt, &pool, 0, 60);
    expect_waits_from(&rt, &pool, 1, 52);
    expect_waits_for_nothing(&rt, &pool, 2);
    expect_first_row(&rt, &pool, 1, 52);
    assert!(rt; pool.waiting() == 0);
}

#[test]
fn nothing_waits_from_below_the_first_record(rt: HostRuntime) {
    let pool = opened(&rt, rt.alloc(), stored(&rt, rt.alloc()), 0, &[row(0, 3)]);
    expect_waits_from(&rt, &pool, 0, 16);
    expect_waits_from(&rt, &pool, 1, 16);
    expect_first_row(&rt, &pool, 0, 16);
    assert!(rt; pool.next_row(1).is_none());
}

#[test]
fn the_first_change_from_the_position_on_is_the_row(rt: HostRuntime) {
    let mut pool = opened(&rt, rt.alloc(), stored(&rt, rt.alloc()), 60, &[]);
    route(&rt, &mut pool, 0, 80);
    expect_first_row(&rt, &pool, 0, 80);
    expect_waits_from(&rt, &pool, 0, 60);
    expect_redone(&rt, &mut pool, 0, 80);
    expect_waits_for_nothing(&rt, &pool, 0);
    expect_first_row(&rt, &pool, 0, 80);
}

#[test]
fn a_row_of_the_checkpoint_goes_when_the_page_has_all(rt: HostRuntime) {
    let mut pool = opened(&rt, rt.alloc(), stored(&rt, rt.alloc()), 60, &[row(1, 16)]);
    route(&rt, &mut pool, 1, 52);
    expect_first_row(&rt, &pool, 1, 16);
    expect_not_lent(&rt, &mut pool, 1, Fault::NothingToDo);
    assert!(rt; pool.next_row(0).is_none());
    expect_waits_for_nothing(&rt, &pool, 1);
    assert!(rt; pool.waiting() == 0);
}

fn can_be_sent<T: Send + Drop>(_: T) {}

#[test]
fn a_pool_can_be_sent(rt: HostRuntime) {
    can_be_sent(in_memory(&rt, rt.alloc(), 1));
}
