ghost use Rattle.std.specs.Prelude.{◌≡◌, ◌<◌, ◌≤◌};
ghost use Rattle.als_page.specs.Page.{id_of, state_of};

use als_disk::{BlockDisk, FailingDisk, Fuse, MemDisk};
use als_frames::{
    Fault, Frames, Lent, mark_changes_no_page, record_changes_no_page, synced_lsn_is_spelled,
};
use als_page::Page;
use als_record::{Change, Image, ImageView, KeptImage, Key, Lsn, Value};
use std::alloc::Global;
use std::process::Abort;
use std::test::Fail;

// Empty pages, again where the device fails.
fn formatted<D: BlockDisk + Drop>(rt: &impl Abort, alloc: Global, disk: D, most: usize) -> Frames<D>
    ensures { result.paged.pages ≡ 4 }
{
    let mut disk = disk;
    for _ in 0..3 {
        assert!(rt; 4 <= disk.blocks());
        match Frames::format(alloc, disk, 4, most) {
            Ok(frames) => return frames,
            Err(unformatted) => {
                assert!(rt; unformatted.fault == Fault::Device);
                disk = unformatted.disk;
            }
        }
    }
    panic!(rt; "the device fails each time");
}

// Makes room for one more frame, again where allocation fails once.
fn reserve<D: BlockDisk + Drop>(rt: &impl Abort, frames: &mut Frames<D>)
    ensures same { frames.new.paged ≡ frames.old.paged }
    ensures room { 0 < frames.new.spare }
{
    if let Ok(()) = frames.reserve() {
        return;
    }
    match frames.reserve() {
        Ok(()) => {}
        Err(_) => panic!(rt; "no memory"),
    }
}

// Makes a page resident in a log with this end.
fn load_once<D: BlockDisk + Drop>(
    rt: &impl Abort,
    frames: &mut Frames<D>,
    page: u32,
    end: u64,
) -> Result<(), Fault> {
    assert!(rt; page < frames.pages());
    if frames.is_resident(page) {
        return Ok(());
    }
    let found = frames.fetch(page, Lsn(end))?;
    reserve(rt, frames);
    frames.put(found);
    Ok(())
}

// The same, again where the device fails.
fn load<D: BlockDisk + Drop>(
    rt: &impl Abort,
    frames: &mut Frames<D>,
    page: u32,
    end: u64,
) -> Result<(), Fault> {
    for _ in 0..3 {
        let answer = load_once(rt, frames, page, end);
        if answer != Err(Fault::Device) {
            return answer;
        }
        assert!(rt; frames.frame(page).is_none());
    }
    panic!(rt; "the device fails each time");
}

// Writes a page, again where the device fails.
fn write<D: BlockDisk + Drop>(rt: &impl Abort, frames: &mut Frames<D>, page: u32) {
    for _ in 0..3 {
        match frames.write(page) {
            Ok(()) => return,
            Err(fault) => assert!(rt; fault == Fault::Device),
        }
    }
    panic!(rt; "the device fails each time");
}

// Syncs, again where the device fails.
fn sync<D: BlockDisk + Drop>(rt: &impl Abort, frames: &mut Frames<D>) {
    for _ in 0..3 {
        match frames.sync() {
            Ok(()) => return,
            Err(fault) => assert!(rt; fault == Fault::Device),
        }
    }
    panic!(rt; "the device fails each time");
}

// A value of one byte.
fn one_byte(byte: u8) -> Image {
    let mut value = Value::new();
    match value.try_push(byte) {
        Ok(()) => Some(value),
        Err(_) => None,
    }
}

// A page with an update of its slot 0 by the record at an offset.
fn redone(rt: &impl Abort, found: &Page, at: u64) -> Page
    ensures number { id_of result ≡ id_of found.now }
    ensures newer { (state_of found.now).lsn ≤ (state_of result).lsn }
{
    assert!(rt; 16 <= at && found.lsn().0 < at);
    let mut page = *found;
    page.redo(&Change {
        lsn: Lsn(at),
        key: Key {
            page: found.id(),
            slot: 0,
        },
        after: KeptImage::of(&ImageView::of(&one_byte(0xaa))),
    });
    page
}

// Lends a page, redoes an update of its slot 0 by the record at an offset, and takes it back.
fn redo<D: BlockDisk + Drop>(rt: &impl Abort, frames: &mut Frames<D>, page: u32, at: u64) {
    let Some(found) = frames.frame(page) else {
        panic!(rt; "not resident");
    };
    let page_then = redone(rt, found, at);
    assert!(rt; frames.lent_of(page).is_none());
    frames.lend(
        page,
        Lent {
            number: 7,
            count: 1,
        },
    );
    frames.take_back(page, &page_then);
}

// The page_LSNs of a page: now, last written, last synced.
fn expect_lsns<D: BlockDisk + Drop>(
    rt: &impl Abort,
    frames: &Frames<D>,
    page: u32,
    now: u64,
    written: u64,
    synced: u64,
) {
    match frames.lsns(page) {
        Some(lsns) => {
            assert!(rt; lsns.now.0 == now);
            assert!(rt; lsns.written.0 == written);
            assert!(rt; lsns.synced.0 == synced);
        }
        None => panic!(rt; "page {page} is not resident"),
    }
}

// The page that a page with no frame has in its block, again where the device fails.
fn stored<D: BlockDisk + Drop>(rt: &impl Abort, frames: &mut Frames<D>, page: u32) -> Page {
    for _ in 0..3 {
        assert!(rt; page < frames.pages());
        match frames.stored(page) {
            Ok(found) => return found,
            Err(fault) => assert!(rt; fault == Fault::Device),
        }
    }
    panic!(rt; "the device fails each time");
}

// The block of a page is refused.
fn expect_bad_page<D: BlockDisk + Drop>(rt: &impl Abort, frames: &mut Frames<D>, page: u32) {
    assert!(rt; page < frames.pages());
    match frames.stored(page) {
        Ok(_) => panic!(rt; "page {page} is taken"),
        Err(fault) => assert!(rt; fault == Fault::BadPage { page }),
    }
}

// Nothing is to be written of a page.
fn expect_nothing_to_write<D: BlockDisk + Drop>(
    rt: &impl Abort,
    frames: &mut Frames<D>,
    page: u32,
) {
    assert!(rt; frames.write(page) == Err(Fault::NothingToDo));
}

// A page becomes resident in a log with this end.
fn expect_loaded<D: BlockDisk + Drop>(
    rt: &impl Abort,
    frames: &mut Frames<D>,
    page: u32,
    end: u64,
) {
    assert!(rt; load(rt, frames, page, end).is_ok());
}

// Whether a page has a frame.
fn has_frame<D: BlockDisk + Drop>(frames: &Frames<D>, page: u32) -> bool {
    frames.frame(page).is_some()
}

// Pages become resident in turn in a log with this end.
fn expect_each_loaded<D: BlockDisk + Drop>(
    rt: &impl Abort,
    frames: &mut Frames<D>,
    pages: &[u32],
    end: u64,
) {
    for page in pages {
        expect_loaded(rt, frames, *page, end);
        assert!(rt; has_frame(frames, *page));
    }
}

// A page finds no frame.
fn expect_pool_full<D: BlockDisk + Drop>(rt: &impl Abort, frames: &mut Frames<D>, page: u32) {
    assert!(rt; load(rt, frames, page, 108) == Err(Fault::PoolFull));
}

// A page is no page of a log with this end.
fn expect_not_loaded<D: BlockDisk + Drop>(
    rt: &impl Abort,
    frames: &mut Frames<D>,
    page: u32,
    end: u64,
) {
    assert!(rt; load(rt, frames, page, end) == Err(Fault::BadPage { page }));
}

// A page with no frame has the update of its slot 0 by the record at an offset in its block.
fn expect_stored<D: BlockDisk + Drop>(rt: &impl Abort, frames: &mut Frames<D>, page: u32, at: u64) {
    let found = stored(rt, frames, page);
    assert!(rt; found.lsn().0 == at);
    assert!(rt; found.image(0) == one_byte(0xaa));
}

// Page 0 is changed, written and synced; until then it keeps the one frame.
fn keeps_its_frame<D: BlockDisk + Drop>(rt: &impl Abort, frames: &mut Frames<D>) {
    expect_nothing_to_write(rt, frames, 0);
    expect_loaded(rt, frames, 0, 108);
    expect_nothing_to_write(rt, frames, 0);
    redo(rt, frames, 0, 16);
    expect_lsns(rt, frames, 0, 16, 0, 0);
    expect_pool_full(rt, frames, 1);
    write(rt, frames, 0);
    expect_nothing_to_write(rt, frames, 0);
    expect_lsns(rt, frames, 0, 16, 16, 0);
    expect_pool_full(rt, frames, 1);
    sync(rt, frames);
    expect_lsns(rt, frames, 0, 16, 16, 16);
}

// Then it gives the frame to page 1, and gets it back.
fn gives_its_frame<D: BlockDisk + Drop>(rt: &impl Abort, frames: &mut Frames<D>) {
    expect_loaded(rt, frames, 1, 108);
    assert!(rt; !has_frame(frames, 0));
    expect_lsns(rt, frames, 1, 0, 0, 0);
    expect_stored(rt, frames, 0, 16);
    assert!(rt; !has_frame(frames, 0));
    expect_loaded(rt, frames, 0, 108);
    expect_lsns(rt, frames, 0, 16, 16, 16);
}

// Both, in frames of which there is one.
fn one_frame<D: BlockDisk + Drop>(rt: &impl Abort, mut frames: Frames<D>) {
    keeps_its_frame(rt, &mut frames);
    gives_its_frame(rt, &mut frames);
}

#[test]
fn a_page_reaches_the_device_and_comes_back(rt: HostRuntime) {
    let disk = MemDisk::new(rt.alloc(), 4);
    one_frame(&rt, formatted(&rt, rt.alloc(), disk, 1));
}

// A fuse, again where allocation fails once.
fn fuse_of(alloc: Global) -> Result<Fuse, Fail> {
    match Fuse::new(alloc) {
        Ok(fuse) => Ok(fuse),
        Err(_) => Ok(Fuse::new(alloc)?),
    }
}

#[test]
fn each_device_call_fails_in_turn(rt: HostRuntime) -> Result<(), Fail> {
    for call in 1..=12 {
        let fuse = fuse_of(rt.alloc())?;
        let disk = FailingDisk::new(MemDisk::new(rt.alloc(), 4), fuse.clone()?);
        assert!(rt; 0 < call);
        fuse.fail_at(call);
        one_frame(&rt, formatted(&rt, rt.alloc(), disk, 1));
    }
    Ok(())
}

#[test]
fn a_free_frame_is_taken_before_a_clean_one(rt: HostRuntime) {
    let disk = MemDisk::new(rt.alloc(), 4);
    let mut frames = formatted(&rt, rt.alloc(), disk, 2);
    expect_each_loaded(&rt, &mut frames, &[0, 1, 0, 1], 16);
    redo(&rt, &mut frames, 0, 16);
    expect_each_loaded(&rt, &mut frames, &[2, 3, 1, 2], 52);
    expect_lsns(&rt, &frames, 0, 16, 0, 0);
    assert!(rt; !has_frame(&frames, 1) && !has_frame(&frames, 3));
}

// Page 0 is lent while it is clean; its frame is not taken until the lease ends.
fn keeps_a_lent_page<D: BlockDisk + Drop>(rt: &impl Abort, mut frames: Frames<D>) {
    expect_loaded(rt, &mut frames, 0, 108);
    assert!(rt; frames.leases() == 0);
    lend(rt, &mut frames, 0);
    assert!(rt; frames.leases() == 1);
    expect_pool_full(rt, &mut frames, 1);
    recall(rt, &mut frames, 0);
    assert!(rt; frames.leases() == 0);
    expect_loaded(rt, &mut frames, 1, 108);
}

fn lend<D: BlockDisk + Drop>(rt: &impl Abort, frames: &mut Frames<D>, page: u32) {
    assert!(rt; frames.is_resident(page));
    assert!(rt; frames.lent_of(page).is_none());
    let lent = Lent {
        number: 7,
        count: 1,
    };
    frames.lend(page, lent);
    assert!(rt; frames.lent_of(page) == Some(lent));
}

fn recall<D: BlockDisk + Drop>(rt: &impl Abort, frames: &mut Frames<D>, page: u32) {
    assert!(rt; frames.lent_of(page).is_some());
    frames.recall(page);
    assert!(rt; frames.lent_of(page).is_none());
}

#[test]
fn a_lent_page_keeps_its_frame(rt: HostRuntime) {
    let disk = MemDisk::new(rt.alloc(), 4);
    keeps_a_lent_page(&rt, formatted(&rt, rt.alloc(), disk, 1));
}

// A device of which block 1 is no page, for its page_LSN is 15.
fn with_a_bad_block(rt: &impl Abort, alloc: Global) -> MemDisk
    ensures { ⟦<MemDisk as BlockDisk>⟧.block_count result ≡ 4 }
{
    let mut disk = MemDisk::new(alloc, 4);
    assert!(rt; 4 <= disk.blocks());
    let mut block = [0; 512];
    block[7] = 15;
    if disk.write(1, &block).is_err() {
        assert!(rt; disk.write(1, &block).is_ok());
    }
    disk
}

#[test]
fn a_block_that_is_no_page_of_the_log_is_refused(rt: HostRuntime) {
    let disk = with_a_bad_block(&rt, rt.alloc());
    let mut frames = Frames::open(rt.alloc(), disk, 4, 1);
    expect_not_loaded(&rt, &mut frames, 1, 108);
    expect_bad_page(&rt, &mut frames, 1);
    expect_loaded(&rt, &mut frames, 0, 16);
    redo(&rt, &mut frames, 0, 16);
    write(&rt, &mut frames, 0);
    sync(&rt, &mut frames);
    expect_loaded(&rt, &mut frames, 2, 16);
    expect_not_loaded(&rt, &mut frames, 0, 16);
    expect_lsns(&rt, &frames, 2, 0, 0, 0);
    expect_loaded(&rt, &mut frames, 0, 17);
}

#[test]
fn what_is_reserved_takes_no_memory(rt: HostRuntime) {
    let disk = MemDisk::new(rt.alloc(), 4);
    let mut frames = formatted(&rt, rt.alloc(), disk, 1);
    reserve(&rt, &mut frames);
    assert!(rt; frames.reserve().is_ok());
    assert!(rt; Fault::PoolFull.number() == 24);
    assert!(rt; Fault::BadPage { page: 1 }.number() == 33);
    assert!(rt; Fault::PoolFull.name() == "PoolFull");
}

// What stands in a block.
fn block_of<D: BlockDisk + Drop>(rt: &impl Abort, mut disk: D, page: u64) -> [u8; 512] {
    assert!(rt; page < disk.blocks());
    let mut block = [0; 512];
    assert!(rt; disk.read(page, &mut block).is_ok());
    block
}

#[test]
fn a_page_is_written_to_its_block(rt: HostRuntime) {
    let disk = MemDisk::new(rt.alloc(), 4);
    let mut frames = formatted(&rt, rt.alloc(), disk, 1);
    expect_loaded(&rt, &mut frames, 3, 16);
    redo(&rt, &mut frames, 3, 16);
    write(&rt, &mut frames, 3);
    let block = block_of(&rt, frames.into_disk(), 3);
    assert!(rt; (&block[..14]) == [0, 0, 0, 0, 0, 0, 0, 16, 0, 0, 0, 3, 0, 1].as_slice());
    assert!(rt; (&block[32..34]) == [2, 0xaa].as_slice());
}

fn can_be_sent<T: Send + Drop>(_: T) {}

#[test]
fn frames_can_be_sent(rt: HostRuntime) {
    let disk = MemDisk::new(rt.alloc(), 4);
    can_be_sent(formatted(&rt, rt.alloc(), disk, 1));
}

#[test]
fn laws_take_nothing() {
    mark_changes_no_page();
    record_changes_no_page();
    synced_lsn_is_spelled();
}
