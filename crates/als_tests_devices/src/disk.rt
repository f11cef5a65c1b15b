ghost use Rattle.std.specs.Prelude.{◌≡◌, ◌<◌, ◌⊎◌, ℕ, List, Contains, IfOk, OnOk};

use als_disk::{
    BlockDisk, DeviceError, FailingDisk, Failure, FileDisk, FirstError, Fuse, MemDisk, Restart,
};
use std::alloc::Global;
use std::fs::{self, File, OpenOptions};
use std::process::Abort;
use std::rt::Files;
use std::test::Fail;

/// A block is written and synced, so that a crash leaves nothing else.
fn store<D: BlockDisk>(disk: &mut D, i: u64, block: &[u8; 512]) -> Result<(), DeviceError>
    requires { i < D.block_count disk.old }
    ensures count { D.block_count disk.new ≡ D.block_count disk.old }
    ensures stored { OnOk result ((content : List ℕ)
        → Contains (D.slot disk.new i).candidates content → content ≡ block.now) }
{
    disk.write(i, block)?;
    disk.sync()?;
    Ok(())
}

/// After a write that may have failed, a crash leaves nothing but what it left before or the block,
/// and a read gives nothing but what it gave before or the block.
fn overwrite<D: BlockDisk>(disk: &mut D, i: u64, block: &[u8; 512])
    requires { i < D.block_count disk.old }
    ensures count { D.block_count disk.new ≡ D.block_count disk.old }
    ensures candidates { (content : List ℕ) → Contains (D.slot disk.new i).candidates content
        → Contains (D.slot disk.old i).candidates content ⊎ (block.now ≡ content) }
    ensures readable { (content : List ℕ) → Contains (D.slot disk.new i).readable content
        → Contains (D.slot disk.old i).readable content ⊎ (block.now ≡ content) }
{
    match disk.write(i, block) {
        Ok(()) => {}
        Err(DeviceError) => {}
    }
}

/// A block filled with one byte.
fn filled(byte: u8) -> [u8; 512] {
    [byte; 512]
}

/// The first byte of a block.
fn first<D: BlockDisk>(disk: &mut D, i: u64) -> Result<u8, DeviceError>
    requires { i < D.block_count disk.old }
    ensures count { D.block_count disk.new ≡ D.block_count disk.old }
{
    let mut block = [0; 512];
    disk.read(i, &mut block)?;
    Ok(block[0])
}

/// The first byte of a block is this one.
fn expect_first<D: BlockDisk>(rt: &impl Abort, disk: &mut D, i: u64, byte: u8)
    requires { i < D.block_count disk.old }
    ensures count { D.block_count disk.new ≡ D.block_count disk.old }
{
    assert!(rt; first(disk, i) == Ok(byte));
}

/// The first bytes of three blocks.
fn firsts<D: BlockDisk>(disk: &mut D) -> Result<[u8; 3], DeviceError>
    requires { D.block_count disk.old ≡ 3 }
{
    let (zeroth, one, two) = (first(disk, 0)?, first(disk, 1)?, first(disk, 2)?);
    Ok([zeroth, one, two])
}

/// A sync is answered as failed.
fn expect_no_sync<D: BlockDisk>(rt: &impl Abort, disk: &mut D)
    ensures count { D.block_count disk.new ≡ D.block_count disk.old }
{
    assert!(rt; disk.sync() == Err(DeviceError));
}

/// Three blocks, of which the first was written three times since the last sync, the second not,
/// and the third once.
fn three(alloc: Global) -> Result<MemDisk, DeviceError>
    ensures count { IfOk result (λ disk. ⟦<MemDisk as BlockDisk>⟧.block_count disk ≡ 3) }
{
    let mut disk = MemDisk::new(alloc, 3);
    store(&mut disk, 0, &filled(10))?;
    store(&mut disk, 1, &filled(20))?;
    disk.write(0, &filled(11))?;
    disk.write(2, &filled(31))?;
    disk.write(0, &filled(11))?;
    disk.write(0, &filled(12))?;
    Ok(disk)
}

/// A crash with these picks leaves these bytes, uses so many picks, and leaves no choice. `None`:
/// allocation failed.
fn crashes_so(
    rt: &impl Abort,
    alloc: Global,
    picks: &[u8],
    left: [u8; 3],
    count: usize,
) -> Option<()> {
    let Ok(disk) = three(alloc) else {
        return None;
    };
    let (mut disk, used) = disk.crash(picks);
    assert!(rt; used == count, "{picks:?}");
    assert!(rt; firsts(&mut disk) == Ok(left), "{picks:?}");
    let (_, used_again) = disk.crash(picks);
    assert!(rt; used_again == 0, "{picks:?}");
    Some(())
}

// An allocation fails once at most: the second try meets none.
#[test]
fn a_crash_picks(rt: HostRuntime) {
    let rows: [(&[u8], [u8; 3], usize); 8] = [
        (&[], [10, 20, 0], 0),
        (&[0, 0], [10, 20, 0], 2),
        (&[1], [11, 20, 0], 1),
        (&[2, 1], [11, 20, 31], 2),
        (&[3, 0], [12, 20, 0], 2),
        (&[4, 2], [12, 20, 31], 2),
        (&[255, 255, 255, 255], [12, 20, 31], 2),
        (&[0, 1, 7], [10, 20, 31], 2),
    ];
    for (picks, left, count) in rows {
        let alloc = rt.alloc();
        assert!(rt;
            crashes_so(&rt, alloc, picks, left, count).is_some()
                || crashes_so(&rt, alloc, picks, left, count).is_some(),
            "{picks:?}"
        );
    }
}

/// How a round of a write, a sync and a read of block 0 goes: which of them failed, and what is
/// read in the end.
fn round<D: BlockDisk>(disk: &mut D, byte: u8) -> [bool; 3]
    requires { 0 < D.block_count disk.old }
    ensures count { D.block_count disk.new ≡ D.block_count disk.old }
{
    let wrote = disk.write(0, &filled(byte));
    let synced = disk.sync();
    let mut block = [0; 512];
    let read = disk.read(0, &mut block);
    [wrote.is_err(), synced.is_err(), read.is_err()]
}

/// Once a fuse is set to this call, the next two rounds go so; of the two after them only the write
/// that is call 7 fails. False also where allocation failed.
fn burns_so(alloc: Global, call: u64, now: [bool; 3], then: [bool; 3]) -> bool
    requires { 0 < call }
{
    let Ok(fuse) = Fuse::new(alloc) else {
        return false;
    };
    let Ok(same) = fuse.clone() else {
        return false;
    };
    let mut disk = FailingDisk::new(MemDisk::new(alloc, 1), same);
    let before = round(&mut disk, 1);
    fuse.fail_at(100);
    fuse.fail_at(call);
    before == [false; 3]
        && round(&mut disk, 2) == now
        && round(&mut disk, 3) == then
        && round(&mut disk, 4) == [call == 7, false, false]
        && round(&mut disk, 5) == [false; 3]
}

#[test]
fn a_fuse_fails_one_call(rt: HostRuntime) {
    let rows: [(u64, [bool; 3], [bool; 3]); 5] = [
        (1, [true, false, false], [false; 3]),
        (2, [false, true, false], [false; 3]),
        (3, [false, false, true], [false; 3]),
        (4, [false; 3], [true, false, false]),
        (7, [false; 3], [false; 3]),
    ];
    for (call, now, then) in rows {
        let alloc = rt.alloc();
        assert!(rt; 0 < call);
        assert!(rt;
            burns_so(alloc, call, now, then) || burns_so(alloc, call, now, then),
            "{call}"
        );
    }
}

/// A write over 1 that is answered as failed is read, unless the next call fails. `None`: memory
/// was refused, and where that was for this write it changed nothing.
fn is_read_though_failed<D: BlockDisk>(rt: &impl Abort, disk: &mut D, fuse: &Fuse) -> Option<()>
    requires { 0 < D.block_count disk.old }
    ensures count { D.block_count disk.new ≡ D.block_count disk.old }
{
    store(disk, 0, &filled(1)).ok()?;
    fuse.fail_at(1);
    overwrite(disk, 0, &filled(2));
    fuse.fail_at(1);
    expect_no_sync(rt, disk);
    fuse.fail_at(1);
    assert!(rt; first(disk, 0) == Err(DeviceError));
    let held = first(disk, 0);
    if held == Ok(1) {
        return None;
    }
    assert!(rt; held == Ok(2));
    Some(())
}

/// The write is not synced, so a crash may leave what stood before it, and the fuse stays that of
/// the device after the crash.
fn is_lost_by_a_crash<D: Restart + Drop>(rt: &impl Abort, disk: D, fuse: &Fuse)
    requires { 0 < D.block_count disk }
{
    fuse.fail_at(2);
    let (mut disk, used) = disk.crash(&[0]);
    assert!(rt; used == 1);
    expect_first(rt, &mut disk, 0, 1);
    expect_no_sync(rt, &mut disk);
    assert!(rt; disk.sync() == Ok(()));
}

/// Both, over a device in memory.
fn reaches_the_device(rt: &impl Abort, alloc: Global) -> Option<()> {
    let fuse = Fuse::new(alloc).ok()?;
    let mut disk = FailingDisk::new(MemDisk::new(alloc, 1), fuse.clone().ok()?);
    is_read_though_failed(rt, &mut disk, &fuse)?;
    is_lost_by_a_crash(rt, disk, &fuse);
    Some(())
}

#[test]
fn a_failed_write_reaches_the_device(rt: HostRuntime) {
    let alloc = rt.alloc();
    assert!(rt;
        reaches_the_device(&rt, alloc).is_some() || reaches_the_device(&rt, alloc).is_some()
    );
}

/// The last block of a large device is written, and a block of zeros is read. `None`: memory was
/// refused.
fn holds_zeros(rt: &impl Abort, alloc: Global) -> Option<()> {
    let mut disk = MemDisk::new(alloc, 4_194_304);
    assert!(rt; disk.blocks() == 4_194_304);
    store(&mut disk, 4_194_303, &filled(7)).ok()?;
    disk.write(4_194_303, &filled(8)).ok()?;
    let (mut disk, used) = disk.crash(&[1]);
    assert!(rt; used == 1);
    expect_first(rt, &mut disk, 4_194_303, 8);
    expect_first(rt, &mut disk, 1_000_000, 0);
    Some(())
}

#[test]
fn zeros_take_no_room(rt: HostRuntime) {
    assert!(rt; holds_zeros(&rt, rt.alloc()).is_some() || holds_zeros(&rt, rt.alloc()).is_some());
}

/// A write of block 1 that finds no memory changes nothing, and the next one is taken.
fn is_taken_again<D: BlockDisk>(rt: &impl Abort, disk: &mut D, byte: u8) -> Result<(), DeviceError>
    requires { 1 < D.block_count disk.old }
{
    let before = first(disk, 1)?;
    if disk.write(1, &filled(byte)).is_err() {
        expect_first(rt, disk, 1, before);
        disk.write(1, &filled(byte))?;
    }
    expect_first(rt, disk, 1, byte);
    Ok(())
}

#[test]
fn a_write_without_memory(rt: HostRuntime) -> Result<(), Fail> {
    let mut disk = MemDisk::new(rt.alloc(), 2);
    for byte in 1..9 {
        assert!(rt; 1 < disk.blocks());
        is_taken_again(&rt, &mut disk, byte)?;
    }
    assert!(rt; 1 < disk.blocks());
    let (mut disk, used) = disk.crash(&[3]);
    assert!(rt; used == 1);
    expect_first(&rt, &mut disk, 1, 3);
    Ok(())
}

/// A device of three blocks takes block 1, synced, and block 2. `None`: allocation failed.
fn takes_two_blocks<D: BlockDisk>(rt: &impl Abort, disk: &mut D) -> Option<()> {
    assert!(rt; disk.blocks() == 3);
    store(disk, 1, &filled(1)).ok()?;
    disk.write(2, &filled(2)).ok()?;
    expect_first(rt, disk, 2, 2);
    Some(())
}

/// They stand there.
fn expect_two_blocks<D: BlockDisk>(rt: &impl Abort, disk: &mut D) {
    assert!(rt; disk.blocks() == 3);
    assert!(rt; firsts(disk) == Ok([0, 1, 2]));
}

/// A file keeps what was written and synced until it is opened again. `None`: allocation failed.
fn keeps_in_a_file<R: Abort + AllocGlobal + Files<File = File>>(rt: &R) -> Option<()> {
    let path = "device.blk";
    let none = FirstError::new(rt.alloc()).ok()?;
    let mut disk = FileDisk::create(rt, path, 3, none.clone().ok()?).ok()?;
    takes_two_blocks(rt, &mut disk)?;
    disk.sync().ok()?;
    drop(disk);
    // What is there is never made anew.
    assert!(rt; FileDisk::create(rt, path, 3, none.clone().ok()?).is_err());
    let mut disk = FileDisk::open(rt, path, none.clone().ok()?).ok()?;
    expect_two_blocks(rt, &mut disk);
    drop(disk);
    fs::remove_file(rt, path).ok()?;
    assert!(rt; none.failure().is_none());
    assert!(rt; FileDisk::open(rt, path, none).is_err());
    Some(())
}

#[test]
fn a_file_is_a_device(rt: HostRuntime) {
    assert!(rt; keeps_in_a_file(&rt).is_some() || keeps_in_a_file(&rt).is_some());
}

/// A write of 1 to block 0 is answered as failed.
fn expect_no_write<D: BlockDisk>(rt: &impl Abort, disk: &mut D)
    requires { 0 < D.block_count disk.old }
    ensures count { D.block_count disk.new ≡ D.block_count disk.old }
{
    assert!(rt; disk.write(0, &filled(1)) == Err(DeviceError));
}

/// A device of one block whose file takes no write fails each call from the sync behind its first
/// write on. `None`: allocation failed for the write, and the device has not failed.
fn fails_from_its_first_write<D: BlockDisk>(rt: &impl Abort, disk: &mut D) -> Option<()> {
    assert!(rt; disk.blocks() == 1);
    expect_first(rt, disk, 0, 0);
    assert!(rt; disk.sync() == Ok(()));
    disk.write(0, &filled(1)).ok()?;
    expect_no_sync(rt, disk);
    if first(disk, 0).is_ok() {
        return None;
    }
    expect_no_write(rt, disk);
    expect_no_sync(rt, disk);
    Some(())
}

/// So does a file that is open for reading. `None`: allocation failed.
fn stays_failed<R: Abort + AllocGlobal + Files<File = File>>(rt: &R) -> Option<()> {
    let path = "read_only.blk";
    fs::write(rt, path, filled(0).as_slice()).ok()?;
    let file = OpenOptions::new().read(true).open(rt, path).ok()?;
    let first_error = FirstError::new(rt.alloc()).ok()?;
    let mut disk = FileDisk::over(rt.alloc(), file, first_error.clone().ok()?).ok()?;
    fails_from_its_first_write(rt, &mut disk)?;
    // EBADF: the file is not open for writing.
    let failure = first_error.failure()?;
    assert!(rt; failure == Failure::Call { number: 9 });
    fs::remove_file(rt, path).ok()
}

#[test]
fn a_file_that_failed_stays_failed(rt: HostRuntime) {
    assert!(rt; stays_failed(&rt).is_some() || stays_failed(&rt).is_some());
}

fn can_be_sent<T: Send + Drop>(_: T) {}

/// A device and its fuse may go to another thread. `None`: allocation failed.
fn are_sent(alloc: Global) -> Option<()> {
    let fuse = Fuse::new(alloc).ok()?;
    can_be_sent(FailingDisk::new(MemDisk::new(alloc, 1), fuse.clone().ok()?));
    can_be_sent(fuse);
    Some(())
}

#[test]
fn devices_can_be_sent(rt: HostRuntime) {
    assert!(rt; are_sent(rt.alloc()).is_some() || are_sent(rt.alloc()).is_some());
}
