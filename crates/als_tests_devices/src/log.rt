use als_disk::{BlockDisk, FailingDisk, Fuse, MemDisk};
use als_log::{Fault, LocalLog, NewLog};
use als_record::{Lsn, Record, decode, encode};
use std::alloc::Global;
use std::process::Abort;
use std::test::Fail;

// The header of a log of a database of four pages, and one transaction: an update at 16, a commit
// at 52 and an end at 80.
const HEADER: [u8; 16] = *b"ALSLOG01\x00\x00\x00\x04\x00\x00\x00\x00";

const UPDATE: [u8; 36] = [
    0, 0, 0, 0x24, 1, 0, 0, 0, 0, 0, 0, 0, 0, 0, 0, 0x10, 0, 0, 0, 0, 0, 0, 0, 0, 0, 0, 0, 1, 0, 0,
    0, 0, 0, 0xff, 1, 0xaa,
];

const COMMIT: [u8; 28] = [
    0, 0, 0, 0x1c, 3, 0, 0, 0, 0, 0, 0, 0, 0, 0, 0, 0x34, 0, 0, 0, 0, 0, 0, 0, 0x10, 0, 0, 0, 1,
];

const END: [u8; 28] = [
    0, 0, 0, 0x1c, 5, 0, 0, 0, 0, 0, 0, 0, 0, 0, 0, 0x50, 0, 0, 0, 0, 0, 0, 0, 0x34, 0, 0, 0, 1,
];

// A commit at some offset.
fn commit_at(at: Lsn) -> [u8; 28] {
    let mut bytes = COMMIT;
    bytes[8..16].copy_from_slice(&at.0.to_be_bytes());
    bytes
}

// The memory of an empty log of a database of four pages, made again where allocation fails once.
fn new_log(rt: &impl Abort, alloc: Global) -> NewLog {
    for _ in 0..2 {
        match NewLog::new(alloc, 4) {
            Ok(new) => return new,
            Err(fault) => assert!(rt; fault == Fault::Memory),
        }
    }
    panic!(rt; "memory is refused twice")
}

// An empty log of a database of four pages. A device that fails once is met by further tries.
fn formatted<D: BlockDisk + Drop>(rt: &impl Abort, alloc: Global, mut disk: D) -> LocalLog<D> {
    for _ in 0..3 {
        let blocks = disk.blocks();
        assert!(rt; 1 <= blocks && blocks <= 4194304);
        match LocalLog::lay_out(disk, new_log(rt, alloc)) {
            Ok(log) => return log,
            Err(failed) => {
                assert!(rt; failed.blocks() == blocks);
                disk = failed;
            }
        }
    }
    panic!(rt; "the device fails each time")
}

// Appends the record of these bytes, and tells what is answered. A refusal leaves the log as it
// was.
fn append<D: BlockDisk + Drop>(
    rt: &impl Abort,
    alloc: Global,
    log: &mut LocalLog<D>,
    bytes: &[u8],
    reserve_after: u64,
) -> Result<(), Fault> {
    let end = log.end();
    match decode(alloc, bytes, end, log.pages()) {
        Ok(Some((logged, _))) => {
            let answer = log.append(&logged, reserve_after);
            if answer.is_err() {
                assert!(rt; log.end().0 == end.0);
            }
            answer
        }
        _ => panic!(rt; "not a record"),
    }
}

// Appends the record of these bytes, again where allocation fails once.
fn put<D: BlockDisk + Drop>(rt: &impl Abort, alloc: Global, log: &mut LocalLog<D>, bytes: &[u8]) {
    if let Err(fault) = append(rt, alloc, log, bytes, 0) {
        assert!(rt; fault == Fault::Memory);
        assert!(rt; append(rt, alloc, log, bytes, 0).is_ok());
    }
}

// Writes a block, again where the device fails.
fn write<D: BlockDisk + Drop>(rt: &impl Abort, log: &mut LocalLog<D>) {
    let before = log.written();
    for _ in 0..3 {
        match log.write_block() {
            Ok(()) => return,
            Err(fault) => {
                assert!(rt; fault == Fault::Device);
                assert!(rt; log.written().0 == before.0);
            }
        }
    }
    panic!(rt; "the device fails each time");
}

// Syncs, again where the device fails.
fn sync<D: BlockDisk + Drop>(rt: &impl Abort, log: &mut LocalLog<D>) {
    let before = log.synced();
    for _ in 0..3 {
        match log.sync() {
            Ok(()) => return,
            Err(fault) => {
                assert!(rt; fault == Fault::Device);
                assert!(rt; log.synced().0 == before.0);
            }
        }
    }
    panic!(rt; "the device fails each time");
}

// What stands in block 0, again where the device fails.
fn first_block<D: BlockDisk + Drop>(rt: &impl Abort, mut disk: D) -> [u8; 512] {
    assert!(rt; 0 < disk.blocks());
    let mut block = [0; 512];
    if disk.read(0, &mut block).is_err() {
        assert!(rt; disk.read(0, &mut block).is_ok());
    }
    block
}

// The log's end, and how far it is written and synced.
fn expect_ends<D: BlockDisk + Drop>(
    rt: &impl Abort,
    log: &LocalLog<D>,
    end: u64,
    written: u64,
    synced: u64,
) {
    assert!(rt; log.end().0 == end);
    assert!(rt; log.written().0 == written);
    assert!(rt; log.synced().0 == synced);
}

// One transaction is appended, written, and synced, the last record by itself.
fn put_transaction<D: BlockDisk + Drop>(rt: &impl Abort, alloc: Global, log: &mut LocalLog<D>) {
    expect_ends(rt, log, 16, 16, 16);
    put(rt, alloc, log, &UPDATE);
    put(rt, alloc, log, &COMMIT);
    expect_ends(rt, log, 80, 16, 16);
    write(rt, log);
    expect_ends(rt, log, 80, 80, 16);
    put(rt, alloc, log, &END);
    sync(rt, log);
    expect_ends(rt, log, 108, 80, 80);
    write(rt, log);
    sync(rt, log);
    expect_ends(rt, log, 108, 108, 108);
    assert!(rt; log.write_block() == Err(Fault::NothingToDo));
}

// What then stands in block 0.
fn block_of_transaction() -> [u8; 512] {
    let mut block = [0; 512];
    block[..16].copy_from_slice(&HEADER);
    block[16..52].copy_from_slice(&UPDATE);
    block[52..80].copy_from_slice(&COMMIT);
    block[80..108].copy_from_slice(&END);
    block
}

// The same, and the block.
fn one_transaction<D: BlockDisk + Drop>(rt: &impl Abort, alloc: Global, mut log: LocalLog<D>) {
    put_transaction(rt, alloc, &mut log);
    let block = first_block(rt, log.into_disk());
    assert!(rt; block.as_slice() == block_of_transaction().as_slice());
}

#[test]
fn a_transaction_reaches_the_device(rt: HostRuntime) {
    let disk = MemDisk::new(rt.alloc(), 2);
    let log = formatted(&rt, rt.alloc(), disk);
    one_transaction(&rt, rt.alloc(), log);
}

// A fuse, again where allocation fails once.
fn fuse_of(alloc: Global) -> Result<Fuse, Fail> {
    match Fuse::new(alloc) {
        Ok(fuse) => Ok(fuse),
        Err(_) => Ok(Fuse::new(alloc)?),
    }
}

#[test]
fn each_device_call_fails_in_turn(rt: HostRuntime) -> Result<(), Fail> {
    for call in 1..=8 {
        let fuse = fuse_of(rt.alloc())?;
        let disk = FailingDisk::new(MemDisk::new(rt.alloc(), 2), fuse.clone()?);
        assert!(rt; 0 < call);
        fuse.fail_at(call);
        let log = formatted(&rt, rt.alloc(), disk);
        one_transaction(&rt, rt.alloc(), log);
    }
    Ok(())
}

// Appends so many commits.
fn fill<D: BlockDisk + Drop>(rt: &impl Abort, alloc: Global, log: &mut LocalLog<D>, count: usize) {
    for _ in 0..count {
        let bytes = commit_at(log.end());
        put(rt, alloc, log, &bytes);
    }
}

// A log on a device of so many blocks, with so many commits.
fn commits(rt: &impl Abort, alloc: Global, blocks: u64, count: usize) -> LocalLog<MemDisk> {
    let mut log = formatted(rt, alloc, MemDisk::new(alloc, blocks));
    fill(rt, alloc, &mut log, count);
    log
}

#[test]
fn a_record_over_two_blocks_is_synced_when_it_is_whole(rt: HostRuntime) {
    let mut log = commits(&rt, rt.alloc(), 2, 18);
    expect_ends(&rt, &log, 520, 16, 16);
    write(&rt, &mut log);
    expect_ends(&rt, &log, 520, 512, 16);
    sync(&rt, &mut log);
    expect_ends(&rt, &log, 520, 512, 492);
    write(&rt, &mut log);
    expect_ends(&rt, &log, 520, 520, 492);
    sync(&rt, &mut log);
    expect_ends(&rt, &log, 520, 520, 520);
}

// The record of these bytes is not appended, for the log is full.
fn expect_full<D: BlockDisk + Drop>(
    rt: &impl Abort,
    alloc: Global,
    log: &mut LocalLog<D>,
    bytes: &[u8],
    reserve_after: u64,
) {
    assert!(rt; append(rt, alloc, log, bytes, reserve_after) == Err(Fault::LogFull));
}

#[test]
fn a_full_log_takes_no_record(rt: HostRuntime) {
    let mut log = commits(&rt, rt.alloc(), 1, 16);
    let bytes = commit_at(log.end());
    expect_full(&rt, rt.alloc(), &mut log, &bytes, u64::MAX);
    expect_full(&rt, rt.alloc(), &mut log, &bytes, 21);
    put(&rt, rt.alloc(), &mut log, &bytes);
    let bytes = commit_at(log.end());
    expect_full(&rt, rt.alloc(), &mut log, &bytes, 0);
    assert!(rt; log.end().0 == 492);
}

#[test]
fn what_is_reserved_takes_no_memory(rt: HostRuntime) {
    let mut log = commits(&rt, rt.alloc(), 2, 0);
    let bytes = commit_at(log.end());
    if log.reserve(28).is_err() {
        assert!(rt; log.reserve(28).is_ok());
    }
    assert!(rt; append(&rt, rt.alloc(), &mut log, &bytes, 0).is_ok());
    assert!(rt; Fault::LogFull.number() == 29);
    assert!(rt; Fault::LogFull.name() == "LogFull");
}

// The record at an offset, again where the device fails. No record here takes memory to be read.
fn found_at<D: BlockDisk + Drop>(
    rt: &impl Abort,
    log: &mut LocalLog<D>,
    at: u64,
) -> Option<Record> {
    for _ in 0..3 {
        match log.read_at(Lsn(at)) {
            Ok(found) => return found,
            Err(fault) => assert!(rt; fault == Fault::Device),
        }
    }
    panic!(rt; "the device fails each time")
}

// A record with these bytes stands there.
fn expect_record<D: BlockDisk + Drop>(
    rt: &impl Abort,
    alloc: Global,
    log: &mut LocalLog<D>,
    at: u64,
    bytes: &[u8],
) {
    match found_at(rt, log, at) {
        Some(found) => {
            let mut out = Vec::new(alloc);
            if encode(&found, &mut out).is_err() {
                assert!(rt; encode(&found, &mut out).is_ok());
            }
            assert!(rt; out.as_slice() == bytes, "{at}");
        }
        None => panic!(rt; "no record at {at}"),
    }
}

// The places of commits, out of order, and places where none stands.
fn expect_commits<D: BlockDisk + Drop>(rt: &impl Abort, alloc: Global, log: &mut LocalLog<D>) {
    for at in [16, 44, 492, 996, 1024, 1108, 464, 492, 16] {
        expect_record(rt, alloc, log, at, &commit_at(Lsn(at)));
    }
    for at in [0, 15, 17, 43, 511, 512, 1107, 1109, 1136, u64::MAX] {
        assert!(rt; found_at(rt, log, at).is_none(), "{at}");
    }
}

#[test]
fn records_are_read_back(rt: HostRuntime) {
    let mut log = commits(&rt, rt.alloc(), 3, 40);
    expect_commits(&rt, rt.alloc(), &mut log);
    for _ in 0..3 {
        write(&rt, &mut log);
    }
    expect_commits(&rt, rt.alloc(), &mut log);
    sync(&rt, &mut log);
    assert!(rt; log.synced().0 == 1136);
    expect_commits(&rt, rt.alloc(), &mut log);
}

// The record at an offset where one stands, read with no walk.
fn read_again<D: BlockDisk + Drop>(log: &mut LocalLog<D>, at: u64) -> Option<Record> {
    match log.read_at(Lsn(at)) {
        Ok(Some(_)) => log.record(Lsn(at)).ok()?,
        _ => None,
    }
}

#[test]
fn a_record_is_read_with_no_walk(rt: HostRuntime) {
    let mut log = commits(&rt, rt.alloc(), 3, 40);
    let Some(found) = read_again(&mut log, 996) else {
        panic!(rt; "no record at 996")
    };
    assert!(rt; found.lsn.0 == 996);
    write(&rt, &mut log);
    write(&rt, &mut log);
    sync(&rt, &mut log);
    let Some(found) = read_again(&mut log, 492) else {
        panic!(rt; "no record at 492")
    };
    assert!(rt; found.lsn.0 == 492);
}

// Whether a record stands at an offset, read by one try. `None`: the reading is refused.
fn stands_at<D: BlockDisk + Drop>(log: &mut LocalLog<D>, at: u64) -> Option<bool> {
    match log.read_at(Lsn(at)) {
        Ok(found) => Some(found.is_some()),
        Err(_) => None,
    }
}

#[test]
fn a_reading_takes_no_memory(rt: HostRuntime) {
    let mut log = commits(&rt, rt.alloc(), 3, 40);
    assert!(rt; stands_at(&mut log, 996) == Some(true));
    write(&rt, &mut log);
    write(&rt, &mut log);
    sync(&rt, &mut log);
    assert!(rt; stands_at(&mut log, 492) == Some(true));
    assert!(rt; stands_at(&mut log, 493) == Some(false));
}

#[test]
fn a_reading_fails_with_the_device(rt: HostRuntime) -> Result<(), Fail> {
    let fuse = fuse_of(rt.alloc())?;
    let disk = FailingDisk::new(MemDisk::new(rt.alloc(), 3), fuse.clone()?);
    let mut log = formatted(&rt, rt.alloc(), disk);
    fill(&rt, rt.alloc(), &mut log, 40);
    for _ in 0..3 {
        write(&rt, &mut log);
    }
    sync(&rt, &mut log);
    fuse.fail_at(1);
    assert!(rt; log.read_at(Lsn(16)).err() == Some(Fault::Device));
    expect_commits(&rt, rt.alloc(), &mut log);
    Ok(())
}

// Whether a record is read at an offset, by one try with no walk.
fn is_read<D: BlockDisk + Drop>(log: &mut LocalLog<D>, at: u64) -> bool {
    match log.record(Lsn(at)) {
        Ok(found) => found.is_some(),
        Err(_) => false,
    }
}

// The record at 492 lies in the first two blocks, the one at 996 in the second and the third, which
// memory has.
#[test]
fn a_block_that_was_read_serves_all_its_records(rt: HostRuntime) -> Result<(), Fail> {
    let fuse = fuse_of(rt.alloc())?;
    let disk = FailingDisk::new(MemDisk::new(rt.alloc(), 3), fuse.clone()?);
    let mut log = formatted(&rt, rt.alloc(), disk);
    fill(&rt, rt.alloc(), &mut log, 40);
    for _ in 0..3 {
        write(&rt, &mut log);
    }
    sync(&rt, &mut log);
    assert!(rt; is_read(&mut log, 16));
    fuse.fail_at(1);
    for at in [16, 464, 44, 1024, 1108] {
        assert!(rt; is_read(&mut log, at), "{at}");
    }
    assert!(rt; !is_read(&mut log, 492));
    assert!(rt; is_read(&mut log, 492));
    fuse.fail_at(1);
    for at in [996, 520, 492, 16, 968] {
        assert!(rt; is_read(&mut log, at), "{at}");
    }
    Ok(())
}

fn can_be_sent<T: Send + Drop>(_: T) {}

#[test]
fn a_log_can_be_sent(rt: HostRuntime) {
    can_be_sent(commits(&rt, rt.alloc(), 1, 0));
}
