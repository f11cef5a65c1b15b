ghost use Rattle.std.specs.Prelude.{◌≡◌, ◌≤◌, ℕ, IfSome};
ghost use Rattle.als_disk.specs.Slot.{IsSettled};

use crate::logs::{ENDED, OPEN};
use als_disk::{BlockDisk, FailingDisk, Fuse, MemDisk};
use als_log::{LocalLog, NewLog};
use als_record::{Fault as ShapeFault, Lsn, TransId, TransactionRow, TransactionState, decode};
use als_scan::{Fault, Scan, Unread};
use als_validator::Validator;
use std::alloc::Global;
use std::process::Abort;
use std::test::Fail;

/// A device of two blocks to which a log appended the records of a text. `None`: a growth was
/// refused.
fn appended(alloc: Global, text: &[u8]) -> Option<MemDisk> {
    let new = NewLog::new(alloc, 4).ok()?;
    let mut log = LocalLog::lay_out(MemDisk::new(alloc, 2), new).ok()?;
    let mut rest = text.get(16..)?;
    for _ in 0..4 {
        match decode(alloc, rest, log.end(), log.pages()) {
            Ok(Some((logged, len))) => {
                log.append(&logged, 0).ok()?;
                rest = rest.get(len..)?;
            }
            _ => {}
        }
    }
    log.write_block().ok()?;
    log.sync().ok()?;
    Some(log.into_disk())
}

/// A block that begins with these bytes.
fn block_of(bytes: &[u8]) -> [u8; 512] {
    let mut block = [0; 512];
    for (place, byte) in block.iter_mut().zip(bytes.iter()) {
        *place = *byte;
    }
    block
}

/// A device of two blocks that begins with these bytes. `None`: an allocation failed.
fn disk_of(alloc: Global, bytes: &[u8]) -> Option<MemDisk> {
    let block = block_of(bytes);
    let mut disk = MemDisk::new(alloc, 2);
    disk.write(0, &block).ok()?;
    Some(disk)
}

/// A device that was synced. `None`: it failed.
fn settled<D: BlockDisk + Drop>(mut disk: D) -> Option<D>
    ensures { IfSome result (λ d. (k : ℕ) → IsSettled (D.slot d k)) }
{
    match disk.sync() {
        Ok(()) => Some(disk),
        Err(_) => None,
    }
}

/// A scan of a synced device.
fn scan_of<D: BlockDisk + Drop>(
    rt: &impl Abort,
    alloc: Global,
    disk: D,
    pages: u32,
    mark: u64,
) -> Result<Scan<D>, Unread<D>>
    requires { (k : ℕ) → IsSettled (D.slot disk k) }
{
    let blocks = disk.blocks();
    assert!(rt; blocks <= 4194304);
    assert!(rt; 16 <= mark && mark <= 512 * blocks);
    Scan::new(alloc, disk, pages, mark)
}

/// A scan of a log with the records of a text. `None`: an allocation failed.
fn scan_of_text(rt: &impl Abort, alloc: Global, text: &[u8], mark: u64) -> Option<Scan<MemDisk>> {
    let disk = settled(appended(alloc, text)?)?;
    scan_of(rt, alloc, disk, 4, mark).ok()
}

/// Where the next record stands, if there is one.
fn next_at<D: BlockDisk + Drop>(scan: &mut Scan<D>) -> Result<Option<u64>, Fault> {
    match scan.next()? {
        Some(found) => Ok(Some(found.lsn.0)),
        None => Ok(None),
    }
}

/// The scan is there, and there stands the next record. `None`: an allocation failed.
fn expect<D: BlockDisk + Drop>(rt: &impl Abort, scan: &mut Scan<D>, at: u64) -> Option<()> {
    assert!(rt; scan.end().0 == at);
    match next_at(scan) {
        Ok(found) => {
            assert!(rt; found == Some(at), "no record at {at}");
            Some(())
        }
        Err(fault) => {
            assert!(rt; fault == Fault::Memory);
            None
        }
    }
}

/// The next three records are those of the log of one ended transaction. `None`: a growth was
/// refused.
fn expect_the_ended<D: BlockDisk + Drop>(rt: &impl Abort, scan: &mut Scan<D>) -> Option<()> {
    expect(rt, scan, 16)?;
    expect(rt, scan, 52)?;
    expect(rt, scan, 80)?;
    assert!(rt; scan.end().0 == 108);
    Some(())
}

/// The log and its validator, behind the last record. `None`: an allocation failed.
fn parts_of<D: BlockDisk + Drop>(
    rt: &impl Abort,
    mut scan: Scan<D>,
) -> Option<(LocalLog<D>, Validator)> {
    match scan.next() {
        Ok(None) => match scan.into_parts() {
            Ok(parts) => Some(parts),
            Err(refused) => {
                assert!(rt; refused.fault == Fault::Memory);
                None
            }
        },
        _ => panic!(rt; "the log goes on"),
    }
}

/// Whether a record of the log stands there. `None`: the read has failed.
fn stands<D: BlockDisk + Drop>(log: &mut LocalLog<D>, at: u64) -> Option<bool> {
    match log.read_at(Lsn(at)) {
        Ok(found) => Some(found.is_some()),
        Err(_) => None,
    }
}

/// The log ends at 108, synced, and its records can be read.
fn expect_taken_up<D: BlockDisk + Drop>(rt: &impl Abort, mut log: LocalLog<D>) {
    assert!(rt; log.end().0 == 108);
    assert!(rt; log.written().0 == 108);
    assert!(rt; log.synced().0 == 108);
    assert!(rt; stands(&mut log, 52) == Some(true));
    assert!(rt; stands(&mut log, 53) == Some(false));
}

/// The log of one ended transaction is read back, and taken up again.
fn reads_the_ended(rt: &impl Abort, alloc: Global) -> Option<()> {
    let mut scan = scan_of_text(rt, alloc, &ENDED, 108)?;
    expect_the_ended(rt, &mut scan)?;
    let (log, validator) = parts_of(rt, scan)?;
    assert!(rt; validator.rows().is_empty());
    expect_taken_up(rt, log);
    Some(())
}

#[test]
fn a_log_is_read_back(rt: HostRuntime) {
    assert!(rt;
        reads_the_ended(&rt, rt.alloc()).is_some() || reads_the_ended(&rt, rt.alloc()).is_some()
    );
}

/// The next four records are those of the log of an open transaction, which is in the table beside
/// the one that has committed. `None`: an allocation failed.
fn expect_the_open<D: BlockDisk + Drop>(rt: &impl Abort, scan: &mut Scan<D>) -> Option<()> {
    expect(rt, scan, 16)?;
    expect(rt, scan, 52)?;
    expect(rt, scan, 80)?;
    expect(rt, scan, 116)?;
    expect_two_rows(rt, scan);
    Some(())
}

/// The table of that log: one transaction has committed, the other is active.
fn expect_two_rows<D: BlockDisk + Drop>(rt: &impl Abort, scan: &Scan<D>) {
    let first = TransactionRow {
        trans: TransId(1),
        state: TransactionState::Committed,
        last: Lsn(52),
        undo_next: Lsn(16),
    };
    let second = TransactionRow {
        trans: TransId(2),
        state: TransactionState::Active,
        last: Lsn(116),
        undo_next: Lsn(116),
    };
    let rows = scan.table().rows();
    assert!(rt; rows.len() == 2);
    assert!(rt; rows[0].row() == first);
    assert!(rt; rows[1].row() == second);
}

/// The log of an open transaction is read back, with its table.
fn reads_the_open(rt: &impl Abort, alloc: Global) -> Option<()> {
    let mut scan = scan_of_text(rt, alloc, &OPEN, 153)?;
    expect_the_open(rt, &mut scan)?;
    let (log, validator) = parts_of(rt, scan)?;
    assert!(rt; log.end().0 == 153);
    assert!(rt; validator.rows().len() == 2);
    Some(())
}

#[test]
fn an_open_transaction_is_read_back(rt: HostRuntime) {
    assert!(rt;
        reads_the_open(&rt, rt.alloc()).is_some() || reads_the_open(&rt, rt.alloc()).is_some()
    );
}

/// How many records a scan reads, and then what. `None`: an allocation failed.
fn counted<D: BlockDisk + Drop>(
    rt: &impl Abort,
    scan: &mut Scan<D>,
) -> Option<(u64, Option<Fault>)> {
    for count in 0..5 {
        match next_at(scan) {
            Ok(Some(_)) => {}
            Ok(None) => return Some((count, None)),
            Err(Fault::Memory) => return None,
            Err(fault) => return Some((count, Some(fault))),
        }
    }
    panic!(rt; "too many records")
}

/// What is read below a mark: how many records, and then what. `None`: an allocation failed.
fn read_below(
    rt: &impl Abort,
    alloc: Global,
    bytes: &[u8],
    pages: u32,
    mark: u64,
) -> Option<(u64, Option<Fault>)> {
    let disk = settled(disk_of(alloc, bytes)?)?;
    match scan_of(rt, alloc, disk, pages, mark) {
        Ok(mut scan) => counted(rt, &mut scan),
        Err(refused) => match refused.fault {
            Fault::Memory => None,
            fault => Some((0, Some(fault))),
        },
    }
}

/// Each byte of the log, set to another, gives a log or a numbered refusal.
fn reads_altered(rt: &impl Abort, alloc: Global) -> Option<()> {
    for at in 0..108 {
        for byte in [0, 1, 255] {
            let mut bytes = ENDED;
            if let Some(place) = bytes.get_mut(at) {
                *place = byte;
            }
            if let (_, Some(fault)) = read_below(rt, alloc, &bytes, 4, 108)? {
                let number = fault.number();
                assert!(rt; number <= 16 || number == 34, "{at} {byte}: {fault}");
            }
        }
    }
    Some(())
}

#[test]
fn altered_bytes_are_a_log_or_are_refused(rt: HostRuntime) {
    assert!(rt;
        reads_altered(&rt, rt.alloc()).is_some() || reads_altered(&rt, rt.alloc()).is_some()
    );
}

/// Below a mark so many records are read, and then this is met, or nothing. `None`: a growth was
/// refused.
fn expect_below(
    rt: &impl Abort,
    alloc: Global,
    mark: u64,
    count: u64,
    fault: Option<Fault>,
) -> Option<()> {
    let found = read_below(rt, alloc, &ENDED, 4, mark)?;
    assert!(rt; found == (count, fault), "{mark}");
    Some(())
}

/// What a mark makes of the log: between records, within one, and beyond the bytes.
fn reads_below_marks(rt: &impl Abort, alloc: Global) -> Option<()> {
    for (mark, count) in [(16, 0), (52, 1), (108, 3)] {
        expect_below(rt, alloc, mark, count, None)?;
    }
    for (mark, count) in [(17, 0), (51, 0), (79, 1), (109, 3)] {
        expect_below(rt, alloc, mark, count, Some(Fault::BadControl))?;
    }
    let beyond = Fault::Shape(ShapeFault::BadLength);
    expect_below(rt, alloc, 136, 3, Some(beyond))
}

#[test]
fn a_mark_within_a_record_is_refused(rt: HostRuntime) {
    assert!(rt;
        reads_below_marks(&rt, rt.alloc()).is_some() || reads_below_marks(&rt, rt.alloc()).is_some()
    );
    assert!(rt; Fault::BadControl.number() == 34);
    assert!(rt; Fault::BadControl.name() == "BadControl");
}

/// The header is refused. `None`: an allocation failed.
fn expect_bad_header(rt: &impl Abort, alloc: Global, bytes: &[u8], pages: u32) -> Option<()> {
    let found = read_below(rt, alloc, bytes, pages, 108)?;
    assert!(rt; found.1 == Some(Fault::Shape(ShapeFault::BadHeader)));
    Some(())
}

/// Another header, and the log of another database.
fn reads_headers(rt: &impl Abort, alloc: Global) -> Option<()> {
    let mut bytes = ENDED;
    bytes[7] = 0x32;
    expect_bad_header(rt, alloc, &bytes, 4)?;
    expect_bad_header(rt, alloc, &ENDED, 5)
}

#[test]
fn another_header_is_refused(rt: HostRuntime) {
    assert!(rt;
        reads_headers(&rt, rt.alloc()).is_some() || reads_headers(&rt, rt.alloc()).is_some()
    );
    assert!(rt; Fault::Shape(ShapeFault::BadHeader).number() == 1);
}

/// A record that may not follow: the commit names another record before it.
fn reads_invalid(rt: &impl Abort, alloc: Global) -> Option<()> {
    let mut bytes = ENDED;
    bytes[75] = 0x11;
    let found = read_below(rt, alloc, &bytes, 4, 108)?;
    match found.1 {
        Some(fault) => {
            assert!(rt; fault.number() == 8);
            assert!(rt; found.0 == 1);
            Some(())
        }
        None => panic!(rt; "the record is taken"),
    }
}

#[test]
fn a_record_that_may_not_follow_is_refused(rt: HostRuntime) {
    assert!(rt;
        reads_invalid(&rt, rt.alloc()).is_some() || reads_invalid(&rt, rt.alloc()).is_some()
    );
}

/// The read of the header fails, and is met. The device again.
fn expect_no_header<D: BlockDisk + Drop>(rt: &impl Abort, alloc: Global, disk: D) -> D
    requires { (k : ℕ) → IsSettled (D.slot disk k) }
{
    match scan_of(rt, alloc, disk, 4, 108) {
        Ok(_) => panic!(rt; "the read is met"),
        Err(refused) => {
            assert!(rt; refused.fault == Fault::Device);
            refused.disk
        }
    }
}

/// The read of the first record fails, is met once, and the scan goes on. `None`: a growth was
/// refused.
fn goes_on<D: BlockDisk + Drop>(rt: &impl Abort, fuse: &Fuse, scan: &mut Scan<D>) -> Option<()> {
    fuse.fail_at(1);
    assert!(rt; next_at(scan) == Err(Fault::Device));
    expect_the_ended(rt, scan)?;
    assert!(rt; next_at(scan) == Ok(None));
    Some(())
}

/// A read that fails is met once: the header's, and then that of the first record.
fn reads_after_failures<D: BlockDisk + Drop>(
    rt: &impl Abort,
    alloc: Global,
    fuse: &Fuse,
    disk: D,
) -> Option<()> {
    let disk = settled(disk)?;
    fuse.fail_at(1);
    let disk = settled(expect_no_header(rt, alloc, disk))?;
    let mut scan = scan_of(rt, alloc, disk, 4, 108).ok()?;
    goes_on(rt, fuse, &mut scan)?;
    let mut disk = scan.into_disk();
    assert!(rt; disk.blocks() == 2);
    Some(())
}

#[test]
fn a_failed_read_is_met_once(rt: HostRuntime) -> Result<(), Fail> {
    let fuse = Fuse::new(rt.alloc())?;
    let Some(disk) = appended(rt.alloc(), &ENDED) else {
        return Ok(());
    };
    let disk = FailingDisk::new(disk, fuse.clone()?);
    assert!(rt; reads_after_failures(&rt, rt.alloc(), &fuse, disk).is_some());
    Ok(())
}
