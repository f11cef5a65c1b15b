ghost use Rattle.std.specs.Prelude.{◌≡◌, ◌≤◌, IfSome};

use crate::logs::OPEN;
use als_commits::Waiting;
use als_disk::{BlockDisk, MemDisk};
use als_record::{Fault as ShapeFault, Lsn};
use als_reopen::{Disks, Fault, reopen};
use std::alloc::Global;
use std::process::Abort;

// A log of a database of four pages with two commits, at 130 and 195. The first transaction writes
// slot 0 at 16 and slot 1 at 52, and takes the write at 52 back; the second writes slot 0 at 158.
const COMMITS: [u8; 223] = [
    0x41, 0x4c, 0x53, 0x4c, 0x4f, 0x47, 0x30, 0x31, 0, 0, 0, 4, 0, 0, 0, 0, //
    0, 0, 0, 0x24, 1, 0, 0, 0, 0, 0, 0, 0, 0, 0, 0, 0x10, 0, 0, 0, 0, 0, 0, 0, 0, 0, 0, 0, 1, 0, 0,
    0, 0, 0, 0xff, 1, 0xaa, //
    0, 0, 0, 0x24, 1, 0, 0, 0, 0, 0, 0, 0, 0, 0, 0, 0x34, 0, 0, 0, 0, 0, 0, 0, 0x10, 0, 0, 0, 1, 0,
    0, 0, 0, 1, 0xff, 1, 0xbb, //
    0, 0, 0, 0x2a, 2, 0, 0, 0, 0, 0, 0, 0, 0, 0, 0, 0x58, 0, 0, 0, 0, 0, 0, 0, 0x34, 0, 0, 0, 1, 0,
    0, 0, 0, 0, 0, 0, 0x10, 0, 0, 0, 0, 1, 0xff, //
    0, 0, 0, 0x1c, 3, 0, 0, 0, 0, 0, 0, 0, 0, 0, 0, 0x82, 0, 0, 0, 0, 0, 0, 0, 0x58, 0, 0, 0, 1, //
    0, 0, 0, 0x25, 1, 0, 0, 0, 0, 0, 0, 0, 0, 0, 0, 0x9e, 0, 0, 0, 0, 0, 0, 0, 0, 0, 0, 0, 2, 0, 0,
    0, 0, 0, 1, 1, 0xaa, 0xcc, //
    0, 0, 0, 0x1c, 3, 0, 0, 0, 0, 0, 0, 0, 0, 0, 0, 0xc3, 0, 0, 0, 0, 0, 0, 0, 0x9e, 0, 0, 0, 2,
];

// The control block of four pages that acknowledges a mark, with a checkpoint at a position in
// region 1, or none (0).
fn control_block(mark: u8, position: u8) -> [u8; 512] {
    let mut block = [0; 512];
    let front = [
        0x41, 0x4c, 0x53, 0x43, 0x54, 0x4c, 0x30, 0x31, 0, 1, 1, 0, 0, 0, 0, 4,
    ];
    block[..16].copy_from_slice(&front);
    if position != 0 {
        block[11] = 1;
    }
    block[23] = mark;
    block[31] = position;
    block
}

// A checkpoint at a position, of a log of so many commits, the last at 52, in which transaction 1
// has committed and is not ended; no page is dirty.
fn checkpoint_block(position: u8, commits: u8) -> [u8; 512] {
    let mut block = [0; 512];
    block[7] = position;
    block[11] = 1;
    block[27] = commits;
    block[35] = 52;
    block[37] = 1;
    block[43] = 1;
    block[44] = 2;
    block[52] = 52;
    block[60] = 16;
    block
}

// A device with a block at its front, and another behind that. `None`: an allocation failed.
fn device(alloc: Global, blocks: u64, first: &[u8; 512], second: &[u8; 512]) -> Option<MemDisk>
    requires { 2 ≤ blocks }
    ensures { IfSome result (λ d. ⟦<MemDisk as BlockDisk>⟧.block_count d ≡ blocks) }
{
    let mut disk = MemDisk::new(alloc, blocks);
    disk.write(0, first).ok()?;
    disk.write(1, second).ok()?;
    Some(disk)
}

// The log's bytes in a block, of which one is another.
fn log_block(at: usize, byte: u8) -> [u8; 512]
    requires { at ≤ 511 }
{
    let mut block = [0; 512];
    block[..153].copy_from_slice(&OPEN);
    block[at] = byte;
    block
}

// Three such devices. `None`: an allocation failed.
fn laid_out(
    alloc: Global,
    log: &[u8; 512],
    control: &[u8; 512],
    checkpoint: &[u8; 512],
) -> Option<Disks<MemDisk>>
    ensures log { IfSome result (λ d. ⟦<MemDisk as BlockDisk>⟧.block_count d.log ≡ 2) }
    ensures control { IfSome result (λ d. ⟦<MemDisk as BlockDisk>⟧.block_count d.control ≡ 321) }
    ensures pages { IfSome result (λ d. ⟦<MemDisk as BlockDisk>⟧.block_count d.pages ≡ 4) }
{
    Some(Disks {
        log: device(alloc, 2, log, &[0; 512])?,
        control: device(alloc, 321, control, checkpoint)?,
        pages: MemDisk::new(alloc, 4),
    })
}

// How many changes wait, and where the log ends, once three such devices are taken up; or why they
// are not. `None`: an allocation failed.
fn outcome(
    alloc: Global,
    log: &[u8; 512],
    control: &[u8; 512],
    checkpoint: &[u8; 512],
) -> Option<Result<(usize, Lsn), Fault>> {
    let disks = laid_out(alloc, log, control, checkpoint)?;
    match reopen(alloc, disks, 4, 2) {
        Ok(found) => Some(Ok((found.pool.waiting(), found.log.end()))),
        Err(refused) => match refused.fault {
            Fault::Memory => None,
            fault => Some(Err(fault)),
        },
    }
}

// The same. What is refused once for want of memory is done again.
fn found(
    rt: &impl Abort,
    alloc: Global,
    log: &[u8; 512],
    control: &[u8; 512],
    checkpoint: &[u8; 512],
) -> Result<(usize, Lsn), Fault> {
    if let Some(found) = outcome(alloc, log, control, checkpoint) {
        return found;
    }
    match outcome(alloc, log, control, checkpoint) {
        Some(found) => found,
        None => panic!(rt; "no memory"),
    }
}

// A log of which nothing is changed: byte 0 is the one that it has.
fn whole() -> [u8; 512] {
    log_block(0, 0x41)
}

#[test]
fn a_log_is_taken_up(rt: HostRuntime) {
    let found = found(&rt, rt.alloc(), &whole(), &control_block(153, 0), &[0; 512]);
    assert!(rt; found == Ok((3, Lsn(153))));
}

#[test]
fn changes_wait_from_the_checkpoint_on(rt: HostRuntime) {
    let found = found(
        &rt,
        rt.alloc(),
        &whole(),
        &control_block(153, 80),
        &checkpoint_block(80, 1),
    );
    assert!(rt; found == Ok((2, Lsn(153))));
}

#[test]
fn a_checkpoint_of_another_log_is_refused(rt: HostRuntime) {
    let found = found(
        &rt,
        rt.alloc(),
        &whole(),
        &control_block(153, 80),
        &checkpoint_block(80, 2),
    );
    assert!(rt; found == Err(Fault::BadControl));
}

#[test]
fn a_position_within_a_record_is_refused(rt: HostRuntime) {
    let found = found(
        &rt,
        rt.alloc(),
        &whole(),
        &control_block(153, 60),
        &checkpoint_block(60, 1),
    );
    assert!(rt; found == Err(Fault::BadControl));
}

#[test]
fn a_mark_within_a_record_is_refused(rt: HostRuntime) {
    let found = found(&rt, rt.alloc(), &whole(), &control_block(100, 0), &[0; 512]);
    assert!(rt; found == Err(Fault::BadControl));
}

#[test]
fn a_damaged_header_is_refused(rt: HostRuntime) {
    let found = found(
        &rt,
        rt.alloc(),
        &log_block(0, 0),
        &control_block(153, 0),
        &[0; 512],
    );
    assert!(rt; found == Err(Fault::Shape(ShapeFault::BadHeader)));
}

// The log with two commits is taken up: they wait for readers, in order, each with what survives of
// its transaction. `None`: allocation failed.
fn two_commits(alloc: Global) -> Option<Waiting> {
    let mut log = [0; 512];
    log[..223].copy_from_slice(&COMMITS);
    let disks = laid_out(alloc, &log, &control_block(223, 0), &[0; 512])?;
    let found = reopen(alloc, disks, 4, 2).ok()?;
    Some(found.into_parts().5)
}

// The next commit that waits has this LSN and one write, which gives slot 0 of page 0 a value of
// this byte.
fn expect_next(rt: &impl Abort, waiting: &mut Waiting, lsn: u64, byte: u8) -> Option<()> {
    let commit = waiting.pop()?;
    assert!(rt; (commit.lsn.0, commit.writes.len()) == (lsn, 1));
    let mut writes = commit.writes.left();
    for _ in 0..commit.writes.len() {
        let write = writes.next()?;
        assert!(rt; (write.key.page, write.key.slot) == (0, 0));
        let first = match write.after.shown().bytes {
            Some(value) => value.first().copied(),
            None => None,
        };
        assert!(rt; first == Some(byte));
    }
    Some(())
}

fn commits(rt: &impl Abort, alloc: Global) -> Option<()> {
    let mut waiting = two_commits(alloc)?;
    assert!(rt; waiting.len() == 2);
    expect_next(rt, &mut waiting, 130, 0xaa)?;
    expect_next(rt, &mut waiting, 195, 0xcc)
}

#[test]
fn the_commits_wait_for_readers(rt: HostRuntime) {
    let alloc = rt.alloc();
    assert!(rt; commits(&rt, alloc).is_some() || commits(&rt, alloc).is_some());
}
