// Devices whose control block is of version 1, which has no history. The build before histories made
// them, by these commands:
//
//     printf 'pages 4\nu 1 0 0 - aa\ncommit 1\nend 1\nu 2 0 1 - bb\n' | als make > primary.log
//     als ship --log primary.log --listen 127.0.0.1:7070
//     als standby --dir db --from 127.0.0.1:7070 --pages 4 --log-blocks 8 --workers 0
//     als takeover --dir db
//
// These are the bytes of its files. Behind them each block has zeros.
ghost use Rattle.std.specs.Prelude.{◌≡◌, ◌≤◌, IfSome, length};

use super::histories::{adopt, crashed, expect_seals, opened};
use super::*;

// The log once the takeover has ended. Its tail begins at 144, where the log was sealed.
const LOG: [u8; 214] = [
    0x41, 0x4c, 0x53, 0x4c, 0x4f, 0x47, 0x30, 0x31, 0, 0, 0, 4, 0, 0, 0, 0, 0, 0, 0, 0x24, 1, 0, 0,
    0, 0, 0, 0, 0, 0, 0, 0, 0x10, 0, 0, 0, 0, 0, 0, 0, 0, 0, 0, 0, 1, 0, 0, 0, 0, 0, 0xff, 1, 0xaa,
    0, 0, 0, 0x1c, 3, 0, 0, 0, 0, 0, 0, 0, 0, 0, 0, 0x34, 0, 0, 0, 0, 0, 0, 0, 0x10, 0, 0, 0, 1, 0,
    0, 0, 0x1c, 5, 0, 0, 0, 0, 0, 0, 0, 0, 0, 0, 0x50, 0, 0, 0, 0, 0, 0, 0, 0x34, 0, 0, 0, 1, 0, 0,
    0, 0x24, 1, 0, 0, 0, 0, 0, 0, 0, 0, 0, 0, 0x6c, 0, 0, 0, 0, 0, 0, 0, 0, 0, 0, 0, 2, 0, 0, 0, 0,
    1, 0xff, 1, 0xbb, 0, 0, 0, 0x2a, 2, 0, 0, 0, 0, 0, 0, 0, 0, 0, 0, 0x90, 0, 0, 0, 0, 0, 0, 0,
    0x6c, 0, 0, 0, 2, 0, 0, 0, 0, 0, 0, 0, 0, 0, 0, 0, 0, 1, 0xff, 0, 0, 0, 0x1c, 5, 0, 0, 0, 0, 0,
    0, 0, 0, 0, 0, 0xba, 0, 0, 0, 0, 0, 0, 0, 0x90, 0, 0, 0, 2,
];

// The checkpoint at the end of the session, at 144.
const CHECKPOINT: [u8; 61] = [
    0, 0, 0, 0, 0, 0, 0, 0x90, 0, 0, 0, 2, 0, 0, 0, 0, 0, 0, 0, 0, 0, 0, 0, 0, 0, 0, 0, 1, 0, 0, 0,
    0, 0, 0, 0, 0x34, 0, 1, 0, 0, 0, 0, 0, 2, 1, 0, 0, 0, 0, 0, 0, 0, 0x6c, 0, 0, 0, 0, 0, 0, 0,
    0x6c,
];

// Page 0, with `aa` in slot 0 and `bb` in slot 1.
const PAGE: [u8; 66] = [
    0, 0, 0, 0, 0, 0, 0, 0x6c, 0, 0, 0, 0, 0, 1, 0, 0, 0, 0, 0, 0, 0, 0, 0, 0, 0, 0, 0, 0, 0, 0, 0,
    0, 2, 0xaa, 0, 0, 0, 0, 0, 0, 0, 0, 0, 0, 0, 0, 0, 0, 0, 0, 0, 0, 0, 0, 0, 0, 0, 0, 0, 0, 0, 0,
    0, 0, 2, 0xbb,
];

// The control block at the end of the session.
const FOLLOWING: [u8; 40] = [
    0x41, 0x4c, 0x53, 0x43, 0x54, 0x4c, 0x30, 0x31, 0, 1, 1, 1, 0, 0, 0, 4, 0, 0, 0, 0, 0, 0, 0,
    0x90, 0, 0, 0, 0, 0, 0, 0, 0x90, 0, 0, 0, 0, 0, 0, 0, 0,
];

// That of a takeover which was killed at its first write of the log.
const SEALED: [u8; 40] = [
    0x41, 0x4c, 0x53, 0x43, 0x54, 0x4c, 0x30, 0x31, 0, 1, 2, 1, 0, 0, 0, 4, 0, 0, 0, 0, 0, 0, 0,
    0x90, 0, 0, 0, 0, 0, 0, 0, 0x90, 0, 0, 0, 0, 0, 0, 0, 0x90,
];

// That of a takeover which has ended.
const PRIMARY: [u8; 40] = [
    0x41, 0x4c, 0x53, 0x43, 0x54, 0x4c, 0x30, 0x31, 0, 1, 3, 1, 0, 0, 0, 4, 0, 0, 0, 0, 0, 0, 0,
    0xd6, 0, 0, 0, 0, 0, 0, 0, 0x90, 0, 0, 0, 0, 0, 0, 0, 0x90,
];

/// A block with these bytes in front.
fn block_of(front: &[u8]) -> [u8; 512]
    requires { length front.now ≤ 512 }
{
    let mut block = [0; 512];
    block[..front.len()].copy_from_slice(front);
    block
}

/// A device with a block at its front, and another behind that. None: memory was refused.
fn device(alloc: Global, blocks: u64, first: &[u8], second: &[u8]) -> Option<MemDisk>
    requires blocks { 2 ≤ blocks }
    requires first { length first.now ≤ 512 }
    requires second { length second.now ≤ 512 }
    ensures { IfSome result (λ d. ⟦<MemDisk as BlockDisk>⟧.block_count d ≡ blocks) }
{
    let mut disk = MemDisk::new(alloc, blocks);
    disk.write(0, &block_of(first)).ok()?;
    disk.write(1, &block_of(second)).ok()?;
    Some(disk)
}

/// The three devices with this much of the log, and this control block. None: memory was refused.
fn laid_out(alloc: Global, log: &[u8], control: &[u8]) -> Option<Disks<MemDisk>>
    requires log { length log.now ≤ 512 }
    requires control { length control.now ≤ 512 }
    ensures log { IfSome result (λ d. ⟦<MemDisk as BlockDisk>⟧.block_count d.log ≡ 8) }
    ensures control { IfSome result (λ d. ⟦<MemDisk as BlockDisk>⟧.block_count d.control ≡ 321) }
    ensures pages { IfSome result (λ d. ⟦<MemDisk as BlockDisk>⟧.block_count d.pages ≡ 4) }
{
    Some(Disks {
        log: device(alloc, 8, log, &[])?,
        control: device(alloc, 321, control, &CHECKPOINT)?,
        pages: device(alloc, 4, &PAGE, &[])?,
    })
}

/// A standby that follows has no history, and goes on with that of another node. The devices that a
/// crash leaves then. None: memory was refused.
fn goes_on(rt: &impl Abort, alloc: Global) -> Option<Disks<MemDisk>>
    ensures some { IfSome result (λ d. 1 ≤ ⟦<MemDisk as BlockDisk>⟧.block_count d.log) }
    ensures few { IfSome result (λ d. ⟦<MemDisk as BlockDisk>⟧.block_count d.log ≤ 4194304) }
    ensures control { IfSome result (λ d. 321 ≤ ⟦<MemDisk as BlockDisk>⟧.block_count d.control) }
    ensures pages { IfSome result (λ d. 4 ≤ ⟦<MemDisk as BlockDisk>⟧.block_count d.pages) }
{
    let disks = laid_out(alloc, &LOG[..144], &FOLLOWING)?;
    let mut store = opened(rt, alloc, disks)?;
    expect_seals(rt, &store, &[], 144);
    expect_phase(rt, &store, Phase::Following);
    adopt(rt, &mut store, &[Lsn(200)]).ok()?;
    assert!(rt; !store.is_broken());
    store.ctl_sync().ok()?;
    Some(crashed(rt, store))
}

/// What it went on with stands after the crash, in version 2. None: memory was refused.
fn follows_on(rt: &impl Abort, alloc: Global) -> Option<()> {
    let disks = goes_on(rt, alloc)?;
    let store = opened(rt, alloc, disks)?;
    expect_seals(rt, &store, &[200], 144);
    expect_phase(rt, &store, Phase::Following);
    Some(())
}

// An allocation fails once at most: the second try meets none.
#[test]
fn a_standby_of_version_1_has_no_history(rt: HostRuntime) {
    assert!(rt; follows_on(&rt, rt.alloc()).is_some() || follows_on(&rt, rt.alloc()).is_some());
}

/// The history of a sealed log is its seal. Its tail is held and acknowledged. The devices that a
/// crash leaves then. None: memory was refused.
fn undoes(rt: &impl Abort, alloc: Global) -> Option<Disks<MemDisk>>
    ensures some { IfSome result (λ d. 1 ≤ ⟦<MemDisk as BlockDisk>⟧.block_count d.log) }
    ensures few { IfSome result (λ d. ⟦<MemDisk as BlockDisk>⟧.block_count d.log ≤ 4194304) }
    ensures control { IfSome result (λ d. 321 ≤ ⟦<MemDisk as BlockDisk>⟧.block_count d.control) }
    ensures pages { IfSome result (λ d. 4 ≤ ⟦<MemDisk as BlockDisk>⟧.block_count d.pages) }
{
    let disks = laid_out(alloc, &LOG[..144], &SEALED)?;
    let mut store = opened(rt, alloc, disks)?;
    expect_seals(rt, &store, &[144], 144);
    expect_phase(rt, &store, Phase::Sealed);
    undo(rt, &mut store).ok()?;
    undo(rt, &mut store).ok()?;
    if !acknowledges_all(rt, &mut store) {
        return None;
    }
    Some(crashed(rt, store))
}

/// The history is the same after the crash. None: memory was refused.
fn seals_on(rt: &impl Abort, alloc: Global) -> Option<()> {
    let disks = undoes(rt, alloc)?;
    let store = opened(rt, alloc, disks)?;
    expect_seals(rt, &store, &[144], 214);
    expect_phase(rt, &store, Phase::Sealed);
    Some(())
}

#[test]
fn a_sealed_log_of_version_1_has_its_seal(rt: HostRuntime) {
    assert!(rt; seals_on(&rt, rt.alloc()).is_some() || seals_on(&rt, rt.alloc()).is_some());
}

/// So is that of a primary. None: memory was refused.
fn leads_on(rt: &impl Abort, alloc: Global) -> Option<()> {
    let disks = laid_out(alloc, &LOG, &PRIMARY)?;
    let store = opened(rt, alloc, disks)?;
    expect_seals(rt, &store, &[144], 214);
    expect_phase(rt, &store, Phase::Primary);
    Some(())
}

#[test]
fn a_primary_of_version_1_has_its_seal(rt: HostRuntime) {
    assert!(rt; leads_on(&rt, rt.alloc()).is_some() || leads_on(&rt, rt.alloc()).is_some());
}
