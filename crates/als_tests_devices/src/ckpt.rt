ghost use Rattle.std.specs.Prelude.{◌≡◌, ◌<◌, ◌≤◌, ◌+◌, ◌∷◌, [], ℕ, IfOk, IfSome};
ghost use Rattle.als_disk.specs.Slot.{IsSettled};
ghost use Rattle.als_ckpt.specs.Control.{first_state, new_control};

use als_ckpt::{Control, ControlState, Fault, Phase, Refused, Region, clear, read_state};
use als_disk::{BlockDisk, DeviceError, FailingDisk, Fuse, MemDisk, Restart};
use als_epochs::History;
use als_record::Lsn;
use std::alloc::Global;
use std::process::Abort;
use std::test::Fail;

/// A device of 321 blocks whose block 0 is this one, synced. A growth that is refused once is met
/// by a second try.
fn disk_of(alloc: Global, block: &[u8; 512]) -> Result<MemDisk, DeviceError>
    ensures count { IfOk result (λ disk. ⟦<MemDisk as BlockDisk>⟧.block_count disk ≡ 321) }
    ensures settled { IfOk result (λ disk. IsSettled (⟦<MemDisk as BlockDisk>⟧.slot disk 0)) }
{
    let mut disk = MemDisk::new(alloc, 321);
    if disk.write(0, block).is_err() {
        disk.write(0, block)?;
    }
    disk.sync()?;
    Ok(disk)
}

/// A block of four pages, of version 1: sealed at 150, a checkpoint at 100 in the first region,
/// stable up to 200.
fn sealed_block() -> [u8; 512] {
    let mut block = [0; 512];
    block[..10].copy_from_slice(b"ALSCTL01\0\x01");
    block[10] = 2;
    block[11] = 1;
    block[15] = 4;
    block[23] = 200;
    block[31] = 100;
    block[39] = 150;
    block
}

/// What is read from the sealed block with other bytes at some places, over a log of 4,096 bytes.
fn read_with(alloc: Global, edits: &[(u16, u8)]) -> Result<ControlState, Fault> {
    let mut block = sealed_block();
    for &(at, byte) in edits {
        if let Some(place) = block.get_mut(at as usize) {
            *place = byte;
        }
    }
    let mut disk = disk_of(alloc, &block)?;
    read_state(&mut disk, 4, 4096)
}

/// The same of the block of version 2: its history has the one seal.
fn read_now_with(alloc: Global, edits: &[(u16, u8)]) -> Result<ControlState, Fault> {
    let mut block = sealed_block();
    block[9] = 2;
    block[43] = 1;
    block[55] = 150;
    for &(at, byte) in edits {
        if let Some(place) = block.get_mut(at as usize) {
            *place = byte;
        }
    }
    let mut disk = disk_of(alloc, &block)?;
    read_state(&mut disk, 4, 4096)
}

/// The history with one seal.
fn sealed_once(seal: Lsn) -> History
    ensures { result ≡ seal.0 ∷ [] }
{
    let mut history = History::empty();
    history.push(seal);
    history
}

/// The control block of a new database of four pages, over a log of 4,096 bytes. `None`: the device
/// failed.
fn created<D: BlockDisk + Drop>(disk: D) -> Option<Control<D>>
    requires { 321 ≤ D.block_count disk }
    ensures { IfSome result (λ c. c ≡ new_control 4 4096 first_state (D.block_count disk)
        (D.failures disk) (D.attempts disk + 2)) }
{
    Control::create(disk, 4, 4096).ok()
}

/// A new control block in memory. A growth that is refused once is met by a second try.
fn created_in_memory(rt: &impl Abort, alloc: Global) -> Control<MemDisk> {
    if let Some(control) = created(MemDisk::new(alloc, 321)) {
        return control;
    }
    match Control::create(MemDisk::new(alloc, 321), 4, 4096) {
        Ok(control) => control,
        Err(refused) => panic!(rt; "{}", refused.fault),
    }
}

#[test]
fn the_block_of_a_new_database(rt: HostRuntime) -> Result<(), Fail> {
    let mut disk = created_in_memory(&rt, rt.alloc()).into_disk();
    assert!(rt; 0 < disk.blocks());
    let mut block = [7; 512];
    disk.read(0, &mut block)?;
    let (front, rest) = block.split_at(24);
    assert!(rt; front == b"ALSCTL01\0\x02\x01\0\0\0\0\x04\0\0\0\0\0\0\0\x10".as_slice());
    assert!(rt; rest == [0; 488].as_slice());
    Ok(())
}

/// What both sealed blocks say.
fn sealed_state() -> ControlState {
    ControlState {
        phase: Phase::Sealed,
        published: Some(Region::First),
        mark: Lsn(200),
        position: Lsn(100),
        seal: Lsn(150),
        history: sealed_once(Lsn(150)),
    }
}

#[test]
fn reads_what_the_format_admits(rt: HostRuntime) -> Result<(), Fail> {
    assert!(rt; read_with(rt.alloc(), &[]) == Ok(sealed_state()));
    assert!(rt; read_now_with(rt.alloc(), &[]) == Ok(sealed_state()));
    let primary = ControlState {
        phase: Phase::Primary,
        published: Some(Region::Second),
        ..sealed_state()
    };
    assert!(rt; read_with(rt.alloc(), &[(10, 3), (11, 2)]) == Ok(primary));
    // the mark at the log's end, and the least and greatest position and seal
    for edits in [
        [(22, 16), (23, 0)],
        [(31, 16), (39, 16)],
        [(31, 200), (39, 200)],
    ] {
        assert!(rt; read_with(rt.alloc(), &edits).is_ok());
    }
    // following, with neither checkpoint nor seal, and the least mark
    let following = [(10, 1), (11, 0), (23, 16), (31, 0), (39, 0)];
    assert!(rt; read_with(rt.alloc(), &following).is_ok());
    Ok(())
}

/// What is read from a block with these bytes in front, over a log of 4,096 bytes.
fn read_front(alloc: Global, front: &[u8; 40]) -> Result<ControlState, Fault> {
    let mut block = [0; 512];
    block[..40].copy_from_slice(front);
    let mut disk = disk_of(alloc, &block)?;
    read_state(&mut disk, 4, 4096)
}

// Three blocks that the build before histories wrote, for four pages and a log of eight blocks: at
// the end of a session of `als standby`; in an `als takeover` that was killed at its first write of
// the log; and at the end of one. als_tests_store has the whole devices, in `store/older.rt`.
#[test]
fn reads_the_blocks_of_the_build_before(rt: HostRuntime) {
    let following = ControlState {
        phase: Phase::Following,
        published: Some(Region::First),
        mark: Lsn(144),
        position: Lsn(144),
        seal: Lsn(0),
        history: History::empty(),
    };
    let sealed = ControlState {
        phase: Phase::Sealed,
        seal: Lsn(144),
        history: sealed_once(Lsn(144)),
        ..following
    };
    let primary = ControlState {
        phase: Phase::Primary,
        mark: Lsn(214),
        ..sealed
    };
    let rows = [
        (
            b"ALSCTL01\0\x01\x01\x01\0\0\0\x04\0\0\0\0\0\0\0\x90\0\0\0\0\0\0\0\x90\0\0\0\0\0\0\0\0",
            following,
        ),
        (
            b"ALSCTL01\0\x01\x02\x01\0\0\0\x04\0\0\0\0\0\0\0\x90\0\0\0\0\0\0\0\x90\0\0\0\0\0\0\0\x90",
            sealed,
        ),
        (
            b"ALSCTL01\0\x01\x03\x01\0\0\0\x04\0\0\0\0\0\0\0\xd6\0\0\0\0\0\0\0\x90\0\0\0\0\0\0\0\x90",
            primary,
        ),
    ];
    for (front, state) in rows {
        assert!(rt; read_front(rt.alloc(), front) == Ok(state));
    }
}

/// With other bytes at some places the sealed block is refused.
fn expect_refused(rt: &impl Abort, alloc: Global, what: &str, edits: &[(u16, u8)]) {
    assert!(rt; read_with(alloc, edits) == Err(Fault::BadControl), "{what}");
}

#[test]
fn refuses_what_is_no_control_block(rt: HostRuntime) {
    let rows: [(&str, &[(u16, u8)]); 17] = [
        ("another text", &[(7, 50)]),
        ("another version", &[(9, 3)]),
        ("no phase", &[(10, 0), (39, 0)]),
        ("a phase above 3", &[(10, 4)]),
        ("a region above 2", &[(11, 3)]),
        ("another page count", &[(15, 5)]),
        (
            "a mark below 16",
            &[(10, 1), (11, 0), (23, 15), (31, 0), (39, 0)],
        ),
        ("a mark beyond the log", &[(22, 16), (23, 1)]),
        ("a position above the mark", &[(31, 201)]),
        ("a position without a region", &[(11, 0)]),
        ("a region without a position", &[(31, 0)]),
        ("a position below 16", &[(31, 15)]),
        ("a seal while following", &[(10, 1)]),
        ("a seal below 16", &[(39, 15)]),
        ("a seal above the mark", &[(39, 201)]),
        ("a byte behind the seal", &[(40, 1)]),
        ("the last byte", &[(511, 1)]),
    ];
    for (what, edits) in rows {
        expect_refused(&rt, rt.alloc(), what, edits);
    }
}

/// With other bytes at some places the sealed block of version 2 is refused.
fn expect_refused_now(rt: &impl Abort, alloc: Global, what: &str, edits: &[(u16, u8)]) {
    assert!(rt;
        read_now_with(alloc, edits) == Err(Fault::BadControl),
        "{what}"
    );
}

#[test]
fn refuses_what_is_no_history(rt: HostRuntime) {
    let rows: [(&str, &[(u16, u8)]); 12] = [
        ("no version", &[(9, 0)]),
        ("version 1 with a history", &[(9, 1)]),
        ("an epoch above 32", &[(43, 33)]),
        ("an epoch far above 32", &[(40, 1)]),
        ("a byte behind the epoch", &[(44, 1)]),
        ("the last byte before the seals", &[(47, 1)]),
        ("a seal below 16", &[(43, 2), (55, 15), (63, 150)]),
        (
            "a seal below the one before it",
            &[(43, 2), (55, 151), (63, 150)],
        ),
        ("an unused seal", &[(63, 160)]),
        ("another last seal", &[(43, 2), (63, 151)]),
        ("a byte behind the seals", &[(304, 1)]),
        ("the last byte", &[(511, 1)]),
    ];
    for (what, edits) in rows {
        expect_refused_now(&rt, rt.alloc(), what, edits);
    }
}

#[test]
fn reads_histories(rt: HostRuntime) {
    // sealed twice, also at one LSN, and following what was sealed past the log's end
    for edits in [
        [(43, 2), (55, 16), (63, 150), (10, 2)],
        [(43, 2), (55, 150), (63, 150), (10, 3)],
        [(10, 1), (39, 0), (54, 1), (55, 0)],
    ] {
        assert!(rt; read_now_with(rt.alloc(), &edits).is_ok());
    }
}

#[test]
fn faults_have_names(rt: HostRuntime) {
    assert!(rt; Fault::BadControl.number() == 34);
    assert!(rt; Fault::BadControl.name() == "BadControl");
    assert!(rt; Fault::Memory.number() == 32);
    assert!(rt; Fault::Device.number() == 30);
    assert!(rt; Fault::Device.name() == "Device");
}

fn fault_of<D>(refused: Refused<D>) -> Fault
where
    D: Drop,
{
    refused.fault
}

/// The disk after a crash, and how many picks were used. Each block has one content.
fn crashed<D: Restart>(control: Control<D>, picks: &[u8]) -> (D, usize)
    ensures count { D.block_count result.0 ≡ control.blocks }
    ensures settled { IsSettled (D.slot result.0 0) }
    ensures blocks { (k : ℕ) → IsSettled (D.slot result.0 k) }
{
    control.into_disk().crash(picks)
}

/// A database of four pages is made, acknowledges 100, is sealed at 200, crashes and is read again.
/// What is acknowledged then.
fn life(disk: FailingDisk<MemDisk>) -> Result<Lsn, Fault>
    requires { ⟦<FailingDisk<MemDisk> as BlockDisk>⟧.block_count disk ≡ 321 }
{
    let mut disk = disk;
    clear(&mut disk)?;
    let mut control = Control::create(disk, 4, 4096).map_err(fault_of)?;
    control.write_mark(Lsn(100))?;
    control.sync()?;
    control.write_phase(Phase::Sealed, Lsn(200), Lsn(200), sealed_once(Lsn(200)))?;
    control.sync()?;
    let (mut disk, _) = crashed(control, &[]);
    let state = read_state(&mut disk, 4, 4096)?;
    Ok(state.mark)
}

/// The life over devices of which this call fails ends so. False also where allocation failed.
fn lives_so(alloc: Global, call: u64, wanted: Result<Lsn, Fault>) -> bool
    requires { 0 < call }
{
    let Ok(fuse) = Fuse::new(alloc) else {
        return false;
    };
    fuse.fail_at(call);
    life(FailingDisk::new(MemDisk::new(alloc, 321), fuse)) == wanted
}

#[test]
fn each_call_of_the_device_fails_in_turn(rt: HostRuntime) {
    for call in 1..11 {
        let wanted = if call < 10 {
            Err(Fault::Device)
        } else {
            Ok(Lsn(200))
        };
        let alloc = rt.alloc();
        assert!(rt;
            lives_so(alloc, call, wanted) || lives_so(alloc, call, wanted),
            "{call}"
        );
    }
}

/// A new control block that acknowledges 100, where the write of the mark 200 has failed. `None`:
/// allocation failed.
fn with_a_failed_mark<D: BlockDisk + Drop>(
    rt: &impl Abort,
    disk: D,
    fuse: &Fuse,
) -> Option<Control<D>>
    requires { 321 ≤ D.block_count disk }
    ensures { IfSome result (λ c. c.blocks ≡ D.block_count disk) }
{
    let mut control = created(disk)?;
    control.write_mark(Lsn(100)).ok()?;
    control.sync().ok()?;
    fuse.fail_at(1);
    assert!(rt; control.write_mark(Lsn(200)) == Err(Fault::Device));
    assert!(rt; control.newest().mark.0 == 200);
    assert!(rt; control.acknowledged().0 == 100);
    Some(control)
}

/// What is acknowledged after a crash with this pick, where the write of a mark has failed. `None`:
/// allocation failed.
fn left_by(rt: &impl Abort, alloc: Global, pick: u8) -> Option<Lsn> {
    let fuse = Fuse::new(alloc).ok()?;
    let disk = FailingDisk::new(MemDisk::new(alloc, 321), fuse.clone().ok()?);
    let control = with_a_failed_mark(rt, disk, &fuse)?;
    let (mut disk, used) = crashed(control, &[pick]);
    assert!(rt; used == 1);
    let state = read_state(&mut disk, 4, 4096).ok()?;
    Some(state.mark)
}

#[test]
fn a_failed_write_may_be_left(rt: HostRuntime) {
    for (pick, mark) in [(0, 100), (1, 200)] {
        let alloc = rt.alloc();
        let left = match left_by(&rt, alloc, pick) {
            Some(left) => Some(left),
            None => left_by(&rt, alloc, pick),
        };
        assert!(rt; left == Some(Lsn(mark)));
    }
}

// Checkpoints to begin, and controls on which one is published.
mod checkpoints;
// What is published, and where.
mod publishing;
// When a call for a checkpoint is refused.
mod refusals;
// What a crash leaves of checkpoints.
mod crashes;
// What is read back from a device.
mod reading;
// What is written while the node is stopped.
mod again;
