ghost use Rattle.std.specs.Prelude.{◌≡◌, ◌<◌, ℕ, IfOk};
ghost use Rattle.als_disk.specs.Slot.{IsSettled};

use super::checkpoints::{checkpoint_bytes, marked, published};
use super::{crashed, fault_of, sealed_block};
use als_ckpt::{Control, Fault};
use als_ckpt_codec::encode_checkpoint;
use als_disk::{BlockDisk, DeviceError, FailingDisk, Fuse, MemDisk, Restart};
use als_record::Lsn;
use std::alloc::Global;

/// The position that a control publishes once a crash has left it, and whether the checkpoint there
/// is the one at that position.
fn read_again<D: Restart + Drop>(
    control: Control<D>,
    alloc: Global,
) -> Result<Option<(Lsn, bool)>, Fault> {
    let position = control.newest().position;
    let (disk, _) = crashed(control, &[]);
    let (control, checkpoint) = Control::read(alloc, disk, 64, 4096).map_err(fault_of)?;
    let Some(checkpoint) = checkpoint else {
        return Ok(None);
    };
    if control.newest().position != position || position.0 > 255 {
        return Ok(None);
    }
    let bytes = encode_checkpoint(alloc, checkpoint)?;
    let wanted = checkpoint_bytes(position.0 as u8);
    let (wanted, _) = wanted.split_at(808);
    Ok(Some((position, bytes.as_slice() == wanted)))
}

/// What is read of the second checkpoint over a device of which this call fails from then on.
/// `None`: allocation failed.
fn read_failing(alloc: Global, call: u64) -> Option<Result<Option<(Lsn, bool)>, Fault>>
    requires { 0 < call }
{
    let fuse = Fuse::new(alloc).ok()?;
    let disk = FailingDisk::new(MemDisk::new(alloc, 321), fuse.clone().ok()?);
    let mut control = marked(disk)?;
    published(&mut control, alloc, 108)?;
    published(&mut control, alloc, 116)?;
    fuse.fail_at(call);
    Some(read_again(control, alloc))
}

#[test]
fn a_published_checkpoint_is_read_back(rt: HostRuntime) {
    let alloc = rt.alloc();
    for call in 1..6 {
        let wanted = if call < 5 {
            Err(Fault::Device)
        } else {
            Ok(Some((Lsn(116), true)))
        };
        let wanted = Some(wanted);
        assert!(rt;
            read_failing(alloc, call) == wanted || read_failing(alloc, call) == wanted,
            "{call}"
        );
    }
}

/// The first three blocks of a device: a control block of 64 pages that publishes region 1 at 108,
/// and the checkpoint. Some bytes are others.
fn image(edits: &[(u16, u8)]) -> [u8; 1536] {
    let mut image = [0; 1536];
    let (control, region) = image.split_at_mut(512);
    control.copy_from_slice(&sealed_block());
    region.copy_from_slice(&checkpoint_bytes(108));
    control[15] = 64;
    control[31] = 108;
    for &(at, byte) in edits {
        if let Some(place) = image.get_mut(at as usize) {
            *place = byte;
        }
    }
    image
}

/// A device of which these are the first three blocks, synced.
fn device(alloc: Global, image: &[u8; 1536]) -> Result<MemDisk, DeviceError>
    ensures count { IfOk result (λ disk. ⟦<MemDisk as BlockDisk>⟧.block_count disk ≡ 321) }
    ensures settled { IfOk result (λ disk. (k : ℕ)
        → IsSettled (⟦<MemDisk as BlockDisk>⟧.slot disk k)) }
{
    let (mut one, mut two, mut three) = ([0; 512], [0; 512], [0; 512]);
    let (front, rest) = image.split_at(512);
    let (middle, last) = rest.split_at(512);
    one.copy_from_slice(front);
    two.copy_from_slice(middle);
    three.copy_from_slice(last);
    let mut disk = MemDisk::new(alloc, 321);
    disk.write(0, &one)?;
    disk.write(1, &two)?;
    disk.write(2, &three)?;
    disk.sync()?;
    Ok(disk)
}

/// The position of the checkpoint that is read from that device.
fn position_with(alloc: Global, edits: &[(u16, u8)]) -> Result<Option<Lsn>, Fault> {
    let disk = device(alloc, &image(edits))?;
    let (_, checkpoint) = Control::read(alloc, disk, 64, 4096).map_err(fault_of)?;
    match checkpoint {
        Some(checkpoint) => Ok(Some(checkpoint.numbers.position)),
        None => Ok(None),
    }
}

#[test]
fn reads_what_stands_in_the_region(rt: HostRuntime) {
    let read = Ok(Some(Lsn(108)));
    let bad = Err(Fault::BadControl);
    let rows: [(&str, &[(u16, u8)], Result<Option<Lsn>, Fault>); 9] = [
        ("the checkpoint", &[], read),
        ("a byte behind it", &[(512 + 808, 1), (1535, 1)], read),
        ("none is published", &[(11, 0), (31, 0)], Ok(None)),
        ("a mark beyond the log", &[(22, 16), (23, 1)], bad),
        ("the other region is published", &[(11, 2)], bad),
        ("another position", &[(512 + 7, 109)], bad),
        ("more than 256 transactions", &[(512 + 36, 2)], bad),
        ("more than 4,096 pages", &[(512 + 38, 17)], bad),
        ("a page past the database", &[(512 + 43 + 12 * 63, 64)], bad),
    ];
    for (what, edits, wanted) in rows {
        let alloc = rt.alloc();
        assert!(rt;
            position_with(alloc, edits) == wanted || position_with(alloc, edits) == wanted,
            "{what}"
        );
    }
}

/// With another byte in the control block the device is read, or 34.
fn is_judged(alloc: Global, at: u16, byte: u8) -> bool {
    matches!(
        position_with(alloc, &[(at, byte)]),
        Ok(_) | Err(Fault::BadControl)
    )
}

#[test]
fn each_byte_of_the_control_block_altered(rt: HostRuntime) {
    let alloc = rt.alloc();
    for at in 0..512 {
        for byte in [0, 1, 255] {
            assert!(rt;
                is_judged(alloc, at, byte) || is_judged(alloc, at, byte),
                "{at} {byte}"
            );
        }
    }
}
