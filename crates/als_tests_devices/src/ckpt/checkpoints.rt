ghost use Rattle.std.specs.Prelude.{◌≡◌, ◌≤◌, true, IfSome};
ghost use Rattle.als_ckpt.specs.Control.{IsBeginning};

use als_ckpt::Control;
use als_ckpt_codec::{Checkpoint, decode_checkpoint, encode_checkpoint};
use als_disk::BlockDisk;
use als_record::Lsn;
use std::alloc::Global;

/// The 808 bytes of a checkpoint at a position with 64 dirty pages, and zeros to the end of its
/// second block.
pub(crate) fn checkpoint_bytes(position: u8) -> [u8; 1024] {
    let mut bytes = [0; 1024];
    bytes[7] = position;
    bytes[39] = 64;
    for page in 0..64usize {
        bytes[43 + 12 * page] = page as u8;
        bytes[51 + 12 * page] = 16;
    }
    bytes
}

/// That checkpoint. `None`: allocation failed.
pub(crate) fn checkpoint(alloc: Global, position: u8) -> Option<Checkpoint>
    requires { 16 ≤ position }
    ensures { IfSome result (λ c. IsBeginning 64 c) }
{
    let at = Lsn(position as u64);
    let made = decode_checkpoint(alloc, &mut checkpoint_bytes(position), 64, at).ok()?;
    Some(made)
}

/// Whether its bytes are these. `None`: allocation failed.
fn is_spelled_so(alloc: Global) -> Option<bool> {
    let bytes = encode_checkpoint(alloc, checkpoint(alloc, 108)?).ok()?;
    let wanted = checkpoint_bytes(108);
    let (wanted, _) = wanted.split_at(808);
    Some(bytes.as_slice() == wanted)
}

#[test]
fn the_bytes_of_the_checkpoint(rt: HostRuntime) {
    let alloc = rt.alloc();
    assert!(rt; is_spelled_so(alloc) == Some(true) || is_spelled_so(alloc) == Some(true));
}

/// A control block of 64 pages that acknowledges 200. `None`: the device failed.
pub(crate) fn marked<D: BlockDisk + Drop>(disk: D) -> Option<Control<D>>
    requires { 321 ≤ D.block_count disk }
    ensures pages { IfSome result (λ c. c.pages ≡ 64) }
    ensures sure { IfSome result (λ c. c.sure ≡ true) }
{
    let mut control = Control::create(disk, 64, 4096).ok()?;
    control.write_mark(Lsn(200)).ok()?;
    control.sync().ok()?;
    Some(control)
}

/// Begins the checkpoint at that position. `None`: it can't, or allocation failed.
pub(crate) fn begun<D: BlockDisk>(
    control: &mut Control<D>,
    alloc: Global,
    position: u8,
) -> Option<()>
    requires position { 16 ≤ position }
    requires pages { control.old.pages ≡ 64 }
    ensures pages { IfSome result (λ _. control.new.pages ≡ control.old.pages) }
    ensures sure { IfSome result (λ _. control.new.sure ≡ control.old.sure) }
{
    control.begin(alloc, checkpoint(alloc, position)?).ok()?;
    Some(())
}

/// Writes the next block. `None`: there is none, or the device failed.
pub(crate) fn writes_next<D: BlockDisk>(control: &mut Control<D>) -> Option<()>
    ensures pages { IfSome result (λ _. control.new.pages ≡ control.old.pages) }
    ensures sure { IfSome result (λ _. control.new.sure ≡ control.old.sure) }
{
    control.write_next().ok()
}

/// Syncs. `None`: the device failed.
pub(crate) fn syncs<D: BlockDisk>(control: &mut Control<D>) -> Option<()>
    requires { control.old.sure ≡ true }
    ensures pages { IfSome result (λ _. control.new.pages ≡ control.old.pages) }
    ensures sure { IfSome result (λ _. control.new.sure ≡ true) }
{
    control.sync().ok()
}

/// Publishes what is begun, with no sync. `None`: it can't, or the device failed.
pub(crate) fn publishes_it<D: BlockDisk>(control: &mut Control<D>) -> Option<()>
    ensures pages { IfSome result (λ _. control.new.pages ≡ control.old.pages) }
    ensures sure { IfSome result (λ _. control.new.sure ≡ control.old.sure) }
{
    control.publish().ok()
}

/// Begins the checkpoint at that position and writes it. `None`: it can't, the device failed, or
/// allocation failed.
pub(crate) fn written<D: BlockDisk>(
    control: &mut Control<D>,
    alloc: Global,
    position: u8,
) -> Option<()>
    requires position { 16 ≤ position }
    requires pages { control.old.pages ≡ 64 }
    ensures pages { IfSome result (λ _. control.new.pages ≡ control.old.pages) }
    ensures sure { IfSome result (λ _. control.new.sure ≡ control.old.sure) }
{
    begun(control, alloc, position)?;
    writes_next(control)?;
    writes_next(control)
}

/// Publishes the checkpoint at that position, with no sync of that. `None`: it can't, the device
/// failed, or allocation failed.
pub(crate) fn named<D: BlockDisk>(
    control: &mut Control<D>,
    alloc: Global,
    position: u8,
) -> Option<()>
    requires position { 16 ≤ position }
    requires pages { control.old.pages ≡ 64 }
    requires sure { control.old.sure ≡ true }
    ensures pages { IfSome result (λ _. control.new.pages ≡ control.old.pages) }
    ensures sure { IfSome result (λ _. control.new.sure ≡ true) }
{
    written(control, alloc, position)?;
    syncs(control)?;
    publishes_it(control)
}

/// Publishes the checkpoint at that position. `None`: it can't, the device failed, or memory was
/// refused.
pub(crate) fn published<D: BlockDisk>(
    control: &mut Control<D>,
    alloc: Global,
    position: u8,
) -> Option<()>
    requires position { 16 ≤ position }
    requires pages { control.old.pages ≡ 64 }
    requires sure { control.old.sure ≡ true }
    ensures pages { IfSome result (λ _. control.new.pages ≡ control.old.pages) }
    ensures sure { IfSome result (λ _. control.new.sure ≡ true) }
{
    named(control, alloc, position)?;
    syncs(control)
}
