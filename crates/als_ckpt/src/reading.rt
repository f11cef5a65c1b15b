// A control block and its checkpoint, read back from a disk.
ghost use Rattle.std.specs.Prelude.{◌≡◌, ◌≤◌, ◌<◌, ◌+◌, ℕ, List, Contains, Option, OnOk, IfOk};
ghost use Rattle.std.specs.Prelude.{IfErr};
ghost use Rattle.als_disk.specs.Slot.{Slot, IsSettled, SameBlocks};
ghost use Rattle.als_ckpt_codec.specs.declared.checkpoint.Checkpoint.{Checkpoint as AnyCheckpoint};
ghost use Rattle.als_ckpt_codec.specs.Checkpoint.{checkpoint_bytes, IsCheckpoint};
ghost use Rattle.als_ckpt.specs.Regions.{Said, HasPart, HoldsCheckpoint, HoldsPublished};
ghost use Rattle.als_ckpt.specs.Regions.{IsPublished, blocks_of};
ghost use Rattle.als_ckpt.specs.Holding.{HoldsControl};
ghost use Rattle.als_ckpt.specs.Reading.{StandIn, Gives, Fails, FailsToRead, RefusesToRead};

use crate::begun::blocks_for;
use crate::control_state::ControlState;
use crate::device::read_state;
use crate::fault::Fault;
use crate::region::Region;
use als_ckpt_codec::{Checkpoint, checkpoint_len, decode_checkpoint};
use als_disk::BlockDisk;
use als_record::{BLOCK_LEN, Lsn};
use std::alloc::Global;

/// How many blocks the checkpoint takes of which this is the first.
///
/// `Device`: the disk failed. `BadControl`: the block begins no checkpoint.
fn count_blocks<D: BlockDisk>(disk: &mut D, first: u64) -> Result<u64, Fault>
    requires { first < D.block_count disk.old }
    ensures only { (pages position : ℕ) (c : AnyCheckpoint) → IsCheckpoint pages position c
        → ((content : List ℕ) → Contains (D.slot disk.old first).candidates content
        → HasPart (checkpoint_bytes c) 0 content)
        → Gives (blocks_of c) result }
    ensures few { IfOk result (λ count. (1 ≤ count) × (count ≤ 107)) }
    ensures err { IfErr result (λ fault. Fails fault (D.failures disk.old) (D.failures disk.new)) }
    ensures done { OnOk result (D.failures disk.new ≡ D.failures disk.old) }
    ensures same { SameBlocks (D.slot disk.old) (D.slot disk.new) }
    ensures count { D.block_count disk.new ≡ D.block_count disk.old }
    ensures attempts { D.attempts disk.new ≡ D.attempts disk.old }
{
    let mut block = [0; BLOCK_LEN];
    disk.read(first, &mut block)?;
    let len = checkpoint_len(block.as_slice())?;
    Ok(blocks_for(len))
}

/// Puts the bytes of a block behind those of the blocks before it.
///
/// `Device`: the disk failed. `Memory`: an allocation failed.
fn read_block<D: BlockDisk>(disk: &mut D, i: u64, bytes: &mut Vec<u8>) -> Result<(), Fault>
    requires { i < D.block_count disk.old }
    // In whatever synced blocks the bytes stood that end there.
    ensures ok { OnOk result ((slots : ℕ → Slot) (first count : ℕ) → slots i ≡ D.slot disk.old i
        → IsSettled (slots i) → first + count ≡ i
        → StandIn slots first count bytes.old.items
        → StandIn slots first (count + 1) bytes.new.items) }
    ensures err { IfErr result (λ fault. FailsToRead fault (D.failures disk.old)
        (D.failures disk.new)) }
    ensures done { OnOk result (D.failures disk.new ≡ D.failures disk.old) }
    ensures same { SameBlocks (D.slot disk.old) (D.slot disk.new) }
    ensures count { D.block_count disk.new ≡ D.block_count disk.old }
    ensures attempts { D.attempts disk.new ≡ D.attempts disk.old }
{
    let mut block = [0; BLOCK_LEN];
    disk.read(i, &mut block)?;
    bytes.extend_from_slice(block.as_slice())?;
    Ok(())
}

/// The bytes of so many blocks.
///
/// `Device`: the disk failed. `Memory`: an allocation failed.
fn read_blocks<D: BlockDisk>(
    alloc: Global,
    disk: &mut D,
    first: u64,
    count: u64,
) -> Result<Vec<u8>, Fault>
    requires settled { (k : ℕ) → IsSettled (D.slot disk.old k) }
    requires few { first + count ≤ 321 }
    requires within { first + count ≤ D.block_count disk.old }
    ensures ok { IfOk result (λ bytes. StandIn (D.slot disk.old) first count bytes.items) }
    ensures err { IfErr result (λ fault. FailsToRead fault (D.failures disk.old)
        (D.failures disk.new)) }
    ensures done { OnOk result (D.failures disk.new ≡ D.failures disk.old) }
    ensures same { SameBlocks (D.slot disk.old) (D.slot disk.new) }
    ensures count { D.block_count disk.new ≡ D.block_count disk.old }
    ensures attempts { D.attempts disk.new ≡ D.attempts disk.old }
{
    let mut bytes = Vec::new(alloc);
    for k in 0..count {
        read_block(disk, first + k, &mut bytes)?;
    }
    Ok(bytes)
}

/// The checkpoint at a position that a region holds.
///
/// `Device`: the disk failed. `BadControl`: there is no such checkpoint. `Memory`: a growth was
/// refused.
fn read_region<D: BlockDisk>(
    alloc: Global,
    disk: &mut D,
    pages: u32,
    region: Region,
    position: Lsn,
) -> Result<Checkpoint, Fault>
    requires settled { (k : ℕ) → IsSettled (D.slot disk.old k) }
    requires room { 321 ≤ D.block_count disk.old }
    ensures found { IfOk result (λ c. IsCheckpoint pages position.0 c
        × HoldsCheckpoint (D.slot disk.old) region c) }
    ensures only { (c : AnyCheckpoint) → IsCheckpoint pages position.0 c
        → HoldsCheckpoint (D.slot disk.old) region c → Gives c result }
    ensures err { IfErr result (λ fault. Fails fault (D.failures disk.old) (D.failures disk.new)) }
    ensures done { OnOk result (D.failures disk.new ≡ D.failures disk.old) }
    ensures same { SameBlocks (D.slot disk.old) (D.slot disk.new) }
    ensures count { D.block_count disk.new ≡ D.block_count disk.old }
    ensures attempts { D.attempts disk.new ≡ D.attempts disk.old }
{
    let first = region.first_block();
    let count = count_blocks(disk, first)?;
    let mut bytes = read_blocks(alloc, disk, first, count)?;
    let checkpoint = decode_checkpoint(alloc, bytes.as_mut_slice(), pages, position)?;
    Ok(checkpoint)
}

/// The checkpoint that a state publishes, where it publishes one.
///
/// `Device`: the disk failed. `BadControl`: its region holds no checkpoint at its position.
/// `Memory`: an allocation failed.
fn read_published<D: BlockDisk>(
    alloc: Global,
    disk: &mut D,
    pages: u32,
    state: &ControlState,
) -> Result<Option<Checkpoint>, Fault>
    requires settled { (k : ℕ) → IsSettled (D.slot disk.old k) }
    requires room { 321 ≤ D.block_count disk.old }
    ensures found { IfOk result (λ x. IsPublished pages state.now.published state.now.position.0 x
        × HoldsPublished (D.slot disk.old) state.now.published x) }
    ensures only { (x : Option AnyCheckpoint)
        → IsPublished pages state.now.published state.now.position.0 x
        → HoldsPublished (D.slot disk.old) state.now.published x → Gives x result }
    ensures err { IfErr result (λ fault. Fails fault (D.failures disk.old) (D.failures disk.new)) }
    ensures done { OnOk result (D.failures disk.new ≡ D.failures disk.old) }
    ensures same { SameBlocks (D.slot disk.old) (D.slot disk.new) }
    ensures count { D.block_count disk.new ≡ D.block_count disk.old }
    ensures attempts { D.attempts disk.new ≡ D.attempts disk.old }
{
    match state.published {
        None => Ok(None),
        Some(region) => {
            let checkpoint = read_region(alloc, disk, pages, region, state.position)?;
            Ok(Some(checkpoint))
        }
    }
}

/// The control state of a disk that was synced, of a database of so many pages whose log device has
/// so many bytes, and the checkpoint that it publishes.
///
/// `Device`: the disk failed. `BadControl`: the block is no such control block, or there is no
/// checkpoint at its position in the region that it names. `Memory`: an allocation failed.
pub fn read_said<D: BlockDisk>(
    alloc: Global,
    disk: &mut D,
    pages: u32,
    log_bytes: u64,
) -> Result<(ControlState, Option<Checkpoint>), Fault>
    requires settled { (k : ℕ) → IsSettled (D.slot disk.old k) }
    requires room { 321 ≤ D.block_count disk.old }
    ensures ok { IfOk result (λ r. HoldsControl pages log_bytes (D.slot disk.old)
        (record { state = r.0; checkpoint = r.1 })) }
    ensures only { (said : Said) → HoldsControl pages log_bytes (D.slot disk.old) said
        → IfOk result (λ r. (r.0 ≡ said.state) × (r.1 ≡ said.checkpoint)) }
    ensures err { IfErr result (λ fault. RefusesToRead fault pages log_bytes (D.slot disk.old)
        (D.failures disk.old) (D.failures disk.new)) }
    ensures done { OnOk result (D.failures disk.new ≡ D.failures disk.old) }
    ensures same { SameBlocks (D.slot disk.old) (D.slot disk.new) }
    ensures count { D.block_count disk.new ≡ D.block_count disk.old }
    ensures attempts { D.attempts disk.new ≡ D.attempts disk.old }
{
    let state = read_state(disk, pages, log_bytes)?;
    let checkpoint = read_published(alloc, disk, pages, &state)?;
    Ok((state, checkpoint))
}
