// Control blocks on a disk.
ghost use Rattle.std.specs.Prelude.{◌≡◌, ◌≤◌, ◌<◌, ◌+◌, ◌⊎◌, ℕ, IsErrOf, List, Contains, OnOk};
ghost use Rattle.std.specs.Prelude.{OnErr, IfOk, IfErr};
ghost use Rattle.als_disk.specs.Failures.{CountsFailure};
ghost use Rattle.als_disk.specs.Slot.{only, written, FailsToWrite, IsSettled, SameBlocks};
ghost use Rattle.als_disk.specs.Slot.{SameBlocksBut};
ghost use Rattle.als_disk.specs.Store.{zeros};
ghost use Rattle.als_ckpt.specs.Control.{control_block, first_state, IsControlState, HoldsState};
ghost use Rattle.als_ckpt.specs.declared.control_state.ControlState.{ControlState as AnyState};

use crate::codec::{decode, encode};
use crate::control_state::ControlState;
use crate::fault::Fault;
use als_disk::BlockDisk;
use als_record::BLOCK_LEN;

/// Puts zeros into block 0 and syncs the disk, so that no crash leaves a control block any more.
///
/// `Device`: the disk failed.
pub fn clear<D: BlockDisk>(disk: &mut D) -> Result<(), Fault>
    requires { 1 ≤ D.block_count disk.old }
    ensures ok { OnOk result (D.slot disk.new 0 ≡ only zeros) }
    ensures err { OnErr result ((content : List ℕ) → Contains (D.slot disk.new 0).candidates content
        → Contains (D.slot disk.old 0).candidates content ⊎ (zeros ≡ content)) }
    ensures fault { IfErr result (λ fault. fault ≡ Fault.Device) }
    ensures count { D.block_count disk.new ≡ D.block_count disk.old }
    ensures failures { CountsFailure result (D.failures disk.old) (D.failures disk.new) }
    ensures attempts { OnOk result (D.attempts disk.new ≡ D.attempts disk.old + 2) }
{
    disk.write(0, &[0; BLOCK_LEN])?;
    disk.sync()?;
    Ok(())
}

/// Writes the control block of a state.
pub(crate) fn write_state<D: BlockDisk>(
    disk: &mut D,
    pages: u32,
    state: &ControlState,
) -> Result<(), Fault>
    requires { 1 ≤ D.block_count disk.old }
    ensures ok { OnOk result (D.slot disk.new 0
        ≡ written (D.slot disk.old 0) (control_block pages state.now)) }
    ensures err { OnErr result (FailsToWrite (D.slot disk.old 0) (D.slot disk.new 0)
        (control_block pages state.now)) }
    ensures others { SameBlocksBut 0 (D.slot disk.old) (D.slot disk.new) }
    ensures fault { IfErr result (λ fault. fault ≡ Fault.Device) }
    ensures count { D.block_count disk.new ≡ D.block_count disk.old }
    ensures failures { CountsFailure result (D.failures disk.old) (D.failures disk.new) }
    ensures attempts { D.attempts disk.new ≡ D.attempts disk.old + 1 }
{
    let block = encode(pages, state);
    disk.write(0, &block)?;
    Ok(())
}

/// Makes the control block of a new database the one content of block 0.
pub(crate) fn store_first<D: BlockDisk>(disk: &mut D, pages: u32) -> Result<ControlState, Fault>
    requires { 1 ≤ D.block_count disk.old }
    ensures state { IfOk result (λ s. s ≡ first_state) }
    ensures ok { OnOk result (D.slot disk.new 0 ≡ only (control_block pages first_state)) }
    ensures err { OnErr result ((content : List ℕ) → Contains (D.slot disk.new 0).candidates content
        → Contains (D.slot disk.old 0).candidates content
        ⊎ (control_block pages first_state ≡ content)) }
    ensures fault { IfErr result (λ fault. fault ≡ Fault.Device) }
    ensures count { D.block_count disk.new ≡ D.block_count disk.old }
    ensures failures { CountsFailure result (D.failures disk.old) (D.failures disk.new) }
    ensures attempts { OnOk result (D.attempts disk.new ≡ D.attempts disk.old + 2) }
{
    let state = ControlState::first();
    write_state(disk, pages, &state)?;
    disk.sync()?;
    Ok(state)
}

/// The control state that block 0 holds, of a database of so many pages, whose log device has so
/// many bytes. It may be of version 1 or 2.
///
/// `Device`: the disk failed. `BadControl`: the block is not such a control block.
pub fn read_state<D: BlockDisk>(
    disk: &mut D,
    pages: u32,
    log_bytes: u64,
) -> Result<ControlState, Fault>
    requires room { 1 ≤ D.block_count disk.old }
    requires settled { IsSettled (D.slot disk.old 0) }
    ensures found { IfOk result (λ s. HoldsState pages (D.slot disk.old 0) s
        × IsControlState log_bytes s) }
    ensures only { (s : AnyState) → IsControlState log_bytes s
        → HoldsState pages (D.slot disk.old 0) s
        → IfOk result (λ t. t ≡ s) }
    ensures bad_control { IsErrOf result Fault.BadControl
        → (D.failures disk.new ≡ D.failures disk.old)
        × ((s : AnyState) → IsControlState log_bytes s
        → HoldsState pages (D.slot disk.old 0) s → ⊥) }
    ensures device { IsErrOf result Fault.Device → D.failures disk.old < D.failures disk.new }
    ensures fault { IfErr result (λ fault. (fault ≡ Fault.Device) ⊎ (fault ≡ Fault.BadControl)) }
    ensures ok { OnOk result (D.failures disk.new ≡ D.failures disk.old) }
    ensures attempts { D.attempts disk.new ≡ D.attempts disk.old }
    ensures blocks { SameBlocks (D.slot disk.old) (D.slot disk.new) }
    ensures count { D.block_count disk.new ≡ D.block_count disk.old }
{
    let mut block = [0; BLOCK_LEN];
    disk.read(0, &mut block)?;
    match decode(&block, pages, log_bytes) {
        Some(state) => Ok(state),
        None => Err(Fault::BadControl),
    }
}
