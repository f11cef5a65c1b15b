// The control state of a stopped node in the place of another one: a step of no run.
ghost use Rattle.std.specs.Prelude.{◌≡◌, ◌≤◌, ◌⊎◌, ℕ, nat_lt, IfOk, IfErr, OnOk, OnErr};
ghost use Rattle.als_disk.specs.Slot.{IsSettled};
ghost use Rattle.als_ckpt.specs.declared.control_state.ControlState.{ControlState as AnyState};
ghost use Rattle.als_ckpt.specs.Regions.{Said};
ghost use Rattle.als_ckpt.specs.Holding.{HoldsControl};
ghost use Rattle.als_ckpt.specs.Again.{seals_below, bound_of, history_left, forgetting, followed_by};
ghost use Rattle.als_ckpt.specs.Again.{followed, without_checkpoint, unpublished};
ghost use Rattle.als_ckpt.specs.Again.{saying, LeavesSaid, LeavesEither, Restates, RestatesOrNot};

use crate::control_state::ControlState;
use crate::device::{read_state, write_state};
use crate::fault::Fault;
use crate::phase::Phase;
use crate::restated::Restated;
use crate::unreached::Unreached;
use als_disk::BlockDisk;
use als_epochs::History;
use als_record::Lsn;

/// Whether a log that ends there has reached a seal.
fn is_reached(which: Unreached, seal: u64, end: Lsn) -> bool
    ensures { result ≡ nat_lt seal (bound_of which end.0) }
{
    match which {
        Unreached::AboveEnd => seal <= end.0,
        Unreached::FromEnd => seal < end.0,
    }
}

/// The seals of a history in front of the first that a log which ends there has not reached.
fn reached(history: &History, which: Unreached, end: Lsn) -> History
    ensures { result ≡ seals_below (bound_of which end.0) history.now }
{
    let _epoch = history.epoch();
    let mut front = History::empty();
    for seal in history.seals() {
        if !is_reached(which, *seal, end) {
            return front;
        }
        front.push(Lsn(*seal));
    }
    front
}

/// What a phase leaves of a history: in Following what the log has reached, and later all of it.
fn history_left(phase: Phase, which: Unreached, end: Lsn, history: &History) -> History
    ensures { result ≡ history_left phase (bound_of which end.0) history.now }
{
    match phase {
        Phase::Following => reached(history, which, end),
        Phase::Sealed | Phase::Primary => *history,
    }
}

/// The state without the seals that its log has not reached.
fn forgetting(state: &ControlState, which: Unreached) -> ControlState
    ensures { result ≡ forgetting which state.now }
{
    let history = history_left(state.phase, which, state.mark, &state.history);
    ControlState { history, ..*state }
}

/// What becomes of a state of this phase where the node follows a source again.
fn followed_by(phase: Phase, state: &ControlState) -> ControlState
    ensures { result ≡ followed_by phase state.now }
{
    match phase {
        Phase::Primary => ControlState {
            phase: Phase::Following,
            seal: Lsn(0),
            ..*state
        },
        Phase::Following | Phase::Sealed => *state,
    }
}

/// The state that publishes no checkpoint.
fn without_checkpoint(state: &ControlState) -> ControlState
    ensures { result ≡ without_checkpoint state.now }
{
    ControlState {
        published: None,
        position: Lsn(0),
        ..*state
    }
}

/// Writes a state in the place of the one that the device says, and syncs the device.
///
/// `Device`: the disk failed, and a crash leaves one of the two.
fn restate<D: BlockDisk>(disk: &mut D, pages: u32, after: &ControlState) -> Result<(), Fault>
    requires room { 1 ≤ D.block_count disk.old }
    ensures ok { OnOk result ((before : AnyState)
        → Restates pages before after.now (D.slot disk.old) (D.slot disk.new)) }
    ensures err { OnErr result ((before : AnyState)
        → RestatesOrNot pages before after.now (D.slot disk.old) (D.slot disk.new)) }
    ensures fault { IfErr result (λ fault. fault ≡ Fault.Device) }
    ensures count { D.block_count disk.new ≡ D.block_count disk.old }
{
    write_state(disk, pages, after)?;
    disk.sync()?;
    Ok(())
}

/// Forgets the seals of takeovers that the log of a stopped node has not reached, where it follows a
/// source: its log is a front of both logs that part there. It answers what the device said and what
/// it says now. Where there is nothing to forget the device is not written.
///
/// `Device`: the disk failed, and a crash leaves one of the two. `BadControl`: the block is no
/// control block.
pub fn forget_unreached<D: BlockDisk>(
    disk: &mut D,
    pages: u32,
    log_bytes: u64,
    which: Unreached,
) -> Result<Restated, Fault>
    requires settled { IsSettled (D.slot disk.old 0) }
    requires room { 1 ≤ D.block_count disk.old }
    // The device says the state without these seals, and the same checkpoint.
    ensures ok { IfOk result (λ r. (said : Said)
        → HoldsControl pages log_bytes (D.slot disk.old) said
        → (r.before ≡ said.state) × (r.after ≡ forgetting which said.state)
        × HoldsControl pages log_bytes (D.slot disk.new) (saying said r.after)) }
    // So says whatever a crash leaves.
    ensures leaves { IfOk result (λ r. (said : Said)
        → HoldsControl pages log_bytes (D.slot disk.old) said
        → LeavesSaid pages log_bytes (D.slot disk.new) (saying said (forgetting which said.state))) }
    ensures err { OnErr result ((said : Said)
        → HoldsControl pages log_bytes (D.slot disk.old) said
        → LeavesEither pages log_bytes (D.slot disk.new) said
        (saying said (forgetting which said.state))) }
    ensures fault { IfErr result (λ fault. (fault ≡ Fault.Device) ⊎ (fault ≡ Fault.BadControl)) }
    ensures count { D.block_count disk.new ≡ D.block_count disk.old }
{
    let before = read_state(disk, pages, log_bytes)?;
    let after = forgetting(&before, which);
    if after.history.is(&before.history) {
        return Ok(Restated { before, after });
    }
    restate(disk, pages, &after)?;
    Ok(Restated { before, after })
}

/// Makes a follower of a primary that is stopped: it keeps its log, its checkpoint and its history,
/// and has no seal of its own. It answers what the device said and what it says now. A state that is
/// not Primary stays as it is.
///
/// `Device`: the disk failed, and a crash leaves one of the two. `BadControl`: the block is no
/// control block.
pub fn follow_again<D: BlockDisk>(
    disk: &mut D,
    pages: u32,
    log_bytes: u64,
) -> Result<Restated, Fault>
    requires settled { IsSettled (D.slot disk.old 0) }
    requires room { 1 ≤ D.block_count disk.old }
    // The device says the state of a follower, and the same checkpoint.
    ensures ok { IfOk result (λ r. (said : Said)
        → HoldsControl pages log_bytes (D.slot disk.old) said
        → (r.before ≡ said.state) × (r.after ≡ followed said.state)
        × HoldsControl pages log_bytes (D.slot disk.new) (saying said r.after)) }
    // So says whatever a crash leaves.
    ensures leaves { IfOk result (λ r. (said : Said)
        → HoldsControl pages log_bytes (D.slot disk.old) said
        → LeavesSaid pages log_bytes (D.slot disk.new) (saying said (followed said.state))) }
    ensures err { OnErr result ((said : Said)
        → HoldsControl pages log_bytes (D.slot disk.old) said
        → LeavesEither pages log_bytes (D.slot disk.new) said (saying said (followed said.state))) }
    ensures fault { IfErr result (λ fault. (fault ≡ Fault.Device) ⊎ (fault ≡ Fault.BadControl)) }
    ensures count { D.block_count disk.new ≡ D.block_count disk.old }
{
    let before = read_state(disk, pages, log_bytes)?;
    let after = followed_by(before.phase, &before);
    restate(disk, pages, &after)?;
    Ok(Restated { before, after })
}

/// Forgets the checkpoint of a stopped node whose pages are laid out anew: what the pages lack is
/// then looked for from the first record of the log on. Phase, mark, seal and history stay. It
/// answers what the device said and what it says now.
///
/// `Device`: the disk failed, and a crash leaves one of the two. `BadControl`: the block is no
/// control block.
pub fn forget_checkpoint<D: BlockDisk>(
    disk: &mut D,
    pages: u32,
    log_bytes: u64,
) -> Result<Restated, Fault>
    requires settled { IsSettled (D.slot disk.old 0) }
    requires room { 1 ≤ D.block_count disk.old }
    // The device says the same state without a checkpoint.
    ensures ok { IfOk result (λ r. (said : Said)
        → HoldsControl pages log_bytes (D.slot disk.old) said
        → (r.before ≡ said.state) × (r.after ≡ without_checkpoint said.state)
        × HoldsControl pages log_bytes (D.slot disk.new) (unpublished said)) }
    // So says whatever a crash leaves.
    ensures leaves { IfOk result (λ r. (said : Said)
        → HoldsControl pages log_bytes (D.slot disk.old) said
        → LeavesSaid pages log_bytes (D.slot disk.new) (unpublished said)) }
    ensures err { OnErr result ((said : Said)
        → HoldsControl pages log_bytes (D.slot disk.old) said
        → LeavesEither pages log_bytes (D.slot disk.new) said (unpublished said)) }
    ensures fault { IfErr result (λ fault. (fault ≡ Fault.Device) ⊎ (fault ≡ Fault.BadControl)) }
    ensures count { D.block_count disk.new ≡ D.block_count disk.old }
{
    let before = read_state(disk, pages, log_bytes)?;
    let after = without_checkpoint(&before);
    restate(disk, pages, &after)?;
    Ok(Restated { before, after })
}
