ghost use Rattle.std.specs.Prelude.{◌≡◌, ◌≢◌, ◌≤◌, ◌<◌, ◌+◌, ◌⊎◌, ℕ, ◌∷◌, List, Contains, true};
ghost use Rattle.std.specs.Prelude.{false, OnOk, OnErr, IfOk, IfErr, IsSomeAnd};
ghost use Rattle.als_disk.specs.Failures.{CountsFailure};
ghost use Rattle.als_disk.specs.Slot.{only, IsSettled, SameBlocks};
ghost use Rattle.als_ckpt.specs.Control.{control_block, first_state, newest, with_state, settled};
ghost use Rattle.als_ckpt.specs.Control.{new_control, IsControlState, IsControlled, IsBlockOf};
ghost use Rattle.als_ckpt.specs.Control.{AreBlocks, Continues};
ghost use Rattle.als_ckpt.specs.Control.{MayName, IsBeginning, IsBusy, with_begun, with_next};
ghost use Rattle.als_ckpt.specs.Control.{with_whole};
ghost use Rattle.als_ckpt.specs.Regions.{Said, IsPublished, held_at, IsWhole};
ghost use Rattle.als_ckpt.specs.Holding.{LeavesOneOf, HoldsControl};
ghost use Rattle.als_ckpt.specs.Reading.{taken_up, TakesUp, FailsToRead, RefusesToRead};
ghost use Rattle.als_ckpt.specs.Outcomes.{RefusesBegin, RefusesNext, RefusesPublish, HasNext};
ghost use Rattle.als_ckpt.specs.Outcomes.{Publishes};
ghost use Rattle.als_ckpt.specs.declared.control_state.ControlState.{ControlState as AnyState};

use crate::begun::Begun;
use crate::control_state::ControlState;
use crate::device::{store_first, write_state};
use crate::fault::Fault;
use crate::phase::Phase;
use crate::progress::{is_busy, next_block, note_synced, note_written, place_of};
use crate::reading::read_said;
use crate::refused::Refused;
use crate::region::Region;
use crate::regions::Regions;
use crate::writes::Writes;
use als_ckpt_codec::{Checkpoint, encode_checkpoint};
use als_disk::BlockDisk;
use als_epochs::History;
use als_record::Lsn;
use std::alloc::Global;
use std::marker::Model;

/// The control block of a database, on a disk of its own.
///
/// A crash leaves the state of the last sync or one that was written since. The mark of the synced
/// state is the acknowledged LSN: the log up to it survives each crash.
pub struct Control<D: BlockDisk> {
    disk: D,
    pages: u32,
    log_bytes: u64,
    synced: ControlState,
    last: ControlState,
    writes: Writes,
    regions: Regions,
    begun: Option<Begun>,
}

impl<D: BlockDisk> Model for Control<D> {
    ghost use Rattle.als_ckpt.specs.Control.{Controlled};
    ghost use Rattle.als_ckpt.specs.Kept.{IsKeeping};
    ghost use Rattle.als_ckpt.specs.Writes.{states_of, is_sure};

    ghost Value = { Controlled };

    ghost view = { λ c. record {
      pages = c.pages;
      log_bytes = c.log_bytes;
      synced = c.synced;
      since = states_of c.writes;
      sure = is_sure c.writes;
      blocks = D.block_count c.disk;
      failures = D.failures c.disk;
      attempts = D.attempts c.disk;
      held = c.regions;
      begun = c.begun;
    } };

    ghost invariant = { λ c. IsKeeping (D.slot c.disk) c.pages c.log_bytes
        (D.block_count c.disk) c.synced c.last
        (states_of c.writes) (is_sure c.writes) c.regions c.begun };
}

// Written out: a derived drop is proved part by part wherever a control is dropped, this one only
// here.
impl<D: BlockDisk + Drop> Drop for Control<D> {
    fn drop(self) {
        let Control {
            disk,
            pages: _,
            log_bytes: _,
            synced: _,
            last: _,
            writes,
            regions,
            begun,
        } = self;
        drop(disk);
        drop(writes);
        drop(regions);
        drop(begun);
    }
}

impl<D: BlockDisk> Control<D> {
    /// Writes the control block of a new database and syncs it. The disk comes back with a fault.
    ///
    /// `Device`: the disk failed.
    pub fn create(mut disk: D, pages: u32, log_bytes: u64) -> Result<Control<D>, Refused<D>>
        requires room { 321 ≤ D.block_count disk }
        requires pages { (1 ≤ pages) × (pages ≤ 4096) }
        requires log_bytes { 16 ≤ log_bytes }
        ensures ok { IfOk result (λ c. c
            ≡ new_control pages log_bytes first_state (D.block_count disk) (D.failures disk)
            (D.attempts disk + 2)) }
        ensures err { IfErr result (λ r. (r.fault ≡ Fault.Device)
            × (D.failures disk < D.failures r.disk)
            × (D.block_count r.disk ≡ D.block_count disk)) }
        ensures err_candidates { IfErr result (λ r. (content : List ℕ)
            → Contains (D.slot r.disk 0).candidates content
            → Contains (D.slot disk 0).candidates content
            ⊎ (control_block pages first_state ≡ content)) }
    {
        match store_first(&mut disk, pages) {
            Ok(state) => {
                let last = state;
                Ok(Control {
                    disk,
                    pages,
                    log_bytes,
                    synced: state,
                    last,
                    writes: Writes::none(),
                    regions: Regions::unknown(),
                    begun: None,
                })
            }
            Err(fault) => Err(Refused { disk, fault }),
        }
    }

    /// Reads the control block of a database of so many pages, whose log device has so many bytes,
    /// and the checkpoint that it publishes, from a disk that was synced. The disk comes back with
    /// a fault, as it was.
    ///
    /// `Device`: the disk failed. `BadControl`: the block is no such control block, or there is no
    /// checkpoint at its position in the region that it names. `Memory`: an allocation failed.
    pub fn read(
        alloc: Global,
        disk: D,
        pages: u32,
        log_bytes: u64,
    ) -> Result<(Control<D>, Option<Checkpoint>), Refused<D>>
        requires settled { (k : ℕ) → IsSettled (D.slot disk k) }
        requires room { 321 ≤ D.block_count disk }
        ensures ok { IfOk result (λ r. TakesUp pages log_bytes (D.slot disk) (D.block_count disk)
            (D.failures disk) (D.attempts disk) r.0 r.1) }
        ensures err { IfErr result (λ r. RefusesToRead r.fault pages log_bytes (D.slot disk)
            (D.failures disk) (D.failures r.disk)) }
        // A device that says something is read so.
        ensures only { (said : Said) → HoldsControl pages log_bytes (D.slot disk) said
            → IfOk result (λ r.
            (r.0 ≡ taken_up pages log_bytes said (D.block_count disk) (D.failures disk)
            (D.attempts disk)) × (r.1 ≡ said.checkpoint)) }
        ensures bare { (said : Said) → HoldsControl pages log_bytes (D.slot disk) said
            → IfErr result (λ r. FailsToRead r.fault (D.failures disk) (D.failures r.disk)) }
        ensures same { IfErr result (λ r. SameBlocks (D.slot disk) (D.slot r.disk)) }
        ensures counts { IfErr result (λ r. (D.block_count r.disk ≡ D.block_count disk)
            × (D.attempts r.disk ≡ D.attempts disk)) }
    {
        let mut disk = disk;
        match read_said(alloc, &mut disk, pages, log_bytes) {
            Ok((state, checkpoint)) => {
                let control = Control::reopen(disk, pages, log_bytes, state, &checkpoint);
                Ok((control, checkpoint))
            }
            Err(fault) => Err(Refused { disk, fault }),
        }
    }

    /// The control block of a disk that was synced and read: it says this state and this
    /// checkpoint. The disk is not called.
    pub fn reopen(
        disk: D,
        pages: u32,
        log_bytes: u64,
        state: ControlState,
        checkpoint: &Option<Checkpoint>,
    ) -> Control<D>
        requires room { 321 ≤ D.block_count disk }
        requires says { HoldsControl pages log_bytes (D.slot disk) (record {
          state = state;
          checkpoint = checkpoint.now;
        }) }
        ensures { result ≡ taken_up pages log_bytes (record {
          state = state;
          checkpoint = checkpoint.now;
        })
            (D.block_count disk) (D.failures disk) (D.attempts disk) }
    {
        let regions = Regions::of(state.published, checkpoint);
        let last = state;
        Control {
            disk,
            pages,
            log_bytes,
            synced: state,
            last,
            writes: Writes::none(),
            regions,
            begun: None,
        }
    }

    /// The newest state, as it was written last.
    pub fn newest(&self) -> ControlState
        ensures newest { result ≡ newest self.now }
        ensures facts { IsControlled self.now }
    {
        self.last
    }

    /// The acknowledged LSN: the mark of the synced state.
    pub fn acknowledged(&self) -> Lsn
        ensures mark { result ≡ self.now.synced.mark }
        ensures facts { IsControlled self.now }
    {
        self.synced.mark
    }

    /// Writes a state, by one write of the disk.
    fn write(&mut self, state: ControlState) -> Result<(), Fault>
        requires fits { IsControlState self.old.log_bytes state }
        requires rises { (newest self.old).mark.0 ≤ state.mark.0 }
        requires named { IsPublished self.old.pages state.published state.position.0
            (held_at self.old.held state.published) }
        requires grows { Continues (newest self.old) state }
        requires place { MayName self.old state }
        ensures ok { OnOk result (self.new ≡ with_state self.old state) }
        ensures err { OnErr result (self.new
            ≡ record (with_state self.old state) { sure = false; failures = self.new.failures }) }
        ensures fault { IfErr result (λ fault. fault ≡ Fault.Device) }
        ensures failures { CountsFailure result self.old.failures self.new.failures }
    {
        self.last = state;
        let answer = write_state(&mut self.disk, self.pages, &state);
        match answer {
            Ok(()) => self.writes.note_done(&state),
            Err(_) => self.writes.note_failed(&state),
        }
        answer
    }

    /// Writes the newest state with another mark, by one write of the disk: the log is stable up to
    /// it.
    ///
    /// `Device`: the disk failed, and the state may have been written or not.
    pub fn write_mark(&mut self, mark: Lsn) -> Result<(), Fault>
        requires rises { (newest self.old).mark.0 ≤ mark.0 }
        requires in_log { mark.0 ≤ self.old.log_bytes }
        ensures ok { OnOk result (self.new
            ≡ with_state self.old (record (newest self.old) { mark = mark })) }
        ensures err { OnErr result (self.new
            ≡ record (with_state self.old (record (newest self.old) { mark = mark }))
            { sure = false; failures = self.new.failures }) }
        ensures fault { IfErr result (λ fault. fault ≡ Fault.Device) }
        ensures failures { CountsFailure result self.old.failures self.new.failures }
    {
        let state = self.last.with_mark(mark);
        self.write(state)
    }

    /// Writes the newest state with another phase, mark, seal and history of seals, by one write of
    /// the disk. The history goes on from the one before, and the newest mark is at or below the seal
    /// that follows there.
    ///
    /// `Device`: the disk failed, and the state may have been written or not.
    pub fn write_phase(
        &mut self,
        phase: Phase,
        mark: Lsn,
        seal: Lsn,
        seals: History,
    ) -> Result<(), Fault>
        requires fits { IsControlState self.old.log_bytes (record (newest self.old) {
          phase = phase;
          mark = mark;
          seal = seal;
          history = seals;
        }) }
        requires rises { (newest self.old).mark.0 ≤ mark.0 }
        requires grows { Continues (newest self.old) (record (newest self.old) {
          phase = phase;
          mark = mark;
          seal = seal;
          history = seals;
        }) }
        ensures ok { OnOk result (self.new
            ≡ with_state self.old (record (newest self.old) {
              phase = phase;
              mark = mark;
              seal = seal;
              history = seals;
            })) }
        ensures err { OnErr result (self.new
            ≡ record (with_state self.old (record (newest self.old) {
              phase = phase;
              mark = mark;
              seal = seal;
              history = seals;
            }))
            { sure = false; failures = self.new.failures }) }
        ensures fault { IfErr result (λ fault. fault ≡ Fault.Device) }
        ensures failures { CountsFailure result self.old.failures self.new.failures }
    {
        let state = ControlState {
            phase,
            mark,
            seal,
            history: seals,
            ..self.last
        };
        self.write(state)
    }

    /// Writes the newest state with another history, by one write of the disk. It goes on from the
    /// one before, and the newest mark is at or below the seal that follows there.
    ///
    /// `Device`: the disk failed, and the state may have been written or not.
    pub fn write_history(&mut self, history: History) -> Result<(), Fault>
        requires fits { IsControlState self.old.log_bytes
            (record (newest self.old) { history = history }) }
        requires grows { Continues (newest self.old)
            (record (newest self.old) { history = history }) }
        ensures ok { OnOk result (self.new
            ≡ with_state self.old (record (newest self.old) { history = history })) }
        ensures err { OnErr result (self.new
            ≡ record (with_state self.old (record (newest self.old) { history = history }))
            { sure = false; failures = self.new.failures }) }
        ensures fault { IfErr result (λ fault. fault ≡ Fault.Device) }
        ensures failures { CountsFailure result self.old.failures self.new.failures }
    {
        let state = ControlState {
            history,
            ..self.last
        };
        self.write(state)
    }

    /// Syncs the disk, by one sync: the newest state alone stays.
    ///
    /// `Device`: the disk failed, and no state has gone away.
    pub fn sync(&mut self) -> Result<(), Fault>
        requires { self.old.sure ≡ true }
        ensures ok { OnOk result (self.new ≡ settled self.old) }
        // What is acknowledged never falls.
        ensures rises { OnOk result (self.old.synced.mark.0 ≤ (newest self.old).mark.0) }
        ensures err { OnErr result (self.new
            ≡ record self.old { failures = self.new.failures; attempts = self.old.attempts + 1 }) }
        ensures fault { IfErr result (λ fault. fault ≡ Fault.Device) }
        ensures failures { CountsFailure result self.old.failures self.new.failures }
    {
        self.disk.sync()?;
        self.synced = self.last;
        self.writes = Writes::none();
        note_synced(&mut self.begun);
        Ok(())
    }

    /// No checkpoint can be begun: one is, or the last publish is not synced.
    pub fn is_busy(&self) -> bool
        ensures busy { result ≡ true → IsBusy self.now }
        ensures free { result ≡ false → IsBusy self.now → ⊥ }
    {
        is_busy(&self.begun, self.last.published, self.synced.published)
    }

    /// Begins a checkpoint: its bytes are made, and none is written. It goes to the region that is
    /// not published.
    ///
    /// `CkptBusy`: one is begun, or the last publish is not synced. `Memory`: an allocation failed.
    pub fn begin(&mut self, alloc: Global, checkpoint: Checkpoint) -> Result<(), Fault>
        requires { IsBeginning self.old.pages checkpoint }
        ensures ok { OnOk result ((IsBusy self.old → ⊥)
            × (self.new ≡ with_begun self.old checkpoint)) }
        ensures err { IfErr result (λ f. RefusesBegin f self.old self.new) }
    {
        if is_busy(&self.begun, self.last.published, self.synced.published) {
            return Err(Fault::CkptBusy);
        }
        let region = Region::next(self.last.published);
        let begun = Begun::new(alloc, region, checkpoint)?;
        self.regions.forget(region);
        self.begun = Some(begun);
        Ok(())
    }

    /// Writes the next block of the checkpoint, by one write of the disk. It takes no memory.
    ///
    /// `NothingToDo`: none is begun, or each block is written. `Device`: the disk failed, and the
    /// block counts as unwritten.
    pub fn write_next(&mut self) -> Result<(), Fault>
        ensures ok { OnOk result (HasNext self.old × (self.new ≡ with_next self.old)) }
        ensures err { IfErr result (λ f. RefusesNext f self.old self.new) }
    {
        let (place, block) = next_block(&self.begun)?;
        self.disk.write(place, &block)?;
        note_written(&mut self.begun);
        Ok(())
    }

    /// Notes that the region of the checkpoint holds it.
    fn note_whole(&mut self)
        requires { IsSomeAnd self.old.begun IsWhole }
        ensures { IsSomeAnd self.old.begun (λ b. self.new ≡ with_whole self.old b) }
    {
        match self.begun.take() {
            Some(begun) => {
                let (region, checkpoint) = begun.into_whole();
                self.regions.hold(region, checkpoint);
            }
            None => {}
        }
    }

    /// Publishes the checkpoint: writes the control block with its region and position, by one
    /// write of the disk. It takes no memory.
    ///
    /// `NothingToDo`: none is begun. `CkptBusy`: a block of it is not written and synced.
    /// `LogBehind`: its position is above the acknowledged LSN. `Device`: the disk failed, and the
    /// state may have been written or not.
    pub fn publish(&mut self) -> Result<(), Fault>
        ensures ok { OnOk result (IsSomeAnd self.old.begun (λ b. Publishes self.old b self.new)) }
        ensures err { IfErr result (λ f. RefusesPublish f self.old self.new) }
    {
        let (region, position) = place_of(&self.begun, self.acknowledged())?;
        let state = ControlState {
            published: Some(region),
            position,
            ..self.last
        };
        self.note_whole();
        self.write(state)
    }

    /// The disk. A crash leaves on it the control block of the synced state, or of one that was
    /// written since, with the whole checkpoint that this state publishes.
    pub fn into_disk(self) -> D
        ensures candidates { (content : List ℕ) → Contains (D.slot result 0).candidates content
            → IsBlockOf self.pages (self.synced ∷ self.since) content }
        // Where no write has failed, they spell all of these states, oldest first.
        ensures all { self.sure ≡ true → AreBlocks self.pages (self.synced ∷ self.since)
            (D.slot result 0).candidates }
        ensures leaves { LeavesOneOf self (D.slot result) }
        ensures facts { IsControlled self }
        ensures count { D.block_count result ≡ self.blocks }
        ensures failures { D.failures result ≡ self.failures }
        ensures attempts { D.attempts result ≡ self.attempts }
    {
        let Control {
            disk,
            pages: _,
            log_bytes: _,
            synced: _,
            last: _,
            writes,
            regions,
            begun,
        } = self;
        drop(writes);
        drop(regions);
        drop(begun);
        disk
    }
}
