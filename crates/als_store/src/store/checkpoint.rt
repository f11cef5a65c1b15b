ghost use Rattle.std.specs.Prelude.{◌≡◌, true, false, OnOk, IfErr, IfOk, IsSomeAnd};
ghost use Rattle.std.specs.List.{AllByRecursion};
ghost use Rattle.als_record.specs.Spelling.{IsLoggedPage};
ghost use Rattle.als_store.specs.Stored.{acknowledged};
ghost use Rattle.als_store.specs.Warm.{WasWarm};
ghost use Rattle.als_store.specs.Checkpoints.{AreCovering, checkpoint_of};
ghost use Rattle.als_ckpt_codec.specs.Checkpoint.{AreNumbers};
ghost use Rattle.als_ckpt.specs.Control.{IsBeginning};
ghost use Rattle.als_store.specs.declared.fault.Fault.TheVariants as fault;
ghost use Rattle.als_store.specs.CheckpointEvents.{IsBusy, BeginsCheckpoint, NotBegun, WritesBlock};
ghost use Rattle.als_store.specs.CheckpointEvents.{NoBlock, Publishes, NotPublished};

use super::Store;
use crate::fault::Fault;
use als_ckpt::Fault as ControlFault;
use als_ckpt_codec::{Checkpoint, Numbers};
use als_disk::BlockDisk;
use als_pool::rows_make_a_checkpoint;
use als_record::{LoggedPage, Lsn, TransId};
use als_tables::{fits_checkpoint, logged_rows};
use std::alloc::Global;

/// The numbers of a log.
fn numbers(
    position: Lsn,
    greatest: TransId,
    open_checkpoint: Lsn,
    commits: u64,
    last_commit: Lsn,
) -> Numbers
    ensures value { result ≡ record {
      position = position;
      greatest = greatest;
      open_checkpoint = open_checkpoint;
      commits = commits;
      last_commit = last_commit;
    } }
    ensures fits { AreNumbers result }
{
    Numbers {
        position,
        greatest,
        open_checkpoint,
        commits,
        last_commit,
    }
}

/// A row's numbers fit their spelling.
fn row_fits(row: LoggedPage)
    ensures { IsLoggedPage row }
{
    // For the prover alone: the range of its numbers.
    let _ = row.page;
    let _ = row.rec_lsn.0;
}

/// The numbers of each row fit their spelling.
fn rows_fit(rows: &[LoggedPage])
    ensures { AllByRecursion IsLoggedPage rows.now }
{
    for at in 0..rows.len() {
        row_fits(rows[at]);
    }
}

impl<D: BlockDisk> Store<D> {
    /// The checkpoint of the log and of the pages as they are now: a copy. Memory: a growth was
    /// refused.
    fn copied(&self, alloc: Global) -> Result<Checkpoint, Fault>
        ensures ok { IfOk result (λ c. c ≡ checkpoint_of self.now.stored.log self.now.stored.pool) }
        ensures fits { IfOk result (IsBeginning self.now.stored.pages) }
        ensures err { IfErr result (λ f. f ≡ fault.Memory) }
    {
        fits_checkpoint();
        let numbers = numbers(
            self.log.end(),
            self.validator.greatest(),
            self.validator.open_checkpoint(),
            self.count.commits,
            self.count.last_commit,
        );
        let transactions = logged_rows(alloc, self.validator.rows())?;
        let pages = self.pool.rows(alloc)?;
        rows_fit(pages.as_slice());
        Ok(Checkpoint {
            numbers,
            transactions,
            pages,
        })
    }

    /// Begins a checkpoint: copies both tables, the numbers and the end of the log as they are now.
    /// No block of it is written.
    ///
    /// CkptBusy: one is begun, or the last publish is not synced. Memory: an allocation failed;
    /// nothing has changed.
    pub fn ckpt_begin(&mut self, alloc: Global) -> Result<(), Fault>
        ensures ok { OnOk result (BeginsCheckpoint self.old.stored self.new.stored) }
        ensures err { IfErr result (λ f. NotBegun self.old.stored f self.new.stored) }
    {
        // For the prover alone: what a checkpoint of pages as they are covers.
        rows_make_a_checkpoint();
        if self.control.is_busy() {
            return Err(Fault::CkptBusy);
        }
        let checkpoint = self.copied(alloc)?;
        match self.control.begin(alloc, checkpoint) {
            Ok(()) => Ok(()),
            Err(ControlFault::CkptBusy) => Err(Fault::CkptBusy),
            Err(_) => Err(Fault::Memory),
        }
    }

    /// Writes the next block of the checkpoint that is begun: one write of the control device. It
    /// takes no memory.
    ///
    /// NothingToDo: none is begun, or each block is written. Device: the device failed.
    pub fn ckpt_block(&mut self) -> Result<(), Fault>
        requires { self.old.stored.broken ≡ false }
        ensures ok { OnOk result (WritesBlock self.old.stored self.new.stored) }
        ensures err { IfErr result (λ f. NoBlock self.old.stored f self.new.stored) }
    {
        match self.control.write_next() {
            Ok(()) => Ok(()),
            Err(ControlFault::NothingToDo) => Err(Fault::NothingToDo),
            Err(_) => {
                self.broken = true;
                Err(Fault::Device)
            }
        }
    }

    /// Publishes the checkpoint: one write of the control block. It takes no memory.
    ///
    /// NothingToDo: none is begun. CkptBusy: a block of it is not written and synced. LogBehind:
    /// its position is above the acknowledged LSN. Device: the device failed, and the control block
    /// may have been written or not.
    pub fn ckpt_publish(&mut self) -> Result<(), Fault>
        requires { self.old.stored.broken ≡ false }
        ensures ok { OnOk result
            (IsSomeAnd self.old.stored.begun (λ b. Publishes self.old.stored b self.new.stored)) }
        ensures err { IfErr result (λ f. NotPublished self.old.stored f self.new.stored) }
    {
        // For the prover alone: what always holds of the log and of the control block.
        let _ = self.log.end();
        let _ = self.control.newest();
        match self.control.publish() {
            Ok(()) => Ok(()),
            Err(ControlFault::NothingToDo) => Err(Fault::NothingToDo),
            Err(ControlFault::CkptBusy) => Err(Fault::CkptBusy),
            Err(ControlFault::LogBehind) => Err(Fault::LogBehind),
            Err(_) => {
                self.broken = true;
                Err(Fault::Device)
            }
        }
    }

    /// No checkpoint can be begun: one is, or the last publish is not synced.
    pub fn is_ckpt_busy(&self) -> bool
        ensures busy { result ≡ true → IsBusy self.now.stored }
        ensures free { result ≡ false → IsBusy self.now.stored → ⊥ }
        ensures covers { WasWarm self.now.stored
            → AreCovering self.now.stored.log self.now.stored.pool self.now.stored.held
            self.now.stored.begun }
    {
        self.control.is_busy()
    }
}
