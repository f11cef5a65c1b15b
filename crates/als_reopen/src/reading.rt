// The log below the mark, record by record, with what a restart takes of it.
ghost use Rattle.std.specs.Prelude.{◌≡◌, ◌⊎◌, ℕ, ◌<◌, ◌≤◌, true, false, List, ◌++◌, OnOk, IfOk};
ghost use Rattle.std.specs.Prelude.{IfErr, MatchBool, IfSome, IsSomeAnd};
ghost use Rattle.als_record.specs.declared.record.Record.{Record as AnyRecord};
ghost use Rattle.als_record.specs.LogText.{log_text, end_of};
ghost use Rattle.als_record.specs.Commits.{commits_of};
ghost use Rattle.als_record.specs.Validity.{IsValidLog};
ghost use Rattle.als_validator.specs.Validated.{IsValidatorOf, judges};
ghost use Rattle.als_reopen.specs.Taken.{follows};
ghost use Rattle.als_scan.specs.Scanned.{IsWhole, taken_up};
ghost use Rattle.als_tables.specs.Fronts.{IsOfFront};
ghost use Rattle.als_reopen.specs.Outcomes.{IsBare};
ghost use Rattle.als_reopen.specs.Reading.{IsReading, IsMet, IsMetBefore};
ghost use Rattle.als_reopen.specs.Reading.{ScansOn, KeepsImages, IsOneMore, IsFrontOf};
ghost use Rattle.als_reopen.specs.Reading.{CountsDevice, CountsLog, IsScanLeft, IsPoolLeft};
ghost use Rattle.als_reopen.specs.Refusing.{IsChecked, IsUnmet, RefusesScan};

use crate::comparing::is_checkpoint_of;
use crate::fault::Fault;
use crate::judging::kept_for;
use crate::read_log::ReadLog;
use crate::taken::Taken;
use crate::unread_log::UnreadLog;
use als_ckpt::Phase;
use als_ckpt_codec::Checkpoint;
use als_disk::BlockDisk;
use als_pool::change_can_be_read;
use als_scan::{Scan, Unread};
use std::alloc::Global;

/// A log that is being read: the records handed out so far are counted, their changes wait for the
/// pages, and their commits for the readers.
pub(crate) struct Reading<D: BlockDisk> {
    pub(crate) scan: Scan<D>,
    pub(crate) taken: Taken<D>,
    /// The position of the checkpoint was met, and it is that of the records in front of it.
    pub(crate) met: bool,
}

// Written out: a derived drop is proved wherever a reading is dropped, this one only here.
impl<D: BlockDisk + Drop> Drop for Reading<D> {
    fn drop(self) {
        let Reading {
            scan,
            taken,
            met: _,
        } = self;
        drop(scan);
        drop(taken);
    }
}

/// Compares the checkpoint with the records handed out, where they end at its position. Whether it
/// was met is answered.
///
/// `BadControl`: it is not that of these records. `Memory`: an allocation failed.
fn meet<D: BlockDisk>(
    alloc: Global,
    reading: &Reading<D>,
    checkpoint: &Option<Checkpoint>,
) -> Result<bool, Fault>
    requires reading { IsReading checkpoint.now reading.now.scan reading.now.taken.pool.pool
        reading.now.taken.count }
    requires met { IsMet reading.now.met reading.now.scan.log checkpoint.now }
    ensures ok { IfOk result (λ met. IsMetBefore met reading.now.scan.log checkpoint.now) }
    ensures err { IfErr result (λ fault. (fault ≡ Fault.Memory) ⊎ ((fault ≡ Fault.BadControl)
        × IsUnmet checkpoint.now reading.now.scan.log)) }
    ensures bare { (whole rest : List AnyRecord) → whole ≡ reading.now.scan.log ++ rest
        → IfSome checkpoint.now (IsOfFront whole)
        → IfErr result (λ fault. fault ≡ Fault.Memory) }
{
    let Some(checkpoint) = checkpoint else {
        return Ok(true);
    };
    if reading.met {
        return Ok(true);
    }
    if reading.scan.end().0 < checkpoint.numbers.position.0 {
        return Ok(false);
    }
    if !is_checkpoint_of(alloc, &reading.scan, &reading.taken.count, checkpoint)? {
        return Err(Fault::BadControl);
    }
    Ok(true)
}

/// That the records handed out do not end past the position of a checkpoint that was not met.
///
/// `BadControl`: they do, so no front of the log ends there.
fn check_position(met: bool, end: u64, checkpoint: &Option<Checkpoint>) -> Result<(), Fault>
    ensures ok { OnOk result (IfSome checkpoint.now (λ c. (met ≡ true)
        ⊎ (end ≤ c.numbers.position.0))) }
    ensures err { IfErr result (λ fault. (fault ≡ Fault.BadControl)
        × IsSomeAnd checkpoint.now (λ c. (met ≡ false) × (c.numbers.position.0 < end))) }
{
    let Some(checkpoint) = checkpoint else {
        return Ok(());
    };
    if !met && checkpoint.numbers.position.0 < end {
        return Err(Fault::BadControl);
    }
    Ok(())
}

impl<D: BlockDisk> Reading<D> {
    /// Takes the next record, if there is one. Whether there was is answered.
    fn take_one(&mut self, checkpoint: &Option<Checkpoint>) -> Result<bool, Fault>
        requires reading { IsReading checkpoint.now self.old.scan self.old.taken.pool.pool
            self.old.taken.count }
        requires waiting { self.old.taken.waiting.queued ≡ commits_of self.old.scan.log }
        ensures waiting { OnOk result (self.new.taken.waiting.queued ≡ commits_of self.new.scan.log) }
        ensures reading { OnOk result (IsReading checkpoint.now self.new.scan self.new.taken.pool.pool
            self.new.taken.count) }
        ensures more { IfOk result (λ more. MatchBool more
            (IsOneMore self.old.scan.log self.new.scan.log)
            (IsWhole self.new.scan × (self.new.scan.log ≡ self.old.scan.log))) }
        ensures met { self.new.met ≡ self.old.met }
        ensures scan { ScansOn self.old.scan self.new.scan }
        ensures images { KeepsImages self.old.taken.pool.pool self.new.taken.pool.pool }
        ensures frames { self.new.taken.pool.pool.frames ≡ self.old.taken.pool.pool.frames }
        ensures done { OnOk result (self.new.scan.failures ≡ self.old.scan.failures) }
        ensures err { IfErr result (λ fault. CountsDevice fault self.old.scan.failures
            self.new.scan.failures) }
        // Over the text of a log its records come in order, and only a failed device and want of
        // memory are in the way.
        ensures bare { (whole : List AnyRecord) → IsValidLog self.old.scan.pages whole
            → self.old.scan.text ≡ log_text self.old.scan.pages whole
            → IfErr result IsBare }
        // Over any text the fault is that of the record behind those handed out.
        ensures refuses { IsChecked checkpoint.now self.old.scan.log
            → IfErr result (λ fault. RefusesScan fault self.old.scan checkpoint.now) }
        ensures front { (whole : List AnyRecord) → IsValidLog self.old.scan.pages whole
            → self.old.scan.text ≡ log_text self.old.scan.pages whole
            → OnOk result (IsFrontOf self.new.scan.log whole) }
    {
        change_can_be_read();
        let more = self.scan.next_to(&mut self.taken)?;
        Ok(more)
    }

    /// Compares the checkpoint, if its position is reached, and takes the next record, if there is
    /// one. Whether there was is answered.
    fn step(&mut self, alloc: Global, checkpoint: &Option<Checkpoint>) -> Result<bool, Fault>
        requires reading { IsReading checkpoint.now self.old.scan self.old.taken.pool.pool
            self.old.taken.count }
        requires waiting { self.old.taken.waiting.queued ≡ commits_of self.old.scan.log }
        requires met { IsMet self.old.met self.old.scan.log checkpoint.now }
        requires low { IfSome checkpoint.now (λ c. c.numbers.position.0 ≤ self.old.scan.mark) }
        ensures waiting { OnOk result (self.new.taken.waiting.queued ≡ commits_of self.new.scan.log) }
        ensures reading { OnOk result (IsReading checkpoint.now self.new.scan self.new.taken.pool.pool
            self.new.taken.count) }
        ensures met { OnOk result (IsMet self.new.met self.new.scan.log checkpoint.now) }
        ensures more { IfOk result (λ more. MatchBool more
            (IsOneMore self.old.scan.log self.new.scan.log)
            (IsWhole self.new.scan × (self.new.scan.log ≡ self.old.scan.log)
            × IfSome checkpoint.now (IsOfFront self.new.scan.log))) }
        ensures scan { ScansOn self.old.scan self.new.scan }
        ensures images { KeepsImages self.old.taken.pool.pool self.new.taken.pool.pool }
        ensures frames { self.new.taken.pool.pool.frames ≡ self.old.taken.pool.pool.frames }
        ensures done { OnOk result (self.new.scan.failures ≡ self.old.scan.failures) }
        ensures err { IfErr result (λ fault. CountsDevice fault self.old.scan.failures
            self.new.scan.failures) }
        ensures bare { (whole : List AnyRecord) → IsValidLog self.old.scan.pages whole
            → self.old.scan.text ≡ log_text self.old.scan.pages whole
            → IsFrontOf self.old.scan.log whole → IfSome checkpoint.now (IsOfFront whole)
            → IfErr result IsBare }
        ensures refuses { IfErr result (λ fault. RefusesScan fault self.old.scan checkpoint.now) }
        ensures front { (whole : List AnyRecord) → IsValidLog self.old.scan.pages whole
            → self.old.scan.text ≡ log_text self.old.scan.pages whole
            → OnOk result (IsFrontOf self.new.scan.log whole) }
    {
        self.met = meet(alloc, self, checkpoint)?;
        let more = self.take_one(checkpoint)?;
        check_position(self.met, self.scan.end().0, checkpoint)?;
        Ok(more)
    }

    /// Takes all records, and compares the checkpoint on the way.
    pub(crate) fn read_all(
        &mut self,
        alloc: Global,
        checkpoint: &Option<Checkpoint>,
    ) -> Result<(), Fault>
        requires reading { IsReading checkpoint.now self.old.scan self.old.taken.pool.pool
            self.old.taken.count }
        requires waiting { self.old.taken.waiting.queued ≡ commits_of self.old.scan.log }
        requires met { IsMet self.old.met self.old.scan.log checkpoint.now }
        requires low { IfSome checkpoint.now (λ c. c.numbers.position.0 ≤ self.old.scan.mark) }
        ensures waiting { OnOk result (self.new.taken.waiting.queued ≡ commits_of self.new.scan.log) }
        ensures reading { OnOk result (IsReading checkpoint.now self.new.scan self.new.taken.pool.pool
            self.new.taken.count) }
        ensures whole { OnOk result (IsWhole self.new.scan) }
        ensures of_front { OnOk result (IfSome checkpoint.now (IsOfFront self.new.scan.log)) }
        ensures scan { ScansOn self.old.scan self.new.scan }
        ensures images { KeepsImages self.old.taken.pool.pool self.new.taken.pool.pool }
        ensures frames { self.new.taken.pool.pool.frames ≡ self.old.taken.pool.pool.frames }
        ensures done { OnOk result (self.new.scan.failures ≡ self.old.scan.failures) }
        ensures err { IfErr result (λ fault. CountsDevice fault self.old.scan.failures
            self.new.scan.failures) }
        ensures bare { (whole : List AnyRecord) → IsValidLog self.old.scan.pages whole
            → self.old.scan.text ≡ log_text self.old.scan.pages whole
            → IsFrontOf self.old.scan.log whole → IfSome checkpoint.now (IsOfFront whole)
            → IfErr result IsBare }
        ensures refuses { IfErr result (λ fault. RefusesScan fault self.old.scan checkpoint.now) }
    {
        let mut more = true;
        while more {
            more = self.step(alloc, checkpoint)?;
        }
        Ok(())
    }

    /// The devices, as they were before the log was read, with a fault.
    pub(crate) fn into_disks(self, fault: Fault) -> UnreadLog<D>
        ensures fault { result.fault ≡ fault }
        ensures log { IsScanLeft self.scan (D.slot result.log) (D.block_count result.log)
            (D.attempts result.log) }
        ensures failures { D.failures result.log ≡ self.scan.failures }
        ensures pages { IsPoolLeft self.taken.pool.pool.frames
            (D.slot result.pages) (D.block_count result.pages) (D.failures result.pages)
            (D.attempts result.pages) }
    {
        let Reading {
            scan,
            taken,
            met: _,
        } = self;
        let (pool, _, _) = taken.into_parts();
        // For the prover alone: there are as many blocks as pages that wait for changes.
        let _ = pool.pages();
        UnreadLog {
            log: scan.into_disk(),
            pages: pool.into_disk(),
            fault,
        }
    }

    /// Takes up a log that was read whole, with what this phase needs of its validator.
    pub(crate) fn take_up(self, phase: Phase) -> Result<ReadLog<D>, UnreadLog<D>>
        requires { IsWhole self.scan }
        ensures log { IfOk result (λ x. x.log ≡ taken_up self.scan x.log.room) }
        ensures judged { IfOk result (λ x. IsValidatorOf self.scan.pages x.validator
            self.scan.log) }
        ensures judging { IfOk result (λ x. judges x.validator ≡ follows phase) }
        ensures pool { IfOk result (λ x. (x.pool ≡ self.taken.pool)
            × (x.count ≡ self.taken.count) × (x.waiting ≡ self.taken.waiting)) }
        ensures fault { IfErr result (λ u. IsBare u.fault
            × CountsLog u.fault self.scan.failures (D.failures u.log)) }
        ensures left_log { IfErr result (λ u. IsScanLeft self.scan (D.slot u.log)
            (D.block_count u.log) (D.attempts u.log)) }
        ensures left_pages { IfErr result (λ u. IsPoolLeft self.taken.pool.pool.frames
            (D.slot u.pages) (D.block_count u.pages) (D.failures u.pages) (D.attempts u.pages)) }
    {
        let Reading {
            scan,
            taken,
            met: _,
        } = self;
        let (pool, count, waiting) = taken.into_parts();
        // For the prover alone: there are as many blocks as pages that wait for changes.
        let _ = pool.pages();
        match scan.into_parts() {
            Ok((log, validator)) => Ok(ReadLog {
                log,
                pool,
                validator: kept_for(validator, phase),
                count,
                waiting,
            }),
            Err(unread) => {
                let Unread { disk, fault } = unread;
                let fault = Fault::from(fault);
                Err(UnreadLog {
                    log: disk,
                    pages: pool.into_disk(),
                    fault,
                })
            }
        }
    }
}
