ghost use Rattle.std.specs.Prelude.{◌≡◌, ◌<◌, ◌+◌, ◌⊎◌, false, IfOk, IfErr, OnOk};
ghost use Rattle.als_log.specs.Local.{next_written, whole_end};
ghost use Rattle.als_log.specs.Outcomes.{AttemptFails};
ghost use Rattle.als_record.specs.LogText.{end_of};
ghost use Rattle.als_store.specs.declared.fault.Fault.TheVariants as fault;
ghost use Rattle.als_store.specs.Events.{Breaks, WritesLog, NotWritten, SyncsLog};
ghost use Rattle.als_store.specs.Events.{WritesMark, NotMarked, SyncsControl};
ghost use Rattle.als_store.specs.Takeover.{GoesOn};

use super::Store;
use crate::fault::Fault;
use als_disk::BlockDisk;
use als_log::{Fault as LogFault, LocalLog};
use als_pool::mark_changes_nothing;
use als_record::Lsn;

/// Writes the first block of the log with unwritten bytes.
fn write_block<D: BlockDisk>(log: &mut LocalLog<D>) -> Result<(), Fault>
    ensures ok { OnOk result ((log.old.written < end_of log.old.log)
        × (log.new ≡ record log.old {
          written = next_written log.old.log log.old.written;
          attempts = log.old.attempts + 1;
        })) }
    ensures err { IfErr result (λ f.
        ((f ≡ fault.NothingToDo) × (log.old.written ≡ end_of log.old.log) × (log.new ≡ log.old))
        ⊎ ((f ≡ fault.Device) × (log.old.written < end_of log.old.log)
        × AttemptFails log.old log.new)) }
{
    match log.write_block() {
        Ok(()) => Ok(()),
        Err(LogFault::NothingToDo) => Err(Fault::NothingToDo),
        Err(_) => Err(Fault::Device),
    }
}

/// Syncs the log.
fn sync_log<D: BlockDisk>(log: &mut LocalLog<D>) -> Result<(), Fault>
    ensures ok { OnOk result (log.new ≡ record log.old {
      synced = whole_end log.old.log log.old.written;
      attempts = log.old.attempts + 1;
      room = log.new.room;
    }) }
    ensures err { IfErr result (λ f. (f ≡ fault.Device) × AttemptFails log.old log.new) }
{
    match log.sync() {
        Ok(()) => Ok(()),
        Err(_) => Err(Fault::Device),
    }
}

impl<D: BlockDisk> Store<D> {
    /// Writes the first block of the log with unwritten bytes: one write of the log device.
    /// NothingToDo: there is none. Device: the device failed.
    pub fn log_write(&mut self) -> Result<(), Fault>
        requires { self.old.stored.broken ≡ false }
        ensures ok { OnOk result (WritesLog self.old.stored self.new.stored) }
        ensures err { IfErr result (λ f. NotWritten self.old.stored f self.new.stored) }
    {
        match write_block(&mut self.log) {
            Ok(()) => Ok(()),
            Err(Fault::NothingToDo) => Err(Fault::NothingToDo),
            Err(fault) => {
                self.broken = true;
                Err(fault)
            }
        }
    }

    /// Syncs the log device, by one sync.
    pub fn log_sync(&mut self) -> Result<(), Fault>
        requires { self.old.stored.broken ≡ false }
        ensures ok { OnOk result (SyncsLog self.old.stored self.new.stored) }
        ensures err { IfErr result (λ f. (f ≡ fault.Device)
            × Breaks self.old.stored self.new.stored) }
    {
        // For the prover alone: what always holds of the log.
        let _ = self.log.end();
        match sync_log(&mut self.log) {
            Ok(()) => Ok(()),
            Err(fault) => {
                self.broken = true;
                Err(fault)
            }
        }
    }

    /// Writes the control block with the synced end as its mark: one write of the control device.
    /// NothingToDo: the last mark written is that already.
    pub fn mark_write(&mut self) -> Result<(), Fault>
        requires { self.old.stored.broken ≡ false }
        ensures ok { OnOk result (WritesMark self.old.stored self.new.stored) }
        ensures err { IfErr result (λ f. NotMarked self.old.stored f self.new.stored) }
    {
        // For the prover alone: what always holds of the log.
        let _ = self.log.end();
        let synced = self.log.synced();
        let newest = self.control.newest();
        if synced.0 <= newest.mark.0 {
            return Err(Fault::NothingToDo);
        }
        match self.control.write_mark(synced) {
            Ok(()) => Ok(()),
            Err(_) => {
                self.broken = true;
                Err(Fault::Device)
            }
        }
    }

    /// Syncs the control device, by one sync, and answers the acknowledged LSN.
    pub fn ctl_sync(&mut self) -> Result<Lsn, Fault>
        requires { self.old.stored.broken ≡ false }
        ensures ok { IfOk result (λ lsn. SyncsControl self.old.stored lsn self.new.stored) }
        // Of the synced states the phase never falls, and past Following the seal stays.
        ensures goes_on { OnOk result (GoesOn self.old.stored.control self.new.stored.control) }
        ensures err { IfErr result (λ f. (f ≡ fault.Device)
            × Breaks self.old.stored self.new.stored) }
    {
        match self.control.sync() {
            Ok(()) => {
                mark_changes_nothing();
                Ok(self.control.acknowledged())
            }
            Err(_) => {
                self.broken = true;
                Err(Fault::Device)
            }
        }
    }
}
