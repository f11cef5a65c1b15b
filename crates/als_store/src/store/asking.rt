ghost use Rattle.std.specs.Prelude.{◌≡◌, ◌≤◌, ◌^◌, ◌⊎◌, length, IfOk, IfErr};
ghost use Rattle.als_analysis.specs.Open.{rows_of};
ghost use Rattle.als_log.specs.Local.{IsFrontEnd};
ghost use Rattle.als_log.specs.Outcomes.{ReadFails};
ghost use Rattle.als_log.specs.Reading.{record_at, HasRowsAt};
ghost use Rattle.als_pool.specs.Images.{IsPoolOf};
ghost use Rattle.als_record.specs.LogText.{end_of};
ghost use Rattle.als_record.specs.Table.{table_of};
ghost use Rattle.als_record.specs.Validity.{IsValidLog};
ghost use Rattle.als_store.specs.declared.fault.Fault.TheVariants as fault;
ghost use Rattle.als_store.specs.Events.{NotRead};
ghost use Rattle.als_store.specs.Stored.{acknowledged, FrontsFit, StandsAt};
ghost use Rattle.als_store.specs.Takeover.{IsSealOf};
ghost use Rattle.als_store.specs.Warm.{WasWarm};

use super::Store;
use crate::fault::Fault;
use als_analysis::OpenRow;
use als_disk::BlockDisk;
use als_log::{Fault as LogFault, LocalLog};
use als_record::{Lsn, Record};

/// The record of the log at an LSN.
fn read_log<D: BlockDisk>(log: &mut LocalLog<D>, lsn: Lsn) -> Result<Option<Record>, Fault>
    ensures ok { IfOk result (λ found. (found ≡ record_at log.old.log lsn.0)
        × (log.new ≡ log.old)) }
    ensures err { IfErr result (λ f.
        ((f ≡ fault.Memory) × HasRowsAt log.old.log lsn.0 × (log.new ≡ log.old))
        ⊎ ((f ≡ fault.Device) × ReadFails log.old log.new)) }
{
    match log.read_at(lsn) {
        Ok(found) => Ok(found),
        Err(LogFault::Memory) => Err(Fault::Memory),
        Err(_) => Err(Fault::Device),
    }
}

impl<D: BlockDisk> Store<D> {
    /// The database's page count.
    pub fn pages(&self) -> u32
        ensures { result ≡ self.now.stored.pages }
    {
        self.pages
    }

    /// The offset after the last record.
    pub fn end(&self) -> Lsn
        ensures end { result.0 ≡ end_of self.now.stored.log }
        ensures limit { end_of self.now.stored.log ≤ 2 ^ 31 }
        ensures fit { FrontsFit self.now.stored.blocks (acknowledged self.now.stored)
            self.now.stored.log }
        ensures log { IsValidLog self.now.stored.pages self.now.stored.log }
    {
        self.log.end()
    }

    /// How many records are held.
    pub fn len(&self) -> usize
        ensures count { result ≡ length self.now.stored.log }
        ensures log { IsValidLog self.now.stored.pages self.now.stored.log }
    {
        self.count.records
    }

    /// The offset below which no log byte can be lost: the mark in the control block as last
    /// synced.
    pub fn acknowledged(&self) -> Lsn
        ensures lsn { result.0 ≡ acknowledged self.now.stored }
        // It is the end of a record of the log.
        ensures front { IsFrontEnd self.now.stored.log (acknowledged self.now.stored) }
        // If the devices were sound when the store was made: the pages, their images and their rows
        // are the log's, and no image has a page_LSN above what is acknowledged.
        ensures pool { WasWarm self.now.stored
            → IsPoolOf self.now.stored.log (acknowledged self.now.stored) self.now.stored.pool }
        ensures count { length self.now.stored.pool.waits ≡ self.now.stored.pages }
        // Past Following the seal is acknowledged.
        ensures seal { IsSealOf self.now.stored.control }
    {
        self.control.acknowledged()
    }

    /// A write or a sync has failed.
    pub fn is_broken(&self) -> bool
        ensures { result ≡ self.now.stored.broken }
    {
        self.broken
    }

    /// The store was opened, and `ready` was not called yet.
    pub fn is_recovering(&self) -> bool
        ensures { result ≡ self.now.stored.recovering }
    {
        self.recovering
    }

    /// The transaction table: a row for each unended transaction, in rising TransID.
    pub fn table(&self) -> &[OpenRow]
        ensures { rows_of result.now ≡ table_of self.now.stored.log }
    {
        self.validator.rows()
    }

    /// The record that stands at an LSN, read from the log device where it is no longer in memory.
    /// Memory: there was none for the rows of the end_chkpt that stands there; no other record
    /// takes any. Device and Memory change nothing, but that the failure is counted.
    pub fn record_at(&mut self, lsn: Lsn) -> Result<Option<Record>, Fault>
        ensures ok { IfOk result (λ r. StandsAt self.old.stored.log lsn r
            × (self.new.stored ≡ self.old.stored)) }
        ensures err { IfErr result (λ f. NotRead self.old.stored lsn f self.new.stored) }
    {
        let found = read_log(&mut self.log, lsn)?;
        Ok(found)
    }
}
