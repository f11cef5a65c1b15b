ghost use Rattle.std.specs.Prelude.{◌≡◌, ◌⊎◌, ℕ, ◌<◌, ◌≤◌, ◌*◌, true, List, [], ◌∷◌, ◌++◌, None, IfOk};
ghost use Rattle.std.specs.Prelude.{IfErr, MatchBool};
ghost use Rattle.als_record.specs.declared.record.Record.{Record as AnyRecord};
ghost use Rattle.als_record.specs.LogText.{log_text, end_of};
ghost use Rattle.als_record.specs.Validity.{IsValidLog};
ghost use Rattle.als_analysis.specs.Noted.{IsTableOf};
ghost use Rattle.als_disk.specs.Slot.{IsSettled, SameBlocks};
ghost use Rattle.als_validator.specs.Validated.{IsValidatorOf, judges};
ghost use Rattle.als_scan.specs.Scanned.{IsScanned, IsWhole, HandsNext, RefusesNext, GivesNextOf};
ghost use Rattle.als_scan.specs.Scanned.{HandsOut, GoesOnOf};
ghost use Rattle.als_scan.specs.Scanned.{RefusesHeader, RefusesLog, scanned, taken_up};
ghost use Rattle.als_scan.specs.Texts.{text_of, slot_in};

use crate::fault::Fault;
use crate::judge::Judge;
use crate::reading::{begin, fill};
use crate::taking::TakeRecord;
use crate::unread::Unread;
use als_analysis::TransTable;
use als_disk::BlockDisk;
use als_log::{LocalLog, Unopened};
use als_record::{Lsn, Record};
use als_validator::Validator;
use std::alloc::Global;
use std::marker::Model;

/// The log that stands on a device below a mark, read from its first record on. Each record is
/// judged by those before it and then handed out. Memory holds what a validator keeps of them, and
/// the bytes of the longest record and of one block at most.
pub struct Scan<D: BlockDisk> {
    alloc: Global,
    disk: D,
    pages: u32,
    mark: u64,
    judge: Judge,
}

impl<D: BlockDisk> Model for Scan<D> {
    ghost use Rattle.als_scan.specs.Scanned.{Scanned, scanned, IsScan};

    ghost Value = { Scanned };

    ghost view = { λ s. scanned s.pages s.judge.log s.mark (D.slot s.disk) (D.block_count s.disk)
        (D.failures s.disk) (D.attempts s.disk) };

    ghost invariant = { λ s. IsScan s.pages s.mark (D.block_count s.disk) (D.slot s.disk) s.judge };
}

// Written out: a derived drop is proved wherever a scan is dropped, this one only here.
impl<D: BlockDisk + Drop> Drop for Scan<D> {
    fn drop(self) {
        let Scan {
            alloc: _,
            disk,
            pages: _,
            mark: _,
            judge,
        } = self;
        drop(disk);
        drop(judge);
    }
}

impl<D: BlockDisk> Scan<D> {
    /// Reads the header of the log of a database with so many pages, of which the text stands below
    /// a mark on a device that was synced.
    ///
    /// `Device`: the device failed. `Shape(BadHeader)`: the header is damaged, or that of another
    /// page count. `Memory`: an allocation failed. The device comes back as it was.
    pub fn new(alloc: Global, disk: D, pages: u32, mark: u64) -> Result<Scan<D>, Unread<D>>
        requires settled { (k : ℕ) → IsSettled (D.slot disk k) }
        requires few { D.block_count disk ≤ 4194304 }
        requires low { 16 ≤ mark }
        requires high { mark ≤ 512 * D.block_count disk }
        ensures ok { IfOk result (λ s. s
            ≡ scanned pages [] mark (D.slot disk) (D.block_count disk) (D.failures disk)
            (D.attempts disk)) }
        ensures facts { IfOk result IsScanned }
        ensures err { IfErr result (λ u. RefusesHeader u.fault (text_of (D.slot disk) mark) pages
            (D.failures disk) (D.failures u.disk)) }
        // Over the text of a log no header is refused.
        ensures bare { (log : List AnyRecord) → IsValidLog pages log → 1 ≤ pages → pages ≤ 4096
            → text_of (D.slot disk) mark ≡ log_text pages log
            → IfErr result (λ u. RefusesLog u.fault (D.failures disk) (D.failures u.disk)) }
        ensures same { IfErr result (λ u. SameBlocks (D.slot disk) (D.slot u.disk)) }
        ensures counts { IfErr result (λ u. (D.block_count u.disk ≡ D.block_count disk)
            × (D.attempts u.disk ≡ D.attempts disk)) }
    {
        let mut disk = disk;
        match begin(alloc, &mut disk, pages) {
            Ok(judge) => Ok(Scan {
                alloc,
                disk,
                pages,
                mark,
                judge,
            }),
            Err(fault) => Err(Unread { disk, fault }),
        }
    }

    /// The next record, which may follow those before it; `None` where the mark is their end.
    ///
    /// Any fault of the bytes is that of the first record that is refused. `Shape`: the bytes are
    /// no record. `Invalid`: the record may not follow. `BadControl`: the mark stands within a
    /// record. `Device`: the device failed. `Memory`: an allocation failed. After the last two the
    /// call may be made again.
    #[inline(always)]
    pub fn next(&mut self) -> Result<Option<Record>, Fault>
        ensures ok { IfOk result (λ found. HandsNext self.old found self.new) }
        ensures err { IfErr result (λ fault. RefusesNext self.old fault self.new) }
        ensures facts { IsScanned self.new }
        // Over the text of a log its records are handed out, and no fault comes but a failed device
        // and want of memory.
        ensures bare { (log : List AnyRecord) → IsValidLog self.old.pages log
            → self.old.text ≡ log_text self.old.pages log
            → GivesNextOf log self.old.log result }
    {
        fill(&mut self.disk, &mut self.judge, self.mark)?;
        let found = self.judge.take_one(self.alloc)?;
        Ok(found)
    }

    /// Hands the next record, which may follow those before it, to a taker as it lies in the bytes
    /// that were read: nothing is copied. `false` where the mark is their end.
    ///
    /// The faults are those of `next`. `Memory` is the taker's fault too: then no record was handed
    /// out, and of the taker no more is known than its `keeps`.
    #[inline(always)]
    pub fn next_to<T: TakeRecord>(&mut self, taker: &mut T) -> Result<bool, Fault>
        requires can { (r : AnyRecord) → IsValidLog self.old.pages (self.old.log ++ r ∷ [])
            → T.can taker.old r }
        ensures ok { IfOk result (λ more. MatchBool more
            ((r : AnyRecord) × HandsOut self.old r self.new
            × T.took taker.old self.old.log r taker.new)
            (HandsNext self.old None self.new × (taker.new ≡ taker.old))) }
        ensures err { IfErr result (λ fault. RefusesNext self.old fault self.new) }
        ensures keeps { (taker.new ≡ taker.old) ⊎ T.keeps taker.old taker.new }
        ensures facts { IsScanned self.new }
        // Over the text of a log its records are handed out, and no fault comes but a failed device
        // and want of memory.
        ensures bare { (log : List AnyRecord) → IsValidLog self.old.pages log
            → self.old.text ≡ log_text self.old.pages log
            → GoesOnOf log self.new.log result }
    {
        fill(&mut self.disk, &mut self.judge, self.mark)?;
        self.judge.look_ahead();
        let more = self.judge.hand_to(self.alloc, taker)?;
        Ok(more)
    }

    /// The offset behind the records handed out, 16 before the first.
    pub fn end(&self) -> Lsn
        ensures end { result.0 ≡ end_of self.now.log }
        ensures facts { IsScanned self.now }
    {
        self.judge.end()
    }

    /// What a validator keeps of the records handed out. It judges.
    pub fn validator(&self) -> &Validator
        ensures known { IsValidatorOf self.now.pages result.now self.now.log }
        ensures judging { judges result.now ≡ true }
    {
        self.judge.validator()
    }

    /// Their transaction table.
    pub fn table(&self) -> &TransTable
        ensures table { IsTableOf result.now self.now.log }
    {
        self.judge.validator().table()
    }

    /// The log, all of it written and synced, and the validator of its records, once `next` has
    /// answered `None`. Its last block is read again.
    ///
    /// `Device`: the device failed. `Memory`: an allocation failed. Both hand the device back as it
    /// was.
    pub fn into_parts(self) -> Result<(LocalLog<D>, Validator), Unread<D>>
        requires { IsWhole self }
        ensures log { IfOk result (λ parts. parts.0 ≡ taken_up self parts.0.room) }
        ensures known { IfOk result (λ parts. IsValidatorOf self.pages parts.1 self.log) }
        ensures judging { IfOk result (λ parts. judges parts.1 ≡ true) }
        ensures err { IfErr result (λ u. RefusesLog u.fault self.failures (D.failures u.disk)) }
        ensures same { IfErr result (λ u. (k : ℕ) → k < self.blocks
            → D.slot u.disk k ≡ slot_in self.slots k) }
        ensures counts { IfErr result (λ u. (D.block_count u.disk ≡ self.blocks)
            × (D.attempts u.disk ≡ self.attempts)) }
    {
        let Scan {
            alloc,
            disk,
            pages,
            mark,
            judge,
        } = self;
        let (validator, history) = judge.into_parts();
        match LocalLog::reopen(alloc, disk, pages, history, mark) {
            Ok(log) => Ok((log, validator)),
            Err(refused) => {
                let Unopened { disk, fault } = refused;
                let fault = Fault::from(fault);
                Err(Unread { disk, fault })
            }
        }
    }

    /// The device, as it was before the first read.
    pub fn into_disk(self) -> D
        ensures same { (k : ℕ) → k < self.blocks → D.slot result k ≡ slot_in self.slots k }
        ensures count { D.block_count result ≡ self.blocks }
        ensures failures { D.failures result ≡ self.failures }
        ensures attempts { D.attempts result ≡ self.attempts }
    {
        let Scan {
            alloc: _,
            disk,
            pages: _,
            mark: _,
            judge,
        } = self;
        drop(judge);
        disk
    }
}
