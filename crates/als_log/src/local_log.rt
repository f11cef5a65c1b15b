//! The local log: one text on a block device.
//!
//! ```text
//! 16            synced          written            end
//! |===============|----------------|----------------|
//! | every         | on the device, | in memory      |
//! | candidate     | not synced     | alone          |
//! ```
//!
//! Rules:
//! 1. The text only grows. Nothing below the end is written with other bytes.
//! 2. `append` works in memory. `write_block` writes one block, `sync` makes one sync.
//! 3. The synced end is the end of a record. Below it every candidate of the device has the text,
//!    so no crash can lose it. That is the whole basis of acknowledgement.
//! 4. A record is appended only where the device has room for it and for `reserve_after` more
//!    bytes: the caller's room for a takeover's tail.
//! 5. A failed call leaves the log as it was. Only the device's counts change.
//!
//! Memory holds the bytes from the block of the synced end on. Contracts speak of all records: they
//! are in a history that takes no bytes (`History`).

ghost use Rattle.std.specs.Prelude.{◌≡◌, ◌<◌, ◌≤◌, ◌+◌, ◌*◌, ℕ, [], ◌∷◌, ◌++◌, IsTrue, ◌↔◌};
ghost use Rattle.std.specs.Prelude.{IsOk, IfOk, IfErr, OnOk, OnErr, vec_len, vec_capacity};
ghost use Rattle.std.specs.Result.{IsErrOf};
ghost use Rattle.als_record.specs.Spelling.{spelling, record_len, IsRecord};
ghost use Rattle.als_record.specs.LogText.{end_of, log_text, IsLog};
ghost use Rattle.als_record.specs.Shown.{shown};
ghost use Rattle.als_disk.specs.Slot.{SameBlocks, IsSettled};
ghost use Rattle.als_log.specs.History.{records_in};
ghost use Rattle.als_log.specs.Held.{IsStored};
ghost use Rattle.als_log.specs.declared.fault.Fault.TheVariants.{LogFull, Memory as OutOfMemory};
ghost use Rattle.als_log.specs.Local.{Local, IsLocal, HasRoomFor, next_written, whole_end};
ghost use Rattle.als_log.specs.Outcomes.{RefusesRecord, RefusesBlock, RefusesSync, RefusesReading};
ghost use Rattle.als_log.specs.Outcomes.{RefusesLook, FailsToOpen};
ghost use Rattle.als_log.specs.Reading.{record_at, HasRecord};
ghost use Rattle.als_log.specs.Texts.{AllHaveText};

use crate::fault::Fault;
use crate::history::History;
use crate::near::Near;
use crate::new_log::NewLog;
use crate::part::Part;
use crate::source::Source;
use crate::unopened::Unopened;
use crate::{blocks, reading, reopening, tail};
use als_disk::BlockDisk;
use als_record::{Lsn, Record, RecordView, encode, encoded_len};
use std::alloc::{AllocError, Global};
use std::marker::Model;

/// A log on a block device: a header of 16 bytes and the records behind it, as one text whose byte
/// o is byte o mod 512 of block o / 512. An LSN is a record's offset in the text.
///
/// A record is appended in memory; its bytes reach the device with the blocks that are written, and
/// are certain to survive a crash from the next sync on. Memory holds the bytes from the block of
/// the synced end on.
pub struct LocalLog<D: BlockDisk> {
    alloc: Global,
    disk: D,
    pages: u32,
    // The offset of the first byte in memory, at a block's beginning.
    base: u64,
    tail: Vec<u8>,
    // Up to where the blocks are written.
    written: u64,
    // The end of the last record that was wholly written at the last sync.
    synced: u64,
    // The end of some records, where the next reading may begin.
    cursor: u64,
    // The blocks that were read last.
    near: Near,
    // The bytes that were read last.
    part: Part,
    history: History,
}

// Written out: a derived drop is proved wherever a log is dropped, this one only here.
impl<D: BlockDisk + Drop> Drop for LocalLog<D> {
    fn drop(self) {
        let LocalLog {
            alloc: _,
            disk,
            pages: _,
            base: _,
            tail,
            written: _,
            synced: _,
            cursor: _,
            near,
            part,
            history,
        } = self;
        drop(disk);
        drop(tail);
        drop(near);
        drop(part);
        drop(history);
    }
}

impl<D: BlockDisk> Model for LocalLog<D> {
    ghost use Rattle.std.specs.Prelude.{◌-◌, vec_len, vec_capacity};
    ghost use Rattle.als_log.specs.History.{records_in};
    ghost use Rattle.als_log.specs.Local.{Local};
    ghost use Rattle.als_log.specs.Held.{IsHeld};

    ghost Value = { Local };

    ghost view = { λ l. record {
      pages = l.pages;
      log = records_in l.history;
      written = l.written;
      synced = l.synced;
      blocks = D.block_count l.disk;
      failures = D.failures l.disk;
      attempts = D.attempts l.disk;
      room = vec_capacity l.tail - vec_len l.tail;
    } };

    ghost invariant = { λ l. IsHeld l.pages
        (records_in l.history) l.base l.written l.synced l.cursor
        (D.block_count l.disk) l.tail.items l.near (D.slot l.disk) };
}

/// The length of a record, of which these are the bytes. The record is there for the prover alone:
/// the clause speaks of it.
#[inline(always)]
fn spelled_len(_logged: &RecordView<'_>, bytes: &[u8]) -> usize
    requires { bytes.now ≡ spelling (shown _logged.now) }
    ensures { result ≡ record_len (shown _logged.now) }
{
    bytes.len()
}

/// Appends a record by its bytes, as `encode` does without them. The record is there for the prover
/// alone.
#[inline(always)]
fn copy_in(_logged: &RecordView<'_>, bytes: &[u8], out: &mut Vec<u8>) -> Result<(), AllocError>
    requires { bytes.now ≡ spelling (shown _logged.now) }
    ensures ok { OnOk result (out.new.items ≡ out.old.items ++ spelling (shown _logged.now)) }
    ensures err { OnErr result (out.new.items ≡ out.old.items) }
    ensures full { OnErr result
        (vec_capacity out.old < vec_len out.old + record_len (shown _logged.now)) }
{
    match out.extend_from_slice(bytes) {
        Ok(()) => Ok(()),
        Err(refused) => Err(refused),
    }
}

impl<D: BlockDisk> LocalLog<D> {
    /// Lays out a device as an empty log: writes the header and syncs. It takes no memory but that
    /// of `new`.
    ///
    /// The device comes back where it failed.
    pub fn lay_out(disk: D, new: NewLog) -> Result<LocalLog<D>, D>
        requires blocks { (1 ≤ D.block_count disk) × (D.block_count disk ≤ 4194304) }
        ensures ok { IfOk result (λ l. l
            ≡ record {
              pages = new;
              log = [];
              written = 16;
              synced = 16;
              blocks = D.block_count disk;
              failures = D.failures disk;
              attempts = D.attempts disk + 2;
              room = l.room;
            }) }
        ensures err { IfErr result (λ d. (D.failures disk < D.failures d)
            × (D.block_count d ≡ D.block_count disk)) }
    {
        let mut disk = disk;
        let NewLog {
            alloc,
            pages,
            text,
            part,
        } = new;
        match blocks::lay_out(&mut disk, text.as_slice()) {
            Ok(()) => {}
            Err(_) => return Err(disk),
        }
        Ok(LocalLog {
            alloc,
            disk,
            pages,
            base: 0,
            tail: text,
            written: 16,
            synced: 16,
            cursor: 16,
            near: Near::new(),
            part,
            history: History::new(),
        })
    }

    /// Takes up again the log of which the text stands on a device up to `end`, all of it certain
    /// to survive a crash. Memory then holds the bytes of its last block, which is read if it has
    /// any. The records are named for clauses alone.
    ///
    /// `Device`: the device failed. `Memory`: an allocation failed. Both hand the device back as it
    /// was.
    pub fn reopen(
        alloc: Global,
        disk: D,
        pages: u32,
        history: History,
        end: u64,
    ) -> Result<LocalLog<D>, Unopened<D>>
        requires log { IsLog pages (records_in history) }
        requires end { end ≡ end_of (records_in history) }
        requires fits { end ≤ 512 * D.block_count disk }
        requires few { D.block_count disk ≤ 4194304 }
        requires stored { IsStored (D.slot disk) (log_text pages (records_in history)) end end }
        requires settled { (k : ℕ) → IsSettled (D.slot disk k) }
        ensures ok { IfOk result (λ l. l
            ≡ record {
              pages = pages;
              log = records_in history;
              written = end;
              synced = end;
              blocks = D.block_count disk;
              failures = D.failures disk;
              attempts = D.attempts disk;
              room = l.room;
            }) }
        ensures err { IfErr result (λ u. FailsToOpen u.fault (D.failures disk)
            (D.failures u.disk)) }
        ensures same { IfErr result (λ u. SameBlocks (D.slot disk) (D.slot u.disk)) }
        ensures counts { IfErr result (λ u. (D.block_count u.disk ≡ D.block_count disk)
            × (D.attempts u.disk ≡ D.attempts disk)) }
    {
        let mut disk = disk;
        let part = match Part::new(alloc) {
            Ok(part) => part,
            Err(_) => {
                let fault = Fault::Memory;
                return Err(Unopened { disk, fault });
            }
        };
        let i = end / 512;
        match reopening::read_front(alloc, &mut disk, i, (end % 512) as usize) {
            Ok(tail) => Ok(LocalLog {
                alloc,
                disk,
                pages,
                base: 512 * i,
                tail,
                written: end,
                synced: end,
                cursor: 16,
                near: Near::new(),
                part,
                history,
            }),
            Err(fault) => Err(Unopened { disk, fault }),
        }
    }

    /// The offset after the last record, 16 if there is none: the LSN of the next one.
    pub fn end(&self) -> Lsn
        ensures end { result.0 ≡ end_of self.now.log }
        ensures facts { IsLocal self.now }
    {
        Lsn(self.base + self.tail.len() as u64)
    }

    /// The end of the last record that was wholly written at the last sync, 16 if there is none:
    /// whatever a crash leaves has the log's text below it.
    pub fn synced(&self) -> Lsn
        ensures { result.0 ≡ self.now.synced }
    {
        Lsn(self.synced)
    }

    /// Up to where the blocks have been written.
    pub fn written(&self) -> Lsn
        ensures { result.0 ≡ self.now.written }
    {
        Lsn(self.written)
    }

    /// How many pages the database has.
    pub fn pages(&self) -> u32
        ensures { result ≡ self.now.pages }
    {
        self.pages
    }

    /// How many blocks the device has.
    pub fn blocks(&self) -> u64
        ensures { result ≡ self.now.blocks }
    {
        self.disk.blocks()
    }

    /// Makes room for so many more bytes: records of that length together are then appended without
    /// memory. An `Err` (Memory) changes nothing.
    pub fn reserve(&mut self, len: usize) -> Result<(), Fault>
        ensures ok { OnOk result ((self.new ≡ record self.old { room = self.new.room })
            × (len ≤ self.new.room)) }
        ensures err { OnErr result (self.new ≡ self.old) }
        ensures memory { IfErr result (λ e. e ≡ OutOfMemory) }
        ensures reserved { len ≤ self.old.room → IsOk result }
    {
        self.tail.reserve(len)?;
        Ok(())
    }

    /// Whether a record of this length fits on the device with so many bytes left behind it.
    pub fn fits(&self, len: u64, reserve_after: u64) -> bool
        ensures { IsTrue result ↔ HasRoomFor self.now len reserve_after }
    {
        let free = 512 * self.disk.blocks() - (self.base + self.tail.len() as u64);
        len <= free && reserve_after <= free - len
    }

    /// Appends a record, in memory. `reserve_after` bytes of the device must be left behind it.
    ///
    /// `LogFull`: the device has no room for that. `Memory`: an allocation failed, which does not
    /// come where `reserve` has made the room. Both leave the log as it was.
    pub fn append(&mut self, logged: &Record, reserve_after: u64) -> Result<(), Fault>
        requires fits { IsRecord self.old.pages logged.now }
        requires place { logged.now.lsn.0 ≡ end_of self.old.log }
        ensures ok { OnOk result (self.new
            ≡ record self.old { log = self.old.log ++ logged.now ∷ []; room = self.new.room }) }
        ensures room { OnOk result (HasRoomFor self.old (record_len logged.now) reserve_after) }
        ensures err { OnErr result (self.new ≡ record self.old { room = self.new.room }) }
        ensures cause { IfErr result (λ e. RefusesRecord e self.old
            (record_len logged.now) reserve_after) }
        ensures full { 512 * self.old.blocks
            < end_of self.old.log + record_len logged.now + reserve_after → IsErrOf result LogFull }
        ensures reserved { HasRoomFor self.old (record_len logged.now) reserve_after
            → record_len logged.now ≤ self.old.room → IsOk result }
    {
        if !self.fits(encoded_len(logged) as u64, reserve_after) {
            return Err(Fault::LogFull);
        }
        match encode(logged, &mut self.tail) {
            Ok(()) => {
                self.history.push(logged);
                Ok(())
            }
            Err(_) => Err(Fault::Memory),
        }
    }

    /// The same of a record that is seen and whose bytes are there already: they are copied, which
    /// is faster than to spell it. The view is there for the prover alone.
    #[inline(always)]
    pub fn append_spelled(
        &mut self,
        logged: &RecordView<'_>,
        bytes: &[u8],
        reserve_after: u64,
    ) -> Result<(), Fault>
        requires fits { IsRecord self.old.pages (shown logged.now) }
        requires place { (shown logged.now).lsn.0 ≡ end_of self.old.log }
        requires spelled { bytes.now ≡ spelling (shown logged.now) }
        ensures ok { OnOk result (self.new ≡ record self.old {
          log = self.old.log ++ shown logged.now ∷ [];
          room = self.new.room;
        }) }
        ensures room { OnOk result
            (HasRoomFor self.old (record_len (shown logged.now)) reserve_after) }
        ensures err { OnErr result (self.new ≡ record self.old { room = self.new.room }) }
        ensures cause { IfErr result
            (λ e. RefusesRecord e self.old (record_len (shown logged.now)) reserve_after) }
        ensures full { 512 * self.old.blocks
            < end_of self.old.log + record_len (shown logged.now) + reserve_after
            → IsErrOf result LogFull }
        ensures reserved { HasRoomFor self.old (record_len (shown logged.now)) reserve_after
            → record_len (shown logged.now) ≤ self.old.room → IsOk result }
    {
        if !self.fits(spelled_len(logged, bytes) as u64, reserve_after) {
            return Err(Fault::LogFull);
        }
        match copy_in(logged, bytes, &mut self.tail) {
            Ok(()) => {
                self.history.push_view(logged);
                Ok(())
            }
            Err(_) => Err(Fault::Memory),
        }
    }

    /// Writes the first block with unwritten bytes, with zeros behind the log's end: one write of
    /// the device. It takes no memory.
    ///
    /// `NothingToDo`: no byte is unwritten, and the device is not called. `Device`: the device
    /// failed, and the block counts as unwritten.
    pub fn write_block(&mut self) -> Result<(), Fault>
        ensures ok { OnOk result ((self.old.written < end_of self.old.log)
            × (self.new ≡ record self.old {
              written = next_written self.old.log self.old.written;
              attempts = self.old.attempts + 1;
            })) }
        ensures err { IfErr result (λ e. RefusesBlock e self.old self.new) }
    {
        let end = self.base + self.tail.len() as u64;
        if self.written == end {
            return Err(Fault::NothingToDo);
        }
        let i = self.written / 512;
        let block = blocks::block_at(self.tail.as_slice(), (512 * i - self.base) as usize);
        blocks::write(&mut self.disk, i, &block)?;
        self.written = end.min(512 * i + 512);
        Ok(())
    }

    /// Makes the records that are wholly written certain to survive a crash, and forgets the bytes
    /// in front of the block of their end: one sync of the device. It takes no memory.
    ///
    /// `Device`: the device failed, and nothing else has changed.
    pub fn sync(&mut self) -> Result<(), Fault>
        ensures ok { OnOk result (self.new
            ≡ record self.old {
              synced = whole_end self.old.log self.old.written;
              attempts = self.old.attempts + 1;
              room = self.new.room;
            }) }
        ensures room { OnOk result (self.old.room ≤ self.new.room) }
        ensures err { IfErr result (λ e. RefusesSync e self.old self.new) }
    {
        blocks::sync(&mut self.disk)?;
        let whole = tail::whole_end_of(
            &self.history,
            self.tail.as_slice(),
            self.base,
            self.synced,
            self.written,
        );
        let front = 512 * (whole / 512);
        tail::drop_front(&mut self.tail, (front - self.base) as usize);
        self.synced = whole;
        self.base = front;
        Ok(())
    }

    /// The record that stands at an LSN, or `None` where none does. Records that are read in rising
    /// order are found by one step each; any other is searched for from the first record on.
    ///
    /// `Device`: the device failed. `Memory`: there was none for the rows of the end_chkpt that
    /// stands there; no other record takes any.
    pub fn read_at(&mut self, lsn: Lsn) -> Result<Option<Record>, Fault>
        ensures ok { IfOk result (λ found. found ≡ record_at self.old.log lsn.0) }
        ensures same { OnOk result (self.new ≡ self.old) }
        ensures err { IfErr result (λ e. RefusesReading lsn.0 e self.old self.new) }
        // At and behind the log's end there is none, which takes no look at the device.
        ensures past { end_of self.old.log ≤ lsn.0 → IsOk result }
    {
        let source = Source {
            history: &self.history,
            pages: self.pages,
            bytes: self.tail.as_slice(),
            base: self.base,
        };
        let (cursor, found) = reading::find(
            source,
            self.alloc,
            &mut self.disk,
            self.cursor,
            lsn.0,
            &mut self.near,
            &mut self.part,
        )?;
        self.cursor = cursor;
        Ok(found)
    }

    /// The record that stands at an LSN, where its caller knows that one does: it is read with no
    /// walk. Of any other LSN it is only said that nothing breaks.
    ///
    /// `Device`: the device failed. `Memory`: there was none for the rows of the end_chkpt that
    /// stands there; no other record takes any.
    #[inline(always)]
    pub fn record(&mut self, lsn: Lsn) -> Result<Option<Record>, Fault>
        ensures ok { HasRecord self.old.log lsn.0
            → IfOk result (λ found. found ≡ record_at self.old.log lsn.0) }
        ensures same { OnOk result (self.new ≡ self.old) }
        ensures err { IfErr result (λ e. RefusesLook lsn.0 e self.old self.new) }
    {
        let source = Source {
            history: &self.history,
            pages: self.pages,
            bytes: self.tail.as_slice(),
            base: self.base,
        };
        reading::look(
            source,
            self.alloc,
            &mut self.disk,
            lsn.0,
            &mut self.near,
            &mut self.part,
        )
    }

    /// The device. Whatever a crash leaves of it has the log's text below the synced end, and
    /// whatever a read gives has it up to where the blocks have been written.
    pub fn into_disk(self) -> D
        ensures kept { AllHaveText (λ b. (D.slot result b).candidates)
            (log_text self.pages self.log) self.synced }
        ensures stored { AllHaveText (λ b. (D.slot result b).readable)
            (log_text self.pages self.log) self.written }
        // A block that ends at or below the synced end, or begins above the written end, has one
        // content.
        ensures before { (k : ℕ) → 512 * k + 512 ≤ self.synced → IsSettled (D.slot result k) }
        ensures beyond { (k : ℕ) → self.written < 512 * k → IsSettled (D.slot result k) }
        ensures count { D.block_count result ≡ self.blocks }
        ensures failures { D.failures result ≡ self.failures }
        ensures attempts { D.attempts result ≡ self.attempts }
        ensures facts { IsLocal self }
    {
        let LocalLog {
            alloc: _,
            disk,
            pages: _,
            base: _,
            tail,
            written: _,
            synced: _,
            cursor: _,
            near,
            part,
            history,
        } = self;
        drop(tail);
        drop(near);
        drop(part);
        drop(history);
        disk
    }
}
