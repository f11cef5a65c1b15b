ghost use Rattle.std.specs.Prelude.{◌≡◌, ◌≤◌, ◌<◌, ◌++◌, ℕ, List, length, take, IfOk, IfErr, OnOk};
ghost use Rattle.als_ship.specs.declared.fault.Fault.TheVariants as fault;
ghost use Rattle.als_sending.specs.Accounts.{reads_of};
ghost use Rattle.als_sending.specs.Reads.{AreOf};
ghost use Rattle.als_compare.specs.Summaries.{summary_of};
ghost use Rattle.als_comparing.specs.Answers.{IsOfReading};
ghost use Rattle.als_comparing.specs.Summed.{SumsFront};

use als_compare::{Summary, Summing};
use als_sending::Account;
use als_ship::{Fault, PIECE_LIMIT};
use std::alloc::Global;
use std::os::unix::fs::FileExt;
use std::vec::Vec;

/// A log that is held in a file and grows: offset o of the log is offset o of the file. It is summed as far
/// as it was asked for, and no byte is read twice. That a read of the file gives the log's bytes is a premise.
pub struct HeldLog<F> {
    file: F,
    summing: Summing,
    /// What was read, for clauses alone.
    account: Account,
}

impl<F: Drop> Drop for HeldLog<F> {
    fn drop(self) {
        let HeldLog {
            file,
            summing,
            account,
        } = self;
        drop(file);
        drop(summing);
        drop(account);
    }
}

impl<F: FileExt + Drop> HeldLog<F> {
    /// The log in this file, of which nothing was read.
    pub fn new(file: F) -> HeldLog<F>
        ensures { SumsFront (reads_of result.account) result.summing }
    {
        HeldLog {
            file,
            summing: Summing::new(),
            account: Account::Nothing,
        }
    }

    /// The summary of its text up to there, held in this epoch.
    ///
    /// Stream: the file can't be read. Memory: there was none for a piece.
    pub fn summary(&mut self, alloc: Global, epoch: u32, end: u64) -> Result<Summary, Fault>
        // It is that of each text of which all reads of the file are.
        ensures summary { IfOk result (λ summary.
            SumsFront (reads_of self.old.account) self.old.summing
            → (text : List ℕ) → AreOf text (reads_of self.new.account)
            → summary ≡ summary_of epoch (take end text)) }
        ensures sums { SumsFront (reads_of self.old.account) self.old.summing
            → SumsFront (reads_of self.new.account) self.new.summing }
        ensures fails { IfErr result IsOfReading }
    {
        let mut room = Vec::new(alloc);
        room.resize(PIECE_LIMIT, 0)?;
        self.begin_below(end);
        self.add_all(end, room.as_mut_slice())?;
        Ok(self.summing.summary(epoch))
    }

    /// Begins again where it was summed further.
    fn begin_below(&mut self, end: u64)
        ensures sums { SumsFront (reads_of self.old.account) self.old.summing
            → SumsFront (reads_of self.new.account) self.new.summing }
        ensures below { self.new.summing.end ≤ end }
    {
        if self.summing.end() > end {
            self.summing = Summing::new();
        }
    }

    /// Adds all up to there.
    fn add_all(&mut self, end: u64, room: &mut [u8]) -> Result<(), Fault>
        requires below { self.old.summing.end ≤ end }
        requires room { length room.old ≡ 65536 }
        ensures sums { SumsFront (reads_of self.old.account) self.old.summing
            → SumsFront (reads_of self.new.account) self.new.summing }
        ensures whole { OnOk result (self.new.summing.end ≡ end) }
        ensures fails { IfErr result (λ f. f ≡ fault.Stream) }
    {
        for _ in 0..u64::MAX {
            if self.summing.end() >= end {
                return Ok(());
            }
            self.add_piece(end, room)?;
        }
        Err(Fault::Stream)
    }

    /// Adds the next piece below there.
    fn add_piece(&mut self, end: u64, room: &mut [u8]) -> Result<(), Fault>
        requires below { self.old.summing.end < end }
        requires room { length room.old ≡ 65536 }
        ensures sums { SumsFront (reads_of self.old.account) self.old.summing
            → SumsFront (reads_of self.new.account) self.new.summing }
        ensures within { self.new.summing.end ≤ end }
        ensures fails { IfErr result (λ f. f ≡ fault.Stream) }
    {
        let at = self.summing.end();
        let len = (end - at).min(PIECE_LIMIT as u64);
        let piece = &mut room[..len as usize];
        if self.file.read_exact_at(piece, at).is_err() {
            return Err(Fault::Stream);
        }
        self.account.read(at, piece);
        self.summing.add(piece);
        Ok(())
    }
}
