ghost use Rattle.std.specs.Prelude.{◌≡◌, ◌≤◌, ◌++◌, None, Some, Ok, OnOk, IfOk, IfErr, ℕ, List, take};
ghost use Rattle.als_record.specs.LogText.{end_of, header_bytes};
ghost use Rattle.als_record.specs.Validity.{IsValidLog};
ghost use Rattle.als_compare.specs.Summaries.{summary_of};
ghost use Rattle.als_lookback.specs.declared.fault.Fault.TheVariants.{Memory as OutOfMemory};
ghost use Rattle.als_lookback.specs.declared.until.Until.TheVariants.{End};
ghost use Rattle.als_lookback.specs.Judged.{begun, position_of, reading_of};
ghost use Rattle.als_lookback.specs.Refusals.{RefusesLook};
ghost use Rattle.als_backup.specs.Texts.{held_in};

use crate::judging::judge_whole;
use als_compare::{Summary, Summing};
use als_folder::LOG_LIMIT;
use als_lookback::{Fault as LookFault, Judge};
use als_record::{LogHeader, Lsn};
use std::alloc::Global;
use std::marker::Model;

/// The text of a log that comes in pieces. Its records are judged as soon as they are whole, and it is
/// summed. Memory holds what a validator keeps, and the bytes of one record.
pub struct Text {
    pages: u32,
    judge: Judge,
    summing: Summing,
}

impl Model for Text {
    ghost use Rattle.std.specs.Prelude.{◌≡◌};
    ghost use Rattle.als_record.specs.Validity.{IsValidLog};
    ghost use Rattle.als_compare.specs.Summaries.{Sums};
    ghost use Rattle.als_lookback.specs.Judged.{Judged};
    ghost use Rattle.als_backup.specs.Texts.{held_in};

    ghost Value = { Judged };

    ghost view = { λ t. t.judge };

    ghost invariant = { λ t. (t.judge.pages ≡ t.pages) × IsValidLog t.judge.pages t.judge.log
        × Sums t.summing (held_in t.judge) };
}

// Written out: a derived drop is proved wherever a text is dropped, this one only here.
impl Drop for Text {
    fn drop(self) {
        let Text {
            pages: _,
            judge,
            summing,
        } = self;
        drop(judge);
        drop(summing);
    }
}

impl Text {
    /// The header of a log of a database of so many pages, which is all that has come.
    pub fn new(alloc: Global, pages: u32) -> Result<Text, LookFault>
        ensures ok { IfOk result (λ t. t ≡ begun pages) }
        ensures begins { IfOk result (λ t. position_of t ≡ 16) }
        ensures fails { IfErr result (λ fault. fault ≡ OutOfMemory) }
    {
        let judge = Judge::new(alloc, pages)?;
        let mut summing = Summing::new();
        summing.add(&LogHeader { pages }.encode());
        Ok(Text {
            pages,
            judge,
            summing,
        })
    }

    /// The page count of the log's database.
    pub fn pages(&self) -> u32
        ensures { result ≡ self.now.pages }
    {
        self.pages
    }

    /// The offset of the byte that comes next.
    pub fn position(&self) -> u64
        ensures position { result ≡ position_of self.now }
        ensures valid { IsValidLog self.now.pages self.now.log }
    {
        self.judge.position()
    }

    /// The offset behind the records judged.
    pub fn end(&self) -> Lsn
        ensures { result.0 ≡ end_of self.now.log }
    {
        self.judge.end()
    }

    /// The summary of all that has come, held in this epoch.
    pub fn summary(&self, epoch: u32) -> Summary
        ensures { result ≡ summary_of epoch (held_in self.now) }
    {
        self.summing.summary(epoch)
    }

    /// Takes the next bytes, and judges each record that is whole by then.
    ///
    /// Shape: the bytes are no record. Invalid: it may not follow. Stream: there are more bytes than the
    /// largest log has. Memory: an allocation failed.
    pub fn take(&mut self, alloc: Global, piece: &[u8]) -> Result<(), LookFault>
        ensures taken { OnOk result (held_in self.new ≡ held_in self.old ++ piece.now) }
        ensures whole { OnOk result (reading_of self.new ≡ Ok None) }
        ensures pages { self.new.pages ≡ self.old.pages }
        ensures fails { IfErr result (RefusesLook (Some (held_in self.old ++ piece.now)) End) }
    {
        if self.judge.position() > LOG_LIMIT {
            return Err(LookFault::Stream);
        }
        self.judge.push(piece)?;
        self.summing.add(piece);
        judge_whole(alloc, &mut self.judge)?;
        Ok(())
    }
}
