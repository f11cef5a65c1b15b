ghost use Rattle.std.specs.Prelude.{◌≡◌, ◌≢◌, ◌⊎◌, ℕ, ◌<◌, ◌≤◌, ◌+◌, ◌^◌, true, false, List, [], ◌∷◌, ◌++◌};
ghost use Rattle.std.specs.Prelude.{length, None, Ok, Err, OnOk, OnErr, IfOk, IfErr, MatchBool, IsOk};
ghost use Rattle.als_record.specs.declared.record.Record.{Record as AnyRecord};
ghost use Rattle.als_record.specs.Spelling.{IsRecord, record_len};
ghost use Rattle.als_record.specs.LogText.{end_of};
ghost use Rattle.als_record.specs.Reading.{word_at};
ghost use Rattle.als_record.specs.Shown.{shown};
ghost use Rattle.als_record.specs.Validity.{IsValidLog, first_bad};
ghost use Rattle.als_validator.specs.Validated.{IsValidatorOf, HasRoom, judges};
ghost use Rattle.als_log.specs.History.{records_in};
ghost use Rattle.als_lookback.specs.declared.fault.Fault.TheVariants.{Memory as OutOfMemory};
ghost use Rattle.als_lookback.specs.Fronts.{EndsWithin, EndsBelow, is_within};
ghost use Rattle.als_lookback.specs.Judged.{Judged, begun, position_of, reading_of, Takes, Stops};
ghost use Rattle.als_lookback.specs.Refusals.{IsCauseAt, RefusesIn};
ghost use Rattle.als_lookback.specs.Standing.{IsStandingOf};

use crate::doubt::doubts_of;
use crate::fault::Fault;
use crate::standing::{Standing, copied};
use crate::taking::TakeRecord;
use crate::until::Until;
use als_log::History;
use als_receiver::Receiver;
use als_record::{FIRST_LSN, Lsn, RECORD_LIMIT, RecordView};
use als_validator::Validator;
use std::alloc::{AllocError, Global};
use std::marker::Model;

/// A valid log of which the bytes come in pieces. It keeps no record: what a validator knows of
/// them, and the bytes of those that are not taken yet.
pub struct Judge {
    receiver: Receiver,
    validator: Validator,
    history: History,
}

impl Model for Judge {
    ghost use Rattle.als_log.specs.History.{records_in};
    ghost use Rattle.als_lookback.specs.Judged.{Judged, IsJudge};

    ghost Value = { Judged };

    ghost view = { λ j. record {
      pages = j.receiver.pages;
      log = records_in j.history;
      kept = j.receiver.kept;
    } };

    ghost invariant = { λ j. IsJudge j.receiver j.validator (records_in j.history) };
}

// Written out: a derived drop is proved wherever a judge is dropped, this one only here.
impl Drop for Judge {
    fn drop(self) {
        let Judge {
            receiver,
            validator,
            history,
        } = self;
        drop(receiver);
        drop(validator);
        drop(history);
    }
}

/// That the record that is seen may follow the log, with room in the validator to take it.
#[inline(always)]
fn pass(validator: &mut Validator, seen: &RecordView<'_>) -> Result<(), Fault>
    requires { judges validator.old ≡ true }
    ensures good { OnOk result ((pages : ℕ) (log : List AnyRecord)
        → IsValidatorOf pages validator.old log
        → IsValidLog pages log → IsRecord pages (shown seen.now)
        → first_bad log (shown seen.now) ≡ None) }
    ensures room { OnOk result (HasRoom validator.new) }
    ensures err { IfErr result (λ fault. (pages : ℕ) (log : List AnyRecord)
        → IsValidatorOf pages validator.old log
        → IsValidLog pages log → IsRecord pages (shown seen.now)
        → IsCauseAt log (shown seen.now) fault) }
    ensures kept { (pages : ℕ) (log : List AnyRecord) → IsValidatorOf pages validator.old log
        → IsValidatorOf pages validator.new log }
    ensures judging { judges validator.new ≡ judges validator.old }
{
    validator.check(seen)?;
    validator.reserve()?;
    Ok(())
}

/// Whether a record of so many bytes that begins at an LSN is taken.
fn ends_within(until: Until, at: Lsn, len: usize) -> bool
    ensures { result ≡ is_within until (at.0 + len) }
{
    match until {
        Until::End => true,
        Until::At(lsn) => match at.0.checked_add(len as u64) {
            Some(end) => end <= lsn.0,
            // No LSN is so high.
            None => false,
        },
    }
}

impl Judge {
    /// A judge of a log of which the header was read.
    pub fn new(alloc: Global, pages: u32) -> Result<Judge, Fault>
        ensures ok { IfOk result (λ j. j ≡ begun pages) }
        ensures err { IfErr result (λ fault. fault ≡ OutOfMemory) }
    {
        let validator = Validator::new(alloc, pages)?;
        Ok(Judge {
            receiver: Receiver::new(alloc, FIRST_LSN, pages),
            validator,
            history: History::new(),
        })
    }

    /// The offset of the byte that comes next.
    #[inline]
    pub fn position(&self) -> u64
        ensures { result ≡ position_of self.now }
    {
        self.receiver.position()
    }

    /// The offset behind the records judged.
    #[inline]
    pub fn end(&self) -> Lsn
        ensures { result.0 ≡ end_of self.now.log }
    {
        self.receiver.next_lsn()
    }

    /// Where the log ends, and what it leaves open there.
    pub fn standing(&self, alloc: Global) -> Result<Standing, AllocError>
        ensures { IfOk result (λ s. IsStandingOf s self.now.log) }
    {
        let rows = copied(alloc, self.validator.rows())?;
        let doubts = doubts_of(alloc, &self.validator)?;
        Ok(Standing {
            end: self.end(),
            reserve: self.validator.reserve_bytes(),
            greatest: self.validator.greatest(),
            rows,
            doubts,
        })
    }

    /// Whether fewer bytes have come than the longest record has. If not, the next record wants no
    /// more.
    #[inline]
    pub fn is_short(&self) -> bool
        ensures { result ≡ false → reading_of self.now ≢ Ok None }
    {
        self.receiver.partial() < RECORD_LIMIT
    }

    /// Takes the next bytes.
    pub fn push(&mut self, piece: &[u8]) -> Result<(), AllocError>
        requires { position_of self.old + length piece.now < 2 ^ 64 }
        ensures ok { OnOk result (self.new
            ≡ record self.old { kept = self.old.kept ++ piece.now }) }
        ensures same { OnErr result (self.new ≡ self.old) }
    {
        self.receiver.push(piece)
    }

    /// No more bytes come, and none is left. Else the bytes that are left are less than a record, or
    /// the LSN is past them.
    fn stop(&self, until: Until) -> Result<(), Fault>
        requires none { reading_of self.now ≡ Ok None }
        requires below { EndsBelow until self.now.log }
        ensures ok { OnOk result (Stops until self.now) }
        ensures err { IfErr result (RefusesIn until self.now) }
    {
        if self.receiver.partial() > 0 {
            return Err(Fault::Cut);
        }
        match until {
            Until::End => Ok(()),
            Until::At(_) => Err(Fault::PastEnd { end: self.end() }),
        }
    }

    /// Judges the next record, and hands it to a taker where it may follow and ends where the look
    /// may go on. Whether there was one is answered. No more bytes come for it.
    #[inline(always)]
    pub fn hand_to<T: TakeRecord>(
        &mut self,
        alloc: Global,
        until: Until,
        taker: &mut T,
    ) -> Result<bool, Fault>
        requires below { EndsBelow until self.old.log }
        ensures ok { IfOk result (λ more. MatchBool more
            ((r : AnyRecord) × Takes self.old r self.new × EndsWithin until self.new.log
            × T.took taker.old self.old.log r taker.new)
            (Stops until self.old × (self.new ≡ self.old) × (taker.new ≡ taker.old))) }
        ensures err { IfErr result (RefusesIn until self.old) }
        ensures same { OnErr result (self.new ≡ self.old) }
        ensures valid { IsValidLog self.new.pages self.new.log }
    {
        match self.receiver.peek() {
            Ok(Some((seen, len))) => {
                pass(&mut self.validator, &seen)?;
                if !ends_within(until, self.receiver.next_lsn(), len) {
                    return Ok(false);
                }
                let bytes = self.receiver.front(len);
                taker.take(alloc, &self.validator, &seen, bytes)?;
                self.validator.admit(&seen);
                self.history.push_view(&seen);
                self.receiver.advance(len);
                Ok(true)
            }
            Ok(None) => {
                self.stop(until)?;
                Ok(false)
            }
            Err(refusal) => Err(Fault::from(refusal.fault)),
        }
    }
}
