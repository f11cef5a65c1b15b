ghost use Rattle.std.specs.Prelude.{◌≡◌, ◌≢◌, ◌⊎◌, ℕ, ◌<◌, ◌≤◌, ◌+◌, ◌^◌, true, false, List, [], ◌∷◌, ◌++◌};
ghost use Rattle.std.specs.Prelude.{length, None, Ok, OnOk, OnErr, IfOk, IfErr, MatchBool};
ghost use Rattle.als_record.specs.declared.record.Record.{Record as AnyRecord};
ghost use Rattle.als_record.specs.Spelling.{IsRecord};
ghost use Rattle.als_record.specs.LogText.{end_of};
ghost use Rattle.als_record.specs.Reading.{word_at};
ghost use Rattle.als_record.specs.Shown.{shown};
ghost use Rattle.als_record.specs.Validity.{IsValidLog, first_bad};
ghost use Rattle.als_validator.specs.Validated.{IsValidatorOf, HasRoom, judges};
ghost use Rattle.als_log.specs.History.{records_in};
ghost use Rattle.als_scan.specs.declared.fault.Fault.TheVariants.{Memory as OutOfMemory};
ghost use Rattle.als_scan.specs.declared.fault.Fault.TheVariants.{BadControl as CutShort};
ghost use Rattle.als_scan.specs.Judged.{Judged, begun, position_of, reading_of, TakesNext, Refuses};
ghost use Rattle.als_scan.specs.Judged.{Takes, IsCauseAt};

use crate::fault::Fault;
use crate::taking::TakeRecord;
use als_log::History;
use als_receiver::Receiver;
use als_record::{HEAD_LEN, Lsn, RECORD_LIMIT, Record, RecordView};
use als_validator::Validator;
use std::alloc::Global;
use std::marker::Model;

/// A valid log of which the bytes come in pieces. It keeps no record: what a validator knows of
/// them, and the bytes of a record that is not whole.
pub(crate) struct Judge {
    receiver: Receiver,
    validator: Validator,
    history: History,
    // So many of the next records were looked ahead at.
    ahead: u32,
}

impl Model for Judge {
    ghost use Rattle.als_log.specs.History.{records_in};
    ghost use Rattle.als_scan.specs.Judged.{Judged, IsJudge};

    ghost Value = { Judged };

    ghost view = { λ j. record {
      pages = j.receiver.pages;
      log = records_in j.history;
      kept = j.receiver.kept;
    } };

    ghost invariant = { λ j. IsJudge j.receiver j.validator (records_in j.history) };
}

// Written out: a derived drop is proved wherever a judge is dropped, this one only here.
impl Drop for Judge {
    fn drop(self) {
        let Judge {
            receiver,
            validator,
            history,
            ahead: _,
        } = self;
        drop(receiver);
        drop(validator);
        drop(history);
    }
}

/// How many records are looked ahead at, in one go.
const AHEAD: u32 = 32;

/// With fewer bytes there is little to look ahead at.
const AHEAD_BYTES: usize = 512;

/// The number in four bytes at a place.
#[inline]
fn word(bytes: &[u8], at: usize) -> u32
    requires { at + 4 ≤ length bytes.now }
    ensures { result ≡ word_at at bytes.now }
{
    let (_, rest) = bytes.split_at(at);
    let (field, _) = rest.split_at(4);
    u32::from_be_bytes([field[0], field[1], field[2], field[3]])
}

/// That the record that is seen may follow the log, with room in the validator to take it.
#[inline(always)]
fn pass(validator: &mut Validator, seen: &RecordView<'_>) -> Result<(), Fault>
    requires { judges validator.old ≡ true }
    ensures good { OnOk result ((pages : ℕ) (log : List AnyRecord)
        → IsValidatorOf pages validator.old log
        → IsValidLog pages log → IsRecord pages (shown seen.now)
        → first_bad log (shown seen.now) ≡ None) }
    ensures room { OnOk result (HasRoom validator.new) }
    ensures err { IfErr result (λ fault. (pages : ℕ) (log : List AnyRecord)
        → IsValidatorOf pages validator.old log
        → IsValidLog pages log → IsRecord pages (shown seen.now)
        → IsCauseAt log (shown seen.now) fault) }
    ensures kept { (pages : ℕ) (log : List AnyRecord) → IsValidatorOf pages validator.old log
        → IsValidatorOf pages validator.new log }
    ensures judging { judges validator.new ≡ judges validator.old }
{
    validator.check(seen)?;
    validator.reserve()?;
    Ok(())
}

/// Lets a validator take the record that is seen, where it may follow the log, and copies it.
// Inlined with all below `Scan::next`, so that a record is not moved from answer to answer.
#[inline(always)]
fn admit(validator: &mut Validator, seen: &RecordView<'_>, alloc: Global) -> Result<Record, Fault>
    requires { judges validator.old ≡ true }
    ensures copy { IfOk result (λ r. r ≡ shown seen.now) }
    ensures good { OnOk result ((pages : ℕ) (log : List AnyRecord)
        → IsValidatorOf pages validator.old log
        → IsValidLog pages log → IsRecord pages (shown seen.now)
        → first_bad log (shown seen.now) ≡ None) }
    ensures ok { OnOk result ((pages : ℕ) (log : List AnyRecord)
        → IsValidatorOf pages validator.old log
        → IsValidLog pages (log ++ shown seen.now ∷ [])
        → IsValidatorOf pages validator.new (log ++ shown seen.now ∷ [])) }
    ensures err { IfErr result (λ fault. (pages : ℕ) (log : List AnyRecord)
        → IsValidatorOf pages validator.old log
        → IsValidLog pages log → IsRecord pages (shown seen.now)
        → IsCauseAt log (shown seen.now) fault) }
    ensures same { OnErr result ((pages : ℕ) (log : List AnyRecord)
        → IsValidatorOf pages validator.old log
        → IsValidatorOf pages validator.new log) }
    ensures judging { judges validator.new ≡ judges validator.old }
{
    pass(validator, seen)?;
    let found = seen.to_record(alloc)?;
    validator.admit(seen);
    Ok(found)
}

impl Judge {
    /// A judge of a log of which the header was read.
    pub(crate) fn new(alloc: Global, pages: u32) -> Result<Judge, Fault>
        ensures ok { IfOk result (λ j. j ≡ begun pages) }
        ensures err { IfErr result (λ fault. fault ≡ OutOfMemory) }
    {
        let validator = Validator::new(alloc, pages)?;
        Ok(Judge {
            receiver: Receiver::new(alloc, Lsn(16), pages),
            validator,
            history: History::new(),
            ahead: 0,
        })
    }

    /// The offset of the byte that comes next.
    #[inline]
    pub(crate) fn position(&self) -> u64
        ensures { result ≡ position_of self.now }
    {
        self.receiver.position()
    }

    /// The offset behind the records judged.
    #[inline]
    pub(crate) fn end(&self) -> Lsn
        ensures { result.0 ≡ end_of self.now.log }
    {
        self.receiver.next_lsn()
    }

    /// Whether fewer bytes have come than the longest record has. If not, the next record wants no
    /// more.
    #[inline]
    pub(crate) fn is_short(&self) -> bool
        ensures { result ≡ false → reading_of self.now ≢ Ok None }
    {
        self.receiver.partial() < RECORD_LIMIT
    }

    /// Whether as many bytes have come as the next record says that it has. If so, it wants no more.
    #[inline]
    pub(crate) fn is_whole(&self) -> bool
        ensures { result ≡ true → reading_of self.now ≢ Ok None }
    {
        let kept = self.receiver.partial();
        if kept < HEAD_LEN {
            return false;
        }
        let size = word(self.receiver.front(kept), 0) as usize;
        size <= kept
    }

    /// Reads what is kept of the keys of the next records, so that it is at hand when they are
    /// judged. Nothing that callers see changes.
    #[inline]
    pub(crate) fn look_ahead(&mut self)
        ensures { self.new ≡ self.old }
    {
        if self.ahead > 0 {
            self.ahead -= 1;
            return;
        }
        let kept = self.receiver.partial();
        if kept < AHEAD_BYTES {
            return;
        }
        self.ahead = AHEAD - 1;
        let _ = self.validator.look_ahead(self.receiver.front(kept));
    }

    /// Takes the next bytes.
    pub(crate) fn push(&mut self, piece: &[u8]) -> Result<(), Fault>
        requires { position_of self.old + length piece.now < 2 ^ 64 }
        ensures ok { OnOk result (self.new
            ≡ record self.old { kept = self.old.kept ++ piece.now }) }
        ensures err { IfErr result (λ fault. fault ≡ OutOfMemory) }
        ensures same { OnErr result (self.new ≡ self.old) }
    {
        self.receiver.push(piece)?;
        Ok(())
    }

    /// Whether no byte is left, where the next record is not whole. No more bytes come for it: what
    /// is left and less than a record is refused.
    fn stops(&self) -> Result<(), Fault>
        ensures ok { OnOk result (length self.now.kept ≡ 0) }
        ensures err { IfErr result (λ fault. (fault ≡ CutShort) × (0 < length self.now.kept)) }
    {
        if self.receiver.partial() == 0 {
            return Ok(());
        }
        Err(Fault::BadControl)
    }

    /// Judges the next record, and takes it where it may follow; `None` where no byte is left. No
    /// more bytes come for it: what is left and less than a record is refused.
    #[inline(always)]
    pub(crate) fn take_one(&mut self, alloc: Global) -> Result<Option<Record>, Fault>
        ensures ok { IfOk result (λ found. TakesNext self.old found self.new) }
        ensures err { IfErr result (λ fault. Refuses self.old fault) }
        ensures same { OnErr result (self.new ≡ self.old) }
        ensures valid { IsValidLog self.new.pages self.new.log }
    {
        match self.receiver.peek() {
            Ok(Some((seen, len))) => {
                let found = admit(&mut self.validator, &seen, alloc)?;
                self.history.push(&found);
                self.receiver.advance(len);
                Ok(Some(found))
            }
            Ok(None) => {
                self.stops()?;
                Ok(None)
            }
            Err(refusal) => Err(Fault::from(refusal.fault)),
        }
    }

    /// Judges the next record, and hands it to a taker where it may follow. Whether there was one is
    /// answered. Nothing is copied.
    #[inline(always)]
    pub(crate) fn hand_to<T: TakeRecord>(
        &mut self,
        alloc: Global,
        taker: &mut T,
    ) -> Result<bool, Fault>
        requires can { (r : AnyRecord) → IsValidLog self.old.pages (self.old.log ++ r ∷ [])
            → T.can taker.old r }
        ensures ok { IfOk result (λ more. MatchBool more
            ((r : AnyRecord) × Takes self.old r self.new
            × T.took taker.old self.old.log r taker.new)
            (TakesNext self.old None self.new × (taker.new ≡ taker.old))) }
        ensures err { IfErr result (λ fault. Refuses self.old fault) }
        ensures same { OnErr result (self.new ≡ self.old) }
        ensures keeps { (taker.new ≡ taker.old) ⊎ T.keeps taker.old taker.new }
        ensures valid { IsValidLog self.new.pages self.new.log }
    {
        match self.receiver.peek() {
            Ok(Some((seen, len))) => {
                pass(&mut self.validator, &seen)?;
                taker.take(alloc, &self.validator, &seen)?;
                self.validator.admit(&seen);
                self.history.push_view(&seen);
                self.receiver.advance(len);
                Ok(true)
            }
            Ok(None) => {
                self.stops()?;
                Ok(false)
            }
            Err(refusal) => Err(Fault::from(refusal.fault)),
        }
    }

    /// What the validator knows of the records judged.
    #[inline]
    pub(crate) fn validator(&self) -> &Validator
        ensures known { IsValidatorOf self.now.pages result.now self.now.log }
        ensures judging { judges result.now ≡ true }
    {
        &self.validator
    }

    /// The validator and the records judged.
    pub(crate) fn into_parts(self) -> (Validator, History)
        ensures known { IsValidatorOf self.pages result.0 self.log }
        ensures judging { judges result.0 ≡ true }
        ensures history { records_in result.1 ≡ self.log }
        ensures valid { IsValidLog self.pages self.log }
    {
        let Judge {
            receiver,
            validator,
            history,
            ahead: _,
        } = self;
        drop(receiver);
        (validator, history)
    }
}
