ghost use Rattle.std.specs.Prelude.{◌≡◌, ◌≢◌, ◌⊎◌, ℕ, ◌<◌, ◌≤◌, List, [], ◌∷◌, ◌++◌, Option, Some};
ghost use Rattle.std.specs.Prelude.{length, take, OnOk, IfOk, IfErr, MatchBool, Ok};
ghost use Rattle.std.specs.Io.KnownBytes.{Consumes, IsAtEnd};
ghost use Rattle.als_record.specs.declared.record.Record.{Record as AnyRecord};
ghost use Rattle.als_record.specs.declared.header.LogHeader.{LogHeader as AnyHeader};
ghost use Rattle.als_record.specs.HeaderReading.{read_header};
ghost use Rattle.als_record.specs.LogText.{header_bytes, end_of};
ghost use Rattle.als_record.specs.Validity.{IsValidLog};
ghost use Rattle.als_lookback.specs.declared.fault.Fault.TheVariants.{BadHeader as NoHeader};
ghost use Rattle.als_lookback.specs.Fronts.{EndsWithin, EndsBelow, is_reached};
ghost use Rattle.als_lookback.specs.Readings.{Reads, HasStopped, IsReady, judged_in};
ghost use Rattle.als_lookback.specs.Refusals.{RefusesNext, HasNoHeader, IsOfTaker};
ghost use Rattle.als_lookback.specs.Standing.{IsStandingOf};

use crate::fault::Fault;
use crate::judge::Judge;
use crate::standing::Standing;
use crate::taking::TakeRecord;
use crate::until::Until;
use als_folder::LOG_LIMIT;
use als_record::{LogHeader, Lsn};
use std::alloc::{AllocError, Global};
use std::io::{ErrorKind, Read};
use std::marker::Model;

/// How many bytes are read at once.
const PIECE: usize = 65_536;

/// A log that is read from its first byte on. Memory holds what a validator keeps of the records
/// taken, and the bytes of the longest record and of one piece at most.
pub(crate) struct Reading<R: Read> {
    alloc: Global,
    reader: R,
    /// Whether the reader has no more.
    spent: bool,
    piece: Vec<u8>,
    pages: u32,
    judge: Judge,
}

impl<R: Read> Model for Reading<R> {
    ghost use Rattle.std.specs.Prelude.{◌≡◌, true, vec_len};
    ghost use Rattle.std.specs.Io.KnownBytes.{IsAtEnd};
    ghost use Rattle.als_record.specs.Validity.{IsValidLog};
    ghost use Rattle.als_lookback.specs.Readings.{Reading};

    ghost Value = { Reading };

    ghost view = { λ r. record {
      pages = r.pages;
      log = r.judge.log;
      kept = r.judge.kept;
      unread = R.remaining r.reader;
    } };

    ghost invariant = { λ r. (r.spent ≡ true → IsAtEnd (R.remaining r.reader))
        × (vec_len r.piece ≡ 65536) × (r.judge.pages ≡ r.pages)
        × IsValidLog r.judge.pages r.judge.log };
}

// Written out: a derived drop is proved wherever a reading is dropped, this one only here.
impl<R: Read + Drop> Drop for Reading<R> {
    fn drop(self) {
        let Reading {
            alloc: _,
            reader,
            spent: _,
            piece,
            pages: _,
            judge,
        } = self;
        drop(reader);
        drop(piece);
        drop(judge);
    }
}

/// Reads what comes next into a piece, and answers how many bytes that are: 0 where none is left.
///
/// Stream: the reader failed.
fn read_piece<R: Read>(reader: &mut R, piece: &mut [u8]) -> Result<usize, Fault>
    requires { 0 < length piece.old }
    ensures size { length piece.new ≡ length piece.old }
    ensures ok { IfOk result (λ n. (n ≤ length piece.new)
        × Consumes (R.remaining reader.old) (R.remaining reader.new) (take n piece.new)
        × (n ≡ 0 → IsAtEnd (R.remaining reader.new))) }
    ensures err { IfErr result IsOfTaker }
{
    for _ in 0..u64::MAX {
        match reader.read(piece) {
            Ok(n) => return Ok(n),
            Err(e) => {
                if e.kind() != ErrorKind::Interrupted {
                    return Err(Fault::from(e));
                }
            }
        }
    }
    Err(Fault::Stream)
}

/// Reads until a header has come, or until none of the reader's bytes is left, which is answered.
fn read_front<R: Read>(reader: &mut R, piece: &mut [u8], front: &mut Vec<u8>) -> Result<bool, Fault>
    requires { 0 < length piece.old }
    ensures size { length piece.new ≡ length piece.old }
    ensures ok { IfOk result (λ spent. (more : List ℕ)
        × (front.new.items ≡ front.old.items ++ more)
        × Consumes (R.remaining reader.old) (R.remaining reader.new) more
        × MatchBool spent (IsAtEnd (R.remaining reader.new)) (16 ≤ length front.new.items)) }
    ensures err { IfErr result IsOfTaker }
{
    for _ in 0..u64::MAX {
        if front.len() >= 16 {
            return Ok(false);
        }
        let n = read_piece(reader, piece)?;
        if n == 0 {
            return Ok(true);
        }
        front.extend_from_slice(&piece[..n])?;
    }
    Err(Fault::Stream)
}

/// The page count that the header says at the front of these bytes.
fn pages_of(front: &[u8]) -> Result<u32, Fault>
    ensures ok { IfOk result (λ pages. (take 16 front.now ≡ header_bytes pages)
        × (16 ≤ length front.now)) }
    ensures err { IfErr result (λ fault. (fault ≡ NoHeader)
        × ((h : AnyHeader) → read_header front.now ≢ Ok (Some h))) }
{
    match LogHeader::decode(front) {
        Ok(Some(header)) => Ok(header.pages),
        Ok(None) | Err(_) => Err(Fault::BadHeader),
    }
}

impl<R: Read> Reading<R> {
    /// Reads the header of a log.
    ///
    /// BadHeader: there is none. Stream: the reader failed. Memory: there was none for a piece.
    pub(crate) fn new(alloc: Global, reader: R) -> Result<Reading<R>, Fault>
    where
        R: Drop,
        ensures none { IfOk result (λ r. r.log ≡ []) }
        ensures ok { IfOk result (Reads (R.remaining reader)) }
        ensures err { IfErr result (λ fault. IsOfTaker fault
            ⊎ ((fault ≡ NoHeader) × HasNoHeader (R.remaining reader))) }
    {
        let mut reader = reader;
        let mut piece = vec![in alloc; 0_u8; PIECE]?;
        let mut front = Vec::new(alloc);
        let spent = read_front(&mut reader, &mut piece, &mut front)?;
        let pages = pages_of(&front)?;
        let mut judge = Judge::new(alloc, pages)?;
        let (_, behind) = front.split_at(16);
        judge.push(behind)?;
        Ok(Reading {
            alloc,
            reader,
            spent,
            piece,
            pages,
            judge,
        })
    }

    /// The page count of the log's database.
    pub(crate) fn pages(&self) -> u32
        ensures { result ≡ self.now.pages }
    {
        self.pages
    }

    /// The offset behind the records taken, 16 before the first.
    pub(crate) fn end(&self) -> Lsn
        ensures end { result.0 ≡ end_of self.now.log }
        ensures valid { IsValidLog self.now.pages self.now.log }
    {
        self.judge.end()
    }

    /// Where the log of the records taken ends, and what it leaves open there.
    pub(crate) fn standing(&self) -> Result<Standing, AllocError>
        ensures { IfOk result (λ s. IsStandingOf s self.now.log) }
    {
        self.judge.standing(self.alloc)
    }

    /// Reads one piece. Stream: the reader failed, or it has more than the largest log.
    fn read_more(&mut self) -> Result<(), Fault>
        ensures same { (self.new.pages ≡ self.old.pages) × (self.new.log ≡ self.old.log) }
        ensures ok { OnOk result ((text : Option (List ℕ)) → Reads text self.old
            → Reads text self.new) }
        ensures err { IfErr result IsOfTaker }
    {
        if self.judge.position() > LOG_LIMIT {
            return Err(Fault::Stream);
        }
        // Of what a read leaves that fails nothing is known.
        self.spent = false;
        let n = read_piece(&mut self.reader, &mut self.piece)?;
        if n == 0 {
            self.spent = true;
            return Ok(());
        }
        self.judge.push(&self.piece[..n])?;
        Ok(())
    }

    /// Reads on until as many bytes have come as the longest record has, or until the reader has no
    /// more.
    fn fill(&mut self) -> Result<(), Fault>
        ensures same { (self.new.pages ≡ self.old.pages) × (self.new.log ≡ self.old.log) }
        ensures ok { OnOk result ((text : Option (List ℕ)) → Reads text self.old
            → Reads text self.new) }
        ensures ready { OnOk result (IsReady (judged_in self.new) self.new.unread) }
        ensures err { IfErr result IsOfTaker }
    {
        for _ in 0..u64::MAX {
            if self.spent || !self.judge.is_short() {
                return Ok(());
            }
            self.read_more()?;
        }
        Err(Fault::Stream)
    }

    /// Hands the next record to a taker, where no more bytes are wanted for it.
    fn hand_next<T: TakeRecord>(&mut self, until: Until, taker: &mut T) -> Result<bool, Fault>
        requires ready { IsReady (judged_in self.old) self.old.unread }
        requires below { EndsBelow until self.old.log }
        ensures ok { IfOk result (λ more. MatchBool more
            ((r : AnyRecord) × (self.new.log ≡ self.old.log ++ r ∷ [])
            × EndsWithin until self.new.log × T.took taker.old self.old.log r taker.new)
            (HasStopped until self.new × (self.new.log ≡ self.old.log)
            × (taker.new ≡ taker.old))) }
        ensures pages { self.new.pages ≡ self.old.pages }
        ensures text { (text : Option (List ℕ)) → Reads text self.old → Reads text self.new }
        ensures valid { IsValidLog self.new.pages self.new.log }
        ensures err { IfErr result (λ fault. RefusesNext until self.new fault
            × (self.new.log ≡ self.old.log)) }
    {
        let more = self.judge.hand_to(self.alloc, until, taker)?;
        Ok(more)
    }

    /// Hands the next record to a taker, if it is one that may follow, and the look goes on behind it.
    /// Else the look has stopped.
    ///
    /// Shape: the bytes are no record. Invalid: it may not follow. Cut: the text ends within it.
    /// PastEnd: the log ends below the LSN. Stream: the reader failed, or what the taker writes to.
    /// Memory: an allocation failed.
    #[tactic(auto, using(crate::proofs::StepLaws::reached_stops, crate::proofs::StepLaws::unreached_below))]
    pub(crate) fn take_next<T: TakeRecord>(
        &mut self,
        until: Until,
        taker: &mut T,
    ) -> Result<bool, Fault>
        requires within { EndsWithin until self.old.log }
        ensures ok { IfOk result (λ more. MatchBool more
            ((r : AnyRecord) × (self.new.log ≡ self.old.log ++ r ∷ [])
            × EndsWithin until self.new.log × T.took taker.old self.old.log r taker.new)
            (HasStopped until self.new × (self.new.log ≡ self.old.log)
            × (taker.new ≡ taker.old))) }
        ensures pages { self.new.pages ≡ self.old.pages }
        ensures text { OnOk result ((text : Option (List ℕ)) → Reads text self.old
            → Reads text self.new) }
        ensures valid { OnOk result (IsValidLog self.new.pages self.new.log) }
        ensures err { IfErr result (λ fault. IsOfTaker fault
            ⊎ (RefusesNext until self.new fault × (self.new.log ≡ self.old.log)
            × IsValidLog self.new.pages self.new.log
            × ((text : Option (List ℕ)) → Reads text self.old → Reads text self.new))) }
    {
        if is_reached(until, self.end()) {
            return Ok(false);
        }
        self.fill()?;
        let more = self.hand_next(until, taker)?;
        Ok(more)
    }
}

/// Whether a log that ends here needs no look at its next record.
fn is_reached(until: Until, end: Lsn) -> bool
    ensures { result ≡ is_reached until end.0 }
{
    match until {
        Until::End => false,
        Until::At(lsn) => end == lsn,
    }
}
