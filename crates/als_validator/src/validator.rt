//! The validator: it decides whether a record may follow the log.
//!
//! It keeps the transaction table, the greatest TransID and the open begin_chkpt, and, as long as
//! it judges, each transaction's surviving updates, the image that each key has and the committed
//! TransIDs.
//!
//! ```text
//! new --> judging -- seal --> sealed
//! ```
//!
//! Rules:
//! 1. `check` asks for the causes of a refusal in the order of their numbers and reports the first
//!    that applies. It changes nothing and takes no memory.
//! 2. `admit` takes a record that passed. What is kept is then that of the log with the record.
//! 3. `reserve` makes room for any one record, so an `admit` after it cannot fail.
//! 4. A sealed log takes only the tail of a takeover, which needs no judging. `seal` drops what
//!    judging alone needs. The rest goes on, for the takeover and for checkpoints.
//!
//! The definitions ask the whole log, from its first record (`first_bad` in als_record). The code
//! asks kept tables, so its cost does not grow with the log. The contracts say that both agree for
//! every valid log.

ghost use Rattle.std.specs.Prelude.{◌≡◌, ◌≢◌, ◌<◌, ℕ, ◌+◌, ◌%◌, ◌^◌, List, []};
ghost use Rattle.std.specs.Prelude.{◌∷◌, ◌++◌, max, map, true, false};
ghost use Rattle.std.specs.Prelude.{None, Ok, Err, IsOk, OnOk, OnErr, IfOk, IfErr, MatchOption};
ghost use Rattle.std.specs.Prelude.{is_some};
ghost use Rattle.als_record.specs.declared.record.Body.{Body as AnyBody};
ghost use Rattle.als_record.specs.declared.record.Record.{Record};
ghost use Rattle.als_record.specs.Spelling.{IsRecord, IsKey};
ghost use Rattle.als_record.specs.Shown.{shown, shown_body, shown_image};
ghost use Rattle.als_record.specs.LogText.{end_of};
ghost use Rattle.als_record.specs.Tail.{reserve_of};
ghost use Rattle.als_record.specs.Transactions.{unended, is_unended, greatest_trans};
ghost use Rattle.als_record.specs.Table.{table_of};
ghost use Rattle.als_record.specs.Validity.{first_bad, checkpoint_after, open_checkpoint};
ghost use Rattle.als_record.specs.Validity.{IsValidLog};
ghost use Rattle.als_analysis.specs.Noted.{IsTableOf, StandsAt, survivor_count};
ghost use Rattle.als_analysis.specs.Open.{rows_of, left_of};
ghost use Rattle.als_validator.specs.declared.fault.Fault.TheVariants.{Memory};
ghost use Rattle.als_validator.specs.FaultNames.{answer_of};
ghost use Rattle.als_validator.specs.KeysNow.{TellsOfKey};
ghost use Rattle.als_validator.specs.Lists.{survivors_in};
ghost use Rattle.als_validator.specs.Validated.{IsJudgedBy, IsValidatorOf, HasRoom, judges};
ghost use Rattle.als_validator.specs.Validated.{room_in};

use crate::fault::Fault;
use crate::judging::Judging;
use crate::key_now::KeyNow;
use als_analysis::{OpenRow, TransTable};
use als_record::{BodyView, Cause, ImageView, KeptUpdate, Key, Lsn, RecordView, TransId};
use std::alloc::Global;

/// What is kept of a valid log to tell which record may follow it: the transaction table, the
/// greatest TransID and the open checkpoint, and until the log is sealed what judging needs. (Mohan
/// et al., TODS 1992, sections 3 and 4.)
pub struct Validator {
    table: TransTable,
    // None: the log was sealed.
    judging: Option<Judging>,
    greatest: TransId,
    // 0: none is open.
    begun: Lsn,
}

// Written out: a derived drop is proved wherever a validator is dropped, this one only here.
impl Drop for Validator {
    fn drop(self) {
        let Validator {
            table,
            judging,
            greatest: _,
            begun: _,
        } = self;
        drop(table);
        drop(judging);
    }
}

/// The LSN of the open begin_chkpt after one more record.
fn next_begun(begun: Lsn, logged: &RecordView<'_>) -> Lsn
    ensures { result.0 ≡ checkpoint_after begun.0 logged.now.lsn.0 (shown_body logged.now.body) }
{
    match &logged.body {
        BodyView::BeginCheckpoint => logged.lsn,
        BodyView::EndCheckpoint { .. } => Lsn(0),
        _ => begun,
    }
}

/// The greatest TransID after one more record.
fn next_greatest(greatest: TransId, logged: &RecordView<'_>) -> TransId
    ensures { result.0 ≡ max greatest.0 logged.now.trans.0 }
{
    if greatest.0 < logged.trans.0 {
        return logged.trans;
    }
    greatest
}

/// Notes a record that may follow the log, as long as records are judged. Its transaction has its
/// row at this place, or none.
fn note_judged(judging: &mut Option<Judging>, place: Option<usize>, logged: &RecordView<'_>)
    requires { room_in judging.old ≡ true }
    ensures kept { (pages : ℕ) (log : List Record) → IsJudgedBy pages judging.old log
        → IsValidLog pages (log ++ (shown logged.now) ∷ [])
        → MatchOption place (is_unended log logged.now.trans.0
        ≡ false) (λ at. StandsAt log logged.now.trans.0 at)
        → IsJudgedBy pages judging.new (log ++ (shown logged.now) ∷ []) }
    ensures same { is_some judging.new ≡ is_some judging.old }
{
    match judging {
        Some(judging) => judging.note(place, logged),
        None => {}
    }
}

/// Notes an update that may follow the log, as long as records are judged. It has this key and these
/// images, and the row of its transaction stands at this place.
#[inline(always)]
fn note_update(
    judging: &mut Option<Judging>,
    at: usize,
    logged: &RecordView<'_>,
    key: Key,
    before: &ImageView<'_>,
    after: &ImageView<'_>,
)
    requires room { room_in judging.old ≡ true }
    requires shows { shown_body logged.now.body
        ≡ AnyBody.Update key (shown_image before.now) (shown_image after.now) }
    ensures kept { (pages : ℕ) (log : List Record) → IsJudgedBy pages judging.old log
        → IsValidLog pages (log ++ (shown logged.now) ∷ [])
        → StandsAt log logged.now.trans.0 at
        → IsJudgedBy pages judging.new (log ++ (shown logged.now) ∷ []) }
    ensures same { is_some judging.new ≡ is_some judging.old }
{
    match judging {
        Some(judging) => judging.note_update(at, logged, key, before, after),
        None => {}
    }
}

impl Validator {
    /// The validator of the empty log of a database with this many pages. It judges. It takes the
    /// room for all that is kept of keys.
    pub fn new(alloc: Global, pages: u32) -> Result<Validator, Fault>
        ensures ok { IfOk result (λ v. IsValidatorOf pages v []) }
        ensures judging { IfOk result (λ v. judges v ≡ true) }
        ensures err { IfErr result (λ e. e ≡ Memory) }
    {
        Ok(Validator {
            table: TransTable::new(alloc)?,
            judging: Some(Judging::new(alloc, pages)?),
            greatest: TransId(0),
            begun: Lsn(0),
        })
    }

    /// Whether it judges records: until `seal`.
    pub fn is_judging(&self) -> bool
        ensures { result ≡ judges self.now }
    {
        self.judging.is_some()
    }

    /// The log is sealed: what is kept to judge records alone is dropped. It is still the validator
    /// of the log, and has room for all that may follow. It takes no memory.
    pub fn seal(&mut self)
        ensures sealed { judges self.new ≡ false }
        ensures kept { (pages : ℕ) (log : List Record) → IsValidatorOf pages self.old log
            → IsValidatorOf pages self.new log }
        ensures room { HasRoom self.new }
    {
        self.judging = None;
    }

    /// The first cause for which a record may not follow the log. `check` answers by it, in the
    /// words of this crate's faults.
    fn first_cause(&self, logged: &RecordView<'_>) -> Option<Cause>
        requires { judges self.now ≡ true }
        ensures { (pages : ℕ) (log : List Record) → IsValidatorOf pages self.now log
            → IsValidLog pages log
            → IsRecord pages (shown logged.now) → result ≡ first_bad log (shown logged.now) }
    {
        match &self.judging {
            Some(judging) => judging.first_cause(&self.table, self.greatest, self.begun, logged),
            // It judges.
            None => unreachable!(),
        }
    }

    /// Whether a record may follow the log, where it stands at the log's end: `Err` carries the
    /// first cause in the order of their numbers. The cost does not depend on how much is kept, but
    /// for a checkpoint's record that wrongly names a transaction.
    pub fn check(&self, logged: &RecordView<'_>) -> Result<(), Fault>
        requires { judges self.now ≡ true }
        ensures exact { (pages : ℕ) (log : List Record) → IsValidatorOf pages self.now log
            → IsValidLog pages log
            → IsRecord pages (shown logged.now)
            → result ≡ answer_of (first_bad log (shown logged.now)) }
        ensures no_memory { IfErr result (λ e. e ≢ Memory) }
    {
        match self.first_cause(logged) {
            None => Ok(()),
            Some(cause) => Err(Fault::Invalid(cause)),
        }
    }

    /// Makes room for one more record, whatever it is: the next `admit` takes no memory. What is
    /// kept stays as it is. A sealed log needs no room.
    #[inline(always)]
    pub fn reserve(&mut self) -> Result<(), Fault>
        ensures ok { OnOk result (HasRoom self.new) }
        ensures err { IfErr result (λ e. e ≡ Memory) }
        ensures kept { (pages : ℕ) (log : List Record) → IsValidatorOf pages self.old log
            → IsValidatorOf pages self.new log }
        ensures judging { judges self.new ≡ judges self.old }
        // Memory is wanted only where there is no room yet.
        ensures reserved { HasRoom self.old → IsOk result }
    {
        match &mut self.judging {
            Some(judging) => judging.reserve(),
            None => Ok(()),
        }
    }

    /// Takes a record that may follow the log: what is kept is that of the log with the record. Of
    /// any other record it is only said that nothing breaks.
    pub fn admit(&mut self, logged: &RecordView<'_>)
        requires { HasRoom self.old }
        ensures kept { (pages : ℕ) (log : List Record) → IsValidatorOf pages self.old log
            → IsValidLog pages (log ++ (shown logged.now) ∷ [])
            → IsValidatorOf pages self.new (log ++ (shown logged.now) ∷ []) }
        ensures judging { judges self.new ≡ judges self.old }
    {
        if let BodyView::Update { key, before, after } = &logged.body {
            if let Some(at) = self.table.place(logged.trans) {
                // The greatest TransID stays: no transaction with a row is above it. An update is no
                // record of a checkpoint.
                note_update(&mut self.judging, at, logged, *key, before, after);
                self.table.note_update(at, logged, before);
                return;
            }
        }
        self.take(logged)
    }

    /// Takes any record, as `admit` does. Most records are updates of a transaction with a row, and
    /// do not come here.
    #[inline(never)]
    fn take(&mut self, logged: &RecordView<'_>)
        requires { HasRoom self.old }
        ensures kept { (pages : ℕ) (log : List Record) → IsValidatorOf pages self.old log
            → IsValidLog pages (log ++ (shown logged.now) ∷ [])
            → IsValidatorOf pages self.new (log ++ (shown logged.now) ∷ []) }
        ensures judging { judges self.new ≡ judges self.old }
    {
        note_judged(&mut self.judging, self.table.place(logged.trans), logged);
        match self.table.note(logged) {
            Ok(()) => {}
            Err(_) => unreachable!(),
        }
        self.greatest = next_greatest(self.greatest, logged);
        self.begun = next_begun(self.begun, logged);
    }

    /// Reads what is kept of the keys that the next records seem to write, so that it is at hand
    /// when they are judged. It answers how many bytes these records seem to have: 32 records at
    /// most, 0 where there is none, or where the log is sealed. The bytes may be any, and nothing
    /// is judged. It takes no memory.
    #[inline(never)]
    pub fn look_ahead(&mut self, bytes: &[u8]) -> usize
        ensures kept { (pages : ℕ) (log : List Record) → IsValidatorOf pages self.old log
            → IsValidatorOf pages self.new log }
        ensures judging { judges self.new ≡ judges self.old }
        ensures room { HasRoom self.old → HasRoom self.new }
    {
        match &mut self.judging {
            Some(judging) => judging.look_ahead(bytes),
            None => 0,
        }
    }

    /// The transaction table.
    pub fn table(&self) -> &TransTable
        ensures value { result.now ≡ self.now.table }
        ensures table { (pages : ℕ) (log : List Record) → IsValidatorOf pages self.now log
            → IsTableOf result.now log }
    {
        &self.table
    }

    /// The updates of an unended transaction that no compensation has undone, in order; none for
    /// any other.
    pub fn survivors_of(&self, trans: TransId) -> &[KeptUpdate]
        requires { judges self.now ≡ true }
        ensures { (pages : ℕ) (log : List Record) → IsValidatorOf pages self.now log
            → result.now ≡ survivors_in log trans.0 }
    {
        match &self.judging {
            Some(judging) => judging.survivors_of(&self.table, trans),
            // It judges.
            None => unreachable!(),
        }
    }

    /// What a key of the database has now, and which open transaction holds it: its writer has to
    /// wait for that one's end. The cost does not depend on how much is kept.
    pub fn key_now(&self, key: Key) -> Option<KeyNow>
        requires { judges self.now ≡ true }
        ensures { (pages : ℕ) (log : List Record) → IsValidatorOf pages self.now log
            → IsValidLog pages log → IsKey pages key
            → MatchOption result (true ≡ false) (λ told. TellsOfKey log key told) }
    {
        match &self.judging {
            Some(judging) => judging.key_now(&self.table, key),
            // It judges.
            None => unreachable!(),
        }
    }

    /// The rows of the transaction table in rising TransID, each with the number of the updates that
    /// survive of its transaction.
    pub fn rows(&self) -> &[OpenRow]
        ensures rows { (pages : ℕ) (log : List Record) → IsValidatorOf pages self.now log
            → rows_of result.now ≡ table_of log }
        ensures left { (pages : ℕ) (log : List Record) → IsValidatorOf pages self.now log
            → left_of result.now ≡ map (λ t. survivor_count log t % 2 ^ 64) (unended log) }
    {
        self.table.rows()
    }

    /// The greatest TransID of the log, 0 for none.
    pub fn greatest(&self) -> TransId
        ensures { (pages : ℕ) (log : List Record) → IsValidatorOf pages self.now log
            → result.0 ≡ greatest_trans log }
    {
        self.greatest
    }

    /// The begin_chkpt that no end_chkpt has followed, 0 for none.
    pub fn open_checkpoint(&self) -> Lsn
        ensures { (pages : ℕ) (log : List Record) → IsValidatorOf pages self.now log
            → result.0 ≡ open_checkpoint log }
    {
        self.begun
    }

    /// The bytes that must stay free behind the log, exact for a log of less than 2^62 bytes.
    pub fn reserve_bytes(&self) -> u64
        ensures { (pages : ℕ) (log : List Record) → IsValidatorOf pages self.now log
            → end_of log < 2 ^ 62 → result ≡ reserve_of log }
    {
        self.table.reserve_bytes()
    }

    /// The bytes that must stay free after one more record that may follow the log, before that is
    /// taken, exact for a log of less than 2^62 bytes. It takes no memory, and the cost
    /// does not depend on how much is kept.
    pub fn reserve_after(&self, logged: &RecordView<'_>) -> u64
        ensures { (pages : ℕ) (log : List Record) → IsValidatorOf pages self.now log
            → logged.now.lsn.0 ≡ end_of log
            → first_bad log (shown logged.now) ≡ None
            → end_of (log ++ (shown logged.now) ∷ []) < 2 ^ 62
            → result ≡ reserve_of (log ++ (shown logged.now) ∷ []) }
    {
        self.table.reserve_after(logged)
    }
}
